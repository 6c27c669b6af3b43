//! Draws by ChaCha20. They tell nothing of what they have given.

ghost use Rattle.rand_chacha.specs.ChaCha.{key_of};
ghost use Rattle.server_outside.specs.Streams.{made_from, stream_letters};
ghost use Rattle.server_outside.specs.Telling.{Gave, untold_draws};
ghost use Rattle.sha256_crypt.specs.Alphabet.{IsSaltByte};
ghost use Rattle.std.specs.List.{All};
ghost use Rattle.std.specs.Prelude.{◌≡◌};

use crate::draws::Draws;
use rand_chacha::ChaCha20Rng;
use rand_core::SeedableRng;
use rand_core::utils::NextWord;
use sha256_crypt::salt_byte;
use std::io;
use std::marker::Model;
use std::random::RandomSource;

/// How many letters a draw has.
const LETTERS: usize = 20;

/// Draws of which each takes the next 20 words of a stream of ChaCha20, each word modulo 64 as a place in the alphabet
/// `./0-9A-Za-z`.
#[derive(Drop)]
pub struct ChaChaDraws {
    words: ChaCha20Rng,
}

impl Model for ChaChaDraws {
    ghost use Rattle.rand_chacha.specs.ChaCha.{ChaCha};

    ghost Value = { ChaCha };

    ghost view = { λ d. d.words };
}

impl ChaChaDraws {
    /// The draws of the session with this id: those of the stream with its number.
    pub fn new(seed: [u8; 32], id: u32) -> ChaChaDraws
        ensures { result ≡ record { key = key_of seed; stream = id; word_pos = 0 } }
    {
        let mut words = ChaCha20Rng::from_seed(seed);
        words.set_stream(u64::from(id));
        ChaChaDraws { words }
    }
}

/// A seed from the random source of the runtime. Nothing is claimed of its bytes.
pub fn random_seed<R: RandomSource>(source: &R) -> io::Result<[u8; 32]> {
    let mut seed = [0u8; 32];
    source.fill_bytes(&mut seed)?;
    Ok(seed)
}

impl Draws for ChaChaDraws {
    ghost use Rattle.server_outside.specs.Streams.{Origin};

    ghost Made = { Origin };

    ghost made_with = { made_from };

    ghost given = { λ _. untold_draws };

    fn draw(&mut self) -> [u8; 20]
        ensures letters { All IsSaltByte result }
        ensures made { made_from self.new ≡ made_from self.old }
        ensures given { Gave untold_draws untold_draws result }

        ensures drawn { (result, self.new) ≡ stream_letters 20 self.old }
    {
        next_letters(&mut self.words)
    }
}

/// The letters of the next 20 words.
fn next_letters(words: &mut ChaCha20Rng) -> [u8; 20]
    ensures drawn { (result, words.new) ≡ stream_letters 20 words.old }
{
    let mut letters = [b'.'; LETTERS];
    let mut count = 0;
    'letters: while count < LETTERS {
        letters[count] = salt_byte((words.next_word() % 64) as u8);
        count += 1;
    }
    letters
}
