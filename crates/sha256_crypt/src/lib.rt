//! SHA-256 crypt: the sum that stands for a password in a stored text. It follows Ulrich Drepper's
//! text "Unix crypt using SHA-256 and SHA-512" in all but one point: the salt has up to 20 bytes and
//! isn't cut to 16. Here too stands the alphabet of salts and sums, `./0-9A-Za-z`.
//!
//! **`crypt` gives what that text says of whole lists of bytes**, by repetition and joining
//! (`specs/Crypt.antt`). It hashes piece by piece from fixed arrays and takes no memory. The
//! hash is `sha2`'s.
#![tactic(auto)]

ghost use Rattle.std.specs.Prelude.{◌≡◌, ◌≤◌, length};
ghost use Rattle.std.specs.List.{All};
ghost use Rattle.sha256_crypt.specs.Alphabet.{IsSaltByte};
ghost use Rattle.sha256_crypt.specs.Crypt.{crypt_of};

use digests::{digest_of_copies, start_digest, stretched};
use encoding::encoded;
pub use encoding::salt_byte;
use rounds::after_rounds;

mod digests;
mod encoding;
mod rounds;

/// The sum of a password under a salt: SHA-256 crypt, in so many rounds.
pub fn crypt(password: &[u8], salt: &[u8], rounds: u32) -> [u8; 43]
    requires password_length { length password.now ≤ 256 }
    requires salt_length { length salt.now ≤ 20 }
    requires some_rounds { 1 ≤ rounds }
    requires most_rounds { rounds ≤ 4095000 }
    ensures value { result ≡ crypt_of password.now salt.now rounds }
    ensures alphabet { All IsSaltByte result }
{
    let start = start_digest(password, salt);
    let password_digest = digest_of_copies(password, password.len());
    let password_sequence: [u8; 256] = stretched(&password_digest, password.len());
    let salt_digest = digest_of_copies(salt, 16 + usize::from(start[0]));
    let salt_sequence: [u8; 20] = stretched(&salt_digest, salt.len());
    let last = after_rounds(
        start,
        &password_sequence[..password.len()],
        &salt_sequence[..salt.len()],
        rounds,
    );
    encoded(&last)
}
