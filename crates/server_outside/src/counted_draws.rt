//! Draws in memory, which are numbers in digits and are told to contracts.

ghost use Rattle.lg_outside.specs.Faults.{counted};
ghost use Rattle.server_outside.specs.Numbered.{after_draw, numbered, told_draws};
ghost use Rattle.server_outside.specs.Telling.{Gave};
ghost use Rattle.sha256_crypt.specs.Alphabet.{IsSaltByte};
ghost use Rattle.std.specs.List.{All};
ghost use Rattle.std.specs.Prelude.{◌≡◌, true};

use crate::draws::Draws;
use std::marker::Model;

/// How many bytes a draw has.
const DIGITS: usize = 20;

/// Draws of which the k-th, from 1, is the number k in 20 decimal digits. After 2^64 - 1 that number is given again, and
/// from then on they aren't told.
#[derive(Debug, Drop)]
pub struct CountedDraws {
    drawn: u64,
    is_told: bool,
}

impl Model for CountedDraws {
    ghost use Rattle.server_outside.specs.Numbered.{Count};

    ghost Value = { Count };

    ghost view = { λ d. record { drawn = d.drawn; told = d.is_told } };
}

impl CountedDraws {
    /// Draws of which none was given.
    pub fn new() -> CountedDraws
        ensures { result ≡ record { drawn = 0; told = true } }
    {
        CountedDraws {
            drawn: 0,
            is_told: true,
        }
    }
}

impl Draws for CountedDraws {
    ghost Made = { Unit {0} };

    ghost made_with = { λ _. tt };

    ghost given = { told_draws };

    fn draw(&mut self) -> [u8; 20]
        ensures letters { All IsSaltByte result }
        ensures made { tt {0} ≡ tt }
        ensures given { Gave (told_draws self.old) (told_draws self.new) result }

        ensures value { result ≡ numbered (counted self.old.drawn) }
        ensures after { self.new ≡ after_draw self.old }
    {
        if self.drawn == u64::MAX {
            self.is_told = false;
        } else {
            self.drawn += 1;
        }
        digits_of(self.drawn)
    }
}

/// A number in 20 decimal digits, with leading zeros.
#[tactic(auto, unfolding(crate::specs::Numbered::numbered))]
fn digits_of(number: u64) -> [u8; 20]
    ensures { result ≡ numbered number }
{
    let mut text = [b'0'; DIGITS];
    let mut rest = number;
    let mut place = DIGITS;
    'digits: while place > 0 {
        place -= 1;
        text[place] = b'0' + (rest % 10) as u8;
        rest /= 10;
    }
    text
}
