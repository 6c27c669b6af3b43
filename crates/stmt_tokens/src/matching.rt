//! What a rule of a grammar may ask of a token, and the numbers that words of digits stand for.
//!
//! Words compare in any case of ASCII letters, and a number above 4294967295 stands for 4294967295.

ghost use Rattle.std.specs.Prelude.{◌≡◌, ◌+◌, ◌*◌, ◌-◌, ◌<◌, min};
ghost use Rattle.std.specs.Char.{is_ascii_digit};
ghost use Rattle.std.specs.List.{list_all};
ghost use Rattle.stmt_tokens.specs.Patterns.{InQuotes, Number, Part, PartLike, Sign, Word, fits, is_quoted, is_same, number_of};

use crate::token::{Kind, Token};

/// Whether two texts are the same letters, in any case.
#[tactic(auto, unfolding(crate::specs::Patterns::is_same))]
fn is_same(left: &[u8], right: &[u8]) -> bool
    ensures { result ≡ is_same left.now right.now }
{
    left.eq_ignore_ascii_case(right)
}

impl Token {
    /// Whether this is the unquoted word, in any case.
    pub fn is_word(&self, word: &[u8]) -> bool
        ensures { result ≡ fits (Word word.now) self.now }
    {
        self.kind == Kind::Word && is_same(self.text.as_slice(), word)
    }

    /// Whether this is that sign.
    pub fn is_sign(&self, byte: u8) -> bool
        ensures { result ≡ fits (Sign byte) self.now }
    {
        self.kind == Kind::Sign && self.text.as_slice() == [byte].as_slice()
    }

    /// Whether this stands in any quotes.
    pub fn is_quoted(&self) -> bool
        ensures { result ≡ is_quoted (self.now).kind }
    {
        self.kind == Kind::Text || self.kind == Kind::Quoted
    }

    /// Whether this is a word or stands in any quotes.
    pub fn is_part(&self) -> bool
        ensures { result ≡ fits Part self.now }
    {
        self.kind == Kind::Word || self.is_quoted()
    }

    /// Whether this is a part that is the word, in any case.
    pub fn is_part_like(&self, word: &[u8]) -> bool
        ensures { result ≡ fits (PartLike word.now) self.now }
    {
        self.is_part() && is_same(self.text.as_slice(), word)
    }

    /// Whether this is what quotes quote, and is that text.
    pub fn is_in_quotes(&self, text: &[u8]) -> bool
        ensures { result ≡ fits (InQuotes text.now) self.now }
    {
        self.is_quoted() && self.text.as_slice() == text
    }

    /// Whether this is a word of decimal digits.
    pub fn is_number(&self) -> bool
        ensures { result ≡ fits Number self.now }
    {
        self.kind == Kind::Word && is_digits(self.text.as_slice())
    }
}

/// Whether these are decimal digits alone.
fn is_digits(text: &[u8]) -> bool
    ensures { result ≡ list_all is_ascii_digit text.now }
{
    text.iter().all(|byte| byte.is_ascii_digit())
}

/// The number with one more digit, 4294967295 at most.
fn with_digit(number: u64, digit: u8) -> u64
    requires { number < 4294967296 }
    ensures { result ≡ min (10 * number + (digit - 48)) 4294967295 }
{
    let longer = 10 * number + u64::from(digit.saturating_sub(b'0'));
    if longer < 4_294_967_295 {
        longer
    } else {
        4_294_967_295
    }
}

/// The number that decimal digits stand for, 4294967295 at most.
#[tactic(auto, unfolding(crate::specs::Patterns::number_of))]
pub fn number_of(digits: &[u8]) -> u32
    ensures { result ≡ number_of digits.now }
{
    let mut number: u64 = 0;
    for digit in digits {
        number = with_digit(number, *digit);
    }
    number as u32
}
