//! The words of a line, and what a word means: bytes, a number, a session.

ghost use Rattle.script_text.specs.Words.{digits_from, from_one, hex_word, number_word, pair, parts, parts_behind, session_word, single, within, words};
ghost use Rattle.std.specs.Prelude.{◌≡◌, ◌+◌, ◌-◌, ◌*◌, ◌<◌, ◌^◌, ◌∷◌, ◌==◌, IfOk, IfSome, length, option_map, position};
ghost use Rattle.std.specs.Option.{SomeIff, option_copied};

use lg_base::{Bytes, Memory};
use std::alloc::Global;
use std::marker::Model;

/// The place of the first `separator` in `text`.
fn place_of(text: &[u8], separator: u8) -> Option<usize>
    ensures first { result ≡ position (λ b. b == separator) text.now }
    ensures within { IfSome result (λ at. at < length text.now) }
{
    text.iter().position(|b| *b == separator)
}

/// The part of `text` before the first `separator`, and what is behind it, if it stands there.
#[tactic(auto, using(crate::proofs::Cuts::uncut, crate::proofs::Cuts::cut_at))]
pub fn cut(text: &[u8], separator: u8) -> (&[u8], Option<&[u8]>)
    ensures parts { parts separator text.now ≡ result.0.now ∷ parts_behind separator (option_copied result.1) }
    ensures shorter { IfSome result.1 (λ behind. length behind.now < length text.now) }
{
    match place_of(text, separator) {
        None => (text, None),
        Some(at) => {
            let (part, _) = text.split_at(at);
            let (_, behind) = text.split_at(at + 1);
            (part, Some(behind))
        }
    }
}

/// Words that are left of a line.
#[derive(Drop)]
pub struct Words<'a> {
    rest: Option<&'a [u8]>,
}

impl<'a> Model for Words<'a> {
    ghost use Rattle.script_text.specs.Words.{parts_behind};
    ghost use Rattle.std.specs.Prelude.{List, ℕ};
    ghost use Rattle.std.specs.Option.{option_copied};

    ghost Value = { List (List ℕ) };

    ghost view = { λ w. parts_behind 32 (option_copied w.rest) };
}

impl<'a> Words<'a> {
    ghost use Rattle.script_text.specs.Words.{all_text, is_none_left, one_to_three, pair, single, with_text, words};
    ghost use Rattle.std.specs.Prelude.{◌≡◌, ◌∷◌, [], MatchOption, option_map};
    ghost use Rattle.std.specs.Option.{option_copied};

    /// The first word of a line, and the words behind it.
    pub fn split(line: &'a [u8]) -> (&'a [u8], Words<'a>)
        ensures { words line.now ≡ result.0.now ∷ result.1 }
    {
        let (word, rest) = cut(line, b' ');
        (word, Words { rest })
    }

    /// Whether no word is left.
    #[tactic(auto, using(crate::proofs::Cuts::not_none_left))]
    pub fn is_empty(&self) -> bool
        ensures { result ≡ is_none_left self.now }
    {
        match self.rest {
            None => true,
            Some(_) => false,
        }
    }

    /// The word, if exactly one is left.
    #[tactic(auto, using(crate::proofs::Cuts::not_single))]
    pub fn one(&self) -> Option<&'a [u8]>
        ensures { option_copied result ≡ single self.now }
    {
        let Some(rest) = self.rest else {
            return None;
        };
        match cut(rest, b' ') {
            (word, None) => Some(word),
            (_, Some(_)) => None,
        }
    }

    /// The two words, if exactly two are left.
    #[tactic(auto, using(crate::proofs::Cuts::not_single, crate::proofs::Cuts::not_pair))]
    pub fn two(&self) -> Option<(&'a [u8], &'a [u8])>
        ensures { option_map (λ p. (p.0.now, p.1.now)) result ≡ pair self.now }
    {
        let Some(rest) = self.rest else {
            return None;
        };
        let (first, Some(rest)) = cut(rest, b' ') else {
            return None;
        };
        match cut(rest, b' ') {
            (second, None) => Some((first, second)),
            (_, Some(_)) => None,
        }
    }

    /// The next word and those behind it, if one is left.
    pub fn next(&self) -> Option<(&'a [u8], Words<'a>)>
        ensures { MatchOption result (self.now ≡ []) (λ p. self.now ≡ p.0.now ∷ p.1) }
    {
        let Some(rest) = self.rest else {
            return None;
        };
        Some(Words::split(rest))
    }

    /// The words, if one to three are left.
    pub fn one_to_three(&self) -> Option<(&'a [u8], Option<&'a [u8]>, Option<&'a [u8]>)>
        ensures { option_map (λ p. (p.0.now, option_copied p.1, option_copied p.2)) result ≡ one_to_three self.now }
    {
        let Some((first, words)) = self.next() else {
            return None;
        };
        let Some((second, words)) = words.next() else {
            return Some((first, None, None));
        };
        let Some((third, words)) = words.next() else {
            return Some((first, Some(second), None));
        };
        if words.is_empty() {
            Some((first, Some(second), Some(third)))
        } else {
            None
        }
    }

    /// The text behind the space, if one stands there.
    #[tactic(auto, using(crate::proofs::Cuts::texted))]
    pub fn text(&self) -> Option<&'a [u8]>
        ensures { option_copied result ≡ all_text self.now }
    {
        self.rest
    }

    /// The next word and the text behind its space, if one stands there.
    pub fn with_text(&self) -> Option<(&'a [u8], &'a [u8])>
        ensures { option_map (λ p. (p.0.now, p.1.now)) result ≡ with_text self.now }
    {
        let Some(rest) = self.rest else {
            return None;
        };
        let (word, text) = cut(rest, b' ');
        match text {
            None => None,
            Some(text) => Some((word, text)),
        }
    }
}

/// The bytes of a word of hexadecimal digits, at least two, or of `-` for no bytes.
pub fn bytes_of(alloc: Global, word: &[u8]) -> Result<Option<Bytes>, Memory>
    ensures { IfOk result (λ found. found ≡ hex_word word.now) }
{
    if word == b"-".as_slice() {
        return Ok(Some(Bytes::copy(alloc, &[])?));
    }
    match hex::decode(alloc, word) {
        Ok(bytes) => {
            if bytes.is_empty() {
                return Ok(None);
            }
            Ok(Some(Bytes::from_vec(bytes)))
        }
        Err(hex::FromHexError::OutOfMemory) => Err(Memory),
        Err(_) => Ok(None),
    }
}

/// The number with one more digit, where it fits.
fn with_digit(number: u64, digit: u8) -> Option<u64>
    ensures { SomeIff result (10 * number + (digit - 48) < 2 ^ 64) (10 * number + (digit - 48)) }
{
    let shifted = number.checked_mul(10)?;
    shifted.checked_add(u64::from(digit.saturating_sub(b'0')))
}

/// The number that decimal digits stand for, where it isn't above `most`.
fn digits_of(digits: &[u8], most: u64) -> Option<u64>
    ensures { result ≡ within most (digits_from 0 digits.now) }
{
    let mut number: u64 = 0;
    for digit in digits {
        if !digit.is_ascii_digit() {
            return None;
        }
        match with_digit(number, *digit) {
            Some(longer) if longer <= most => number = longer,
            _ => return None,
        }
    }
    Some(number)
}

/// The number of a decimal word without sign or leading zero, where it isn't above `most`.
pub fn number_of(word: &[u8], most: u64) -> Option<u64>
    ensures { result ≡ number_word most word.now }
{
    match word {
        [] => None,
        [_] => digits_of(word, most),
        [b'0', ..] => None,
        _ => digits_of(word, most),
    }
}

/// The number of a session, from 1 to 4294967295.
pub fn session_of(word: &[u8]) -> Option<u32>
    ensures { result ≡ session_word word.now }
{
    match number_of(word, 4_294_967_295) {
        None | Some(0) => None,
        Some(number) => Some(number as u32),
    }
}
