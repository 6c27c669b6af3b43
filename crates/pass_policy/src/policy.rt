//! A password policy, and the judgement of a password by it.

ghost use Rattle.std.specs.Prelude.{◌≡◌, ◌+◌, ◌*◌, ◌<◌, ◌≤◌, ◌↔◌, ◌⊎◌, [], ◌∷◌, ◌++◌, length, true, false, IfOk, OnOk, OnErr};
ghost use Rattle.std.specs.Str.{str_to_ascii_lowercase};
ghost use Rattle.pass_policy.specs.Rules.{is_special};

use crate::parts::has_part;
use lg_base::{Bytes, Memory};
use std::alloc::Global;
use std::marker::Model;

/// The fewest bytes of a word, and of a password that has a strength.
const SHORTEST: usize = 4;

/// The most bytes of a word.
const LONGEST_WORD: usize = 100;

/// What is asked of a password: `validate_password.policy`, or nothing.
#[derive(Debug, Clone, Copy, PartialEq, Eq)]
pub enum Level {
    /// Every password is taken.
    Off,
    /// LOW: the length alone.
    Low,
    /// MEDIUM: also digits, letters of both cases, and bytes that are neither.
    Medium,
    /// STRONG: also no word of the dictionary.
    Strong,
}

/// Why a word isn't taken into the dictionary.
#[derive(Debug, Clone, Copy, PartialEq, Eq)]
pub enum PolicyFault {
    /// It hasn't 4 to 100 bytes.
    WordLength,
    /// No memory was to be had.
    Memory,
}

impl From<Memory> for PolicyFault {
    ghost use Rattle.std.specs.Prelude.{◌≡◌};
    ghost use Rattle.pass_policy.specs.declared.policy.PolicyFault.TheVariants as fault;

    ghost from_gives = { λ _ made. made ≡ fault.Memory };

    fn from(_refused: Memory) -> PolicyFault {
        PolicyFault::Memory
    }
}

/// What is asked of passwords, with the words of the dictionary.
#[derive(Debug, Drop)]
pub struct Policy {
    level: Level,
    length: u16,
    digits: u16,
    mixed: u16,
    special: u16,
    check_user: bool,
    words: Vec<Bytes>,
}

impl Model for Policy {
    ghost use Rattle.pass_policy.specs.Rules.{Rules};
    ghost use Rattle.std.specs.Prelude.{◌≤◌};

    ghost Value = { Rules };

    ghost view = { λ p. record {
      level = p.level;
      length = p.length;
      digits = p.digits;
      mixed = p.mixed;
      special = p.special;
      check_user = p.check_user;
      words = p.words.items;
    } };

    // As `new` takes them, so that their sum fits.
    ghost invariant = { λ p. (p.length ≤ 256) × (p.digits ≤ 256) × (p.mixed ≤ 256) × (p.special ≤ 256) };
}

/// The policy that takes every password.
pub fn off(alloc: Global) -> Policy
    ensures { result ≡ record {
      level = Level.Off;
      length = 0;
      digits = 0;
      mixed = 0;
      special = 0;
      check_user = false;
      words = [];
    } }
{
    Policy::new(alloc, Level::Off, 0, 0, 0, 0, false)
}

impl Policy {
    ghost use Rattle.pass_policy.specs.Rules.{has_digits, has_lower, has_mixed, has_special, has_upper, has_word, is_low, is_medium, is_refused, is_strong, length_in_force, level_strength, meets_policy, strength_of};

    /// A policy without words: the variables `policy`, `length`, `number_count`, `mixed_case_count`,
    /// `special_char_count` and `check_user_name` of `validate_password`. It takes no memory yet.
    pub fn new(
        alloc: Global,
        level: Level,
        length: u16,
        digits: u16,
        mixed: u16,
        special: u16,
        check_user: bool,
    ) -> Policy
        requires length { length ≤ 256 }
        requires digits { digits ≤ 256 }
        requires mixed { mixed ≤ 256 }
        requires special { special ≤ 256 }
        ensures { result ≡ record {
          level = level;
          length = length;
          digits = digits;
          mixed = mixed;
          special = special;
          check_user = check_user;
          words = [];
        } }
    {
        Policy {
            level,
            length,
            digits,
            mixed,
            special,
            check_user,
            words: Vec::new(alloc),
        }
    }

    /// Adds a word to the dictionary, in lower-case ASCII. After a fault the policy is unchanged.
    pub fn add_word(&mut self, word: &[u8]) -> Result<(), PolicyFault>
        ensures length { (result ≡ Err PolicyFault.WordLength)
            ↔ ((length word.now < 4) ⊎ (100 < length word.now)) }
        ensures ok { OnOk result (self.new ≡ record self.old {
          words = (self.old).words ++ str_to_ascii_lowercase word.now ∷ [];
        }) }
        ensures err { OnErr result (self.new ≡ self.old) }
    {
        if word.len() < SHORTEST || word.len() > LONGEST_WORD {
            return Err(PolicyFault::WordLength);
        }
        let word = lower(*self.words.allocator(), word)?;
        match self.words.push(word) {
            Ok(()) => Ok(()),
            Err(_) => Err(PolicyFault::Memory),
        }
    }

    /// Whether a password of `user` meets the policy.
    pub fn meets(&self, user: &[u8], password: &[u8]) -> Result<bool, Memory>
        ensures { IfOk result (λ met. met ≡ meets_policy self.now user.now password.now) }
    {
        let has_level = match self.level {
            Level::Off => return Ok(true),
            Level::Low => self.is_low(password),
            Level::Medium => self.is_medium(password),
            Level::Strong => self.is_medium(password) && !self.has_word(password)?,
        };
        Ok(has_level && !self.is_refused(user, password)?)
    }

    /// How strong a password of `user` is: 0, 25, 50, 75 or 100. Words count at every level but `Off`.
    pub fn strength(&self, user: &[u8], password: &[u8]) -> Result<u8, Memory>
        ensures { IfOk result (λ strength. strength ≡ strength_of self.now user.now password.now) }
    {
        if self.level == Level::Off || password.len() < SHORTEST {
            return Ok(0);
        }
        if self.is_refused(user, password)? {
            return Ok(0);
        }
        self.level_strength(password)
    }

    /// The strength by the highest level that the password has.
    fn level_strength(&self, password: &[u8]) -> Result<u8, Memory>
        ensures { IfOk result (λ strength. strength ≡ level_strength self.now password.now) }
    {
        if !self.is_low(password) {
            return Ok(25);
        }
        if !self.is_medium(password) {
            return Ok(50);
        }
        Ok(if self.has_word(password)? { 75 } else { 100 })
    }

    /// The length in force.
    fn length_in_force(&self) -> usize
        ensures { result ≡ length_in_force self.now }
    {
        let counted = usize::from(self.digits)
            + usize::from(self.special)
            + 2 * usize::from(self.mixed);
        usize::from(self.length).max(counted)
    }

    /// Whether the password is long enough.
    fn is_low(&self, password: &[u8]) -> bool
        ensures { result ≡ is_low self.now password.now }
    {
        password.len() >= self.length_in_force()
    }

    /// Whether the password is long enough and has the bytes of each kind.
    fn is_medium(&self, password: &[u8]) -> bool
        ensures { result ≡ is_medium self.now password.now }
    {
        self.is_low(password)
            && self.has_digits(password)
            && self.has_mixed(password)
            && self.has_special(password)
    }

    /// Whether the password has digits enough.
    fn has_digits(&self, password: &[u8]) -> bool
        ensures { result ≡ has_digits self.now password.now }
    {
        let digits = password.iter().filter(|b| b.is_ascii_digit()).count();
        digits >= usize::from(self.digits)
    }

    /// Whether the password has letters enough of each case.
    fn has_mixed(&self, password: &[u8]) -> bool
        ensures { result ≡ has_mixed self.now password.now }
    {
        self.has_lower(password) && self.has_upper(password)
    }

    /// Whether the password has lower-case letters enough.
    fn has_lower(&self, password: &[u8]) -> bool
        ensures { result ≡ has_lower self.now password.now }
    {
        let lower = password.iter().filter(|b| b.is_ascii_lowercase()).count();
        lower >= usize::from(self.mixed)
    }

    /// Whether the password has upper-case letters enough.
    fn has_upper(&self, password: &[u8]) -> bool
        ensures { result ≡ has_upper self.now password.now }
    {
        let upper = password.iter().filter(|b| b.is_ascii_uppercase()).count();
        upper >= usize::from(self.mixed)
    }

    /// Whether the password has enough bytes that are neither digits nor letters.
    fn has_special(&self, password: &[u8]) -> bool
        ensures { result ≡ has_special self.now password.now }
    {
        let special = password.iter().filter(|b| is_special(**b)).count();
        special >= usize::from(self.special)
    }

    /// Whether a word stands somewhere in the password, in any case.
    fn has_word(&self, password: &[u8]) -> Result<bool, Memory>
        ensures { IfOk result (λ found. found ≡ has_word self.now password.now) }
    {
        let password = lower(*self.words.allocator(), password)?;
        let password = password.as_slice();
        Ok(
            self.words
                .iter()
                .any(|word| has_part(word.as_slice(), password)),
        )
    }

    /// Whether the password is refused for the user's name.
    fn is_refused(&self, user: &[u8], password: &[u8]) -> Result<bool, Memory>
        ensures { IfOk result (λ refused. refused ≡ is_refused self.now user.now password.now) }
    {
        if !self.check_user {
            return Ok(false);
        }
        let reversed: Vec<u8> = user.iter().rev().copied().collect(*self.words.allocator())?;
        Ok(password == user || password == reversed.as_slice())
    }
}

/// Whether a byte is neither a digit nor a letter.
fn is_special(byte: u8) -> bool
    ensures { result ≡ is_special byte }
{
    !byte.is_ascii_alphanumeric()
}

/// A text in lower-case ASCII.
fn lower(alloc: Global, text: &[u8]) -> Result<Bytes, Memory>
    ensures { IfOk result (λ lowered. lowered ≡ str_to_ascii_lowercase text.now) }
{
    let lowered: Vec<u8> = text.iter().map(|b| b.to_ascii_lowercase()).collect(alloc)?;
    Ok(Bytes::from_vec(lowered))
}
