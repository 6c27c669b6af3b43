//! A cursor over the tokens of a text, and the calls by which every rule of the grammar takes them.

ghost use Rattle.std.specs.Prelude.{◌≡◌, ◌↔◌, [], IsTrue, drop, length, if◌then◌else◌, MatchOption, true, false, IfOk};
ghost use Rattle.stmt_rules.specs.Forms.{begins, first_text, gives, next, refused};
ghost use Rattle.stmt_rules.specs.Grammar.{just};
ghost use Rattle.stmt_tokens.specs.Patterns.{InQuotes, Number, Part, PartLike, Sign, Text, Word, number_of};
ghost use Rattle.stmt_rules.specs.Taking.{Takes, place_of};

use lg_base::{Bytes, Memory};
use std::alloc::Global;
use std::marker::Model;
use stmt_tokens::{Kind, Token, number_of};

/// Why a rule reads nothing.
#[derive(Clone, Copy, Debug, PartialEq, Eq)]
pub enum Fault {
    /// No statement fits at the cursor's token.
    Here,
    /// No memory was to be had.
    Memory,
}

impl From<Memory> for Fault {
    ghost use Rattle.std.specs.Prelude.{◌≡◌};
    ghost use Rattle.stmt_rules.specs.declared.cursor.Fault.TheVariants as fault;

    ghost from_gives = { λ _ made. made ≡ fault.Memory };

    fn from(_refused: Memory) -> Fault {
        Fault::Memory
    }
}

/// The tokens that are left.
#[derive(Drop)]
pub struct Cursor<'a> {
    rest: &'a [Token],
}

impl<'a> Model for Cursor<'a> {
    ghost use Rattle.std.specs.Prelude.{List};
    ghost use Rattle.stmt_tokens.specs.declared.token.Token.{Token};

    ghost Value = { List Token };

    ghost view = { λ c. c.rest.now };
}

impl<'a> Cursor<'a> {
    /// A cursor at the first of these tokens.
    pub fn new(tokens: &'a [Token]) -> Cursor<'a>
        ensures { result ≡ tokens.now }
    {
        Cursor { rest: tokens }
    }

    /// How many tokens are left.
    pub fn len(&self) -> usize
        ensures { result ≡ length self.now }
    {
        self.rest.len()
    }

    /// Whether no token is left.
    pub fn is_at_end(&self) -> bool
        ensures { IsTrue result ↔ (self.now ≡ []) }
    {
        self.rest.is_empty()
    }

    /// The place of the next token in a text of `size` bytes: `size` at the end.
    pub fn place(&self, size: usize) -> usize
        ensures { result ≡ place_of size self.now }
    {
        match self.rest {
            [] => size,
            [token, ..] => token.place,
        }
    }

    /// Takes the next token, if it is the unquoted word.
    pub fn takes_word(&mut self, word: &[u8]) -> bool
        ensures taken { result ≡ begins (Word word.now) self.old }
        ensures rest { self.new ≡ (if result then drop 1 self.old else self.old) }
    {
        let [token, rest @ ..] = self.rest else {
            return false;
        };
        let taken = token.is_word(word);
        if taken {
            self.rest = rest;
        }
        taken
    }

    /// Takes the next token, if it is that sign.
    pub fn takes_sign(&mut self, byte: u8) -> bool
        ensures taken { result ≡ begins (Sign byte) self.old }
        ensures rest { self.new ≡ (if result then drop 1 self.old else self.old) }
    {
        let [token, rest @ ..] = self.rest else {
            return false;
        };
        let taken = token.is_sign(byte);
        if taken {
            self.rest = rest;
        }
        taken
    }

    /// The unquoted word must be next.
    pub fn word(&mut self, word: &[u8]) -> Result<(), Fault>
        ensures { Takes (just (Word word.now) (gives tt)) self.old self.new result }
    {
        if self.takes_word(word) {
            Ok(())
        } else {
            Err(Fault::Here)
        }
    }

    /// That sign must be next.
    pub fn sign(&mut self, byte: u8) -> Result<(), Fault>
        ensures { Takes (just (Sign byte) (gives tt)) self.old self.new result }
    {
        if self.takes_sign(byte) {
            Ok(())
        } else {
            Err(Fault::Here)
        }
    }

    /// A word or a quoted name must be next: its text.
    pub fn part(&mut self, alloc: Global) -> Result<Bytes, Fault>
        ensures { Takes (next Part gives refused) self.old self.new result }
    {
        let [token, rest @ ..] = self.rest else {
            return Err(Fault::Here);
        };
        if !token.is_part() {
            return Err(Fault::Here);
        }
        let text = Bytes::copy(alloc, token.text.as_slice())?;
        self.rest = rest;
        Ok(text)
    }

    /// A string must be next: its text.
    pub fn string(&mut self, alloc: Global) -> Result<Bytes, Fault>
        ensures { Takes (next Text gives refused) self.old self.new result }
    {
        let [token, rest @ ..] = self.rest else {
            return Err(Fault::Here);
        };
        if token.kind != Kind::Text {
            return Err(Fault::Here);
        }
        let text = Bytes::copy(alloc, token.text.as_slice())?;
        self.rest = rest;
        Ok(text)
    }

    /// A number must be next.
    pub fn number(&mut self) -> Result<u32, Fault>
        ensures { Takes (next Number (λ x. gives (number_of x)) refused) self.old self.new result }
    {
        let [token, rest @ ..] = self.rest else {
            return Err(Fault::Here);
        };
        if !token.is_number() {
            return Err(Fault::Here);
        }
        self.rest = rest;
        Ok(number_of(token.text.as_slice()))
    }

    /// Takes the next token, if it is a part that is the word.
    pub fn takes_part(&mut self, word: &[u8]) -> bool
        ensures taken { result ≡ begins (PartLike word.now) self.old }
        ensures rest { self.new ≡ (if result then drop 1 self.old else self.old) }
    {
        let [token, rest @ ..] = self.rest else {
            return false;
        };
        let taken = token.is_part_like(word);
        if taken {
            self.rest = rest;
        }
        taken
    }

    /// Takes the next token, if it stands in quotes and is that text.
    pub fn takes_quoted(&mut self, text: &[u8]) -> bool
        ensures taken { result ≡ begins (InQuotes text.now) self.old }
        ensures rest { self.new ≡ (if result then drop 1 self.old else self.old) }
    {
        let [token, rest @ ..] = self.rest else {
            return false;
        };
        let taken = token.is_in_quotes(text);
        if taken {
            self.rest = rest;
        }
        taken
    }

    /// Takes the next token, if it is the unquoted word: its text, as written.
    pub fn takes_written(&mut self, alloc: Global, word: &[u8]) -> Result<Option<Bytes>, Memory>
        ensures { IfOk result (λ found. MatchOption found
            ((begins (Word word.now) self.old ≡ false) × (self.new ≡ self.old))
            (λ x. (begins (Word word.now) self.old ≡ true) × (x ≡ first_text self.old) × (self.new ≡ drop 1 self.old))) }
    {
        let [token, rest @ ..] = self.rest else {
            return Ok(None);
        };
        if !token.is_word(word) {
            return Ok(None);
        }
        let text = Bytes::copy(alloc, token.text.as_slice())?;
        self.rest = rest;
        Ok(Some(text))
    }
}
