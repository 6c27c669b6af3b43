//! The tokens of a text: words, texts in quotes and signs, with blanks between them.
//!
//! MySQL 8.0 Reference Manual, "String Literals" and "Schema Object Names". Blanks are space, tab, CR
//! and LF. A word is letters, digits, `_` and `$`. Within quotes a doubled quote is that quote, and in
//! `'` and `"` a backslash and the byte behind it stand for one byte, or for both where that byte is
//! `%` or `_`. A byte that begins no token, and a quote that isn't closed, are a bad token, the last.

ghost use Rattle.std.specs.Prelude.{◌≡◌, ◌++◌, OnOk, IfOk};
ghost use Rattle.stmt_tokens.specs.Tokens.{escape_of, finished, grown, is_blank, is_quote, is_sign, is_word_byte, kind_within, opened, start_of_scan, stepped, tokens, with_token};

use lg_base::{Bytes, Memory};
use std::alloc::Global;
use std::marker::Model;

/// What a token is.
#[derive(Clone, Copy, Debug, PartialEq, Eq)]
pub enum Kind {
    /// A word, as written.
    Word,
    /// What `'` or `"` quotes, its escapes resolved.
    Text,
    /// What backquotes quote.
    Quoted,
    /// One of `@*.,;()`.
    Sign,
    /// No token: a byte that begins none, or a quote that isn't closed.
    Bad,
}

/// A token, and the place of its first byte in the text.
#[derive(Debug, Drop)]
pub struct Token {
    pub place: usize,
    pub kind: Kind,
    pub text: Bytes,
}

/// Where a scan stands.
#[derive(Clone, Copy, Debug, PartialEq, Eq)]
enum Mode {
    /// Between tokens.
    Between,
    /// In a word.
    Word,
    /// Inside this quote.
    Inside(u8),
    /// Behind a backslash inside this quote.
    Escaped(u8),
    /// Behind a quote that closes, or is doubled.
    Closing(u8),
    /// Behind a bad token: nothing more is read.
    Stopped,
}

/// A scan of a text, byte by byte.
#[derive(Drop)]
struct Scan {
    made: Vec<Token>,
    mode: Mode,
    start: usize,
    held: Vec<u8>,
    alloc: Global,
}

impl Model for Scan {
    ghost use Rattle.stmt_tokens.specs.Tokens.{Scanned};

    ghost Value = { Scanned };

    ghost view = { λ s. record { made = s.made.items; mode = s.mode; start = s.start; held = s.held.items } };
}

fn is_blank(byte: u8) -> bool
    ensures { result ≡ is_blank byte }
{
    byte == b' ' || byte == b'\t' || byte == b'\r' || byte == b'\n'
}

fn is_word_byte(byte: u8) -> bool
    ensures { result ≡ is_word_byte byte }
{
    byte.is_ascii_alphanumeric() || byte == b'_' || byte == b'$'
}

fn is_quote(byte: u8) -> bool
    ensures { result ≡ is_quote byte }
{
    byte == b'\'' || byte == b'"' || byte == b'`'
}

fn is_sign(byte: u8) -> bool
    ensures { result ≡ is_sign byte }
{
    byte == b'@'
        || byte == b'*'
        || byte == b'.'
        || byte == b','
        || byte == b';'
        || byte == b'('
        || byte == b')'
}

impl Scan {
    /// A scan before its first byte.
    fn new(alloc: Global) -> Scan
        ensures { result ≡ start_of_scan }
    {
        Scan {
            made: Vec::new(alloc),
            mode: Mode::Between,
            start: 0,
            held: Vec::new(alloc),
            alloc,
        }
    }

    /// Adds a token of this kind with the bytes that are held. No token is open then.
    fn add(&mut self, place: usize, kind: Kind) -> Result<(), Memory>
        ensures { OnOk result (self.new ≡ with_token place kind self.old) }
    {
        let held = std::mem::replace(&mut self.held, Vec::new(self.alloc));
        let text = Bytes::from_vec(held);
        self.made.push(Token { place, kind, text })?;
        self.mode = Mode::Between;
        Ok(())
    }

    /// Takes a byte into the open token.
    fn grow(&mut self, byte: u8) -> Result<(), Memory>
        ensures { OnOk result (self.new ≡ grown byte self.old) }
    {
        self.held.push(byte)?;
        Ok(())
    }

    /// Takes what a backslash and this byte stand for.
    fn escape(&mut self, byte: u8) -> Result<(), Memory>
        ensures { OnOk result (self.new ≡ record self.old { held = (self.old).held ++ escape_of byte }) }
    {
        match byte {
            b'0' => self.held.push(0)?,
            b'n' => self.held.push(b'\n')?,
            b'r' => self.held.push(b'\r')?,
            b't' => self.held.push(b'\t')?,
            b'b' => self.held.push(8)?,
            b'Z' => self.held.push(0x1a)?,
            b'%' | b'_' => self.held.extend_from_slice(&[b'\\', byte])?,
            _ => self.held.push(byte)?,
        }
        Ok(())
    }

    /// Takes a byte between tokens.
    #[tactic(auto, unfolding(crate::specs::Tokens::opened))]
    fn open(&mut self, place: usize, byte: u8) -> Result<(), Memory>
        ensures { OnOk result (self.new ≡ opened place byte self.old) }
    {
        if is_blank(byte) {
            return Ok(());
        }
        self.start = place;
        if is_word_byte(byte) {
            self.mode = Mode::Word;
            return self.grow(byte);
        }
        if is_quote(byte) {
            self.mode = Mode::Inside(byte);
            return Ok(());
        }
        if is_sign(byte) {
            self.grow(byte)?;
            return self.add(place, Kind::Sign);
        }
        self.add(place, Kind::Bad)?;
        self.mode = Mode::Stopped;
        Ok(())
    }

    /// Takes a byte.
    #[tactic(auto, unfolding(crate::specs::Tokens::stepped))]
    fn step(&mut self, place: usize, byte: u8) -> Result<(), Memory>
        ensures { OnOk result (self.new ≡ stepped place byte self.old) }
    {
        let start = self.start;
        match self.mode {
            Mode::Between => self.open(place, byte),
            Mode::Word => {
                if is_word_byte(byte) {
                    return self.grow(byte);
                }
                self.add(start, Kind::Word)?;
                self.open(place, byte)
            }
            Mode::Inside(quote) => {
                if byte == quote {
                    self.mode = Mode::Closing(quote);
                    return Ok(());
                }
                if byte == b'\\' && quote != b'`' {
                    self.mode = Mode::Escaped(quote);
                    return Ok(());
                }
                self.grow(byte)
            }
            Mode::Escaped(quote) => {
                self.mode = Mode::Inside(quote);
                self.escape(byte)
            }
            Mode::Closing(quote) => {
                if byte == quote {
                    self.mode = Mode::Inside(quote);
                    return self.grow(byte);
                }
                self.add(start, kind_within(quote))?;
                self.open(place, byte)
            }
            Mode::Stopped => Ok(()),
        }
    }

    /// Ends the scan at the text's end.
    #[tactic(auto, unfolding(crate::specs::Tokens::finished))]
    fn finish(&mut self) -> Result<(), Memory>
        ensures { OnOk result (self.new ≡ finished self.old) }
    {
        let start = self.start;
        match self.mode {
            Mode::Between | Mode::Stopped => Ok(()),
            Mode::Word => self.add(start, Kind::Word),
            Mode::Inside(_) | Mode::Escaped(_) => self.add(start, Kind::Bad),
            Mode::Closing(quote) => self.add(start, kind_within(quote)),
        }
    }
}

/// What a quote quotes.
fn kind_within(quote: u8) -> Kind
    ensures { result ≡ kind_within quote }
{
    if quote == b'`' {
        Kind::Quoted
    } else {
        Kind::Text
    }
}

/// The tokens of a text, in order.
#[tactic(auto, unfolding(crate::specs::Tokens::tokens))]
pub fn tokens(alloc: Global, text: &[u8]) -> Result<Vec<Token>, Memory>
    ensures { IfOk result (λ made. made.items ≡ tokens text.now) }
{
    let mut scan = Scan::new(alloc);
    for (place, byte) in text.iter().enumerate() {
        scan.step(place, *byte)?;
    }
    scan.finish()?;
    let Scan {
        made,
        mode: _,
        start: _,
        held: _,
        alloc: _,
    } = scan;
    Ok(made)
}
