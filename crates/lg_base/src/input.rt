//! The reader of wire fields: a cursor over bytes that another value keeps, as "Protocol Data Types" of
//! the MySQL client/server protocol documentation lays the fields out.

ghost use Rattle.std.specs.Prelude.{◌≡◌, ◌==◌, position};

use std::marker::Model;

/// Why a field can't be read.
#[derive(Clone, Copy, Debug, PartialEq, Eq)]
pub enum ReadFault {
    /// The bytes end before the field does. `at` is the length of the whole input.
    Short { at: usize },
    /// A length-encoded integer begins with FB or FF. `at` is the place of that byte.
    BadLenenc { at: usize },
}

/// A cursor over bytes, from the first to the last. After a fault it stands where it stood.
#[derive(Debug, Drop)]
pub struct Reader<'a> {
    at: usize,
    rest: &'a [u8],
}

impl<'a> Model for Reader<'a> {
    ghost use Rattle.lg_base.specs.Reading.{Cursor};
    ghost use Rattle.std.specs.Prelude.{◌+◌, ◌<◌, ◌^◌, length};

    ghost Value = { Cursor };

    ghost view = { λ r. record { at = r.at; rest = r.rest.now } };

    ghost invariant = { λ r. r.at + length r.rest.now < 2 ^ 64 };
}

impl<'a> Reader<'a> {
    ghost use Rattle.lg_base.specs.Reading.{Takes, bytes_at, first, lenenc_at, number_at, short, text_at};
    ghost use Rattle.std.specs.Prelude.{◌≡◌, ◌+◌, [], length};

    /// A cursor at the first byte.
    pub fn new(bytes: &'a [u8]) -> Reader<'a>
        ensures { result ≡ record { at = 0; rest = bytes.now } }
    {
        Reader { at: 0, rest: bytes }
    }

    /// The place of the next byte, counted from 0: the length of the whole input at its end.
    pub fn at(&self) -> usize
        ensures { result ≡ self.now.at }
    {
        self.at
    }

    /// The next byte, which stays where it is, or that none is left.
    pub fn peek(&self) -> Option<u8>
        ensures { result ≡ first self.now.rest }
    {
        match self.rest {
            [] => None,
            [x, ..] => Some(*x),
        }
    }

    /// The next `n` bytes.
    #[tactic(auto, unfolding(crate::specs::Reading::bytes_at))]
    pub fn take(&mut self, n: u64) -> Result<&'a [u8], ReadFault>
        ensures { Takes (λ x. x.now) (bytes_at n) self.old self.new result }
    {
        let held = self.rest.len();
        if (held as u64) < n {
            return Err(ReadFault::Short { at: self.at + held });
        }
        let (front, rest) = self.rest.split_at(n as usize);
        self.at += n as usize;
        self.rest = rest;
        Ok(front)
    }

    /// One byte.
    #[tactic(auto, unfolding(crate::specs::Reading::number_at))]
    pub fn read_u8(&mut self) -> Result<u8, ReadFault>
        ensures { Takes (λ x. x) (number_at 1) self.old self.new result }
    {
        let [x, rest @ ..] = self.rest else {
            return Err(self.short());
        };
        self.at += 1;
        self.rest = rest;
        Ok(*x)
    }

    /// A number in two bytes.
    #[tactic(auto, unfolding(crate::specs::Reading::number_at))]
    pub fn read_u16(&mut self) -> Result<u16, ReadFault>
        ensures { Takes (λ x. x) (number_at 2) self.old self.new result }
    {
        let [a, b, rest @ ..] = self.rest else {
            return Err(self.short());
        };
        self.at += 2;
        self.rest = rest;
        Ok(u16::from_le_bytes([*a, *b]))
    }

    /// A number in three bytes.
    #[tactic(auto, unfolding(crate::specs::Reading::number_at))]
    pub fn read_u24(&mut self) -> Result<u32, ReadFault>
        ensures { Takes (λ x. x) (number_at 3) self.old self.new result }
    {
        let [a, b, c, rest @ ..] = self.rest else {
            return Err(self.short());
        };
        self.at += 3;
        self.rest = rest;
        Ok(u32::from_le_bytes([*a, *b, *c, 0]))
    }

    /// A number in four bytes.
    #[tactic(auto, unfolding(crate::specs::Reading::number_at))]
    pub fn read_u32(&mut self) -> Result<u32, ReadFault>
        ensures { Takes (λ x. x) (number_at 4) self.old self.new result }
    {
        let [a, b, c, d, rest @ ..] = self.rest else {
            return Err(self.short());
        };
        self.at += 4;
        self.rest = rest;
        Ok(u32::from_le_bytes([*a, *b, *c, *d]))
    }

    /// A length-encoded integer, in its shortest form or a longer one.
    #[tactic(auto, unfolding(crate::specs::Reading::lenenc_at))]
    pub fn lenenc(&mut self) -> Result<u64, ReadFault>
        ensures { Takes (λ x. x) lenenc_at self.old self.new result }
    {
        let mut ahead = Reader {
            at: self.at,
            rest: self.rest,
        };
        let x = match ahead.read_u8()? {
            0xfc => u64::from(ahead.read_u16()?),
            0xfd => u64::from(ahead.read_u24()?),
            0xfe => ahead.read_u64()?,
            0xff | 0xfb => return Err(ReadFault::BadLenenc { at: self.at }),
            x => u64::from(x),
        };
        *self = ahead;
        Ok(x)
    }

    /// A text up to its 00, which is read too and isn't part of it.
    #[tactic(auto, unfolding(crate::specs::Reading::text_at))]
    pub fn nul_text(&mut self) -> Result<&'a [u8], ReadFault>
        ensures { Takes (λ x. x.now) text_at self.old self.new result }
    {
        let Some(size) = first_zero(self.rest) else {
            return Err(self.short());
        };
        let (text, _) = self.rest.split_at(size);
        let (_, rest) = self.rest.split_at(size + 1);
        self.at += size + 1;
        self.rest = rest;
        Ok(text)
    }

    /// All bytes that are left.
    pub fn rest(&mut self) -> &'a [u8]
        ensures all { result.now ≡ self.old.rest }
        ensures end { self.new ≡ record { at = self.old.at + length self.old.rest; rest = [] } }
    {
        let rest = self.rest;
        self.at += rest.len();
        self.rest = &[];
        rest
    }

    /// A number in eight bytes.
    #[tactic(auto, unfolding(crate::specs::Reading::number_at))]
    fn read_u64(&mut self) -> Result<u64, ReadFault>
        ensures { Takes (λ x. x) (number_at 8) self.old self.new result }
    {
        let [a, b, c, d, e, f, g, h, rest @ ..] = self.rest else {
            return Err(self.short());
        };
        self.at += 8;
        self.rest = rest;
        Ok(u64::from_le_bytes([*a, *b, *c, *d, *e, *f, *g, *h]))
    }

    /// The fault of a field that passes the end.
    fn short(&self) -> ReadFault
        ensures { result ≡ short self.now }
    {
        ReadFault::Short {
            at: self.at + self.rest.len(),
        }
    }
}

/// The place of the first 00.
fn first_zero(bytes: &[u8]) -> Option<usize>
    ensures { result ≡ position (λ x. x == 0) bytes.now }
{
    bytes.iter().position(|x| *x == 0)
}
