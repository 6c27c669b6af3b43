//! A growing list of bytes to which wire fields and texts are written, as "Protocol Data Types" of the
//! MySQL client/server protocol documentation lays them out.

ghost use Rattle.lg_base.specs.Fields.{lenenc_text, little_text};
ghost use Rattle.std.specs.Prelude.{◌≡◌, ◌<◌, [], ◌∷◌, ◌++◌, OnOk, OnErr, Contains, take};

use crate::allocation::Memory;
use crate::byte_list::Bytes;
use std::alloc::Global;
use std::marker::Model;

/// Bytes written so far. Each call that answers `Memory` leaves them as they were.
#[derive(Debug, Drop)]
pub struct Out {
    written: Vec<u8>,
}

impl Model for Out {
    ghost use Rattle.std.specs.Prelude.{List, ℕ, ◌<◌, All};

    ghost Value = { List ℕ };

    ghost view = { λ o. o.written.items };
}

impl Out {
    /// No bytes yet.
    pub fn new(alloc: Global) -> Out
        ensures { result ≡ [] }
    {
        Out {
            written: Vec::new(alloc),
        }
    }

    /// The allocator whose memory holds the bytes.
    pub fn allocator(&self) -> Global {
        *self.written.allocator()
    }

    /// No bytes yet, on the same memory.
    pub fn beside(&self) -> Out
        ensures { result ≡ [] }
    {
        Out::new(self.allocator())
    }

    /// Adds `text` at the end.
    pub fn bytes(&mut self, text: &[u8]) -> Result<(), Memory>
        ensures ok { OnOk result (self.new ≡ self.old ++ text.now) }
        ensures err { OnErr result (self.new ≡ self.old) }
    {
        self.written.extend_from_slice(text)?;
        Ok(())
    }

    /// Adds one byte.
    pub fn byte(&mut self, x: u8) -> Result<(), Memory>
        ensures ok { OnOk result (self.new ≡ self.old ++ x ∷ []) }
        ensures err { OnErr result (self.new ≡ self.old) }
    {
        self.written.push(x)?;
        Ok(())
    }

    /// Adds a number in two bytes, the lowest first.
    pub fn write_u16(&mut self, x: u16) -> Result<(), Memory>
        ensures ok { OnOk result (self.new ≡ self.old ++ little_text 2 x) }
        ensures err { OnErr result (self.new ≡ self.old) }
    {
        self.bytes(&x.to_le_bytes())
    }

    /// Adds a number in three bytes, the lowest first.
    pub fn write_u24(&mut self, x: u32) -> Result<(), Memory>
        requires { x < 16777216 }
        ensures ok { OnOk result (self.new ≡ self.old ++ little_text 3 x) }
        ensures err { OnErr result (self.new ≡ self.old) }
    {
        let [low, middle, high, _] = x.to_le_bytes();
        self.bytes(&[low, middle, high])
    }

    /// Adds a number in four bytes, the lowest first.
    pub fn write_u32(&mut self, x: u32) -> Result<(), Memory>
        ensures ok { OnOk result (self.new ≡ self.old ++ little_text 4 x) }
        ensures err { OnErr result (self.new ≡ self.old) }
    {
        self.bytes(&x.to_le_bytes())
    }

    /// Adds a length-encoded integer in its shortest form.
    pub fn lenenc(&mut self, x: u64) -> Result<(), Memory>
        ensures ok { OnOk result (self.new ≡ self.old ++ lenenc_text x) }
        ensures err { OnErr result (self.new ≡ self.old) }
    {
        let [a, b, c, d, e, f, g, h] = x.to_le_bytes();
        if x < 251 {
            self.byte(a)
        } else if x < 0x1_0000 {
            self.bytes(&[0xfc, a, b])
        } else if x < 0x100_0000 {
            self.bytes(&[0xfd, a, b, c])
        } else {
            self.bytes(&[0xfe, a, b, c, d, e, f, g, h])
        }
    }

    /// Adds a text and the byte 00 that ends it.
    pub fn nul_text(&mut self, x: &[u8]) -> Result<(), Memory>
        requires { ¬ Contains x.now 0 }
        ensures ok { OnOk result (self.new ≡ self.old ++ (x.now ++ 0 ∷ [])) }
        ensures err { OnErr result (self.new ≡ self.old) }
    {
        let before = self.written.len();
        self.written.extend_from_slice(x)?;
        if self.written.push(0).is_err() {
            self.written.truncate(before);
            return Err(Memory);
        }
        Ok(())
    }

    /// Drops all but the first `length` bytes.
    pub fn truncate(&mut self, length: usize)
        ensures { self.new ≡ take length self.old }
    {
        self.written.truncate(length);
    }

    /// What was written.
    pub fn as_slice(&self) -> &[u8]
        ensures { result.now ≡ self.now }
    {
        self.written.as_slice()
    }

    /// What was written, as an owned list. It takes no memory.
    pub fn into_bytes(self) -> Bytes
        ensures { result ≡ self }
    {
        let Out { written } = self;
        Bytes::from_vec(written)
    }
}
