//! An owned list of bytes, which contracts see as that list.

ghost use Rattle.std.proofs.Common.{rules};
ghost use Rattle.std.specs.Cmp.Rules.{comparing};
ghost use Rattle.std.specs.Prelude.{◌≡◌, IfOk, ◌==◌};
ghost use Rattle.std.specs.Str.{bytes_eq};

use crate::allocation::Memory;
use std::alloc::Global;
use std::marker::Model;

/// A list of bytes of its own memory: a user name, an answer, a text.
#[derive(Debug, Drop)]
pub struct Bytes {
    held: Vec<u8>,
}

impl Model for Bytes {
    ghost use Rattle.std.specs.Prelude.{List, ℕ, ◌<◌, All};

    ghost Value = { List ℕ };

    ghost view = { λ b. b.held.items };

    ghost invariant = { λ b. All (λ x. x < 256) b.held.items };
}

impl Bytes {
    /// A copy of `text`.
    pub fn copy(alloc: Global, text: &[u8]) -> Result<Bytes, Memory>
        ensures { IfOk result (λ copied. copied ≡ text.now) }
    {
        Ok(Bytes {
            held: Vec::from_slice(alloc, text)?,
        })
    }

    /// The bytes of a vector, which takes no memory.
    pub fn from_vec(held: Vec<u8>) -> Bytes
        ensures { result ≡ held.items }
    {
        Bytes { held }
    }

    /// The vector that holds the bytes, which takes no memory.
    pub fn into_vec(self) -> Vec<u8>
        ensures { result.items ≡ self }
    {
        let Bytes { held } = self;
        held
    }

    /// The bytes.
    pub fn as_slice(&self) -> &[u8]
        ensures { result.now ≡ self.now }
    {
        self.held.as_slice()
    }
}

impl PartialEq for Bytes {
    ghost eq = { bytes_eq };

    ghost laws = { Prim.search (comparing, rules) };

    fn eq(&self, other: &Bytes) -> bool {
        self.held == other.held
    }
}

impl Eq for Bytes {
    ghost laws = { Prim.search (comparing, rules) };
}
