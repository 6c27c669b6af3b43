//! Evidence of a login attempt, one piece for each factor.

ghost use Rattle.std.specs.Prelude.{◌≡◌, ◌<◌, ◌≤◌, [], ◌∷◌, ◌++◌, length, IfOk, OnOk, OnErr, slice_index_or};

use lg_base::{Bytes, Items, Memory};
use std::alloc::Global;
use std::marker::Model;

/// What a client gave for one factor.
#[derive(Debug, Drop)]
pub enum Evidence {
    /// An answer of `mysql_native_password` to a nonce.
    Native { nonce: [u8; 20], response: Bytes },
    /// An answer of `caching_sha2_password` on its fast path.
    Fast { nonce: [u8; 20], response: [u8; 32] },
    /// A password in the clear, of the full authentication of `caching_sha2_password`.
    Full { password: Bytes },
    /// No password, of either method.
    Empty,
    /// What a verifier said of a further factor with this label.
    External { label: Bytes, accepted: bool },
}

/// What a piece of evidence fits.
#[derive(Clone, Copy, Debug, PartialEq, Eq)]
pub enum Fit {
    Nothing,
    /// The primary password.
    Primary,
    /// The secondary password, which is still accepted beside the primary.
    Secondary,
    /// The further factor of its place.
    Factor,
}

/// The evidence of one attempt in the order of its factors: one to three pieces.
#[derive(Debug, Drop)]
pub struct Evidences {
    given: Items<Evidence>,
}

impl Model for Evidences {
    ghost use Rattle.factor_chain.specs.declared.evidence_list.Evidence.{Evidence};
    ghost use Rattle.std.specs.Prelude.{List, ◌≤◌, length};

    ghost Value = { List Evidence };

    ghost view = { λ e. e.given };

    ghost invariant = { λ e. (1 ≤ length e.given) × (length e.given ≤ 3) };
}

impl Evidences {
    /// The evidence of a first factor.
    pub fn new(alloc: Global, first: Evidence) -> Result<Evidences, Memory>
        ensures { IfOk result (λ made. made ≡ first ∷ []) }
    {
        let mut given = Items::new(alloc);
        given.push(first)?;
        Ok(Evidences { given })
    }

    /// Adds the evidence of the next factor. After `Memory` nothing is added, and `next` is gone.
    pub fn push(&mut self, next: Evidence) -> Result<(), Memory>
        requires { length self.old < 3 }
        ensures ok { OnOk result (self.new ≡ self.old ++ next ∷ []) }
        ensures err { OnErr result (self.new ≡ self.old) }
    {
        self.given.push(next)
    }

    /// How many factors there is evidence of: one to three.
    pub fn len(&self) -> usize
        ensures count { result ≡ length self.now }
        ensures some { 1 ≤ result }
        ensures most { result ≤ 3 }
    {
        self.given.len()
    }

    /// The evidence of the factor at `index`, counted from 0.
    pub fn get(&self, index: usize) -> &Evidence
        requires { index < length self.now }
        ensures { result.now ≡ slice_index_or self.now index result.now }
    {
        self.given.get(index)
    }

    /// The evidence in the order of its factors.
    pub fn as_slice(&self) -> &[Evidence]
        ensures { result.now ≡ self.now }
    {
        self.given.as_slice()
    }
}
