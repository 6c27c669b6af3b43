//! Bytes that are under way from one end of a connection to the other.

ghost use Rattle.std.specs.Prelude.{◌≤◌, length};

use lg_base::Memory;
use std::alloc::Global;
use std::marker::Model;

/// Bytes, the oldest first.
#[derive(Drop)]
pub struct Queue {
    held: Vec<u8>,
    gone: usize,
}

impl Model for Queue {
    ghost use Rattle.std.specs.Prelude.{◌≤◌, ℕ, List, drop, length};

    ghost Value = { List ℕ };

    ghost view = { λ q. drop q.gone q.held.items };

    ghost invariant = { λ q. q.gone ≤ length q.held.items };
}

impl Queue {
    ghost use Rattle.packet_stream.specs.Queue.{has_bytes};
    ghost use Rattle.std.specs.Prelude.{◌≡◌, ◌++◌, [], drop, length, take, OnErr, OnOk};

    /// No bytes.
    pub fn new(alloc: Global) -> Queue
        ensures { result ≡ [] }
    {
        Queue {
            held: Vec::new(alloc),
            gone: 0,
        }
    }

    /// Whether there are any.
    #[tactic(auto, using(crate::proofs::Left::some_left))]
    pub fn has_bytes(&self) -> bool
        ensures { result ≡ has_bytes self.now }
    {
        self.gone < self.held.len()
    }

    /// How many there are.
    pub fn len(&self) -> usize
        ensures { result ≡ length self.now }
    {
        self.held.len() - self.gone
    }

    /// Further bytes, behind those that are there. After `Memory` none is added.
    pub fn add(&mut self, bytes: &[u8]) -> Result<(), Memory>
        ensures ok { OnOk result (self.new ≡ self.old ++ bytes.now) }
        ensures err { OnErr result (self.new ≡ self.old) }
    {
        if self.gone == self.held.len() {
            self.held.clear();
            self.gone = 0;
        }
        self.held.extend_from_slice(bytes)?;
        Ok(())
    }

    /// At most so many of them, from the first one on.
    pub fn front(&self, most: u64) -> &[u8]
        ensures { result.now ≡ take most self.now }
    {
        let bytes = &self.held[self.gone..];
        let count = most.min(bytes.len() as u64) as usize;
        &bytes[..count]
    }

    /// They are gone.
    pub fn skip(&mut self, most: u64)
        ensures { self.new ≡ drop most self.old }
    {
        let left = self.held.len() - self.gone;
        let count = most.min(left as u64) as usize;
        self.gone += count;
    }
}
