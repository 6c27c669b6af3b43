//! The map: entries in the order of their numbers, in one block of memory.

ghost use Rattle.std.specs.Prelude.{◌≡◌, ◌⊎◌, ℕ, ◌+◌, ◌<◌, ◌≤◌, [], length, IsSome, OnOk, OnErr, option_map};
ghost use Rattle.digest_cache.specs.Cache.{IsPlace, Rise, digest_of, place_of, put_in, room_for, room_of, taken_out};

use lg_base::Memory;
use std::alloc::Global;
use std::marker::Model;

/// The bytes of a digest of SHA-256.
pub const DIGEST_BYTES: usize = 32;

/// Digests by the number of their password.
#[derive(Debug, Drop)]
pub struct Digests {
    kept: Vec<(u64, [u8; DIGEST_BYTES])>,
}

impl Model for Digests {
    ghost use Rattle.digest_cache.specs.Cache.{Cache, Rise};
    ghost use Rattle.std.specs.Prelude.{◌-◌, vec_capacity, vec_len};

    ghost Value = { Cache };

    ghost view = { λ d. record { entries = d.kept.items; spare = vec_capacity d.kept - vec_len d.kept } };

    ghost invariant = { λ d. Rise d.kept.items };
}

/// How many entries have a smaller number.
#[tactic(auto, using(crate::proofs::Places::counted, crate::proofs::Places::is_partitioned))]
fn place(entries: &[(u64, [u8; DIGEST_BYTES])], id: u64) -> usize
    requires { Rise entries.now }
    ensures { result ≡ place_of id entries.now }
{
    entries.partition_point(|entry| entry.0 < id)
}

/// Where a number has its entry, or else where it belongs.
fn seek(entries: &[(u64, [u8; DIGEST_BYTES])], id: u64) -> Result<usize, usize>
    requires { Rise entries.now }
    ensures { IsPlace id entries.now result }
{
    let place = place(entries, id);
    match entries.get(place) {
        Some(entry) if entry.0 == id => Ok(place),
        _ => Err(place),
    }
}

impl Digests {
    /// No digest, and no room yet. It takes no memory.
    pub fn new(alloc: Global) -> Digests
        ensures { result.entries ≡ [] }
    {
        Digests {
            kept: Vec::new(alloc),
        }
    }

    /// For how many more numbers there is room.
    pub fn spare(&self) -> usize
        ensures { result ≡ self.now.spare }
    {
        self.kept.capacity() - self.kept.len()
    }

    /// Makes room for so many more numbers. After want of memory the digests and the room are as they were.
    pub fn reserve(&mut self, more: usize) -> Result<(), Memory>
        ensures kept { self.new.entries ≡ self.old.entries }
        ensures room { OnOk result (more ≤ self.new.spare) }
        ensures stays { self.old.spare ≤ self.new.spare }
        ensures err { OnErr result (self.new ≡ self.old) }
    {
        self.kept.reserve(more)?;
        Ok(())
    }

    /// The digest of the password with this number, if it is kept.
    pub fn of(&self, id: u64) -> Option<[u8; DIGEST_BYTES]>
        ensures { result ≡ digest_of self.now id }
    {
        match seek(&self.kept, id) {
            Ok(place) => Some(self.kept[place].1),
            Err(_) => None,
        }
    }

    /// Keeps a digest. One that stands already stays.
    pub fn put(&mut self, id: u64, digest: [u8; DIGEST_BYTES])
        requires room { IsSome (digest_of self.old id) ⊎ (0 < self.old.spare) }
        ensures kept { (q : ℕ) → digest_of self.new q ≡ put_in id digest (digest_of self.old) q }
        ensures left { self.old.spare ≤ self.new.spare + room_for (digest_of self.old id) }
    {
        if let Err(place) = seek(&self.kept, id) {
            // There is room, so nothing can fail here.
            let _ = self.kept.insert(place, (id, digest));
        }
    }

    /// Takes out the digest of the password with this number, if it is kept.
    pub fn remove(&mut self, id: u64)
        ensures kept { (q : ℕ) → digest_of self.new q ≡ taken_out id (digest_of self.old) q }
        ensures room { self.old.spare + room_of (digest_of self.old id) ≤ self.new.spare }
    {
        if let Ok(place) = seek(&self.kept, id) {
            self.kept.remove(place);
        }
    }

    /// Takes out all digests.
    pub fn clear_all(&mut self)
        ensures kept { self.new.entries ≡ [] }
        ensures room { self.new.spare ≡ self.old.spare + length self.old.entries }
    {
        self.kept.clear();
    }
}
