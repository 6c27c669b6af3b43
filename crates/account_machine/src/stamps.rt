//! How often what each user logs in with has changed.

ghost use Rattle.account_machine.specs.Counting.{count_in, is_for, place_of_user};
ghost use Rattle.std.specs.Prelude.{◌≡◌};

use lg_base::{Bytes, Memory};
use std::alloc::Global;

/// A user, and how often an account of the user was changed.
#[derive(Debug, Drop)]
pub struct UserStamp {
    pub user: Bytes,
    pub count: u64,
}

/// The changes of each user's accounts, and those of every user's at once. A user that isn't listed has none of its own.
#[derive(Debug, Drop)]
pub struct Stamps {
    pub users: Vec<UserStamp>,
    pub flushes: u64,
}

fn is_for(stamp: &UserStamp, user: &[u8]) -> bool
    ensures { result ≡ is_for user.now stamp.now }
{
    stamp.user.as_slice() == user
}

fn place_of(users: &[UserStamp], user: &[u8]) -> Option<usize>
    ensures { result ≡ place_of_user users.now user.now }
{
    users.iter().position(|stamp| is_for(stamp, user))
}

/// How often an account of the user was changed.
fn count_of(users: &[UserStamp], user: &[u8]) -> u64
    ensures { result ≡ count_in users.now user.now }
{
    match place_of(users, user) {
        Some(place) => users[place].count,
        None => 0,
    }
}

impl Stamps {
    ghost use Rattle.account_machine.specs.Counting.{is_listed, stamp_in};
    ghost use Rattle.std.specs.Prelude.{◌≡◌, ◌+◌, ◌<◌, ◌^◌, List, ℕ, OnOk, true, if◌then◌else◌};
    ghost use Rattle.std.specs.Str.{bytes_eq};

    /// No change.
    pub fn new(alloc: Global) -> Stamps
        ensures { (user : List ℕ) → stamp_in result user ≡ 0 }
    {
        Stamps {
            users: Vec::new(alloc),
            flushes: 0,
        }
    }

    /// How often what the user logs in with has changed.
    pub fn of(&self, user: &[u8]) -> u64
        requires { stamp_in self.now user.now < 2 ^ 64 }
        ensures { result ≡ stamp_in self.now user.now }
    {
        count_of(self.users.as_slice(), user) + self.flushes
    }

    /// Lists a user, so that raising its stamp takes no memory. No stamp changes.
    pub fn list(&mut self, alloc: Global, user: &[u8]) -> Result<(), Memory>
        ensures same { (other : List ℕ) → stamp_in self.new other ≡ stamp_in self.old other }
        ensures listed { OnOk result (is_listed self.new.users.items user.now ≡ true) }
    {
        if place_of(self.users.as_slice(), user).is_some() {
            return Ok(());
        }
        let user = Bytes::copy(alloc, user)?;
        self.users.push(UserStamp { user, count: 0 })?;
        Ok(())
    }

    /// An account of a user that is listed was changed.
    pub fn raise(&mut self, user: &[u8])
        requires listed { is_listed self.old.users.items user.now ≡ true }
        requires room { stamp_in self.old user.now + 1 < 2 ^ 64 }
        ensures { (other : List ℕ) → stamp_in self.new other ≡ stamp_in self.old other + (if bytes_eq user.now other then 1 else 0) }
    {
        let place = place_of(self.users.as_slice(), user);
        if let Some(place) = place {
            let stamp = &mut self.users[place];
            stamp.count += 1;
        }
    }

    /// The accounts of every user were changed.
    pub fn raise_all(&mut self)
        requires { self.old.flushes + 1 < 2 ^ 64 }
        ensures { (user : List ℕ) → stamp_in self.new user ≡ stamp_in self.old user + 1 }
    {
        self.flushes += 1;
    }
}
