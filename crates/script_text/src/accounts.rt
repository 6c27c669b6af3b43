//! The accounts of a script, with their users in order, so that many accounts are read in good time.

use account_history::Opening;
use lg_base::{Bytes, Items, Memory};
use std::alloc::Global;
use std::collections::BTreeSet;
use std::marker::Model;

/// Accounts of which no two have one user.
#[derive(Drop)]
pub struct AccountList {
    held: Vec<Opening>,
    users: BTreeSet<Vec<u8>>,
    alloc: Global,
}

impl Model for AccountList {
    ghost use Rattle.account_history.specs.declared.entries.Opening.{Opening};
    ghost use Rattle.script_text.specs.Users.{HoldsUsers};
    ghost use Rattle.std.specs.Prelude.{List};

    ghost Value = { List Opening };

    ghost view = { λ a. a.held.items };

    ghost invariant = { λ a. HoldsUsers a.held.items a.users };
}

impl AccountList {
    ghost use Rattle.account_machine.specs.Openings.{are_openings, is_opening};
    ghost use Rattle.script_text.specs.Reading.{is_used};
    ghost use Rattle.std.specs.Prelude.{◌≡◌, ◌∷◌, ◌++◌, [], true, not, IfOk, OnOk, IsTrue, if◌then◌else◌};

    /// No accounts.
    pub fn new(alloc: Global) -> AccountList
        ensures { result ≡ [] }
    {
        AccountList {
            held: Vec::new(alloc),
            users: BTreeSet::new(alloc),
            alloc,
        }
    }

    /// Adds an account at the end, if no other has its user, and says whether it did. After `Memory` the list
    /// is unchanged.
    pub fn add(&mut self, opening: Opening) -> Result<bool, Memory>
        requires { is_opening opening ≡ true }
        ensures added { IfOk result (λ added. added ≡ not (is_used opening.user self.old)) }
        ensures after { IfOk result (λ added. self.new ≡ (if added then self.old ++ opening ∷ [] else self.old)) }
    {
        let user = Vec::from_slice(self.alloc, opening.user.as_slice())?;
        self.held.push(opening)?;
        match self.users.insert(user) {
            Ok(true) => Ok(true),
            Ok(false) => {
                let _again = self.held.pop();
                Ok(false)
            }
            Err(_) => {
                let _refused = self.held.pop();
                Err(Memory)
            }
        }
    }

    /// The accounts, of which `opening` can make a start.
    pub fn into_items(self) -> Items<Opening>
        ensures same { result ≡ self }
        ensures openings { IsTrue (are_openings result) }
    {
        let AccountList {
            held,
            users: _,
            alloc: _,
        } = self;
        Items::from_vec(held)
    }
}
