//! A door in memory, which gives listed links and tells them to contracts.

ghost use Rattle.lg_outside.specs.Faults.{Rose};
ghost use Rattle.lg_outside.specs.MemoryLinks.{traffic};
ghost use Rattle.lg_outside.specs.Plan.{after_call, fails_next};
ghost use Rattle.server_outside.specs.Foyers.{IsNew};
ghost use Rattle.server_outside.specs.Halls.{HasGiven, IsUnused, Lets, TakesBack};
ghost use Rattle.std.specs.List.{All};
ghost use Rattle.std.specs.Prelude.{◌≡◌, ◌≤◌, [], Some, false, IfOk, IfSome, OnErr, is_err};

use crate::doors::Door;
use lg_base::{Items, Memory};
use lg_outside::{Failed, MemoryLink, PlannedFaults};
use std::alloc::Global;
use std::collections::VecDeque;
use std::marker::Model;

/// A door whose links stand in memory, with room for all of them to be given back. It fails at the listed calls of
/// `listen` and `next` alone.
#[derive(Drop)]
pub struct MemoryDoor {
    left: VecDeque<MemoryLink>,
    out: usize,
    back: Vec<MemoryLink>,
    plan: PlannedFaults,
}

impl Model for MemoryDoor {
    ghost use Rattle.server_outside.specs.Foyers.{Foyer, IsNew};
    ghost use Rattle.std.specs.VecDeque.{deque_len};
    ghost use Rattle.std.specs.List.{All};
    ghost use Rattle.std.specs.Prelude.{◌+◌, ◌≤◌};
    ghost use Rattle.std.specs.Vec.{vec_capacity, vec_len};

    ghost Value = { Foyer };

    ghost view = { λ d. record { hall = record { left = d.left.items; out = d.out; back = d.back.items }; plan = d.plan } };

    ghost invariant = { λ d. All IsNew d.left.items × (deque_len d.left + d.out + vec_len d.back ≤ vec_capacity d.back) };
}

impl MemoryDoor {
    /// A door at which these links come in. Its calls with the numbers in `failing` fail, counted from 1 over `listen`
    /// and `next` together.
    pub fn new(
        alloc: Global,
        links: Items<MemoryLink>,
        failing: Items<u64>,
    ) -> Result<MemoryDoor, Memory>
        requires { All IsNew links }
        ensures { IfOk result (λ made. made ≡ record {
          hall = record { left = links; out = 0; back = [] };
          plan = record { failing = failing; calls = 0; faults = 0 };
        }) }
    {
        let back = Vec::with_capacity(alloc, links.len())?;
        Ok(MemoryDoor {
            left: VecDeque::from(links.into_vec()),
            out: 0,
            back,
            plan: PlannedFaults::new(failing),
        })
    }

    /// The links that were given back, the latest last.
    pub fn given_back(&self) -> &[MemoryLink]
        ensures { result.now ≡ self.now.hall.back }
    {
        self.back.as_slice()
    }
}

impl Door for MemoryDoor {
    type Conn = MemoryLink;

    ghost told = { λ d. Some d.hall };

    ghost fault_count = { λ d. d.plan.faults };

    fn listen(&mut self, _path: &str) -> Result<(), Failed>
        ensures told { Some self.new.hall ≡ Some self.old.hall }
        ensures cause { OnErr result (Rose self.old.plan.faults self.new.plan.faults) }
        ensures rising { self.old.plan.faults ≤ self.new.plan.faults }

        ensures fails { is_err result ≡ fails_next self.old.plan }
        ensures plan { self.new.plan ≡ after_call self.old.plan (is_err result) }
    {
        if self.plan.next_fails(false) {
            return Err(Failed);
        }
        Ok(())
    }

    fn next(&mut self) -> Result<Option<MemoryLink>, Failed>
        ensures told { Lets (Some self.old.hall) (Some self.new.hall) result }
        ensures unused { IfOk result (λ next. IfSome next (λ link. IsUnused (Some (traffic link)))) }
        ensures open { IfOk result (λ next. IfSome next (λ link. link.finished ≡ false)) }
        ensures cause { OnErr result (Rose self.old.plan.faults self.new.plan.faults) }
        ensures rising { self.old.plan.faults ≤ self.new.plan.faults }

        ensures fails { is_err result ≡ fails_next self.old.plan }
        ensures plan { self.new.plan ≡ after_call self.old.plan (is_err result) }
    {
        if self.plan.next_fails(false) {
            return Err(Failed);
        }
        match self.left.pop_front() {
            Some(link) => {
                self.out += 1;
                Ok(Some(link))
            }
            None => Ok(None),
        }
    }

    fn done(&mut self, link: MemoryLink)
        requires { HasGiven (Some self.old.hall) }
        ensures told { TakesBack link (Some self.old.hall) (Some self.new.hall) }
        ensures faults { self.new.plan.faults ≡ self.old.plan.faults }

        ensures plan { self.new.plan ≡ self.old.plan }
    {
        self.out -= 1;
        self.back.push_reserved(link);
    }

    fn faults(&self) -> u64 {
        self.plan.faults()
    }
}
