//! The maker of what each session needs, over the system. It tells nothing of what it has given.

ghost use Rattle.lg_outside.specs.Faults.{Rose};
ghost use Rattle.server_sockets.specs.Counts.{count_after};
ghost use Rattle.std.specs.Prelude.{◌≡◌, ◌≤◌, ◌||◌, IfOk, None, OnErr, false, is_ok, is_some};

use crate::verifiers::SocketVerifier;
use lg_base::Memory;
use lg_outside::Failed;
use server_outside::{ChaChaDraws, Maker, SystemClock, random_seed};
use std::alloc::Global;
use std::net::Net;
use std::random::RandomSource;
use std::time::Clock;

/// A maker of verifiers that ask sockets, of clocks of the system, and of draws from a seed of the system.
#[derive(Drop)]
pub struct SystemMaker<R> {
    rt: R,
    alloc: Global,
    seed: Option<[u8; 32]>,
    faults: u64,
}

impl<R> SystemMaker<R> {
    /// A maker without a seed.
    pub fn new(alloc: Global, rt: R) -> SystemMaker<R>
        ensures { result ≡ record { rt = rt; alloc = alloc; seed = None; faults = 0 } }
    {
        SystemMaker {
            rt,
            alloc,
            seed: None,
            faults: 0,
        }
    }
}

impl<R: Net + Clock + RandomSource + Copy + Drop + Send> Maker for SystemMaker<R> {
    type Verify = SocketVerifier<R>;

    type Time = SystemClock<R>;

    type Random = ChaChaDraws;

    ghost Made = { Unit {0} };

    ghost made_with = { λ _. tt };

    // A verifier asks at the place that it was made for.
    ghost may_give_verifier = { λ _ place verifier. verifier.path ≡ place };

    ghost may_give_clock = { λ _ _. Unit {0} };

    // The draws of a session are those of the stream with its id.
    ghost may_give_draws = { λ _ id draws. draws.stream ≡ id };

    ghost gives_sound = { λ _. false };

    ghost seeded = { λ m. is_some m.seed };

    ghost fault_count = { λ m. m.faults };

    fn seed(&mut self) -> Result<(), Failed>
        ensures made { tt {0} ≡ tt }
        ensures seeded { is_some self.new.seed ≡ (is_some self.old.seed || is_ok result) }
        ensures cause { OnErr result (Rose self.old.faults self.new.faults) }
        ensures rising { self.old.faults ≤ self.new.faults }

        ensures count { self.new.faults ≡ count_after self.old.faults result }
    {
        match random_seed(&self.rt) {
            Ok(seed) => {
                self.seed = Some(seed);
                Ok(())
            }
            Err(_) => {
                self.faults = self.faults.saturating_add(1);
                Err(Failed)
            }
        }
    }

    fn verifier(&mut self, place: Option<&str>) -> Result<SocketVerifier<R>, Memory> {
        SocketVerifier::new(self.alloc, self.rt, place)
    }

    fn clock(&mut self) -> Result<SystemClock<R>, Memory> {
        Ok(SystemClock::new(self.rt))
    }

    fn draws(&mut self, id: u32) -> Result<ChaChaDraws, Memory> {
        match self.seed {
            Some(seed) => Ok(ChaChaDraws::new(seed, id)),
            None => unreachable!(),
        }
    }

    fn faults(&self) -> u64 {
        self.faults
    }
}
