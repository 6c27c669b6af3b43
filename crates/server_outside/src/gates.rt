//! Gates, at which sessions can be made to wait for each other before they check a password. They decide nothing.

use std::sync::atomic::{AtomicBool, AtomicU64, Ordering};

/// What a session passes before each check of a password.
pub trait Gate {
    /// The session with this id is about to check a password.
    fn checking(&self, id: u32);
}

/// A gate that lets each session by at once.
#[derive(Clone, Copy, Debug)]
pub struct NoGate;

impl Gate for NoGate {
    fn checking(&self, _id: u32) {}
}

/// How often a session looks whether the other one has come.
const MOST_LOOKS: u32 = 10_000_000;

/// A gate that sessions pass in pairs: each waits until the other one of its pair has come, or until it has looked for
/// it 10,000,000 times. The first that comes makes a pair with the second, the third with the fourth, and so on.
#[derive(Drop)]
pub struct PairGate {
    arrived: AtomicU64,
    met: AtomicBool,
}

impl PairGate {
    /// A gate to which no session has come.
    pub fn new() -> PairGate {
        PairGate {
            arrived: AtomicU64::new(0),
            met: AtomicBool::new(false),
        }
    }

    /// Whether some session has found the other one of its pair at the gate.
    pub fn met(&self) -> bool {
        self.met.load(Ordering::SeqCst)
    }
}

impl Gate for PairGate {
    fn checking(&self, _id: u32) {
        let mine = self.arrived.fetch_add(1, Ordering::SeqCst);
        let last_of_pair = mine | 1;
        for _ in 0..MOST_LOOKS {
            if self.arrived.load(Ordering::SeqCst) > last_of_pair {
                self.met.store(true, Ordering::SeqCst);
                return;
            }
        }
    }
}
