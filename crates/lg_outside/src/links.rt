//! Connections: a link is read and written, and ended once.

ghost use Rattle.lg_outside.specs.Faults.{Rose};
ghost use Rattle.lg_outside.specs.Links.{Dials, Receives, Sends};
ghost use Rattle.lg_outside.specs.Traffic.{Traffic};
ghost use Rattle.std.specs.Prelude.{◌≡◌, ℕ, ◌<◌, ◌≤◌, Bool, true, false, length, List, Option, IfOk, OnErr};

use crate::streams::Failed;

/// One end of a connection.
pub trait Link {
    // What was read of the bytes that the link came with, what is left of them, and what was written, where
    // the link tells it.
    ghost told: { Self → Option Traffic };

    // Whether the peer is on this machine. No call changes it.
    ghost local: { Self → Bool };

    // The paths that were dialled with success, the latest last, where the link tells them. `dial` alone changes
    // them.
    ghost dialled: { Self → Option (List (List ℕ)) };

    // Whether the link was ended, which `finish` alone does.
    ghost finished: { Self → Bool };

    ghost fault_count: { Self → ℕ };

    /// Reads the next bytes into the beginning of `buf` and answers how many: at least one, or 0 at the end
    /// of what the peer sent. A failed read takes nothing of what is left.
    fn read(&mut self, buf: &mut [u8]) -> Result<usize, Failed>
        requires room { 0 < length buf.old }
        requires open { finished self.old ≡ false }
        ensures within { IfOk result (λ count. count ≤ length buf.new) }
        ensures bytes { Receives (told self.old) (told self.new) result buf.new }
        ensures place { local self.new ≡ local self.old }
        ensures dialled { dialled self.new ≡ dialled self.old }
        ensures stays { finished self.new ≡ false }
        ensures cause { OnErr result (Rose (fault_count self.old) (fault_count self.new)) }
        ensures rising { fault_count self.old ≤ fault_count self.new };

    /// Writes all bytes, or on `Failed` the first of them.
    fn write_all(&mut self, bytes: &[u8]) -> Result<(), Failed>
        requires { finished self.old ≡ false }
        ensures bytes { Sends (told self.old) (told self.new) result bytes.now }
        ensures place { local self.new ≡ local self.old }
        ensures dialled { dialled self.new ≡ dialled self.old }
        ensures stays { finished self.new ≡ false }
        ensures cause { OnErr result (Rose (fault_count self.old) (fault_count self.new)) }
        ensures rising { fault_count self.old ≤ fault_count self.new };

    /// Whether the peer is on this machine, so that nobody else reads what is written.
    fn is_local(&self) -> bool
        ensures { result ≡ local self.now };

    /// Ends the link. What it told it goes on telling.
    fn finish(&mut self)
        ensures done { finished self.new ≡ true }
        ensures bytes { told self.new ≡ told self.old }
        ensures place { local self.new ≡ local self.old }
        ensures dialled { dialled self.new ≡ dialled self.old }
        ensures faults { fault_count self.new ≡ fault_count self.old };

    /// How many faults there were. It never falls.
    fn faults(&self) -> u64
        ensures { result ≡ fault_count self.now };
}

/// A link that can be connected to a server.
pub trait Dial: Link {
    /// Connects to the server that listens at the path. After `Failed` it may be called again.
    fn dial(&mut self, path: &str) -> Result<(), Failed>
        ensures dialled { Dials (Self.dialled self.old) (Self.dialled self.new) result path.now }
        ensures bytes { Self.told self.new ≡ Self.told self.old }
        ensures place { Self.local self.new ≡ Self.local self.old }
        ensures stays { Self.finished self.new ≡ Self.finished self.old }
        ensures cause { OnErr result (Rose (Self.fault_count self.old) (Self.fault_count self.new)) }
        ensures rising { Self.fault_count self.old ≤ Self.fault_count self.new };
}
