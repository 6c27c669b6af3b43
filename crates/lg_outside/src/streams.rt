//! Streams of bytes: a source that is read and a sink that is written.

ghost use Rattle.lg_outside.specs.Faults.{Rose};
ghost use Rattle.lg_outside.specs.Streams.{Adds, Gives};
ghost use Rattle.std.specs.Prelude.{◌≡◌, ℕ, ◌<◌, ◌≤◌, length, List, Option, IfOk, OnErr};

/// A call of the outside failed. The object's count of faults rose, or stands at its end.
#[derive(Clone, Copy, Debug, PartialEq, Eq)]
pub struct Failed;

/// Where bytes come from.
pub trait Source {
    // The bytes that are left, where the source tells them.
    ghost left: { Self → Option (List ℕ) };

    ghost fault_count: { Self → ℕ };

    /// Reads the next bytes into the beginning of `buf` and answers how many: at least one, or 0 at the
    /// end of the input. A failed read takes nothing of what is left.
    fn read(&mut self, buf: &mut [u8]) -> Result<usize, Failed>
        requires { 0 < length buf.old }
        ensures within { IfOk result (λ count. count ≤ length buf.new) }
        ensures bytes { Gives (left self.old) (left self.new) result buf.new }
        ensures cause { OnErr result (Rose (fault_count self.old) (fault_count self.new)) }
        ensures rising { fault_count self.old ≤ fault_count self.new };

    /// How many faults there were. It never falls.
    fn faults(&self) -> u64
        ensures { result ≡ fault_count self.now };
}

/// Where bytes go to.
pub trait Sink {
    // The bytes that were written, where the sink tells them.
    ghost written: { Self → Option (List ℕ) };

    ghost fault_count: { Self → ℕ };

    /// Adds all bytes, or on `Failed` the first of them.
    fn write_all(&mut self, bytes: &[u8]) -> Result<(), Failed>
        ensures bytes { Adds (written self.old) (written self.new) result bytes.now }
        ensures cause { OnErr result (Rose (fault_count self.old) (fault_count self.new)) }
        ensures rising { fault_count self.old ≤ fault_count self.new };

    /// How many faults there were. It never falls.
    fn faults(&self) -> u64
        ensures { result ≡ fault_count self.now };
}
