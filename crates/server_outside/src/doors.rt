//! Doors: where connections come in.

ghost use Rattle.lg_outside.specs.Faults.{Rose};
ghost use Rattle.server_outside.specs.Halls.{Hall, HasGiven, IsUnused, Lets, TakesBack};
ghost use Rattle.std.specs.Prelude.{◌≡◌, ℕ, ◌≤◌, false, IfOk, IfSome, OnErr, Option};

use lg_outside::{Failed, Link};

/// Where links come in and are given back.
pub trait Door {
    /// The links that come in.
    type Conn: Link + Drop + Send;

    // The links that are left, how many are out, and those that were given back, where the door tells them.
    ghost told: { Self → Option (Hall Self.Conn) };

    ghost fault_count: { Self → ℕ };

    /// Opens the door at the path. After `Failed` it may be called again.
    fn listen(&mut self, path: &str) -> Result<(), Failed>
        ensures told { told self.new ≡ told self.old }
        ensures cause { OnErr result (Rose (fault_count self.old) (fault_count self.new)) }
        ensures rising { fault_count self.old ≤ fault_count self.new };

    /// The next link, or None where the door was closed. A door that tells its links is closed where none is left. Of the
    /// link none of its bytes was read, none was written to it, and it isn't finished. After `Failed` it may be
    /// called again.
    fn next(&mut self) -> Result<Option<Self::Conn>, Failed>
        ensures told { Lets (told self.old) (told self.new) result }
        ensures unused { IfOk result (λ next. IfSome next (λ link. IsUnused (Self.Conn.told link))) }
        ensures open { IfOk result (λ next. IfSome next (λ link. Self.Conn.finished link ≡ false)) }
        ensures cause { OnErr result (Rose (fault_count self.old) (fault_count self.new)) }
        ensures rising { fault_count self.old ≤ fault_count self.new };

    /// Gives a link back. It takes no memory and can't fail.
    fn done(&mut self, link: Self::Conn)
        requires { HasGiven (told self.old) }
        ensures told { TakesBack link (told self.old) (told self.new) }
        ensures faults { fault_count self.new ≡ fault_count self.old };

    /// How many faults there were. It never falls.
    fn faults(&self) -> u64
        ensures { result ≡ fault_count self.now };
}
