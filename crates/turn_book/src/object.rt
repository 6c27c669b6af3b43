//! What the book shares, and the calls on it.

ghost use Rattle.std.specs.Prelude.{◌≡◌, ◌++◌, List, Option, IfOk, OnErr, option_to_list};
ghost use Rattle.turn_book.specs.Turns.{HasRoom};

use lg_base::Memory;

/// Why a turn gave no reply.
#[derive(Clone, Copy, Debug, PartialEq, Eq)]
pub enum TurnFault {
    /// The object had no memory for the call.
    Memory,
    /// All 2^62 turns of the book were drawn.
    BookEnd,
}

/// An object that stands for a list of entries over a start. The start never changes, and the list only
/// grows. What it stands for doesn't depend on which seat made an entry.
pub trait Object: Drop {
    type Start;

    type Entry;

    ghost start: { Self → Self.Start };

    ghost entries: { Self → List Self.Entry };

    // What holds of the start and of the list that stand there when the book is made.
    ghost opening: { Self.Start → List Self.Entry → Type 0 };
}

/// A kind of call on an object. A call adds the entry that it makes, or none.
pub trait Applies<C>: Object {
    type Reply;

    // Of the start, the list before, and the call: its condition.
    ghost can: { Self.Start → List Self.Entry → C → Type 0 };

    // Of the start, the list before, the call after, and the reply: the entry that is added, or none.
    ghost makes: { Self.Start → List Self.Entry → C → Self.Reply → Option Self.Entry };

    // Of the start, the list before, the call before and after, and the reply: what is promised.
    ghost answers: { Self.Start → List Self.Entry → C → C → Self.Reply → Type 0 };

    // Of the start, the list, and the call before and after: what is promised for want of memory. Where it
    // is `⊥`, the call takes none.
    ghost refused: { Self.Start → List Self.Entry → C → C → Type 0 };

    /// Serves the call. For want of memory it adds no entry.
    fn apply(&mut self, call: &mut C) -> Result<Self::Reply, Memory>
        requires can { can (Self.start self.old) (Self.entries self.old) call.old }
        requires room { HasRoom Self.opening (Self.start self.old) (Self.entries self.old) }
        ensures start { Self.start self.new ≡ Self.start self.old }
        ensures added { IfOk result (λ r. Self.entries self.new ≡ Self.entries self.old ++ option_to_list (makes (Self.start self.old) (Self.entries self.old) call.new r)) }
        ensures answered { IfOk result (λ r. answers (Self.start self.old) (Self.entries self.old) call.old call.new r) }
        ensures same { OnErr result (Self.entries self.new ≡ Self.entries self.old) }
        ensures refused { OnErr result (refused (Self.start self.old) (Self.entries self.old) call.old call.new) };

    // The condition of a call stays when the list grows.
    ghost stays: { (s : Self.Start) (xs ys : List Self.Entry) (call : C) → can s xs call → can s (xs ++ ys) call };
}
