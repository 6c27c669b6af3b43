//! What holds of all seats of a book.

ghost use Rattle.atomic_table.specs.Table.{State};
ghost use Rattle.turn_book.specs.declared.view.View.{View};
ghost use Rattle.turn_book.specs.Rule.{Kept, log_of};
ghost use Rattle.turn_book.specs.Seats.{SeatsStand};

use crate::object::Object;

/// Between any two steps each seat of a book has seen a beginning of one history. No number is carried by two
/// seats, no place in the history is owned by two, each entry of a number stands with the seat that carries
/// it, and a number that wasn't split off yet is carried by no seat and made no entry.
pub fn seats_stand<O: Object>()
    ensures { (s : State O (View O.Start O.Entry)) (k : Kept O.start O.entries O.opening s) → SeatsStand k.next (log_of k.old k.turns) s.views }
{}
