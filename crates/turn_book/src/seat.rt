//! The types of the book and of its seats.

ghost use Rattle.std.specs.Prelude.{◌≡◌, true, length};
ghost use Rattle.turn_book.specs.Views.{is_idle};

use crate::object::Object;
use crate::rule::{InTurn, Opened};
use crate::view::View;
use atomic_table::Table;
use std::alloc::Global;

/// A seat's place at the table.
pub type Place<O> = atomic_table::Seat<O, View<<O as Object>::Start, <O as Object>::Entry>>;

/// The right to draw turns of one book, and what its holder has seen. It has no bytes, and may go to another
/// thread.
pub struct Seat<O: Object> {
    pub(crate) place: Place<O>,
    pub ghost idle: { is_idle place.me.0.stage ≡ true },
    pub ghost empty: { length place.me.1 ≡ 0 },
}

impl<O: Object> Drop for Seat<O> {
    fn drop(self) {
        let Seat { place } = self;
        drop(place);
    }
}

impl<O: Object> Seat<O> {
    pub(crate) fn into_place(self) -> Place<O>
        ensures { result ≡ self.place }
    {
        let Seat { place } = self;
        place
    }
}

/// An object that threads take turns with.
#[derive(Drop)]
pub struct TurnBook<O: Object> {
    pub(crate) table: Table<O, View<O::Start, O::Entry>, Opened<O>, InTurn, Global>,
    pub ghost counts: { (table.shared.table_id.words ≡ 2) × (table.shared.table_id.slots ≡ 1) },
}
