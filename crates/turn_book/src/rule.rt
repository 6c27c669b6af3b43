//! The rule of the table, and what each step on it tells.
//!
//! Word 0 is the next ticket, word 1 the ticket that is served, and slot 0 has the object. The seat whose
//! ticket is served takes the object out in the step that shows it that it is its turn, and gives it back in
//! the step that passes the turn on. So there are nine kinds of step: find the next ticket, draw it, look
//! whether one's turn has come (and take the object where it has), give the object back and pass the turn
//! on, tell a seat that nothing was made by the number that is split off next, split a seat, join two seats, tell
//! a seat what its meeting showed, and hand all numbers over to a new seat before the book is closed.

ghost use Rattle.turn_book.specs.Views.{first_view, opened_at, left, right, both, spent_view, left_behind};
ghost use Rattle.turn_book.specs.Steps.{found, drew, looked, passed, told, unmade};
ghost use Rattle.turn_book.specs.Rule.{Kept};

use crate::object::Object;
use crate::view::View;
use atomic_table::{Join, Play, Split, TableRule};
use std::snapshot::Snapshot;

/// What the table is told as it is made: the object, and how many turns count as drawn by the first seat,
/// none in a book from `new`.
#[derive(Drop)]
pub struct Opened<O> {
    pub object: Snapshot<O>,
    pub drawn: u64,
}

/// One seat at a time has the object, in the order of the tickets.
pub struct InTurn;

impl<O: Object> TableRule<O, View<O::Start, O::Entry>, Opened<O>> for InTurn {
    ghost holds = { λ _. Kept O.start O.entries O.opening };

    ghost first = { λ key. opened_at key.drawn (first_view (O.start key.object.value) (O.entries key.object.value)) };
}

pub(crate) struct Find;

impl<O, S, E> Play<O, View<S, E>> for Find {
    ghost then = { found };
}

pub(crate) struct Draw;

impl<O, S, E> Play<O, View<S, E>> for Draw {
    ghost then = { drew };
}

pub(crate) struct Look;

impl<O: Object> Play<O, View<O::Start, O::Entry>> for Look {
    ghost then = { looked O.start O.entries O.opening };
}

pub(crate) struct Pass;

impl<O: Object> Play<O, View<O::Start, O::Entry>> for Pass {
    ghost then = { passed O.entries };
}

pub(crate) struct Tell;

impl<O, S, E> Play<O, View<S, E>> for Tell {
    ghost then = { told };
}

pub(crate) struct Unmade;

impl<O, S, E> Play<O, View<S, E>> for Unmade {
    ghost then = { unmade };
}

pub(crate) struct Branches;

impl<S, E> Split<View<S, E>> for Branches {
    ghost left = { left };

    ghost right = { right };
}

pub(crate) struct Meets;

impl<S, E> Join<View<S, E>> for Meets {
    ghost both = { both };

    ghost spent = { spent_view };
}

pub(crate) struct HandOver;

impl<S, E> Split<View<S, E>> for HandOver {
    ghost left = { left_behind };

    ghost right = { λ v. v };
}
