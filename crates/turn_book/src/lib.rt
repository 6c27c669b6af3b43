//! A turn lock with a history.
//!
//! **Threads take turns with one object. Each turn adds one entry or none to the object's list, each seat has
//! seen a beginning of that list, and a seat's own entries stand in it once each, at places that no other seat
//! has.** That a waiting call returns isn't promised, nor any order between callers that never met.
//!
//! A seat draws a ticket, waits until it is served, has the object for one call, and passes the turn on. What
//! the rule behind it says stands in `specs/Rule.antt`, what a seat stands for in `specs/Views.antt`, and what
//! the calls promise in `specs/Book.antt`. It stands on `atomic_table` of the kit, and on `lg_base`.
#![tactic(auto)]

mod book;
pub mod laws;
pub mod object;
mod rule;
pub mod seat;
pub mod view;

pub use object::{Applies, Object, TurnFault};
pub use seat::{Seat, TurnBook};

#[cfg(test)]
mod tests;
