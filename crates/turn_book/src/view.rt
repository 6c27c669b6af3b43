//! What a seat knows, as plain data. No value of these types is made: clauses and proofs read them.
//!
//! A clause reads an array of numbers as a list of numbers, and a `LinkedList<E>` as a list of `E`.

use std::collections::LinkedList;

/// How far a seat is with a turn.
pub enum Stage {
    Idle,
    /// It has drawn this ticket.
    Waiting(u64),
    /// It has the object, under this ticket.
    Holding(u64),
}

/// A number that a seat carries, last part first, and how many seats were split off from the seat of that
/// number.
pub struct Branch {
    pub number: [u64; 0],
    pub splits: u64,
}

/// An entry and the number of the seat that made it: `None` for what stood there before the book.
pub struct Made<E> {
    pub by: Option<[u64; 0]>,
    pub entry: E,
}

/// What one of two seats that met carried and had seen.
pub struct Met<E> {
    pub carried: LinkedList<Branch>,
    pub seen: LinkedList<Made<E>>,
}

/// What a seat stands for.
pub struct View<S, E> {
    pub stage: Stage,
    /// Its own number first, then those of the seats that met it.
    pub carried: LinkedList<Branch>,
    /// The start of the object's list: `None` of a seat that another took in.
    pub start: Option<S>,
    pub seen: LinkedList<Made<E>>,
    /// How many turns were drawn by the numbers carried.
    pub drawn: u64,
    /// It has seen that no turn is left.
    pub ended: bool,
    /// The two seats of its last meeting, until its next turn.
    pub one: Met<E>,
    pub two: Met<E>,
}
