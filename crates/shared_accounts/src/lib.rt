//! The accounts of the server, shared by threads.
//!
//! **Each call that is answered adds its one entry to the one history of the book, and its reply is the one that the
//! entries before it determine, whatever other threads did in between. An attempt or a statement that was prepared on a look
//! is told to be stale exactly where the user's stamp has risen since, and then nothing is added.** That a call which waits
//! returns isn't promised.
//!
//! A [`Ticket`] stands for a look, and a [`Late`] for a stale answer. After the first stale answer one looks again, after
//! the second one everything is done in one turn. Below stand `account_machine`, whose accounts are shared, and `turn_book`,
//! whose turns order the calls.
#![tactic(auto)]

mod calls;
pub mod crossing;
pub mod desk;
pub mod laws;
mod serving;
pub mod shared;
pub mod ticket;

pub use desk::Desk;
pub use shared::{Committed, Seat, Settled, SharedAccounts};
pub use ticket::{Late, Ticket};
