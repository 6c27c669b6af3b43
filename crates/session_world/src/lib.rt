//! Sessions and login clients in a world that is driven event by event: accounts with their history, a clock, draws, any
//! number of sessions, each with the bytes that its peer has sent, and the clients that some of them have as their peers.
//!
//! **[`World::step`] does to a world exactly what `happens` of `specs/Replays.antt` says of an event, and prints exactly
//! its lines: a session reads what it can, is given draws and checks at once, and is answered as many calls of the
//! account store as the event allows** (`specs/Worlds.antt`, `specs/Going.antt`); **what either end writes is under way
//! until an event brings it to the other. After any events the history is legal, and what is printed of each session is a
//! transcript over the bytes that came to it** (`laws.rt`). **A client opens only where the reply to its session's first
//! attempt opens, is refused only where its session sent that error, and has ended as that reply tells once all that the
//! session sent has come down to it** (`ends.rt`). The lines are this project's own; the payloads in them are those of
//! "Connection Phase" and "Command Phase" of the MySQL client/server protocol documentation. Below stand `session_engine`
//! for sessions, `client_wire` for clients, `both_ends` for what both come to, `world_table` for the accounts and the
//! lines, and `script_text`, which reads the scripts.
#![tactic(auto)]

pub mod calls;
pub mod ends;
pub mod going;
pub mod held;
pub mod keeping;
pub mod laws;
pub mod output;
pub mod running;
pub mod sessions;
pub mod stage;
pub mod state;
pub mod statements;
mod telling;
pub mod turns;
pub mod under_way;
pub mod world;

pub use calls::{Calls, Peer};
pub use script_text::{Event, Script, ScriptFault, Setup};
pub use world::World;
