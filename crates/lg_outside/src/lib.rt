//! The outside of the login server, as traits: where bytes come from and go to, connections, and where rows
//! are kept. Beside each trait of streams and of connections stand its form in memory, which tells its content
//! to contracts and fails at listed calls, and its adapter over the standard library, which tells nothing but
//! its count of faults. The forms of a keeper stand above.
//!
//! A call of the outside answers `Failed` only where the object's count of faults rose in that call, or
//! stands at the end of its type. It stands on `lg_base` alone.
#![tactic(auto)]

pub mod keepers;
pub mod links;
pub mod memory_links;
mod memory_parts;
pub mod memory_streams;
pub mod planned_faults;
pub mod standard_streams;
pub mod streams;
pub mod unix_links;

pub use keepers::{KeepFault, Keeper, Row};
pub use links::{Dial, Link};
pub use memory_links::MemoryLink;
pub use memory_streams::{MemorySink, MemorySource};
pub use planned_faults::PlannedFaults;
pub use standard_streams::{StdSink, StdSource};
pub use streams::{Failed, Sink, Source};
pub use unix_links::UnixLink;

#[cfg(test)]
mod tests;
