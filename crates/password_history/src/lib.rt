//! Passwords that may not be used again.
//!
//! **[`forbids`] tells whether a password may not be used again, by which of an account's past passwords it fits
//! ([`used`])**: one of the newest, as many as PASSWORD HISTORY says, or one that was set less than PASSWORD REUSE INTERVAL
//! days ago. [`remember`] keeps the newest 256, and [`full`] tells that the oldest of so many may not be dropped yet. It
//! follows "Password Management", "Password Reuse Policy", of the MySQL 8.0 Reference Manual. Below stands `factor_chain`
//! for what fits a password.
#![tactic(auto)]

pub mod laws;
pub mod reuse;

pub use reuse::{forbids, full, remember, used};
