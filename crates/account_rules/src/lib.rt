//! Accounts with their options, and the order in which a login is refused.
//!
//! **[`first_refusal`] names the first rule that refuses a login: the failure lock, then the password, then
//! the account lock, then expiry.** The options are those of the MySQL 8.0 Reference Manual, ALTER USER and
//! "Password Management". Below stand `factor_chain` for the credentials, `login_lock` for the failure lock,
//! and `lg_base`. No call takes memory.
#![tactic(auto)]

pub mod accounts;
pub mod refusals;

pub use accounts::{Account, Lifetime, Limit, Settings};
pub use refusals::{Rule, expired, first_refusal};

#[cfg(test)]
mod tests;
