//! Password policies: which passwords a server takes for an account, and how strong one is.
//!
//! **[`Policy::meets`] tells whether a password meets a policy, and [`Policy::strength`] how strong it is by the policy,
//! from 0 to 100.** Both follow the component `validate_password` of MySQL 8.0: MySQL 8.0 Reference Manual, "Password
//! Validation Options and Variables", and VALIDATE_PASSWORD_STRENGTH() in "Encryption and Compression Functions". Bytes are
//! counted in place of characters, and letters are those of ASCII. Below stands `lg_base`.
#![tactic(auto)]

pub mod laws;
mod parts;
pub mod policy;

pub use policy::{Level, Policy, PolicyFault, off};

#[cfg(test)]
mod tests;
