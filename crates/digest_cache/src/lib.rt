//! The digests of the passwords with which accounts have logged in.
//!
//! **A finite map from the numbers of passwords to their digests, with room that is taken beforehand**: only [`Digests::reserve`]
//! takes memory, and a digest for which there is room is always kept. It is the server's cache of "Caching SHA-2 Pluggable
//! Authentication" in the MySQL 8.0 Reference Manual: who has logged in with a password once can log in by its digest. Below
//! stands `lg_base` for want of memory.
#![tactic(auto)]

pub mod digests;

pub use digests::Digests;

#[cfg(test)]
mod tests;
