//! What one end of a connection sends, receives and asks, as an interaction tree with one interpreter.
//!
//! **What a talk does over a handler is one run, whatever gives it its packets and its answers: lists of them, bytes in any
//! pieces, or a world of sessions. A run goes on as more is given; over bytes it doesn't depend on their cutting; it is
//! determined by what was given; and a loop that reads, answers and writes by the talk does the run.** The laws are the
//! contracts of `laws.rt`, each for every talk and every handler, so that an end of a connection has only to say which
//! questions it asks.
//!
//! The definitions in `specs/`, in the order of reading: `Talk` is the tree, `Runs` its handlers and its interpreter,
//! `Events` what a run did as seen from one side, `Handlers` those over lists and over bytes, `Turns` a run turn by turn
//! and how many turns there may be, `Driving` what a loop over a link keeps, and `Laws`. This crate has no code but the
//! laws. Below it stand `packet_stream` and `packet_frame`.
#![tactic(auto)]

pub mod laws;
