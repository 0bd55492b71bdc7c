//! This crate searches the protocol of a lock on every schedule of its threads.
//!
//! `parse` makes a test from the text of a protocol, and `explore` searches the test: it says that
//! the test is safe, or returns a schedule that leads to a fault. `LANGUAGE.md` describes the
//! language of the texts.
#![tactic(auto)]

mod alike;
mod blame;
mod buckets;
pub mod code;
mod ends;
pub mod explore;
mod hash;
pub mod laws;
mod local;
mod lot;
mod movers;
mod operation;
pub mod outcomes;
mod parking;
pub mod parse;
mod perform;
mod progress;
pub mod queue;
pub mod reached;
pub mod reduced;
pub mod replay;
mod same;
mod search;
pub mod seen;
pub mod state;
pub mod step;
pub mod test;
pub mod watch;
