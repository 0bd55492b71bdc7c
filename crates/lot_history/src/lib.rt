//! This crate has the history of a parking lot: one list of everything that its threads did, which
//! is a run of the machine of `lot_machine`.
//!
//! The history exists in proofs alone. At run time it is a word that never changes. The contracts
//! of this crate say that the list is a run. That an event is what a lot really did is said by the
//! contracts of the lot that adds it, such as those of `lot_threads`.
//!
//! Upstream has no counterpart of this crate.
#![tactic(auto)]

pub mod bounds;
pub mod deal;
pub mod event;
pub mod history;
pub mod laws;
pub mod plays;
pub mod steps;
pub mod titles;
pub mod view;
