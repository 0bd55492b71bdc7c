//! This crate has the words of locks: each is a table of atomic words and slots, with a rule that
//! holds between any two steps of all threads, and laws that follow from the rule.
//!
//! A lock of `parking_lot` adds the waiting to it: `Stock` is the word of a `TitledSemaphore` and,
//! with one permit that guards a value, of a `TitledMutex`. `Phases` is that of a `TitledOnce`, a
//! `TitledBarrier` and a `TitledCondvar`, and a `TitledRwLock` has two. Each `Once` has a
//! `Beginning`. The crate knows nothing of parking lots: a stock or a word with phases knows of the
//! threads that wait only what a title tells (`Tells`).
//!
//! Upstream has no counterpart: its locks keep their words in themselves, without rules.
#![tactic(auto)]

pub mod beginning;
pub mod phases;
pub mod stock;
