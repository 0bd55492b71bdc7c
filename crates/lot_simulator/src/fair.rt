//! This module has a fair mutex and a condition variable for one caller, which takes every step of
//! every thread.
//!
//! The mutex is handed over to its first waiter. A notify moves threads that sleep on the condition
//! variable behind the waiters of the mutex. Each list of steps is a run of a small machine, and
//! `laws` has the laws of that machine.

mod fair_core;
pub mod laws;
mod schedule;

pub use fair_core::{FairCore, FairStatus};
pub use schedule::{FairAnswer, FairStep, run_fair};
