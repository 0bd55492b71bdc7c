//! This crate has the machine about which all theorems of the repository speak: a list of waiters
//! for each key, and a status and records for each thread number.
//!
//! The machine has no buckets, no locks and no threads. The contracts of all lots are stated by it.
//! Its rules are in `specs/Machine.antt` and `specs/Steps.antt`, and `docs/THEOREMS.md` explains
//! them with examples.
//!
//! # Differences from upstream
//!
//! Upstream has no such machine. It gives threads no numbers: it counts them in a static,
//! `NUM_THREADS`, and a thread is in a queue by the address of its data.
#![tactic(auto)]

pub mod laws;
pub mod numbers;
pub mod records;
pub mod size;
pub mod status;
pub mod step;
