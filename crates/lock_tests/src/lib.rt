//! Tests of `parking_lot`, and of the examples that stand on it, by their public calls alone. Most
//! are tests and examples of Rust's `parking_lot` and `lock_api` that were written anew, and they
//! expect what those do. Where the answer here is another one, the test says so. Nearly all are
//! scripts: what threads do with one lock of each kind, line by line, and how each call has to end.
//! The first line of a script has the name that the test has there. `player` and
//! `test_support::player` tell the words.
//!
//! No clause of a contract says that a lock keeps others out, that whoever waits is woken, or that
//! an addition is not lost: these tests do. One that waits for ever, or a thread that is not woken,
//! ends the test by its time.
#![tactic(auto)]

#[cfg(test)]
mod barrier;
#[cfg(test)]
mod callers;
#[cfg(test)]
mod collections;
#[cfg(test)]
mod condvar;
#[cfg(test)]
mod drops;
#[cfg(test)]
mod held;
#[cfg(test)]
mod mutex;
#[cfg(test)]
mod once;
#[cfg(test)]
mod parts;
#[cfg(test)]
mod player;
#[cfg(test)]
mod queue;
#[cfg(test)]
mod reentrant_mutex;
#[cfg(test)]
mod rw_lock;
#[cfg(test)]
mod semaphore;
#[cfg(test)]
mod stage;
#[cfg(test)]
mod titled_calls;
#[cfg(test)]
mod titled_mutex;
#[cfg(test)]
mod titled_once;
#[cfg(test)]
mod titled_rw_lock;
#[cfg(test)]
mod titled_semaphore;
#[cfg(test)]
mod values;
