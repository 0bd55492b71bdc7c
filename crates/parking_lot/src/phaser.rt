//! This module has phasers: a phaser numbers phases, and threads wait for the end of one. A `Once`
//! and a `Barrier` are made of one, a `TitledCondvar` and a `TitledRwLock` of titled ones. Upstream
//! has none; Java has a `Phaser`.
//!
//! # The protocol of a `PlainPhaser`
//!
//! `phase` counts the phases, and wraps. `queue` has the threads that wait.
//!
//! - A thread that waits stays in the queue while `phase` is what it was given.
//! - A thread that ends the phase adds 1 to `phase`, and **then** wakes the queue.
//!
//! No thread is forgotten. A thread stays in the queue only if it found its phase present. The
//! phase ends later, and after that all threads are woken. A thread that is woken at the end of an
//! earlier phase looks again. All accesses are `SeqCst`.

ghost use Rattle.std.specs.Prelude.{◌≡◌};

pub mod titled;

use crate::lot::Lot;
use crate::wait_queue::WaitQueue;
use std::sync::Wait;
use std::sync::atomic::{AtomicU64, Ordering};
use std::time::Clock;

/// A `Phaser` numbers phases, the first of which is 0. No contract says when a phase ends, or that
/// a wait returns only then.
pub trait Phaser: Drop {
    /// Returns the number of the present phase.
    fn phase(&self) -> u64;

    /// Ends the given phase if it is the present one, begins the next one, and wakes the threads
    /// that wait for that.
    fn advance<R: Wait>(&self, rt: &R, phase: u64);

    /// Waits until another phase than the given one is present.
    fn wait<R: Wait + Clock>(&self, rt: &R, phase: u64);
}

/// A `PlainPhaser` is one whose threads wait in a `Lot`.
#[derive(Drop)]
pub struct PlainPhaser<'l> {
    queue: WaitQueue<'l>,
    phase: AtomicU64,
}

impl<'l> PlainPhaser<'l> {
    pub(crate) fn new(lot: &'l Lot) -> PlainPhaser<'l> {
        PlainPhaser {
            queue: WaitQueue::new(lot),
            phase: AtomicU64::new(0),
        }
    }
}

impl Phaser for PlainPhaser<'_> {
    #[inline]
    fn phase(&self) -> u64 {
        self.phase.load(Ordering::SeqCst)
    }

    fn advance<R: Wait>(&self, rt: &R, phase: u64) {
        let next = phase.wrapping_add(1);
        let ended = self
            .phase
            .compare_exchange(phase, next, Ordering::SeqCst, Ordering::SeqCst);
        if ended.is_ok() {
            self.queue.wake_all(rt);
        }
    }

    fn wait<R: Wait + Clock>(&self, rt: &R, phase: u64) {
        self.queue.wait(rt, || self.phase() != phase);
    }
}
