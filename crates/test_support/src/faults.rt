//! This module counts the faults that a parker of a test has noted.
//!
//! No token can report them, because a node comes back with the token that the unpark gave. So a
//! wait with a deadline reports them to its clock.

use crate::calls::{KEY, wait};
use crate::clock::now;
use lot_threads::{Member, ParkResult, ThreadParkerT};
use std::io;
use std::sync::Wait;
use std::sync::atomic::{AtomicUsize, Ordering};
use std::time::{Clock, Duration};

/// `Faults` counts how many faults a parker has noted.
#[derive(Drop)]
pub struct Faults {
    count: AtomicUsize,
}

impl Faults {
    /// Creates a count of 0.
    pub fn new() -> Faults {
        Faults {
            count: AtomicUsize::new(0),
        }
    }

    /// Notes one more fault.
    pub fn note(&self) {
        self.count.fetch_add(1, Ordering::SeqCst);
    }

    /// Reports each fault by reading the time since 1970 once, which nothing else does.
    pub fn tell<R: Clock>(&self, rt: &R) {
        for _ in 0..self.count.load(Ordering::SeqCst) {
            let _ = rt.since_1970();
        }
    }
}

// A clock that counts the faults of which a parker tells it.
#[derive(Drop)]
struct Listener<R> {
    rt: R,
    faults: AtomicUsize,
}

impl<R: Wait> Wait for Listener<R> {}

impl<R: Clock> Clock for Listener<R> {
    fn monotonic(&self) -> io::Result<Duration> {
        self.rt.monotonic()
    }

    fn since_1970(&self) -> io::Result<Duration> {
        self.faults.fetch_add(1, Ordering::SeqCst);
        self.rt.since_1970()
    }
}

/// Returns how many faults the parker of the thread has noted.
///
/// To learn it, the thread parks once more, with a deadline that has passed. `None` means that this
/// park did not end at its deadline.
pub fn faults_of<P: ThreadParkerT, R: Wait + Clock>(
    rt: &R,
    member: &mut Member<'_, P>,
) -> Option<usize> {
    let passed = now(rt)?;
    let listener = Listener {
        rt,
        faults: AtomicUsize::new(0),
    };
    let ended = wait(&listener, member, KEY, Some(passed));
    (ended == ParkResult::TimedOut).then_some(listener.faults.load(Ordering::SeqCst))
}
