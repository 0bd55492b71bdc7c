//! Threads that come to a table while it grows.

use crate::calls::{register, unpark_all};
use crate::fault::{Fault, Wrong};
use crate::threads::{comes_to, sum_of};
use lot_threads::{DEFAULT_UNPARK_TOKEN, ParkingLot, ThreadParkerT, unpark_one};
use std::alloc::Global;
use std::sync::Wait;
use std::sync::atomic::{AtomicUsize, Ordering};
use std::thread;
use std::thread::Threads;
use std::time::{Clock, Duration};

/// The table grows at the registration of the last of these.
pub(super) const REGISTERED: usize = 6;

// Its bucket is one that a growth empties late.
const HELD_KEY: usize = 1;

// Its bucket is the first that a growth empties, so whoever comes to it waits for the growth.
const OTHER_KEY: usize = 0;

// Those who come, and the two on whom they wait.
const THREADS: usize = 10;

// In milliseconds, until the growth has begun.
const MOMENT: u64 = 20;

/// Eight threads come while the table of a new lot grows, and the growth waits so long for a
/// section.
pub(super) fn come_to_a_growth<P, R>(
    rt: &R,
    alloc: Global,
    lot: &ParkingLot<P>,
    rest: Duration,
) -> Result<usize, Fault>
where
    P: ThreadParkerT + Send + Sync,
    R: Threads + Wait + Clock + Sync,
{
    for _ in 1..REGISTERED {
        drop(register(rt, alloc, lot));
    }
    let is_held = AtomicUsize::new(0);
    let growth = Growth {
        alloc,
        lot,
        rest,
        is_held,
    };
    let act = |index: usize| growth.act(rt, index);
    match sum_of(rt, alloc, THREADS, &act) {
        Some(sum) => Ok(sum),
        None => Err(Fault::Wrong(Wrong::Growth)),
    }
}

// What the threads share: the lot, and 1 once a bucket is held.
#[derive(Drop)]
struct Growth<'a, P: ThreadParkerT> {
    alloc: Global,
    lot: &'a ParkingLot<P>,
    rest: Duration,
    is_held: AtomicUsize,
}

impl<P: ThreadParkerT> Growth<'_, P> {
    // Stays so long in a section, lets the table grow meanwhile, or comes while it grows.
    fn act<R: Wait + Clock>(&self, rt: &R, index: usize) -> Option<usize> {
        if index == 0 {
            stay(rt, self.lot, &self.is_held, self.rest);
            return Some(0);
        }
        let is_in_time = comes_to(rt, &self.is_held, 1);
        if index == 1 {
            drop(register(rt, self.alloc, self.lot));
        } else {
            thread::sleep(rt, Duration::from_millis(MOMENT));
            unpark_all(rt, self.lot, OTHER_KEY, DEFAULT_UNPARK_TOKEN);
        }
        is_in_time.then_some(0)
    }
}

// Stays so long in the section of a bucket.
fn stay<P: ThreadParkerT, R: Wait + Clock>(
    rt: &R,
    lot: &ParkingLot<P>,
    is_held: &AtomicUsize,
    rest: Duration,
) {
    unpark_one(rt, lot, HELD_KEY, |_| {
        is_held.store(1, Ordering::SeqCst);
        thread::sleep(rt, rest);
        DEFAULT_UNPARK_TOKEN
    });
}
