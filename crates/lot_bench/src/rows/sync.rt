//! Rows of locks on a lot.

use crate::queue::{Notice, Queue};
use crate::rows::by_turns::count_by_turns;
use crate::rows::fair::time_of_notify;
use crate::rows::locks::{Tally, time_of_lock, time_of_rw_lock};
use crate::rows::measure::time_of_counts;
use crate::rows::row::Row;
use parking_lot::{Condvar, FairMutex, Lot, Mutex, Once, RwLock, Semaphore};
use std::alloc::Global;
use std::sync::Wait;
use std::thread::Threads;
use std::time::Clock;

// How many things may be queued at once.
const PLACES: u64 = 16;

/// Lets threads use the lock that the row names.
pub fn time_of<R: Threads + Wait + Clock + Sync>(
    rt: &R,
    alloc: Global,
    deed: &str,
    row: &Row,
) -> Option<u64> {
    let lot = Lot::new(alloc, row.threads.checked_add(1)?).ok()?;
    time_on(rt, alloc, deed, row, &lot)
}

fn time_on<R: Threads + Wait + Clock + Sync>(
    rt: &R,
    alloc: Global,
    deed: &str,
    row: &Row,
    lot: &Lot,
) -> Option<u64> {
    match deed {
        "mutex" => time_of_lock(rt, alloc, row, &Mutex::new(lot, Tally::new()).ok()?),
        "fair" => time_of_lock(rt, alloc, row, &FairMutex::new(lot, Tally::new()).ok()?),
        "rw_lock" => time_of_rw_lock(rt, alloc, row, &RwLock::new(lot, Tally::new()).ok()?),
        "once" => time_of_once(rt, alloc, row, &Once::new(lot).ok()?),
        "semaphore" => time_of_semaphore(rt, alloc, row, &Semaphore::new(lot, 1).ok()?),
        "queue" => time_of_queue(rt, alloc, row, &Queue::new(lot, PLACES).ok()?),
        "notify" => time_of_notify(rt, alloc, row, lot),
        _ => time_of_turns(rt, alloc, row, lot, deed == "condvar_held"),
    }
}

fn time_of_turns<R: Threads + Wait + Clock + Sync>(
    rt: &R,
    alloc: Global,
    row: &Row,
    lot: &Lot,
    is_held: bool,
) -> Option<u64> {
    let mutex = Mutex::new(lot, Tally::new()).ok()?;
    let condvar = Condvar::new(lot).ok()?;
    let count = |side: usize| count_by_turns(rt, &mutex, &condvar, side, row.calls, is_held);
    time_of_counts(rt, alloc, row, &count)
}

// Puts or takes so many things, and answers how many were taken then.
fn time_of_queue<R: Threads + Wait + Clock + Sync>(
    rt: &R,
    alloc: Global,
    row: &Row,
    queue: &Queue<'_>,
) -> Option<u64> {
    let count = |place: usize| {
        queue.pass(rt, place, row.calls, Notice::Late);
        Some(queue.things.lock(rt).count)
    };
    time_of_counts(rt, alloc, row, &count)
}

fn time_of_once<R: Threads + Wait + Clock + Sync>(
    rt: &R,
    alloc: Global,
    row: &Row,
    once: &Once<'_>,
) -> Option<u64> {
    let count = |_place: usize| call_once(rt, once, row.calls);
    time_of_counts(rt, alloc, row, &count)
}

// Calls a once that is done, if only by the first call. Nothing says that it called a closure
// again.
fn call_once<R: Wait + Clock>(rt: &R, once: &Once<'_>, calls: usize) -> Option<u64> {
    once.call_once(rt, |_| ());
    let mut called = 0usize;
    for _ in 0..calls {
        once.call_once(rt, |_| called = called.wrapping_add(1));
    }
    (called == 0).then_some(0)
}

fn time_of_semaphore<R: Threads + Wait + Clock + Sync>(
    rt: &R,
    alloc: Global,
    row: &Row,
    semaphore: &Semaphore<'_>,
) -> Option<u64> {
    let count = |_place: usize| take_permits(rt, semaphore, row.calls);
    time_of_counts(rt, alloc, row, &count)
}

// Takes the one permit and gives it back. Nothing says that it is not there then.
fn take_permits<R: Wait + Clock>(rt: &R, semaphore: &Semaphore<'_>, calls: usize) -> Option<u64> {
    for _ in 0..calls {
        drop(semaphore.acquire(rt));
    }
    (semaphore.available_permits() == 1).then_some(0)
}
