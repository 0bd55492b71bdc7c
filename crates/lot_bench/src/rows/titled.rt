//! Rows of locks on a titled lot.

use crate::rows::by_turns::count_by_titled_turns;
use crate::rows::locks::{Tally, time_of_lock, time_of_rw_lock};
use crate::rows::measure::time_of_counts;
use crate::rows::row::Row;
use parking_lot::{TitledCondvar, TitledLot, TitledMutex, TitledRwLock, TitledSemaphore};
use std::alloc::Global;
use std::sync::Wait;
use std::thread::Threads;
use std::time::Clock;

/// Lets threads use the lock that the row names.
pub fn time_of<R: Threads + Wait + Clock + Sync>(
    rt: &R,
    alloc: Global,
    deed: &str,
    row: &Row,
) -> Option<u64> {
    let lot = TitledLot::new(alloc, row.threads).ok()?;
    time_on(rt, alloc, deed, row, &lot)
}

fn time_on<R: Threads + Wait + Clock + Sync>(
    rt: &R,
    alloc: Global,
    deed: &str,
    row: &Row,
    lot: &TitledLot,
) -> Option<u64> {
    match deed {
        "mutex" => {
            let mutex = TitledMutex::new(rt, lot, Tally::new()).ok()?;
            time_of_lock(rt, alloc, row, &mutex)
        }
        "rw_lock" => {
            let lock = TitledRwLock::new(rt, lot, Tally::new()).ok()?;
            time_of_rw_lock(rt, alloc, row, &lock)
        }
        "condvar" => time_of_turns(rt, alloc, row, lot),
        _ => time_of_semaphore(rt, alloc, row, lot),
    }
}

fn time_of_turns<R: Threads + Wait + Clock + Sync>(
    rt: &R,
    alloc: Global,
    row: &Row,
    lot: &TitledLot,
) -> Option<u64> {
    let mutex = TitledMutex::new(rt, lot, Tally::new()).ok()?;
    let condvar = TitledCondvar::new(rt, lot).ok()?;
    let count = |side: usize| count_by_titled_turns(rt, &mutex, &condvar, side, row.calls);
    time_of_counts(rt, alloc, row, &count)
}

fn time_of_semaphore<R: Threads + Wait + Clock + Sync>(
    rt: &R,
    alloc: Global,
    row: &Row,
    lot: &TitledLot,
) -> Option<u64> {
    let semaphore = TitledSemaphore::new(rt, lot, 1).ok()?;
    let count = |_place: usize| take_permits(rt, &semaphore, row.calls);
    time_of_counts(rt, alloc, row, &count)
}

// Takes the one permit and gives it back. Nothing says that it is not there then.
fn take_permits<R: Wait + Clock>(
    rt: &R,
    semaphore: &TitledSemaphore<'_>,
    calls: usize,
) -> Option<u64> {
    for _ in 0..calls {
        drop(semaphore.acquire(rt));
    }
    (semaphore.available_permits() == 1).then_some(0)
}
