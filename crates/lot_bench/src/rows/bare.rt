//! Rows of locks that need no lot.

use crate::rows::by_turns::count_by_std_turns;
use crate::rows::locks::{Tally, time_of_lock, time_of_rw_lock};
use crate::rows::measure::time_of_counts;
use crate::rows::row::Row;
use lot_base::word_lock::WordLock;
use std::alloc::Global;
use std::sync::{Condvar, Mutex, RwLock, Wait};
use std::thread::Threads;
use std::time::Clock;

/// Lets threads count under the lock that the row names.
pub fn time_of<R: Threads + Wait + Clock + Sync>(
    rt: &R,
    alloc: Global,
    deed: &str,
    row: &Row,
) -> Option<u64> {
    match deed {
        "word_lock" => {
            let lock = WordLock::new(alloc, Tally::new(), &()).ok()?;
            time_of_lock(rt, alloc, row, &lock)
        }
        "mutex" => time_of_lock(rt, alloc, row, &Mutex::new(Tally::new())),
        "rw_lock" => time_of_rw_lock(rt, alloc, row, &RwLock::new(Tally::new())),
        _ => time_of_turns(rt, alloc, row),
    }
}

fn time_of_turns<R: Threads + Wait + Clock + Sync>(
    rt: &R,
    alloc: Global,
    row: &Row,
) -> Option<u64> {
    let (mutex, condvar) = (Mutex::new(Tally::new()), Condvar::new());
    let count = |side: usize| count_by_std_turns(rt, &mutex, &condvar, side, row.calls);
    time_of_counts(rt, alloc, row, &count)
}
