//! The row of threads that sleep on the condition variable of a fair mutex, and one that notifies
//! them.

use crate::rows::gathering::{Gathering, time_of_leader};
use crate::rows::measure::nanoseconds_since;
use crate::rows::row::Row;
use crate::rows::turns::{OVER, comes_to};
use parking_lot::{Condvar, FairMutex, Lot};
use std::alloc::Global;
use std::sync::Wait;
use std::sync::atomic::Ordering;
use std::thread::Threads;
use std::time::{Clock, Instant};

/// Lets threads sleep, and notifies them.
pub fn time_of_notify<R: Threads + Wait + Clock + Sync>(
    rt: &R,
    alloc: Global,
    row: &Row,
    lot: &Lot,
) -> Option<u64> {
    let mutex = FairMutex::new(lot, ()).ok()?;
    let condvar = Condvar::new(lot).ok()?;
    let gathering = Gathering::new();
    let act = |place: usize| {
        if place == 0 {
            return lead(rt, alloc, row, &mutex, &condvar, &gathering);
        }
        for _ in 0..row.runs {
            sleep(rt, &mutex, &condvar, &gathering);
        }
        Some(0)
    };
    time_of_leader(rt, alloc, row, &act)
}

// Who holds the mutex counts how many have come to sleep, and how many were notified.
fn sleep<R: Wait + Clock>(
    rt: &R,
    mutex: &FairMutex<'_, ()>,
    condvar: &Condvar<'_>,
    gathering: &Gathering,
) {
    let guard = mutex.lock(rt);
    if gathering.word.load(Ordering::SeqCst) != OVER {
        gathering.come.fetch_add(1, Ordering::SeqCst);
        let guard = condvar.wait(guard);
        gathering.awake.fetch_add(1, Ordering::SeqCst);
        drop(guard);
    }
}

// Last it wakes whoever sleeps still.
fn lead<R: Wait + Clock>(
    rt: &R,
    alloc: Global,
    row: &Row,
    mutex: &FairMutex<'_, ()>,
    condvar: &Condvar<'_>,
    gathering: &Gathering,
) -> Option<usize> {
    let run = || {
        gathering.count_anew();
        let start = Instant::now(rt).ok();
        let notified = notify(rt, mutex, condvar);
        if notified == row.threads && comes_to(&gathering.awake, row.threads) {
            nanoseconds_since(rt, start)
        } else {
            None
        }
    };
    let median = gathering.median_of(rt, alloc, row, &run);
    gathering.end();
    notify(rt, mutex, condvar);
    median
}

// Notifies whoever sleeps, and answers how many do. Who has the mutex knows that they have left it.
fn notify<R: Wait + Clock>(rt: &R, mutex: &FairMutex<'_, ()>, condvar: &Condvar<'_>) -> usize {
    let guard = mutex.lock(rt);
    condvar.notify_all_held(&guard)
}
