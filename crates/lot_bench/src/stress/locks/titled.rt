//! Threads that count under a titled mutex, with permits of a titled semaphore, and under a titled
//! read-write lock, and that pass things on.

use super::line;
use super::patience::{Patience, count_together};
use crate::fault::{Fault, Wrong};
use parking_lot::{TitledLot, TitledMutex, TitledRwLock, TitledRwLockWriteGuard, TitledSemaphore};
use std::alloc::Global;
use std::sync::Wait;
use std::sync::atomic::{AtomicUsize, Ordering};
use std::thread;
use std::thread::Threads;
use std::time::Clock;

/// Lets so many threads count under a new mutex, then with permits of a new semaphore, and then
/// under a new read-write lock, and pass things on, in a lot with so many places, and answers how
/// often they did.
pub(super) fn play<R: Threads + Wait + Clock + Sync>(
    rt: &R,
    alloc: Global,
    places: usize,
    threads: usize,
    seed: u64,
) -> Result<usize, Fault> {
    let lot = TitledLot::new(alloc, places)?;
    let locked = lock(rt, alloc, &lot, threads, seed)?;
    let permitted = acquire(rt, alloc, &lot, threads, seed)?;
    let written = read_and_write(rt, alloc, &lot, threads, seed)?;
    let passed = line::play(rt, alloc, &lot, threads)?;
    Ok(
        locked
            .wrapping_add(permitted)
            .wrapping_add(written)
            .wrapping_add(passed),
    )
}

fn lock<R: Threads + Wait + Clock + Sync>(
    rt: &R,
    alloc: Global,
    lot: &TitledLot,
    threads: usize,
    seed: u64,
) -> Result<usize, Fault> {
    let total = TitledMutex::new(rt, lot, 0usize)?;
    let act = |number: u64, patience: Patience| Some(count_one(
        rt,
        &total,
        patience,
        number % 4 == 0,
    ));
    let counted = count_together(rt, alloc, threads, seed, &act);
    let sum = *total.lock(rt);
    if counted == Some(sum) {
        Ok(sum)
    } else {
        Err(Fault::Wrong(Wrong::TitledMutex))
    }
}

// Counts if it gets the mutex in time, and lets others run meanwhile if it is to.
fn count_one<R: Wait + Clock>(
    rt: &R,
    total: &TitledMutex<'_, usize>,
    patience: Patience,
    yields: bool,
) -> usize {
    let found = match patience {
        Patience::Over => total.try_lock(rt),
        Patience::Until(deadline) => total.lock_until(rt, deadline),
        Patience::Endless => Some(total.lock(rt)),
    };
    let Some(mut total) = found else {
        return 0;
    };
    let before = *total;
    if yields {
        thread::yield_now();
    }
    *total = before.wrapping_add(1);
    1
}

// There are fewer permits than threads.
fn acquire<R: Threads + Wait + Clock + Sync>(
    rt: &R,
    alloc: Global,
    lot: &TitledLot,
    threads: usize,
    seed: u64,
) -> Result<usize, Fault> {
    let permits: u32 = if threads < 8 { 1 } else { 3 };
    let semaphore = TitledSemaphore::new(rt, lot, permits)?;
    let lent = AtomicUsize::new(0);
    let act = |number: u64, patience: Patience| {
        let before = count_lent(rt, &semaphore, &lent, patience, number % 4 == 0);
        match before {
            Some(before) => (before < permits as usize).then_some(1),
            None => Some(0),
        }
    };
    match count_together(rt, alloc, threads, seed, &act) {
        Some(sum) if semaphore.available_permits() == permits as usize => Ok(sum),
        _ => Err(Fault::Wrong(Wrong::TitledSemaphore)),
    }
}

// Has a permit for a while if it gets one in time, and lets others run meanwhile if it is to.
// Answers how many were lent before.
fn count_lent<R: Wait + Clock>(
    rt: &R,
    semaphore: &TitledSemaphore<'_>,
    lent: &AtomicUsize,
    patience: Patience,
    yields: bool,
) -> Option<usize> {
    let permit = match patience {
        Patience::Over => semaphore.try_acquire(rt),
        Patience::Until(deadline) => semaphore.acquire_until(rt, deadline),
        Patience::Endless => Some(semaphore.acquire(rt)),
    }?;
    let before = lent.fetch_add(1, Ordering::SeqCst);
    if yields {
        thread::yield_now();
    }
    lent.fetch_sub(1, Ordering::SeqCst);
    drop(permit);
    Some(before)
}

fn read_and_write<R: Threads + Wait + Clock + Sync>(
    rt: &R,
    alloc: Global,
    lot: &TitledLot,
    threads: usize,
    seed: u64,
) -> Result<usize, Fault> {
    let total = TitledRwLock::new(rt, lot, 0usize)?;
    let act = |number: u64, patience: Patience| {
        if number % 3 == 0 {
            count_written(rt, &total, patience)
        } else {
            read_twice(rt, &total, patience)
        }
    };
    let counted = count_together(rt, alloc, threads, seed, &act);
    let sum = *total.read(rt);
    if counted == Some(sum) {
        Ok(sum)
    } else {
        Err(Fault::Wrong(Wrong::TitledRwLock))
    }
}

// Reads twice if it gets the lock in time, and answers nothing if somebody wrote between.
fn read_twice<R: Wait + Clock>(
    rt: &R,
    total: &TitledRwLock<'_, usize>,
    patience: Patience,
) -> Option<usize> {
    let found = match patience {
        Patience::Over => total.try_read(rt),
        Patience::Until(deadline) => total.read_until(rt, deadline),
        Patience::Endless => Some(total.read(rt)),
    };
    let Some(total) = found else {
        return Some(0);
    };
    let before = *total;
    thread::yield_now();
    (*total == before).then_some(0)
}

// Counts if it gets the lock in time, and reads what it wrote. Answers nothing if somebody wrote
// between.
fn count_written<R: Wait + Clock>(
    rt: &R,
    total: &TitledRwLock<'_, usize>,
    patience: Patience,
) -> Option<usize> {
    let found = match patience {
        Patience::Over => total.try_write(rt),
        Patience::Until(deadline) => total.write_until(rt, deadline),
        Patience::Endless => Some(total.write(rt)),
    };
    let Some(mut total) = found else {
        return Some(0);
    };
    let after = total.wrapping_add(1);
    *total = after;
    thread::yield_now();
    (*TitledRwLockWriteGuard::downgrade(total) == after).then_some(1)
}
