//! This module waits for what other threads do. Each wait gives up after very many turns.

use lot_threads::{ParkingLot, ThreadParkerT};
use std::alloc::Global;
use std::sync::Wait;
use std::sync::atomic::{AtomicUsize, Ordering};
use std::thread;

/// A thread yields this many times before it gives up.
pub const TURNS: usize = 10_000_000;

/// Waits until the count is at least `least`, and returns whether it came to that.
pub fn comes_to(count: &AtomicUsize, least: usize) -> bool {
    comes_within(TURNS, count, least)
}

/// Waits at most the given number of turns until the count is at least `least`, and returns whether
/// it came to that.
pub fn comes_within(turns: usize, count: &AtomicUsize, least: usize) -> bool {
    for _ in 0..turns {
        if count.load(Ordering::SeqCst) >= least {
            return true;
        }
        thread::yield_now();
    }
    false
}

/// Returns whether exactly the given number of threads wait on the key.
pub fn are_waiting<P: ThreadParkerT, R: Wait>(
    rt: &R,
    alloc: Global,
    lot: &ParkingLot<P>,
    key: usize,
    threads: usize,
) -> bool {
    match lot.list(rt, alloc, key) {
        Ok(numbers) => numbers.len() == threads,
        Err(_) => false,
    }
}

/// Waits until exactly the given number of threads wait on the key, and returns whether it came to
/// that.
pub fn come_by_turns<P: ThreadParkerT, R: Wait>(
    rt: &R,
    alloc: Global,
    lot: &ParkingLot<P>,
    key: usize,
    threads: usize,
) -> bool {
    for _ in 0..TURNS {
        if are_waiting(rt, alloc, lot, key, threads) {
            return true;
        }
        thread::yield_now();
    }
    false
}
