//! What threads do with a lock around a tally, again and again.

ghost use Rattle.std.specs.Prelude.{⊤};

use crate::rows::measure::time_of_counts;
use crate::rows::row::Row;
use lot_base::word_lock::{Fits, WordLock};
use parking_lot::mutex::{Fairness, MutexIn};
use parking_lot::{RwLock, TitledMutex, TitledRwLock};
use std::alloc::Global;
use std::sync;
use std::sync::Wait;
use std::thread::Threads;
use std::time::Clock;

const MULTIPLIER: u64 = 0x9E37_79B9_7F4A_7C15;

/// What the lock is around. It is as large as a bucket of a lot.
#[derive(Drop)]
pub struct Tally {
    pub count: u64,
    mixed: u64,
    others: [u64; 3],
}

impl Fits for Tally {
    type Key = ();

    ghost fits = { λ _ _. ⊤ };
}

impl Tally {
    pub fn new() -> Tally {
        Tally {
            count: 0,
            mixed: 1,
            others: [0; 3],
        }
    }

    /// Counts one, mixes a number so often, and answers what was counted by then.
    #[inline]
    pub fn count_one(&mut self, turns: usize) -> u64 {
        self.count = self.count.wrapping_add(1);
        for _ in 0..turns {
            self.mixed = (self.mixed ^ (self.mixed >> 32)).wrapping_mul(MULTIPLIER);
        }
        self.count
    }
}

/// A lock around a tally.
pub trait TallyLock {
    /// Counts one under the lock, mixes a number so often, and answers what was counted by then.
    fn count_one<R: Wait + Clock>(&self, rt: &R, turns: usize) -> u64;
}

/// A lock that several may have to read.
pub trait TallyRwLock: TallyLock {
    /// What was counted.
    fn count<R: Wait + Clock>(&self, rt: &R) -> u64;
}

// The tally stays in its place, as in the driver.
impl TallyLock for WordLock<Tally> {
    #[inline]
    fn count_one<R: Wait + Clock>(&self, rt: &R, turns: usize) -> u64 {
        let mut claim = self.claim(rt);
        let count = self.lend(&mut claim, |tally: &mut Tally| tally.count_one(turns));
        self.release(claim);
        count
    }
}

impl TallyLock for sync::Mutex<Tally> {
    #[inline]
    fn count_one<R: Wait + Clock>(&self, rt: &R, turns: usize) -> u64 {
        self.lock(rt).count_one(turns)
    }
}

impl TallyLock for sync::RwLock<Tally> {
    #[inline]
    fn count_one<R: Wait + Clock>(&self, rt: &R, turns: usize) -> u64 {
        self.write(rt).count_one(turns)
    }
}

impl TallyRwLock for sync::RwLock<Tally> {
    #[inline]
    fn count<R: Wait + Clock>(&self, rt: &R) -> u64 {
        self.read(rt).count
    }
}

impl<F: Fairness> TallyLock for MutexIn<'_, Tally, F> {
    #[inline]
    fn count_one<R: Wait + Clock>(&self, rt: &R, turns: usize) -> u64 {
        self.lock(rt).count_one(turns)
    }
}

impl TallyLock for TitledMutex<'_, Tally> {
    #[inline]
    fn count_one<R: Wait + Clock>(&self, rt: &R, turns: usize) -> u64 {
        self.lock(rt).count_one(turns)
    }
}

impl TallyLock for RwLock<'_, Tally> {
    #[inline]
    fn count_one<R: Wait + Clock>(&self, rt: &R, turns: usize) -> u64 {
        self.write(rt).count_one(turns)
    }
}

impl TallyRwLock for RwLock<'_, Tally> {
    #[inline]
    fn count<R: Wait + Clock>(&self, rt: &R) -> u64 {
        self.read(rt).count
    }
}

impl TallyLock for TitledRwLock<'_, Tally> {
    #[inline]
    fn count_one<R: Wait + Clock>(&self, rt: &R, turns: usize) -> u64 {
        self.write(rt).count_one(turns)
    }
}

impl TallyRwLock for TitledRwLock<'_, Tally> {
    #[inline]
    fn count<R: Wait + Clock>(&self, rt: &R) -> u64 {
        self.read(rt).count
    }
}

/// Counts as the row says, and answers what was counted by then.
pub fn count_under<L: TallyLock, R: Wait + Clock>(rt: &R, lock: &L, row: &Row) -> Option<u64> {
    let (counts, turns) = (row.counts, row.turns);
    let mut last = 0u64;
    for _ in 0..row.calls.wrapping_mul(counts) {
        last = lock.count_one(rt, turns);
    }
    Some(last)
}

/// Counts and reads as the row says. Nothing says that it read less than before.
pub fn count_and_read<L: TallyRwLock, R: Wait + Clock>(rt: &R, lock: &L, row: &Row) -> Option<u64> {
    let (counts, turns, reads) = (row.counts, row.turns, row.reads);
    let (mut last, mut is_ordered) = (0u64, true);
    for _ in 0..row.calls {
        for _ in 0..counts {
            lock.count_one(rt, turns);
        }
        for _ in 0..reads {
            let count = lock.count(rt);
            is_ordered &= last <= count;
            last = count;
        }
    }
    is_ordered.then_some(lock.count(rt))
}

/// Lets threads count under the lock as the row says.
pub fn time_of_lock<L: TallyLock + Sync, R: Threads + Wait + Clock + Sync>(
    rt: &R,
    alloc: Global,
    row: &Row,
    lock: &L,
) -> Option<u64> {
    let count = |_place: usize| count_under(rt, lock, row);
    time_of_counts(rt, alloc, row, &count)
}

/// Lets threads count and read under the lock as the row says.
pub fn time_of_rw_lock<L: TallyRwLock + Sync, R: Threads + Wait + Clock + Sync>(
    rt: &R,
    alloc: Global,
    row: &Row,
    lock: &L,
) -> Option<u64> {
    let count = |_place: usize| count_and_read(rt, lock, row);
    time_of_counts(rt, alloc, row, &count)
}
