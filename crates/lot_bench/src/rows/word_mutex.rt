//! A mutex of one word, whose threads wait in a lot.

use crate::rows::alone::nothing;
use crate::rows::turns::{TURNS, park_while};
use lot_threads::{DEFAULT_UNPARK_TOKEN, Member, ParkingLot, ThreadParkerT, unpark_one};
use std::sync::Wait;
use std::sync::atomic::{AtomicU64, Ordering};
use std::time::Clock;
use std::{hint, thread};

const FREE: u64 = 0;

const LOCKED: u64 = 1;

// Free, but a thread waits in the lot.
const PARKED: u64 = 2;

// Locked, and a thread waits in the lot.
const CONTENDED: u64 = 3;

// How often a thread spins, and how often more it yields, before it parks.
const SPINS: u32 = 3;

const YIELDS: u32 = 7;

// The lot keeps those who wait for the mutex in the queue of this key.
const KEY: usize = 1;

/// The mutex.
///
/// An `AtomicU8` takes a word too, and its exchange reads that word first; so this is a whole word.
#[derive(Drop)]
pub struct WordMutex {
    state: AtomicU64,
}

impl WordMutex {
    /// A mutex that is free.
    pub fn new() -> WordMutex {
        WordMutex {
            state: AtomicU64::new(FREE),
        }
    }

    #[inline]
    fn exchange(&self, current: u64, new: u64) -> bool {
        self.state
            .compare_exchange(current, new, Ordering::SeqCst, Ordering::SeqCst)
            .is_ok()
    }

    // False says that it was not free in all the turns that this thread waited.
    #[inline]
    fn lock<P: ThreadParkerT, R: Wait + Clock>(&self, rt: &R, member: &mut Member<'_, P>) -> bool {
        self.exchange(FREE, LOCKED) || self.lock_slowly(rt, member)
    }

    #[cold]
    fn lock_slowly<P: ThreadParkerT, R: Wait + Clock>(
        &self,
        rt: &R,
        member: &mut Member<'_, P>,
    ) -> bool {
        let mut spun = 0u32;
        for _ in 0..TURNS {
            let state = self.state.load(Ordering::SeqCst);
            if state == FREE || state == PARKED {
                if self.exchange(state, state | LOCKED) {
                    return true;
                }
            } else if state == LOCKED && spun < SPINS + YIELDS {
                spun += 1;
                spin(spun);
            } else if state == CONTENDED || self.exchange(LOCKED, CONTENDED) {
                park_while(rt, member, KEY, &self.state, CONTENDED, nothing, None);
                spun = 0;
            }
        }
        false
    }

    #[inline]
    fn unlock<P: ThreadParkerT, R: Wait>(&self, rt: &R, lot: &ParkingLot<P>) {
        if !self.exchange(LOCKED, FREE) {
            self.unlock_slowly(rt, lot);
        }
    }

    #[cold]
    fn unlock_slowly<P: ThreadParkerT, R: Wait>(&self, rt: &R, lot: &ParkingLot<P>) {
        unpark_one(rt, lot, KEY, |answer| {
            let state = if answer.have_more_threads {
                PARKED
            } else {
                FREE
            };
            self.state.store(state, Ordering::SeqCst);
            DEFAULT_UNPARK_TOKEN
        });
    }

    /// Locks and unlocks it so often. False says that it could not be had.
    pub fn pairs<P: ThreadParkerT, R: Wait + Clock>(
        &self,
        rt: &R,
        member: &mut Member<'_, P>,
        calls: usize,
    ) -> bool {
        let lot = member.lot();
        let mut locked = 0usize;
        for _ in 0..calls {
            if self.lock(rt, member) {
                self.unlock(rt, lot);
                locked = locked.wrapping_add(1);
            }
        }
        locked == calls
    }

    /// Counts one under the mutex so often. False says that it could not be had.
    pub fn counts<P: ThreadParkerT, R: Wait + Clock>(
        &self,
        rt: &R,
        member: &mut Member<'_, P>,
        count: &AtomicU64,
        calls: usize,
    ) -> bool {
        let lot = member.lot();
        for _ in 0..calls {
            if !self.lock(rt, member) {
                return false;
            }
            count_one(count);
            self.unlock(rt, lot);
        }
        true
    }
}

/// Counts one, where nobody else does at one time.
pub fn count_one(count: &AtomicU64) {
    let before = count.load(Ordering::SeqCst);
    count.store(before.wrapping_add(1), Ordering::SeqCst);
}

// Spins twice as long each time, and at last yields.
fn spin(spun: u32) {
    if spun > SPINS {
        thread::yield_now();
        return;
    }
    for _ in 0..2u32.wrapping_shl(spun) / 2 {
        hint::spin_loop();
    }
}
