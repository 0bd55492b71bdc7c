//! Two threads that count by turns under a mutex, and wait on a condition variable meanwhile.

use crate::rows::locks::Tally;
use parking_lot::{Condvar, Mutex, TitledCondvar, TitledMutex};
use std::sync;
use std::sync::Wait;
use std::time::Clock;

// Whether the count says that it is the turn of the other side.
fn is_turn_of_other(tally: &Tally, side: usize) -> bool {
    tally.count % 2 != side as u64
}

/// Counts one in each round, when the count is even or odd as the side says, and then notifies the
/// other side, or notifies it while it holds the mutex. Answers the last count.
pub fn count_by_turns<R: Wait + Clock>(
    rt: &R,
    mutex: &Mutex<'_, Tally>,
    condvar: &Condvar<'_>,
    side: usize,
    rounds: usize,
    is_held: bool,
) -> Option<u64> {
    let mut last = 0u64;
    for _ in 0..rounds {
        let is_early = |tally: &mut Tally| is_turn_of_other(tally, side);
        let mut tally = condvar.wait_while(mutex.lock(rt), is_early);
        last = tally.count_one(0);
        if is_held {
            condvar.notify_one_held(&tally);
        } else {
            drop(tally);
            condvar.notify_one(rt);
        }
    }
    Some(last)
}

/// The same with titled ones, which are notified once the mutex is let go.
pub fn count_by_titled_turns<R: Wait + Clock>(
    rt: &R,
    mutex: &TitledMutex<'_, Tally>,
    condvar: &TitledCondvar<'_>,
    side: usize,
    rounds: usize,
) -> Option<u64> {
    let mut last = 0u64;
    for _ in 0..rounds {
        let is_early = |tally: &mut Tally| is_turn_of_other(tally, side);
        let mut tally = condvar.wait_while(mutex.lock(rt), is_early);
        last = tally.count_one(0);
        drop(tally);
        condvar.notify_one(rt);
    }
    Some(last)
}

/// The same with std's, which are notified once the mutex is let go.
pub fn count_by_std_turns<R: Wait + Clock>(
    rt: &R,
    mutex: &sync::Mutex<Tally>,
    condvar: &sync::Condvar,
    side: usize,
    rounds: usize,
) -> Option<u64> {
    let mut last = 0u64;
    for _ in 0..rounds {
        let is_early = |tally: &mut Tally| is_turn_of_other(tally, side);
        let mut tally = condvar.wait_while(rt, mutex.lock(rt), is_early);
        last = tally.count_one(0);
        drop(tally);
        condvar.notify_one();
    }
    Some(last)
}
