//! Eight threads that count under a word lock, between marks.

ghost use Rattle.std.specs.Prelude.{⊤};

use crate::fault::{Fault, Wrong};
use crate::stress::marks;
use crate::threads::{comes_to, sum_of};
use lot_base::word_lock::{Fits, WordLock};
use std::alloc::Global;
use std::sync::Wait;
use std::sync::atomic::{AtomicUsize, Ordering};
use std::thread;
use std::thread::Threads;
use std::time::{Clock, Duration};

// More than a word lock has places.
const THREADS: usize = 8;

// How many steps the threads have done together when the lock is held, when all have counted, and
// when the count of requests is over.
const HELD: usize = THREADS + 1;

const COUNTED: usize = HELD + THREADS;

const OVER: usize = COUNTED + 1;

/// What a lock is around.
#[derive(Drop)]
pub struct Count(pub usize);

impl Fits for Count {
    type Key = ();

    ghost fits = { λ _ _. ⊤ };
}

/// Lets each thread count so often, of which the first times wait so long for the lock, and answers
/// the count.
pub fn count_together<R: Threads + Wait + Clock + Sync>(
    rt: &R,
    alloc: Global,
    locks: usize,
    rest: Duration,
) -> Result<usize, Fault> {
    let counters = Counters {
        alloc,
        lock: WordLock::new(alloc, Count(0), &())?,
        locks,
        rest,
        steps: AtomicUsize::new(0),
    };
    let act = |index: usize| counters.act(rt, index);
    let have_counted = sum_of(rt, alloc, THREADS + 1, &act).is_some();
    let count = counted(rt, &counters.lock);
    if have_counted && count == locks.wrapping_mul(THREADS) {
        Ok(count)
    } else {
        Err(Fault::Wrong(Wrong::WordLock))
    }
}

// What the threads share: the lock, how often each locks it, and how many steps they have done
// together.
#[derive(Drop)]
struct Counters {
    alloc: Global,
    lock: WordLock<Count>,
    locks: usize,
    rest: Duration,
    steps: AtomicUsize,
}

impl Counters {
    fn act<R: Wait + Clock>(&self, rt: &R, index: usize) -> Option<usize> {
        if index == 0 {
            hold(rt, self.alloc, &self.lock, self.rest, &self.steps)
        } else {
            count_often(rt, &self.lock, self.locks, &self.steps)
        }
    }
}

fn counted<R: Wait>(rt: &R, lock: &WordLock<Count>) -> usize {
    let held = lock.lock(rt);
    let count = held.value.0;
    lock.unlock(held);
    count
}

// Holds the lock while the threads come and wait so long.
fn hold<R: Wait + Clock>(
    rt: &R,
    alloc: Global,
    lock: &WordLock<Count>,
    rest: Duration,
    steps: &AtomicUsize,
) -> Option<usize> {
    let have_come = comes_to(rt, steps, THREADS);
    marks::begin(alloc);
    let held = lock.lock(rt);
    steps.fetch_add(1, Ordering::SeqCst);
    thread::sleep(rt, rest);
    lock.unlock(held);
    let are_done = comes_to(rt, steps, COUNTED);
    marks::end(alloc);
    steps.fetch_add(1, Ordering::SeqCst);
    (have_come && are_done).then_some(0)
}

// Counts under the lock once it is held, and yields there, so that the others wait.
fn count_often<R: Wait + Clock>(
    rt: &R,
    lock: &WordLock<Count>,
    locks: usize,
    steps: &AtomicUsize,
) -> Option<usize> {
    steps.fetch_add(1, Ordering::SeqCst);
    let is_held = comes_to(rt, steps, HELD);
    for _ in 0..locks {
        let mut held = lock.lock(rt);
        held.value.0 = held.value.0.wrapping_add(1);
        thread::yield_now();
        lock.unlock(held);
    }
    steps.fetch_add(1, Ordering::SeqCst);
    (comes_to(rt, steps, OVER) && is_held).then_some(0)
}
