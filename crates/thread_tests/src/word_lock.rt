//! Threads that share a word lock. That whoever waits for one sleeps, `bench/refuse/rest` measures.

ghost use Rattle.std.specs.Prelude.{◌≡◌};

use crate::expect;
use lot_threads::{Fits, NoMemory, WORD_SLOTS, WordLock};
use std::alloc::Global;
use std::process::Abort;
use std::sync::Wait;
use std::thread;
use std::thread::Threads;

// It fits where both halves are equal.
#[derive(Drop)]
struct Pair {
    first: usize,
    second: usize,
}

impl Fits for Pair {
    type Key = ();

    ghost fits = { λ _ pair. pair.first ≡ pair.second };
}

fn new_lock(alloc: Global) -> Result<WordLock<Pair>, NoMemory> {
    let pair = Pair {
        first: 0,
        second: 0,
    };
    WordLock::new(alloc, pair, &())
}

// Adds 1 to both halves, so often, and yields between the two, so often.
fn add<R: Wait>(rt: &R, lock: &WordLock<Pair>, times: usize, yields: usize) {
    for _ in 0..times {
        let mut held = lock.lock(rt);
        held.value.first = held.value.first.wrapping_add(1);
        for _ in 0..yields {
            thread::yield_now();
        }
        held.value.second = held.value.second.wrapping_add(1);
        lock.unlock(held);
    }
}

// Adds 1 to both halves, where they lie.
fn add_in_place<R: Wait>(rt: &R, lock: &WordLock<Pair>) {
    let mut claim = lock.claim(rt);
    lock.lend(&mut claim, |pair| {
        pair.first = pair.first.wrapping_add(1);
        pair.second = pair.second.wrapping_add(1);
    });
    lock.release(claim);
}

// The first half.
fn count<R: Wait>(rt: &R, lock: &WordLock<Pair>) -> usize {
    let held = lock.lock(rt);
    let count = held.value.first;
    lock.unlock(held);
    count
}

// So many threads that add to the same pair, each so often.
fn add_in_threads<R: Threads + Wait + Sync + Abort>(
    rt: &R,
    lock: &WordLock<Pair>,
    threads: usize,
    times: usize,
    yields: usize,
) {
    thread::scope(thread::scope_env(), rt, |scope| {
        for _ in 0..threads {
            let started = scope.spawn(move || add(rt, lock, times, yields));
            expect(rt, started.is_ok(), "a thread");
        }
    });
}

// No clause says that an addition is not lost: with two holders at once some are. And none says
// that whoever waits is told: with a lock that tells nobody, this does not end. The sixteen threads
// of the second round wait for the four places besides: with a lock that gives up where none is
// free, or whose places wake nobody as they are given back, that is seen.
#[test]
fn more_threads_than_places_add_together(rt: HostRuntime) -> Result<(), NoMemory> {
    let lock = new_lock(rt.alloc())?;
    add_in_place(&rt, &lock);
    expect(&rt, count(&rt, &lock) == 1, "in place");
    add_in_threads(&rt, &lock, 8, 5_000, 0);
    expect(&rt, count(&rt, &lock) == 40_001, "of eight threads");
    add_in_threads(&rt, &lock, 4 * WORD_SLOTS, 200, 1);
    expect(&rt, count(&rt, &lock) == 43_201, "of sixteen, which yield");
    Ok(())
}
