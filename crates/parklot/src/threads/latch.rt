//! Latches, on which threads park until they are let through.

use crate::threads::scene::{Scene, unpark_by_turns};
use crate::threads::turns::{TURNS, comes_to};
use lot_threads::{DEFAULT_UNPARK_TOKEN, ParkingLot, ThreadParkerT, unpark_all};
use std::alloc::Global;
use std::sync::Wait;
use std::sync::atomic::{AtomicUsize, Ordering};
use std::thread;
use std::time::{Clock, Duration};

const FIRST_KEY: usize = 100;

// The permits of a latch, where none is free and no thread has come. Each thread that waits makes
// them one less.
const TAKEN: usize = 1_000;

// So many milliseconds pass before each single unpark.
const DELAY: u64 = 10;

/// A latch: a semaphore that is taken at first, and what its threads note.
#[derive(Drop)]
pub struct Latch {
    pub key: usize,
    permits: AtomicUsize,
    awake: AtomicUsize,
    last_awake: AtomicUsize,
}

impl Latch {
    /// The latch of this index.
    pub fn new(index: usize) -> Latch {
        Latch {
            key: FIRST_KEY.wrapping_add(index),
            permits: AtomicUsize::new(TAKEN),
            awake: AtomicUsize::new(0),
            last_awake: AtomicUsize::new(0),
        }
    }

    /// Whether a thread that comes finds no permit, and has to park.
    pub fn is_shut(&self) -> bool {
        self.permits.fetch_sub(1, Ordering::SeqCst) <= TAKEN
    }

    /// Notes that this thread is through.
    pub fn note(&self, thread: usize) {
        self.last_awake.store(thread, Ordering::SeqCst);
        self.awake.fetch_add(1, Ordering::SeqCst);
    }
}

/// Lets so many threads through the first latch, one by one.
pub fn let_one_by_one<P: ThreadParkerT, R: Wait + Clock>(
    rt: &R,
    alloc: Global,
    scene: &Scene<P>,
    threads: usize,
) -> Option<()> {
    let latch = scene.latches.first()?;
    for _ in 0..threads {
        thread::sleep(rt, Duration::from_millis(DELAY));
        let_one_through(rt, alloc, latch, &scene.lot)?;
    }
    Some(())
}

// Lets one thread through, the first that waits if any does.
fn let_one_through<P: ThreadParkerT, R: Wait>(
    rt: &R,
    alloc: Global,
    latch: &Latch,
    lot: &ParkingLot<P>,
) -> Option<()> {
    let waiting = lot.list(rt, alloc, latch.key).ok()?;
    let awake = latch.awake.load(Ordering::SeqCst);
    if latch.permits.fetch_add(1, Ordering::SeqCst) < TAKEN {
        // A thread has come. It may not yet have parked.
        unpark_by_turns(rt, lot, latch.key, DEFAULT_UNPARK_TOKEN)?;
    }
    comes_to(&latch.awake, awake.wrapping_add(1))?;
    let woken = latch.last_awake.load(Ordering::SeqCst);
    waiting
        .first()
        .is_none_or(|first| *first == woken)
        .then_some(())
}

/// Lets all threads of so many latches through, so many at each.
pub fn let_all_through<P: ThreadParkerT, R: Wait>(
    rt: &R,
    alloc: Global,
    scene: &Scene<P>,
    latches: usize,
    threads: usize,
) -> Option<()> {
    for latch in scene.latches.iter().take(latches) {
        unpark_all_by_turns(rt, alloc, latch, &scene.lot, threads)?;
    }
    Some(())
}

// Unparks all that wait until so many threads have come through and nobody waits.
fn unpark_all_by_turns<P: ThreadParkerT, R: Wait>(
    rt: &R,
    alloc: Global,
    latch: &Latch,
    lot: &ParkingLot<P>,
    threads: usize,
) -> Option<()> {
    for _ in 0..TURNS {
        let are_all_awake = latch.awake.load(Ordering::SeqCst) == threads;
        let waiting = lot.list(rt, alloc, latch.key).ok()?.len();
        if are_all_awake {
            return (waiting == 0).then_some(());
        }
        if unpark_all(rt, lot, latch.key, DEFAULT_UNPARK_TOKEN) < waiting {
            return None;
        }
        thread::yield_now();
    }
    None
}
