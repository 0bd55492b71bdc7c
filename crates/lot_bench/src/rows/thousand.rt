//! A thousand threads that start, park and end.

use crate::calls::{register, retire, unpark_all};
use crate::rows::measure::nanoseconds_since;
use crate::rows::turns::{comes_and_parks, comes_to};
use lot_threads::{DEFAULT_UNPARK_TOKEN, ParkingLot, ThreadParkerT};
use std::alloc::Global;
use std::sync::atomic::AtomicU64;
use std::sync::{Arc, Wait};
use std::thread::{Builder, JoinHandle, Threads};
use std::time::{Clock, Instant};

const STACK_SIZE: usize = 64 * 1024;

// What the threads share: the lot, and how many of them have parked.
#[derive(Drop)]
struct Crowd<P: ThreadParkerT> {
    lot: ParkingLot<P>,
    parked: AtomicU64,
}

/// So many threads start, register and park, each on a key of its own; then each is woken and
/// joined. It answers how long that takes. If it fails the threads are not joined.
pub fn thousand_threads<P, R>(rt: &R, alloc: Global, threads: usize) -> Option<u64>
where
    P: ThreadParkerT + Send + Sync + 'static,
    P::UnparkHandle: 'static,
    R: Threads + Wait + Clock + Copy + Send + 'static,
{
    let lot = ParkingLot::<P>::new(alloc, threads).ok()?;
    let parked = AtomicU64::new(0);
    let crowd = Arc::new(alloc, Crowd { lot, parked }).ok()?;
    let start = Instant::now(rt).ok();
    if comes_and_goes(rt, alloc, &crowd, threads) {
        nanoseconds_since(rt, start)
    } else {
        None
    }
}

// Starts all threads, wakes each once all have parked, and joins them. False says that one of them
// could not be started, or was not woken.
fn comes_and_goes<P, R>(
    rt: &R,
    alloc: Global,
    crowd: &Arc<Crowd<P>, Global>,
    threads: usize,
) -> bool
where
    P: ThreadParkerT + Send + Sync + 'static,
    P::UnparkHandle: 'static,
    R: Threads + Wait + Clock + Copy + Send + 'static,
{
    let Some(started) = start_all(rt, alloc, crowd, threads) else {
        return false;
    };
    comes_to(&crowd.parked, threads)
        && woken(rt, &crowd.lot, threads) == threads
        && join_all(rt, started)
}

fn start_all<P, R>(
    rt: &R,
    alloc: Global,
    crowd: &Arc<Crowd<P>, Global>,
    threads: usize,
) -> Option<Vec<JoinHandle<bool>>>
where
    P: ThreadParkerT + Send + Sync + 'static,
    P::UnparkHandle: 'static,
    R: Threads + Wait + Clock + Copy + Send + 'static,
{
    let mut started = Vec::with_capacity(alloc, threads).ok()?;
    for key in 0..threads {
        started.push(start_one(rt, alloc, crowd, key)?).ok()?;
    }
    Some(started)
}

fn start_one<P, R>(
    rt: &R,
    alloc: Global,
    crowd: &Arc<Crowd<P>, Global>,
    key: usize,
) -> Option<JoinHandle<bool>>
where
    P: ThreadParkerT + Send + Sync + 'static,
    P::UnparkHandle: 'static,
    R: Threads + Wait + Clock + Copy + Send + 'static,
{
    let crowd = Arc::try_clone(crowd).ok()?;
    let runtime = *rt;
    Builder::new()
        .stack_size(STACK_SIZE)
        .spawn(rt, move || {
            waits_on(&runtime, alloc, &crowd.lot, &crowd.parked, key)
        })
        .ok()
}

// Registers and parks, and tells whether it was unparked.
fn waits_on<P: ThreadParkerT, R: Wait + Clock>(
    rt: &R,
    alloc: Global,
    lot: &ParkingLot<P>,
    parked: &AtomicU64,
    key: usize,
) -> bool {
    let Ok(mut member) = register(rt, alloc, lot) else {
        return false;
    };
    let word = AtomicU64::new(0);
    let is_unparked = comes_and_parks(rt, &mut member, key, &word, parked);
    retire(rt, member);
    is_unparked
}

// Wakes the thread of each key, and answers how many were woken.
fn woken<P: ThreadParkerT, R: Wait>(rt: &R, lot: &ParkingLot<P>, threads: usize) -> usize {
    let mut woken = 0usize;
    for key in 0..threads {
        woken = woken.wrapping_add(unpark_all(rt, lot, key, DEFAULT_UNPARK_TOKEN));
    }
    woken
}

// Whether each thread was unparked.
fn join_all<R: Threads>(rt: &R, threads: Vec<JoinHandle<bool>>) -> bool {
    let mut all = true;
    for thread in threads {
        all &= thread.join(rt);
    }
    all
}
