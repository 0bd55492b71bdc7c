//! Tests of `TitledSemaphore`, in lots with room for all that wait, for some and for none.

use crate::stage::new_titled_lot;
use parking_lot::TitledSemaphore;
use std::alloc::AllocGlobal;
use std::process::Abort;
use std::sync::Wait;
use std::sync::atomic::{AtomicUsize, Ordering};
use std::thread;
use std::thread::Threads;
use std::time::{Clock, Duration};

// How often each thread takes a permit.
const ROUNDS: usize = 300;

// How long a hurried thread waits, in microseconds.
const SOON: u64 = 50;

const PERMITS: u32 = 2;

// What four threads share: the semaphore, and how many of them have a permit.
#[derive(Drop)]
struct Shared<'l> {
    semaphore: TitledSemaphore<'l>,
    inside: AtomicUsize,
}

// Says that one more thread has a permit, and answers whether there are as many at least.
fn is_one_of_two(inside: &AtomicUsize) -> bool {
    let others = inside.fetch_add(1, Ordering::SeqCst);
    thread::yield_now();
    inside.fetch_sub(1, Ordering::SeqCst);
    others < 2
}

// Takes a permit again and again, patiently and in a hurry by turns, and answers how often more
// threads had one than there are.
fn take_permits<R: Wait + Clock>(rt: &R, shared: &Shared<'_>) -> usize {
    let mut wrong: usize = 0;
    for _ in 0..ROUNDS {
        let permit = shared.semaphore.acquire(rt);
        wrong = wrong.wrapping_add(usize::from(!is_one_of_two(&shared.inside)));
        drop(permit);
        let soon = Duration::from_micros(SOON);
        if let Some(_permit) = shared.semaphore.acquire_for(rt, soon) {
            wrong = wrong.wrapping_add(usize::from(!is_one_of_two(&shared.inside)));
        }
    }
    wrong
}

// Four threads take permits in a lot with so many places.
fn take_permits_in_four<R: Abort + AllocGlobal + Wait + Clock + Threads + Sync>(
    rt: &R,
    places: usize,
) {
    let lot = new_titled_lot(rt, places);
    let semaphore = TitledSemaphore::new(rt, lot, PERMITS).expect(rt, "a semaphore");
    let shared = Shared {
        semaphore,
        inside: AtomicUsize::new(0),
    };
    let two = || {
        let (one, other) = thread::join(
            rt,
            &|| take_permits(rt, &shared),
            &|| take_permits(rt, &shared),
        );
        one.wrapping_add(other)
    };
    let (one, other) = thread::join(rt, &two, &two);
    assert_eq!(rt; one.wrapping_add(other), 0, "{places} places");
    assert_eq!(rt; shared.semaphore.available_permits(), 2);
}

// Nobody is forgotten, and no permit is lost or taken twice.
#[test]
fn threads_share_the_permits_of_a_titled_semaphore(rt: HostRuntime) {
    for places in [0, 1, 2, 16] {
        take_permits_in_four(&rt, places);
    }
}

#[test]
fn permits_of_a_titled_semaphore_go_and_come_back(rt: HostRuntime) {
    let lot = new_titled_lot(&rt, 1);
    let semaphore = TitledSemaphore::new(&rt, lot, PERMITS).expect(&rt, "a semaphore");
    let soon = Duration::from_micros(SOON);
    let first = semaphore.acquire(&rt);
    assert_eq!(&rt; semaphore.available_permits(), 1);
    let second = semaphore.acquire_for(&rt, soon);
    assert!(&rt; second.is_some());
    assert!(&rt; semaphore.try_acquire(&rt).is_none());
    assert!(&rt; semaphore.acquire_for(&rt, soon).is_none());
    drop(first);
    assert!(&rt; semaphore.try_acquire(&rt).is_some());
    drop(second);
    assert_eq!(&rt; semaphore.available_permits(), 2);
}
