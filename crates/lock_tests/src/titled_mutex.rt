//! Tests of `TitledMutex`, in lots with room for all that wait, for some and for none.

use crate::stage::{Host, expect, has, new_titled_lot, value_in};
use parking_lot::{LotError, TitledLot, TitledMutex};
use std::ops::Deref;
use std::sync::Wait;
use std::thread;
use std::time::{Clock, Duration};

// How often each thread adds.
const ROUNDS: usize = 300;

// How long a hurried thread waits, in microseconds.
const SOON: u64 = 50;

type Total<'l> = TitledMutex<'l, usize>;

// Adds one under the mutex, again and again.
fn add<R: Wait>(rt: &R, total: &Total<'_>) {
    for _ in 0..ROUNDS {
        let mut total = total.lock(rt);
        *total = total.wrapping_add(1);
    }
}

// Adds one where it gets the mutex soon, and answers how often it did.
fn add_soon<R: Wait + Clock>(rt: &R, total: &Total<'_>) -> usize {
    let mut added: usize = 0;
    for _ in 0..ROUNDS {
        if let Some(mut total) = total.lock_for(rt, Duration::from_micros(SOON)) {
            *total = total.wrapping_add(1);
            added = added.wrapping_add(1);
        }
    }
    added
}

// A patient thread and a hurried one add together; it answers how often the hurried one did.
fn add_in_two<R: Host>(rt: &R, total: &Total<'_>) -> usize {
    thread::join(rt, &|| add(rt, total), &|| add_soon(rt, total)).1
}

// Two patient threads and two hurried ones add together.
fn add_in_four<R: Host>(rt: &R, total: &Total<'_>) {
    let both = || add_in_two(rt, total);
    let (one, other) = thread::join(rt, &both, &both);
    let sum = one.wrapping_add(other).wrapping_add(2 * ROUNDS);
    expect(rt, value_in(total.lock(rt)) == sum, "no addition is lost");
}

// The value that a guard shows, which is let go, or 0 if there is no guard.
fn value_if<G: Deref<Target = usize> + Drop>(found: Option<G>) -> usize {
    match found {
        Some(guard) => value_in(guard),
        None => 0,
    }
}

fn is_held_by_one_guard<R: Host>(rt: &R, mutex: &Total<'_>) {
    let soon = Duration::from_micros(SOON);
    let mut guard = mutex.lock(rt);
    *guard = 2;
    expect(rt, mutex.is_locked(), "it is held");
    expect(rt, !has(mutex.try_lock(rt)), "nobody else has it");
    expect(
        rt,
        !has(mutex.lock_for(rt, soon)),
        "nobody else has it soon",
    );
    drop(guard);
    expect(rt, !mutex.is_locked(), "it was let go");
    expect(rt, value_if(mutex.try_lock(rt)) == 2, "it was written");
    expect(
        rt,
        value_if(mutex.lock_for(rt, soon)) == 2,
        "it was let go again",
    );
}

// A mutex in a lot with so many places.
fn new_mutex<R: Host>(rt: &R, places: usize) -> Total<'static> {
    TitledMutex::new(rt, new_titled_lot(rt, places), 0usize).expect(rt, "a mutex")
}

// Nobody is forgotten, and no addition is lost.
#[test]
fn threads_share_a_titled_mutex(rt: HostRuntime) {
    for places in [0, 1, 2, 16] {
        add_in_four(&rt, &new_mutex(&rt, places));
    }
}

#[test]
fn a_titled_mutex_is_held_by_one_guard(rt: HostRuntime) {
    is_held_by_one_guard(&rt, &new_mutex(&rt, 1));
}

#[test]
fn a_titled_lot_has_a_greatest_number_of_threads(rt: HostRuntime) {
    let refused = TitledLot::new(rt.alloc(), 16_385).err();
    expect(
        &rt,
        refused == Some(LotError::TooManyThreads),
        "one too many",
    );
}
