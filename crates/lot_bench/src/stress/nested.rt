//! `lot_bench stress nested`: the lot of threads beside the exclusive one, call by call.
//!
//! One thread does it all: while it parks by one thread's data, and before it sleeps, it parks by
//! another's, and so on. So as many threads wait as there are data, all in one known order, and
//! each answer is that of the exclusive lot, which has a proof. What threads do at the same time is
//! not seen here.

mod sides;
mod twin;
mod walk;

use crate::calls::park;
use crate::fault::Fault;
use lot_threads::{MAX_THREADS, ParkingLot, WordParker};
use std::alloc::Global;
use std::sync::Wait;
use std::time::{Clock, Instant};
use twin::{Shape, Twin};
use walk::Walk;

const FEW: Shape = (12, 3, 1_000, 1);

const SOME: Shape = (60, 6, 2_000, 1);

const MANY: Shape = (700, 40, 3_000, 30);

const ALL: Shape = (MAX_THREADS, 9, 40_000, 2_000);

/// Walks twice, with few threads or with many. Since nobody sleeps, one parker does, and a function
/// that calls itself is stated for it alone.
pub fn run<R: Print + Wait + Clock>(
    rt: &R,
    alloc: Global,
    is_deep: bool,
    seed: u64,
) -> Result<(), Fault> {
    let past = Instant::now(rt)?;
    for shape in if is_deep { [MANY, ALL] } else { [FEW, SOME] } {
        walk_on_new_lot(rt, alloc, shape, seed, past)?;
        println!(rt; "{} threads: as in the exclusive lot", shape.0)?;
    }
    Ok(())
}

fn walk_on_new_lot<R: Wait + Clock>(
    rt: &R,
    alloc: Global,
    shape: Shape,
    seed: u64,
    past: Instant,
) -> Result<(), Fault> {
    let lot = ParkingLot::<WordParker>::new(alloc, shape.0)?;
    compare(rt, alloc, &lot, shape, seed, past)
}

// Walks, and fails unless both lots answered the same.
fn compare<R: Wait + Clock>(
    rt: &R,
    alloc: Global,
    lot: &ParkingLot<WordParker>,
    shape: Shape,
    seed: u64,
    past: Instant,
) -> Result<(), Fault> {
    let twin = Twin::new(alloc, shape, seed, past)?;
    let mut walk = Walk::new(alloc, lot, twin)?;
    for _ in 0..shape.2 {
        if walk.twin.parks_left > 0 {
            nest(rt, alloc, &mut walk, shape.0.saturating_add(1));
        }
    }
    walk.twin.judge()
}

// Lets a thread park. While it waits, other threads do the same once or twice, until there are no
// more, so the depth is that of all threads and one; and it is unparked before it sleeps, if it has
// no timeout and was not unparked yet.
fn nest<R: Wait + Clock>(rt: &R, alloc: Global, walk: &mut Walk<'_, WordParker>, depth: usize) {
    if depth == 0 {
        return;
    }
    let Some(mut thread) = walk.next_thread(rt, alloc) else {
        return;
    };
    let number = thread.number();
    let (entry, is_valid) = walk.twin.enter(number);
    let left = depth - 1;
    let ended = park(rt, &mut thread, entry, is_valid, || {
        nest(rt, alloc, walk, left);
        if walk.twin.goes_again() {
            nest(rt, alloc, walk, left);
        }
        walk.free(rt, number, entry);
    });
    walk.leave(rt, alloc, thread, ended);
}
