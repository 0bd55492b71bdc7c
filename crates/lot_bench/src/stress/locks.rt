//! `lot_bench stress locks`: threads that count under locks, in orders that are drawn.

mod chosen;
mod deeds;
mod line;
mod meeting;
mod patience;
mod shared;
mod titled;

use crate::fault::Fault;
use chosen::Players;
use std::alloc::Global;
use std::sync::Wait;
use std::thread::Threads;
use std::time::{Clock, Instant};

// How many threads may wait at once in the lot of a round, and how many there are.
const PLACES: [usize; 4] = [0, 1, 2, 16];

const THREADS: [usize; 3] = [2, 4, 16];

/// Plays so many rounds, each with new locks, and tells how often threads counted in them. The seed
/// of a round is that of the one before and one more. It says how many threads there are, and how
/// many of them may wait at once.
pub fn run<R: Print + Eprint + Threads + Wait + Clock + Sync>(
    rt: &R,
    alloc: Global,
    rounds: u64,
    first_seed: u64,
) -> Result<(), Fault> {
    let mut counted = 0usize;
    for round in 0..rounds {
        let seed = first_seed.wrapping_add(round);
        match play_all(rt, alloc, seed) {
            Ok(more) => counted = counted.wrapping_add(more),
            Err(fault) => {
                let _ = eprintln!(rt; "a round failed: lot_bench stress locks 1 {seed}");
                return Err(fault);
            }
        }
    }
    println!(rt; "locks: {rounds} rounds as they should be, {counted} counts in them")?;
    Ok(())
}

// Plays a round with the locks that threads choose from, one with titled locks, and one in which
// threads meet. Answers how often they counted.
fn play_all<R: Threads + Wait + Clock + Sync>(
    rt: &R,
    alloc: Global,
    seed: u64,
) -> Result<usize, Fault> {
    let places = PLACES[seed as usize % 4];
    let threads = THREADS[seed as usize % 3];
    let chosen = chosen::play(rt, alloc, places, Players::Several(threads, seed))?;
    let titled = titled::play(rt, alloc, places, threads, seed)?;
    let met = meeting::play(rt, alloc, places, threads, seed)?;
    Ok(chosen.wrapping_add(titled).wrapping_add(met))
}

/// Makes the locks, and does each operation with each patience in one thread, between marks.
/// Answers how often it counted.
pub fn act_alone<R: Threads + Wait + Clock + Sync>(rt: &R, alloc: Global) -> Result<usize, Fault> {
    let past = Instant::now(rt)?;
    chosen::play(rt, alloc, 1, Players::One(past))
}
