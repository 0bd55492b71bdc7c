//! What is done with one parker, on a new lot or without one. The parkers are named here alone.

use crate::fault::Fault;
use crate::stress::memory::Scenario;
use crate::stress::rest::alone::wait_each_time;
use crate::stress::{marks, memory, parks, race, rest};
use lot_base::thread_parker as lower;
use lot_threads::{ParkingLot, ThreadParker, ThreadParkerT, WordParker, YieldParker};
use std::alloc::Global;
use std::sync::Wait;
use std::thread::Threads;
use std::time::{Clock, Duration};

/// What is done with a parker on a lot, and a number: a seed, a count or a time.
#[derive(Clone, Copy)]
pub enum Task {
    Race,
    Parks,
    Rest,
    Memory(Scenario),
}

/// The number of the parker of this name. Any other name is that of the one that yields.
pub fn numbered(name: &str) -> u64 {
    match name {
        "word" => 0,
        "thread" => 1,
        _ => 2,
    }
}

/// Does the task with the parker of this number, modulo three: one of one word, one of a slot, and
/// one that yields. Answers how much was done.
pub fn perform<R: Print + Eprint + Threads + Wait + Clock + Sync>(
    rt: &R,
    alloc: Global,
    parker: u64,
    task: Task,
    number: u64,
) -> Result<usize, Fault> {
    marks::enter(alloc);
    let done = match parker % 3 {
        0 => perform_with::<WordParker, _>(rt, alloc, task, number),
        1 => perform_with::<ThreadParker, _>(rt, alloc, task, number),
        _ => perform_with::<YieldParker, _>(rt, alloc, task, number),
    };
    marks::leave(alloc);
    done
}

fn perform_with<P, R>(rt: &R, alloc: Global, task: Task, number: u64) -> Result<usize, Fault>
where
    P: ThreadParkerT + Send + Sync,
    R: Print + Eprint + Threads + Wait + Clock + Sync,
{
    let lot = ParkingLot::<P>::new(alloc, threads_of(task))?;
    perform_on(rt, alloc, &lot, task, number)
}

// How many numbers the lot has.
fn threads_of(task: Task) -> usize {
    match task {
        Task::Race => race::MOST,
        Task::Parks => 1,
        Task::Rest => rest::MOST,
        Task::Memory(scenario) => scenario.threads(),
    }
}

fn perform_on<P, R>(
    rt: &R,
    alloc: Global,
    lot: &ParkingLot<P>,
    task: Task,
    number: u64,
) -> Result<usize, Fault>
where
    P: ThreadParkerT + Send + Sync,
    R: Print + Eprint + Threads + Wait + Clock + Sync,
{
    match task {
        Task::Race => race::run_round(rt, alloc, lot, number),
        Task::Parks => parks::run(rt, alloc, lot, number as usize),
        Task::Rest => rest::run(rt, alloc, lot, number),
        Task::Memory(scenario) => memory::play(rt, alloc, lot, scenario),
    }
}

/// One thread waits for so many milliseconds, three times over each parker without a lot whose
/// threads sleep.
pub fn wait_alone<R: Threads + Wait + Clock + Sync>(
    rt: &R,
    alloc: Global,
    milliseconds: u64,
) -> Result<(), Fault> {
    let rest = Duration::from_millis(milliseconds);
    wait_each_time::<lower::WordParker, _>(rt, alloc, rest)?;
    wait_each_time::<lower::ThreadParker, _>(rt, alloc, rest)
}
