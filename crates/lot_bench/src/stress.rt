//! The commands behind the word `stress`: memory that is refused, parks that are many, threads that
//! sleep, race and share locks, and the lot of threads beside the exclusive one.

mod cost;
mod crowd;
mod draws;
mod locks;
mod marks;
mod memory;
mod nested;
mod parkers;
mod parks;
mod race;
mod rest;
mod word_lock;

use crate::fault::Fault;
use crate::stress::memory::{SCENARIOS, Scenario};
use crate::stress::parkers::{Task, numbered, perform, wait_alone};
use crate::threads::has_lasted;
use std::alloc::Global;
use std::sync::Wait;
use std::thread::Threads;
use std::time::{Clock, Instant};

// A command with a number, and what the number is of.
#[derive(Clone, Copy)]
enum Command {
    // How many parks.
    Parks,
    // How many milliseconds.
    Rest,
    // How many seconds; and a seed.
    Race,
    // How many rounds; and a seed.
    Locks,
    // A seed.
    Nested,
    // A seed.
    Deep,
}

impl Command {
    fn named(word: &str) -> Result<Command, Fault> {
        Ok(match word {
            "parks" => Command::Parks,
            "rest" => Command::Rest,
            "race" => Command::Race,
            "locks" => Command::Locks,
            "nested" => Command::Nested,
            "deep" => Command::Deep,
            _ => return Err(Fault::UnknownWords),
        })
    }
}

/// Follows the command, and the words behind it, of which those that are missing are empty.
pub fn run<R: Print + Eprint + Threads + Wait + Clock + Sync>(
    rt: &R,
    alloc: Global,
    command: &str,
    first: &str,
    second: &str,
) -> Result<(), Fault> {
    match command {
        "memory" if first.is_empty() => Ok(print!(rt; "{SCENARIOS}")?),
        "memory" => {
            let task = Task::Memory(Scenario::named(first)?);
            perform(rt, alloc, numbered(second), task, 0)?;
            Ok(())
        }
        "cost" => cost::run(alloc),
        _ => follow(rt, alloc, Command::named(command)?, number(first)?, second),
    }
}

fn follow<R: Print + Eprint + Threads + Wait + Clock + Sync>(
    rt: &R,
    alloc: Global,
    command: Command,
    first: u64,
    second: &str,
) -> Result<(), Fault> {
    match command {
        Command::Parks => perform_each(rt, alloc, 3, Task::Parks, "parks", first),
        // A parker that yields does not sleep.
        Command::Rest => {
            wait_alone(rt, alloc, first)?;
            perform_each(rt, alloc, 2, Task::Rest, "rest", first)
        }
        Command::Race => run_races(rt, alloc, first, number(second)?),
        Command::Locks => locks::run(rt, alloc, first, number(second)?),
        Command::Nested => nested::run(rt, alloc, false, first),
        Command::Deep => nested::run(rt, alloc, true, first),
    }
}

fn number(word: &str) -> Result<u64, Fault> {
    match word.parse() {
        Ok(number) => Ok(number),
        Err(_) => Err(Fault::UnknownWords),
    }
}

// Does the task with each of so many parkers.
fn perform_each<R: Print + Eprint + Threads + Wait + Clock + Sync>(
    rt: &R,
    alloc: Global,
    parkers: u64,
    task: Task,
    command: &str,
    number: u64,
) -> Result<(), Fault> {
    for parker in 0..parkers {
        perform(rt, alloc, parker, task, number)?;
    }
    println!(rt; "{command} {number}: as it should be with {parkers} parkers")?;
    Ok(())
}

// Plays races for so long, each on a lot of its own, with each parker by turns, and tells how many
// they were, and how many were woken. The seed of a round is that of the one before and one more,
// so a round that failed is the first of those with its seed.
fn run_races<R: Print + Eprint + Threads + Wait + Clock + Sync>(
    rt: &R,
    alloc: Global,
    seconds: u64,
    seed: u64,
) -> Result<(), Fault> {
    let start = Instant::now(rt)?;
    let (mut rounds, mut done) = (0u64, 0usize);
    for seed in seed..u64::MAX {
        if has_lasted(rt, start, seconds) {
            break;
        }
        match perform(rt, alloc, seed, Task::Race, seed) {
            Ok(more) => done = done.wrapping_add(more),
            Err(fault) => {
                let _ = eprintln!(rt; "a round failed: lot_bench stress race 1 {seed}");
                return Err(fault);
            }
        }
        rounds = rounds.wrapping_add(1);
    }
    println!(rt; "race: {rounds} rounds as they should be, {done} wakes in them")?;
    Ok(())
}
