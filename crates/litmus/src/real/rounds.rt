//! The rounds of a test, with each of the parkers.

use crate::real::fault::RunError;
use crate::real::stage::{Stage, acts};
use crate::real::tally::{Parker, Tally};
use lot_litmus::code::{THREADS, Thread};
use lot_litmus::parse::Parsed;
use lot_litmus::test::Test;
use lot_threads::{ThreadParker, ThreadParkerT, WordParker, YieldParker};
use std::alloc::Global;
use std::sync::{Arc, Wait};
use std::thread;
use std::thread::{JoinHandle, Threads};
use std::time::{Clock, Instant};

/// Plays the rounds with each of the three parkers, which are named here alone.
pub fn play_all<R>(
    rt: &R,
    alloc: Global,
    parsed: &Arc<Parsed, Global>,
    rounds: u64,
    tally: &mut Tally,
) -> Result<(), RunError>
where
    R: Threads + Wait + Clock + Copy + Send + 'static,
{
    play::<WordParker, _>(rt, alloc, parsed, rounds, tally, Parker::Word)?;
    play::<ThreadParker, _>(rt, alloc, parsed, rounds, tally, Parker::Thread)?;
    play::<YieldParker, _>(rt, alloc, parsed, rounds, tally, Parker::Yield)
}

// Plays the rounds with one parker.
fn play<P, R>(
    rt: &R,
    alloc: Global,
    parsed: &Arc<Parsed, Global>,
    rounds: u64,
    tally: &mut Tally,
    parker: Parker,
) -> Result<(), RunError>
where
    P: ThreadParkerT + Send + Sync + 'static,
    P::UnparkHandle: 'static,
    R: Threads + Wait + Clock + Copy + Send + 'static,
{
    let past = Instant::now(rt)?;
    let stage = Stage::<P>::new(alloc, Arc::try_clone(parsed)?, past)?;
    let stage = Arc::new(alloc, stage)?;
    let played = match start_all(rt, alloc, &stage, &parsed.test) {
        Ok(threads) => play_with(rt, &stage, threads, rounds, tally, parker),
        Err(error) => Err(error),
    };
    stage.close();
    played
}

// Plays the rounds with these threads, and joins them unless one of them is lost.
fn play_with<P: ThreadParkerT, R: Threads + Wait + Clock>(
    rt: &R,
    stage: &Stage<P>,
    threads: Vec<JoinHandle<()>>,
    rounds: u64,
    tally: &mut Tally,
    parker: Parker,
) -> Result<(), RunError> {
    let played = play_rounds(rt, stage, rounds, tally, parker);
    stage.close();
    if !matches!(played, Err(RunError::Lost)) {
        for thread in threads {
            thread.join(rt);
        }
    }
    played
}

// A round that does not come to rest by itself is the last, since it takes long.
fn play_rounds<P: ThreadParkerT, R: Wait + Clock>(
    rt: &R,
    stage: &Stage<P>,
    rounds: u64,
    tally: &mut Tally,
    parker: Parker,
) -> Result<(), RunError> {
    stage.assemble(rt)?;
    for round in 1..=rounds {
        let played = stage.play(rt, round)?;
        tally.count(played.outcome, parker)?;
        if !played.is_at_rest {
            break;
        }
    }
    Ok(())
}

// Starts a thread for each of the test's.
fn start_all<P, R>(
    rt: &R,
    alloc: Global,
    stage: &Arc<Stage<P>, Global>,
    test: &Test,
) -> Result<Vec<JoinHandle<()>>, RunError>
where
    P: ThreadParkerT + Send + Sync + 'static,
    P::UnparkHandle: 'static,
    R: Threads + Wait + Clock + Copy + Send + 'static,
{
    let mut threads = Vec::new(alloc);
    for number in 0..THREADS as u8 {
        let thread = Thread { number };
        if acts(test, thread) {
            threads.push(start(rt, alloc, stage, thread)?)?;
        }
    }
    Ok(threads)
}

fn start<P, R>(
    rt: &R,
    alloc: Global,
    stage: &Arc<Stage<P>, Global>,
    thread: Thread,
) -> Result<JoinHandle<()>, RunError>
where
    P: ThreadParkerT + Send + Sync + 'static,
    P::UnparkHandle: 'static,
    R: Threads + Wait + Clock + Copy + Send + 'static,
{
    let stage = Arc::try_clone(stage)?;
    let runtime = *rt;
    match thread::spawn(rt, move || stage.act(&runtime, alloc, thread)) {
        Ok(handle) => Ok(handle),
        Err(_) => Err(RunError::NoThread),
    }
}
