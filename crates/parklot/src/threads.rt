//! `parklot threads`: scenarios of threads on threaded lots of their own, and whether each went as
//! it should.

mod fair_condvar;
mod fair_mutex;
mod guest;
mod latch;
mod scenarios;
mod scene;
mod turns;

use crate::threads::guest::play_part;
use crate::threads::scenarios::SCENARIOS;
use crate::threads::scene::Scene;
use crate::threads::turns::comes_to;
use lot_threads::{ThreadParkerT, WordParker};
use std::alloc::Global;
use std::process::ExitCode;
use std::sync::{Arc, Wait};
use std::thread::{JoinHandle, Threads};
use std::time::Clock;
use std::{io, thread};

/// Runs the scenarios with parkers of one word. A line that cannot be printed ends them, and why is
/// told on the error output.
pub fn run<R: Print + Eprint + AllocGlobal + Threads + Wait + Clock + Copy + Send + 'static>(
    rt: &R,
) -> ExitCode {
    match run_all::<WordParker, _>(rt) {
        Ok(true) => ExitCode::SUCCESS,
        Ok(false) => ExitCode::FAILURE,
        Err(error) => {
            let _ = eprintln!(rt; "parklot: {error}");
            ExitCode::FAILURE
        }
    }
}

// Plays each scenario once, prints its line, or that it failed, and tells whether all passed.
fn run_all<P, R>(rt: &R) -> io::Result<bool>
where
    P: ThreadParkerT + Send + Sync + 'static,
    P::UnparkHandle: 'static,
    R: Print + AllocGlobal + Threads + Wait + Clock + Copy + Send + 'static,
{
    let mut passed = true;
    for scenario in SCENARIOS.split("\n\n") {
        let (line, parts) = scenario.split_once('\n').unwrap_or((scenario, ""));
        if play::<P, _>(rt, rt.alloc(), parts).is_some() {
            println!(rt; "{line}")?;
        } else {
            let (name, _) = line.split_once(' ').unwrap_or((line, ""));
            println!(rt; "{name} failed")?;
            passed = false;
        }
    }
    Ok(passed)
}

// Plays the parts of a scenario. `None` says that a thread did not come to its end, and then none
// is joined, or that memory or a thread was refused.
fn play<P, R>(rt: &R, alloc: Global, parts: &'static str) -> Option<()>
where
    P: ThreadParkerT + Send + Sync + 'static,
    P::UnparkHandle: 'static,
    R: Threads + Wait + Clock + Copy + Send + 'static,
{
    let scene = Arc::new(alloc, Scene::<P>::new(alloc)?).ok()?;
    let threads = start_all(rt, alloc, &scene, parts)?;
    comes_to(&scene.done, threads.len())?;
    for thread in threads {
        thread.join(rt);
    }
    Some(())
}

// Starts a thread for each part, or as many as stand before it.
fn start_all<P, R>(
    rt: &R,
    alloc: Global,
    scene: &Arc<Scene<P>, Global>,
    parts: &'static str,
) -> Option<Vec<JoinHandle<()>>>
where
    P: ThreadParkerT + Send + Sync + 'static,
    P::UnparkHandle: 'static,
    R: Threads + Wait + Clock + Copy + Send + 'static,
{
    let mut threads = Vec::new(alloc);
    for part in parts.lines() {
        let (count, acts) = part.split_once(' ')?;
        for _ in 0..count.parse::<usize>().ok()? {
            let number = threads.len();
            let thread = start(rt, alloc, scene, number, acts)?;
            threads.push(thread).ok()?;
        }
    }
    Some(threads)
}

fn start<P, R>(
    rt: &R,
    alloc: Global,
    scene: &Arc<Scene<P>, Global>,
    number: usize,
    acts: &'static str,
) -> Option<JoinHandle<()>>
where
    P: ThreadParkerT + Send + Sync + 'static,
    P::UnparkHandle: 'static,
    R: Threads + Wait + Clock + Copy + Send + 'static,
{
    let scene = Arc::try_clone(scene).ok()?;
    let runtime = *rt;
    thread::spawn(rt, move || play_part(&runtime, alloc, &scene, number, acts)).ok()
}
