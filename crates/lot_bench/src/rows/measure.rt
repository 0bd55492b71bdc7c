//! What one operation of a row costs, of which the threads begin each run together.

use crate::rows::row::Row;
use crate::threads::sum_of;
use std::alloc::Global;
use std::sync::atomic::{AtomicU64, Ordering};
use std::sync::{Barrier, Wait};
use std::thread::Threads;
use std::time::{Clock, Instant};

// Threads that are just started may share a processor while another one is idle. After so many
// nanoseconds the system has spread them.
const UNTIL_SPREAD: u64 = 40_000_000;

/// How many nanoseconds have passed since the start, if the clock could be read.
pub fn nanoseconds_since<R: Clock>(rt: &R, start: Option<Instant>) -> Option<u64> {
    u64::try_from(start?.elapsed(rt).ok()?.as_nanos()).ok()
}

/// The times of those runs of a row that count.
#[derive(Drop)]
pub struct Times {
    counted: Vec<u64>,
    // How many runs are still to come that do not count.
    uncounted: usize,
}

impl Times {
    pub fn new(alloc: Global, row: &Row) -> Option<Times> {
        Some(Times {
            counted: Vec::with_capacity(alloc, row.runs).ok()?,
            uncounted: row.uncounted,
        })
    }

    /// Takes the time of the next run, for which there is room.
    pub fn add(&mut self, time: u64) {
        if self.uncounted > 0 {
            self.uncounted -= 1;
        } else {
            let _ = self.counted.push(time);
        }
    }

    pub fn median(&mut self) -> Option<u64> {
        self.counted.sort_unstable();
        self.counted.get(self.counted.len() / 2).copied()
    }
}

/// When the threads of a row began a run and ended it, and what they counted.
#[derive(Drop)]
pub struct Watch {
    // Where threads wait until all of them begin a run.
    begins: Barrier,
    epoch: Option<Instant>,
    // When the first thread began the run, and when the last ended it, in nanoseconds since then.
    start: AtomicU64,
    end: AtomicU64,
    // What was counted under a lock, in all runs.
    counted: AtomicU64,
    // How many runs have ended.
    ended: AtomicU64,
}

impl Watch {
    pub fn new<R: Clock>(rt: &R, row: &Row) -> Watch {
        Watch {
            begins: Barrier::new(row.threads),
            epoch: Instant::now(rt).ok(),
            start: AtomicU64::new(u64::MAX),
            end: AtomicU64::new(0),
            counted: AtomicU64::new(0),
            ended: AtomicU64::new(0),
        }
    }

    /// Runs for a while, waits until all threads begin the run, and answers when this one does.
    pub fn begin<R: Wait + Clock>(&self, rt: &R) -> Option<u64> {
        run_until_spread(rt);
        self.begins.wait(rt);
        nanoseconds_since(rt, self.epoch)
    }

    /// Notes when a thread began its run, that it ended it now, and what was counted by then.
    /// `None` says that the clock could not be read, or that nothing could be counted.
    pub fn end<R: Clock>(&self, rt: &R, start: Option<u64>, counted: Option<u64>) -> Option<usize> {
        let end = nanoseconds_since(rt, self.epoch);
        self.start.fetch_min(start?, Ordering::SeqCst);
        self.end.fetch_max(end?, Ordering::SeqCst);
        self.counted.fetch_max(counted?, Ordering::SeqCst);
        Some(0)
    }

    /// Whether this is the first run.
    pub fn is_first(&self) -> bool {
        self.ended.load(Ordering::SeqCst) == 0
    }

    // The time of a run from the first start to the last end.
    fn take(&self) -> Option<u64> {
        self.ended.fetch_add(1, Ordering::SeqCst);
        let start = self.start.swap(u64::MAX, Ordering::SeqCst);
        self.end.swap(0, Ordering::SeqCst).checked_sub(start)
    }
}

// Runs until the system has spread the threads over the processors.
fn run_until_spread<R: Wait + Clock>(rt: &R) {
    let start = Instant::now(rt).ok();
    for _ in rt.forever() {
        match nanoseconds_since(rt, start) {
            Some(spent) if spent < UNTIL_SPREAD => (),
            _ => return,
        }
    }
    unreachable!()
}

/// Lets all threads act in each run, and answers the median time of a run. `None` says that a
/// thread answered so, or that something else was counted than has to be.
pub fn time_of_runs<R: Threads + Wait + Clock + Sync, F: Fn(usize) -> Option<usize> + Sync>(
    rt: &R,
    alloc: Global,
    row: &Row,
    watch: &Watch,
    act: &F,
) -> Option<u64>
    requires { F.IsAlwaysCallable act.now }
{
    let mut times = Times::new(alloc, row)?;
    for _ in 0..row.all_runs() {
        sum_of(rt, alloc, row.threads, act)?;
        times.add(watch.take()?);
    }
    if watch.counted.load(Ordering::SeqCst) == row.counted as u64 {
        times.median()
    } else {
        None
    }
}

/// Lets all threads count under a lock in each run, each by its place, and answers the median time
/// of a run.
pub fn time_of_counts<R: Threads + Wait + Clock + Sync, F: Fn(usize) -> Option<u64> + Sync>(
    rt: &R,
    alloc: Global,
    row: &Row,
    count: &F,
) -> Option<u64>
    requires { F.IsAlwaysCallable count.now }
{
    let watch = Watch::new(rt, row);
    let act = |place: usize|
        requires { F.IsAlwaysCallable count.now }
    {
        let start = watch.begin(rt);
        let counted = count(place);
        watch.end(rt, start, counted)
    };
    time_of_runs(rt, alloc, row, &watch, &act)
}
