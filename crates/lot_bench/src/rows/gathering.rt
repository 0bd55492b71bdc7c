//! Threads that wait, and one that leads them and measures what it does.

use crate::rows::measure::Times;
use crate::rows::row::Row;
use crate::rows::turns::{OVER, comes_to};
use crate::threads::sum_of;
use std::alloc::Global;
use std::sync::atomic::{AtomicU64, Ordering};
use std::thread;
use std::thread::Threads;
use std::time::{Clock, Duration};

// How many milliseconds the last who come have to fall asleep.
const MILLISECONDS_TO_SLEEP: u64 = 20;

/// What the threads tell each other.
#[derive(Drop)]
pub struct Gathering {
    /// 0, and `OVER` once nobody is to wait any more.
    pub word: AtomicU64,

    /// How many have come to wait, and how many run again.
    pub come: AtomicU64,
    pub awake: AtomicU64,
}

impl Gathering {
    pub fn new() -> Gathering {
        Gathering {
            word: AtomicU64::new(0),
            come: AtomicU64::new(0),
            awake: AtomicU64::new(0),
        }
    }

    /// From here on those are counted anew who come, and who run again.
    pub fn count_anew(&self) {
        self.come.store(0, Ordering::SeqCst);
        self.awake.store(0, Ordering::SeqCst);
    }

    /// Tells all that nobody is to wait any more.
    pub fn end(&self) {
        self.word.store(OVER, Ordering::SeqCst);
    }

    // Waits until so many have come, and then some time. False says that they did not come.
    fn have_come<R: Clock>(&self, rt: &R, threads: usize) -> bool {
        let have_come = comes_to(&self.come, threads);
        thread::sleep(rt, Duration::from_millis(MILLISECONDS_TO_SLEEP));
        have_come
    }

    /// The median of what each run takes, which begins once all have come. Nothing says that one
    /// of them failed.
    pub fn median_of<R: Clock, F: Fn() -> Option<u64>>(
        &self,
        rt: &R,
        alloc: Global,
        row: &Row,
        run: &F,
    ) -> Option<usize>
        requires { F.IsAlwaysCallable run.now }
    {
        let mut times = Times::new(alloc, row)?;
        for _ in 0..row.all_runs() {
            if !self.have_come(rt, row.threads) {
                return None;
            }
            times.add(run()?);
        }
        Some(times.median()? as usize)
    }
}

/// Lets the threads act, of which the first leads and answers a time, and the others answer 0.
pub fn time_of_leader<R: Threads + Sync, F: Fn(usize) -> Option<usize> + Sync>(
    rt: &R,
    alloc: Global,
    row: &Row,
    act: &F,
) -> Option<u64>
    requires { F.IsAlwaysCallable act.now }
{
    let threads = row.threads.checked_add(1)?;
    Some(sum_of(rt, alloc, threads, act)? as u64)
}
