//! Threads that act at the same time, and waits that look once a millisecond, so that they take
//! little of a processor.

use std::alloc::Global;
use std::sync::Wait;
use std::sync::atomic::{AtomicUsize, Ordering};
use std::thread;
use std::thread::Threads;
use std::time::{Clock, Duration, Instant};

// How often a wait looks before it has failed.
const LOOKS: usize = 120_000;

/// Waits until there are so many. False says that it has looked for two minutes.
pub fn comes_to<R: Wait + Clock>(rt: &R, count: &AtomicUsize, least: usize) -> bool {
    for _ in 0..LOOKS {
        if count.load(Ordering::SeqCst) >= least {
            return true;
        }
        thread::sleep(rt, Duration::from_millis(1));
    }
    false
}

/// Whether so many seconds have passed since the start. A clock that cannot be read says so too.
pub fn has_lasted<R: Clock>(rt: &R, start: Instant, seconds: u64) -> bool {
    match start.elapsed(rt) {
        Ok(elapsed) => elapsed >= Duration::from_secs(seconds),
        Err(_) => true,
    }
}

/// Lets so many threads act, each by its index, and answers the sum of what they answered, or
/// nothing if one of them did.
pub fn sum_of<R: Threads + Sync, F: Fn(usize) -> Option<usize> + Sync>(
    rt: &R,
    alloc: Global,
    threads: usize,
    act: &F,
) -> Option<usize>
    requires { F.IsAlwaysCallable act.now }
{
    let mut sum = 0usize;
    for answer in thread::map_indices(rt, alloc, threads, act).ok()? {
        sum = sum.wrapping_add(answer?);
    }
    Some(sum)
}
