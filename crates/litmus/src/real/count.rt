//! Numbers that threads wait for.

use std::sync::Wait;
use std::sync::atomic::{AtomicU64, Ordering};
use std::time::{Clock, Duration, Instant};

// How many milliseconds a thread sleeps at most until it looks at the clock again.
const NAP: u64 = 100;

/// A number that threads wait for.
#[derive(Drop)]
pub struct Count {
    number: AtomicU64,
}

impl Count {
    pub fn new() -> Count {
        Count {
            number: AtomicU64::new(0),
        }
    }

    pub fn get(&self) -> u64 {
        self.number.load(Ordering::SeqCst)
    }

    /// It is this number now, and whoever waits looks at it.
    pub fn set(&self, number: u64) {
        self.number.store(number, Ordering::SeqCst);
        self.number.wake_all();
    }

    /// It is one more now, and whoever waits looks at it.
    pub fn add_one(&self) {
        self.number.fetch_add(1, Ordering::SeqCst);
        self.number.wake_all();
    }

    /// Waits until it is at least so much, and answers what it is.
    pub fn wait<R: Wait>(&self, rt: &R, least: u64) -> u64 {
        for _ in rt.forever() {
            let number = self.get();
            if number >= least {
                return number;
            }
            self.number.park(rt, low_bits(number));
        }
        unreachable!()
    }

    /// Waits so for a time. Says whether it came to be so much. A clock that cannot be read ends
    /// the wait.
    pub fn wait_for<R: Wait + Clock>(&self, rt: &R, least: u64, time: Duration) -> bool {
        let Ok(start) = Instant::now(rt) else {
            return self.get() >= least;
        };
        for _ in rt.forever() {
            let number = self.get();
            if number >= least {
                return true;
            }
            if start.elapsed(rt).map_or(true, |elapsed| elapsed >= time) {
                return false;
            }
            self.number
                .park_timeout(rt, low_bits(number), Duration::from_millis(NAP));
        }
        unreachable!()
    }
}

fn low_bits(number: u64) -> u32 {
    (number & 0xFFFF_FFFF) as u32
}
