//! What threads that meet at a parker tell each other, and clocks by which one of them waits.

use lot_base::thread_parker::thread_yield;
use std::io;
use std::sync::Wait;
use std::sync::atomic::{AtomicBool, AtomicUsize, Ordering};
use std::time::{Clock, Duration};

const TURNS: usize = 10_000_000;

const LOOKS: usize = 2_000;

/// What the owner and the other thread tell each other.
#[derive(Drop)]
pub(super) struct Meeting {
    /// How many rounds the owner has begun.
    begun: AtomicUsize,

    /// Whether the other thread has come for the last time.
    has_come: AtomicBool,

    /// Whether it had come when a slow clock was read.
    was_seen: AtomicBool,

    /// How often the clock was read.
    reads: AtomicUsize,
}

impl Meeting {
    pub(super) fn new() -> Meeting {
        Meeting {
            begun: AtomicUsize::new(0),
            has_come: AtomicBool::new(false),
            was_seen: AtomicBool::new(false),
            reads: AtomicUsize::new(0),
        }
    }

    /// The owner begins its next round.
    pub(super) fn begin(&self) {
        self.begun.fetch_add(1, Ordering::SeqCst);
    }

    /// Waits until the owner has begun so many rounds, or for too long.
    pub(super) fn wait_for(&self, rounds: usize) {
        for turn in 0..TURNS {
            if self.begun.load(Ordering::SeqCst) >= rounds {
                return;
            }
            if turn >= 1_000 {
                thread_yield();
            }
        }
    }

    /// The other thread has come.
    pub(super) fn come(&self) {
        self.has_come.store(true, Ordering::SeqCst);
    }

    pub(super) fn has_come(&self) -> bool {
        self.has_come.load(Ordering::SeqCst)
    }

    pub(super) fn was_seen(&self) -> bool {
        self.was_seen.load(Ordering::SeqCst)
    }

    pub(super) fn reads(&self) -> usize {
        self.reads.load(Ordering::SeqCst)
    }

    // Lets the other thread come, within a while.
    fn let_come(&self) {
        self.begin();
        for _ in 0..LOOKS {
            if self.has_come() {
                self.was_seen.store(true, Ordering::SeqCst);
                return;
            }
            thread_yield();
        }
    }
}

/// A clock that is ahead of another, or cannot be read.
#[derive(Drop)]
pub(super) struct TestClock<'m, R> {
    pub(super) rt: R,
    pub(super) meeting: &'m Meeting,

    /// By how much it is ahead. It cannot be read where there is none.
    pub(super) ahead: Option<Duration>,

    /// Whether the other thread may come while it is read.
    pub(super) is_slow: bool,
}

impl<R: Wait> Wait for TestClock<'_, R> {}

impl<R: Clock> Clock for TestClock<'_, R> {
    fn monotonic(&self) -> io::Result<Duration> {
        self.meeting.reads.fetch_add(1, Ordering::SeqCst);
        if self.is_slow {
            self.meeting.let_come();
        }
        match self.ahead {
            Some(ahead) => Ok(self.rt.monotonic()?.saturating_add(ahead)),
            None => Err(io::ErrorKind::Unsupported.into()),
        }
    }

    fn since_1970(&self) -> io::Result<Duration> {
        self.rt.since_1970()
    }
}
