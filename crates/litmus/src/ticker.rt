//! What is told of a search that takes long.

use lot_litmus::watch::Watcher;
use std::time::{Clock, Instant};

// Between two lines there are so many seconds at least.
const SECONDS: u64 = 1;

/// Tells on the error output how far a search has come.
#[derive(Drop)]
pub struct Ticker<'r, R> {
    rt: &'r R,

    // When it was told last, or when the search began.
    last: Option<Instant>,
}

impl<'r, R: Clock> Ticker<'r, R> {
    /// The search begins now.
    pub fn new(rt: &'r R) -> Ticker<'r, R> {
        Ticker {
            rt,
            last: Instant::now(rt).ok(),
        }
    }

    // Whether there is something to tell by now. Where there is no clock, there never is.
    fn is_due(&self) -> bool {
        let Some(last) = self.last else {
            return false;
        };
        match last.elapsed(self.rt) {
            Ok(elapsed) => elapsed.as_secs() >= SECONDS,
            Err(_) => false,
        }
    }
}

impl<R: Eprint + Clock> Watcher for Ticker<'_, R> {
    fn watch(&mut self, states: usize, depth: usize) {
        if self.is_due() {
            self.last = Instant::now(self.rt).ok();
            let _ = eprintln!(self.rt; "{states} states so far, {depth} steps deep");
        }
    }
}
