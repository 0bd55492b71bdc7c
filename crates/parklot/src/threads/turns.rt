//! Waiting by turns: a look, and if it does not see what it waits for, a yield.

use std::sync::atomic::{AtomicUsize, Ordering};
use std::thread;

/// How often a loop looks before it has failed.
pub const TURNS: usize = 10_000_000;

/// Waits until the number is this one or greater. `None` says that the turns are over.
pub fn comes_to(word: &AtomicUsize, number: usize) -> Option<()> {
    for _ in 0..TURNS {
        if word.load(Ordering::SeqCst) >= number {
            return Some(());
        }
        thread::yield_now();
    }
    None
}
