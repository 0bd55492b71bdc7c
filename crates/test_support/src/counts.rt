//! This module has counts, by which threads tell each other how far they have come.

use crate::waits::comes_to;
use crate::words::Words;
use std::sync::atomic::{AtomicUsize, Ordering};

// So many letters differ in their last five bits.
const LETTERS: usize = 32;

/// `Counts` has a count for each letter. A word names the count of its first letter.
#[derive(Drop)]
pub struct Counts {
    counts: [AtomicUsize; LETTERS],
}

impl Counts {
    /// Creates counts of 0.
    pub fn new() -> Counts {
        Counts {
            counts: [0; LETTERS].map(|_| AtomicUsize::new(0)),
        }
    }

    /// Returns the count that the word names.
    pub fn named(&self, word: &str) -> &AtomicUsize {
        let letter = word.as_bytes().first().copied().unwrap_or(0);
        &self.counts[usize::from(letter % 32)]
    }

    /// Adds a number to a count (`raise`), takes it away (`lower`), waits until the count is so
    /// high (`await`), or reads it (`tell`).
    ///
    /// The next word names the count, and the one behind it the number, which is 1 if it is not
    /// said. It returns the count, or 1 or 0 for yes or no, and `None` if the words say no such
    /// call.
    pub fn call(&self, call: &str, words: &mut Words<'_>) -> Option<usize> {
        let count = self.named(words.word()?);
        let number = words.number_or_one();
        match call {
            "raise" => {
                let before = count.fetch_add(number, Ordering::SeqCst);
                Some(before.wrapping_add(number))
            }
            "lower" => Some(count.fetch_sub(number, Ordering::SeqCst)),
            "await" => Some(usize::from(comes_to(count, number))),
            "tell" => Some(count.load(Ordering::SeqCst)),
            _ => None,
        }
    }
}
