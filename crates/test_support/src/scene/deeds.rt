//! This module does what threads of a scene do without a closure. A closure of a call can do it
//! too.

use super::Stage;
use super::outcomes::{count_answered, way_of};
use crate::calls::{Way, come_and_go, move_all, unpark};
use crate::waits::{TURNS, are_waiting};
use crate::words::Words;
use lot_threads::{LotError, ThreadParkerT, UnparkToken};
use std::alloc::Global;
use std::sync::Wait;
use std::sync::atomic::{AtomicUsize, Ordering};
use std::time::{Clock, Duration};
use std::{hint, thread};

// So often one looks whether a count stays at 0.
const TURNS_INSIDE: usize = 2_000;

impl<P: ThreadParkerT> Stage<'_, P> {
    /// Returns the count that the next word names.
    pub(super) fn count(&self, words: &mut Words<'_>) -> Option<&AtomicUsize> {
        let letter = words.word()?.as_bytes().first().copied()?;
        self.counts.get(usize::from(letter % 32))
    }

    // Whether a count stays at 0 for a while.
    fn stays_low(&self, count: &AtomicUsize) -> bool {
        for _ in 0..TURNS_INSIDE {
            if count.load(Ordering::SeqCst) != 0 {
                return false;
            }
            thread::yield_now();
        }
        true
    }

    // Raises a count, waits until it was raised so often, or looks how high it is.
    fn do_count(&self, deed: &str, words: &mut Words<'_>) -> Option<bool> {
        let count = self.count(words)?;
        match deed {
            "raise" => {
                count.fetch_add(1, Ordering::SeqCst);
                words.end(true)
            }
            "await" => {
                let has_come = self.comes_to(count, words.number_or(1)?);
                words.end(has_come)
            }
            "is" => {
                let expected = words.number()?;
                words.end(count.load(Ordering::SeqCst) == expected)
            }
            _ => words.end(self.stays_low(count)),
        }
    }

    // Waits until so many threads wait on a key.
    fn await_waiters<R: Wait>(&self, rt: &R, alloc: Global, words: &mut Words<'_>) -> Option<bool> {
        let key = words.number()?;
        let threads = words.number()?;
        for turn in 0..TURNS {
            if are_waiting(rt, alloc, &self.lot, key, threads) {
                return words.end(true);
            }
            if !self.waits_a_turn(turn) {
                break;
            }
        }
        Some(false)
    }

    // Whether the numbers of those who wait on a key are those of the words, if they tell some.
    fn lists<R: Wait>(&self, rt: &R, alloc: Global, words: &mut Words<'_>) -> Option<bool> {
        let key = words.number()?;
        let numbers = self.lot.list(rt, alloc, key).ok()?;
        if !words.reads("->") {
            return words.end(true);
        }
        let mut are_same = true;
        for number in numbers {
            are_same = words.number_or(usize::MAX)? == number && are_same;
        }
        words.end(are_same)
    }

    // Registers so many threads, which keep their numbers. The words may tell the first of these,
    // behind which the others come one by one.
    fn register<R: Wait>(&self, rt: &R, alloc: Global, words: &mut Words<'_>) -> Option<bool> {
        let threads = words.number()?;
        let is_told = words.reads("->");
        let first = words.number_or(0)?;
        let mut is_well = words.end(true)?;
        for place in 0..threads {
            let number = self.register_one(rt, alloc).ok()?;
            is_well = (!is_told || number == first.wrapping_add(place)) && is_well;
        }
        Some(is_well)
    }

    // The number of a thread that is registered and keeps it.
    fn register_one<R: Wait>(&self, rt: &R, alloc: Global) -> Result<usize, LotError> {
        match self.lot.thread_data(rt, alloc) {
            Ok(data) => Ok(data.number()),
            Err(error) => Err(error),
        }
    }

    // Whether no number is left.
    fn is_full<R: Wait>(&self, rt: &R, alloc: Global, words: &mut Words<'_>) -> Option<bool> {
        words.end(matches!(self.register_one(rt, alloc), Err(LotError::Full)))
    }

    // Unparks the first waiter of a key, or all, or moves all to another key, and counts them.
    fn wake_or_move<R: Wait>(&self, rt: &R, deed: &str, words: &mut Words<'_>) -> Option<bool> {
        let way = match deed {
            "unpark" => way_of(words)?,
            _ => Way::All,
        };
        let key = words.number()?;
        let number = words.number()?;
        if deed == "move" {
            return count_answered(words, move_all(rt, &self.lot, key, number));
        }
        let unparked = unpark(rt, &self.lot, way, key, UnparkToken(number));
        self.answered.fetch_add(unparked, Ordering::SeqCst);
        count_answered(words, unparked)
    }

    // Sleeps for so many microseconds, spins so often, or registers so many threads, for which the
    // table may grow, and frees their numbers.
    fn pass<R: Wait + Clock>(
        &self,
        rt: &R,
        alloc: Global,
        deed: &str,
        words: &mut Words<'_>,
    ) -> Option<bool> {
        let number = words.number()?;
        let mut is_well = true;
        match deed {
            "sleep" => thread::sleep(rt, Duration::from_micros(u64::try_from(number).ok()?)),
            "spin" => spin(number),
            _ => is_well = come_and_go(rt, alloc, &self.lot, number),
        }
        words.end(is_well)
    }

    /// Does an action that needs no closure. A closure can do it too.
    pub(super) fn do_deed<R: Wait + Clock>(
        &self,
        rt: &R,
        alloc: Global,
        deed: &str,
        words: &mut Words<'_>,
    ) -> Option<bool> {
        match deed {
            "raise" | "await" | "never" | "is" => self.do_count(deed, words),
            "waiting" => self.await_waiters(rt, alloc, words),
            "list" => self.lists(rt, alloc, words),
            "register" => self.register(rt, alloc, words),
            "full" => self.is_full(rt, alloc, words),
            "unpark" | "unpark_all" | "move" => self.wake_or_move(rt, deed, words),
            "come_and_go" | "sleep" | "spin" => self.pass(rt, alloc, deed, words),
            "trim" => {
                self.lot.trim(rt);
                words.end(true)
            }
            _ => None,
        }
    }
}

fn spin(times: usize) {
    for _ in 0..times {
        hint::spin_loop();
    }
}
