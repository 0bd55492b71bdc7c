//! This module plays scripts: texts that say, line by line, what threads do with what they share.
//!
//! ```text
//! # Six threads count under a mutex.
//! thread 6
//! repeat 1000 mutex lock ; guard add 1 ; guard unlock
//! after
//! mutex is_locked -> 0
//! ```
//!
//! - `thread` begins what one thread does, and `thread 6` what six do. What stands before the first
//!   is done before all threads, and what stands behind `after` once all have ended.
//! - Each other line is a call, or several with the word `;` between. Behind `->` stands what has
//!   to come out: a number (1 is yes, 0 is no), one `or` another, `at_most` one, or `any`. If
//!   nothing stands there, it must not be 0.
//! - A line that begins with `repeat N` is done so often, and one that begins with `until` until
//!   each of its calls goes well. `round` is the number of the turn then, from 1.
//! - `raise`, `lower`, `await` and `tell` have to do with `Counts`. `yield` lets others run, and
//!   `pause MS` sleeps so many milliseconds. Any other word names what is called, of which a `Hand`
//!   says what comes out.
//! - A line that begins with `#`, `begins` or `leaves` does nothing. Of the last two whoever makes
//!   the stage can be told.

use crate::counts::Counts;
use crate::waits::TURNS;
use crate::words::Words;
use std::alloc::Global;
use std::thread;
use std::thread::Threads;
use std::time::{Clock, Duration};

/// This is the place of whoever acts before all threads. That of the first thread is 1.
pub const BEFORE: usize = 0;

/// This is the place of whoever acts after all threads.
pub const AFTER: usize = usize::MAX;

/// A `Hand` is what a thread holds of what threads share.
pub trait Hand {
    /// Returns what comes out of a call whose first word is this.
    ///
    /// `None` says that its words are not known, or that the thread does not hold what they name.
    fn call(&mut self, first: &str, words: &mut Words<'_>) -> Option<usize>;
}

/// A `Stage` is what the threads of a script share. They have a runtime of type `R`.
pub trait Stage<R> {
    /// Does what the script says of whoever has this place, by `play_lines`.
    fn play_place<'x>(&'x self, rt: &'x R, script: &Script<'_>, place: usize);
}

/// A `Script` is a text, with the numbers for which `$0`, `$1` and so on stand in it.
#[derive(Copy, Clone)]
pub struct Script<'s> {
    /// The lines.
    pub text: &'s str,

    /// The numbers.
    pub values: &'s [usize],
}

impl Script<'_> {
    /// Returns the number behind the first line that begins with this word, and `usize::MAX` if no
    /// number stands there. `None` says that no line begins so.
    pub fn told(&self, word: &str) -> Option<usize> {
        for line in self.text.lines() {
            let mut words = Words::of(line, self.values, 0);
            if words.reads(word) {
                return Some(words.number().unwrap_or(usize::MAX));
            }
        }
        None
    }

    // How many threads the lines begin.
    fn threads(&self) -> usize {
        let mut threads: usize = 0;
        for line in self.text.lines() {
            let mut words = Words::of(line, self.values, 0);
            threads = threads.wrapping_add(begun(&mut words).unwrap_or(0));
        }
        threads
    }
}

// How many threads a line begins.
fn begun(words: &mut Words<'_>) -> Option<usize> {
    if words.reads("thread") {
        words.number_or(1)
    } else {
        None
    }
}

// Whether the line does nothing.
fn is_aside(words: Words<'_>) -> bool {
    let mut ahead = words;
    matches!(ahead.word().unwrap_or("#"), "#" | "begins" | "leaves")
}

// What comes out of a call.
fn outcome<H: Hand, R: Clock>(
    rt: &R,
    counts: &Counts,
    hand: &mut H,
    words: &mut Words<'_>,
) -> Option<usize> {
    match words.word()? {
        "yield" => {
            thread::yield_now();
            Some(1)
        }
        "pause" => {
            thread::sleep(rt, Duration::from_millis(words.number()? as u64));
            Some(1)
        }
        call if matches!(call, "raise" | "lower" | "await" | "tell") => counts.call(call, words),
        first => hand.call(first, words),
    }
}

// Whether it is what the words name.
fn is_named(words: &mut Words<'_>, found: usize) -> Option<bool> {
    if !words.reads("->") {
        return Some(found != 0);
    }
    if words.reads("any") {
        return Some(true);
    }
    if words.reads("at_most") {
        return Some(found <= words.number()?);
    }
    let is_first = words.number()? == found;
    if words.reads("or") {
        return Some(words.number()? == found || is_first);
    }
    Some(is_first)
}

// Does the calls of a line, and tells whether all went well.
fn act_all<H: Hand, R: Clock>(
    rt: &R,
    counts: &Counts,
    hand: &mut H,
    words: &mut Words<'_>,
) -> Option<bool> {
    for _ in 0..u64::MAX {
        let found = outcome(rt, counts, hand, words)?;
        let is_well = is_named(words, found)?;
        if !is_well || !words.reads(";") {
            return words.end(is_well);
        }
    }
    None
}

// Does a line so often as it says, and tells whether all went well.
fn play_line<H: Hand, R: Clock>(
    rt: &R,
    counts: &Counts,
    hand: &mut H,
    mut words: Words<'_>,
) -> Option<bool> {
    let is_until = words.reads("until");
    let times = if is_until {
        TURNS
    } else if words.reads("repeat") {
        words.number()?
    } else {
        1
    };
    for turn in 0..times {
        let mut again = words.in_round(turn.wrapping_add(1));
        let is_well = act_all(rt, counts, hand, &mut again) == Some(true);
        if is_well == is_until {
            return Some(is_well);
        }
        if is_until {
            thread::yield_now();
        }
    }
    Some(!is_until)
}

/// Does what the script says of whoever has this place, and returns the number of the first line
/// that went otherwise. It does nothing behind that line.
pub fn play_lines<H: Hand, R: Clock>(
    rt: &R,
    counts: &Counts,
    hand: &mut H,
    script: &Script<'_>,
    place: usize,
) -> Option<usize> {
    let mut next: usize = 1;
    let mut is_own = place == BEFORE;
    for (index, line) in script.text.lines().enumerate() {
        let mut words = Words::of(line, script.values, 0);
        if let Some(threads) = begun(&mut words) {
            is_own = place.wrapping_sub(next) < threads;
            next = next.wrapping_add(threads);
        } else if words.reads("after") {
            is_own = place == AFTER;
        } else if is_own && !is_aside(words) {
            let is_well = play_line(rt, counts, hand, words) == Some(true);
            if !is_well {
                return Some(index.wrapping_add(1));
            }
        }
    }
    None
}

/// Plays a script on this stage, and returns whether all its threads could be started.
pub fn play_on<S: Stage<R> + Sync, R: Threads + Sync>(
    rt: &R,
    alloc: Global,
    stage: &S,
    script: &Script<'_>,
) -> bool {
    stage.play_place(rt, script, BEFORE);
    let play = |index: usize| stage.play_place(rt, script, index.wrapping_add(1));
    let is_played = thread::map_indices(rt, alloc, script.threads(), &play).is_ok();
    stage.play_place(rt, script, AFTER);
    is_played
}
