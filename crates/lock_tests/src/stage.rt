//! What scripts and tests of each kind of lock share: lots, what a thread holds, and words that
//! several locks have.

use parking_lot::{Lot, TitledLot};
use std::alloc::AllocGlobal;
use std::ops::Deref;
use std::process::Abort;
use std::sync::Wait;
use std::thread::Threads;
use std::time::{Clock, Duration, Instant};
use test_support::words::Words;

/// What a runtime can do that a test takes.
pub trait Host: Threads + Wait + Clock + Abort + AllocGlobal + Sync {}

impl<R: Threads + Wait + Clock + Abort + AllocGlobal + Sync> Host for R {}

/// What a runtime can do that a thread of a script takes.
pub trait Actor: Wait + Clock + Abort + AllocGlobal {}

impl<R: Wait + Clock + Abort + AllocGlobal> Actor for R {}

/// In a lot of this size each thread of a test can wait.
pub const ROOM: usize = 20;

/// Lots in which no thread can wait, one, and each thread of a test.
pub const ROOMS: [usize; 3] = [0, 1, ROOM];

/// A value that nobody but a writer may see.
pub const BETWEEN: usize = usize::MAX;

/// A lot in which so many threads can wait. It is never given back, since each function that owned
/// one would have to be proved to drop each of its parts.
pub fn new_lot<R: Abort + AllocGlobal>(rt: &R, room: usize) -> &'static Lot {
    Lot::for_ever(rt.alloc(), room).expect(rt, "a lot")
}

/// The same for titled locks.
pub fn new_titled_lot<R: Abort + AllocGlobal>(rt: &R, room: usize) -> &'static TitledLot {
    TitledLot::for_ever(rt.alloc(), room).expect(rt, "a lot")
}

// An assertion costs a proof a second or more wherever it stands, and a call of this a tenth.
pub fn expect(rt: &impl Abort, is_so: bool, case: &str) {
    assert!(rt; is_so, "{case}");
}

/// Has a thread hold this, in place of what it holds.
pub fn hold<G: Drop>(held: &mut Option<G>, guard: G) {
    *held = Some(guard);
}

/// Has a thread hold what it found, in place of what it holds, and tells whether it found it.
pub fn keep<G: Drop>(held: &mut Option<G>, found: Option<G>) -> bool {
    let is_found = found.is_some();
    if is_found {
        *held = found;
    }
    is_found
}

/// Whether something was found, which is let go.
pub fn has<G: Drop>(found: Option<G>) -> bool {
    found.is_some()
}

/// Has a thread let go what it holds, and tells whether it held it.
pub fn let_go<G: Drop>(held: &mut Option<G>) -> bool {
    has(held.take())
}

/// How long a call waits.
#[derive(Clone, Copy)]
pub enum Patience {
    Over,
    Endless,
    For(Duration),
    Until(Instant),
}

impl Patience {
    /// What a call is named beside the words that tell how long it waits, as `lock` in `try_lock`,
    /// `lock_for TIME` and `lock_until TIME`; and how long that is.
    pub fn of<'t, R: Clock>(
        rt: &R,
        call: &'t str,
        words: &mut Words<'_>,
    ) -> Option<(&'t str, Patience)> {
        if let Some(name) = call.strip_prefix("try_") {
            return Some((name, Patience::Over));
        }
        if let Some(name) = call.strip_suffix("_for") {
            return Some((name, Patience::For(time(words)?)));
        }
        if let Some(name) = call.strip_suffix("_until") {
            return Some((name, Patience::Until(instant(rt, words)?)));
        }
        Some((call, Patience::Endless))
    }
}

/// The value that a guard shows, which is let go.
pub fn value_in<G: Deref<Target = usize> + Drop>(guard: G) -> usize {
    *guard
}

// The time that the next word names. The first three pass while a test runs.
fn time(words: &mut Words<'_>) -> Option<Duration> {
    match words.word()? {
        "no_time" => Some(Duration::from_millis(0)),
        "moment" => Some(Duration::from_millis(1)),
        "short" => Some(Duration::from_millis(30)),
        "long" => Some(Duration::from_secs(20)),
        "endless" => Some(Duration::from_secs(u64::MAX)),
        _ => None,
    }
}

// The instant that comes in the time that the next word names.
fn instant<R: Clock>(rt: &R, words: &mut Words<'_>) -> Option<Instant> {
    Instant::now(rt).ok()?.checked_add(time(words)?)
}
