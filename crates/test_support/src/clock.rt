//! This module reads the clock for tests.

use std::time::{Clock, Duration, Instant};

/// A thread that waits is woken within this many milliseconds on any machine.
pub const FAR: u64 = 20_000;

/// This many milliseconds pass while a test runs.
pub const SOON: u64 = 30;

/// Returns the present instant, which has passed if it is used as a deadline.
pub fn now<R: Clock>(rt: &R) -> Option<Instant> {
    Instant::now(rt).ok()
}

/// Returns the instant that is the given number of milliseconds from now.
pub fn from_now<R: Clock>(rt: &R, milliseconds: u64) -> Option<Instant> {
    now(rt)?.checked_add(Duration::from_millis(milliseconds))
}

/// Returns whether the instant has passed. If there is no clock, it has not.
pub fn is_past<R: Clock>(rt: &R, instant: Instant) -> bool {
    now(rt).is_some_and(|now| now > instant)
}
