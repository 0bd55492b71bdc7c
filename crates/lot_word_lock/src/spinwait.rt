//! This module has a counter with which a thread spins before it parks, a little longer each time.

ghost use Rattle.std.specs.Prelude.{◌≡◌, ◌<◌, ◌≤◌, ◌+◌, ◌↔◌, ℕ, IsTrue, min};

use std::marker::Model;
use std::{hint, thread};

/// A `SpinWait` spins this many times before it is used up.
const LIMIT: u32 = 10;

/// `spin` gives hints this many times, and yields after that.
const HINTING: u32 = 3;

/// A `SpinWait` counts how often a loop has spun, from 0 to 10, and spins longer each time.
///
/// Use it in a thread that waits for something that may come soon. The thread calls `spin`, looks
/// again, and parks when `spin` returns false. A contract sees the counter as its number. How often
/// a call gives hints or yields is not proved.
///
/// No call takes a lock or allocates.
#[derive(Drop)]
pub struct SpinWait {
    spins: u32,
}

impl Model for SpinWait {
    ghost Value = { ℕ };

    ghost view = { λ wait. wait.spins };

    ghost invariant = { λ wait. wait.spins ≤ 10 };
}

impl SpinWait {
    /// Creates a counter that has not spun yet.
    pub const fn new() -> SpinWait
        ensures { result ≡ 0 }
    {
        SpinWait { spins: 0 }
    }

    /// Sets the counter back to 0, as if it were new.
    pub const fn reset(&mut self)
        ensures { self.new ≡ 0 }
    {
        self.spins = 0;
    }

    /// Spins once more and returns true, or returns false if it has spun ten times.
    ///
    /// In the second case it does nothing, and it is time to park. The first three times it gives
    /// 1, 2 and 4 spin hints to the processor. After that it yields the processor.
    pub fn spin(&mut self) -> bool
        ensures answer { IsTrue result ↔ (self.old < 10) }
        ensures count { self.new ≡ min (self.old + 1) 10 }
    {
        if self.spins == LIMIT {
            return false;
        }
        self.spins += 1;
        if self.spins <= HINTING {
            give_hints(self.spins - 1);
        } else {
            thread::yield_now();
        }
        true
    }

    /// Spins once more, and never yields.
    ///
    /// It is for a loop that tries again because another thread was faster. Each time it gives
    /// twice as many spin hints to the processor as before, from 1 to 512. After ten times it gives
    /// 512 each time.
    pub fn spin_no_yield(&mut self)
        ensures { self.new ≡ min (self.old + 1) 10 }
    {
        self.spins = LIMIT.min(self.spins + 1);
        give_hints(self.spins - 1);
    }
}

impl Default for SpinWait {
    ghost is_default = { λ wait. wait ≡ 0 };

    /// Does the same as `new`.
    fn default() -> SpinWait {
        SpinWait::new()
    }
}

// Gives 2 ^ doublings spin hints.
fn give_hints(doublings: u32)
    requires { doublings < 32 }
{
    for _ in 0..1u32 << doublings {
        hint::spin_loop();
    }
}
