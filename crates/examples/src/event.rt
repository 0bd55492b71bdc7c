//! An event, for which any number of threads wait on a key of a threaded lot.

ghost use Rattle.std.specs.Prelude.{◌≡◌, ◌≢◌, None, IsFalse};
ghost use Rattle.lot_threads.specs.Members.{Stays};

use lot_threads::{
    DEFAULT_PARK_TOKEN, DEFAULT_UNPARK_TOKEN, Member, ParkResult, ParkingLot, ThreadParkerT,
    unpark_all,
};
use std::marker::Model;
use std::sync::Wait;
use std::sync::atomic::{AtomicBool, Ordering};
use std::time::{Clock, Instant};

/// An event, which threads share by reference. Once it was set it stays so.
///
/// The key is the event's alone, and every call is with the same lot. No call allocates.
#[derive(Drop)]
pub struct Event {
    key: usize,
    is_set: AtomicBool,
}

impl Model for Event {
    ghost use Rattle.examples.specs.KeyedState.{KeyedState};

    ghost Value = { KeyedState };

    ghost view = { λ event. record { key = event.key } };
}

impl Event {
    /// An event that is not set, whose waiters stand on the key.
    pub fn new(key: usize) -> Event
        ensures { result.key ≡ key }
    {
        Event {
            key,
            is_set: AtomicBool::new(false),
        }
    }

    /// Whether the event was set.
    pub fn is_set(&self) -> bool {
        self.is_set.load(Ordering::SeqCst)
    }

    /// Sleeps until the event is set, and with a timeout no longer than until that instant. Answers
    /// false if the time was up first.
    ///
    /// It is one `park`, in which a thread that comes after the event does not sleep.
    pub fn wait<P: ThreadParkerT, R: Wait + Clock>(
        &self,
        rt: &R,
        member: &mut Member<'_, P>,
        timeout: Option<Instant>,
    ) -> bool
        ensures late { IsFalse result → timeout ≢ None }
        ensures stays { Stays member.old member.new }
    {
        let result = member.park(
            rt,
            self.key,
            || !self.is_set(),
            || (),
            |_, _| (),
            DEFAULT_PARK_TOKEN,
            timeout,
        );
        result != ParkResult::TimedOut
    }

    /// Sets the event and wakes every thread that waits for it. Answers how many those were.
    ///
    /// It is one store and one `unpark_all`.
    pub fn set<P: ThreadParkerT, R: Wait>(&self, rt: &R, lot: &ParkingLot<P>) -> usize {
        self.is_set.store(true, Ordering::SeqCst);
        unpark_all(rt, lot, self.key, DEFAULT_UNPARK_TOKEN)
    }
}
