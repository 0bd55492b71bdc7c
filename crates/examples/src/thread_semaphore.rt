//! A counting semaphore for threads, who wait on a key of a threaded lot.

ghost use Rattle.std.specs.Prelude.{◌≡◌, ◌<◌};
ghost use Rattle.examples.specs.SameMember.{IsSameMember};

use lot_threads::{
    DEFAULT_PARK_TOKEN, DEFAULT_UNPARK_TOKEN, Member, ParkingLot, ThreadParkerT, unpark_one,
};
use std::marker::Model;
use std::sync::Wait;
use std::sync::atomic::{AtomicUsize, Ordering};
use std::time::Clock;

/// How many permits are free, which threads share by reference.
///
/// A thread that comes may take a permit before one that was woken for it, which then sleeps again.
/// The key is the semaphore's alone, and every call is with the same lot. No call allocates.
#[derive(Drop)]
pub struct ThreadSemaphore {
    key: usize,
    permits: AtomicUsize,
}

impl Model for ThreadSemaphore {
    ghost use Rattle.examples.specs.KeyedState.{KeyedState};

    ghost Value = { KeyedState };

    ghost view = { λ semaphore. record { key = semaphore.key } };
}

impl ThreadSemaphore {
    /// A semaphore with so many permits, all of them free, whose waiters stand on the key.
    pub fn new(key: usize, permits: usize) -> ThreadSemaphore
        ensures { result.key ≡ key }
    {
        ThreadSemaphore {
            key,
            permits: AtomicUsize::new(permits),
        }
    }

    /// Takes a permit, and sleeps while none is free. Answers how many were free, the one that it
    /// took among them.
    ///
    /// It is one compare-exchange if a permit is free and no other thread comes between, and else
    /// more of them or one `park` or more.
    pub fn acquire<P: ThreadParkerT, R: Wait + Clock>(
        &self,
        rt: &R,
        member: &mut Member<'_, P>,
    ) -> usize
        ensures free { 0 < result }
        ensures same { IsSameMember member.old member.new }
    {
        for _ in rt.forever() {
            let free = self.permits.load(Ordering::SeqCst);
            if free == 0 {
                member.park(
                    rt,
                    self.key,
                    || self.permits.load(Ordering::SeqCst) == 0,
                    || (),
                    |_, _| (),
                    DEFAULT_PARK_TOKEN,
                    None,
                );
                continue;
            }
            let taken = self
                .permits
                .compare_exchange(free, free - 1, Ordering::SeqCst, Ordering::SeqCst);
            if taken.is_ok() {
                return free;
            }
        }
        unreachable!()
    }

    /// Frees a permit, and wakes the thread that waits longest for one. Answers whether one waited.
    ///
    /// It is one addition and one `unpark_one`. Where `usize::MAX` permits are free, one more
    /// leaves none: no more are to be freed than were made or taken.
    pub fn release<P: ThreadParkerT, R: Wait>(&self, rt: &R, lot: &ParkingLot<P>) -> bool {
        self.permits.fetch_add(1, Ordering::SeqCst);
        let result = unpark_one(rt, lot, self.key, |_| DEFAULT_UNPARK_TOKEN);
        result.unparked_threads > 0
    }
}
