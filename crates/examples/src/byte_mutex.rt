//! A mutex whose state is one byte, for threads who wait on a key of a threaded lot.

ghost use Rattle.std.specs.Prelude.{◌≡◌, ◌↔◌, IfSome, IsTrue, IsFalse};
ghost use Rattle.examples.specs.SameMember.{IsSameMember};

use lot_threads::{
    DEFAULT_PARK_TOKEN, DEFAULT_UNPARK_TOKEN, Member, ParkingLot, ThreadParkerT, UnparkResult,
    unpark_one,
};
use std::marker::Model;
use std::sync::Wait;
use std::sync::atomic::{AtomicU8, Ordering};
use std::time::Clock;

// Nobody holds the mutex, and none waits for it.
const UNLOCKED: u8 = 0;

// A thread holds the mutex, and none waits for it.
const LOCKED: u8 = 1;

// A thread holds the mutex, and others may wait for it. A thread enters the queue of the key only
// while the byte tells this, and only the holder changes it, in a section of the key.
const LOCKED_WITH_WAITERS: u8 = 2;

/// A mutex, which threads share by reference.
///
/// A waiter is handed the mutex by the thread that unlocks it, in the order in which they came. The
/// key is the mutex's alone, and every call is with the same lot. No call allocates.
#[derive(Drop)]
pub struct ByteMutex {
    key: usize,
    state: AtomicU8,
}

impl Model for ByteMutex {
    ghost use Rattle.examples.specs.KeyedState.{KeyedState};

    ghost Value = { KeyedState };

    ghost view = { λ mutex. record { key = mutex.key } };
}

/// That whoever has it holds the mutex of a key. It can be neither copied nor dropped: `unlock`
/// takes it.
pub struct Held {
    key: usize,
}

impl Model for Held {
    ghost use Rattle.examples.specs.KeyedState.{KeyedState};

    ghost Value = { KeyedState };

    ghost view = { λ held. record { key = held.key } };
}

impl ByteMutex {
    /// A mutex that nobody holds, whose waiters stand on the key.
    pub fn new(key: usize) -> ByteMutex
        ensures { result.key ≡ key }
    {
        ByteMutex {
            key,
            state: AtomicU8::new(UNLOCKED),
        }
    }

    /// Locks the mutex if nobody holds it.
    pub fn try_lock(&self) -> Option<Held>
        ensures { IfSome result (λ held. held.key ≡ self.now.key) }
    {
        if self.exchange(UNLOCKED, LOCKED) {
            Some(Held { key: self.key })
        } else {
            None
        }
    }

    /// Locks the mutex, and sleeps while another thread holds it.
    ///
    /// It is one compare-exchange if nobody holds the mutex, and else one `park` or more.
    pub fn lock<P: ThreadParkerT, R: Wait + Clock>(
        &self,
        rt: &R,
        member: &mut Member<'_, P>,
    ) -> Held
        ensures held { result.key ≡ self.now.key }
        ensures same { IsSameMember member.old member.new }
    {
        for _ in rt.forever() {
            if let Some(held) = self.try_lock() {
                return held;
            }

            // Mark the byte: only then does whoever unlocks look for waiters.
            self.exchange(LOCKED, LOCKED_WITH_WAITERS);
            let result = member.park(
                rt,
                self.key,
                || self.state.load(Ordering::SeqCst) == LOCKED_WITH_WAITERS,
                || (),
                |_, _| (),
                DEFAULT_PARK_TOKEN,
                None,
            );
            if result.is_unparked() {
                return Held { key: self.key };
            }
        }
        unreachable!()
    }

    /// Hands the mutex to the thread that waits longest, or unlocks it if none waits. Answers
    /// whether a waiter has it.
    ///
    /// It is one compare-exchange if no thread came to wait, and else one `unpark_one`.
    pub fn unlock<P: ThreadParkerT, R: Wait>(&self, rt: &R, lot: &ParkingLot<P>, held: Held) -> bool
        requires { held.key ≡ self.now.key }
    {
        let Held { key } = held;
        if self.exchange(LOCKED, UNLOCKED) {
            return false;
        }
        let result = unpark_one(rt, lot, key, |unpark| {
            self.state.store(state_after(unpark), Ordering::SeqCst);
            DEFAULT_UNPARK_TOKEN
        });
        result.unparked_threads > 0
    }

    // Changes the byte from one state to another, and tells whether it was in the one.
    fn exchange(&self, from: u8, to: u8) -> bool {
        self.state
            .compare_exchange(from, to, Ordering::SeqCst, Ordering::SeqCst)
            .is_ok()
    }
}

// What the byte tells after the holder's unpark, which handed the mutex to a waiter if there was
// one.
fn state_after(unpark: UnparkResult) -> u8
    ensures waiters { (result ≡ LOCKED_WITH_WAITERS) ↔ IsTrue unpark.have_more_threads }
    ensures unlocked { (result ≡ UNLOCKED)
        ↔ ((unpark.unparked_threads ≡ 0) × IsFalse unpark.have_more_threads) }
{
    if unpark.have_more_threads {
        LOCKED_WITH_WAITERS
    } else if unpark.unparked_threads > 0 {
        LOCKED
    } else {
        UNLOCKED
    }
}
