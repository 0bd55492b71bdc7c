//! A fair mutex for threads: an example of a lock on a parking lot that is generic in the parker.
//!
//! For use there is `parking_lot::FairMutex`, which has a value, and guards that unlock it.

ghost use Rattle.std.specs.Prelude.{◌≡◌};
ghost use Rattle.lot_threads.specs.Members.{IsDataOf, Stays, member_of};

use lot_threads::{
    DEFAULT_PARK_TOKEN, DEFAULT_UNPARK_TOKEN, ParkingLot, ThreadData, ThreadParkerT, park,
    unpark_one,
};
use std::marker::Model;
use std::sync::Wait;
use std::sync::atomic::{AtomicBool, Ordering};
use std::time::Clock;

/// A mutex that is handed over, which threads share by reference.
///
/// Who unlocks it hands it to the thread that has waited longest, so it goes to threads in the
/// order in which they came to wait, and nobody who comes meanwhile gets it first. That has its
/// price: where threads wait, each hand-over is a wake-up, and the mutex stands idle until the
/// woken thread runs. A lock that lets a running thread barge in serves more calls a second, and
/// may let one wait long. Nothing is promised of ever being served: a holder that does not unlock
/// keeps all others waiting.
///
/// The key is the mutex's alone, and every call is with the same lot. No call allocates. That it
/// excludes is shown by tests: no contract tells what threads do to an atomic.
#[derive(Drop)]
pub struct FairMutex {
    key: usize,

    // Whether a thread holds the mutex. It changes in sections of the key alone.
    is_locked: AtomicBool,
}

impl Model for FairMutex {
    ghost use Rattle.parklot.specs.FairLockState.{LockState};

    ghost Value = { LockState };

    ghost view = { λ mutex. record { key = mutex.key } };
}

impl FairMutex {
    /// A mutex that nobody holds, whose waiters stand on the key.
    pub fn new(key: usize) -> FairMutex
        ensures { result.key ≡ key }
    {
        FairMutex {
            key,
            is_locked: AtomicBool::new(false),
        }
    }

    /// The key on which its waiters stand.
    pub fn key(&self) -> usize
        ensures { result ≡ self.now.key }
    {
        self.key
    }

    /// Locks the mutex if nobody holds it, and else sleeps until it is handed over. The data is
    /// that of a thread of the lot.
    ///
    /// It is one `park`, so it takes the lock of the key's bucket, also where nobody holds the
    /// mutex. A thread that holds it already sleeps for ever.
    pub fn lock<P: ThreadParkerT, R: Wait + Clock>(
        &self,
        rt: &R,
        lot: &ParkingLot<P>,
        thread_data: &mut ThreadData,
    )
        requires own { IsDataOf lot.now thread_data.old }

        ensures stays { Stays (member_of lot.now thread_data.old)
            (member_of lot.now thread_data.new) }
    {
        // It answers `Invalid` if the mutex was free, and else once the mutex was handed over.
        park(
            rt,
            lot,
            thread_data,
            self.key,
            || self.is_locked.swap(true, Ordering::SeqCst),
            || (),
            |_, _| (),
            DEFAULT_PARK_TOKEN,
            None,
        );
    }

    /// Hands the mutex to the thread that waits longest, or unlocks it if none waits. Only its
    /// holder may call it, though any call is safe.
    ///
    /// It is one `unpark_one`, and wakes the thread that has the mutex now.
    pub fn unlock<P: ThreadParkerT, R: Wait>(&self, rt: &R, lot: &ParkingLot<P>) {
        unpark_one(rt, lot, self.key, |unpark| {
            if unpark.unparked_threads == 0 {
                self.is_locked.store(false, Ordering::SeqCst);
            }
            DEFAULT_UNPARK_TOKEN
        });
    }

    // Whether a thread holds the mutex: asked in a section of the key.
    pub(super) fn is_held(&self) -> bool {
        self.is_locked.load(Ordering::SeqCst)
    }

    // Notes that a thread holds the mutex, in a section of the key.
    pub(super) fn hand_over(&self) {
        self.is_locked.store(true, Ordering::SeqCst);
    }
}
