//! A condition variable for the fair mutex, as generic in the parker as that.

ghost use Rattle.std.specs.Prelude.{◌≡◌, ◌≢◌};
ghost use Rattle.lot_threads.specs.Members.{IsDataOf, Stays, member_of};

use crate::threads::fair_mutex::FairMutex;
use lot_threads::{
    DEFAULT_PARK_TOKEN, DEFAULT_UNPARK_TOKEN, ParkingLot, RequeueOp, ThreadData, ThreadParkerT,
    UnparkResult, park, unpark_requeue,
};
use std::marker::Model;
use std::sync::Wait;
use std::time::Clock;

/// A condition variable for a fair mutex, which threads share by reference.
///
/// A notify moves those who sleep here behind the threads that wait for the mutex, in the order in
/// which they came, without waking them; only where nobody holds the mutex is the first woken, and
/// has it. So whoever is notified keeps its place before all who come later, and wakes with the
/// mutex. No wait ends without a notify (read in the code), but what the thread waits for may have
/// changed meanwhile: it looks again. Nothing is promised of ever being notified or served.
///
/// Every call is with the same mutex and the same lot, and the key is the condition variable's
/// alone. No call allocates.
#[derive(Drop)]
pub struct FairCondvar {
    key: usize,
}

impl Model for FairCondvar {
    ghost use Rattle.parklot.specs.FairLockState.{LockState};

    ghost Value = { LockState };

    ghost view = { λ condvar. record { key = condvar.key } };
}

impl FairCondvar {
    /// A condition variable on which nobody sleeps, whose sleepers stand on the key.
    pub fn new(key: usize) -> FairCondvar
        ensures { result.key ≡ key }
    {
        FairCondvar { key }
    }

    /// The key on which its sleepers stand.
    pub fn key(&self) -> usize
        ensures { result ≡ self.now.key }
    {
        self.key
    }

    /// Sleeps until a notify has moved the thread to the mutex and that was handed over. Only the
    /// mutex's holder may call it, and holds the mutex again afterwards. The data is that of a
    /// thread of the lot.
    ///
    /// The thread stands on the key before it unlocks the mutex, so no notify of a later holder
    /// misses it. It is one `park`, which calls `FairMutex::unlock` before it sleeps.
    pub fn wait<P: ThreadParkerT, R: Wait + Clock>(
        &self,
        rt: &R,
        mutex: &FairMutex,
        lot: &ParkingLot<P>,
        thread_data: &mut ThreadData,
    )
        requires keys { self.now.key ≢ mutex.now.key }
        requires own { IsDataOf lot.now thread_data.old }

        ensures stays { Stays (member_of lot.now thread_data.old)
            (member_of lot.now thread_data.new) }
    {
        park(
            rt,
            lot,
            thread_data,
            self.key,
            || true,
            || mutex.unlock(rt, lot),
            |_, _| (),
            DEFAULT_PARK_TOKEN,
            None,
        );
    }

    /// Moves all threads that sleep behind those who wait for the mutex, in order; if nobody holds
    /// the mutex, the first is handed it. Answers what it did.
    ///
    /// It is one `unpark_requeue`, which wakes at most one thread.
    pub fn notify_all<P: ThreadParkerT, R: Wait>(
        &self,
        rt: &R,
        mutex: &FairMutex,
        lot: &ParkingLot<P>,
    ) -> UnparkResult
        requires { self.now.key ≢ mutex.now.key }
    {
        unpark_requeue(
            rt,
            lot,
            self.key,
            mutex.key(),
            || {
                if mutex.is_held() {
                    RequeueOp::RequeueAll
                } else {
                    RequeueOp::UnparkOneRequeueRest
                }
            },
            |_, unpark| {
                if unpark.unparked_threads > 0 {
                    mutex.hand_over();
                }
                DEFAULT_UNPARK_TOKEN
            },
        )
    }
}
