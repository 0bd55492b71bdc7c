//! This module has a condition variable for threads with a `TitledMutex`. It is proved that a
//! notify sees all threads that are in the list.
//!
//! # The protocol
//!
//! `phaser` numbers the times at which all threads were notified. The head of `phaser::titled` has
//! its protocol.
//!
//! - A thread that waits enters the list while it holds the mutex, and **then** unlocks the mutex.
//!   When it is woken, it gives its number up, which takes a section of the key if others may wait.
//!   Then it locks the mutex again.
//! - `notify_one` looks at the mark of the word. If there is one, it takes the first thread out of
//!   the list in a section of the key.
//! - `notify_all` does the same with all threads, and ends the phase.
//! - A thread whose deadline has passed leaves the list in a section of the key. If it is not there
//!   any more, it was notified, and did not time out.
//!
//! No notify is lost. A thread that changes the condition under the mutex does so before or after
//! the other has unlocked it. If it was before, the other saw the change. If it was after, the
//! other is in the list, unless somebody has notified it. By the law `phases_leave_nobody` the word
//! has the mark then, or the title is out with a thread in a section, for whose end the notify
//! waits. That a thread unlocks the mutex only when it is in the list is no law.
//!
//! A notify moves nobody to the queue of the mutex. So call it after you unlocked the mutex.

ghost use Rattle.std.specs.Prelude.{◌≡◌, false};
ghost use Rattle.std.specs.Iterator.Runs.{CallKeepsClosure};
ghost use Rattle.std.specs.Sync.Condvar.{AnsweredAt, StoppedAt};
ghost use Rattle.parking_lot.specs.Guards.{titled_mutex_of, titled_value_of};
ghost use Rattle.parking_lot.specs.Locks.{has_timed_out};

use crate::condvar::{Patience, WaitTimeoutResult};
use crate::guard::Guard;
use crate::lot::instant_after;
use crate::phaser::titled::TitledPhaser;
use crate::phaser::titled::notify::Ending;
use crate::titled_lot::TitledLot;
use crate::titled_mutex::TitledMutexGuard;
use lot_threads::NoMemory;
use std::fmt;
use std::fmt::{Debug, Formatter};
use std::sync::Wait;
use std::time::{Clock, Duration, Instant};

/// A `TitledCondvar` lets threads wait, each with a `TitledMutex`, until other threads notify them.
/// It is proved that a notify sees all threads that are in the list.
///
/// Its threads wait in a `TitledLot`, which deals each such condition variable a key. They may wait
/// with several mutexes, which may be of other lots.
///
/// A wait may end without a notify. So call it in a loop that checks the condition, or call
/// `wait_while`. A notify moves nobody to the queue of the mutex, so call it after you unlocked the
/// mutex.
#[derive(Drop)]
pub struct TitledCondvar<'l> {
    phaser: TitledPhaser<'l>,
}

impl<'l> TitledCondvar<'l> {
    /// Creates a condition variable on which nobody waits.
    ///
    /// It takes the next key of the lot, and allocates a word and a slot for the title. No other
    /// call allocates, but for the registration of a thread that waits, which may make the table of
    /// the lot larger.
    ///
    /// # Errors
    ///
    /// Returns `NoMemory` if there is not enough memory.
    pub fn new<R: Wait>(rt: &R, lot: &'l TitledLot) -> Result<TitledCondvar<'l>, NoMemory> {
        Ok(TitledCondvar {
            phaser: TitledPhaser::new(rt, lot)?,
        })
    }

    /// Wakes the thread that has waited longest, and returns whether there was one.
    ///
    /// It is one load if nobody waits, and else a critical section of the key.
    pub fn notify_one<R: Wait>(&self, rt: &R) -> bool {
        self.phaser.notify_one(rt)
    }

    /// Wakes all threads that wait, and returns how many there were.
    ///
    /// It is one load if nobody waits, and else a critical section of the key.
    pub fn notify_all<R: Wait>(&self, rt: &R) -> usize {
        self.phaser.notify_all(rt)
    }
}

impl TitledCondvar<'_> {
    /// Unlocks the mutex of the guard, waits for a notify, and locks the mutex again.
    ///
    /// It may return without a notify. It does so if the lot is full; then the mutex was unlocked
    /// for a moment.
    pub fn wait<'a, 'r, 'm, T: Drop, R: Wait + Clock>(
        &self,
        guard: TitledMutexGuard<'a, 'r, 'm, T, R>,
    ) -> TitledMutexGuard<'a, 'r, 'm, T, R>
        ensures { titled_mutex_of result ≡ titled_mutex_of guard.entry }
    {
        self.wait_at_most(guard, None).0
    }

    /// Waits as `wait` does, but no longer than for the duration.
    ///
    /// If the clock cannot be read, it returns at once with the mutex still locked, and the result
    /// says that the time was over.
    pub fn wait_for<'a, 'r, 'm, T: Drop, R: Wait + Clock>(
        &self,
        guard: TitledMutexGuard<'a, 'r, 'm, T, R>,
        duration: Duration,
    ) -> (TitledMutexGuard<'a, 'r, 'm, T, R>, WaitTimeoutResult)
        ensures { titled_mutex_of result.0 ≡ titled_mutex_of guard.entry }
    {
        match instant_after(guard.lock().rt, duration) {
            Ok(deadline) => self.wait_at_most(guard, deadline),
            Err(_) => (guard, WaitTimeoutResult { timed_out: true }),
        }
    }

    /// Waits as `wait` does, but no longer than until the deadline.
    ///
    /// The result says whether the deadline passed before a notify came. If the lot is full, it
    /// returns early, after the mutex was unlocked for a moment, and the result says that the time
    /// was not over.
    pub fn wait_until<'a, 'r, 'm, T: Drop, R: Wait + Clock>(
        &self,
        guard: TitledMutexGuard<'a, 'r, 'm, T, R>,
        deadline: Instant,
    ) -> (TitledMutexGuard<'a, 'r, 'm, T, R>, WaitTimeoutResult)
        ensures { titled_mutex_of result.0 ≡ titled_mutex_of guard.entry }
    {
        self.wait_at_most(guard, Some(deadline))
    }

    /// Waits while the condition returns true.
    ///
    /// The condition is called with the mutex locked: once before any wait, and again after each.
    /// When `wait_while` returns, the condition has returned false for the value in the guard.
    pub fn wait_while<'a, 'r, 'm, T: Drop, R: Wait + Clock, C: FnMut(&mut T) -> bool>(
        &self,
        guard: TitledMutexGuard<'a, 'r, 'm, T, R>,
        condition: C,
    ) -> TitledMutexGuard<'a, 'r, 'm, T, R>
        requires { C.IsAlwaysCallable condition }
        ensures mutex { titled_mutex_of result ≡ titled_mutex_of guard.entry }
        ensures answered { StoppedAt C.step (CallKeepsClosure C.FnMut condition) condition
            (titled_value_of result) }
    {
        self.wait_while_at_most(guard, condition, Patience::Endless)
            .0
    }

    /// Waits as `wait_while` does, but no longer than for the duration.
    ///
    /// The result says that the time was over if the condition was still true at its last call.
    /// Otherwise the condition has returned false for the value in the guard.
    pub fn wait_while_for<'a, 'r, 'm, T: Drop, R: Wait + Clock, C: FnMut(&mut T) -> bool>(
        &self,
        guard: TitledMutexGuard<'a, 'r, 'm, T, R>,
        condition: C,
        duration: Duration,
    ) -> (TitledMutexGuard<'a, 'r, 'm, T, R>, WaitTimeoutResult)
        requires { C.IsAlwaysCallable condition }
        ensures mutex { titled_mutex_of result.0 ≡ titled_mutex_of guard.entry }
        ensures answered { AnsweredAt C.step (CallKeepsClosure C.FnMut condition) condition
            (has_timed_out result.1) (titled_value_of result.0) }
    {
        let patience = Patience::of(guard.lock().rt, duration);
        self.wait_while_at_most(guard, condition, patience)
    }

    /// Waits as `wait_while` does, but no longer than until the deadline.
    ///
    /// The result says that the time was over if the condition was still true at its last call.
    /// Otherwise the condition has returned false for the value in the guard.
    pub fn wait_while_until<'a, 'r, 'm, T: Drop, R: Wait + Clock, C: FnMut(&mut T) -> bool>(
        &self,
        guard: TitledMutexGuard<'a, 'r, 'm, T, R>,
        condition: C,
        deadline: Instant,
    ) -> (TitledMutexGuard<'a, 'r, 'm, T, R>, WaitTimeoutResult)
        requires { C.IsAlwaysCallable condition }
        ensures mutex { titled_mutex_of result.0 ≡ titled_mutex_of guard.entry }
        ensures answered { AnsweredAt C.step (CallKeepsClosure C.FnMut condition) condition
            (has_timed_out result.1) (titled_value_of result.0) }
    {
        self.wait_while_at_most(guard, condition, Patience::Until(deadline))
    }

    fn wait_while_at_most<'a, 'r, 'm, T: Drop, R: Wait + Clock, C: FnMut(&mut T) -> bool>(
        &self,
        first: TitledMutexGuard<'a, 'r, 'm, T, R>,
        condition: C,
        patience: Patience,
    ) -> (TitledMutexGuard<'a, 'r, 'm, T, R>, WaitTimeoutResult)
        requires { C.IsAlwaysCallable condition }
        ensures mutex { titled_mutex_of result.0 ≡ titled_mutex_of first.entry }
        ensures answered { AnsweredAt C.step (CallKeepsClosure C.FnMut condition) condition
            (has_timed_out result.1) (titled_value_of result.0) }
        ensures endless { patience ≡ Patience.Endless → has_timed_out result.1 ≡ false }
    {
        let rt = first.lock().rt;
        let mut guard = first;
        let mut condition = condition;
        for _ in rt.forever() {
            let (mut held, lock) = guard.into_parts();
            let timed_out = condition(&mut *held);
            guard = Guard::new(held, lock);
            if !timed_out || patience.is_over(rt) {
                return (guard, WaitTimeoutResult { timed_out });
            }
            guard = self.wait_at_most(guard, patience.deadline()).0;
        }
        unreachable!()
    }

    // Whoever was woken locks the mutex as one that comes.
    fn wait_at_most<'a, 'r, 'm, T: Drop, R: Wait + Clock>(
        &self,
        guard: TitledMutexGuard<'a, 'r, 'm, T, R>,
        deadline: Option<Instant>,
    ) -> (TitledMutexGuard<'a, 'r, 'm, T, R>, WaitTimeoutResult)
        ensures { titled_mutex_of result.0 ≡ titled_mutex_of guard.entry }
    {
        let mutex = guard.lock().mutex;
        let rt = guard.lock().rt;
        let timed_out = match self.phaser.wait_once(rt, || drop(guard), deadline) {
            Ending::TimedOut => true,
            Ending::Notified => false,
        };
        (mutex.lock(rt), WaitTimeoutResult { timed_out })
    }
}

impl Debug for TitledCondvar<'_> {
    fn fmt<W: fmt::Write>(&self, f: &mut Formatter<W>) -> fmt::Result {
        f.debug_struct("TitledCondvar").finish_non_exhaustive()
    }
}
