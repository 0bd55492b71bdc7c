//! This module has the condition variable, on which threads wait with a mutex.
//!
//! # The protocol
//!
//! `sleepers` says that threads may be in the list of the key. `met` says with which mutex they
//! came, by its lot and key: with one, or with several. Both change only in critical sections of
//! the key.
//!
//! - A thread that waits notes itself in the section in which it enters the list, while it holds
//!   the mutex. It unlocks the mutex when it is in the list. When it is woken, it locks the mutex
//!   again.
//! - A notify looks at `sleepers`. If it is set, the notify takes the first thread, or all threads,
//!   off the list. In that section it clears `sleepers` if nobody is left.
//! - A notify by the holder of the mutex looks whether all threads came with that mutex. If so, it
//!   moves them to the key of the mutex and sets the `parked` of the mutex, so that its unlock
//!   wakes them. Otherwise it wakes them at once.
//! - A thread whose deadline passes after it was moved has had its notify, so it did not time out.
//!
//! No thread is forgotten. A thread that waits checks the condition, notes itself in `sleepers`,
//! and unlocks the mutex, in this order and with the mutex locked. Another thread changes the
//! condition under the mutex, before or after that. If it was before, the first thread saw the
//! change. If it was after, the notify of the other thread sees `sleepers`.

ghost use Rattle.std.specs.Prelude.{◌≡◌, false};
ghost use Rattle.std.specs.Iterator.Runs.{CallKeepsClosure};
ghost use Rattle.std.specs.Sync.Condvar.{AnsweredAt, StoppedAt};
ghost use Rattle.parking_lot.specs.Guards.{mutex_of, value_of};
ghost use Rattle.parking_lot.specs.Locks.{has_timed_out};

use crate::guard::Guard;
use crate::lot::{Lot, instant_after, is_past};
use crate::mutex::{Fairness, MutexGuardIn, MutexIn, Turn};
use lot_threads::{
    DEFAULT_PARK_TOKEN, DEFAULT_UNPARK_TOKEN, FilterOp, NoMemory, ParkResult, RequeueOp,
    UnparkResult, UnparkToken, thread_yield, unpark_chosen, unpark_one, unpark_requeue,
};
use std::fmt;
use std::fmt::{Debug, Formatter};
use std::sync::Wait;
use std::sync::atomic::{AtomicBool, AtomicUsize, Ordering};
use std::time::{Clock, Duration, Instant};

// The threads came with mutexes of several keys, or of another lot.
const SEVERAL: usize = usize::MAX;

/// A `WaitTimeoutResult` says whether a timed wait ended because its time was over.
#[derive(Clone, Copy, PartialEq, Eq, Debug)]
pub struct WaitTimeoutResult {
    pub(crate) timed_out: bool,
}

impl WaitTimeoutResult {
    /// Returns whether the time was over.
    ///
    /// After `wait_for` and `wait_until` this means that the deadline passed before a notify came.
    /// After `wait_while_for` and `wait_while_until` it means that the condition was still true.
    pub fn timed_out(self) -> bool
        ensures { result ≡ has_timed_out self }
    {
        self.timed_out
    }
}

/// A `Condvar` lets threads wait, each with a mutex, until other threads notify them.
///
/// Here a thread waits until it is its turn, and passes the turn on to the next:
///
/// ```
/// let turn = turn.lock(rt);
/// let mut turn = changed.wait_while(turn, |turn: &mut u32| *turn != own);
/// *turn = turn.wrapping_add(1);
/// changed.notify_all_held(&turn);
/// ```
///
/// A wait may end without a notify. So call it in a loop that checks the condition, or call
/// `wait_while`.
///
/// Threads may wait on one condition variable with several mutexes, and some of those may be fair.
/// Each thread waits in the lot of the condition variable, so create both with the same lot: with
/// two lots the notifies still work, but always wake at once. A `TitledCondvar` is for threads with
/// a `TitledMutex`.
#[derive(Drop)]
pub struct Condvar<'l> {
    lot: &'l Lot,
    key: usize,
    sleepers: AtomicBool,
    met: AtomicUsize,
}

/// How long a thread waits for a condition.
#[derive(Clone, Copy)]
pub(crate) enum Patience {
    Endless,
    Until(Instant),
    Over,
}

impl Patience {
    /// How long a wait for the duration is to last.
    pub(crate) fn of<R: Clock>(rt: &R, duration: Duration) -> Patience {
        match instant_after(rt, duration) {
            Ok(Some(deadline)) => Patience::Until(deadline),
            Ok(None) => Patience::Endless,
            Err(_) => Patience::Over,
        }
    }

    pub(crate) fn is_over<R: Clock>(self, rt: &R) -> bool
        ensures { self ≡ Patience.Endless → result ≡ false }
    {
        match self {
            Patience::Endless => false,
            Patience::Until(deadline) => is_past(rt, Some(deadline)),
            Patience::Over => true,
        }
    }

    pub(crate) fn deadline(self) -> Option<Instant> {
        match self {
            Patience::Until(deadline) => Some(deadline),
            Patience::Endless | Patience::Over => None,
        }
    }
}

// How a thread left the list of a condition variable.
enum Left {
    Notified(UnparkToken),
    TimedOut,
    // It never stood there.
    LotIsFull,
}

impl<'l> Condvar<'l> {
    /// Creates a condition variable on which nobody waits.
    ///
    /// # Errors
    ///
    /// Returns `NoMemory` if there is not enough memory. This version allocates nothing.
    pub fn new(lot: &'l Lot) -> Result<Condvar<'l>, NoMemory> {
        Ok(Condvar {
            lot,
            key: lot.key(),
            sleepers: AtomicBool::new(false),
            met: AtomicUsize::new(SEVERAL),
        })
    }

    /// Unlocks the mutex of the guard, waits for a notify, and locks the mutex again.
    ///
    /// It may return without a notify. It does so if the lot is full; then the mutex was unlocked
    /// for a moment.
    pub fn wait<'a, 'r, 'm, T, R: Wait + Clock, F: Fairness>(
        &self,
        guard: MutexGuardIn<'a, 'r, 'm, T, R, F>,
    ) -> MutexGuardIn<'a, 'r, 'm, T, R, F>
        ensures { mutex_of result ≡ mutex_of guard.entry }
    {
        self.wait_at_most(guard, None).0
    }

    /// Waits as `wait` does, but no longer than for the duration.
    ///
    /// If the clock cannot be read, it returns at once with the mutex still locked, and the result
    /// says that the time was over.
    pub fn wait_for<'a, 'r, 'm, T, R: Wait + Clock, F: Fairness>(
        &self,
        guard: MutexGuardIn<'a, 'r, 'm, T, R, F>,
        duration: Duration,
    ) -> (MutexGuardIn<'a, 'r, 'm, T, R, F>, WaitTimeoutResult)
        ensures { mutex_of result.0 ≡ mutex_of guard.entry }
    {
        match instant_after(guard.lock().rt, duration) {
            Ok(deadline) => self.wait_at_most(guard, deadline),
            Err(_) => (guard, WaitTimeoutResult { timed_out: true }),
        }
    }

    /// Waits as `wait` does, but no longer than until the deadline.
    ///
    /// The result says whether the deadline passed before a notify came. If the lot is full, it
    /// returns early, after the mutex was unlocked for a moment, and the result says that the time
    /// was not over.
    pub fn wait_until<'a, 'r, 'm, T, R: Wait + Clock, F: Fairness>(
        &self,
        guard: MutexGuardIn<'a, 'r, 'm, T, R, F>,
        deadline: Instant,
    ) -> (MutexGuardIn<'a, 'r, 'm, T, R, F>, WaitTimeoutResult)
        ensures { mutex_of result.0 ≡ mutex_of guard.entry }
    {
        self.wait_at_most(guard, Some(deadline))
    }

    /// Waits while the condition returns true.
    ///
    /// The condition is called with the mutex locked: once before any wait, and again after each.
    /// When `wait_while` returns, the condition has returned false for the value in the guard.
    pub fn wait_while<'a, 'r, 'm, T, R: Wait + Clock, F: Fairness, C: FnMut(&mut T) -> bool>(
        &self,
        guard: MutexGuardIn<'a, 'r, 'm, T, R, F>,
        condition: C,
    ) -> MutexGuardIn<'a, 'r, 'm, T, R, F>
        requires { C.IsAlwaysCallable condition }
        ensures mutex { mutex_of result ≡ mutex_of guard.entry }
        ensures answered { StoppedAt C.step (CallKeepsClosure C.FnMut condition) condition
            (value_of result) }
    {
        self.wait_while_at_most(guard, condition, Patience::Endless)
            .0
    }

    /// Waits as `wait_while` does, but no longer than for the duration.
    ///
    /// The result says that the time was over if the condition was still true at its last call.
    /// Otherwise the condition has returned false for the value in the guard.
    pub fn wait_while_for<'a, 'r, 'm, T, R: Wait + Clock, F: Fairness, C: FnMut(&mut T) -> bool>(
        &self,
        guard: MutexGuardIn<'a, 'r, 'm, T, R, F>,
        condition: C,
        duration: Duration,
    ) -> (MutexGuardIn<'a, 'r, 'm, T, R, F>, WaitTimeoutResult)
        requires { C.IsAlwaysCallable condition }
        ensures mutex { mutex_of result.0 ≡ mutex_of guard.entry }
        ensures answered { AnsweredAt C.step (CallKeepsClosure C.FnMut condition) condition
            (has_timed_out result.1) (value_of result.0) }
    {
        let patience = Patience::of(guard.lock().rt, duration);
        self.wait_while_at_most(guard, condition, patience)
    }

    /// Waits as `wait_while` does, but no longer than until the deadline.
    ///
    /// The result says that the time was over if the condition was still true at its last call.
    /// Otherwise the condition has returned false for the value in the guard.
    pub fn wait_while_until<'a, 'r, 'm, T, R: Wait + Clock, F: Fairness, C: FnMut(&mut T) -> bool>(
        &self,
        guard: MutexGuardIn<'a, 'r, 'm, T, R, F>,
        condition: C,
        deadline: Instant,
    ) -> (MutexGuardIn<'a, 'r, 'm, T, R, F>, WaitTimeoutResult)
        requires { C.IsAlwaysCallable condition }
        ensures mutex { mutex_of result.0 ≡ mutex_of guard.entry }
        ensures answered { AnsweredAt C.step (CallKeepsClosure C.FnMut condition) condition
            (has_timed_out result.1) (value_of result.0) }
    {
        self.wait_while_at_most(guard, condition, Patience::Until(deadline))
    }

    /// Wakes the thread that has waited longest, and returns whether there was one.
    ///
    /// If you hold the mutex, call `notify_one_held` instead: a thread that this call wakes would
    /// at once wait again, for the mutex.
    pub fn notify_one<R: Wait>(&self, rt: &R) -> bool {
        if !self.sleepers.load(Ordering::SeqCst) {
            return false;
        }
        let found = unpark_one(rt, self.lot.queues(), self.key, |found| {
            self.note_left(found);
            DEFAULT_UNPARK_TOKEN
        });
        found.unparked_threads != 0
    }

    /// Wakes all threads that wait, and returns how many there were.
    ///
    /// If you hold the mutex, call `notify_all_held` instead: threads that this call wakes would at
    /// once wait again, for the mutex.
    pub fn notify_all<R: Wait>(&self, rt: &R) -> usize {
        if !self.sleepers.load(Ordering::SeqCst) {
            return 0;
        }
        let found = unpark_chosen(
            rt,
            self.lot.queues(),
            self.key,
            |_| FilterOp::Unpark,
            |found| {
                self.note_left(found);
                DEFAULT_UNPARK_TOKEN
            },
        );
        found.unparked_threads
    }

    /// Notifies the thread that has waited longest, and returns whether there was one.
    ///
    /// If all threads that wait came with the mutex of the guard, the thread is moved to the queue
    /// of the mutex, and wakes when the mutex is unlocked. Otherwise it wakes at once.
    pub fn notify_one_held<T, R: Wait, F: Fairness>(
        &self,
        guard: &MutexGuardIn<'_, '_, '_, T, R, F>,
    ) -> bool {
        if !self.sleepers.load(Ordering::SeqCst) {
            return false;
        }
        let mutex = guard.lock().mutex;
        let found = self.requeue(guard.lock().rt, mutex, || {
            if self.is_met(mutex) {
                RequeueOp::RequeueOne
            } else {
                RequeueOp::UnparkOne
            }
        });
        found.unparked_threads != 0 || found.requeued_threads != 0
    }

    /// Notifies all threads that wait, and returns how many there were.
    ///
    /// If all of them came with the mutex of the guard, they are moved to the queue of the mutex,
    /// and wake one after another as the mutex is unlocked. Otherwise they wake at once.
    pub fn notify_all_held<T, R: Wait, F: Fairness>(
        &self,
        guard: &MutexGuardIn<'_, '_, '_, T, R, F>,
    ) -> usize {
        if !self.sleepers.load(Ordering::SeqCst) {
            return 0;
        }
        let mutex = guard.lock().mutex;
        let found = self.requeue(guard.lock().rt, mutex, || {
            if self.is_met(mutex) {
                RequeueOp::RequeueAll
            } else {
                RequeueOp::Abort
            }
        });
        if found.requeued_threads == 0 {
            self.notify_all(guard.lock().rt)
        } else {
            found.requeued_threads
        }
    }

    fn wait_while_at_most<'a, 'r, 'm, T, R: Wait + Clock, F: Fairness, C: FnMut(&mut T) -> bool>(
        &self,
        first: MutexGuardIn<'a, 'r, 'm, T, R, F>,
        condition: C,
        patience: Patience,
    ) -> (MutexGuardIn<'a, 'r, 'm, T, R, F>, WaitTimeoutResult)
        requires { C.IsAlwaysCallable condition }
        ensures mutex { mutex_of result.0 ≡ mutex_of first.entry }
        ensures answered { AnsweredAt C.step (CallKeepsClosure C.FnMut condition) condition
            (has_timed_out result.1) (value_of result.0) }
        ensures endless { patience ≡ Patience.Endless → has_timed_out result.1 ≡ false }
    {
        let rt = first.lock().rt;
        let mut guard = first;
        let mut condition = condition;
        for _ in rt.forever() {
            let (mut held, lock) = guard.into_parts();
            let timed_out = condition(&mut *held);
            guard = Guard::new(held, lock);
            if !timed_out || patience.is_over(rt) {
                return (guard, WaitTimeoutResult { timed_out });
            }
            guard = self.wait_at_most(guard, patience.deadline()).0;
        }
        unreachable!()
    }

    fn wait_at_most<'a, 'r, 'm, T, R: Wait + Clock, F: Fairness>(
        &self,
        guard: MutexGuardIn<'a, 'r, 'm, T, R, F>,
        deadline: Option<Instant>,
    ) -> (MutexGuardIn<'a, 'r, 'm, T, R, F>, WaitTimeoutResult)
        ensures { mutex_of result.0 ≡ mutex_of guard.entry }
    {
        let mutex = guard.lock().mutex;
        let rt = guard.lock().rt;
        self.lot.number_both(rt, mutex.lot());
        let left = self.sleep(rt, self.key_of(mutex), || drop(guard), deadline);
        let (turn, timed_out) = match left {
            Left::Notified(token) => (Turn::of(token), false),
            Left::TimedOut => (Turn::Comes, true),
            Left::LotIsFull => (Turn::Comes, false),
        };
        let held = mutex.wait(rt, turn);
        (mutex.guard(rt, held), WaitTimeoutResult { timed_out })
    }

    // Sleeps, once it has unlocked the mutex of this key. It does so when it stands in the list.
    fn sleep<R: Wait + Clock, U: FnOnce()>(
        &self,
        rt: &R,
        comes_with: usize,
        unlock: U,
        deadline: Option<Instant>,
    ) -> Left
        requires { U.pre unlock }
    {
        let mut stood_on = self.key;
        let parked = self.lot.park(
            rt,
            self.key,
            || {
                self.note_sleeper(comes_with);
                true
            },
            unlock,
            |key, is_last| {
                stood_on = key;
                if key == self.key && is_last {
                    self.sleepers.store(false, Ordering::SeqCst);
                }
            },
            DEFAULT_PARK_TOKEN,
            deadline,
        );
        match parked {
            Some(ParkResult::Unparked(token)) => Left::Notified(token),
            Some(ParkResult::TimedOut) if stood_on == self.key => Left::TimedOut,
            Some(_) => Left::Notified(DEFAULT_UNPARK_TOKEN),
            None => {
                thread_yield();
                Left::LotIsFull
            }
        }
    }

    // Unparks or moves threads to the mutex, as chosen in the section.
    fn requeue<T, R: Wait, F: Fairness, V: FnOnce() -> RequeueOp>(
        &self,
        rt: &R,
        mutex: &MutexIn<'_, T, F>,
        validate: V,
    ) -> UnparkResult
        requires { V.IsAlwaysCallable validate }
    {
        unpark_requeue(
            rt,
            self.lot.queues(),
            self.key,
            mutex.key(),
            validate,
            |_, found| {
                self.note_left(found);
                if found.requeued_threads != 0 {
                    mutex.note_parked();
                }
                DEFAULT_UNPARK_TOKEN
            },
        )
    }

    // The key of the mutex, if its threads wait in the same lot.
    fn key_of<T, F: Fairness>(&self, mutex: &MutexIn<'_, T, F>) -> usize {
        if mutex.lot().is_same(self.lot) {
            mutex.key()
        } else {
            SEVERAL
        }
    }

    // Says in a section that a thread comes to the list with the mutex of this key.
    fn note_sleeper(&self, comes_with: usize) {
        if !self.sleepers.swap(true, Ordering::SeqCst) {
            self.met.store(comes_with, Ordering::SeqCst);
        } else if self.met.load(Ordering::SeqCst) != comes_with {
            self.met.store(SEVERAL, Ordering::SeqCst);
        }
    }

    // Whether all threads in the list came with this mutex.
    fn is_met<T, F: Fairness>(&self, mutex: &MutexIn<'_, T, F>) -> bool {
        mutex.lot().is_same(self.lot) && self.met.load(Ordering::SeqCst) == mutex.key()
    }

    // Says in a section that nobody is left in the list, if that is so.
    fn note_left(&self, found: UnparkResult) {
        if !found.have_more_threads {
            self.sleepers.store(false, Ordering::SeqCst);
        }
    }
}

impl Debug for Condvar<'_> {
    fn fmt<W: fmt::Write>(&self, f: &mut Formatter<W>) -> fmt::Result {
        f.debug_struct("Condvar").finish_non_exhaustive()
    }
}
