//! This module has a mutex that its owner may lock again while it holds it.
//!
//! # The protocol
//!
//! `owner` is the number of the owner that has the mutex, or `NOBODY`. `depth` counts the guards of
//! that owner; only the owner's thread reads and writes it. `queue` has the threads that wait.
//!
//! - A thread that locks and finds its own number in `owner` adds 1 to `depth`. Otherwise it
//!   changes `owner` from `NOBODY` to its number, and sets `depth` to 1.
//! - A thread that can do neither waits in the queue until it can.
//! - A thread that drops a guard takes 1 from `depth`. At its last guard it sets `owner` to
//!   `NOBODY` and **then** wakes the first thread of the queue.
//!
//! No thread is forgotten. A thread stays in the queue only if its try found another owner. That
//! owner unlocks later and wakes the first thread, which takes the mutex, or finds an owner that
//! unlocks later. All accesses are `SeqCst`.
//!
//! Only the thread of an owner finds the owner's number in `owner`. An owner cannot be shared
//! between threads, and a guard borrows it, so it stays with its thread while it has the mutex.

ghost use Rattle.std.specs.Prelude.{◌≡◌, None, true, IfOk, IfSome};
ghost use Rattle.parking_lot.specs.Guards.{held_by, reentrant_mutex_of};
ghost use Rattle.parking_lot.specs.Locks.{lot_of, lot_of_owner, value_in};

use crate::guard::{Guard, Release};
use crate::lot::{Lot, instant_after};
use crate::wait_queue::WaitQueue;
use lot_threads::{DEFAULT_PARK_TOKEN, NoMemory};
use std::cell::Cell;
use std::fmt;
use std::fmt::{Debug, Formatter};
use std::sync::Wait;
use std::sync::atomic::{AtomicUsize, Ordering};
use std::time::{Clock, Duration, Instant};

// The number that no owner has.
const NOBODY: usize = 0;

/// An `Owner` stands for one thread that locks reentrant mutexes.
///
/// `Lot::owner` and `ReentrantMutex::owner` create one. It serves for all reentrant mutexes of its
/// lot. It may be moved to another thread while it has no mutex locked, and it cannot be shared
/// between threads. So all guards of one owner are on one thread.
#[derive(Drop)]
pub struct Owner<'l> {
    lot: &'l Lot,
    number: usize,
    _on_one_thread: Cell<()>,
}

impl<'l> Owner<'l> {
    pub(crate) fn new(lot: &'l Lot, number: usize) -> Owner<'l>
        ensures { lot_of_owner result ≡ lot.now }
    {
        Owner {
            lot,
            number,
            _on_one_thread: Cell::new(()),
        }
    }
}

/// A `ReentrantMutex` keeps other threads away from a value, and may be locked again by the owner
/// that holds it.
///
/// Here one thread locks it twice:
///
/// ```
/// let owner = mutex.owner();
/// let first = mutex.lock(rt, &owner);
/// let second = mutex.lock(rt, &owner);
/// ```
///
/// Its guards give shared references only. What is to be changed in the value has to be in a cell
/// or a lock of its own. The mutex can be shared between threads if `T: Sync`, so those cells are
/// atomics or locks.
///
/// The contract of each call requires that the owner belongs to the lot of the mutex, because
/// owners of two lots may have the same number. If `ReentrantMutex::owner` created the owner,
/// nothing is left to prove.
#[derive(Drop)]
pub struct ReentrantMutex<'l, T> {
    queue: WaitQueue<'l>,
    owner: AtomicUsize,
    depth: AtomicUsize,
    value: T,
}

/// A `ReentrantMutexGuard` gives shared access to the value of a reentrant mutex.
///
/// The drop of an owner's last guard unlocks the mutex.
pub type ReentrantMutexGuard<'a, 'r, 'l, T, R> = Guard<&'a T, Entered<'a, 'r, 'l, T, R>>;

/// `Entered` says how a guard of a reentrant mutex is dropped.
#[derive(Drop)]
pub struct Entered<'a, 'r, 'l, T, R: Wait> {
    mutex: &'a ReentrantMutex<'l, T>,
    rt: &'r R,
    _owner: &'a Owner<'l>,
}

impl<T, R: Wait> Release<&T> for Entered<'_, '_, '_, T, R> {
    #[inline]
    fn release(self, _held: &T) {
        self.mutex.leave(self.rt);
    }
}

impl<'l, T> ReentrantMutex<'l, T> {
    /// Creates a mutex that nobody holds, around the given value.
    ///
    /// # Errors
    ///
    /// Returns `NoMemory` if there is not enough memory. This version allocates nothing.
    pub fn new(lot: &'l Lot, value: T) -> Result<ReentrantMutex<'l, T>, NoMemory>
        ensures lot { IfOk result (λ mutex. lot_of mutex ≡ lot.now) }
        ensures value { IfOk result (λ mutex. value_in mutex ≡ value) }
    {
        Ok(ReentrantMutex {
            queue: WaitQueue::new(lot),
            owner: AtomicUsize::new(NOBODY),
            depth: AtomicUsize::new(0),
            value,
        })
    }

    /// Creates an owner for the lot of this mutex, as `Lot::owner` does.
    pub fn owner(&self) -> Owner<'l>
        ensures { lot_of_owner result ≡ lot_of self.now }
    {
        self.queue.lot().owner()
    }

    /// Locks the mutex for the owner, and waits while another owner has it.
    ///
    /// If the owner already has it, this only adds a guard.
    #[inline]
    pub fn lock<'a, 'r, R: Wait + Clock>(
        &'a self,
        rt: &'r R,
        owner: &'a Owner<'l>,
    ) -> ReentrantMutexGuard<'a, 'r, 'l, T, R>
        requires same_lot { lot_of_owner owner.now ≡ lot_of self.now }
        ensures mutex { reentrant_mutex_of result ≡ self.now }
        ensures value { (held_by result).now ≡ value_in self.now }
    {
        if !self.try_enter(owner.number) {
            self.queue.wait(rt, || self.try_enter(owner.number));
        }
        self.guard(rt, owner)
    }

    /// Locks the mutex for the owner if no other owner has it; otherwise returns `None` at once.
    #[inline]
    pub fn try_lock<'a, 'r, R: Wait>(
        &'a self,
        rt: &'r R,
        owner: &'a Owner<'l>,
    ) -> Option<ReentrantMutexGuard<'a, 'r, 'l, T, R>>
        requires same_lot { lot_of_owner owner.now ≡ lot_of self.now }
        ensures mutex { IfSome result (λ guard. reentrant_mutex_of guard ≡ self.now) }
        ensures value { IfSome result (λ guard. (held_by guard).now ≡ value_in self.now) }
    {
        if self.try_enter(owner.number) {
            Some(self.guard(rt, owner))
        } else {
            None
        }
    }

    /// Locks the mutex as `lock` does, but returns `None` if it cannot do so within the duration.
    pub fn lock_for<'a, 'r, R: Wait + Clock>(
        &'a self,
        rt: &'r R,
        owner: &'a Owner<'l>,
        duration: Duration,
    ) -> Option<ReentrantMutexGuard<'a, 'r, 'l, T, R>>
        requires same_lot { lot_of_owner owner.now ≡ lot_of self.now }
        ensures mutex { IfSome result (λ guard. reentrant_mutex_of guard ≡ self.now) }
        ensures value { IfSome result (λ guard. (held_by guard).now ≡ value_in self.now) }
    {
        if self.try_enter(owner.number)
            || self.wait_until(rt, owner.number, instant_after(rt, duration).ok()?)
        {
            Some(self.guard(rt, owner))
        } else {
            None
        }
    }

    /// Locks the mutex as `lock` does, but returns `None` if it cannot do so before the deadline.
    pub fn lock_until<'a, 'r, R: Wait + Clock>(
        &'a self,
        rt: &'r R,
        owner: &'a Owner<'l>,
        deadline: Instant,
    ) -> Option<ReentrantMutexGuard<'a, 'r, 'l, T, R>>
        requires same_lot { lot_of_owner owner.now ≡ lot_of self.now }
        ensures mutex { IfSome result (λ guard. reentrant_mutex_of guard ≡ self.now) }
        ensures value { IfSome result (λ guard. (held_by guard).now ≡ value_in self.now) }
    {
        if self.try_enter(owner.number) || self.wait_until(rt, owner.number, Some(deadline)) {
            Some(self.guard(rt, owner))
        } else {
            None
        }
    }

    /// Returns whether any owner has the mutex at this moment.
    pub fn is_locked(&self) -> bool {
        self.owner.load(Ordering::SeqCst) != NOBODY
    }

    /// Returns whether this owner has the mutex.
    pub fn is_owned_by(&self, owner: &Owner<'l>) -> bool
        requires same_lot { lot_of_owner owner.now ≡ lot_of self.now }
    {
        self.owner.load(Ordering::SeqCst) == owner.number
    }

    /// Returns a mutable reference to the value.
    ///
    /// No lock is needed, because the caller borrows the whole mutex.
    pub fn get_mut(&mut self) -> &mut T {
        &mut self.value
    }

    /// Returns the value, and ends the mutex.
    pub fn into_inner(self) -> T
        ensures { result ≡ value_in self.entry }
    {
        self.value
    }

    #[inline]
    fn guard<'a, 'r, R: Wait>(
        &'a self,
        rt: &'r R,
        owner: &'a Owner<'l>,
    ) -> ReentrantMutexGuard<'a, 'r, 'l, T, R>
        ensures mutex { reentrant_mutex_of result ≡ self.now }
        ensures value { (held_by result).now ≡ value_in self.now }
    {
        Guard::new(
            &self.value,
            Entered {
                mutex: self,
                rt,
                _owner: owner,
            },
        )
    }

    #[inline]
    fn try_enter(&self, number: usize) -> bool {
        if self.owner.load(Ordering::SeqCst) == number {
            self.depth.fetch_add(1, Ordering::SeqCst);
            return true;
        }
        let took = self
            .owner
            .compare_exchange(NOBODY, number, Ordering::SeqCst, Ordering::SeqCst)
            .is_ok();
        if took {
            self.depth.store(1, Ordering::SeqCst);
        }
        took
    }

    #[inline]
    fn leave<R: Wait>(&self, rt: &R) {
        if self.depth.fetch_sub(1, Ordering::SeqCst) == 1 {
            self.owner.store(NOBODY, Ordering::SeqCst);
            self.queue.wake_one(rt);
        }
    }

    fn wait_until<R: Wait + Clock>(
        &self,
        rt: &R,
        number: usize,
        deadline: Option<Instant>,
    ) -> bool {
        let enters = || self.try_enter(number);
        self.queue
            .wait_until(rt, DEFAULT_PARK_TOKEN, enters, deadline)
    }
}

impl<T> Debug for ReentrantMutex<'_, T> {
    fn fmt<W: fmt::Write>(&self, f: &mut Formatter<W>) -> fmt::Result {
        f.debug_struct("ReentrantMutex").finish_non_exhaustive()
    }
}
