//! This module has `OnceLock`, a cell whose value is set once.
//!
//! # The protocol
//!
//! `value` is std's cell, which can be set once. `state` says whether a thread is about to set it:
//! `IDLE`, `RUNNING` or `DONE`. `queue` has the threads that wait.
//!
//! - A thread that finds no value changes `state` from `IDLE` to `RUNNING`, which gives it the
//!   right to set one.
//! - If it has a value, it sets the cell, changes `state` to `DONE`, and **then** wakes the queue.
//!   If it has none, because its closure failed, it changes `state` back to `IDLE`, and **then**
//!   wakes the queue.
//! - A thread that finds `RUNNING` waits in the queue while `state` is that. A thread that has no
//!   value of its own waits there until there is a value.
//!
//! No thread is forgotten. A thread stays in the queue only if it found that what it waits for had
//! not happened. The thread that does it wakes all threads after that. All accesses are `SeqCst`.
//!
//! The calls of std's cell that may wait do not wait here: the thread with the right is the only
//! one that uses them, or the value is there.

use crate::lot::Lot;
use crate::wait_queue::WaitQueue;
use lot_threads::NoMemory;
use std::fmt::{Debug, Formatter};
use std::sync::Wait;
use std::sync::atomic::{AtomicUsize, Ordering};
use std::time::Clock;
use std::{fmt, sync};

// Nobody is about to set the value.
const IDLE: usize = 0;
// A thread has the right to set it.
const RUNNING: usize = 1;
// It is set.
const DONE: usize = 2;

/// A `OnceLock` is a cell that is set once, and that any thread then reads at the cost of one load.
///
/// ```
/// let value = *cell.get_or_init(rt, || compute(runs, number));
/// ```
#[derive(Drop)]
pub struct OnceLock<'l, T> {
    queue: WaitQueue<'l>,
    state: AtomicUsize,
    value: sync::OnceLock<T>,
}

impl<'l, T> OnceLock<'l, T> {
    /// Creates a cell without a value.
    ///
    /// # Errors
    ///
    /// Returns `NoMemory` if there is not enough memory. This version allocates nothing.
    pub fn new(lot: &'l Lot) -> Result<OnceLock<'l, T>, NoMemory> {
        Ok(OnceLock {
            queue: WaitQueue::new(lot),
            state: AtomicUsize::new(IDLE),
            value: sync::OnceLock::new(),
        })
    }

    /// Returns the value if it is set, and otherwise `None`. It does not wait.
    #[inline]
    pub fn get(&self) -> Option<&T> {
        self.value.get()
    }

    /// Returns a mutable reference to the value if it is set, and otherwise `None`.
    ///
    /// No lock is needed, because the caller borrows the whole cell.
    pub fn get_mut(&mut self) -> Option<&mut T> {
        self.value.get_mut()
    }

    /// Sets the value; if another thread is computing one, it first waits for that.
    ///
    /// # Errors
    ///
    /// Returns the value that was passed in if the cell already has one.
    pub fn set<R: Wait + Clock>(&self, rt: &R, value: T) -> Result<(), T> {
        if self.begin(rt).is_some() {
            return Err(value);
        }
        let outcome = match self.value.set(rt, value) {
            Ok(_token) => Ok(()),
            Err(value) => Err(value),
        };
        self.end(rt, DONE);
        outcome
    }

    /// Returns the value, and computes it by the closure if none is set.
    ///
    /// It waits while another thread computes a value, so only one closure runs at a time.
    ///
    /// A closure that sets this cell, or asks it for its value in a way that waits, waits for ever.
    #[inline]
    pub fn get_or_init<R: Wait + Clock, F: FnOnce() -> T + Drop>(&self, rt: &R, f: F) -> &T
    where
        T: Drop,
        requires { F.pre f }
    {
        if let Some(value) = self.get() {
            return value;
        }
        match self.begin(rt) {
            Some(value) => value,
            None => self.finish(rt, f()),
        }
    }

    /// Returns the value as `get_or_init` does, by a closure that may fail.
    ///
    /// # Errors
    ///
    /// Returns the error of the closure. The cell is still without a value then, and the next
    /// thread that asks for it runs its own closure.
    #[inline]
    pub fn get_or_try_init<R: Wait + Clock, E, F: FnOnce() -> Result<T, E> + Drop>(
        &self,
        rt: &R,
        f: F,
    ) -> Result<&T, E>
    where
        T: Drop,
        requires { F.pre f }
    {
        if let Some(value) = self.get() {
            return Ok(value);
        }
        if let Some(value) = self.begin(rt) {
            return Ok(value);
        }
        match f() {
            Ok(value) => Ok(self.finish(rt, value)),
            Err(error) => {
                self.end(rt, IDLE);
                Err(error)
            }
        }
    }

    /// Waits until the value is set, and returns it.
    ///
    /// It sets none itself, so another thread has to.
    pub fn wait<R: Wait + Clock>(&self, rt: &R) -> &T {
        self.queue.wait(rt, || self.get().is_some());
        self.value.wait(rt)
    }

    /// Returns the value if it was set, and ends the cell.
    pub fn into_inner(self) -> Option<T> {
        self.value.into_inner()
    }

    // Waits until there is a value, or until this thread has the right to set one, which `None`
    // says.
    #[cold]
    fn begin<R: Wait + Clock>(&self, rt: &R) -> Option<&T> {
        for _ in rt.forever() {
            if let Some(value) = self.get() {
                return Some(value);
            }
            if self.take_right() {
                return None;
            }
            let is_over = || self.state.load(Ordering::SeqCst) != RUNNING;
            self.queue.wait(rt, is_over);
        }
        unreachable!()
    }

    fn take_right(&self) -> bool {
        self.state
            .compare_exchange(IDLE, RUNNING, Ordering::SeqCst, Ordering::SeqCst)
            .is_ok()
    }

    // Sets the value, for whoever has the right.
    pub(crate) fn finish<R: Wait>(&self, rt: &R, value: T) -> &T
    where
        T: Drop,
    {
        let token = match self.value.try_insert(rt, value) {
            Ok(token) => token,
            Err((token, _value)) => token,
        };
        self.end(rt, DONE);
        self.value.value(&token)
    }

    fn end<R: Wait>(&self, rt: &R, state: usize) {
        self.state.store(state, Ordering::SeqCst);
        self.queue.wake_all(rt);
    }
}

impl<T: Debug> Debug for OnceLock<'_, T> {
    fn fmt<W: fmt::Write>(&self, f: &mut Formatter<W>) -> fmt::Result {
        match self.get() {
            Some(value) => f.debug_tuple("OnceLock").field(value).finish(),
            None => f.debug_tuple("OnceLock").finish_non_exhaustive(),
        }
    }
}
