//! A queue of bounded length for threads, by a mutex and two condition variables.

ghost use Rattle.std.specs.Prelude.{◌≡◌, ◌<◌, IfErr};

use crate::bounded::Bounded;
use lot_threads::NoMemory;
use parking_lot::{Condvar, Lot, Mutex};
use std::alloc::Global;
use std::sync::Wait;
use std::time::{Clock, Duration};

/// A queue of values, which threads share by reference: producers wait while it is full, and
/// consumers while it is empty.
///
/// Each value that is put wakes one consumer, and each that is taken one producer, if any wait. A
/// thread that comes meanwhile may be quicker than the woken one, which waits again then. What
/// holds of each value is said by its type.
#[derive(Drop)]
pub struct BoundedQueue<'l, T> {
    values: Mutex<'l, Bounded<T>>,
    filled: Condvar<'l>,
    freed: Condvar<'l>,
}

impl<'l, T: Drop> BoundedQueue<'l, T> {
    /// An empty queue for so many values, at least one.
    ///
    /// # Errors
    ///
    /// `NoMemory` if memory cannot be had. No other call asks for any.
    pub fn new(
        lot: &'l Lot,
        alloc: Global,
        capacity: usize,
    ) -> Result<BoundedQueue<'l, T>, NoMemory>
        requires { 0 < capacity }
    {
        Ok(BoundedQueue {
            values: Mutex::new(lot, Bounded::new(alloc, capacity)?)?,
            filled: Condvar::new(lot)?,
            freed: Condvar::new(lot)?,
        })
    }

    /// Puts a value last, and waits while the queue is full.
    pub fn put<R: Wait + Clock>(&self, rt: &R, value: T) {
        let values = self.values.lock(rt);
        let mut values = self
            .freed
            .wait_while(values, |values: &mut Bounded<T>| values.is_full());
        values.put(value);
        drop(values);
        self.filled.notify_one(rt);
    }

    /// Takes the first value, and waits while the queue is empty.
    pub fn take<R: Wait + Clock>(&self, rt: &R) -> T {
        let values = self.values.lock(rt);
        let mut values = self
            .filled
            .wait_while(values, |values: &mut Bounded<T>| values.is_empty());
        let first = values.take().unwrap();
        drop(values);
        self.freed.notify_one(rt);
        first
    }

    /// Puts a value last, and waits no longer than this while the queue is full.
    ///
    /// # Errors
    ///
    /// The value, if the queue was full all the time.
    pub fn put_for<R: Wait + Clock>(&self, rt: &R, value: T, duration: Duration) -> Result<(), T>
        ensures { IfErr result (λ refused. refused ≡ value) }
    {
        let values = self.values.lock(rt);
        let (mut values, _) = self.freed.wait_while_for(
            values,
            |values: &mut Bounded<T>| values.is_full(),
            duration,
        );
        if values.is_full() {
            return Err(value);
        }
        values.put(value);
        drop(values);
        self.filled.notify_one(rt);
        Ok(())
    }

    /// Takes the first value, and waits no longer than this while the queue is empty. `None` says
    /// that it was empty all the time.
    pub fn take_for<R: Wait + Clock>(&self, rt: &R, duration: Duration) -> Option<T> {
        let values = self.values.lock(rt);
        let (mut values, _) = self.filled.wait_while_for(
            values,
            |values: &mut Bounded<T>| values.is_empty(),
            duration,
        );
        let first = values.take()?;
        drop(values);
        self.freed.notify_one(rt);
        Some(first)
    }
}
