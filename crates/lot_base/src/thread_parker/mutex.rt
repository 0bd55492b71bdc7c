//! This module has a parker whose thread sleeps on a condition variable.

use super::{LockedSlot, ParkerKey, ParkerT, Payload, UnparkHandleT, time_left};
use crate::queue::Node;
use crate::token::NoMemory;
use std::alloc::Global;
use std::sync::{Condvar, Mutex, Wait};
use std::time::{Clock, Instant};

/// A `ThreadParker` has a std mutex, under which its slot is changed, and a std condition variable,
/// on which its thread sleeps.
///
/// The slot has a lock of its own beside the mutex, because no contract can say what is behind a
/// std mutex. No call except `new` allocates.
#[derive(Drop)]
pub struct ThreadParker<L: Payload = ()> {
    slot: LockedSlot<L>,
    changes: Mutex<()>,
    filled: Condvar,
}

impl<L: Payload> ParkerT for ThreadParker<L> {
    type Payload = L;

    type UnparkHandle = UnparkHandle;

    const IS_CHEAP_TO_CONSTRUCT: bool = false;

    ghost use Rattle.lot_word_lock.specs.WordLock.{key_of};

    ghost owner = { λ parker. (key_of parker.slot.lock).number };

    ghost home = { λ parker. (key_of parker.slot.lock).home };

    /// Creates a parker, for which it allocates a word lock around the slot.
    ///
    /// # Errors
    ///
    /// Returns `NoMemory` if there is not enough memory.
    fn new(alloc: Global, key: &ParkerKey<L::Home>) -> Result<ThreadParker<L>, NoMemory> {
        Ok(ThreadParker {
            slot: LockedSlot::new(alloc, key)?,
            changes: Mutex::new(()),
            filled: Condvar::new(),
        })
    }

    /// Does nothing.
    fn prepare_park(&self) {}

    /// Locks the slot for one look.
    fn timed_out<R: Wait>(&self, rt: &R) -> bool {
        self.slot.is_empty(rt)
    }

    /// Locks the mutex, and sleeps on the condition variable until there is a node.
    ///
    /// The mutex is unlocked while it sleeps. If it is woken without a node, it sleeps again.
    fn park<R: Wait>(&self, rt: &R) -> (Box<Node>, L) {
        let mut changes = self.changes.lock(rt);
        for _ in rt.forever() {
            if let Some(unparked) = self.slot.take(rt) {
                return unparked;
            }
            changes = self.filled.wait(rt, changes);
        }
        unreachable!()
    }

    /// Does what `park` does, but sleeps at most until the deadline.
    ///
    /// It reads the clock after each look, while the mutex is still locked.
    fn park_until<R: Wait + Clock>(&self, rt: &R, timeout: Instant) -> Option<(Box<Node>, L)> {
        let mut changes = self.changes.lock(rt);
        for _ in rt.forever() {
            if let Some(unparked) = self.slot.take(rt) {
                return Some(unparked);
            }
            let left = time_left(rt, timeout)?;
            let (locked, _) = self.filled.wait_timeout(rt, changes, left);
            changes = locked;
        }
        unreachable!()
    }

    /// Locks the mutex and puts the node into the slot.
    fn unpark_lock<R: Wait>(&self, rt: &R, node: Box<Node>, payload: L) -> UnparkHandle {
        let number = node.number;
        let changes = self.changes.lock(rt);
        self.slot.put(rt, node, payload);
        drop(changes);
        UnparkHandle { number }
    }
}

/// An `UnparkHandle` is the handle of a `ThreadParker`, and has the number of the thread. It keeps
/// no lock.
#[derive(Drop)]
pub struct UnparkHandle {
    number: usize,
}

impl<L: Payload> UnparkHandleT<ThreadParker<L>> for UnparkHandle {
    ghost number = { λ handle. handle.number };

    fn number(&self) -> usize {
        self.number
    }

    /// Notifies the condition variable once, which wakes the thread if it sleeps.
    fn unpark(self, parker: &ThreadParker<L>) {
        parker.filled.notify_one();
    }
}
