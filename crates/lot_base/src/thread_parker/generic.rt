//! This module has a parker whose thread looks again and again, and yields the processor between
//! its looks.

use super::{LockedSlot, ParkerKey, ParkerT, Payload, UnparkHandleT, thread_yield, time_left};
use crate::queue::Node;
use crate::token::NoMemory;
use std::alloc::Global;
use std::sync::Wait;
use std::time::{Clock, Instant};

/// A `YieldParker` has a slot behind a lock, and nothing to sleep on.
///
/// Take it only where there is no better parker, because its thread keeps a processor busy while it
/// waits. No call except `new` allocates.
#[derive(Drop)]
pub struct YieldParker<L: Payload = ()> {
    slot: LockedSlot<L>,
}

impl<L: Payload> ParkerT for YieldParker<L> {
    type Payload = L;

    type UnparkHandle = YieldHandle;

    const IS_CHEAP_TO_CONSTRUCT: bool = true;

    ghost use Rattle.lot_word_lock.specs.WordLock.{key_of};

    ghost owner = { λ parker. (key_of parker.slot.lock).number };

    ghost home = { λ parker. (key_of parker.slot.lock).home };

    /// Creates a parker, for which it allocates a word lock around the slot.
    ///
    /// # Errors
    ///
    /// Returns `NoMemory` if there is not enough memory.
    fn new(alloc: Global, key: &ParkerKey<L::Home>) -> Result<YieldParker<L>, NoMemory> {
        Ok(YieldParker {
            slot: LockedSlot::new(alloc, key)?,
        })
    }

    /// Does nothing.
    fn prepare_park(&self) {}

    /// Locks the slot for one look.
    fn timed_out<R: Wait>(&self, rt: &R) -> bool {
        self.slot.is_empty(rt)
    }

    /// Locks the slot for each look, and yields between its looks.
    fn park<R: Wait>(&self, rt: &R) -> (Box<Node>, L) {
        for _ in rt.forever() {
            if let Some(unparked) = self.slot.take(rt) {
                return unparked;
            }
            thread_yield();
        }
        unreachable!()
    }

    /// Locks the slot for each look, and yields between its looks.
    ///
    /// It reads the clock before each look, so the last look comes after the deadline.
    fn park_until<R: Wait + Clock>(&self, rt: &R, timeout: Instant) -> Option<(Box<Node>, L)> {
        for _ in rt.forever() {
            let is_late = time_left(rt, timeout).is_none();
            if let Some(unparked) = self.slot.take(rt) {
                return Some(unparked);
            }
            if is_late {
                return None;
            }
            thread_yield();
        }
        unreachable!()
    }

    /// Locks the slot and puts the node in it.
    fn unpark_lock<R: Wait>(&self, rt: &R, node: Box<Node>, payload: L) -> YieldHandle {
        let number = node.number;
        self.slot.put(rt, node, payload);
        YieldHandle { number }
    }
}

/// A `YieldHandle` is the handle of a `YieldParker`, and has the number of the thread.
#[derive(Drop)]
pub struct YieldHandle {
    number: usize,
}

impl<L: Payload> UnparkHandleT<YieldParker<L>> for YieldHandle {
    ghost number = { λ handle. handle.number };

    fn number(&self) -> usize {
        self.number
    }

    /// Does nothing, because the thread looks by itself.
    fn unpark(self, _parker: &YieldParker<L>) {}
}
