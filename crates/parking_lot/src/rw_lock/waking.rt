//! This module releases the lock, and chooses whom the thread that released it wakes.

use super::waiting::{IS_KEPT, WRITES};
use super::{DRAINS, KEPT_ONCE, PARKED, RwLock, UPGRADING, WRITER};
use lot_threads::{
    DEFAULT_UNPARK_TOKEN, FilterOp, ParkToken, UnparkToken, unpark_chosen, unpark_one,
};
use std::cell::Cell;
use std::sync::Wait;
use std::sync::atomic::Ordering;

/// `Front` says who has the lock or was woken for it, while the list is gone through.
#[derive(Clone, Copy)]
pub(super) enum Front {
    // Nobody: the first of the list may come, whoever that is.
    Nobody,
    // A reader left, and perhaps not the last: only a writer may come, whose turn it then is.
    FewerReaders,
    // Readers: more may come.
    Readers,
    // A writer: nobody may come.
    Writer,
}

impl Front {
    // The bits that say whether somebody may come, or whether bits are to go down.
    #[inline]
    fn looks_for(self) -> usize {
        match self {
            Front::Nobody | Front::Writer => PARKED | WRITER | DRAINS,
            Front::FewerReaders => PARKED | DRAINS,
            Front::Readers => PARKED | WRITER,
        }
    }

    // What becomes of the next waiter, and who is at the front then.
    fn meets(self, waiter: ParkToken) -> (FilterOp, Front) {
        match (self, waiter == WRITES) {
            (Front::Nobody | Front::FewerReaders, true) => (FilterOp::Unpark, Front::Writer),
            (Front::Nobody | Front::Readers, false) => (FilterOp::Unpark, Front::Readers),
            (Front::FewerReaders, false) => (FilterOp::Skip, Front::FewerReaders),
            (Front::Readers, true) | (Front::Writer, _) => (FilterOp::Stop, self),
        }
    }

    // The bits that go down with nobody left in the list. A writer that was woken keeps readers out
    // until it lets the lock go.
    fn takes_down(self) -> usize {
        match self {
            Front::Nobody | Front::Readers => PARKED | WRITER,
            Front::FewerReaders | Front::Writer => PARKED,
        }
    }
}

impl<T> RwLock<'_, T> {
    /// Wakes others, after the lock was released, or after nothing keeps readers out any more.
    #[inline]
    pub(super) fn wake<R: Wait>(&self, rt: &R, front: Front) {
        let state = self.state.load(Ordering::SeqCst);
        if state & front.looks_for() != 0 {
            self.wake_in(rt, state, front);
        }
    }

    // Wakes others in this state. Whoever upgrades wakes all but itself later.
    #[cold]
    #[inline(never)]
    fn wake_in<R: Wait>(&self, rt: &R, state: usize, front: Front) {
        if state & UPGRADING == 0 {
            self.unpark::<R, ()>(rt, front, None);
        } else if state & DRAINS != 0 {
            self.unpark_upgrade(rt);
        }
    }

    /// Releases the lock, and reserves it for the threads that it wakes.
    ///
    /// During an upgrade it reserves nothing, because the upgrade is next.
    pub(super) fn release_fair<R: Wait, G: Drop>(&self, rt: &R, held: G, front: Front) {
        if self.state.load(Ordering::SeqCst) & (PARKED | UPGRADING) != PARKED {
            drop(held);
            self.wake(rt, front);
            return;
        }
        self.unpark(rt, front, Some(held));
        if self.has(DRAINS) {
            self.unpark_upgrade(rt);
        }
    }

    // Unparks those who may come. A lock that is handed over is let go in the section.
    fn unpark<R: Wait, G: Drop>(&self, rt: &R, first: Front, handed_over: Option<G>) {
        let front = Cell::new(first);
        unpark_chosen(
            rt,
            self.lot.queues(),
            self.key,
            |waiter| {
                let (op, next) = front.get().meets(waiter);
                front.set(next);
                op
            },
            |found| {
                if !found.have_more_threads {
                    let bits = front.get().takes_down();
                    self.state.fetch_and(!bits, Ordering::SeqCst);
                }
                match handed_over {
                    Some(held) => self.keep_for(found.unparked_threads, held),
                    None => DEFAULT_UNPARK_TOKEN,
                }
            },
        );
    }

    // Lets the lock go, and keeps it for so many threads, which their token tells.
    fn keep_for<G: Drop>(&self, threads: usize, held: G) -> UnparkToken {
        let kept = threads.wrapping_mul(KEPT_ONCE);
        self.state.fetch_add(kept, Ordering::SeqCst);
        drop(held);
        IS_KEPT
    }

    fn unpark_upgrade<R: Wait>(&self, rt: &R) {
        unpark_one(rt, self.lot.queues(), self.drain, |_| {
            self.state.fetch_and(!DRAINS, Ordering::SeqCst);
            DEFAULT_UNPARK_TOKEN
        });
    }
}
