//! This module has the queue of threads that wait until others have done something.
//!
//! # The protocol
//!
//! `parked` says that threads may be parked on the key.
//!
//! - A thread that waits checks whether it still has to, spins for a while and parks. In the
//!   critical section of the key it sets `parked` and **then** checks once more. It stays in the
//!   list only if it still has to wait. Where others are already parked it does not spin.
//! - A thread that does what others wait for looks at `parked` **after** that. If it is set, it
//!   unparks those whom it concerns. They check again, or are told by their token that they need
//!   not.
//! - `parked` is cleared in sections that leave nobody in the list, and before all are unparked.
//!
//! No thread is forgotten. A thread stays in the list only if a check failed after it had set
//! `parked`. Whoever does what it waits for does so later, and looks at `parked` after it. So
//! `parked` is set, or another thread has just cleared it to unpark all. All accesses are `SeqCst`.

ghost use Rattle.std.specs.Prelude.{◌≡◌, ◌≢◌, None, true};

use crate::lot::{Lot, is_past};
use lot_threads::{
    DEFAULT_PARK_TOKEN, DEFAULT_UNPARK_TOKEN, FilterOp, ParkResult, ParkToken, SpinWait,
    UnparkToken, thread_yield, unpark_all, unpark_chosen, unpark_one,
};
use std::sync::Wait;
use std::sync::atomic::{AtomicBool, Ordering};
use std::time::{Clock, Instant};

// What a thread is told for which another one did what it waited for.
const SERVED: UnparkToken = UnparkToken(1);

/// A `WaitQueue` is a key of a lot, with a flag that says whether threads may be parked there.
#[derive(Drop)]
pub(crate) struct WaitQueue<'l> {
    lot: &'l Lot,
    key: usize,
    parked: AtomicBool,
}

impl<'l> WaitQueue<'l> {
    pub(crate) fn new(lot: &'l Lot) -> WaitQueue<'l>
        ensures { result.lot.now ≡ lot.now }
    {
        WaitQueue {
            lot,
            key: lot.key(),
            parked: AtomicBool::new(false),
        }
    }

    pub(crate) fn lot(&self) -> &'l Lot
        ensures { result.now ≡ self.now.lot.now }
    {
        self.lot
    }

    /// Waits until the closure returns true.
    #[cold]
    #[inline(never)]
    pub(crate) fn wait<R: Wait + Clock, F: Fn() -> bool>(&self, rt: &R, is_over: F)
        requires { F.IsAlwaysCallable is_over }
    {
        self.wait_until(rt, DEFAULT_PARK_TOKEN, is_over, None);
    }

    /// Waits until the closure returns true, until another thread serves this one, or until the
    /// deadline, and returns false only for the deadline.
    pub(crate) fn wait_until<R: Wait + Clock, F: Fn() -> bool>(
        &self,
        rt: &R,
        token: ParkToken,
        is_over: F,
        deadline: Option<Instant>,
    ) -> bool
        requires { F.IsAlwaysCallable is_over }
        ensures { deadline ≡ None → result ≡ true }
    {
        let mut spin = SpinWait::new();
        for _ in rt.forever() {
            if is_over() {
                return true;
            }
            if !self.parked.load(Ordering::SeqCst) && spin.spin() {
                continue;
            }
            match self.park(rt, token, &is_over, deadline) {
                Some(ParkResult::Invalid | ParkResult::Unparked(SERVED)) => return true,
                Some(ParkResult::Unparked(_)) => spin.reset(),
                Some(ParkResult::TimedOut) => return false,
                None if is_past(rt, deadline) => return false,
                None => thread_yield(),
            }
        }
        unreachable!()
    }

    // `Invalid` says that the closure answered true.
    fn park<R: Wait + Clock, F: Fn() -> bool>(
        &self,
        rt: &R,
        token: ParkToken,
        is_over: &F,
        deadline: Option<Instant>,
    ) -> Option<ParkResult>
        requires { F.IsAlwaysCallable is_over.now }
        ensures { deadline ≡ None → result ≢ Some ParkResult.TimedOut }
    {
        self.lot.park(
            rt,
            self.key,
            || {
                self.parked.store(true, Ordering::SeqCst);
                !is_over()
            },
            || (),
            |_, was_last| self.note_left(!was_last),
            token,
            deadline,
        )
    }

    /// Wakes the thread that has waited longest.
    #[inline]
    pub(crate) fn wake_one<R: Wait>(&self, rt: &R) {
        if self.parked.load(Ordering::SeqCst) {
            self.unpark_one(rt);
        }
    }

    #[cold]
    #[inline(never)]
    fn unpark_one<R: Wait>(&self, rt: &R) {
        unpark_one(rt, self.lot.queues(), self.key, |found| {
            self.note_left(found.have_more_threads);
            DEFAULT_UNPARK_TOKEN
        });
    }

    /// Wakes all threads.
    #[inline]
    pub(crate) fn wake_all<R: Wait>(&self, rt: &R) {
        if self.parked.load(Ordering::SeqCst) {
            self.parked.store(false, Ordering::SeqCst);
            unpark_all(rt, self.lot.queues(), self.key, DEFAULT_UNPARK_TOKEN);
        }
    }

    /// Serves the threads that the closure chooses to unpark.
    #[inline]
    pub(crate) fn serve<R: Wait, F: FnMut(ParkToken) -> FilterOp>(&self, rt: &R, filter: F)
        requires { (state : F) (park_token : _) → F.pre state park_token }
    {
        if self.parked.load(Ordering::SeqCst) {
            self.unpark_served(rt, filter);
        }
    }

    #[cold]
    #[inline(never)]
    fn unpark_served<R: Wait, F: FnMut(ParkToken) -> FilterOp>(&self, rt: &R, filter: F)
        requires { (state : F) (park_token : _) → F.pre state park_token }
    {
        unpark_chosen(rt, self.lot.queues(), self.key, filter, |found| {
            self.note_left(found.have_more_threads);
            SERVED
        });
    }

    // Says in a section that nobody is left in the list, if that is so.
    fn note_left(&self, some_are_left: bool) {
        if !some_are_left {
            self.parked.store(false, Ordering::SeqCst);
        }
    }
}
