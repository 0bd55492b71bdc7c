//! This module has the semaphore, a counter of permits for which threads wait.
//!
//! # The protocol
//!
//! `permits` counts the permits that nobody has. `queue` has the threads that wait. The park token
//! of each is the number of permits that it wants.
//!
//! - A thread that arrives takes what it wants, by one exchange, if there are enough permits.
//! - If there are too few, it waits in the queue until it can, or until it is served.
//! - A thread that gives permits back adds them and **then** serves the queue: it takes for the
//!   first thread what that one wants, then for the next, and so on until too few are left.
//! - A thread that was served has its permits, because they were taken for it.
//! - A thread that leaves at its deadline serves the queue as well. It may have been the first, and
//!   have wanted more than those behind it.
//!
//! No thread is forgotten. A thread stays in the queue only if its own try failed. After that, only
//! an add, or the leaving of a thread before it, can let it have its permits. Whoever does one of
//! these serves the longest beginning of the queue for which there are permits. All accesses are
//! `SeqCst`.

ghost use Rattle.std.specs.Prelude.{◌≡◌, ◌+◌, ◌<◌, IfNone, IfSome};
ghost use Rattle.parking_lot.specs.Locks.{permits_of, semaphore_of};

use crate::lot::{Lot, instant_after};
use crate::wait_queue::WaitQueue;
use lot_threads::{FilterOp, NoMemory, ParkToken};
use std::fmt;
use std::fmt::{Debug, Formatter};
use std::sync::Wait;
use std::sync::atomic::{AtomicUsize, Ordering};
use std::time::{Clock, Duration, Instant};

/// A `Semaphore` counts permits; a thread that wants some waits until there are enough.
///
/// Threads that wait are served in the order in which they came, so one that wants many holds up
/// those behind it. A thread that arrives while others wait may still take what is there, so one
/// that wants many may wait long.
///
/// There can be at most `usize::MAX` permits. Permits beyond that are lost.
#[derive(Drop)]
pub struct Semaphore<'l> {
    queue: WaitQueue<'l>,
    permits: AtomicUsize,
}

/// A `SemaphorePermit` stands for permits that a thread has.
///
/// Its drop gives them back, and unparks threads that may have them.
pub struct SemaphorePermit<'a, 'r, 'l, R: Wait> {
    semaphore: &'a Semaphore<'l>,
    rt: &'r R,
    permits: usize,
}

impl<'l> Semaphore<'l> {
    /// Creates a semaphore with the given number of permits.
    ///
    /// # Errors
    ///
    /// Returns `NoMemory` if there is not enough memory. This version allocates nothing.
    pub fn new(lot: &'l Lot, permits: usize) -> Result<Semaphore<'l>, NoMemory> {
        Ok(Semaphore {
            queue: WaitQueue::new(lot),
            permits: AtomicUsize::new(permits),
        })
    }

    /// Takes one permit, and waits until there is one.
    #[inline]
    pub fn acquire<'a, 'r, R: Wait + Clock>(&'a self, rt: &'r R) -> SemaphorePermit<'a, 'r, 'l, R>
        ensures permits { permits_of result ≡ 1 }
        ensures semaphore { semaphore_of result ≡ self.now }
    {
        self.acquire_many(rt, 1)
    }

    /// Takes the given number of permits at once, and waits until there are as many.
    ///
    /// Zero permits are always there.
    #[inline]
    pub fn acquire_many<'a, 'r, R: Wait + Clock>(
        &'a self,
        rt: &'r R,
        permits: usize,
    ) -> SemaphorePermit<'a, 'r, 'l, R>
        ensures permits { permits_of result ≡ permits }
        ensures semaphore { semaphore_of result ≡ self.now }
    {
        if !self.try_take(permits) {
            self.wait(rt, permits);
        }
        self.permit(rt, permits)
    }

    /// Takes one permit if there is one; otherwise returns `None` at once.
    #[inline]
    pub fn try_acquire<'a, 'r, R: Wait>(
        &'a self,
        rt: &'r R,
    ) -> Option<SemaphorePermit<'a, 'r, 'l, R>>
        ensures permits { IfSome result (λ permit. permits_of permit ≡ 1) }
        ensures semaphore { IfSome result (λ permit. semaphore_of permit ≡ self.now) }
    {
        self.try_acquire_many(rt, 1)
    }

    /// Takes the given number of permits if there are as many; otherwise returns `None` at once.
    #[inline]
    pub fn try_acquire_many<'a, 'r, R: Wait>(
        &'a self,
        rt: &'r R,
        permits: usize,
    ) -> Option<SemaphorePermit<'a, 'r, 'l, R>>
        ensures permits { IfSome result (λ permit. permits_of permit ≡ permits) }
        ensures semaphore { IfSome result (λ permit. semaphore_of permit ≡ self.now) }
    {
        self.permit_if(self.try_take(permits), rt, permits)
    }

    /// Takes one permit as `acquire` does, but returns `None` if it cannot do so within the
    /// duration.
    pub fn acquire_for<'a, 'r, R: Wait + Clock>(
        &'a self,
        rt: &'r R,
        duration: Duration,
    ) -> Option<SemaphorePermit<'a, 'r, 'l, R>>
        ensures permits { IfSome result (λ permit. permits_of permit ≡ 1) }
        ensures semaphore { IfSome result (λ permit. semaphore_of permit ≡ self.now) }
    {
        let took = self.try_take(1) || self.wait_until(rt, 1, instant_after(rt, duration).ok()?);
        self.permit_if(took, rt, 1)
    }

    /// Takes one permit as `acquire` does, but returns `None` if it cannot do so before the
    /// deadline.
    pub fn acquire_until<'a, 'r, R: Wait + Clock>(
        &'a self,
        rt: &'r R,
        deadline: Instant,
    ) -> Option<SemaphorePermit<'a, 'r, 'l, R>>
        ensures permits { IfSome result (λ permit. permits_of permit ≡ 1) }
        ensures semaphore { IfSome result (λ permit. semaphore_of permit ≡ self.now) }
    {
        self.acquire_many_until(rt, 1, deadline)
    }

    /// Takes permits as `acquire_many` does, but returns `None` if it cannot do so before the
    /// deadline.
    ///
    /// It takes all of them or none.
    pub fn acquire_many_until<'a, 'r, R: Wait + Clock>(
        &'a self,
        rt: &'r R,
        permits: usize,
        deadline: Instant,
    ) -> Option<SemaphorePermit<'a, 'r, 'l, R>>
        ensures permits { IfSome result (λ permit. permits_of permit ≡ permits) }
        ensures semaphore { IfSome result (λ permit. semaphore_of permit ≡ self.now) }
    {
        let took = self.try_take(permits) || self.wait_until(rt, permits, Some(deadline));
        self.permit_if(took, rt, permits)
    }

    /// Returns how many permits there are at this moment.
    pub fn available_permits(&self) -> usize {
        self.permits.load(Ordering::SeqCst)
    }

    /// Adds the given number of permits, and unparks threads that may have them.
    ///
    /// Permits beyond `usize::MAX` are lost.
    #[inline]
    pub fn add_permits<R: Wait>(&self, rt: &R, permits: usize) {
        if permits != 0 {
            self.add(permits);
            self.serve(rt);
        }
    }

    #[inline]
    fn permit<'a, 'r, R: Wait>(
        &'a self,
        rt: &'r R,
        permits: usize,
    ) -> SemaphorePermit<'a, 'r, 'l, R>
        ensures permits { permits_of result ≡ permits }
        ensures semaphore { semaphore_of result ≡ self.now }
    {
        SemaphorePermit {
            semaphore: self,
            rt,
            permits,
        }
    }

    #[inline]
    fn permit_if<'a, 'r, R: Wait>(
        &'a self,
        took: bool,
        rt: &'r R,
        permits: usize,
    ) -> Option<SemaphorePermit<'a, 'r, 'l, R>>
        ensures permits { IfSome result (λ permit. permits_of permit ≡ permits) }
        ensures semaphore { IfSome result (λ permit. semaphore_of permit ≡ self.now) }
    {
        if took {
            Some(self.permit(rt, permits))
        } else {
            None
        }
    }

    // Takes so many permits, and fails only if there are fewer.
    #[inline]
    fn try_take(&self, wanted: usize) -> bool {
        self.permits
            .fetch_update(Ordering::SeqCst, Ordering::SeqCst, |permits| {
                permits.checked_sub(wanted)
            })
            .is_ok()
    }

    #[inline]
    fn add(&self, added: usize) {
        let _ = self
            .permits
            .fetch_update(Ordering::SeqCst, Ordering::SeqCst, |permits| {
                Some(permits.saturating_add(added))
            });
    }

    #[cold]
    #[inline(never)]
    fn wait<R: Wait + Clock>(&self, rt: &R, wanted: usize) {
        self.wait_until(rt, wanted, None);
    }

    // Waits until it has the permits, or until the deadline, and answers whether it has them.
    fn wait_until<R: Wait + Clock>(
        &self,
        rt: &R,
        wanted: usize,
        deadline: Option<Instant>,
    ) -> bool {
        let takes = || self.try_take(wanted);
        let took = self
            .queue
            .wait_until(rt, ParkToken(wanted), takes, deadline);
        if !took {
            self.serve(rt);
        }
        took
    }

    // Takes permits for those that wait, in their order.
    #[inline]
    fn serve<R: Wait>(&self, rt: &R) {
        self.queue.serve(rt, |wanted| {
            if self.try_take(wanted.0) {
                FilterOp::Unpark
            } else {
                FilterOp::Stop
            }
        });
    }
}

impl<'a, 'r, 'l, R: Wait> SemaphorePermit<'a, 'r, 'l, R> {
    /// Returns how many permits these are.
    pub fn permits(&self) -> usize
        ensures { result ≡ permits_of self.now }
    {
        self.permits
    }

    /// Drops these permits without giving them back, so the semaphore has fewer from then on.
    pub fn forget(permit: SemaphorePermit<'a, 'r, 'l, R>) {
        let SemaphorePermit {
            semaphore: _,
            rt: _,
            permits: _,
        } = permit;
    }

    /// Takes the given number of these permits out, as permits of their own.
    ///
    /// If there are fewer, it returns `None` and leaves them as they are.
    pub fn split(&mut self, permits: usize) -> Option<SemaphorePermit<'a, 'r, 'l, R>>
        ensures taken { IfSome result (λ taken. permits_of taken ≡ permits) }
        ensures left { IfSome result (λ _. permits_of self.new + permits ≡ permits_of self.old) }
        ensures semaphore { IfSome result (λ taken. semaphore_of taken ≡ semaphore_of self.old) }
        ensures stays { semaphore_of self.new ≡ semaphore_of self.old }
        ensures none { IfNone result (permits_of self.old < permits) }
        ensures unchanged { IfNone result (self.new ≡ self.old) }
    {
        self.permits = self.permits.checked_sub(permits)?;
        Some(self.semaphore.permit(self.rt, permits))
    }
}

impl<R: Wait> Drop for SemaphorePermit<'_, '_, '_, R> {
    #[inline]
    fn drop(self) {
        let Self {
            semaphore,
            rt,
            permits,
        } = self;
        semaphore.add_permits(rt, permits);
    }
}

impl Debug for Semaphore<'_> {
    fn fmt<W: fmt::Write>(&self, f: &mut Formatter<W>) -> fmt::Result {
        f.debug_struct("Semaphore")
            .field("permits", &self.available_permits())
            .finish_non_exhaustive()
    }
}
