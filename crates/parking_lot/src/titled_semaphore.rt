//! This module has a semaphore that is proved to lose no permit and to forget no waiting thread. It
//! is a `gate`, whose head has the protocol.

ghost use Rattle.std.specs.Prelude.{◌≡◌, false};
ghost use Rattle.lock_words.specs.Stock.{supply_of};
ghost use Rattle.parking_lot.specs.Gates.{Holds, HoldsBare};

use crate::gate::Gate;
use crate::lot::instant_after;
use crate::queue_title::QueueTitle;
use crate::titled_lot::TitledLot;
use lock_words::stock::{Hand, PERMIT};
use lot_threads::NoMemory;
use std::sync::Wait;
use std::time::{Clock, Duration, Instant};

/// A `TitledSemaphore` counts permits, each of which one thread can have at a time, and it is
/// proved that no permit is lost and no thread that waits for one is forgotten.
///
/// Its threads wait in a `TitledLot`, which deals each such semaphore a key. A thread that arrives
/// may overtake those that wait. Unlike those of a `Semaphore`, permits are acquired one at a time,
/// and none is added later.
///
/// If a permit is forgotten by `mem::forget`, nobody can have it again.
#[derive(Drop)]
pub struct TitledSemaphore<'l> {
    gate: Gate<'l, ()>,
    ghost bare: { (supply_of gate.stock).guards ≡ false },
}

/// A `TitledSemaphorePermit` is one permit that a thread has, and gives it back when it is dropped.
///
/// The drop is one exchange if nobody may wait, or if another permit is free. Otherwise it is a
/// critical section of the key.
pub struct TitledSemaphorePermit<'a, 'r, 'l, R: Wait> {
    semaphore: &'a TitledSemaphore<'l>,
    rt: &'r R,
    hand: Hand<(), QueueTitle>,
    ghost own: { HoldsBare semaphore.now.gate.stock hand },
}

impl<R: Wait> Drop for TitledSemaphorePermit<'_, '_, '_, R> {
    #[inline]
    fn drop(self) {
        let Self {
            semaphore,
            rt,
            hand,
        } = self;
        semaphore.gate.release(rt, hand);
    }
}

impl<'l> TitledSemaphore<'l> {
    ghost use Rattle.std.specs.Prelude.{◌≡◌, IfOk, IfSome};
    ghost use Rattle.parking_lot.specs.Locks.{permits_in, titled_semaphore_of};

    /// Creates a semaphore with the given number of permits, all of which are free.
    ///
    /// It takes the next key of the lot, and allocates one block for the word and one for two
    /// slots. No other call allocates, but for the registration of a thread that has to wait, which
    /// may make the table of the lot larger.
    ///
    /// # Errors
    ///
    /// Returns `NoMemory` if there is not enough memory.
    pub fn new<R: Wait>(
        rt: &R,
        lot: &'l TitledLot,
        permits: u32,
    ) -> Result<TitledSemaphore<'l>, NoMemory>
        ensures { IfOk result (λ semaphore. permits_in semaphore ≡ permits) }
    {
        Ok(TitledSemaphore {
            gate: Gate::new(rt, lot, permits)?,
        })
    }

    /// Takes a permit, and waits until one is free.
    #[inline]
    pub fn acquire<'a, 'r, R: Wait>(&'a self, rt: &'r R) -> TitledSemaphorePermit<'a, 'r, 'l, R>
        ensures { titled_semaphore_of result ≡ self.now }
    {
        let hand = self.gate.take(rt);
        self.permit(rt, hand)
    }

    /// Takes a permit if one is free; otherwise returns `None` at once.
    ///
    /// If one is free while another thread is in a critical section of the key, it waits for the
    /// end of that.
    pub fn try_acquire<'a, 'r, R: Wait>(
        &'a self,
        rt: &'r R,
    ) -> Option<TitledSemaphorePermit<'a, 'r, 'l, R>>
        ensures { IfSome result (λ permit. titled_semaphore_of permit ≡ self.now) }
    {
        let hand = self.gate.take_if_free(rt)?;
        Some(self.permit(rt, hand))
    }

    /// Takes a permit as `acquire` does, but returns `None` if it cannot do so within the duration.
    pub fn acquire_for<'a, 'r, R: Wait + Clock>(
        &'a self,
        rt: &'r R,
        duration: Duration,
    ) -> Option<TitledSemaphorePermit<'a, 'r, 'l, R>>
        ensures { IfSome result (λ permit. titled_semaphore_of permit ≡ self.now) }
    {
        match instant_after(rt, duration) {
            Ok(Some(deadline)) => self.acquire_until(rt, deadline),
            Ok(None) => Some(self.acquire(rt)),
            Err(_) => self.try_acquire(rt),
        }
    }

    /// Takes a permit as `acquire` does, but returns `None` if it cannot do so before the deadline.
    pub fn acquire_until<'a, 'r, R: Wait + Clock>(
        &'a self,
        rt: &'r R,
        deadline: Instant,
    ) -> Option<TitledSemaphorePermit<'a, 'r, 'l, R>>
        ensures { IfSome result (λ permit. titled_semaphore_of permit ≡ self.now) }
    {
        let hand = self.gate.take_until(rt, deadline)?;
        Some(self.permit(rt, hand))
    }

    /// Returns how many permits are free at this moment.
    pub fn available_permits(&self) -> usize {
        (self.gate.word() / PERMIT) as usize
    }

    // The permit of a thread that holds one.
    #[inline]
    fn permit<'a, 'r, R: Wait>(
        &'a self,
        rt: &'r R,
        holder: Hand<(), QueueTitle>,
    ) -> TitledSemaphorePermit<'a, 'r, 'l, R>
        requires { Holds self.now.gate.stock holder }
        ensures { titled_semaphore_of result ≡ self.now }
    {
        TitledSemaphorePermit {
            semaphore: self,
            rt,
            hand: holder,
        }
    }
}
