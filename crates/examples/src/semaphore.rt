//! A counting semaphore for the tasks of a simulation, who wait on a key of a lot.

ghost use Rattle.std.specs.Prelude.{◌≡◌, ◌↔◌, ◌+◌, ◌-◌, ◌<◌, ◌^◌, [], IsTrue, IsOk, IfOk, OnErr, IsFalse};
ghost use Rattle.lot_base.specs.Waiting.{split_first, has_any};
ghost use Rattle.lot_machine.specs.Machine.{after_enter, after_unpark};
ghost use Rattle.lot_simulator.specs.Lot.{machine};

use lot_simulator::lot::{Lot, Status};
use lot_threads::{DEFAULT_PARK_TOKEN, Misfit, UnparkToken};
use std::marker::Model;

/// The token by which a waiter is handed a permit.
pub const PERMIT: UnparkToken = UnparkToken(1);

/// How a thread acquired.
#[derive(Copy, Clone)]
pub enum Acquired {
    /// A permit was free: the thread has it, and runs on.
    Now,

    /// No permit was free: the thread waits on the key until it is handed one.
    Parked,
}

/// How many permits are free, and the key on which threads wait for one.
///
/// It is for one caller, who takes the steps of every thread and hands in the same lot each time.
/// The key is the semaphore's alone. No call allocates.
#[derive(Drop)]
pub struct Semaphore {
    key: usize,
    permits: usize,
}

impl Model for Semaphore {
    ghost use Rattle.examples.specs.SemaphoreState.{SemaphoreState};

    ghost Value = { SemaphoreState };

    ghost view = { λ semaphore. record { key = semaphore.key; permits = semaphore.permits } };
}

impl Semaphore {
    /// A semaphore with so many permits, all of them free.
    pub fn new(key: usize, permits: usize) -> Semaphore
        ensures { result ≡ record { key = key; permits = permits } }
    {
        Semaphore { key, permits }
    }

    /// How many permits are free.
    pub fn permits(&self) -> usize
        ensures { result ≡ self.now.permits }
    {
        self.permits
    }

    /// Takes a permit for a running thread, or else puts it last in the list of the key, where it
    /// waits with a timeout or without.
    ///
    /// A parked thread has its permit once `Lot::give_back` or `Lot::resolve` tells it `PERMIT`.
    /// One whose time is up leaves by `timeout::let_time_out`, and has none. It costs at most one
    /// `Lot::enter`.
    ///
    /// # Errors
    ///
    /// `Misfit` exactly if the thread is not running. Nothing changed then.
    pub fn acquire(&mut self, lot: &mut Lot, thread: usize, timed: bool) -> Result<Acquired, Misfit>
        ensures fits { IsOk result ↔ ((machine lot.old).status thread ≡ Status.Running) }
        ensures free { IfOk result (λ acquired.
            (acquired ≡ Acquired.Now) ↔ (0 < self.old.permits)) }
        ensures now { result ≡ Ok Acquired.Now
            → (self.new ≡ record self.old { permits = self.old.permits - 1 })
            × (lot.new ≡ lot.old) }
        ensures parked { result ≡ Ok Acquired.Parked → (self.new ≡ self.old) × (machine lot.new
            ≡ after_enter (machine lot.old) thread self.old.key DEFAULT_PARK_TOKEN timed) }
        ensures err { OnErr result ((self.new ≡ self.old) × (lot.new ≡ lot.old)) }
    {
        if self.permits == 0 {
            lot.enter(thread, self.key, || true, DEFAULT_PARK_TOKEN, timed)?;
            return Ok(Acquired::Parked);
        }
        if lot.status(thread) != Status::Running {
            return Err(Misfit);
        }
        self.permits -= 1;
        Ok(Acquired::Now)
    }

    /// Hands a permit to the first waiter of the key, or frees it if nobody waits. Answers whether
    /// a waiter has it.
    ///
    /// The waiter's thread is taken then, with the token `PERMIT`. It costs one `Lot::unpark_one`.
    pub fn release(&mut self, lot: &mut Lot) -> bool
        requires { self.old.permits + 1 < 2 ^ 64 }

        ensures answer { result ≡ has_any ((machine lot.old).lists self.old.key) }
        ensures handed { IsTrue result → (self.new ≡ self.old) × (machine lot.new
            ≡ after_unpark (machine lot.old) self.old.key
            (split_first ((machine lot.old).lists self.old.key)) PERMIT) }
        ensures freed { IsFalse result
            → (self.new ≡ record self.old { permits = self.old.permits + 1 })
            × (machine lot.new ≡ machine lot.old) }
    {
        if lot.unpark_one(self.key, |_| PERMIT).unparked_threads > 0 {
            return true;
        }
        self.permits += 1;
        false
    }
}
