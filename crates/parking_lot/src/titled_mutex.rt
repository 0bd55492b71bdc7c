//! This module has a mutex that is proved to forget no waiting thread. It is a `gate` with one
//! permit, which guards the value. The head of that module has the protocol.
//!
//! A thread that waits on a condition variable is not in the list of the gate meanwhile. A notify
//! wakes it, and it locks the mutex like any other.

ghost use Rattle.std.specs.Prelude.{◌≡◌, true, IfErr, IfSome};
ghost use Rattle.lock_words.specs.Stock.{supply_of};
ghost use Rattle.parking_lot.specs.Gates.{Holds};
ghost use Rattle.parking_lot.specs.TitledMutexes.{HoldsEmpty};

use crate::gate::Gate;
use crate::guard::{Guard, Release};
use crate::lot::{instant_after, stand_back};
pub use crate::queue_title::QueueKey;
use crate::queue_title::QueueTitle;
use crate::titled_lot::TitledLot;
use lock_words::stock::{Hand, PERMIT};
use lot_threads::NoMemory;
use std::alloc::Global;
use std::fmt;
use std::fmt::{Debug, Formatter};
use std::sync::Wait;
use std::time::{Clock, Duration, Instant};

// The word of a mutex that is free, where nobody waits.
const FREE: u64 = PERMIT;

// The word of one that is held, where nobody waits.
const HELD: u64 = 0;

/// A `TitledMutex` protects a value, so that only one thread at a time can use it, and it is proved
/// that no thread that waits for it is forgotten.
///
/// Use it like a `Mutex`. Its threads wait in a `TitledLot`, which deals each such mutex a key. It
/// is slower than a `Mutex` when threads compete.
///
/// If a guard is forgotten by `mem::forget`, the mutex stays locked. There is no `get_mut`, because
/// nothing but a guard can lend the value: whoever has the whole mutex calls `lock`.
#[derive(Drop)]
pub struct TitledMutex<'l, T: Drop> {
    gate: Gate<'l, T>,
    ghost guarding: { (supply_of gate.stock).guards ≡ true },
}

/// A `TitledMutexGuard` gives access to the value of a `TitledMutex`, and unlocks the mutex when it
/// is dropped.
///
/// The drop is one exchange if nobody may wait. Otherwise it is a critical section of the key.
pub type TitledMutexGuard<'a, 'r, 'l, T, R> = Guard<Box<T>, TitledLocked<'a, 'r, 'l, T, R>>;

/// `TitledLocked` is what a guard remembers of its mutex.
///
/// It has no `Drop`: only dropping the guard unlocks the mutex.
pub struct TitledLocked<'a, 'r, 'l, T: Drop, R: Wait> {
    pub(crate) mutex: &'a TitledMutex<'l, T>,
    pub(crate) rt: &'r R,
    hand: Hand<T, QueueTitle>,
    ghost own: { HoldsEmpty mutex.now.gate.stock hand },
}

impl<T: Drop, R: Wait> Release<Box<T>> for TitledLocked<'_, '_, '_, T, R> {
    #[inline]
    fn release(self, held: Box<T>) {
        let TitledLocked {
            mutex,
            rt,
            mut hand,
        } = self;
        mutex.gate.stock.put_value(&mut hand, held);
        if mutex.gate.stock.release(&mut hand, HELD) {
            hand.leave();
        } else {
            mutex.gate.release(rt, hand);
        }
    }
}

impl<'l, T: Drop> TitledMutex<'l, T> {
    ghost use Rattle.parking_lot.specs.Guards.{titled_mutex_of};

    /// Creates a mutex that nobody holds, around the given value.
    ///
    /// It takes the next key of the lot, and allocates a block for the value, one for the word and
    /// one for two slots. No other call allocates, but for `leak` and for the registration of a
    /// thread that has to wait, which may make the table of the lot larger.
    ///
    /// # Errors
    ///
    /// Returns `NoMemory` if there is not enough memory. The value is dropped then.
    pub fn new<R: Wait>(
        rt: &R,
        lot: &'l TitledLot,
        value: T,
    ) -> Result<TitledMutex<'l, T>, NoMemory> {
        let value = Box::new(lot.alloc(), value)?;
        Ok(TitledMutex {
            gate: Gate::guarding(rt, lot, value)?,
        })
    }

    /// Locks the mutex, and waits while another thread holds it.
    ///
    /// A thread that already holds the mutex waits for ever.
    #[inline]
    pub fn lock<'a, 'r, R: Wait>(&'a self, rt: &'r R) -> TitledMutexGuard<'a, 'r, 'l, T, R>
        ensures { titled_mutex_of result ≡ self.now }
    {
        let hand = self.hold(rt);
        self.guard(rt, hand)
    }

    /// Locks the mutex if it is free; otherwise returns `None` at once.
    ///
    /// If it is free while another thread is in a critical section of the key, it waits for the end
    /// of that.
    pub fn try_lock<'a, 'r, R: Wait>(
        &'a self,
        rt: &'r R,
    ) -> Option<TitledMutexGuard<'a, 'r, 'l, T, R>>
        ensures { IfSome result (λ guard. titled_mutex_of guard ≡ self.now) }
    {
        let hand = self.gate.take_if_free(rt)?;
        Some(self.guard(rt, hand))
    }

    /// Locks the mutex as `lock` does, but returns `None` if it cannot do so within the duration.
    pub fn lock_for<'a, 'r, R: Wait + Clock>(
        &'a self,
        rt: &'r R,
        duration: Duration,
    ) -> Option<TitledMutexGuard<'a, 'r, 'l, T, R>>
        ensures { IfSome result (λ guard. titled_mutex_of guard ≡ self.now) }
    {
        match instant_after(rt, duration) {
            Ok(Some(deadline)) => self.lock_until(rt, deadline),
            Ok(None) => Some(self.lock(rt)),
            Err(_) => self.try_lock(rt),
        }
    }

    /// Locks the mutex as `lock` does, but returns `None` if it cannot do so before the deadline.
    pub fn lock_until<'a, 'r, R: Wait + Clock>(
        &'a self,
        rt: &'r R,
        deadline: Instant,
    ) -> Option<TitledMutexGuard<'a, 'r, 'l, T, R>>
        ensures { IfSome result (λ guard. titled_mutex_of guard ≡ self.now) }
    {
        let hand = self.gate.take_until(rt, deadline)?;
        Some(self.guard(rt, hand))
    }

    /// Returns whether a thread holds the mutex.
    pub fn is_locked(&self) -> bool {
        self.gate.word() < PERMIT
    }

    /// Returns the value, and ends the mutex.
    ///
    /// It returns `None` only if a guard was forgotten or leaked, and the value with it.
    pub fn into_inner(self) -> Option<T> {
        let TitledMutex { gate } = self;
        gate.close().map(Box::into_inner)
    }

    // The guard of a thread that holds the mutex.
    #[inline]
    fn guard<'a, 'r, R: Wait>(
        &'a self,
        rt: &'r R,
        holder: Hand<T, QueueTitle>,
    ) -> TitledMutexGuard<'a, 'r, 'l, T, R>
        requires { Holds self.now.gate.stock holder }
        ensures { titled_mutex_of result ≡ self.now }
    {
        let mut hand = holder;
        let value = self.gate.stock.take_value(&mut hand);
        Guard::new(
            value,
            TitledLocked {
                mutex: self,
                rt,
                hand,
            },
        )
    }

    // A thread that holds the mutex.
    #[inline]
    fn hold<R: Wait>(&self, rt: &R) -> Hand<T, QueueTitle>
        ensures { Holds self.now.gate.stock result }
    {
        let mut hand = self.gate.stock.arrive();
        if self.gate.stock.acquire(&mut hand, FREE) {
            return hand;
        }
        self.gate.take_slow(rt, hand)
    }
}

impl<'a, 'r, 'l, T: Drop, R: Wait> TitledMutexGuard<'a, 'r, 'l, T, R> {
    ghost use Rattle.parking_lot.specs.Guards.{titled_mutex_of, titled_value_of};

    /// Returns the mutex that the guard has locked.
    pub fn mutex(guard: &Self) -> &'a TitledMutex<'l, T>
        ensures { result.now ≡ titled_mutex_of guard.now }
    {
        guard.lock().mutex
    }

    /// Unlocks the mutex if a thread may wait for it, lets others run, and locks it again.
    ///
    /// The thread that has waited longest is woken. Nothing reserves the mutex for it, as
    /// `MutexGuard::bump` does, so it gets the mutex only if it is quicker than this one. If nobody
    /// waits, the call does nothing.
    pub fn bump(guard: Self) -> Self
        ensures { titled_mutex_of result ≡ titled_mutex_of guard.entry }
    {
        let mutex = guard.lock().mutex;
        let rt = guard.lock().rt;
        if mutex.gate.word() == HELD {
            return guard;
        }
        drop(guard);
        stand_back();
        mutex.lock(rt)
    }

    /// Unlocks the mutex, calls the closure, locks the mutex again, and returns the new guard with
    /// what the closure returned.
    pub fn unlocked<A, C: FnOnce() -> A>(guard: Self, call: C) -> (Self, A)
        requires { C.pre call }
        ensures mutex { titled_mutex_of result.0 ≡ titled_mutex_of guard.entry }
        ensures called { C.post call result.1 }
    {
        let mutex = guard.lock().mutex;
        let rt = guard.lock().rt;
        drop(guard);
        let answer = call();
        (mutex.lock(rt), answer)
    }

    /// Returns a reference to the value that stays valid as long as the mutex, which is never
    /// unlocked.
    ///
    /// The guard is moved to memory that is never freed.
    ///
    /// # Errors
    ///
    /// Returns the guard if there is not enough memory for it. The mutex is still locked then.
    pub fn leak(guard: Self, alloc: Global) -> Result<&'a mut T, Self>
    where
        'r: 'a,
        R: 'a,
        ensures mutex { IfErr result (λ back. titled_mutex_of back ≡ titled_mutex_of guard.entry) }
        ensures value { IfErr result (λ back. titled_value_of back ≡ titled_value_of guard.entry) }
    {
        match Box::new(alloc, guard) {
            Ok(kept) => {
                let guard: &'a mut Self = Box::leak(kept);
                Ok(&mut **guard)
            }
            Err(failed) => Err(failed.value),
        }
    }
}

impl<T: Drop> Debug for TitledMutex<'_, T> {
    fn fmt<W: fmt::Write>(&self, f: &mut Formatter<W>) -> fmt::Result {
        f.debug_struct("TitledMutex").finish_non_exhaustive()
    }
}
