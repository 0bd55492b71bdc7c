//! This module has a lock that many threads may read at once, or one may write. It is proved that
//! no thread is forgotten that waits for a writer.
//!
//! # The protocol
//!
//! `value` is a std lock, of which only `try_read` and `try_write` are called. `writing` and
//! `leaving` are phasers, and `turn` is a semaphore with one permit. A thread that *leads* the
//! phase of `writing` writes, or is about to.
//!
//! - A thread that reads tries `value` while the phase of `writing` is open. While another thread
//!   leads it, the reader waits for its end.
//! - A thread that writes begins to lead the phase of `writing`. If it cannot do so at once, it
//!   takes the `turn`, and keeps it while it waits for the end of the phase and tries again. So at
//!   most one writer waits there. Then it *drains* the lock: it reads the phase of `leaving`, and
//!   **then** tries `value`. If that fails, it waits for the end of the phase of `leaving`, and
//!   tries again.
//! - A thread that stops reading looks at `writing` **after** that. If a thread leads the phase,
//!   it ends the phase of `leaving`.
//! - A thread that stops writing ends the phase of `writing` **after** that. A downgrade reads
//!   `value` in between.
//! - A thread that only tries to write takes `value` first. Then it begins to lead. If it cannot,
//!   it releases `value` like a thread that stops reading. So a try that fails does not keep
//!   readers out.
//! - A writer that gives up ends the phase of `writing`, if it leads it.
//!
//! At the end of the phase all readers that wait are woken, and so is the writer that waits there.
//! Whoever of these is quicker has the lock first. A writer waits for readers that came before it
//! led.
//!
//! No thread is forgotten. By the laws of `phases`, a thread in the list of `writing` waits for the
//! end of the present phase, and the thread that leads that phase cannot be dropped before it has
//! ended it. Of the list of `turn` the laws of `stock` hold. A writer in the list of `leaving`
//! waits for the end of the present phase too, but that a reader ends it is no law. It follows from
//! the steps: the reader for which the try failed looks at `writing` after it has released `value`,
//! and sees that a thread leads. All accesses are `SeqCst`.

ghost use Rattle.std.specs.Prelude.{◌≡◌, IfSome, IsSome, None};
ghost use Rattle.parking_lot.specs.TitledRwLocks.{LeadsIn};

use crate::guard::{Guard, Release};
use crate::lot::{instant_after, is_past};
use crate::phaser::Phaser;
use crate::phaser::titled::{TitledPhaser, is_open};
use crate::queue_title::QueueTitle;
use crate::titled_lot::TitledLot;
use crate::titled_semaphore::{TitledSemaphore, TitledSemaphorePermit};
use lock_words::phases::Hand;
use lot_threads::{NoMemory, thread_yield};
use std::fmt::{Debug, Formatter};
use std::sync::Wait;
use std::time::{Clock, Duration, Instant};
use std::{fmt, sync};

/// A `TitledRwLock` protects a value that many threads may read at once, or one may write, and it
/// is proved that no thread is forgotten that waits for a writer.
///
/// That readers wake the writer that waits for them to leave is not proved. `litmus` has searched
/// the protocol.
///
/// Use it like an `RwLock`. Its threads wait in a `TitledLot`, which deals each such lock three
/// keys. While a writer waits for readers to leave, new readers wait behind it. So a thread that
/// already reads must not call `read` again. When a writer has finished, all readers that wait are
/// woken, and the next writer too.
///
/// A write costs two exchanges more than with an `RwLock`. There are no upgradable or recursive
/// reads. If a write guard is forgotten by `mem::forget`, nobody can lock again.
#[derive(Drop)]
pub struct TitledRwLock<'l, T> {
    writing: TitledPhaser<'l>,
    leaving: TitledPhaser<'l>,
    turn: TitledSemaphore<'l>,
    value: sync::RwLock<T>,
}

/// A `TitledRwLockReadGuard` gives shared access to the value of a `TitledRwLock`, and releases the
/// lock when it is dropped.
///
/// The drop is one exchange. If a writer waits, it also wakes the writer.
pub type TitledRwLockReadGuard<'a, 'r, 'l, T, R> = Guard<
    sync::RwLockReadGuard<'a, T>,
    TitledReadLocked<'a, 'r, 'l, T, R>,
>;

/// A `TitledRwLockWriteGuard` gives exclusive access to the value of a `TitledRwLock`, and releases
/// the lock when it is dropped.
///
/// The drop is two exchanges. If others wait, the second is a critical section of their key.
pub type TitledRwLockWriteGuard<'a, 'r, 'l, T, R> = Guard<
    sync::RwLockWriteGuard<'a, T>,
    TitledWriteLocked<'a, 'r, 'l, T, R>,
>;

/// `TitledReadLocked` is what a read guard remembers: its lock, and the runtime with which it wakes
/// a writer.
#[derive(Drop)]
pub struct TitledReadLocked<'a, 'r, 'l, T, R: Wait> {
    lock: &'a TitledRwLock<'l, T>,
    rt: &'r R,
}

/// `TitledWriteLocked` is what a write guard remembers: its lock, the runtime with which it wakes
/// others, and that its thread leads.
///
/// It has no `Drop`: only dropping the guard, or a downgrade, ends the phase.
pub struct TitledWriteLocked<'a, 'r, 'l, T, R: Wait> {
    lock: &'a TitledRwLock<'l, T>,
    rt: &'r R,
    leader: Hand<QueueTitle>,
    ghost leads: { LeadsIn lock.now.writing leader },
}

impl<T, R: Wait> Release<sync::RwLockReadGuard<'_, T>> for TitledReadLocked<'_, '_, '_, T, R> {
    #[inline]
    fn release(self, held: sync::RwLockReadGuard<'_, T>) {
        drop(held);
        self.lock.tell_leader(self.rt);
    }
}

impl<T, R: Wait> Release<sync::RwLockWriteGuard<'_, T>> for TitledWriteLocked<'_, '_, '_, T, R> {
    #[inline]
    fn release(self, held: sync::RwLockWriteGuard<'_, T>) {
        let TitledWriteLocked { lock, rt, leader } = self;
        drop(held);
        lock.writing.finish(rt, leader);
    }
}

impl<'l, T> TitledRwLock<'l, T> {
    ghost use Rattle.parking_lot.specs.RwLockGuards.{titled_read_lock_of, titled_write_lock_of};

    /// Creates a lock that nobody holds, around the given value.
    ///
    /// It takes the next three keys of the lot, and allocates a word and one or two slots for each.
    /// No other call allocates, but for the registration of a thread that has to wait, which may
    /// make the table of the lot larger.
    ///
    /// # Errors
    ///
    /// Returns `NoMemory` if there is not enough memory. The value is dropped then.
    pub fn new<R: Wait>(
        rt: &R,
        lot: &'l TitledLot,
        value: T,
    ) -> Result<TitledRwLock<'l, T>, NoMemory>
    where
        T: Drop,
    {
        Ok(TitledRwLock {
            writing: TitledPhaser::new(rt, lot)?,
            leaving: TitledPhaser::new(rt, lot)?,
            turn: TitledSemaphore::new(rt, lot, 1)?,
            value: sync::RwLock::new(value),
        })
    }

    /// Locks for reading, and waits while another thread writes or waits to write.
    ///
    /// A thread that already has the lock may wait for ever.
    #[inline]
    pub fn read<'a, 'r, R: Wait + Clock>(
        &'a self,
        rt: &'r R,
    ) -> TitledRwLockReadGuard<'a, 'r, 'l, T, R>
        ensures { titled_read_lock_of result ≡ self.now }
    {
        match self.try_read(rt) {
            Some(guard) => guard,
            None => self.wait_to_read(rt),
        }
    }

    /// Locks for reading if `read` would not wait; otherwise returns `None` at once.
    #[inline]
    pub fn try_read<'a, 'r, R: Wait>(
        &'a self,
        rt: &'r R,
    ) -> Option<TitledRwLockReadGuard<'a, 'r, 'l, T, R>>
        ensures { IfSome result (λ guard. titled_read_lock_of guard ≡ self.now) }
    {
        if !is_open(self.writing.phase()) {
            return None;
        }
        let held = self.value.try_read()?;
        Some(self.read_guard(rt, held))
    }

    /// Locks for reading as `read` does, but returns `None` if it cannot do so within the duration.
    pub fn read_for<'a, 'r, R: Wait + Clock>(
        &'a self,
        rt: &'r R,
        duration: Duration,
    ) -> Option<TitledRwLockReadGuard<'a, 'r, 'l, T, R>>
        ensures { IfSome result (λ guard. titled_read_lock_of guard ≡ self.now) }
    {
        match self.try_read(rt) {
            Some(guard) => Some(guard),
            None => self.read_at_most(rt, instant_after(rt, duration).ok()?),
        }
    }

    /// Locks for reading as `read` does, but returns `None` if it cannot do so before the deadline.
    pub fn read_until<'a, 'r, R: Wait + Clock>(
        &'a self,
        rt: &'r R,
        deadline: Instant,
    ) -> Option<TitledRwLockReadGuard<'a, 'r, 'l, T, R>>
        ensures { IfSome result (λ guard. titled_read_lock_of guard ≡ self.now) }
    {
        self.read_at_most(rt, Some(deadline))
    }

    /// Locks for writing, and waits while other threads have the lock.
    ///
    /// A thread that already has the lock waits for ever.
    #[inline]
    pub fn write<'a, 'r, R: Wait + Clock>(
        &'a self,
        rt: &'r R,
    ) -> TitledRwLockWriteGuard<'a, 'r, 'l, T, R>
        ensures { titled_write_lock_of result ≡ self.now }
    {
        match self.write_at_most(rt, None) {
            Some(guard) => guard,
            None => unreachable!(),
        }
    }

    /// Locks for writing if nobody has the lock and no other writer is about to have it; otherwise
    /// returns `None` at once.
    ///
    /// If it fails, it may wake a writer, in a critical section of a key.
    pub fn try_write<'a, 'r, R: Wait>(
        &'a self,
        rt: &'r R,
    ) -> Option<TitledRwLockWriteGuard<'a, 'r, 'l, T, R>>
        ensures { IfSome result (λ guard. titled_write_lock_of guard ≡ self.now) }
    {
        let held = self.value.try_write()?;
        match self.writing.lead() {
            Some(leader) => Some(self.write_guard(rt, held, leader)),
            None => {
                drop(held);
                self.tell_leader(rt);
                None
            }
        }
    }

    /// Locks for writing as `write` does, but returns `None` if it cannot do so within the
    /// duration.
    pub fn write_for<'a, 'r, R: Wait + Clock>(
        &'a self,
        rt: &'r R,
        duration: Duration,
    ) -> Option<TitledRwLockWriteGuard<'a, 'r, 'l, T, R>>
        ensures { IfSome result (λ guard. titled_write_lock_of guard ≡ self.now) }
    {
        match instant_after(rt, duration) {
            Ok(deadline) => self.write_at_most(rt, deadline),
            Err(_) => self.try_write(rt),
        }
    }

    /// Locks for writing as `write` does, but returns `None` if it cannot do so before the
    /// deadline.
    pub fn write_until<'a, 'r, R: Wait + Clock>(
        &'a self,
        rt: &'r R,
        deadline: Instant,
    ) -> Option<TitledRwLockWriteGuard<'a, 'r, 'l, T, R>>
        ensures { IfSome result (λ guard. titled_write_lock_of guard ≡ self.now) }
    {
        self.write_at_most(rt, Some(deadline))
    }

    /// Returns a mutable reference to the value.
    ///
    /// No lock is needed, because the caller borrows the whole lock.
    pub fn get_mut(&mut self) -> &mut T {
        self.value.get_mut()
    }

    /// Returns the value, and ends the lock.
    pub fn into_inner(self) -> T {
        self.value.into_inner()
    }

    #[cold]
    #[inline(never)]
    fn wait_to_read<'a, 'r, R: Wait + Clock>(
        &'a self,
        rt: &'r R,
    ) -> TitledRwLockReadGuard<'a, 'r, 'l, T, R>
        ensures { titled_read_lock_of result ≡ self.now }
    {
        match self.read_at_most(rt, None) {
            Some(guard) => guard,
            None => unreachable!(),
        }
    }

    fn read_at_most<'a, 'r, R: Wait + Clock>(
        &'a self,
        rt: &'r R,
        deadline: Option<Instant>,
    ) -> Option<TitledRwLockReadGuard<'a, 'r, 'l, T, R>>
        ensures some { deadline ≡ None → IsSome result }
        ensures lock { IfSome result (λ guard. titled_read_lock_of guard ≡ self.now) }
    {
        for _ in rt.forever() {
            if let Some(guard) = self.try_read(rt) {
                return Some(guard);
            }
            let phase = self.writing.phase();
            if !is_open(phase) {
                self.writing.wait_until(rt, phase, deadline)?.leave();
            } else if is_past(rt, deadline) {
                return None;
            } else {
                thread_yield();
            }
        }
        unreachable!()
    }

    #[inline]
    fn write_at_most<'a, 'r, R: Wait + Clock>(
        &'a self,
        rt: &'r R,
        deadline: Option<Instant>,
    ) -> Option<TitledRwLockWriteGuard<'a, 'r, 'l, T, R>>
        ensures some { deadline ≡ None → IsSome result }
        ensures lock { IfSome result (λ guard. titled_write_lock_of guard ≡ self.now) }
    {
        let leader = match self.writing.lead() {
            Some(leader) => leader,
            None => self.wait_to_lead(rt, deadline)?,
        };
        match self.drain(rt, deadline) {
            Some(held) => Some(self.write_guard(rt, held, leader)),
            None => {
                self.writing.finish(rt, leader);
                None
            }
        }
    }

    // Begins to lead once no other thread does.
    #[cold]
    #[inline(never)]
    fn wait_to_lead<R: Wait + Clock>(
        &self,
        rt: &R,
        deadline: Option<Instant>,
    ) -> Option<Hand<QueueTitle>>
        ensures leads { IfSome result (LeadsIn self.now.writing) }
        ensures patient { deadline ≡ None → IsSome result }
    {
        let _turn = self.take_turn(rt, deadline)?;
        for _ in rt.forever() {
            if let Some(leader) = self.writing.lead() {
                return Some(leader);
            }
            let phase = self.writing.phase();
            if !is_open(phase) {
                self.writing.wait_until(rt, phase, deadline)?.leave();
            }
        }
        unreachable!()
    }

    fn take_turn<'a, 'r, R: Wait + Clock>(
        &'a self,
        rt: &'r R,
        deadline: Option<Instant>,
    ) -> Option<TitledSemaphorePermit<'a, 'r, 'l, R>>
        ensures { deadline ≡ None → IsSome result }
    {
        match deadline {
            Some(deadline) => self.turn.acquire_until(rt, deadline),
            None => Some(self.turn.acquire(rt)),
        }
    }

    // Takes the value once no other thread has it. The thread leads, so no others come.
    #[inline]
    fn drain<R: Wait + Clock>(
        &self,
        rt: &R,
        deadline: Option<Instant>,
    ) -> Option<sync::RwLockWriteGuard<'_, T>>
        ensures { deadline ≡ None → IsSome result }
    {
        for _ in rt.forever() {
            let phase = self.leaving.phase();
            if let Some(held) = self.value.try_write() {
                return Some(held);
            }
            self.leaving.wait_until(rt, phase, deadline)?.leave();
        }
        unreachable!()
    }

    // Tells the thread that leads, if one does, that this one has released the value.
    #[inline]
    fn tell_leader<R: Wait>(&self, rt: &R) {
        if !is_open(self.writing.phase()) {
            self.end_leaving(rt);
        }
    }

    #[cold]
    #[inline(never)]
    fn end_leaving<R: Wait>(&self, rt: &R) {
        self.leaving.advance(rt, self.leaving.phase());
    }

    #[inline]
    fn read_guard<'a, 'r, R: Wait>(
        &'a self,
        rt: &'r R,
        held: sync::RwLockReadGuard<'a, T>,
    ) -> TitledRwLockReadGuard<'a, 'r, 'l, T, R>
        ensures { titled_read_lock_of result ≡ self.now }
    {
        Guard::new(held, TitledReadLocked { lock: self, rt })
    }

    #[inline]
    fn write_guard<'a, 'r, R: Wait>(
        &'a self,
        rt: &'r R,
        held: sync::RwLockWriteGuard<'a, T>,
        leader: Hand<QueueTitle>,
    ) -> TitledRwLockWriteGuard<'a, 'r, 'l, T, R>
        requires { LeadsIn self.now.writing leader }
        ensures { titled_write_lock_of result ≡ self.now }
    {
        let locked = TitledWriteLocked {
            lock: self,
            rt,
            leader,
        };
        Guard::new(held, locked)
    }
}

impl<'a, 'r, 'l, T, R: Wait> TitledRwLockReadGuard<'a, 'r, 'l, T, R> {
    ghost use Rattle.parking_lot.specs.RwLockGuards.{titled_read_lock_of};

    /// Returns the lock that the guard reads.
    pub fn rwlock(guard: &Self) -> &'a TitledRwLock<'l, T>
        ensures { result.now ≡ titled_read_lock_of guard.now }
    {
        guard.lock().lock
    }
}

impl<'a, 'r, 'l, T, R: Wait> TitledRwLockWriteGuard<'a, 'r, 'l, T, R> {
    ghost use Rattle.parking_lot.specs.RwLockGuards.{titled_read_lock_of, titled_write_lock_of};

    /// Returns the lock that the guard writes.
    pub fn rwlock(guard: &Self) -> &'a TitledRwLock<'l, T>
        ensures { result.now ≡ titled_write_lock_of guard.now }
    {
        guard.lock().lock
    }

    /// Exchanges the write for a read, so that nobody writes in between.
    ///
    /// Readers that wait are let in. It may wait for a moment, until another thread that tries to
    /// write sees that it cannot.
    pub fn downgrade(guard: Self) -> TitledRwLockReadGuard<'a, 'r, 'l, T, R>
        ensures { titled_read_lock_of result ≡ titled_write_lock_of guard.entry }
    {
        let (held, TitledWriteLocked { lock, rt, leader }) = guard.into_parts();
        drop(held);
        for _ in rt.forever() {
            if let Some(held) = lock.value.try_read() {
                lock.writing.finish(rt, leader);
                return lock.read_guard(rt, held);
            }
            thread_yield();
        }
        unreachable!()
    }
}

impl<T> Debug for TitledRwLock<'_, T> {
    fn fmt<W: fmt::Write>(&self, f: &mut Formatter<W>) -> fmt::Result {
        f.debug_struct("TitledRwLock").finish_non_exhaustive()
    }
}
