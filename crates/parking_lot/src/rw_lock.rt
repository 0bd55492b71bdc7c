//! This module has a lock that many threads may read at once, or one may write.
//!
//! # The protocol
//!
//! `value` is a std lock, of which only `try_read` and `try_write` are called. `upgradable` is a
//! mutex; the thread that has it reads and may upgrade. `state` has five bits and a count:
//!
//! - `PARKED`: threads may be parked on the key.
//! - `WRITER`: a writer is parked there, or was woken and has not had the lock since. Readers that
//!   arrive stay out.
//! - `UPGRADING`: the thread with `upgradable` exchanges its read for a write. Readers stay out,
//!   and a writer that gets the lock releases it again.
//! - `DRAINS`: the thread that upgrades is parked on the key `drain`.
//! - `DOWNGRADING`: a writer exchanges its write for a read. A writer or an upgrade that gets the
//!   lock releases it again.
//! - The count is the number of threads for which the lock is reserved. A fair unlock woke them,
//!   and they have not had the lock since. A writer that arrives stays out, or releases the lock
//!   again.
//!
//! The steps:
//!
//! - A thread that cannot have the lock spins for a while and parks. In the critical section of the
//!   key it sets its bits and **then** tries once more. It stays in the list only if that try
//!   fails. A thread that was woken tries whatever the count says, and a woken reader whatever the
//!   bits say.
//! - A writer looks at `state` before its try and again **after** it. The upgrade and the downgrade
//!   set their bit before they drop their guard, and clear it when they have the other one. So
//!   nobody writes in between.
//! - A thread that stops reading looks at `state` **after** that. During an upgrade it wakes the
//!   one that drains, otherwise the first writer of the list.
//! - A thread that stops writing looks at `state` **after** that. During an upgrade it wakes the
//!   one that drains. Otherwise it wakes the first of the list if that is a writer, or else the
//!   readers up to the first writer.
//! - A fair unlock looks at `state` first. If threads are parked and nobody upgrades, it takes off
//!   the list those whom an unlock would wake, and in that section it adds them to the count and
//!   releases the lock. **Then** it wakes the one that drains. The threads that it woke are told so
//!   by their token. Each takes itself off the count when it has the lock or gives up. One that
//!   gives up then wakes others as a thread that stops writing does.
//! - A thread that goes on reading where others were kept out wakes the readers up to the first
//!   writer. That is a downgrade, or an upgrade that gives up. A writer that gives up does the
//!   same.
//! - `PARKED` and `WRITER` are cleared in sections that leave nobody in the list, `WRITER` only if
//!   no writer was woken there.
//!
//! No thread is forgotten. A writer stays in the list only if a try failed after it had set its
//! bits, if an exchange of guards was under way, or if the lock was reserved. The thread that had
//! the lock then, or has it after the exchange, or has it reserved, releases it later or gives up.
//! It sees `PARKED`, and wakes the first writer if the readers in front of it are not woken. A
//! reader stays in the list only if a writer is in it or was woken, if a thread writes, or if an
//! upgrade is under way. Each of these writes and releases the lock later, or gives up, and then
//! wakes the readers in front of the first writer.
//!
//! Nobody waits for `value` with `upgradable` locked, except the upgrade. So a writer may wait for
//! `upgradable`. All accesses are `SeqCst`.

ghost use Rattle.std.specs.Prelude.{◌≡◌, None, IfSome, IsSome};
ghost use Rattle.parking_lot.specs.Guards.{mutex_of};
ghost use Rattle.parking_lot.specs.RwLockGuards.{read_lock_of, upgradable_lock_of, write_lock_of};

mod exchange;
mod guards;
mod waiting;
mod waking;

use crate::lot::{Lot, instant_after};
use crate::mutex::{Mutex, MutexGuard};
pub use guards::{
    ReadLocked, RwLockReadGuard, RwLockUpgradableReadGuard, RwLockWriteGuard, UpgradableLocked,
    WriteLocked,
};
use lot_threads::NoMemory;
use std::fmt::{Debug, Formatter};
use std::sync::Wait;
use std::sync::atomic::{AtomicUsize, Ordering};
use std::time::{Clock, Duration, Instant};
use std::{fmt, sync};
use waiting::{Reader, Turn, Writer};

const PARKED: usize = 1;

const WRITER: usize = 2;

const UPGRADING: usize = 4;

const DRAINS: usize = 8;

const DOWNGRADING: usize = 16;

// The count goes up and down by it.
const KEPT_ONCE: usize = 32;

// The bits of the count.
const KEPT: usize = !(KEPT_ONCE - 1);

/// An `RwLock` protects a value that many threads may read at once, or one may write.
///
/// ```
/// /// Notes a number, and tells the greatest so far. Others may read as soon as it is noted.
/// pub fn note<R: Wait + Clock>(rt: &R, greatest: &RwLock<'_, u32>, number: u32) -> u32 {
///     let mut writing = greatest.write(rt);
///     *writing = number.max(*writing);
///     let reading = RwLockWriteGuard::downgrade(writing);
///     *reading
/// }
/// ```
///
/// While a writer waits, new readers wait behind it. So a thread that already reads must not call
/// `read` again; it calls `read_recursive`. A writer that arrives may get the lock before a thread
/// that was just woken, unless that thread was woken by the `unlock_fair` of a guard.
///
/// There is a third way to hold the lock: an upgradable read. One thread at a time has it, beside
/// other readers, and can go on to write, with nobody having written in between.
#[derive(Drop)]
pub struct RwLock<'l, T> {
    lot: &'l Lot,
    key: usize,
    drain: usize,
    state: AtomicUsize,
    upgradable: Mutex<'l, ()>,
    value: sync::RwLock<T>,
}

impl<'l, T> RwLock<'l, T> {
    /// Creates a lock that nobody holds, around the given value.
    ///
    /// # Errors
    ///
    /// Returns `NoMemory` if there is not enough memory. This version allocates nothing.
    pub fn new(lot: &'l Lot, value: T) -> Result<RwLock<'l, T>, NoMemory>
    where
        T: Drop,
    {
        Ok(RwLock {
            lot,
            key: lot.key(),
            drain: lot.key(),
            state: AtomicUsize::new(0),
            upgradable: Mutex::new(lot, ())?,
            value: sync::RwLock::new(value),
        })
    }

    /// Locks for reading, and waits while another thread writes or waits to write.
    ///
    /// A thread that already has the lock may wait for ever; if it reads, `read_recursive` is the
    /// call to make.
    #[inline]
    pub fn read<'a, 'r, R: Wait + Clock>(&'a self, rt: &'r R) -> RwLockReadGuard<'a, 'r, 'l, T, R>
        ensures { read_lock_of result ≡ self.now }
    {
        self.read_guard(rt, self.take(rt, Reader::Comes))
    }

    /// Locks for reading if `read` would not wait; otherwise returns `None` at once.
    #[inline]
    pub fn try_read<'a, 'r, R: Wait>(
        &'a self,
        rt: &'r R,
    ) -> Option<RwLockReadGuard<'a, 'r, 'l, T, R>>
        ensures { IfSome result (λ guard. read_lock_of guard ≡ self.now) }
    {
        let held = self.try_take(rt, Reader::Comes, Turn::Comes)?;
        Some(self.read_guard(rt, held))
    }

    /// Locks for reading as `read` does, but returns `None` if it cannot do so within the duration.
    pub fn read_for<'a, 'r, R: Wait + Clock>(
        &'a self,
        rt: &'r R,
        duration: Duration,
    ) -> Option<RwLockReadGuard<'a, 'r, 'l, T, R>>
        ensures { IfSome result (λ guard. read_lock_of guard ≡ self.now) }
    {
        let held = self.take_for(rt, Reader::Comes, duration)?;
        Some(self.read_guard(rt, held))
    }

    /// Locks for reading as `read` does, but returns `None` if it cannot do so before the deadline.
    pub fn read_until<'a, 'r, R: Wait + Clock>(
        &'a self,
        rt: &'r R,
        deadline: Instant,
    ) -> Option<RwLockReadGuard<'a, 'r, 'l, T, R>>
        ensures { IfSome result (λ guard. read_lock_of guard ≡ self.now) }
    {
        let held = self.take_until(rt, Reader::Comes, Some(deadline))?;
        Some(self.read_guard(rt, held))
    }

    /// Locks for reading, and waits only while another thread writes.
    ///
    /// So a thread that already reads does not wait. Many readers of this kind can keep a writer
    /// out for long.
    #[inline]
    pub fn read_recursive<'a, 'r, R: Wait + Clock>(
        &'a self,
        rt: &'r R,
    ) -> RwLockReadGuard<'a, 'r, 'l, T, R>
        ensures { read_lock_of result ≡ self.now }
    {
        self.read_guard(rt, self.take(rt, Reader::Recurs))
    }

    /// Locks for reading if nobody writes; otherwise returns `None` at once.
    #[inline]
    pub fn try_read_recursive<'a, 'r, R: Wait>(
        &'a self,
        rt: &'r R,
    ) -> Option<RwLockReadGuard<'a, 'r, 'l, T, R>>
        ensures { IfSome result (λ guard. read_lock_of guard ≡ self.now) }
    {
        let held = self.try_take(rt, Reader::Recurs, Turn::Comes)?;
        Some(self.read_guard(rt, held))
    }

    /// Locks for reading as `read_recursive` does, but returns `None` if it cannot do so within the
    /// duration.
    pub fn read_recursive_for<'a, 'r, R: Wait + Clock>(
        &'a self,
        rt: &'r R,
        duration: Duration,
    ) -> Option<RwLockReadGuard<'a, 'r, 'l, T, R>>
        ensures { IfSome result (λ guard. read_lock_of guard ≡ self.now) }
    {
        let held = self.take_for(rt, Reader::Recurs, duration)?;
        Some(self.read_guard(rt, held))
    }

    /// Locks for reading as `read_recursive` does, but returns `None` if it cannot do so before the
    /// deadline.
    pub fn read_recursive_until<'a, 'r, R: Wait + Clock>(
        &'a self,
        rt: &'r R,
        deadline: Instant,
    ) -> Option<RwLockReadGuard<'a, 'r, 'l, T, R>>
        ensures { IfSome result (λ guard. read_lock_of guard ≡ self.now) }
    {
        let held = self.take_until(rt, Reader::Recurs, Some(deadline))?;
        Some(self.read_guard(rt, held))
    }

    /// Locks for writing, and waits while other threads have the lock.
    ///
    /// A thread that already has the lock waits for ever.
    #[inline]
    pub fn write<'a, 'r, R: Wait + Clock>(&'a self, rt: &'r R) -> RwLockWriteGuard<'a, 'r, 'l, T, R>
        ensures { write_lock_of result ≡ self.now }
    {
        self.write_guard(rt, self.take(rt, Writer::Comes))
    }

    /// Locks for writing if nobody has the lock and it is reserved for nobody; otherwise returns
    /// `None` at once.
    ///
    /// While another thread upgrades or downgrades, that thread has the lock.
    #[inline]
    pub fn try_write<'a, 'r, R: Wait>(
        &'a self,
        rt: &'r R,
    ) -> Option<RwLockWriteGuard<'a, 'r, 'l, T, R>>
        ensures { IfSome result (λ guard. write_lock_of guard ≡ self.now) }
    {
        let held = self.try_take(rt, Writer::Comes, Turn::Comes)?;
        Some(self.write_guard(rt, held))
    }

    /// Locks for writing as `write` does, but returns `None` if it cannot do so within the
    /// duration.
    pub fn write_for<'a, 'r, R: Wait + Clock>(
        &'a self,
        rt: &'r R,
        duration: Duration,
    ) -> Option<RwLockWriteGuard<'a, 'r, 'l, T, R>>
        ensures { IfSome result (λ guard. write_lock_of guard ≡ self.now) }
    {
        let held = self.take_for(rt, Writer::Comes, duration)?;
        Some(self.write_guard(rt, held))
    }

    /// Locks for writing as `write` does, but returns `None` if it cannot do so before the
    /// deadline.
    pub fn write_until<'a, 'r, R: Wait + Clock>(
        &'a self,
        rt: &'r R,
        deadline: Instant,
    ) -> Option<RwLockWriteGuard<'a, 'r, 'l, T, R>>
        ensures { IfSome result (λ guard. write_lock_of guard ≡ self.now) }
    {
        let held = self.take_until(rt, Writer::Comes, Some(deadline))?;
        Some(self.write_guard(rt, held))
    }

    /// Locks for reading with the right to upgrade, and waits while another thread has that right,
    /// writes, or waits to write.
    ///
    /// A thread that already has the lock may wait for ever.
    pub fn upgradable_read<'a, 'r, R: Wait + Clock>(
        &'a self,
        rt: &'r R,
    ) -> RwLockUpgradableReadGuard<'a, 'r, 'l, T, R>
        ensures { upgradable_lock_of result ≡ self.now }
    {
        self.upgradable_read_at_most(rt, None).unwrap()
    }

    /// Locks for reading with the right to upgrade if `upgradable_read` would not wait; otherwise
    /// returns `None` at once.
    pub fn try_upgradable_read<'a, 'r, R: Wait>(
        &'a self,
        rt: &'r R,
    ) -> Option<RwLockUpgradableReadGuard<'a, 'r, 'l, T, R>>
        ensures { IfSome result (λ guard. upgradable_lock_of guard ≡ self.now) }
    {
        let upgradable = self.upgradable.try_lock(rt)?;
        let held = self.try_take(rt, Reader::Comes, Turn::Comes)?;
        Some(self.upgradable_guard(rt, held, upgradable))
    }

    /// Locks as `upgradable_read` does, but returns `None` if it cannot do so within the duration.
    pub fn upgradable_read_for<'a, 'r, R: Wait + Clock>(
        &'a self,
        rt: &'r R,
        duration: Duration,
    ) -> Option<RwLockUpgradableReadGuard<'a, 'r, 'l, T, R>>
        ensures { IfSome result (λ guard. upgradable_lock_of guard ≡ self.now) }
    {
        match self.try_upgradable_read(rt) {
            Some(guard) => Some(guard),
            None => self.upgradable_read_at_most(rt, instant_after(rt, duration).ok()?),
        }
    }

    /// Locks as `upgradable_read` does, but returns `None` if it cannot do so before the deadline.
    pub fn upgradable_read_until<'a, 'r, R: Wait + Clock>(
        &'a self,
        rt: &'r R,
        deadline: Instant,
    ) -> Option<RwLockUpgradableReadGuard<'a, 'r, 'l, T, R>>
        ensures { IfSome result (λ guard. upgradable_lock_of guard ≡ self.now) }
    {
        self.upgradable_read_at_most(rt, Some(deadline))
    }

    /// Returns whether a thread has the lock, or it is reserved for one.
    ///
    /// It finds out by locking for writing for a moment. A thread that tries in that moment may
    /// find the lock locked.
    pub fn is_locked<R: Wait>(&self, rt: &R) -> bool {
        self.try_write(rt).is_none()
    }

    /// Returns whether a thread writes.
    ///
    /// It finds out by locking for reading for a moment. A thread that tries to write in that
    /// moment may find the lock locked.
    pub fn is_locked_exclusive<R: Wait>(&self, rt: &R) -> bool {
        self.try_read_recursive(rt).is_none()
    }

    /// Returns a mutable reference to the value.
    ///
    /// No lock is needed, because the caller borrows the whole lock.
    pub fn get_mut(&mut self) -> &mut T {
        self.value.get_mut()
    }

    /// Returns the value, and ends the lock.
    pub fn into_inner(self) -> T {
        self.value.into_inner()
    }

    // Whoever waits here for readers to be let in does not have `upgradable` locked.
    fn upgradable_read_at_most<'a, 'r, R: Wait + Clock>(
        &'a self,
        rt: &'r R,
        deadline: Option<Instant>,
    ) -> Option<RwLockUpgradableReadGuard<'a, 'r, 'l, T, R>>
        ensures some { deadline ≡ None → IsSome result }
        ensures lock { IfSome result (λ guard. upgradable_lock_of guard ≡ self.now) }
    {
        for _ in rt.forever() {
            let upgradable = self.lock_upgradable(rt, deadline)?;
            if let Some(held) = self.try_take(rt, Reader::Comes, Turn::Comes) {
                return Some(self.upgradable_guard(rt, held, upgradable));
            }
            drop(upgradable);
            let held = self.take_until(rt, Reader::Comes, deadline)?;
            if let Some(upgradable) = self.upgradable.try_lock(rt) {
                return Some(self.upgradable_guard(rt, held, upgradable));
            }
            drop(self.read_guard(rt, held));
        }
        unreachable!()
    }

    fn lock_upgradable<'a, 'r, R: Wait + Clock>(
        &'a self,
        rt: &'r R,
        deadline: Option<Instant>,
    ) -> Option<MutexGuard<'a, 'r, 'l, (), R>>
        ensures some { deadline ≡ None → IsSome result }
        ensures right { IfSome result (λ right. mutex_of right ≡ self.now.upgradable) }
    {
        match deadline {
            Some(deadline) => self.upgradable.lock_until(rt, deadline),
            None => Some(self.upgradable.lock(rt)),
        }
    }

    // Whether one of these bits is up.
    #[inline]
    fn has(&self, bits: usize) -> bool {
        self.state.load(Ordering::SeqCst) & bits != 0
    }
}

impl<T> Debug for RwLock<'_, T> {
    fn fmt<W: fmt::Write>(&self, f: &mut Formatter<W>) -> fmt::Result {
        f.debug_struct("RwLock").finish_non_exhaustive()
    }
}
