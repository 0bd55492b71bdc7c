//! This module has the three guards of `RwLock`.

ghost use Rattle.std.specs.Prelude.{◌≡◌};
ghost use Rattle.parking_lot.specs.Guards.{held_by, mutex_of};

use super::waking::Front;
use super::{DRAINS, PARKED, RwLock};
use crate::guard::{Guard, Release};
use crate::mutex::MutexGuard;
use std::sync;
use std::sync::Wait;
use std::time::Clock;

/// An `RwLockReadGuard` gives shared access to the value of an `RwLock`, and releases the lock when
/// it is dropped.
///
/// The drop is one exchange, and one `unpark_chosen` if threads are parked.
pub type RwLockReadGuard<'a, 'r, 'l, T, R> = Guard<
    sync::RwLockReadGuard<'a, T>,
    ReadLocked<'a, 'r, 'l, T, R>,
>;

/// An `RwLockUpgradableReadGuard` gives shared access to the value of an `RwLock`, with the right
/// to upgrade to a write.
///
/// One thread at a time has such a guard. Its drop costs as much as that of a read guard and of a
/// mutex guard.
pub type RwLockUpgradableReadGuard<'a, 'r, 'l, T, R> = Guard<
    sync::RwLockReadGuard<'a, T>,
    UpgradableLocked<'a, 'r, 'l, T, R>,
>;

/// An `RwLockWriteGuard` gives exclusive access to the value of an `RwLock`, and releases the lock
/// when it is dropped.
///
/// The drop is one exchange, and one `unpark_chosen` if threads are parked.
pub type RwLockWriteGuard<'a, 'r, 'l, T, R> = Guard<
    sync::RwLockWriteGuard<'a, T>,
    WriteLocked<'a, 'r, 'l, T, R>,
>;

/// `ReadLocked` is what a read guard remembers: its lock, and the runtime with which it wakes
/// others.
#[derive(Drop)]
pub struct ReadLocked<'a, 'r, 'l, T, R: Wait> {
    pub(super) lock: &'a RwLock<'l, T>,
    pub(super) rt: &'r R,
}

/// `UpgradableLocked` is what an upgradable guard remembers: its lock, the right to upgrade, and
/// the runtime with which it wakes others.
#[derive(Drop)]
pub struct UpgradableLocked<'a, 'r, 'l, T, R: Wait> {
    pub(super) lock: &'a RwLock<'l, T>,
    pub(super) upgradable: MutexGuard<'a, 'r, 'l, (), R>,
    pub(super) rt: &'r R,
    ghost right: { mutex_of upgradable ≡ lock.now.upgradable },
}

/// `WriteLocked` is what a write guard remembers: its lock, and the runtime with which it wakes
/// others.
#[derive(Drop)]
pub struct WriteLocked<'a, 'r, 'l, T, R: Wait> {
    pub(super) lock: &'a RwLock<'l, T>,
    pub(super) rt: &'r R,
}

impl<T, R: Wait> Release<sync::RwLockReadGuard<'_, T>> for ReadLocked<'_, '_, '_, T, R> {
    #[inline]
    fn release(self, held: sync::RwLockReadGuard<'_, T>) {
        drop(held);
        self.lock.wake(self.rt, Front::FewerReaders);
    }
}

impl<T, R: Wait> Release<sync::RwLockReadGuard<'_, T>> for UpgradableLocked<'_, '_, '_, T, R> {
    fn release(self, held: sync::RwLockReadGuard<'_, T>) {
        drop(held);
        self.lock.wake(self.rt, Front::FewerReaders);
        drop(self.upgradable);
    }
}

impl<T, R: Wait> Release<sync::RwLockWriteGuard<'_, T>> for WriteLocked<'_, '_, '_, T, R> {
    #[inline]
    fn release(self, held: sync::RwLockWriteGuard<'_, T>) {
        drop(held);
        self.lock.wake(self.rt, Front::Nobody);
    }
}

impl<'a, 'r, 'l, T, R: Wait> RwLockReadGuard<'a, 'r, 'l, T, R> {
    ghost use Rattle.parking_lot.specs.RwLockGuards.{read_lock_of};

    /// Returns the lock that the guard reads.
    pub fn rwlock(guard: &Self) -> &'a RwLock<'l, T>
        ensures { result.now ≡ read_lock_of guard.now }
    {
        guard.lock().lock
    }

    /// Releases the lock, and reserves it for the writer that has waited longest, if one waits.
    ///
    /// That thread writes when the other readers have released the lock.
    pub fn unlock_fair(guard: Self) {
        let (held, ReadLocked { lock, rt }) = guard.into_parts();
        lock.release_fair(rt, held, Front::FewerReaders);
    }

    /// Lets threads that wait for the lock have it, and then locks for reading again.
    ///
    /// If nobody waits it does nothing.
    pub fn bump(guard: Self) -> Self
    where
        R: Clock,
        ensures { read_lock_of result ≡ read_lock_of guard.entry }
    {
        let ReadLocked { lock, rt } = *guard.lock();
        if !lock.has(PARKED | DRAINS) {
            return guard;
        }
        Self::unlock_fair(guard);
        lock.read(rt)
    }

    /// Releases the lock, calls the closure, locks for reading again, and returns the new guard
    /// with what the closure returned.
    pub fn unlocked<A, C: FnOnce() -> A>(guard: Self, call: C) -> (Self, A)
    where
        R: Clock,
        requires { C.pre call }
        ensures lock { read_lock_of result.0 ≡ read_lock_of guard.entry }
        ensures called { C.post call result.1 }
    {
        let ReadLocked { lock, rt } = *guard.lock();
        drop(guard);
        let answer = call();
        (lock.read(rt), answer)
    }
}

impl<'a, 'r, 'l, T, R: Wait> RwLockUpgradableReadGuard<'a, 'r, 'l, T, R> {
    ghost use Rattle.parking_lot.specs.RwLockGuards.{upgradable_lock_of};

    /// Returns the lock that the guard reads.
    pub fn rwlock(guard: &Self) -> &'a RwLock<'l, T>
        ensures { result.now ≡ upgradable_lock_of guard.now }
    {
        guard.lock().lock
    }

    /// Releases the lock, and reserves it for the writer that has waited longest, if one waits.
    ///
    /// The right to upgrade is reserved for the thread that has waited longest for it.
    pub fn unlock_fair(guard: Self) {
        let (held, locked) = guard.into_parts();
        locked
            .lock
            .release_fair(locked.rt, held, Front::FewerReaders);
        MutexGuard::unlock_fair(locked.upgradable);
    }

    /// Lets threads that wait for the lock have it, and then locks for reading with the right to
    /// upgrade again.
    ///
    /// If nobody waits it does nothing.
    pub fn bump(guard: Self) -> Self
    where
        R: Clock,
        ensures { upgradable_lock_of result ≡ upgradable_lock_of guard.entry }
    {
        let lock = guard.lock().lock;
        let rt = guard.lock().rt;
        if !lock.has(PARKED) && !lock.upgradable.is_waited_for() {
            return guard;
        }
        Self::unlock_fair(guard);
        lock.upgradable_read(rt)
    }

    /// Releases the lock, calls the closure, locks for reading with the right to upgrade again, and
    /// returns the new guard with what the closure returned.
    pub fn unlocked<A, C: FnOnce() -> A>(guard: Self, call: C) -> (Self, A)
    where
        R: Clock,
        requires { C.pre call }
        ensures lock { upgradable_lock_of result.0 ≡ upgradable_lock_of guard.entry }
        ensures called { C.post call result.1 }
    {
        let lock = guard.lock().lock;
        let rt = guard.lock().rt;
        drop(guard);
        let answer = call();
        (lock.upgradable_read(rt), answer)
    }
}

impl<'a, 'r, 'l, T, R: Wait> RwLockWriteGuard<'a, 'r, 'l, T, R> {
    ghost use Rattle.parking_lot.specs.RwLockGuards.{write_lock_of};

    /// Returns the lock that the guard writes.
    pub fn rwlock(guard: &Self) -> &'a RwLock<'l, T>
        ensures { result.now ≡ write_lock_of guard.now }
    {
        guard.lock().lock
    }

    /// Releases the lock, and reserves it for the thread that has waited longest, if one waits.
    ///
    /// If that thread reads, the lock is reserved for all readers in front of the first writer. A
    /// writer that arrives meanwhile does not get the lock before them.
    pub fn unlock_fair(guard: Self) {
        let (held, WriteLocked { lock, rt }) = guard.into_parts();
        lock.release_fair(rt, held, Front::Nobody);
    }

    /// Lets threads that wait for the lock have it, and then locks for writing again.
    ///
    /// If nobody waits it does nothing.
    pub fn bump(guard: Self) -> Self
    where
        R: Clock,
        ensures { write_lock_of result ≡ write_lock_of guard.entry }
    {
        let WriteLocked { lock, rt } = *guard.lock();
        if !lock.has(PARKED) {
            return guard;
        }
        Self::unlock_fair(guard);
        lock.write(rt)
    }

    /// Releases the lock, calls the closure, locks for writing again, and returns the new guard
    /// with what the closure returned.
    pub fn unlocked<A, C: FnOnce() -> A>(guard: Self, call: C) -> (Self, A)
    where
        R: Clock,
        requires { C.pre call }
        ensures lock { write_lock_of result.0 ≡ write_lock_of guard.entry }
        ensures called { C.post call result.1 }
    {
        let WriteLocked { lock, rt } = *guard.lock();
        drop(guard);
        let answer = call();
        (lock.write(rt), answer)
    }
}

impl<'l, T> RwLock<'l, T> {
    ghost use Rattle.parking_lot.specs.RwLockGuards.{read_lock_of, upgradable_lock_of, write_lock_of};

    #[inline]
    pub(super) fn read_guard<'a, 'r, R: Wait>(
        &'a self,
        rt: &'r R,
        held: sync::RwLockReadGuard<'a, T>,
    ) -> RwLockReadGuard<'a, 'r, 'l, T, R>
        ensures lock { read_lock_of result ≡ self.now }
        ensures held { held_by result ≡ held.entry }
    {
        Guard::new(held, ReadLocked { lock: self, rt })
    }

    pub(super) fn upgradable_guard<'a, 'r, R: Wait>(
        &'a self,
        rt: &'r R,
        held: sync::RwLockReadGuard<'a, T>,
        upgradable: MutexGuard<'a, 'r, 'l, (), R>,
    ) -> RwLockUpgradableReadGuard<'a, 'r, 'l, T, R>
        requires { mutex_of upgradable ≡ self.now.upgradable }
        ensures { upgradable_lock_of result ≡ self.now }
    {
        let locked = UpgradableLocked {
            lock: self,
            upgradable,
            rt,
        };
        Guard::new(held, locked)
    }

    #[inline]
    pub(super) fn write_guard<'a, 'r, R: Wait>(
        &'a self,
        rt: &'r R,
        held: sync::RwLockWriteGuard<'a, T>,
    ) -> RwLockWriteGuard<'a, 'r, 'l, T, R>
        ensures { write_lock_of result ≡ self.now }
    {
        Guard::new(held, WriteLocked { lock: self, rt })
    }
}
