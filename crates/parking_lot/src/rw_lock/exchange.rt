//! This module exchanges one kind of guard for another, so that nobody writes in between.

ghost use Rattle.std.specs.Prelude.{◌≡◌, None, IfErr, IfOk, IsOk, IsSome};
ghost use Rattle.parking_lot.specs.Guards.{held_by};
ghost use Rattle.parking_lot.specs.RwLockGuards.{read_lock_of, upgradable_lock_of, write_lock_of};

use super::waiting::{Turn, Writer};
use super::waking::Front;
use super::{
    DOWNGRADING, DRAINS, RwLock, RwLockReadGuard, RwLockUpgradableReadGuard, RwLockWriteGuard,
    UPGRADING, UpgradableLocked, WriteLocked,
};
use crate::guard::Guard;
use crate::lot::instant_after;
use lot_threads::thread_yield;
use std::sync;
use std::sync::Wait;
use std::sync::atomic::Ordering;
use std::time::{Clock, Duration, Instant};

impl<'a, 'r, 'l, T, R: Wait> RwLockWriteGuard<'a, 'r, 'l, T, R> {
    /// Exchanges the write for a read, so that nobody writes in between.
    ///
    /// Readers that wait are let in.
    pub fn downgrade(guard: Self) -> RwLockReadGuard<'a, 'r, 'l, T, R>
        ensures { read_lock_of result ≡ write_lock_of guard.entry }
    {
        let (held, WriteLocked { lock, rt }) = guard.into_parts();
        let held = lock.read_after_write(rt, held);
        lock.read_guard(rt, held)
    }

    /// Exchanges the write for a read with the right to upgrade, so that nobody writes in between.
    ///
    /// Readers that wait are let in. It may wait for a moment, until another thread that tries for
    /// an upgradable read sees that it cannot read yet.
    pub fn downgrade_to_upgradable(guard: Self) -> RwLockUpgradableReadGuard<'a, 'r, 'l, T, R>
    where
        R: Clock,
        ensures { upgradable_lock_of result ≡ write_lock_of guard.entry }
    {
        let (held, WriteLocked { lock, rt }) = guard.into_parts();
        let upgradable = lock.upgradable.lock(rt);
        let held = lock.read_after_write(rt, held);
        lock.upgradable_guard(rt, held, upgradable)
    }
}

impl<'a, 'r, 'l, T, R: Wait> RwLockUpgradableReadGuard<'a, 'r, 'l, T, R> {
    /// Exchanges the read for a write if nobody else reads, so that nobody writes in between.
    ///
    /// # Errors
    ///
    /// Returns the guard if others read. It still reads and may upgrade.
    pub fn try_upgrade(guard: Self) -> Result<RwLockWriteGuard<'a, 'r, 'l, T, R>, Self>
        ensures ok { IfOk result (λ writing.
            write_lock_of writing ≡ upgradable_lock_of guard.entry) }
        ensures err { IfErr result (λ back.
            upgradable_lock_of back ≡ upgradable_lock_of guard.entry) }
    {
        let (held, locked) = guard.into_parts();
        locked.lock.begin_upgrade(held);
        let held = locked
            .lock
            .try_take(locked.rt, Writer::Upgrades, Turn::Comes);
        locked.end_upgrade(held)
    }

    /// Gives up the right to upgrade, and goes on reading.
    pub fn downgrade(guard: Self) -> RwLockReadGuard<'a, 'r, 'l, T, R>
        ensures lock { read_lock_of result ≡ upgradable_lock_of guard.entry }
        ensures held { held_by result ≡ held_by guard.entry }
    {
        let (held, locked) = guard.into_parts();
        drop(locked.upgradable);
        locked.lock.read_guard(locked.rt, held)
    }

    /// Exchanges the read for a write, so that nobody writes in between, and waits until nobody
    /// else reads.
    pub fn upgrade(guard: Self) -> RwLockWriteGuard<'a, 'r, 'l, T, R>
    where
        R: Clock,
        ensures { write_lock_of result ≡ upgradable_lock_of guard.entry }
    {
        match upgrade_at_most(guard, None) {
            Ok(guard) => guard,
            Err(_) => unreachable!(),
        }
    }

    /// Exchanges the read for a write as `upgrade` does, but gives up if it cannot do so within the
    /// duration.
    ///
    /// # Errors
    ///
    /// Returns the guard if others read until then. It still reads and may upgrade.
    pub fn upgrade_for(
        guard: Self,
        duration: Duration,
    ) -> Result<RwLockWriteGuard<'a, 'r, 'l, T, R>, Self>
    where
        R: Clock,
        ensures ok { IfOk result (λ writing.
            write_lock_of writing ≡ upgradable_lock_of guard.entry) }
        ensures err { IfErr result (λ back.
            upgradable_lock_of back ≡ upgradable_lock_of guard.entry) }
    {
        match instant_after(guard.lock().rt, duration) {
            Ok(deadline) => upgrade_at_most(guard, deadline),
            Err(_) => Self::try_upgrade(guard),
        }
    }

    /// Exchanges the read for a write as `upgrade` does, but gives up if it cannot do so before the
    /// deadline.
    ///
    /// # Errors
    ///
    /// Returns the guard if others read until then. It still reads and may upgrade.
    pub fn upgrade_until(
        guard: Self,
        deadline: Instant,
    ) -> Result<RwLockWriteGuard<'a, 'r, 'l, T, R>, Self>
    where
        R: Clock,
        ensures ok { IfOk result (λ writing.
            write_lock_of writing ≡ upgradable_lock_of guard.entry) }
        ensures err { IfErr result (λ back.
            upgradable_lock_of back ≡ upgradable_lock_of guard.entry) }
    {
        upgrade_at_most(guard, Some(deadline))
    }
}

fn upgrade_at_most<'a, 'r, 'l, T, R: Wait + Clock>(
    guard: RwLockUpgradableReadGuard<'a, 'r, 'l, T, R>,
    deadline: Option<Instant>,
) -> Result<RwLockWriteGuard<'a, 'r, 'l, T, R>, RwLockUpgradableReadGuard<'a, 'r, 'l, T, R>>
    ensures done { deadline ≡ None → IsOk result }
    ensures ok { IfOk result (λ writing. write_lock_of writing ≡ upgradable_lock_of guard.entry) }
    ensures err { IfErr result (λ back.
        upgradable_lock_of back ≡ upgradable_lock_of guard.entry) }
{
    let (held, locked) = guard.into_parts();
    let lock = locked.lock;
    lock.begin_upgrade(held);
    let held = lock.take_until(locked.rt, Writer::Upgrades, deadline);
    locked.end_upgrade(held)
}

impl<'a, 'r, 'l, T, R: Wait> UpgradableLocked<'a, 'r, 'l, T, R> {
    // Writes, if the write was had, and else reads again.
    fn end_upgrade(
        self,
        written: Option<sync::RwLockWriteGuard<'a, T>>,
    ) -> Result<RwLockWriteGuard<'a, 'r, 'l, T, R>, RwLockUpgradableReadGuard<'a, 'r, 'l, T, R>>
        ensures done { IsSome written.entry → IsOk result }
        ensures ok { IfOk result (λ writing. write_lock_of writing ≡ self.entry.lock.now) }
        ensures err { IfErr result (λ back. upgradable_lock_of back ≡ self.entry.lock.now) }
    {
        let lock = self.lock;
        match written {
            Some(held) => {
                lock.note_upgraded();
                drop(self.upgradable);
                Ok(lock.write_guard(self.rt, held))
            }
            None => {
                let held = lock.read_at_last(self.rt);
                lock.note_upgraded();
                lock.wake(self.rt, Front::Readers);
                Err(Guard::new(held, self))
            }
        }
    }
}

impl<T> RwLock<'_, T> {
    // Lets the read of an upgradable guard go, so that nobody writes until `note_upgraded`.
    fn begin_upgrade(&self, held: sync::RwLockReadGuard<'_, T>) {
        self.state.fetch_or(UPGRADING, Ordering::SeqCst);
        drop(held);
    }

    fn note_upgraded(&self) {
        self.state
            .fetch_and(!(UPGRADING | DRAINS), Ordering::SeqCst);
    }

    // Reads in place of writing.
    fn read_after_write<R: Wait>(
        &self,
        rt: &R,
        held: sync::RwLockWriteGuard<'_, T>,
    ) -> sync::RwLockReadGuard<'_, T> {
        self.state.fetch_or(DOWNGRADING, Ordering::SeqCst);
        drop(held);
        let held = self.read_at_last(rt);
        self.state.fetch_and(!DOWNGRADING, Ordering::SeqCst);
        self.wake(rt, Front::Readers);
        held
    }

    // Takes a read that only writers delay who let the lock go again.
    fn read_at_last<R: Wait>(&self, rt: &R) -> sync::RwLockReadGuard<'_, T> {
        for _ in rt.forever() {
            if let Some(held) = self.value.try_read() {
                return held;
            }
            thread_yield();
        }
        unreachable!()
    }
}
