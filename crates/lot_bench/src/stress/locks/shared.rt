//! What a thread does with the locks that several may have at once.

use super::deeds::Deed;
use super::patience::Patience;
use parking_lot::{RwLock, RwLockUpgradableReadGuard, RwLockWriteGuard, Semaphore};
use std::sync::Wait;
use std::sync::atomic::{AtomicUsize, Ordering};
use std::thread;
use std::time::Clock;

/// Reads twice, and answers nothing if somebody wrote between.
pub(super) fn read<R: Wait + Clock>(
    rt: &R,
    lock: &RwLock<'_, usize>,
    patience: Patience,
) -> Option<usize> {
    let count = match patience {
        Patience::Over => lock.try_read(rt),
        Patience::Until(deadline) => lock.read_until(rt, deadline),
        Patience::Endless => Some(lock.read(rt)),
    };
    let Some(count) = count else {
        return Some(0);
    };
    let before = *count;
    thread::yield_now();
    (*count == before).then_some(0)
}

/// Counts, and reads again before it lets the lock go. Answers nothing if somebody wrote between.
pub(super) fn count_written<R: Wait + Clock>(
    rt: &R,
    lock: &RwLock<'_, usize>,
    deed: Deed,
    patience: Patience,
) -> Option<usize> {
    let count = match patience {
        Patience::Over => lock.try_write(rt),
        Patience::Until(deadline) => lock.write_until(rt, deadline),
        Patience::Endless => Some(lock.write(rt)),
    };
    let Some(mut count) = count else {
        return Some(0);
    };
    let after = count.wrapping_add(1);
    *count = after;
    thread::yield_now();
    let found = match deed {
        Deed::Downgrade => *RwLockWriteGuard::downgrade(count),
        Deed::DowngradeToUpgradable => *RwLockWriteGuard::downgrade_to_upgradable(count),
        _ => *count,
    };
    (found == after).then_some(1)
}

/// Reads, upgrades and counts. Answers nothing if somebody wrote between.
pub(super) fn count_upgraded<R: Wait + Clock>(
    rt: &R,
    lock: &RwLock<'_, usize>,
    patience: Patience,
) -> Option<usize> {
    let count = match patience {
        Patience::Over => lock.try_upgradable_read(rt),
        Patience::Until(deadline) => lock.upgradable_read_until(rt, deadline),
        Patience::Endless => Some(lock.upgradable_read(rt)),
    };
    let Some(count) = count else {
        return Some(0);
    };
    let before = *count;
    let upgraded = match patience {
        Patience::Over => RwLockUpgradableReadGuard::try_upgrade(count),
        Patience::Until(deadline) => RwLockUpgradableReadGuard::upgrade_until(count, deadline),
        Patience::Endless => Ok(RwLockUpgradableReadGuard::upgrade(count)),
    };
    match upgraded {
        Ok(mut count) => {
            let found = *count;
            *count = found.wrapping_add(1);
            (found == before).then_some(1)
        }
        Err(count) => (*count == before).then_some(0),
    }
}

/// Has so many permits for a while if it gets them in time, and answers how many were lent before.
pub(super) fn hold_permits<R: Wait + Clock>(
    rt: &R,
    semaphore: &Semaphore<'_>,
    lent: &AtomicUsize,
    permits: usize,
    patience: Patience,
) -> Option<usize> {
    let permit = match patience {
        Patience::Over => semaphore.try_acquire_many(rt, permits),
        Patience::Until(deadline) => semaphore.acquire_many_until(rt, permits, deadline),
        Patience::Endless => Some(semaphore.acquire_many(rt, permits)),
    }?;
    let before = lent.fetch_add(permits, Ordering::SeqCst);
    thread::yield_now();
    lent.fetch_sub(permits, Ordering::SeqCst);
    drop(permit);
    Some(before)
}
