//! What a thread does with the locks, and with a mutex and a condition variable among them.

use super::patience::{MOMENT, Patience};
use crate::queue::Things;
use parking_lot::mutex::{Fairness, MutexGuardIn, MutexIn};
use parking_lot::{Condvar, Mutex};
use std::sync::Wait;
use std::thread;
use std::time::{Clock, Duration};

/// How many deeds there are.
pub(super) const KINDS: usize = 16;

/// All deeds.
pub(super) const DEEDS: [Deed; KINDS] = [
    Deed::Lock,
    Deed::UnlockFair,
    Deed::Bump,
    Deed::Sleep,
    Deed::NotifyOne,
    Deed::NotifyAll,
    Deed::NotifyOneHeld,
    Deed::NotifyAllHeld,
    Deed::LockFair,
    Deed::Read,
    Deed::Write,
    Deed::Downgrade,
    Deed::DowngradeToUpgradable,
    Deed::Upgrade,
    Deed::Acquire,
    Deed::AcquireTwo,
];

/// What a thread does with a lock. It counts where it may write.
#[derive(Clone, Copy)]
pub(super) enum Deed {
    Lock,
    UnlockFair,
    Bump,
    Sleep,
    NotifyOne,
    NotifyAll,
    NotifyOneHeld,
    NotifyAllHeld,
    LockFair,
    Read,
    Write,
    Downgrade,
    DowngradeToUpgradable,
    Upgrade,
    Acquire,
    AcquireTwo,
}

/// Counts after a sleep on the condition variable.
pub(super) fn sleep<R: Wait + Clock>(
    rt: &R,
    mutex: &Mutex<'_, Things>,
    changed: &Condvar<'_>,
    patience: Patience,
) -> usize {
    let things = mutex.lock(rt);
    let (mut things, _) = match patience {
        Patience::Over => changed.wait_for(things, Duration::ZERO),
        Patience::Until(deadline) => changed.wait_until(things, deadline),
        Patience::Endless => changed.wait_for(things, Duration::from_micros(MOMENT)),
    };
    things.count_one();
    1
}

pub(super) fn notify<R: Wait + Clock>(rt: &R, changed: &Condvar<'_>, deed: Deed) -> usize {
    if let Deed::NotifyOne = deed {
        changed.notify_one(rt);
    } else {
        changed.notify_all(rt);
    }
    0
}

/// Counts and notifies under the mutex.
pub(super) fn notify_held<R: Wait + Clock>(
    rt: &R,
    mutex: &Mutex<'_, Things>,
    changed: &Condvar<'_>,
    deed: Deed,
) -> usize {
    let mut things = mutex.lock(rt);
    things.count_one();
    if let Deed::NotifyOneHeld = deed {
        changed.notify_one_held(&things);
    } else {
        changed.notify_all_held(&things);
    }
    1
}

// Locks the mutex, fair or not, with this patience.
fn lock<'a, 'l, T, F: Fairness, R: Wait + Clock>(
    rt: &'a R,
    mutex: &'a MutexIn<'l, T, F>,
    patience: Patience,
) -> Option<MutexGuardIn<'a, 'a, 'l, T, R, F>> {
    match patience {
        Patience::Over => mutex.try_lock(rt),
        Patience::Until(deadline) => mutex.lock_until(rt, deadline),
        Patience::Endless => Some(mutex.lock(rt)),
    }
}

/// Counts under the mutex, fair or not, and lets it go in the way of the deed.
pub(super) fn count_locked<F: Fairness, R: Wait + Clock>(
    rt: &R,
    mutex: &MutexIn<'_, Things, F>,
    deed: Deed,
    patience: Patience,
) -> usize {
    let Some(mut things) = lock(rt, mutex, patience) else {
        return 0;
    };
    things.count_one();
    thread::yield_now();
    match deed {
        Deed::UnlockFair => MutexGuardIn::unlock_fair(things),
        Deed::Bump => drop(MutexGuardIn::bump(things)),
        _ => drop(things),
    }
    1
}
