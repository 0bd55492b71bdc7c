//! A wait that ends after a while.

use parking_lot::{Condvar, Mutex, MutexGuard};
use std::sync::Wait;
use std::time::{Clock, Duration};

/// The tickets that are left, for as long as the caller looks at them.
pub fn look<'a, 'r, 'l, R: Wait + Clock>(
    rt: &'r R,
    left: &'a Mutex<'l, u32>,
) -> MutexGuard<'a, 'r, 'l, u32, R> {
    left.lock(rt)
}

/// Takes a ticket if there is one in time, and returns whether it has taken one.
pub fn take_ticket<R: Wait + Clock>(
    rt: &R,
    left: &Mutex<'_, u32>,
    printed: &Condvar<'_>,
    patience: Duration,
) -> bool {
    let left = left.lock(rt);
    let (mut left, _) = printed.wait_while_for(left, |left: &mut u32| *left == 0, patience);
    match (*left).checked_sub(1) {
        Some(rest) => {
            *left = rest;
            true
        }
        None => false,
    }
}

/// Adds a ticket, and wakes a thread that waits for one once the mutex is unlocked.
pub fn print_ticket<R: Wait + Clock>(rt: &R, left: &Mutex<'_, u32>, printed: &Condvar<'_>) {
    let mut left = left.lock(rt);
    *left = left.wrapping_add(1);
    drop(left);
    printed.notify_one(rt);
}
