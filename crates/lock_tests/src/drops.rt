//! Values that are dropped.

use crate::stage::Host;
use parking_lot::{Lot, Mutex, RwLock};
use std::sync::atomic::{AtomicUsize, Ordering};

// A value that counts when it is dropped.
struct Dropped<'a> {
    count: &'a AtomicUsize,
}

impl Drop for Dropped<'_> {
    fn drop(self) {
        let Self { count } = self;
        count.fetch_add(1, Ordering::SeqCst);
    }
}

// Whether the value that came out is dropped once, and not before.
fn is_dropped_once(value: Dropped<'_>, count: &AtomicUsize) -> bool {
    let before = count.load(Ordering::SeqCst);
    drop(value);
    before == 0 && count.load(Ordering::SeqCst) == 1
}

pub fn leaves_a_mutex<R: Host>(rt: &R, lot: &'static Lot) -> bool {
    let count = AtomicUsize::new(0);
    let value = Dropped { count: &count };
    let mutex = Mutex::new(lot, value).expect(rt, "a mutex");
    is_dropped_once(mutex.into_inner(), &count)
}

pub fn leaves_a_lock<R: Host>(rt: &R, lot: &'static Lot) -> bool {
    let count = AtomicUsize::new(0);
    let lock = RwLock::new(lot, Dropped { count: &count }).expect(rt, "a lock");
    is_dropped_once(lock.into_inner(), &count)
}
