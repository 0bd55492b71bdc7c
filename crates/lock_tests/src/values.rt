//! What kinds of values locks keep, and how locks are shown.

use crate::drops::{leaves_a_lock, leaves_a_mutex};
use crate::stage::{Host, ROOM, ROOMS, expect, new_lot, value_in};
use parking_lot::{
    Barrier, Condvar, FairMutexGuard, LazyLock, Lot, Mutex, MutexGuard, Once, OnceLock,
    ReentrantMutex, RwLock, RwLockReadGuard, RwLockUpgradableReadGuard, RwLockWriteGuard,
    Semaphore,
};
use std::fmt::Debug;
use std::sync::Arc;
use std::sync::atomic::{AtomicUsize, Ordering};
use std::thread;

type Nested = Mutex<'static, Mutex<'static, usize>>;

// It locks a mutex that lies in another mutex, which a spawned thread has in an `Arc`.
fn looks_inside<R: Host>(rt: &R, outer: &Nested) -> bool {
    let guard = outer.lock(rt);
    let value = value_in(guard.lock(rt));
    drop(guard);
    value == 1
}

fn nests<R: Host + Copy + Send + 'static>(rt: R, lot: &'static Lot) {
    let inner = Mutex::new(lot, 1usize).expect(&rt, "a mutex");
    let outer: Nested = Mutex::new(lot, inner).expect(&rt, "a mutex");
    let shared = Arc::new(rt.alloc(), outer).expect(&rt, "memory");
    let cloned: Result<_, _> = shared.clone();
    let theirs = cloned.expect(&rt, "memory");
    let spawned = thread::spawn(&rt, move || looks_inside(&rt, &theirs));
    expect(&rt, looks_inside(&rt, &shared), "it is 1");
    if let Ok(child) = spawned {
        expect(&rt, child.join(&rt), "it is 1 in the thread");
    }
}

#[test]
fn arc_nested(rt: HostRuntime) {
    nests(rt, new_lot(&rt, ROOM));
}

// Expects that the value is shown by this text.
fn expect_shown<T: Debug, R: Host>(rt: &R, value: &T, wanted: &str) {
    let shown = format!(in rt.alloc(); "{value:?}").expect(rt, "memory");
    expect(rt, shown.as_str() == wanted, wanted);
}

// Expects that a lock that could be made is shown by this text.
fn expect_made<T: Debug + Drop, E: Debug + Drop, R: Host>(
    rt: &R,
    made: Result<T, E>,
    wanted: &str,
) {
    let value = made.expect(rt, wanted);
    expect_shown(rt, &value, wanted);
}

fn shows_locks<R: Host>(rt: &R, lot: &'static Lot) {
    expect_made(
        rt,
        ReentrantMutex::new(lot, 0usize),
        "ReentrantMutex { .. }",
    );
    expect_made(rt, Condvar::new(lot), "Condvar { .. }");
    expect_made(rt, Once::new(lot), "Once { .. }");
    expect_made(rt, Semaphore::new(lot, 3), "Semaphore { permits: 3, .. }");
    expect_made(rt, Barrier::new(lot, 1), "Barrier { .. }");
}

fn shows_a_locked_mutex<R: Host>(rt: &R, lot: &'static Lot) {
    let mutex = Mutex::new(lot, 1usize).expect(rt, "a mutex");
    let guard = mutex.lock(rt);
    expect_shown(rt, &mutex, "Mutex { .. }");
    drop(guard);
}

fn shows_a_written_lock<R: Host>(rt: &R, lot: &'static Lot) {
    let lock = RwLock::new(lot, 1usize).expect(rt, "a lock");
    let guard = lock.write(rt);
    expect_shown(rt, &lock, "RwLock { .. }");
    drop(guard);
}

fn shows_a_cell<R: Host>(rt: &R, lot: &'static Lot) {
    let mut cell = OnceLock::new(lot).expect(rt, "a cell");
    expect_shown(rt, &cell, "OnceLock(..)");
    expect(rt, cell.set(rt, 5usize).is_ok(), "it is empty");
    expect_shown(rt, &cell, "OnceLock(5)");
    if let Some(value) = cell.get_mut() {
        *value = 8;
    }
    expect(rt, cell.into_inner() == Some(8), "it was changed");
}

fn shows_all<R: Host>(rt: &R) {
    let lot = new_lot(rt, ROOM);
    shows_locks(rt, lot);
    shows_a_locked_mutex(rt, lot);
    shows_a_written_lock(rt, lot);
    shows_a_cell(rt, lot);
}

// `mutex_debug`, `test_rwlock_debug`, `test_debug_condvar`, `once_debug`, and of the reentrant
// mutex. Upstream shows the value or the state of some. To look takes a runtime here.
#[test]
fn locks_are_shown(rt: HostRuntime) {
    shows_all(&rt);
}

// A number that takes long to compute.
fn compute(runs: &AtomicUsize) -> usize {
    runs.fetch_add(1, Ordering::SeqCst);
    2
}

fn ten_force_it<'a, R: Host>(rt: &R, lot: &'a Lot, runs: &'a AtomicUsize) {
    let lazy = LazyLock::new(lot, || compute(runs)).expect(rt, "a lock");
    expect(rt, lazy.get().is_none(), "nobody has wanted it");
    let force = |_: usize| expect(rt, *lazy.force(rt) == 2, "it is computed");
    thread::map_indices(rt, rt.alloc(), 10, &force).expect(rt, "threads");
    expect(rt, runs.load(Ordering::SeqCst) == 1, "it is computed once");
    expect(rt, lazy.get() == Some(&2), "it is computed");
    expect_shown(rt, &lazy, "LazyLock(2)");
    expect(rt, lazy.into_inner() == Some(2), "it is computed");
}

fn is_computed_once<R: Host>(rt: &R) {
    for room in ROOMS {
        for _ in 0..20usize {
            let runs = AtomicUsize::new(0);
            ten_force_it(rt, new_lot(rt, room), &runs);
        }
    }
}

#[test]
fn value_is_computed_once(rt: HostRuntime) {
    is_computed_once(&rt);
}

// It is the `Arc` that is cloned, and not the guard.
fn clones_a_value<R: Host>(rt: &R, lot: &'static Lot) {
    let shared = Arc::new(rt.alloc(), 1usize).expect(rt, "memory");
    let lock = RwLock::new(lot, shared).expect(rt, "a lock");
    let guard = lock.read_recursive(rt);
    let cloned: Result<Arc<usize>, _> = guard.clone();
    drop(guard);
    let cloned = cloned.expect(rt, "memory");
    expect(rt, Arc::strong_count(&cloned) == 2, "there are two");
}

// It compiles for values that threads may share.
fn is_shared<T: Sync>() {}

fn guards_are_shared<'a, R: Host + 'a>() {
    is_shared::<MutexGuard<'a, 'a, 'a, usize, R>>();
    is_shared::<FairMutexGuard<'a, 'a, 'a, usize, R>>();
    is_shared::<RwLockReadGuard<'a, 'a, 'a, usize, R>>();
    is_shared::<RwLockUpgradableReadGuard<'a, 'a, 'a, usize, R>>();
    is_shared::<RwLockWriteGuard<'a, 'a, 'a, usize, R>>();
}

// An owner that the lot made may lock each reentrant mutex of it.
fn owner_of_a_lot_locks<R: Host>(rt: &R, lot: &'static Lot) {
    let mutex = ReentrantMutex::new(lot, 1usize).expect(rt, "a mutex");
    let owner = lot.owner();
    expect(rt, value_in(mutex.lock(rt, &owner)) == 1, "it is 1");
}

fn keeps_values<R: Host>(rt: &R) {
    let lot = new_lot(rt, ROOM);
    guards_are_shared::<R>();
    clones_a_value(rt, lot);
    owner_of_a_lot_locks(rt, lot);
    expect(rt, leaves_a_mutex(rt, lot), "into_inner_drop");
    expect(rt, leaves_a_lock(rt, lot), "into_inner_drop");
}

// `test_mutexguard_sync`, `test_rwlockguard_sync`, `test_clone`, and `test_into_inner_drop`.
#[test]
fn values_go_in_and_come_out(rt: HostRuntime) {
    keeps_values(&rt);
}
