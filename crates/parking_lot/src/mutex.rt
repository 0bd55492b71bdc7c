//! This module has two mutexes around a value: `Mutex`, which goes to whoever takes it first, and
//! `FairMutex`, which goes to the thread that has waited longest.
//!
//! # The protocol
//!
//! Three words say who has the mutex:
//!
//! - `value` is a std mutex, of which only `try_lock` is called. It is held or free.
//! - `parked` says that threads may be parked on the key.
//! - `kept` counts the threads for which the mutex is reserved. A fair unlock woke them, and they
//!   have not locked the mutex since.
//!
//! The steps:
//!
//! - A thread that arrives takes a mutex that is free and reserved for nobody, by one exchange.
//! - If it cannot, it yields for a moment, tries again, and parks. In the critical section of the
//!   key it sets `parked` and **then** tries once more. It stays in the list only if that try
//!   fails.
//! - An unlock frees the word and **then** looks at `parked`. If it is set, the unlock unparks the
//!   first thread of the list, and in that section it clears `parked` if nobody is left.
//! - A thread that was woken tries whatever `kept` says, and parks again if another thread was
//!   faster.
//! - A fair unlock looks at `parked` first. If it is set, the unlock takes the first thread off the
//!   list, and in that section it raises `kept` and frees the word. The thread is told so by its
//!   token. It lowers `kept` when it has the mutex or gives up. If it gives up, it then wakes
//!   another thread as an unlock does.
//!
//! No thread is forgotten. A thread stays in the list only if a try failed after it had set
//! `parked`. If the mutex was held at that moment, its holder frees it later and looks at `parked`
//! after that. `parked` is cleared only in a section that leaves nobody in the list, so the holder
//! finds it set and wakes the first thread. That thread takes the mutex and unlocks it later, or
//! finds that another thread holds it, which unlocks it later. If the mutex was reserved, the
//! thread for which it is reserved takes it later, or wakes the next one when it gives up. All
//! accesses are `SeqCst`.

ghost use Rattle.std.specs.Prelude.{◌≡◌, ◌≢◌, None, IfErr, IfSome, IsSome};
ghost use Rattle.parking_lot.specs.Guards.{mutex_of, value_of};

use crate::guard::{Guard, Release};
use crate::lot::{Lot, instant_after, is_past, stand_back};
use lot_threads::{
    DEFAULT_PARK_TOKEN, DEFAULT_UNPARK_TOKEN, NoMemory, ParkResult, UnparkResult, UnparkToken,
    thread_yield, unpark_one,
};
use std::alloc::Global;
use std::fmt::{Debug, Formatter};
use std::marker::PhantomData;
use std::sync::Wait;
use std::sync::atomic::{AtomicBool, AtomicUsize, Ordering};
use std::time::{Clock, Duration, Instant};
use std::{fmt, sync};

// What a woken thread is told for which the mutex is kept.
const KEPT: UnparkToken = UnparkToken(1);

/// `Fairness` says who gets a mutex next when threads wait for it.
pub trait Fairness {
    /// Says whether each unlock reserves the mutex for the thread that has waited longest.
    const IS_FAIR: bool;
}

/// With `Barging`, a mutex goes to the thread that takes it first, whether it waited or not.
pub struct Barging;

impl Fairness for Barging {
    const IS_FAIR: bool = false;
}

/// With `InOrder`, a mutex goes to the thread that has waited longest.
pub struct InOrder;

impl Fairness for InOrder {
    const IS_FAIR: bool = true;
}

/// A `Mutex` protects a value, so that only one thread at a time can use it.
///
/// Here `count` is a closure that several threads may call:
///
/// ```
/// let lot = Lot::new(rt.alloc(), 4)?;
/// let total = Mutex::new(&lot, 0u64)?;
/// let count = || {
///     for _ in 0..1000u32 {
///         let mut total = total.lock(&rt);
///         *total = total.wrapping_add(1);
///     }
/// };
/// ```
///
/// A thread that arrives may lock the mutex before a thread that was just woken. This makes the
/// mutex fast, because it does not stay idle until the woken thread runs, but a thread may wait
/// long. `MutexGuard::unlock_fair` gives the mutex to the thread that has waited longest, and a
/// `FairMutex` always does.
pub type Mutex<'l, T> = MutexIn<'l, T, Barging>;

/// A `FairMutex` protects a value as a `Mutex` does, and serves threads in the order in which they
/// began to wait.
///
/// While threads wait, no other thread gets it before them. So it stays idle until a woken thread
/// runs, and it serves fewer calls a second than a `Mutex`. A thread that tries to lock while an
/// unlock is under way may still get it first; then those that wait are served one turn later.
pub type FairMutex<'l, T> = MutexIn<'l, T, InOrder>;

/// `MutexIn` is the type behind `Mutex` and `FairMutex`.
///
/// Its parameter `F` says whether it is fair.
#[derive(Drop)]
pub struct MutexIn<'l, T, F: Fairness> {
    lot: &'l Lot,
    key: usize,
    parked: AtomicBool,
    kept: AtomicUsize,
    value: sync::Mutex<T>,
    fairness: PhantomData<F>,
}

/// A `MutexGuard` gives access to the value of a `Mutex`, and unlocks the mutex when it is dropped.
///
/// The drop is one exchange, and one `unpark_one` if threads may be parked.
pub type MutexGuard<'a, 'r, 'l, T, R> = MutexGuardIn<'a, 'r, 'l, T, R, Barging>;

/// A `FairMutexGuard` gives access to the value of a `FairMutex`, and unlocks the mutex when it is
/// dropped.
///
/// The drop reserves the mutex for the thread that has waited longest, if threads wait.
pub type FairMutexGuard<'a, 'r, 'l, T, R> = MutexGuardIn<'a, 'r, 'l, T, R, InOrder>;

/// `MutexGuardIn` is the type behind `MutexGuard` and `FairMutexGuard`.
pub type MutexGuardIn<'a, 'r, 'l, T, R, F> = Guard<
    sync::MutexGuard<'a, T>,
    Locked<'a, 'r, 'l, T, R, F>,
>;

/// `Locked` is what a guard remembers of its mutex: the mutex itself, and the runtime with which it
/// wakes others.
#[derive(Drop)]
pub struct Locked<'a, 'r, 'l, T, R: Wait, F: Fairness> {
    pub(crate) mutex: &'a MutexIn<'l, T, F>,
    pub(crate) rt: &'r R,
}

impl<T, R: Wait, F: Fairness> Release<sync::MutexGuard<'_, T>> for Locked<'_, '_, '_, T, R, F> {
    #[inline]
    fn release(self, held: sync::MutexGuard<'_, T>) {
        if F::IS_FAIR {
            self.mutex.release_fair(self.rt, held);
        } else {
            drop(held);
            self.mutex.wake(self.rt);
        }
    }
}

// What a thread that waits may take.
#[derive(Clone, Copy)]
pub(crate) enum Turn {
    // A mutex that is free and kept for nobody.
    Comes,
    // One that is free: it was woken.
    Woken,
    // One that is free, which is kept for it.
    Kept,
}

impl Turn {
    // The turn of a thread that was woken with this token.
    pub(crate) fn of(token: UnparkToken) -> Turn {
        if token == KEPT {
            Turn::Kept
        } else {
            Turn::Woken
        }
    }
}

// How a park for a mutex ended.
enum Parked<G: Drop> {
    // Its last look took the mutex.
    Took(G),
    NotLetIn,
    Unparked(UnparkToken),
    TimedOut,
    LotIsFull,
}

impl<'l, T, F: Fairness> MutexIn<'l, T, F> {
    /// Creates a mutex that nobody holds, around the given value.
    ///
    /// # Errors
    ///
    /// Returns `NoMemory` if there is not enough memory. This version allocates nothing.
    pub fn new(lot: &'l Lot, value: T) -> Result<MutexIn<'l, T, F>, NoMemory> {
        Ok(MutexIn {
            lot,
            key: lot.key(),
            parked: AtomicBool::new(false),
            kept: AtomicUsize::new(0),
            value: sync::Mutex::new(value),
            fairness: PhantomData,
        })
    }

    /// Locks the mutex, and waits while another thread holds it.
    ///
    /// A thread that already holds the mutex waits for ever.
    #[inline]
    pub fn lock<'a, 'r, R: Wait + Clock>(&'a self, rt: &'r R) -> MutexGuardIn<'a, 'r, 'l, T, R, F>
        ensures { mutex_of result ≡ self.now }
    {
        let held = match self.try_take() {
            Some(held) => held,
            None => self.wait(rt, Turn::Comes),
        };
        self.guard(rt, held)
    }

    /// Locks the mutex if it is free and reserved for nobody; otherwise returns `None` at once.
    #[inline]
    pub fn try_lock<'a, 'r, R: Wait>(
        &'a self,
        rt: &'r R,
    ) -> Option<MutexGuardIn<'a, 'r, 'l, T, R, F>>
        ensures { IfSome result (λ guard. mutex_of guard ≡ self.now) }
    {
        Some(self.guard(rt, self.try_take()?))
    }

    /// Locks the mutex as `lock` does, but returns `None` if it cannot do so within the duration.
    pub fn lock_for<'a, 'r, R: Wait + Clock>(
        &'a self,
        rt: &'r R,
        duration: Duration,
    ) -> Option<MutexGuardIn<'a, 'r, 'l, T, R, F>>
        ensures { IfSome result (λ guard. mutex_of guard ≡ self.now) }
    {
        let held = match self.try_take() {
            Some(held) => held,
            None => self.wait_until(rt, Turn::Comes, instant_after(rt, duration).ok()?)?,
        };
        Some(self.guard(rt, held))
    }

    /// Locks the mutex as `lock` does, but returns `None` if it cannot do so before the deadline.
    pub fn lock_until<'a, 'r, R: Wait + Clock>(
        &'a self,
        rt: &'r R,
        deadline: Instant,
    ) -> Option<MutexGuardIn<'a, 'r, 'l, T, R, F>>
        ensures { IfSome result (λ guard. mutex_of guard ≡ self.now) }
    {
        let held = match self.try_take() {
            Some(held) => held,
            None => self.wait_until(rt, Turn::Comes, Some(deadline))?,
        };
        Some(self.guard(rt, held))
    }

    /// Returns whether the mutex is held or reserved.
    ///
    /// It finds out by locking the mutex for a moment. A thread that calls `try_lock` in that
    /// moment may get `None`.
    pub fn is_locked<R: Wait>(&self, rt: &R) -> bool {
        self.try_lock(rt).is_none()
    }

    /// Returns a mutable reference to the value.
    ///
    /// No lock is needed, because the caller borrows the whole mutex.
    pub fn get_mut(&mut self) -> &mut T {
        self.value.get_mut()
    }

    /// Returns the value, and ends the mutex.
    pub fn into_inner(self) -> T {
        let MutexIn {
            lot: _,
            key: _,
            parked: _parked,
            kept: _kept,
            value,
            fairness: _fairness,
        } = self;
        value.into_inner()
    }

    // Whether threads may be parked for the mutex.
    pub(crate) fn is_waited_for(&self) -> bool {
        self.parked.load(Ordering::SeqCst)
    }

    pub(crate) fn lot(&self) -> &'l Lot {
        self.lot
    }

    pub(crate) fn key(&self) -> usize {
        self.key
    }

    // Says that a thread may be parked on the key, which a requeue brought there.
    pub(crate) fn note_parked(&self) {
        self.parked.store(true, Ordering::SeqCst);
    }

    #[inline]
    pub(crate) fn guard<'a, 'r, R: Wait>(
        &'a self,
        rt: &'r R,
        held: sync::MutexGuard<'a, T>,
    ) -> MutexGuardIn<'a, 'r, 'l, T, R, F>
        ensures { mutex_of result ≡ self.now }
    {
        Guard::new(held, Locked { mutex: self, rt })
    }

    // Takes the mutex if it is free and kept for nobody.
    #[inline]
    fn try_take(&self) -> Option<sync::MutexGuard<'_, T>> {
        if self.kept.load(Ordering::SeqCst) == 0 {
            self.value.try_lock()
        } else {
            None
        }
    }

    // Takes the mutex if it is free and the turn allows that.
    fn take(&self, turn: Turn) -> Option<sync::MutexGuard<'_, T>> {
        match turn {
            Turn::Comes => self.try_take(),
            Turn::Woken => self.value.try_lock(),
            Turn::Kept => {
                let held = self.value.try_lock()?;
                self.kept.fetch_sub(1, Ordering::SeqCst);
                Some(held)
            }
        }
    }

    // Takes the mutex as `take` does. It tries twice, with some time between, unless others are
    // parked, behind whom this thread parks too.
    fn take_patiently(&self, turn: Turn) -> Option<sync::MutexGuard<'_, T>> {
        if let Some(held) = self.take(turn) {
            return Some(held);
        }
        if self.is_waited_for() {
            return None;
        }
        stand_back();
        self.take(turn)
    }

    // Waits until it has the mutex.
    #[cold]
    #[inline(never)]
    pub(crate) fn wait<R: Wait + Clock>(&self, rt: &R, turn: Turn) -> sync::MutexGuard<'_, T> {
        self.wait_until(rt, turn, None).unwrap()
    }

    // Waits until it has the mutex, or until the deadline.
    fn wait_until<R: Wait + Clock>(
        &self,
        rt: &R,
        first_turn: Turn,
        deadline: Option<Instant>,
    ) -> Option<sync::MutexGuard<'_, T>>
        ensures { deadline ≡ None → IsSome result }
    {
        let mut turn = first_turn;
        for _ in rt.forever() {
            if let Some(held) = self.take_patiently(turn) {
                return Some(held);
            }
            match self.park(rt, turn, deadline) {
                Parked::Took(held) => return Some(held),
                Parked::NotLetIn => (),
                Parked::Unparked(token) => turn = self.next_turn(turn, token),
                Parked::TimedOut => return self.give_up(rt, turn),
                Parked::LotIsFull if is_past(rt, deadline) => return self.give_up(rt, turn),
                Parked::LotIsFull => thread_yield(),
            }
        }
        unreachable!()
    }

    // The turn of a thread that was unparked. Whoever was told twice that the mutex is kept for it
    // has it only once.
    fn next_turn(&self, turn: Turn, token: UnparkToken) -> Turn {
        let next = Turn::of(token);
        match (turn, next) {
            (Turn::Kept, Turn::Kept) => {
                self.kept.fetch_sub(1, Ordering::SeqCst);
                Turn::Kept
            }
            (Turn::Kept, _) => Turn::Kept,
            _ => next,
        }
    }

    // Leaves without the mutex, which is kept for this thread no longer.
    fn give_up<R: Wait>(&self, rt: &R, turn: Turn) -> Option<sync::MutexGuard<'_, T>> {
        if let Turn::Kept = turn {
            self.kept.fetch_sub(1, Ordering::SeqCst);
            self.wake(rt);
        }
        None
    }

    fn park<R: Wait + Clock>(
        &self,
        rt: &R,
        turn: Turn,
        deadline: Option<Instant>,
    ) -> Parked<sync::MutexGuard<'_, T>>
        ensures { deadline ≡ None → result ≢ Parked.TimedOut }
    {
        let mut held = None;
        let parked = self.lot.park(
            rt,
            self.key,
            || {
                self.parked.store(true, Ordering::SeqCst);
                held = self.take(turn);
                held.is_none()
            },
            || (),
            |_, _| (),
            DEFAULT_PARK_TOKEN,
            deadline,
        );
        match (held, parked) {
            (Some(held), _) => Parked::Took(held),
            (None, None) => Parked::LotIsFull,
            (None, Some(ParkResult::Unparked(token))) => Parked::Unparked(token),
            (None, Some(ParkResult::Invalid)) => Parked::NotLetIn,
            (None, Some(ParkResult::TimedOut)) => Parked::TimedOut,
        }
    }

    // Wakes the thread that waits longest, once the mutex was freed.
    #[inline]
    fn wake<R: Wait>(&self, rt: &R) {
        if self.parked.load(Ordering::SeqCst) {
            self.unpark(rt);
        }
    }

    #[cold]
    #[inline(never)]
    fn unpark<R: Wait>(&self, rt: &R) {
        unpark_one(rt, self.lot.queues(), self.key, |found| {
            self.note_left(found);
            DEFAULT_UNPARK_TOKEN
        });
    }

    // Unlocks the mutex, and keeps it for the thread that waits longest.
    #[inline]
    fn release_fair<R: Wait>(&self, rt: &R, held: sync::MutexGuard<'_, T>) {
        if self.parked.load(Ordering::SeqCst) {
            self.hand_over(rt, held);
        } else {
            drop(held);
            self.wake(rt);
        }
    }

    #[cold]
    #[inline(never)]
    fn hand_over<R: Wait>(&self, rt: &R, held: sync::MutexGuard<'_, T>) {
        unpark_one(rt, self.lot.queues(), self.key, |found| {
            let token = if found.unparked_threads == 0 {
                DEFAULT_UNPARK_TOKEN
            } else {
                self.kept.fetch_add(1, Ordering::SeqCst);
                KEPT
            };
            self.note_left(found);
            drop(held);
            token
        });
    }

    // Says in a section that nobody is left in the list, if that is so.
    fn note_left(&self, found: UnparkResult) {
        if !found.have_more_threads {
            self.parked.store(false, Ordering::SeqCst);
        }
    }
}

impl<'a, 'r, 'l, T, R: Wait, F: Fairness> MutexGuardIn<'a, 'r, 'l, T, R, F> {
    /// Returns the mutex that the guard has locked.
    pub fn mutex(guard: &Self) -> &'a MutexIn<'l, T, F>
        ensures { result.now ≡ mutex_of guard.now }
    {
        guard.lock().mutex
    }

    /// Unlocks the mutex, and reserves it for the thread that has waited longest, if one waits.
    ///
    /// A thread that arrives meanwhile does not get the mutex before that one.
    pub fn unlock_fair(guard: Self) {
        let (held, locked) = guard.into_parts();
        locked.mutex.release_fair(locked.rt, held);
    }

    /// Returns a reference to the value that stays valid as long as the mutex, which is never
    /// unlocked.
    ///
    /// The guard is moved to memory that is never freed.
    ///
    /// # Errors
    ///
    /// Returns the guard if there is not enough memory for it. The mutex is still locked then.
    pub fn leak(guard: Self, alloc: Global) -> Result<&'a mut T, Self>
        ensures mutex { IfErr result (λ back. mutex_of back ≡ mutex_of guard.entry) }
        ensures value { IfErr result (λ back. value_of back ≡ value_of guard.entry) }
    {
        let (held, locked) = guard.into_parts();
        match Box::new(alloc, held) {
            Ok(kept) => {
                let held: &'a mut sync::MutexGuard<'a, T> = Box::leak(kept);
                Ok(&mut **held)
            }
            Err(failed) => Err(Guard::new(failed.value, locked)),
        }
    }
}

impl<'a, 'r, 'l, T, R: Wait + Clock, F: Fairness> MutexGuardIn<'a, 'r, 'l, T, R, F> {
    /// Gives the mutex to the thread that has waited longest, if one waits, and then locks it
    /// again.
    ///
    /// If nobody waits it does nothing.
    pub fn bump(guard: Self) -> Self
        ensures { mutex_of result ≡ mutex_of guard.entry }
    {
        let mutex = guard.lock().mutex;
        let rt = guard.lock().rt;
        if !mutex.parked.load(Ordering::SeqCst) {
            return guard;
        }
        Self::unlock_fair(guard);
        mutex.lock(rt)
    }

    /// Unlocks the mutex, calls the closure, locks the mutex again, and returns the new guard with
    /// what the closure returned.
    pub fn unlocked<A, C: FnOnce() -> A>(guard: Self, call: C) -> (Self, A)
        requires { C.pre call }
        ensures mutex { mutex_of result.0 ≡ mutex_of guard.entry }
        ensures called { C.post call result.1 }
    {
        let mutex = guard.lock().mutex;
        let rt = guard.lock().rt;
        drop(guard);
        let answer = call();
        (mutex.lock(rt), answer)
    }
}

impl<T, F: Fairness> Debug for MutexIn<'_, T, F> {
    fn fmt<W: fmt::Write>(&self, f: &mut Formatter<W>) -> fmt::Result {
        f.debug_struct("Mutex").finish_non_exhaustive()
    }
}
