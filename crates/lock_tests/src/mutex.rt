//! Tests of `Mutex` and `FairMutex`. Each is run for both.
//!
//! - `mutex`: `lock`, `try_lock`, `lock_for TIME`, `lock_until TIME` (whether it has the mutex
//!   now), `is_locked`.
//! - `take`: `mutex`, `second`, `foreign` (the mutex that the thread uses from then on; the last is
//!   one of another lot).
//! - `guard`: the calls of a guard that writes, `hand_over` (unlocks it in the way that keeps it
//!   for who waits), `leak` (which writes 2).

use crate::condvar::use_condvar;
use crate::held::{GuardCall, Held, use_held, use_writing};
use crate::player::{Kind, Valued, expect_played, play_each, play_valued};
use crate::stage::{Actor, Host, Patience, ROOM, ROOMS, has, keep, new_lot};
use parking_lot::mutex::{Fairness, MutexGuardIn, MutexIn};
use parking_lot::{Condvar, Lot};
use std::alloc::AllocGlobal;
use std::sync::Wait;
use std::time::Clock;
use test_support::counts::Counts;
use test_support::player::{Hand, Script, Stage, play_lines};
use test_support::words::Words;

type OneMutex<F> = MutexIn<'static, usize, F>;

pub type Guard<'x, F, R> = MutexGuardIn<'x, 'x, 'static, usize, R, F>;

/// Plays a script on new mutexes, which are fair or not.
pub fn play<F: Fairness + Sync, R: Host>(rt: &R, room: usize, script: &Script<'_>) {
    let (lot, other) = (new_lot(rt, room), new_lot(rt, room));
    let stage: MutexStage<F> = MutexStage::new(rt, lot, other);
    play_valued(rt, stage, script);
}

#[derive(Drop)]
struct MutexStage<F: Fairness> {
    mutex: OneMutex<F>,
    second: OneMutex<F>,
    // That of another lot.
    foreign: OneMutex<F>,
    condvar: Condvar<'static>,
    other_condvar: Condvar<'static>,
    counts: Counts,
}

impl<F: Fairness> MutexStage<F> {
    fn new<R: Host>(rt: &R, lot: &'static Lot, other: &'static Lot) -> MutexStage<F> {
        MutexStage {
            mutex: MutexIn::new(lot, 0).expect(rt, "a mutex"),
            second: MutexIn::new(lot, 0).expect(rt, "a mutex"),
            foreign: MutexIn::new(other, 0).expect(rt, "a mutex"),
            condvar: Condvar::new(lot).expect(rt, "a condition variable"),
            other_condvar: Condvar::new(lot).expect(rt, "a condition variable"),
            counts: Counts::new(),
        }
    }
}

impl<F: Fairness> Valued for MutexStage<F> {
    fn begin(&mut self, value: usize) {
        *self.mutex.get_mut() = value;
    }

    fn end(self) -> usize {
        self.mutex.into_inner()
    }
}

impl<F: Fairness, R: Actor> Stage<R> for MutexStage<F> {
    fn play_place<'x>(&'x self, rt: &'x R, script: &Script<'_>, place: usize) {
        let mut hand = MutexHand {
            rt,
            stage: self,
            mutex: &self.mutex,
            guard: None,
            last: 0,
        };
        let other = play_lines(rt, &self.counts, &mut hand, script, place);
        expect_played(rt, other, script);
    }
}

// A thread with the mutex that it uses, its guard, and the value that it saw or wrote last.
#[derive(Drop)]
struct MutexHand<'x, F: Fairness, R: Wait> {
    rt: &'x R,
    stage: &'x MutexStage<F>,
    mutex: &'x OneMutex<F>,
    guard: Option<Guard<'x, F, R>>,
    last: usize,
}

impl<F: Fairness, R: Wait + Clock + AllocGlobal> Hand for MutexHand<'_, F, R> {
    fn call(&mut self, first: &str, words: &mut Words<'_>) -> Option<usize> {
        let (rt, stage) = (self.rt, self.stage);
        match first {
            "take" => self.take(words.word()?),
            "mutex" => use_mutex(rt, self.mutex, &mut self.guard, words),
            "guard" => use_guard(rt, &mut self.guard, &mut self.last, words),
            "condvar" => use_condvar(rt, &stage.condvar, &mut self.guard, self.last, words),
            "other_condvar" => {
                use_condvar(rt, &stage.other_condvar, &mut self.guard, self.last, words)
            }
            _ => None,
        }
    }
}

impl<F: Fairness, R: Wait> MutexHand<'_, F, R> {
    fn take(&mut self, name: &str) -> Option<usize> {
        self.mutex = match name {
            "mutex" => &self.stage.mutex,
            "second" => &self.stage.second,
            "foreign" => &self.stage.foreign,
            _ => return None,
        };
        Some(1)
    }
}

fn use_mutex<'x, F: Fairness, R: Wait + Clock>(
    rt: &'x R,
    mutex: &'x OneMutex<F>,
    held: &mut Option<Guard<'x, F, R>>,
    words: &mut Words<'_>,
) -> Option<usize> {
    let (name, patience) = Patience::of(rt, words.word()?, words)?;
    let is_well = match name {
        "is_locked" => mutex.is_locked(rt),
        "lock" => keep(held, lock(rt, mutex, patience)),
        _ => return None,
    };
    Some(usize::from(is_well))
}

fn lock<'x, F: Fairness, R: Wait + Clock>(
    rt: &'x R,
    mutex: &'x OneMutex<F>,
    patience: Patience,
) -> Option<Guard<'x, F, R>> {
    match patience {
        Patience::Over => mutex.try_lock(rt),
        Patience::Endless => Some(mutex.lock(rt)),
        Patience::For(time) => mutex.lock_for(rt, time),
        Patience::Until(deadline) => mutex.lock_until(rt, deadline),
    }
}

fn use_guard<F: Fairness, R: Wait + Clock + AllocGlobal>(
    rt: &R,
    held: &mut Option<Guard<'_, F, R>>,
    last: &mut usize,
    words: &mut Words<'_>,
) -> Option<usize> {
    match words.word()? {
        "leak" => Some(usize::from(is_leaked(rt, held.take()?))),
        "hand_over" if F::IS_FAIR => use_held(rt, held, last, "unlock"),
        "hand_over" => use_held(rt, held, last, "unlock_fair"),
        call => use_writing(rt, held, last, call, words),
    }
}

impl<'x, F: Fairness, R: Wait + Clock> Held for Guard<'x, F, R> {
    fn pass<H: Wait>(self, rt: &H, call: GuardCall) -> (Option<Self>, bool) {
        let mutex = MutexGuardIn::mutex(&self);
        match call {
            GuardCall::IsLocked => (Some(self), mutex.is_locked(rt)),
            GuardCall::Bump => (Some(MutexGuardIn::bump(self)), true),
            GuardCall::Unlocked => {
                let (guard, found) = MutexGuardIn::unlocked(self, || has(mutex.try_lock(rt)));
                (Some(guard), found)
            }
            GuardCall::UnlockFair => {
                MutexGuardIn::unlock_fair(self);
                (None, true)
            }
        }
    }
}

fn is_leaked<F: Fairness, R: Wait + AllocGlobal>(rt: &R, guard: Guard<'_, F, R>) -> bool {
    match MutexGuardIn::leak(guard, rt.alloc()).ok() {
        Some(value) => {
            *value = 2;
            true
        }
        None => false,
    }
}

#[test]
fn one_thread_has_a_mutex(rt: HostRuntime) {
    let scripts = "# smoke
mutex lock ; guard unlock ; mutex lock ; guard unlock

# try_lock
mutex is_locked -> 0 ; mutex try_lock ; mutex is_locked ; mutex try_lock -> 0 ; guard unlock
mutex try_lock ; guard is_locked

# into_inner_and_get_mut
begins 20
leaves 20

# into_inner
leaves 0

# leaked guard
mutex lock ; guard leak ; mutex is_locked ; mutex try_lock -> 0
leaves 2";
    play_each(&rt, Kind::Mutexes, &[ROOM], 1, scripts);
}

#[test]
fn threads_share_a_mutex(rt: HostRuntime) {
    let scripts = "# lots_and_lots
leaves 6000
thread 6
repeat 1000 mutex lock ; guard add 1 ; guard unlock

# the example of the documentation
thread 10
mutex lock ; guard slowly ; guard unlock ; raise came
thread
await came 10 ; mutex lock ; guard value -> 10

# bumps and fair unlocks lose nothing
leaves 3600
thread 4
repeat 300 mutex lock ; guard add 1 ; guard unlock ; mutex lock ; guard bump ; \
guard unlocked -> any ; guard add 1 ; guard is_locked ; guard unlock_fair ; \
mutex lock ; guard unlocked -> any ; guard add 1 ; guard unlock";
    play_each(&rt, Kind::Mutexes, &ROOMS, 1, scripts);
}

#[test]
fn deadlines_of_a_mutex_pass_or_do_not(rt: HostRuntime) {
    let scripts = "# It is free, or held, and nobody lets it go.
mutex lock_until no_time ; guard unlock ; mutex lock_for short
mutex lock_until no_time -> 0 ; mutex lock_until short -> 0 ; mutex lock_for short -> 0

# It is let go.
thread
repeat 2 mutex lock ; raise held ; pause 2 ; guard unlock ; await done ; lower done
thread
await held ; lower held ; mutex lock_until long ; guard unlock ; raise done
await held ; lower held ; mutex lock_for long ; guard unlock ; raise done

# Whoever gives up a mutex that is kept for it lets others have it.
thread 6
repeat 100 mutex lock_for moment -> any ; pause 1 ; guard unlock_fair -> any ; \
mutex lock_for moment -> any ; pause 1 ; guard unlock -> any
after
mutex lock_for long";
    play_each(&rt, Kind::Mutexes, &ROOMS, 1, scripts);
}

// A thread waits for the mutex in its list, where a notify has moved it.
#[test]
fn nobody_has_a_mutex_before_the_thread_that_waits(rt: HostRuntime) {
    let scripts = "# A fair mutex, and a fair unlock, keep it for that thread.
thread
mutex lock ; condvar wait ; guard value -> 1 ; guard set 2 ; raise done ; guard unlock
thread
mutex lock
until guard unlock ; yield ; mutex lock ; condvar notify_one_held
guard set 1 ; guard hand_over
until mutex try_lock
guard value -> 2 ; tell done

# A bump lets that thread go first.
thread
mutex lock ; condvar wait ; guard value -> 1 ; guard set 2 ; raise done ; guard unlock
thread
mutex lock
until guard unlock ; yield ; mutex lock ; condvar notify_one_held
guard set 1 ; guard bump ; guard value -> 2 ; tell done";
    play_each(&rt, Kind::Mutexes, &[ROOM], 50, scripts);
}
