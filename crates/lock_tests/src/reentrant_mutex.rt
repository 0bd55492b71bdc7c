//! Tests of `ReentrantMutex`. Each call is that of an owner of its own.
//!
//! `reentrant`: `thrice` (locks the value 2 thrice, and tells whether it is unlocked at last),
//! `nested` (raises `held`, and adds each number below 100 while it has the mutex already), `look`
//! (the value), `tries` (whether each way to lock it gets it, also where it has it already; raises
//! `held` while it has it, and waits for `done`), `refused` (whether each way to lock it is
//! refused, since another owner has it).

use crate::player::{Kind, Valued, expect_played, play_each, play_valued};
use crate::stage::{Actor, Host, ROOMS, expect, has, new_lot};
use parking_lot::ReentrantMutex;
use std::process::Abort;
use std::sync::Wait;
use std::sync::atomic::{AtomicUsize, Ordering};
use std::time::{Clock, Duration, Instant};
use test_support::counts::Counts;
use test_support::player::{Hand, Script, Stage, play_lines};
use test_support::waits::comes_to;
use test_support::words::Words;

type Counter = ReentrantMutex<'static, AtomicUsize>;

/// Plays a script on a new mutex.
pub fn play<R: Host>(rt: &R, room: usize, script: &Script<'_>) {
    let value = AtomicUsize::new(0);
    let mutex = ReentrantMutex::new(new_lot(rt, room), value).expect(rt, "a mutex");
    let counts = Counts::new();
    play_valued(rt, OneMutex { mutex, counts }, script);
}

#[derive(Drop)]
struct OneMutex {
    mutex: Counter,
    counts: Counts,
}

impl Valued for OneMutex {
    fn begin(&mut self, value: usize) {
        *self.mutex.get_mut() = AtomicUsize::new(value);
    }

    fn end(self) -> usize {
        value_of(&self.mutex.into_inner())
    }
}

impl<R: Actor> Stage<R> for OneMutex {
    fn play_place<'x>(&'x self, rt: &'x R, script: &Script<'_>, place: usize) {
        let mut hand = Owners { rt, stage: self };
        let other = play_lines(rt, &self.counts, &mut hand, script, place);
        expect_played(rt, other, script);
    }
}

#[derive(Drop)]
struct Owners<'x, R> {
    rt: &'x R,
    stage: &'x OneMutex,
}

impl<R: Wait + Clock + Abort> Hand for Owners<'_, R> {
    fn call(&mut self, first: &str, words: &mut Words<'_>) -> Option<usize> {
        match first {
            "reentrant" => use_reentrant(self.rt, &self.stage.mutex, &self.stage.counts, words),
            _ => None,
        }
    }
}

fn use_reentrant<R: Wait + Clock + Abort>(
    rt: &R,
    mutex: &Counter,
    counts: &Counts,
    words: &mut Words<'_>,
) -> Option<usize> {
    let is_well = match words.word()? {
        "thrice" => {
            lock_thrice(rt, mutex);
            !mutex.is_locked()
        }
        "nested" => add_nested(rt, mutex, counts.named("held")),
        "look" => return Some(look(rt, mutex)),
        "tries" => gets_it_in_each_way(rt, mutex, counts),
        "refused" => is_refused(rt, mutex),
        _ => return None,
    };
    Some(usize::from(is_well))
}

fn value_of(counter: &AtomicUsize) -> usize {
    counter.load(Ordering::SeqCst)
}

fn lock_thrice<R: Wait + Clock + Abort>(rt: &R, mutex: &Counter) {
    let owner = mutex.owner();
    let first = mutex.lock(rt, &owner);
    let second = mutex.lock(rt, &owner);
    let third = mutex.lock(rt, &owner);
    expect(rt, value_of(&third) == 2, "the value is 2");
    drop(third);
    expect(rt, value_of(&second) == 2, "the value is 2");
    drop(second);
    expect(rt, value_of(&first) == 2, "the value is 2");
    expect(rt, mutex.is_locked(), "one guard is left");
    expect(rt, mutex.is_owned_by(&owner), "its owner has it");
    drop(first);
}

fn add_nested<R: Wait + Clock + Abort>(rt: &R, mutex: &Counter, is_held: &AtomicUsize) -> bool {
    let owner = mutex.owner();
    let guard = mutex.lock(rt, &owner);
    is_held.fetch_add(1, Ordering::SeqCst);
    for number in 0..100usize {
        let nested = mutex.lock(rt, &owner);
        nested.fetch_add(number, Ordering::SeqCst);
        drop(nested);
    }
    drop(guard);
    true
}

fn look<R: Wait + Clock + Abort>(rt: &R, mutex: &Counter) -> usize {
    let owner = mutex.owner();
    let guard = mutex.lock(rt, &owner);
    let value = value_of(&guard);
    drop(guard);
    value
}

fn gets_it_in_each_way<R: Wait + Clock + Abort>(rt: &R, mutex: &Counter, counts: &Counts) -> bool {
    let owner = mutex.owner();
    let time = Duration::from_secs(20);
    let deadline = Instant::now(rt).expect(rt, "a clock");
    let first = mutex.try_lock(rt, &owner);
    let has_it_for = has(mutex.lock_for(rt, &owner, time));
    let has_it_until = has(mutex.lock_until(rt, &owner, deadline));
    counts.named("held").fetch_add(1, Ordering::SeqCst);
    let is_done = comes_to(counts.named("done"), 1);
    let has_it_again = has(mutex.try_lock(rt, &owner));
    has(first) && has_it_for && has_it_until && is_done && has_it_again
}

fn is_refused<R: Wait + Clock + Abort>(rt: &R, mutex: &Counter) -> bool {
    let owner = mutex.owner();
    let time = Duration::from_millis(30);
    let deadline = Instant::now(rt).expect(rt, "a clock");
    let first = mutex.try_lock(rt, &owner);
    let second = mutex.lock_for(rt, &owner, time);
    let third = mutex.lock_until(rt, &owner, deadline);
    let is_refused = first.is_none() && second.is_none() && third.is_none();
    let is_owned = mutex.is_owned_by(&owner);
    is_refused && !is_owned
}

#[test]
fn its_owner_alone_has_it(rt: HostRuntime) {
    let scripts = "# smoke
begins 2
leaves 2
reentrant thrice ; reentrant look -> 2

# is_mutex, whose value is a RefCell there
leaves 4950
thread
await held ; reentrant look -> 4950
thread
reentrant nested

# trylock_works
begins 4
leaves 4
thread
reentrant tries
thread
await held ; reentrant refused ; raise done";
    play_each(&rt, Kind::ReentrantMutex, &ROOMS, 1, scripts);
}
