//! Tests of the calls that a `TitledMutex` has as a `Mutex` has them, and of `TitledCondvar`.

use crate::stage::{Host, ROOM, ROOMS, expect, has, new_titled_lot, value_in};
use parking_lot::{Guard, Lens, TitledCondvar, TitledLot, TitledMutex, TitledMutexGuard};
use std::sync::Wait;
use std::thread;
use std::time::{Clock, Duration, Instant};

// How many things go through a line.
const THINGS: usize = 300;

// How many things a line has at most.
const MOST: usize = 2;

// How long a thread waits that nobody notifies, in milliseconds.
const SHORT: u64 = 5;

type OneMutex<'l> = TitledMutex<'l, usize>;

type Pair = (usize, usize);

// The second number of a pair.
#[derive(Drop)]
struct Last;

impl Lens<Pair> for Last {
    type Part = usize;

    fn part<'a>(&self, whole: &'a Pair) -> &'a usize {
        &whole.1
    }

    fn part_mut<'a>(&self, whole: &'a mut Pair) -> &'a mut usize {
        &mut whole.1
    }
}

fn choose_none(_pair: &Pair) -> Option<Last> {
    None
}

fn lends_the_value<R: Host>(rt: &R, mutex: &OneMutex<'_>) {
    let guard = TitledMutexGuard::bump(mutex.lock(rt));
    expect(
        rt,
        TitledMutexGuard::mutex(&guard).is_locked(),
        "it is locked",
    );
    let (mut guard, is_free) = TitledMutexGuard::unlocked(guard, || has(mutex.try_lock(rt)));
    expect(rt, is_free, "it was unlocked");
    *guard = 2;
    drop(guard);
    expect(rt, value_in(mutex.lock(rt)) == 2, "it was written");
}

fn lends_a_part<R: Host>(rt: &R, mutex: &TitledMutex<'_, Pair>) {
    let mut part = Guard::map(mutex.lock(rt), Last);
    *part = 3;
    drop(part);
    let chosen = Guard::try_map(mutex.lock(rt), choose_none).ok();
    expect(rt, chosen.is_none() && !mutex.is_locked(), "none is chosen");
    expect(rt, mutex.lock(rt).1 == 3, "it was written");
}

#[test]
fn a_titled_mutex_lends_its_value(rt: HostRuntime) {
    let lot = new_titled_lot(&rt, 1);
    let mutex = TitledMutex::new(&rt, lot, 1usize).expect(&rt, "a mutex");
    lends_the_value(&rt, &mutex);
    let shown = format!(in rt.alloc(); "{mutex:?}").expect(&rt, "memory");
    expect(&rt, shown.as_str() == "TitledMutex { .. }", "it is shown");
    let pair = TitledMutex::new(&rt, lot, (1, 2)).expect(&rt, "a mutex");
    lends_a_part(&rt, &pair);
    let leaked = TitledMutexGuard::leak(mutex.lock(&rt), rt.alloc()).ok();
    expect(&rt, leaked.map(|value| *value) == Some(2), "it is leaked");
    expect(&rt, mutex.is_locked(), "it is never unlocked");
    expect(&rt, mutex.into_inner().is_none(), "its value is leaked");
}

// A line of things, which are only counted, between two threads.
struct Line<'l> {
    things: OneMutex<'l>,
    filled: TitledCondvar<'l>,
    freed: TitledCondvar<'l>,
}

impl Line<'_> {
    fn fill<R: Wait + Clock>(&self, rt: &R) {
        for _ in 0..THINGS {
            let things = self.things.lock(rt);
            let mut things = self
                .freed
                .wait_while(things, |things: &mut usize| *things == MOST);
            *things = things.wrapping_add(1);
            drop(things);
            self.filled.notify_one(rt);
        }
    }

    fn empty<R: Wait + Clock>(&self, rt: &R) {
        for _ in 0..THINGS {
            let things = self.things.lock(rt);
            let mut things = self
                .filled
                .wait_while(things, |things: &mut usize| *things == 0);
            *things = things.wrapping_sub(1);
            self.freed.notify_all(rt);
        }
    }
}

fn new_condvar<'l, R: Host>(rt: &R, lot: &'l TitledLot) -> TitledCondvar<'l> {
    TitledCondvar::new(rt, lot).expect(rt, "a condition variable")
}

fn passes_things<R: Host>(rt: &R, room: usize) {
    let lot = new_titled_lot(rt, room);
    let line = Line {
        things: TitledMutex::new(rt, lot, 0).expect(rt, "a mutex"),
        filled: new_condvar(rt, lot),
        freed: new_condvar(rt, lot),
    };
    thread::join(rt, &|| line.fill(rt), &|| line.empty(rt));
    let Line {
        things,
        filled: _filled,
        freed: _freed,
    } = line;
    expect(rt, things.into_inner() == Some(0), "none is left");
}

// In a lot with no room, whoever waits looks again and again.
#[test]
fn things_go_through_a_line_with_a_titled_mutex(rt: HostRuntime) {
    for room in ROOMS {
        passes_things(&rt, room);
    }
}

fn times_out<R: Host>(rt: &R, mutex: &OneMutex<'_>, condvar: &TitledCondvar<'_>, room: usize) {
    let time = Duration::from_millis(SHORT);
    let (guard, ended) = condvar.wait_for(mutex.lock(rt), time);
    expect(rt, ended.timed_out() == (room > 0), "nobody notifies");
    let (guard, ended) = condvar.wait_while_for(guard, |value: &mut usize| *value == 0, time);
    expect(rt, ended.timed_out(), "it is still 0");
    let deadline = Instant::now(rt).expect(rt, "a clock");
    let (guard, ended) = condvar.wait_until(guard, deadline);
    expect(rt, ended.timed_out() == (room > 0), "nobody notifies");
    let (guard, ended) = condvar.wait_while_until(guard, |value: &mut usize| *value == 1, deadline);
    expect(rt, !ended.timed_out() && *guard == 0, "it is 0");
}

#[test]
fn a_wait_with_a_titled_mutex_ends_by_its_time(rt: HostRuntime) {
    for room in ROOMS {
        let lot = new_titled_lot(&rt, room);
        let mutex = TitledMutex::new(&rt, lot, 0).expect(&rt, "a mutex");
        let condvar = new_condvar(&rt, lot);
        times_out(&rt, &mutex, &condvar, room);
    }
}

// Waits until the value is another one, and answers what it is then.
fn sees<R: Host>(rt: &R, mutex: &OneMutex<'_>, changed: &TitledCondvar<'_>) -> usize {
    value_in(changed.wait_while(mutex.lock(rt), |value: &mut usize| *value == 0))
}

// Sets the value, and answers how many threads it notified.
fn sets<R: Host>(rt: &R, mutex: &OneMutex<'_>, changed: &TitledCondvar<'_>) -> usize {
    let mut value = mutex.lock(rt);
    *value = 1;
    drop(value);
    changed.notify_all(rt)
}

// Two threads wait, and a third notifies them.
fn notifies_all<R: Host>(rt: &R, mutex: &OneMutex<'_>, changed: &TitledCondvar<'_>) {
    let see = || sees(rt, mutex, changed);
    let two = || thread::join(rt, &see, &see);
    let (seen, count) = thread::join(rt, &two, &|| sets(rt, mutex, changed));
    expect(rt, seen == (1, 1) && count <= 2, "both were notified");
    expect(rt, !changed.notify_one(rt), "nobody waits any more");
}

// No thread waits for a notify that came after it had begun to wait.
#[test]
fn all_who_wait_on_a_titled_condvar_are_notified(rt: HostRuntime) {
    for room in ROOMS {
        let lot = new_titled_lot(&rt, room);
        let mutex = TitledMutex::new(&rt, lot, 0).expect(&rt, "a mutex");
        let changed = new_condvar(&rt, lot);
        notifies_all(&rt, &mutex, &changed);
    }
}

#[test]
fn a_titled_condvar_is_shown(rt: HostRuntime) {
    let changed = new_condvar(&rt, new_titled_lot(&rt, 1));
    let shown = format!(in rt.alloc(); "{changed:?}").expect(&rt, "memory");
    expect(&rt, shown.as_str() == "TitledCondvar { .. }", "it is shown");
}
