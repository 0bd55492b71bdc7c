//! Tests of `Condvar`.
//!
//! - `condvar`, `other_condvar`: `notify_one`, `notify_all`, `notify_one_held`, `notify_all_held`,
//!   `notify_all_after N` (`notify_all`, if that is the value which the thread saw last),
//!   `wait`, `wait_for TIME`, `wait_until TIME` (whether it was notified in time), and
//!   `wait_while CONDITION`, `wait_while_for TIME CONDITION`, `wait_while_until TIME CONDITION`
//!   (whether the condition came to be false in time). A condition is `is N`, `not N`, or
//!   `counts N`, which adds 1 at each look and then asks whether the value is not N.

use crate::mutex::Guard;
use crate::player::{Kind, play_each};
use crate::stage::{Patience, ROOM, ROOMS, hold};
use parking_lot::Condvar;
use parking_lot::mutex::Fairness;
use std::sync::Wait;
use std::time::Clock;
use test_support::words::Words;

pub fn use_condvar<'x, F: Fairness, R: Wait + Clock>(
    rt: &'x R,
    condvar: &Condvar<'static>,
    held: &mut Option<Guard<'x, F, R>>,
    last: usize,
    words: &mut Words<'_>,
) -> Option<usize> {
    match words.word()? {
        "notify_one" => Some(usize::from(condvar.notify_one(rt))),
        "notify_all" => Some(condvar.notify_all(rt)),
        "notify_one_held" => Some(usize::from(condvar.notify_one_held(held.as_ref()?))),
        "notify_all_held" => Some(condvar.notify_all_held(held.as_ref()?)),
        "notify_all_after" if words.number()? == last => Some(condvar.notify_all(rt)),
        "notify_all_after" => Some(0),
        call => wait(rt, condvar, held, call, words),
    }
}

fn wait<'x, F: Fairness, R: Wait + Clock>(
    rt: &'x R,
    condvar: &Condvar<'static>,
    held: &mut Option<Guard<'x, F, R>>,
    call: &str,
    words: &mut Words<'_>,
) -> Option<usize> {
    let (name, patience) = Patience::of(rt, call, words)?;
    let condition = if name == "wait_while" {
        Some(condition(words)?)
    } else {
        None
    };
    let guard = held.take()?;
    let (guard, is_in_time) = match condition {
        Some(condition) => wait_while(condvar, guard, condition, patience),
        None => wait_once(condvar, guard, patience),
    };
    hold(held, guard);
    Some(usize::from(is_in_time))
}

// No call only tries to wait.
fn wait_once<'x, F: Fairness, R: Wait + Clock>(
    condvar: &Condvar<'static>,
    guard: Guard<'x, F, R>,
    patience: Patience,
) -> (Guard<'x, F, R>, bool) {
    let (guard, ended) = match patience {
        Patience::Over => return (guard, false),
        Patience::Endless => return (condvar.wait(guard), true),
        Patience::For(time) => condvar.wait_for(guard, time),
        Patience::Until(deadline) => condvar.wait_until(guard, deadline),
    };
    (guard, !ended.timed_out())
}

// What is added at each look, the number, and whether the condition is true where it is that.
fn condition(words: &mut Words<'_>) -> Option<(usize, usize, bool)> {
    match words.word()? {
        "is" => Some((0, words.number()?, true)),
        "not" => Some((0, words.number()?, false)),
        "counts" => Some((1, words.number()?, false)),
        _ => None,
    }
}

fn wait_while<'x, F: Fairness, R: Wait + Clock>(
    condvar: &Condvar<'static>,
    guard: Guard<'x, F, R>,
    condition: (usize, usize, bool),
    patience: Patience,
) -> (Guard<'x, F, R>, bool) {
    let (step, number, is_it) = condition;
    let goes_on = move |value: &mut usize| {
        *value = value.wrapping_add(step);
        (*value == number) == is_it
    };
    let (guard, ended) = match patience {
        Patience::Over => return (guard, false),
        Patience::Endless => return (condvar.wait_while(guard, goes_on), true),
        Patience::For(time) => condvar.wait_while_for(guard, goes_on, time),
        Patience::Until(deadline) => condvar.wait_while_until(guard, goes_on, deadline),
    };
    (guard, !ended.timed_out())
}

#[test]
fn nobody_notifies_or_is_notified(rt: HostRuntime) {
    let scripts = "# smoke, and notify_one_return_false
condvar notify_one -> 0 ; condvar notify_all -> 0 ; mutex lock ; condvar notify_one -> 0
condvar notify_all -> 0 ; condvar notify_one_held -> 0 ; condvar notify_all_held -> 0

# wait_for, and wait_until
mutex lock ; condvar wait_for no_time -> 0 ; condvar wait_for short -> 0
condvar wait_until no_time -> 0 ; condvar wait_until short -> 0

# wait_while_until_internal_does_not_wait_if_initially_false, and the same of the others
mutex lock ; condvar wait_while counts 1 ; guard value -> 1
condvar wait_while_until long counts 2 ; guard value -> 2
condvar wait_while_for no_time counts 3 ; guard value -> 3

# wait_while_until_internal_times_out_before_false, which asks once more here as it ends
mutex lock
condvar wait_while_until short counts 0 -> 0 ; guard value -> 1 or 2 ; guard set 0
condvar wait_while_for short counts 0 -> 0 ; guard value -> 1 or 2";
    play_each(&rt, Kind::Mutexes, &[ROOM], 1, scripts);
}

#[test]
fn who_waits_is_notified(rt: HostRuntime) {
    let scripts = "# notify_one, notify_one_return_true, notify_all, and under the mutex
thread
repeat 4 mutex lock ; raise came ; condvar wait ; guard unlock
thread
await came 1 ; mutex lock ; guard unlock ; condvar notify_one -> 1
await came 2 ; mutex lock ; guard unlock ; condvar notify_all -> 1
await came 3 ; mutex lock ; condvar notify_one_held -> 1 ; guard unlock
await came 4 ; mutex lock ; condvar notify_all_held -> 1 ; guard unlock

# notify_all_return
thread 10
mutex lock ; guard add 1 ; raise came
until condvar wait ; guard value -> 0
thread
await came 10 ; mutex lock ; guard set 0 ; guard unlock ; condvar notify_all -> 10
after
condvar notify_all -> 0

# notify_all_return, under the mutex
thread 10
mutex lock ; guard add 1 ; raise came
until condvar wait ; guard value -> 0
thread
await came 10 ; mutex lock ; guard set 0 ; condvar notify_all_held -> 10
after
condvar notify_all -> 0

# wait_for, and wait_until
thread
mutex lock ; raise came ; condvar wait_for endless ; guard unlock
mutex lock ; raise came ; condvar wait_until long
thread
await came 1 ; mutex lock ; condvar notify_one_held ; guard unlock
await came 2 ; mutex lock ; condvar notify_one_held

# wait_while_until_internal, which asks at each notify
thread
mutex lock ; condvar wait_while counts 5 ; guard value -> 5 ; condvar wait_while counts 6
leaves 6
thread
mutex lock
until guard unlock ; mutex lock ; guard value -> 1
condvar notify_one_held
until guard unlock ; mutex lock ; guard value -> 2
condvar notify_one_held
until guard unlock ; mutex lock ; guard value -> 3
condvar notify_one_held
until guard unlock ; mutex lock ; guard value -> 4
condvar notify_one_held

# two_mutexes_disjoint
thread
mutex lock ; raise came ; condvar wait
thread
await came ; mutex lock ; condvar notify_one_held
after
take second ; mutex lock ; condvar wait_for short -> 0

# test_condvar_requeue
thread
mutex lock ; condvar wait
thread
mutex lock
until guard bump ; yield ; condvar notify_one_held

# test_issue_129
thread 4
mutex lock ; raise came ; condvar wait ; condvar wait_for no_time -> any
condvar notify_one_held -> any
thread
await came 4 ; mutex lock ; guard unlock ; condvar notify_one

# test_mutex_arc_condvar, and the example of the documentation: one wait is enough
thread
mutex lock ; raise came ; condvar wait ; guard value -> 1
thread
await came ; mutex lock ; guard set 1 ; condvar notify_all_held";
    play_each(&rt, Kind::Mutexes, &[ROOM], 1, scripts);
}

// Where the lot is full, some yield and are not notified.
#[test]
fn who_waits_is_notified_in_a_small_lot(rt: HostRuntime) {
    let scripts = "# notify_all
thread 10
mutex lock ; guard add 1 ; raise came
until condvar wait ; guard value -> 0
thread
await came 10 ; mutex lock ; guard set 0 ; guard unlock ; condvar notify_all -> any
after
condvar notify_all -> 0

# notify_all, under the mutex
thread 10
mutex lock ; guard add 1 ; raise came
until condvar wait ; guard value -> 0
thread
await came 10 ; mutex lock ; guard set 0 ; condvar notify_all_held -> any
after
condvar notify_all -> 0

# Deadlines do not pass.
thread
mutex lock ; condvar wait_while_for long is 0
thread
mutex lock ; condvar wait_while_until long is 0
thread
mutex lock ; condvar wait_while_for endless is 0
thread
mutex lock ; guard set 1 ; condvar notify_all_held -> any

# two_mutexes, which is a panic there
thread
mutex lock ; condvar wait_while is 0 ; guard value -> 1
thread
take second ; mutex lock ; condvar wait_while is 0 ; guard value -> 1
thread
take second ; mutex lock ; guard set 1 ; condvar notify_all_held -> any ; guard unlock
take mutex ; mutex lock ; guard set 1 ; condvar notify_all_held -> any

# two_mutexes, one of another lot
thread
mutex lock ; condvar wait_while is 0 ; guard value -> 1
thread
take foreign ; mutex lock ; condvar wait_while is 0 ; guard value -> 1
thread
take foreign ; mutex lock ; guard set 1 ; condvar notify_all_held -> any ; guard unlock
take mutex ; mutex lock ; guard set 1 ; condvar notify_all_held -> any

# Two take turns.
thread
repeat 200 mutex lock ; condvar wait_while is 1 ; guard set 1 ; raise done ; \
condvar notify_one_held -> any ; guard unlock_fair
thread
repeat 200 mutex lock ; condvar wait_while is 0 ; guard set 0 ; raise done ; \
condvar notify_one_held -> any ; guard unlock_fair
after
tell done -> 400";
    play_each(&rt, Kind::Mutexes, &ROOMS, 1, scripts);
}
