//! What a parker does where another thread commits a node while its owner waits.

ghost use Rattle.std.specs.Prelude.{◌≡◌};

use super::alone::expect_none;
use super::meeting::{Meeting, TestClock};
use super::{OWNER, from_now, is_past, new_parker, now, owners_node, token_by};
use crate::{expect, expect_each};
use lot_base::thread_parker::{ThreadParkerT, UnparkHandleT};
use std::alloc::Global;
use std::process::Abort;
use std::sync::Wait;
use std::thread;
use std::thread::Threads;
use std::time::{Clock, Duration, Instant};

// How the owner waits, and how the other thread commits.
#[derive(Drop)]
struct Plan {
    // Until when the owner waits, if not for ever.
    deadline: Option<Instant>,

    // By how much its clock is ahead.
    ahead: Duration,

    // Whether the other thread begins while the clock is read.
    is_slow: bool,

    // Whether the other thread begins after the owner has waited.
    is_last: bool,

    // Whether the owner waits once more, in vain, when it has its node.
    waits_again: bool,

    // How long after the owner's beginning the node is put.
    pause: Duration,

    // How long after that the owner is woken, if at all.
    wake_after: Option<Duration>,
}

impl Plan {
    // The owner waits until the deadline, and is woken as soon as its node was put.
    fn until(deadline: Option<Instant>, pause: Duration) -> Plan {
        Plan {
            deadline,
            ahead: Duration::ZERO,
            is_slow: false,
            is_last: false,
            waits_again: false,
            pause,
            wake_after: Some(Duration::ZERO),
        }
    }
}

// Waits in vain until a deadline, and not for long after it. This refuses a `park_until` that
// sleeps for longer than is left until its deadline.
fn ends_in_time<P: ThreadParkerT, R: Wait + Clock + Abort>(rt: &R, parker: &P) {
    let deadline = from_now(rt, Duration::from_millis(500));
    let latest = from_now(rt, Duration::from_millis(800));
    expect_none(rt, parker, deadline, "nobody puts a node");
    let is_in_time = is_past(rt, deadline) && !is_past(rt, latest);
    expect(rt, is_in_time, "a wait that ends in time");
}

// The token of the node that the owner finds, if it finds one.
fn wait<P: ThreadParkerT, R: Wait + Clock + Abort>(
    rt: &R,
    parker: &P,
    plan: &Plan,
    meeting: &Meeting,
) -> Option<usize> {
    let clock = TestClock {
        rt,
        meeting,
        ahead: Some(plan.ahead),
        is_slow: plan.is_slow,
    };
    if !plan.is_slow && !plan.is_last {
        meeting.begin();
    }
    let token = token_by(&clock, parker, plan.deadline);
    meeting.begin();
    if plan.waits_again {
        ends_in_time(rt, parker);
    }
    token
}

// Puts a node with this token once the owner has begun, and tells whether the deadline was still to
// come.
fn commit<P: ThreadParkerT, R: Wait + Clock + Abort>(
    rt: &R,
    alloc: Global,
    parker: &P,
    token: usize,
    plan: &Plan,
    meeting: &Meeting,
) -> bool
    requires { P.owner parker.now ≡ OWNER }
{
    let node = owners_node(rt, alloc, token);
    meeting.wait_for(1);
    thread::sleep(rt, plan.pause);
    let handle = parker.unpark_lock(rt, node, ());
    meeting.come();
    if let Some(pause) = plan.wake_after {
        thread::sleep(rt, pause);
        handle.unpark(parker);
    }
    match plan.deadline {
        Some(deadline) => !is_past(rt, deadline),
        None => true,
    }
}

// The token that the owner finds, and whether the node with this token was put before the deadline.
fn meet<P: ThreadParkerT + Sync, R: Threads + Wait + Clock + Abort + Sync>(
    rt: &R,
    alloc: Global,
    parker: &P,
    token: usize,
    plan: &Plan,
    meeting: &Meeting,
) -> (Option<usize>, bool)
    requires { P.owner parker.now ≡ OWNER }
{
    thread::join(
        rt,
        || wait(rt, parker, plan, meeting),
        ||
            requires { P.owner parker.now ≡ OWNER }
        { commit(rt, alloc, parker, token, plan, meeting) },
    )
}

// The same for a parker that is made here.
fn found<P: ThreadParkerT + Sync, R: Threads + Wait + Clock + Abort + Sync>(
    rt: &R,
    alloc: Global,
    token: usize,
    plan: &Plan,
) -> (Option<usize>, bool) {
    let parker: P = new_parker(rt, alloc);
    meet(rt, alloc, &parker, token, plan, &Meeting::new())
}

// No clause says that a wake reaches anybody. With an `unpark` that notifies nobody, this ends no
// sooner than the deadline where the owner slept before the commit, and not without one.
fn wakes_its_thread<P: ThreadParkerT + Sync, R: Threads + Wait + Clock + Sync + Abort>(
    rt: &R,
    alloc: Global,
    deadline: Option<Instant>,
) {
    let plan = Plan::until(deadline, Duration::ZERO);
    for round in 0..100 {
        let (token, _) = found::<P, _>(rt, alloc, round, &plan);
        expect_each(rt, token == Some(round), "a wake", round);
    }
}

// The owner sleeps in vain first, and again until its node is put. No clause says that a sleeper is
// woken. With a commit that takes the owner for awake, this does not end, or ends at the deadline.
fn wakes_a_sleeper<P: ThreadParkerT + Sync, R: Threads + Wait + Clock + Sync + Abort>(
    rt: &R,
    alloc: Global,
    deadline: Option<Instant>,
) {
    let parker: P = new_parker(rt, alloc);
    let soon = from_now(rt, Duration::from_millis(2));
    expect_none(rt, &parker, soon, "nobody puts a node");
    let plan = Plan::until(deadline, Duration::from_millis(5));
    let (token, _) = meet(rt, alloc, &parker, 42, &plan, &Meeting::new());
    expect(rt, token == Some(42), "a sleeper");
}

// Without a deadline, and with one that no wake is to reach.
fn wakes<P: ThreadParkerT + Sync, R: Threads + Wait + Clock + Sync + Abort>(rt: &R, alloc: Global) {
    let late = from_now(rt, Duration::from_secs(30));
    for deadline in [None, Some(late)] {
        wakes_its_thread::<P, _>(rt, alloc, deadline);
        wakes_a_sleeper::<P, _>(rt, alloc, deadline);
    }
    expect(rt, !is_past(rt, late), "no wait lasted to the deadline");
}

// This refuses a `park_until` that lets its lock go, reads the clock, and answers `None` without a
// look after that: a node that was put before the clock was read is there.
fn looks_after_the_clock<P: ThreadParkerT + Sync, R: Threads + Wait + Clock + Abort + Sync>(
    rt: &R,
    alloc: Global,
) {
    let parker = new_parker::<P>(rt, alloc);
    let meeting = Meeting::new();
    let mut plan = Plan::until(Some(now(rt)), Duration::ZERO);
    plan.is_slow = true;
    plan.wake_after = None;
    let (token, _) = meet(rt, alloc, &parker, 42, &plan, &meeting);
    let is_found = token == Some(42) || !meeting.was_seen();
    expect(rt, is_found, "a node that came before the clock was read");
    expect(
        rt,
        parker.timed_out(rt) == token.is_some(),
        "the slot of the parker",
    );
}

// A node that is put before the deadline, so long from now, comes back.
fn comes_back<P: ThreadParkerT + Sync, R: Threads + Wait + Clock + Abort + Sync>(
    rt: &R,
    alloc: Global,
    duration: Duration,
    pause: Duration,
) {
    let plan = Plan::until(Some(from_now(rt, duration)), pause);
    let (token, in_time) = found::<P, _>(rt, alloc, 42, &plan);
    let seconds = duration.as_secs() as usize;
    expect_each(
        rt,
        token == Some(42) || !in_time,
        "seconds to the deadline",
        seconds,
    );
}

// The same, while the owner sleeps, and it is not woken.
fn comes_back_unwoken<P: ThreadParkerT + Sync, R: Threads + Wait + Clock + Abort + Sync>(
    rt: &R,
    alloc: Global,
) {
    let deadline = from_now(rt, Duration::from_millis(100));
    let mut plan = Plan::until(Some(deadline), Duration::from_millis(10));
    plan.wake_after = None;
    let (token, in_time) = found::<P, _>(rt, alloc, 42, &plan);
    expect(rt, token == Some(42) || !in_time, "nobody wakes the owner");
}

// Durations that an integer of 32 or 64 bits cannot hold, in seconds and parts of them, or that it
// holds as a negative one. A little more than the first that it cannot hold is a little for it.
fn great_durations() -> [Duration; 14] {
    let little = Duration::from_millis(5);
    [
        Duration::from_secs(1 << 31),
        Duration::from_secs(1 << 32).saturating_add(little),
        Duration::from_millis(1 << 31),
        Duration::from_millis(1 << 32),
        Duration::from_millis(1 << 32).saturating_add(little),
        Duration::from_micros(1 << 31).saturating_add(little),
        Duration::from_micros(1 << 32),
        Duration::from_micros(1 << 32).saturating_add(little),
        Duration::from_nanos(1 << 31).saturating_add(little),
        Duration::from_nanos(1 << 32),
        Duration::from_nanos(1 << 32).saturating_add(little),
        Duration::from_nanos(1 << 63).saturating_add(little),
        Duration::from_nanos(u64::MAX).saturating_add(little),
        Duration::from_micros(u64::MAX).saturating_add(little),
    ]
}

// This refuses a `park_until` that answers `None` after its last sleep without a look, takes a
// deadline far away for one that has passed, keeps 32 or 64 bits of the time that is left, in
// whatever unit, or ends after some number of looks or sleeps.
fn comes_back_by_its_deadline<P: ThreadParkerT + Sync, R: Threads + Wait + Clock + Abort + Sync>(
    rt: &R,
    alloc: Global,
) {
    let soon = Duration::from_millis(10);
    comes_back_unwoken::<P, _>(rt, alloc);
    for years in [1, 1_000, 100_000] {
        comes_back::<P, _>(rt, alloc, Duration::from_hours(24 * 365 * years), soon);
    }
    for duration in great_durations() {
        comes_back::<P, _>(rt, alloc, duration, soon);
    }
    comes_back::<P, _>(rt, alloc, Duration::from_hours(1), Duration::from_secs(4));
}

// This refuses a `park_until` that takes a deadline so long ago for one to come.
fn gives_up_at_once<P: ThreadParkerT + Sync, R: Threads + Wait + Clock + Abort + Sync>(
    rt: &R,
    alloc: Global,
    ago: Duration,
) {
    let mut plan = Plan::until(Some(now(rt)), Duration::ZERO);
    plan.ahead = ago;
    plan.is_last = true;
    let (token, _) = found::<P, _>(rt, alloc, 42, &plan);
    let seconds = ago.as_secs() as usize;
    expect_each(rt, token.is_none(), "seconds since the deadline", seconds);
}

// The owner has its node and waits again when it is woken. This refuses a `park_until` that ends at
// a wake without a node, or begins its whole wait anew.
fn outlasts_a_late_wake<P: ThreadParkerT + Sync, R: Threads + Wait + Clock + Abort + Sync>(
    rt: &R,
    alloc: Global,
) {
    let mut plan = Plan::until(None, Duration::ZERO);
    plan.wake_after = Some(Duration::from_millis(400));
    plan.waits_again = true;
    let (token, _) = found::<P, _>(rt, alloc, 42, &plan);
    expect(rt, token == Some(42), "a late wake");
}

/// Wakes, and deadlines that nothing moves.
pub(super) fn wakes_and_keeps_deadlines<P, R>(rt: &R, alloc: Global)
where
    P: ThreadParkerT + Sync,
    R: Threads + Wait + Clock + Sync + Abort,
{
    wakes::<P, _>(rt, alloc);
    looks_after_the_clock::<P, _>(rt, alloc);
    comes_back_by_its_deadline::<P, _>(rt, alloc);
    gives_up_at_once::<P, _>(rt, alloc, Duration::from_hours(1));
    for ago in great_durations() {
        gives_up_at_once::<P, _>(rt, alloc, ago);
    }
    ends_in_time::<P, _>(rt, &new_parker(rt, alloc));
    outlasts_a_late_wake::<P, _>(rt, alloc);
}
