//! What a parker does where its owner alone calls it.

ghost use Rattle.std.specs.Prelude.{◌≡◌};
ghost use Rattle.lot_base.specs.Node.{fields};

use super::meeting::{Meeting, TestClock};
use super::{OWNER, from_now, is_past, new_parker, now, owners_node, token_by};
use crate::{expect, expect_each};
use lot_base::queue::Node;
use lot_base::thread_parker::{ThreadParkerT, UnparkHandleT};
use std::alloc::Global;
use std::process::Abort;
use std::sync::Wait;
use std::time::{Clock, Duration, Instant};

// No node is in the slot, for this cause.
fn expect_empty<P: ThreadParkerT, R: Wait + Abort>(rt: &R, parker: &P, cause: &str) {
    expect(rt, parker.timed_out(rt), cause);
}

// The first node that comes has this token.
fn expect_token<P: ThreadParkerT, R: Wait + Abort>(rt: &R, parker: &P, token: usize) {
    let found = parker.park(rt).0.park_token.0;
    expect_each(rt, found == token, "the token of the first node", token);
}

// No node comes until the deadline, for this cause.
pub(super) fn expect_none<P: ThreadParkerT, R: Wait + Clock + Abort>(
    rt: &R,
    parker: &P,
    deadline: Instant,
    cause: &str,
) {
    expect(rt, token_by(rt, parker, Some(deadline)).is_none(), cause);
}

// A node with this token is there at a deadline that passes at once.
fn expect_found<P: ThreadParkerT, R: Wait + Clock + Abort>(rt: &R, parker: &P, token: usize) {
    let found = token_by(rt, parker, Some(now(rt)));
    expect_each(rt, found == Some(token), "a node that is there", token);
}

// A commit fills the slot until its node is taken, and its unpark may come after that.
fn take_a_commit<P: ThreadParkerT, R: Wait + Abort>(rt: &R, parker: &P, node: Box<Node>)
    requires { (fields node.value).number ≡ P.owner parker.now }
{
    let late = parker.unpark_lock(rt, node, ());
    expect(rt, late.number() == OWNER, "the owner's number");
    expect(rt, !parker.timed_out(rt), "the commit fills the slot");
    expect_token(rt, parker, 42);
    expect_empty(rt, parker, "the node was taken");
    late.unpark(parker);
    expect_empty(rt, parker, "a late unpark fills no slot");
}

// A commit to a slot that holds a node already leaves that one there, and unparks nobody twice.
fn commit_twice<P: ThreadParkerT, R: Wait + Abort>(
    rt: &R,
    parker: &P,
    second: Box<Node>,
    third: Box<Node>,
)
    requires second { (fields second.value).number ≡ P.owner parker.now }
    requires third { (fields third.value).number ≡ P.owner parker.now }
{
    drop(parker.unpark_lock(rt, second, ()));
    drop(parker.unpark_lock(rt, third, ()));
    expect_token(rt, parker, 43);
    expect_empty(rt, parker, "the node was taken");
}

// No clause says when a slot is full, nor which of two nodes stays. This refuses a parker whose
// `timed_out` has one answer always, that keeps the second node, or whose `unpark_lock` drops the
// node, so that the first `park` does not end.
fn takes_turns<P: ThreadParkerT, R: Wait + Abort>(rt: &R, alloc: Global) {
    let parker: P = new_parker(rt, alloc);
    parker.prepare_park();
    expect_empty(rt, &parker, "nobody has put a node");
    take_a_commit(rt, &parker, owners_node(rt, alloc, 42));
    let second = owners_node(rt, alloc, 43);
    let third = owners_node(rt, alloc, 44);
    commit_twice(rt, &parker, second, third);
}

// No clause says when a timed wait ends. With a `park_until` that looks at no clock, this does not
// end, and with one that goes on where the clock cannot be read, it takes an hour.
fn waits_to_the_deadline<P: ThreadParkerT, R: Wait + Clock + Abort>(rt: &R, alloc: Global) {
    let parker: P = new_parker(rt, alloc);
    let soon = from_now(rt, Duration::from_millis(20));
    expect_none(rt, &parker, soon, "nobody puts a node");
    expect(rt, is_past(rt, soon), "the deadline has passed");
    expect_none(rt, &parker, soon, "the deadline passed before");
    expect_empty(rt, &parker, "nobody has put a node");
    let in_an_hour = from_now(rt, Duration::from_hours(1));
    let unreadable = TestClock {
        rt,
        meeting: &Meeting::new(),
        ahead: None,
        is_slow: false,
    };
    let found = token_by(&unreadable, &parker, Some(in_an_hour));
    expect(rt, found.is_none(), "the clock cannot be read");
}

// No clause says that a node in the slot is found. This refuses a `park_until` that answers `None`
// at a deadline without a look.
fn looks_after_the_deadline<P: ThreadParkerT, R: Wait + Clock + Abort>(rt: &R, alloc: Global) {
    let parker: P = new_parker(rt, alloc);
    let late = parker.unpark_lock(rt, owners_node(rt, alloc, 42), ());
    expect_found(rt, &parker, 42);
    late.unpark(&parker);
    expect_empty(rt, &parker, "a late unpark fills no slot");
}

// Waits in vain for so long, and takes a node that is put after that. It prepares to park between
// the two, or not. No clause says what a wait that ended at its deadline leaves. This refuses a
// parker that takes it for a node, or that loses the next one, and one with which such a deadline
// does not come.
fn takes_a_commit_after_a_timeout<P: ThreadParkerT, R: Wait + Clock + Abort>(
    rt: &R,
    alloc: Global,
    milliseconds: u64,
    prepares: bool,
) {
    let parker: P = new_parker(rt, alloc);
    let soon = from_now(rt, Duration::from_millis(milliseconds));
    expect_none(rt, &parker, soon, "nobody puts a node");
    if prepares {
        parker.prepare_park();
        expect_empty(rt, &parker, "nobody has put a node");
    }
    take_a_commit(rt, &parker, owners_node(rt, alloc, 42));
    expect_none(rt, &parker, soon, "the node was taken");
}

/// Slots that are filled and emptied, and waits until a deadline.
pub(super) fn takes_turns_and_waits<P: ThreadParkerT, R: Wait + Clock + Abort>(
    rt: &R,
    alloc: Global,
) {
    takes_turns::<P, _>(rt, alloc);
    waits_to_the_deadline::<P, _>(rt, alloc);
    looks_after_the_deadline::<P, _>(rt, alloc);
    takes_a_commit_after_a_timeout::<P, _>(rt, alloc, 5, false);
    takes_a_commit_after_a_timeout::<P, _>(rt, alloc, 1_005, true);
}

// How often a wait that sleeps reads the clock at most. One that looks again and again reads it
// some thousand times in its time.
const READS: usize = 100;

/// Waits in vain again and again, without a word to the parker between two waits. This refuses a
/// `park_until` that does not sleep where the wait before has left the mark of a sleeper.
pub(super) fn sleeps_each_time<P: ThreadParkerT, R: Wait + Clock + Abort>(rt: &R, alloc: Global) {
    let parker = new_parker::<P>(rt, alloc);
    for wait in 0..3 {
        let meeting = Meeting::new();
        let clock = TestClock {
            rt,
            meeting: &meeting,
            ahead: Some(Duration::ZERO),
            is_slow: false,
        };
        let deadline = from_now(rt, Duration::from_millis(50));
        let found = token_by(&clock, &parker, Some(deadline));
        let sleeps = found.is_none() && meeting.reads() <= READS;
        expect_each(rt, sleeps, "a wait that sleeps", wait);
    }
}
