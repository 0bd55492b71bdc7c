//! Commits beside a thread that just goes to sleep.

ghost use Rattle.std.specs.Prelude.{◌≡◌};

use super::meeting::Meeting;
use super::{OWNER, from_now, is_past, new_parker, owners_node};
use crate::expect;
use lot_base::thread_parker::{ThreadParkerT, UnparkHandleT, WordParker};
use std::alloc::Global;
use std::process::Abort;
use std::sync::Wait;
use std::thread::Threads;
use std::time::{Clock, Duration};
use std::{hint, thread};

const ROUNDS: usize = 2_000_000;

// For so long the rounds last at most.
const SECONDS: u64 = 10;

// Tells that a round begins, and waits for its node, until the rounds are over. Tells whether each
// node was that of its round.
fn park_often<P: ThreadParkerT, R: Wait>(rt: &R, parker: &P, meeting: &Meeting) -> bool {
    let mut all = true;
    for round in 0..ROUNDS {
        meeting.begin();
        let (node, _) = parker.park(rt);
        all = all && node.park_token.0 == round;
        if meeting.has_come() {
            break;
        }
    }
    all
}

// Commits a node in each round as soon as it has begun and a little later, for so many rounds or
// seconds.
fn commit_often<P: ThreadParkerT, R: Wait + Clock + Abort>(
    rt: &R,
    alloc: Global,
    parker: &P,
    meeting: &Meeting,
)
    requires { P.owner parker.now ≡ OWNER }
{
    let end = from_now(rt, Duration::from_secs(SECONDS));
    for round in 0..ROUNDS {
        let node = owners_node(rt, alloc, round);
        meeting.wait_for(round + 1);
        for _ in 0..round % 128 {
            hint::spin_loop();
        }
        let is_last = is_past(rt, end);
        if is_last {
            meeting.come();
        }
        parker.unpark_lock(rt, node, ()).unpark(parker);
        if is_last {
            break;
        }
    }
}

// What the owner answers.
fn race<P, R>(rt: &R, alloc: Global, parker: &P) -> bool
where
    P: ThreadParkerT + Sync,
    R: Threads + Wait + Clock + Sync + Abort,
    requires { P.owner parker.now ≡ OWNER }
{
    let meeting = Meeting::new();
    let (all, ()) = thread::join(
        rt,
        || park_often(rt, parker, &meeting),
        ||
            requires { P.owner parker.now ≡ OWNER }
        {
            commit_often(rt, alloc, parker, &meeting);
        },
    );
    all
}

fn each_node_is_that_of_its_round<P, R>(rt: &R, alloc: Global) -> bool
where
    P: ThreadParkerT + Sync,
    R: Threads + Wait + Clock + Sync + Abort,
{
    let parker: P = new_parker(rt, alloc);
    race(rt, alloc, &parker)
}

// It refuses a commit that takes its owner for awake that has just marked that it sleeps, in about
// every second run: the two have to meet within some nanoseconds.
#[test]
fn a_word_parker_wakes_one_that_just_goes_to_sleep(rt: HostRuntime) {
    let all = each_node_is_that_of_its_round::<WordParker, _>(&rt, rt.alloc());
    expect(&rt, all, "each node is that of its round");
}
