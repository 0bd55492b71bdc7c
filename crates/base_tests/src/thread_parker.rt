//! Tests of slots, and of every parker through the trait alone.

ghost use Rattle.std.specs.Prelude.{◌≡◌};
ghost use Rattle.lot_base.specs.Node.{fields};

mod alone;
mod between;
mod meeting;
mod payload;
mod races;

use crate::expect;
use crate::nodes::node;
use lot_base::queue::Node;
use lot_base::thread_parker::{
    ParkerKey, Slot, ThreadParker, ThreadParkerT, WordParker, YieldParker,
};
use std::alloc::Global;
use std::process::Abort;
use std::sync::Wait;
use std::thread::Threads;
use std::time::{Clock, Duration, Instant};

const OWNER: usize = 3;

fn now<R: Clock + Abort>(rt: &R) -> Instant {
    Instant::now(rt).expect(rt, "the clock")
}

fn from_now<R: Clock + Abort>(rt: &R, duration: Duration) -> Instant {
    let time = now(rt).checked_add(duration);
    time.expect(rt, "a time of the clock")
}

fn is_past<R: Clock + Abort>(rt: &R, time: Instant) -> bool {
    time <= now(rt)
}

// The token of the node that comes next, or before the deadline.
fn token_by<P: ThreadParkerT, R: Wait + Clock>(
    rt: &R,
    parker: &P,
    deadline: Option<Instant>,
) -> Option<usize> {
    let node = match deadline {
        None => parker.park(rt).0,
        Some(deadline) => parker.park_until(rt, deadline)?.0,
    };
    Some(node.park_token.0)
}

fn new_parker<P: ThreadParkerT>(rt: &impl Abort, alloc: Global) -> P
    ensures { P.owner result ≡ OWNER }
{
    let key = ParkerKey {
        number: OWNER,
        home: (),
    };
    P::new(alloc, &key).expect(rt, "memory")
}

// A node of the owner with this park token.
fn owners_node(rt: &impl Abort, alloc: Global, token: usize) -> Box<Node>
    ensures { (fields result.value).number ≡ OWNER }
{
    node(rt, alloc, OWNER, 0, token)
}

// All that is asked of a parker: whether it costs little to make, and whether it sleeps.
fn answers_waits_and_wakes<P, R>(rt: &R, alloc: Global, (is_cheap, sleeps): (bool, bool))
where
    P: ThreadParkerT + Sync,
    R: Threads + Wait + Clock + Sync + Abort,
{
    expect(
        rt,
        P::IS_CHEAP_TO_CONSTRUCT == is_cheap,
        "whether it is cheap to make",
    );
    alone::takes_turns_and_waits::<P, _>(rt, alloc);
    between::wakes_and_keeps_deadlines::<P, _>(rt, alloc);
    if sleeps {
        alone::sleeps_each_time::<P, _>(rt, alloc);
    }
}

#[test]
fn thread_parker_takes_turns_waits_and_wakes_its_thread(rt: HostRuntime) {
    answers_waits_and_wakes::<ThreadParker, _>(&rt, rt.alloc(), (false, true));
}

// It reads the clock at each look, since it does not sleep.
#[test]
fn yield_parker_takes_turns_waits_and_finds_its_node(rt: HostRuntime) {
    answers_waits_and_wakes::<YieldParker, _>(&rt, rt.alloc(), (true, false));
}

#[test]
fn word_parker_takes_turns_waits_and_wakes_its_thread(rt: HostRuntime) {
    answers_waits_and_wakes::<WordParker, _>(&rt, rt.alloc(), (false, true));
}

// Puts a node that waits on the key.
fn put(rt: &impl Abort, alloc: Global, slot: &mut Slot, key: usize)
    requires { slot.old.owner ≡ OWNER }
    ensures { slot.new.owner ≡ OWNER }
{
    slot.put(node(rt, alloc, OWNER, key, 42));
}

// Takes the first node, and tells its key, or 0 if there is none.
fn take(slot: &mut Slot) -> usize {
    slot.take().map_or(0, |node| node.key)
}

#[test]
fn a_slot_has_an_owner_and_gives_its_nodes_in_the_order_of_the_puts(rt: HostRuntime) {
    let mut slot = Slot::new(OWNER);
    expect(&rt, slot.owner() == OWNER && slot.is_empty(), "a new slot");
    put(&rt, rt.alloc(), &mut slot, 1);
    put(&rt, rt.alloc(), &mut slot, 2);
    let taken = (take(&mut slot), take(&mut slot), take(&mut slot));
    expect(
        &rt,
        taken.0 == 1 && taken.1 == 2 && taken.2 == 0,
        "the order of the puts",
    );
}
