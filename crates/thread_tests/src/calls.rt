//! The calls of a member, by two of one lot, and what closures are told where nobody waits.

use crate::expect;
use crate::played::goes_well;
use lot_threads::{
    CriticalSection, FilterOp, Member, ParkResult, ParkingLot, RequeueOp, ThreadParkerT,
    UnparkResult, UnparkToken, Witness, WordParker,
};
use std::alloc::Global;
use std::process::Abort;
use std::sync::Wait;
use std::time::Clock;
use test_support::calls::{KEY, PARK_TOKEN, TOKEN, new_lot, park_and};

// Another key than that of most tests, in another bucket.
const OTHER_KEY: usize = 8;

// The park token and the outcomes of a call's closures are looked at by the scene's player. It
// refuses a call that calls its filter where nobody waits, or its callback only where somebody
// does, a requeue that calls back at an abort, and a park that drops its park token.
#[test]
fn closures_are_told_what_the_call_answers_also_of_nobody(rt: HostRuntime) {
    let scene = "
        thread
        callback: raise told
        unpark_one 0 42 -> 0 0
        filter: raise asked
        callback: raise told
        unpark_chosen 0 u 42 -> 0 0
        validate: raise valid
        callback: raise told
        requeue 0 8 requeue_all 1 -> 0 0
        is told 3
        before_sleep: raise parked; await back
        park 0 forever -> unparked 42
        caller
        await parked
        validate: raise valid
        callback: raise wrong
        requeue 0 8 abort 1 -> 0 0
        callback: raise told
        unpark_one 8 42 -> 0 0
        is told 4
        is valid 2
        is asked 0
        is wrong 0
        filter: raise asked
        unpark_chosen 0 u 42 -> 1 0
        is asked 1
        raise back
    ";
    goes_well(&rt, scene, &[]);
}

// Whether this thread alone waits on the key, or nobody.
fn waits_alone<P: ThreadParkerT, R: Wait + Abort>(
    rt: &R,
    alloc: Global,
    me: &mut Member<'_, P>,
    key: usize,
    number: Option<usize>,
) -> bool {
    let numbers = me.list(rt, alloc, key).expect(rt, "memory");
    numbers.len() < 2 && numbers.first().copied() == number
}

// Skips the one who waits, and tells whether it is told of.
fn skips<P: ThreadParkerT, R: Wait>(rt: &R, me: &mut Member<'_, P>) -> bool {
    let answer = me.unpark_chosen(rt, KEY, |_| FilterOp::Skip, |_| UnparkToken(1));
    answer.unparked_threads == 0 && answer.have_more_threads
}

// Requeues the one who waits.
fn move_one<P: ThreadParkerT, R: Wait>(rt: &R, me: &mut Member<'_, P>) -> UnparkResult {
    let callback = |_, _| UnparkToken(1);
    me.unpark_requeue(rt, KEY, OTHER_KEY, || RequeueOp::RequeueOne, callback)
}

// Skips the thread 0, which waits, moves it, and unparks nobody where it was and then it.
fn move_and_unpark<P: ThreadParkerT, R: Wait + Abort>(
    rt: &R,
    alloc: Global,
    me: &mut Member<'_, P>,
) {
    let waits = waits_alone(rt, alloc, me, KEY, Some(0));
    expect(
        rt,
        waits && skips(rt, me),
        "the thread waits, and is skipped",
    );
    expect(rt, move_one(rt, me).requeued_threads == 1, "it is moved");
    let has_left = waits_alone(rt, alloc, me, KEY, None);
    let waits = waits_alone(rt, alloc, me, OTHER_KEY, Some(0));
    expect(rt, has_left && waits, "it waits on the other key");
    let nobody = me.unpark_all(rt, KEY, UnparkToken(4));
    let answer = me.unpark_one(rt, OTHER_KEY, |_| TOKEN);
    expect(
        rt,
        nobody == 0 && answer.unparked_threads == 1,
        "it is unparked",
    );
}

// The first parks, and the second makes each call.
fn make_each_call<P: ThreadParkerT, R: Wait + Clock + Abort>(
    rt: &R,
    alloc: Global,
    one: &mut Member<'_, P>,
    two: &mut Member<'_, P>,
) {
    let ended = park_and(rt, one, KEY, || move_and_unpark(rt, alloc, two), None);
    expect(rt, ended.is_unparked(), "it comes back");
    two.trim(rt);
    let unpark_all = || expect(
        rt,
        two.unpark_all(rt, KEY, TOKEN) == 1,
        "it is unparked again",
    );
    let ended = park_and(rt, one, KEY, unpark_all, None);
    expect(rt, ended.is_unparked(), "it comes back again");
}

// The first parks, and is unparked in the closure before its sleep. The closures are lent what
// exists only when they are called.
fn make_calls_within<P: ThreadParkerT, R: Wait + Clock + Abort>(
    rt: &R,
    one: &mut Member<'_, P>,
    two: &mut Member<'_, P>,
) {
    let lot = two.lot();
    let before_sleep = |_: &Witness| {
        let choose = |_: &CriticalSection| RequeueOp::RequeueOne;
        let moved = two.unpark_requeue_within(rt, KEY, OTHER_KEY, choose, |_, _, _| TOKEN);
        let mut visitor = lot.visitor();
        let choose = |_: &CriticalSection| RequeueOp::UnparkOne;
        let nobody = visitor.unpark_requeue_within(rt, KEY, OTHER_KEY, choose, |_, _, _| TOKEN);
        let answer = two.unpark_one_within(rt, OTHER_KEY, |_, _| TOKEN);
        let threads = (
            moved.requeued_threads,
            nobody.unparked_threads,
            answer.unparked_threads,
        );
        expect(rt, threads == (1, 0, 1), "it is moved and unparked within");
        let nobody = visitor.unpark_one_within(rt, KEY, |_, _| TOKEN);
        expect(rt, nobody.unparked_threads == 0, "nobody is left");
    };
    let ended = one.park_within(
        rt,
        KEY,
        |_| true,
        before_sleep,
        |_, _, _| (),
        PARK_TOKEN,
        None,
    );
    expect(rt, ended == ParkResult::Unparked(TOKEN), "it comes back");
}

// Two members of the lot make each call, of which one went through its data and hears of the other.
fn two_members_call<P: ThreadParkerT, R: Wait + Clock + Abort>(
    rt: &R,
    alloc: Global,
    lot: &ParkingLot<P>,
) {
    let one = Member::register(rt, alloc, lot).expect(rt, "a number");
    let mut two = Member::register(rt, alloc, lot).expect(rt, "a number");
    let mut one = Member::of(lot, one.into_data());
    one.hear(&mut two);
    make_each_call(rt, alloc, &mut one, &mut two);
    make_calls_within(rt, &mut one, &mut two);
}

// It refuses a call that gives up, a list that misses a thread that waits or names another, a
// filter's unpark that takes who is skipped, and a requeue that loses the thread or leaves it where
// it was.
#[test]
fn a_member_makes_each_call(rt: HostRuntime) {
    let lot = new_lot::<WordParker>(rt.alloc(), 2).expect(&rt, "a lot");
    two_members_call(&rt, rt.alloc(), &lot);
}
