//! Each step, by the words of a line. A line's first number is a key of the bucket.
#![tactic(auto, using(crate::proofs::TableSizes::is_table_size_16))]

ghost use Rattle.std.specs.Prelude.{◌≡◌};
ghost use Rattle.lot_base.specs.Place.{place_of};

use crate::expect;
use crate::nodes::{digits, node};
use crate::words::{number, with_digit, word};
use lot_base::bucket::{Bucket, place};
use lot_base::queue::Queue;
use lot_base::token::{FilterOp, ParkToken, RequeueOp, UnparkResult, UnparkToken};
use std::alloc::Global;
use std::process::Abort;

/// What a step answers, as numbers: a flag is 0 or 1. Behind them stand zeros.
pub type Answer = [usize; 5];

const NOTHING: Answer = [0; 5];

// The key has the bucket's place, as a step asks of a key that it puts nodes on.
fn expect_place(rt: &impl Abort, bucket: &Bucket, key: usize)
    ensures { place_of key bucket.now.size ≡ bucket.now.place }
{
    assert!(rt; place(key, bucket.size()) == bucket.place());
}

/// Threads enter: the key and their numbers, as digits.
pub fn enter(rt: &impl Abort, alloc: Global, bucket: &mut Bucket, asked: &str) -> Answer {
    let key = number(rt, asked, 1);
    for digit in word(asked, 2).bytes() {
        let thread = usize::from(digit.wrapping_sub(b'0'));
        let node = node(rt, alloc, thread, key, thread);
        expect_place(rt, bucket, key);
        expect(rt, bucket.enter(node, || true).is_ok(), asked);
    }
    NOTHING
}

/// A thread comes with a `validate` that answers false. The node that comes back is told.
pub fn refuse(rt: &impl Abort, alloc: Global, bucket: &mut Bucket, asked: &str) -> Answer {
    let (key, thread) = (number(rt, asked, 1), number(rt, asked, 2));
    let node = node(rt, alloc, thread, key, thread);
    expect_place(rt, bucket, key);
    match bucket.enter(node, || false) {
        Ok(()) => NOTHING,
        Err(back) => [back.number, back.key, back.park_token.0, 0, 0],
    }
}

/// The numbers of the threads that wait on the key, as digits.
pub fn list(rt: &impl Abort, alloc: Global, bucket: &Bucket, asked: &str) -> Answer {
    let mut digits = 0_usize;
    for number in bucket
        .list(alloc, number(rt, asked, 1))
        .expect(rt, "memory")
    {
        digits = with_digit(digits, number);
    }
    [digits, 0, 0, 0, 0]
}

// What a step answered, and whom it took.
fn taken(answered: UnparkResult, nodes: &Queue, token: usize) -> Answer {
    let (unparked, requeued) = (answered.unparked_threads, answered.requeued_threads);
    let more = usize::from(answered.have_more_threads);
    [unparked, requeued, more, digits(nodes, token), 0]
}

/// The first waiter is taken: the key and the token.
pub fn take_one(rt: &impl Abort, bucket: &mut Bucket, asked: &str) -> Answer {
    let token = number(rt, asked, 2);
    let (result, nodes) = bucket.take_one(number(rt, asked, 1), |_| UnparkToken(token));
    taken(result, &nodes, token)
}

/// Every waiter is taken: the key and the token.
pub fn take_all(rt: &impl Abort, bucket: &mut Bucket, asked: &str) -> Answer {
    let token = number(rt, asked, 2);
    let (count, nodes) = bucket.take_all(number(rt, asked, 1), UnparkToken(token));
    [count, digits(&nodes, token), 0, 0, 0]
}

fn decision(decisions: &str, index: usize) -> FilterOp {
    match decisions.as_bytes().get(index) {
        Some(b'U') => FilterOp::Unpark,
        Some(b'X') => FilterOp::Stop,
        _ => FilterOp::Skip,
    }
}

// A filter that calls this.
fn filter<F: FnMut(ParkToken) -> FilterOp>(
    bucket: &mut Bucket,
    key: usize,
    filter: F,
    token: usize,
) -> Answer
    requires { (state : F) (park_token : _) → F.pre state park_token }
{
    let (result, nodes) = bucket.take_filter(key, filter, |_| UnparkToken(token));
    taken(result, &nodes, token)
}

/// A filter: the key, its decisions, behind which it skips, and the token. The park tokens about
/// which it was asked are told last, as digits.
pub fn take_filter(rt: &impl Abort, bucket: &mut Bucket, asked: &str) -> Answer {
    let decisions = word(asked, 2);
    let (mut calls, mut tokens) = (0_usize, 0_usize);
    let decide = |token: ParkToken| {
        let op = decision(decisions, calls);
        calls = calls.wrapping_add(1);
        tokens = with_digit(tokens, token.0);
        op
    };
    let mut answer = filter(bucket, number(rt, asked, 1), decide, number(rt, asked, 3));
    answer[4] = tokens;
    answer
}

fn requeue_op(name: &str) -> RequeueOp {
    match name {
        "all" => RequeueOp::RequeueAll,
        "one" => RequeueOp::UnparkOne,
        "one-rest" => RequeueOp::UnparkOneRequeueRest,
        "requeue-one" => RequeueOp::RequeueOne,
        _ => RequeueOp::Abort,
    }
}

// Requeues from the first key to the second, in one bucket if both have its place.
fn requeue_with(
    rt: &impl Abort,
    (bucket, other): (&mut Bucket, &mut Bucket),
    (from, to): (usize, usize),
    op: RequeueOp,
    token: usize,
) -> (UnparkResult, Queue) {
    let callback = |_, _| UnparkToken(token);
    expect_place(rt, bucket, from);
    if place(to, 16) == bucket.place() {
        expect_place(rt, bucket, to);
        return bucket.requeue_one(from, to, || op, callback, &mut |_, _| ());
    }
    expect_place(rt, other, to);
    assert!(rt; other.size() == bucket.size() && other.place() != bucket.place());
    bucket.requeue_two(other, from, to, || op, callback, &mut |_, _| ())
}

/// A requeue: the first key and the second, what it does, and the token.
pub fn requeue(rt: &impl Abort, buckets: (&mut Bucket, &mut Bucket), asked: &str) -> Answer {
    let keys = (number(rt, asked, 1), number(rt, asked, 2));
    let (op, token) = (requeue_op(word(asked, 3)), number(rt, asked, 4));
    let (result, nodes) = requeue_with(rt, buckets, keys, op, token);
    taken(result, &nodes, token)
}

/// A removal whose `timed_out` answers 77: the key and the number. The number, this answer, and
/// what it was handed are told.
pub fn remove(rt: &impl Abort, bucket: &mut Bucket, asked: &str) -> Answer {
    let mut told = (0_usize, false);
    let removed = bucket.remove(number(rt, asked, 2), number(rt, asked, 1), |key, last| {
        told = (key, last);
        77_usize
    });
    match removed {
        Some((node, answered)) => [node.number, answered, told.0, usize::from(told.1), 0],
        None => NOTHING,
    }
}

/// The first node of the bucket is taken. Its number and key are told.
pub fn pop(bucket: &mut Bucket) -> Answer {
    match bucket.pop() {
        Some(node) => [node.number, node.key, 0, 0, 0],
        None => NOTHING,
    }
}
