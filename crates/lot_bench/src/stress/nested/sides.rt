//! Calls that are made of both lots.

use super::twin::{Twin, key_at};
use crate::calls::{Entry, Sieve, decide, requeue, unpark_all, unpark_first, unpark_through};
use crate::stress::draws::{draw, draw_op, draw_sieve};
use lot_simulator::schedule::{Answer, Op, Step};
use lot_threads::{ParkingLot, ThreadParkerT, UnparkToken};
use std::alloc::Global;
use std::sync::Wait;

/// Makes the call of this kind, which needs no thread that is registered.
pub(super) fn call<P: ThreadParkerT, R: Wait>(
    rt: &R,
    alloc: Global,
    lot: &ParkingLot<P>,
    twin: &mut Twin,
    kind: usize,
) {
    let (key, token) = (twin.draw_key(), UnparkToken(draw(&mut twin.draws) as usize));
    match kind {
        0 => {
            let count = unpark_all(rt, lot, key, token);
            twin.expect(Step::Unpark(Op::All { key, token }), Answer::Count(count));
        }
        1..=4 => {
            let result = unpark_first(rt, lot, key, token);
            twin.expect(Step::Unpark(Op::One { key, token }), Answer::Unpark(result));
        }
        5..=7 => {
            let sieve = draw_sieve(&mut twin.draws);
            sift(rt, lot, twin, key, sieve, token);
        }
        8..=10 => {
            let (to, op) = (twin.draw_key(), draw_op(&mut twin.draws));
            let result = requeue(rt, lot, key, to, op, token);
            let from = key;
            let op = Op::Requeue {
                from,
                to,
                op,
                token,
            };
            twin.expect(Step::Unpark(op), Answer::Unpark(result));
        }
        11 => trim(rt, lot, twin),
        _ => {
            let listed = lot.list(rt, alloc, key);
            let expected = twin.machine.list(key);
            twin.note(listed == expected);
        }
    }
}

pub(super) fn trim<P: ThreadParkerT, R: Wait>(rt: &R, lot: &ParkingLot<P>, twin: &mut Twin) {
    lot.trim(rt);
    twin.expect(Step::Trim, Answer::Trimmed);
}

fn sift<P: ThreadParkerT, R: Wait>(
    rt: &R,
    lot: &ParkingLot<P>,
    twin: &mut Twin,
    key: usize,
    sieve: Sieve,
    token: UnparkToken,
) {
    let result = unpark_through(rt, lot, key, sieve, token);
    let filter = |waiting| decide(waiting, sieve);
    let expected = twin.machine.unpark_chosen(key, filter, |_| token);
    twin.note(result == expected);
}

/// Unparks this thread alone, if it has no timeout and still waits, on this key or on one to which
/// it was requeued. Its token tells it from the others.
pub(super) fn free<P: ThreadParkerT, R: Wait>(
    rt: &R,
    lot: &ParkingLot<P>,
    twin: &mut Twin,
    thread: usize,
    entry: Entry,
) {
    let (first, park_token, timeout) = entry;
    if timeout.is_some() {
        return;
    }
    let token = UnparkToken(draw(&mut twin.draws) as usize);
    let sieve = (Some(park_token), 0, 0);
    let mut key = first;
    for index in 0..twin.shape.1.saturating_add(1) {
        if !twin.is_waiting(thread) {
            return;
        }
        sift(rt, lot, twin, key, sieve, token);
        key = key_at(index);
    }
}
