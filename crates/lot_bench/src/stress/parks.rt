//! `lot_bench stress parks`: one thread that parks so often that memory which its parks would keep
//! shows in the size of the process.

use crate::calls::{
    ALL, Ended, park, register, requeue, retire, unpark_all, unpark_first, unpark_through,
};
use crate::fault::{Fault, Wrong};
use lot_threads::{
    DEFAULT_PARK_TOKEN, Member, ParkResult, ParkingLot, RequeueOp, ThreadParkerT, UnparkToken,
};
use std::alloc::Global;
use std::sync::Wait;
use std::time::{Clock, Instant};

/// Parks so often with one number of the lot.
pub fn run<P: ThreadParkerT, R: Wait + Clock>(
    rt: &R,
    alloc: Global,
    lot: &ParkingLot<P>,
    count: usize,
) -> Result<usize, Fault> {
    let past = Instant::now(rt)?;
    let mut member = register(rt, alloc, lot)?;
    let right = park_often(rt, &mut member, count, past);
    retire(rt, member);
    if right == count {
        Ok(count)
    } else {
        Err(Fault::Wrong(Wrong::Park))
    }
}

/// Parks on so many keys one after another, each time in the next of eight ways, and answers how
/// many parks ended as they should. On even keys the thread has a deadline that has passed.
pub fn park_often<P: ThreadParkerT, R: Wait + Clock>(
    rt: &R,
    member: &mut Member<'_, P>,
    count: usize,
    past: Instant,
) -> usize {
    let lot = member.lot();
    let mut right = 0usize;
    for key in 0..count {
        let timeout = if key % 2 == 0 { Some(past) } else { None };
        let entry = (key, DEFAULT_PARK_TOKEN, timeout);
        let ended = park(rt, member, entry, key % 8 != 5, || unpark(rt, lot, key));
        right = right.wrapping_add(usize::from(ended == expected(key)));
    }
    right
}

// Unparks the thread, which waits alone on the key, in the way of the key, or does not.
fn unpark<P: ThreadParkerT, R: Wait>(rt: &R, lot: &ParkingLot<P>, key: usize) {
    let token = UnparkToken(key);
    match key % 8 {
        1 | 6 => {
            unpark_first(rt, lot, key, token);
        }
        2 => {
            unpark_all(rt, lot, key, token);
        }
        3 => {
            unpark_through(rt, lot, key, ALL, token);
        }
        // To other keys and back, and then out of the lot.
        4 | 7 => {
            let (next, last) = (key.wrapping_add(13), key.wrapping_add(7));
            requeue(rt, lot, key, next, RequeueOp::RequeueAll, token);
            requeue(rt, lot, next, last, RequeueOp::RequeueOne, token);
            requeue(rt, lot, last, key, RequeueOp::UnparkOne, token);
        }
        _ => (),
    }
}

fn expected(key: usize) -> Ended {
    match key % 8 {
        0 => (ParkResult::TimedOut, Some((key, true))),
        5 => (ParkResult::Invalid, None),
        _ => (ParkResult::Unparked(UnparkToken(key)), None),
    }
}
