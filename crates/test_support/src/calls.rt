//! This module has lots, members, and short calls of them.
//!
//! The functions have no clauses. So the proof of a test carries nothing that it does not need.

use lot_threads::{
    FilterOp, LotError, Member, ParkResult, ParkToken, ParkingLot, RequeueOp, ThreadParkerT,
    UnparkResult, UnparkToken, unpark_all, unpark_chosen, unpark_one, unpark_requeue,
};
use std::alloc::Global;
use std::sync::Wait;
use std::time::{Clock, Instant};

/// This is the key of tests that need only one.
pub const KEY: usize = 7;

/// This is the token that unparks give. It is not the default.
pub const TOKEN: UnparkToken = UnparkToken(42);

/// A `Way` is one of four ways to unpark the first waiter of a key.
#[derive(Copy, Clone)]
pub enum Way {
    /// The first waiter is unparked, and the others wait on.
    One,

    /// All waiters are unparked.
    All,

    /// All waiters are unparked, by a filter.
    Filter,

    /// The first waiter is unparked, and the others are moved to `KEY`.
    Requeue,
}

/// These are all ways to unpark.
pub const WAYS: [Way; 4] = [Way::One, Way::All, Way::Filter, Way::Requeue];

/// This is the park token of every thread that parks. It is not the default.
pub const PARK_TOKEN: ParkToken = ParkToken(usize::MAX);

/// Creates a lot for at most `threads` threads.
pub fn new_lot<P: ThreadParkerT>(alloc: Global, threads: usize) -> Result<ParkingLot<P>, LotError> {
    ParkingLot::new(alloc, threads)
}

/// Registers the given number of threads.
pub fn register_all<'a, P: ThreadParkerT, R: Wait>(
    rt: &R,
    alloc: Global,
    lot: &'a ParkingLot<P>,
    threads: usize,
) -> Result<Vec<Member<'a, P>>, LotError> {
    let mut members = Vec::new(alloc);
    for _ in 0..threads {
        members.push(Member::register(rt, alloc, lot)?)?;
    }
    Ok(members)
}

/// Registers the given number of threads, retires them, and returns whether there was room for
/// them.
pub fn come_and_go<P: ThreadParkerT, R: Wait>(
    rt: &R,
    alloc: Global,
    lot: &ParkingLot<P>,
    threads: usize,
) -> bool {
    let Ok(guests) = register_all(rt, alloc, lot, threads) else {
        return false;
    };
    for guest in guests {
        guest.retire(rt);
    }
    true
}

/// Parks on the key, and calls the closure before the thread sleeps.
pub fn park_and<P: ThreadParkerT, R: Wait + Clock, B: FnOnce()>(
    rt: &R,
    member: &mut Member<'_, P>,
    key: usize,
    before_sleep: B,
    deadline: Option<Instant>,
) -> ParkResult
    requires { B.pre before_sleep }
{
    member.park(
        rt,
        key,
        || true,
        before_sleep,
        |_, _| (),
        PARK_TOKEN,
        deadline,
    )
}

/// Parks on the key until another thread unparks this one, or until the deadline.
pub fn wait<P: ThreadParkerT, R: Wait + Clock>(
    rt: &R,
    member: &mut Member<'_, P>,
    key: usize,
    deadline: Option<Instant>,
) -> ParkResult {
    park_and(rt, member, key, || (), deadline)
}

// Unparks all waiters of the key, by a filter.
fn unpark_by_filter<P: ThreadParkerT, R: Wait>(
    rt: &R,
    lot: &ParkingLot<P>,
    key: usize,
    token: UnparkToken,
) -> usize {
    unpark_chosen(rt, lot, key, |_| FilterOp::Unpark, |_| token).unparked_threads
}

/// Does a requeue with this operation.
pub fn requeue<P: ThreadParkerT, R: Wait>(
    rt: &R,
    lot: &ParkingLot<P>,
    from: usize,
    to: usize,
    op: RequeueOp,
    token: UnparkToken,
) -> UnparkResult {
    unpark_requeue(rt, lot, from, to, || op, |_, _| token)
}

/// Moves all waiters to the other key, and returns how many there were.
pub fn move_all<P: ThreadParkerT, R: Wait>(
    rt: &R,
    lot: &ParkingLot<P>,
    from: usize,
    to: usize,
) -> usize {
    requeue(rt, lot, from, to, RequeueOp::RequeueAll, TOKEN).requeued_threads
}

/// Unparks the first waiter of the key in the given way, and returns how many threads were
/// unparked.
pub fn unpark<P: ThreadParkerT, R: Wait>(
    rt: &R,
    lot: &ParkingLot<P>,
    way: Way,
    key: usize,
    token: UnparkToken,
) -> usize {
    match way {
        Way::One => unpark_one(rt, lot, key, |_| token).unparked_threads,
        Way::All => unpark_all(rt, lot, key, token),
        Way::Filter => unpark_by_filter(rt, lot, key, token),
        Way::Requeue => {
            let op = RequeueOp::UnparkOneRequeueRest;
            requeue(rt, lot, key, KEY, op, token).unparked_threads
        }
    }
}
