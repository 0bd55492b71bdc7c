//! Calls of a lot, most of whose closures answer the same for each thread, or by its park token
//! alone. They promise little, so whoever makes them is proved sooner.

use lot_threads::{
    DEFAULT_PARK_TOKEN, FilterOp, LotError, Member, ParkResult, ParkToken, ParkingLot, RequeueOp,
    ThreadParkerT, UnparkResult, UnparkToken, unpark_chosen, unpark_one, unpark_requeue,
};
use std::alloc::Global;
use std::sync::Wait;
use std::time::{Clock, Instant};

/// How a thread comes to park: the key, its token and its deadline.
pub type Entry = (usize, ParkToken, Option<Instant>);

/// How a park ended, and the key and whether it was the last, as a late thread was told.
pub type Ended = (ParkResult, Option<(usize, bool)>);

/// Which waiting threads a filter unparks: the one of this token alone; or, without one, those
/// whose token and the first number have a bit in common, and it stops at those that have all bits
/// of the second.
pub type Sieve = (Option<ParkToken>, usize, usize);

/// The sieve for threads that all have the default token, which unparks them.
pub const ALL: Sieve = (Some(DEFAULT_PARK_TOKEN), 0, 0);

/// Registers a thread.
pub fn register<'a, P: ThreadParkerT, R: Wait>(
    rt: &R,
    alloc: Global,
    lot: &'a ParkingLot<P>,
) -> Result<Member<'a, P>, LotError> {
    Member::register(rt, alloc, lot)
}

/// Registers a thread that is put behind the others. There is room for it.
pub fn register_into<'a, P: ThreadParkerT, R: Wait>(
    rt: &R,
    alloc: Global,
    lot: &'a ParkingLot<P>,
    members: &mut Vec<Member<'a, P>>,
) -> Result<(), LotError> {
    let member = register(rt, alloc, lot)?;
    let _ = members.push(member);
    Ok(())
}

/// Registers so many threads. There is room for them.
pub fn register_often<'a, P: ThreadParkerT, R: Wait>(
    rt: &R,
    alloc: Global,
    lot: &'a ParkingLot<P>,
    members: &mut Vec<Member<'a, P>>,
    threads: usize,
) -> Result<(), LotError> {
    for _ in 0..threads {
        register_into(rt, alloc, lot, members)?;
    }
    Ok(())
}

/// Retires the thread.
pub fn retire<P: ThreadParkerT, R: Wait>(rt: &R, thread: Member<'_, P>) {
    thread.retire(rt);
}

/// Retires all threads but so many.
pub fn retire_all_but<P: ThreadParkerT, R: Wait>(
    rt: &R,
    members: &mut Vec<Member<'_, P>>,
    left: usize,
) {
    for _ in left..members.len() {
        if let Some(member) = members.pop() {
            retire(rt, member);
        }
    }
}

/// Parks the thread so, if `validate` answers true.
#[inline]
pub fn park_if<P: ThreadParkerT, R: Wait + Clock, V: FnOnce() -> bool, B: FnOnce()>(
    rt: &R,
    thread: &mut Member<'_, P>,
    entry: Entry,
    validate: V,
    before_sleep: B,
) -> Ended
    requires validates { V.pre validate }
    requires sleeps { B.pre before_sleep }
{
    let (key, park_token, timeout) = entry;
    let mut told = None;
    let result = thread.park(
        rt,
        key,
        validate,
        before_sleep,
        |key, last| told = Some((key, last)),
        park_token,
        timeout,
    );
    (result, told)
}

/// Parks the thread so, if that is valid.
pub fn park<P: ThreadParkerT, R: Wait + Clock, B: FnOnce()>(
    rt: &R,
    thread: &mut Member<'_, P>,
    entry: Entry,
    is_valid: bool,
    before_sleep: B,
) -> Ended
    requires { B.pre before_sleep }
{
    park_if(rt, thread, entry, || is_valid, before_sleep)
}

/// How many wait on the key. Nothing says that there was no memory for their list.
pub fn waiting_on<P: ThreadParkerT, R: Wait>(
    rt: &R,
    alloc: Global,
    lot: &ParkingLot<P>,
    key: usize,
) -> Option<usize> {
    Some(lot.list(rt, alloc, key).ok()?.len())
}

/// Unparks the first waiter of the key.
#[inline]
pub fn unpark_first<P: ThreadParkerT, R: Wait>(
    rt: &R,
    lot: &ParkingLot<P>,
    key: usize,
    token: UnparkToken,
) -> UnparkResult {
    unpark_one(rt, lot, key, |_| token)
}

/// Unparks all waiters of the key, and answers how many.
#[inline]
pub fn unpark_all<P: ThreadParkerT, R: Wait>(
    rt: &R,
    lot: &ParkingLot<P>,
    key: usize,
    token: UnparkToken,
) -> usize {
    lot_threads::unpark_all(rt, lot, key, token)
}

/// Unparks those waiters of the key that the sieve lets through.
pub fn unpark_through<P: ThreadParkerT, R: Wait>(
    rt: &R,
    lot: &ParkingLot<P>,
    key: usize,
    sieve: Sieve,
    token: UnparkToken,
) -> UnparkResult {
    unpark_chosen(rt, lot, key, |waiting| decide(waiting, sieve), |_| token)
}

/// Requeues by this operation.
pub fn requeue<P: ThreadParkerT, R: Wait>(
    rt: &R,
    lot: &ParkingLot<P>,
    from: usize,
    to: usize,
    op: RequeueOp,
    token: UnparkToken,
) -> UnparkResult {
    unpark_requeue(rt, lot, from, to, || op, |_, _| token)
}

/// What a filter answers to a park token.
pub fn decide(park_token: ParkToken, sieve: Sieve) -> FilterOp {
    let (only, unparks, stops) = sieve;
    if only.is_none() && park_token.0 & stops == stops {
        FilterOp::Stop
    } else if only == Some(park_token) || park_token.0 & unparks != 0 {
        FilterOp::Unpark
    } else {
        FilterOp::Skip
    }
}
