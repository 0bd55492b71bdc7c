//! Twelve threads that park four times together and are unparked in each way, between marks.

use crate::calls::{
    ALL, park, register, requeue, retire, unpark_all, unpark_first, unpark_through,
};
use crate::fault::{Fault, Wrong};
use crate::stress::marks;
use crate::threads::{comes_to, sum_of};
use lot_threads::{
    DEFAULT_PARK_TOKEN, Member, ParkResult, ParkingLot, RequeueOp, ThreadParkerT, UnparkToken,
};
use std::alloc::Global;
use std::sync::Wait;
use std::sync::atomic::{AtomicUsize, Ordering};
use std::thread;
use std::thread::Threads;
use std::time::{Clock, Duration, Instant};

/// More than an unpark keeps handles of.
pub const WAITERS: usize = 12;

// The key of each park of a waiter. One that was unparked early parks next where the others are not
// yet looked for.
const LATE_KEY: usize = 14;

const FIRST_KEY: usize = 0;

const SECOND_KEY: usize = 13;

const THIRD_KEY: usize = 7;

// The keys to which those of the second park and of the third are requeued.
const SECOND_MOVED: usize = 34;

const THIRD_MOVED: usize = 89;

// The sum of the tokens of all parks: one of 1 and eleven of 10, one of 100 and eleven of 1,000,
// and twelve of 10,000.
const TOKENS: usize = 131_211;

const RESOURCE: usize = 5;

const SOON_MILLISECONDS: u64 = 20;

const FAR_SECONDS: u64 = 3_600;

// How many steps the threads have done together when the count of requests begins, when all wait
// for the first time without a deadline, for the second and for the third, when all have retired,
// and when the count is over.
const OPEN: usize = WAITERS + 1;

const FIRST: usize = OPEN + 2 * WAITERS;

const SECOND: usize = FIRST + WAITERS;

const THIRD: usize = SECOND + WAITERS;

const RETIRED: usize = THIRD + WAITERS;

const OVER: usize = RETIRED + 1;

/// Lets the threads park on the lot, rests so long before they are unparked each time, and answers
/// the sum of the tokens that they were told.
pub fn gather<P, R>(
    rt: &R,
    alloc: Global,
    lot: &ParkingLot<P>,
    rest: Duration,
) -> Result<usize, Fault>
where
    P: ThreadParkerT + Send + Sync,
    R: Threads + Wait + Clock + Sync,
{
    let steps = AtomicUsize::new(0);
    let crowd = Crowd {
        alloc,
        lot,
        rest,
        steps,
    };
    let act = |index: usize| crowd.act(rt, index);
    match sum_of(rt, alloc, WAITERS + 1, &act) {
        Some(TOKENS) => Ok(TOKENS),
        _ => Err(Fault::Wrong(Wrong::ManyParks)),
    }
}

// What the threads share: the lot, and how many steps they have done together.
#[derive(Drop)]
struct Crowd<'a, P: ThreadParkerT> {
    alloc: Global,
    lot: &'a ParkingLot<P>,
    rest: Duration,
    steps: AtomicUsize,
}

impl<P: ThreadParkerT> Crowd<'_, P> {
    fn act<R: Wait + Clock>(&self, rt: &R, index: usize) -> Option<usize> {
        if index == 0 {
            lead(rt, self.alloc, self.lot, &self.steps, self.rest)
        } else {
            wait(rt, self.alloc, self.lot, &self.steps)
        }
    }
}

// Begins the count once all have come, unparks them each time, and ends it once all have retired.
fn lead<P: ThreadParkerT, R: Wait + Clock>(
    rt: &R,
    alloc: Global,
    lot: &ParkingLot<P>,
    steps: &AtomicUsize,
    rest: Duration,
) -> Option<usize> {
    let have_come = comes_to(rt, steps, WAITERS);
    marks::begin(alloc);
    step(steps);
    for turn in [FIRST, SECOND, THIRD] {
        comes_to(rt, steps, turn);
        thread::sleep(rt, rest);
        unpark_each_way(rt, lot, turn);
    }
    let are_done = comes_to(rt, steps, RETIRED);
    marks::end(alloc);
    step(steps);
    (have_come && are_done).then_some(0)
}

fn step(steps: &AtomicUsize) {
    steps.fetch_add(1, Ordering::SeqCst);
}

// Unparks all who wait at this turn, in two calls.
fn unpark_each_way<P: ThreadParkerT, R: Wait>(rt: &R, lot: &ParkingLot<P>, turn: usize) {
    match turn {
        FIRST => {
            unpark_first(rt, lot, FIRST_KEY, UnparkToken(1));
            unpark_through(rt, lot, FIRST_KEY, ALL, UnparkToken(10));
        }
        SECOND => {
            let op = RequeueOp::UnparkOneRequeueRest;
            requeue(rt, lot, SECOND_KEY, SECOND_MOVED, op, UnparkToken(100));
            unpark_all(rt, lot, SECOND_MOVED, UnparkToken(1_000));
        }
        _ => {
            let op = RequeueOp::RequeueAll;
            requeue(rt, lot, THIRD_KEY, THIRD_MOVED, op, UnparkToken(100));
            unpark_all(rt, lot, THIRD_MOVED, UnparkToken(10_000));
        }
    }
}

// Registers, parks each time, retires, and answers the sum of the tokens.
fn wait<P: ThreadParkerT, R: Wait + Clock>(
    rt: &R,
    alloc: Global,
    lot: &ParkingLot<P>,
    steps: &AtomicUsize,
) -> Option<usize> {
    let mut member = register(rt, alloc, lot).ok()?;
    let tokens = park_each_time(rt, &mut member, steps);
    retire(rt, member);
    step(steps);
    if comes_to(rt, steps, OVER) {
        tokens
    } else {
        None
    }
}

// A wait whose deadline passed leaves nothing behind that keeps the thread awake.
fn park_each_time<P: ThreadParkerT, R: Wait + Clock>(
    rt: &R,
    member: &mut Member<'_, P>,
    steps: &AtomicUsize,
) -> Option<usize> {
    member.acquire_resource(RESOURCE).ok()?;
    step(steps);
    let now = Instant::now(rt).ok()?;
    let soon = now.checked_add(Duration::from_millis(SOON_MILLISECONDS))?;
    let far = now.checked_add(Duration::from_secs(FAR_SECONDS))?;
    comes_to(rt, steps, OPEN);
    let mut tokens = 0usize;
    for (key, timeout) in [
        (LATE_KEY, Some(soon)),
        (FIRST_KEY, None),
        (SECOND_KEY, None),
        (THIRD_KEY, Some(far)),
    ] {
        tokens = tokens.wrapping_add(park_once(rt, member, steps, key, timeout)?);
    }
    member.release_resource(RESOURCE);
    (member.records(RESOURCE) == 0).then_some(tokens)
}

// The token of a park, or 0 where it is to be late. Nothing says that it ended otherwise.
fn park_once<P: ThreadParkerT, R: Wait + Clock>(
    rt: &R,
    member: &mut Member<'_, P>,
    steps: &AtomicUsize,
    key: usize,
    timeout: Option<Instant>,
) -> Option<usize> {
    let entry = (key, DEFAULT_PARK_TOKEN, timeout);
    let (result, _) = park(rt, member, entry, true, || step(steps));
    match result {
        ParkResult::Unparked(token) => Some(token.0),
        ParkResult::TimedOut => (key == LATE_KEY).then_some(0),
        ParkResult::Invalid => None,
    }
}
