//! Rows of threads that wait on one key, and one that wakes or moves them.

use crate::calls::{register, retire, unpark_all};
use crate::rows::gathering::{Gathering, time_of_leader};
use crate::rows::measure::nanoseconds_since;
use crate::rows::row::Row;
use crate::rows::turns::{comes_and_parks, comes_to};
use lot_threads::{DEFAULT_UNPARK_TOKEN, ParkingLot, RequeueOp, ThreadParkerT, unpark_requeue};
use std::alloc::Global;
use std::sync::Wait;
use std::sync::atomic::Ordering;
use std::thread::Threads;
use std::time::{Clock, Instant};

// Where they wait, and where they are moved to.
const HERE: usize = 1;

const THERE: usize = 2;

/// Lets threads wait on a new lot, and does the deed with them.
pub fn time_of<P, R>(rt: &R, alloc: Global, deed: &str, row: &Row) -> Option<u64>
where
    P: ThreadParkerT + Send + Sync,
    R: Threads + Wait + Clock + Sync,
{
    let lot = ParkingLot::<P>::new(alloc, row.threads).ok()?;
    time_on(rt, alloc, deed, row, &lot)
}

fn time_on<P, R>(rt: &R, alloc: Global, deed: &str, row: &Row, lot: &ParkingLot<P>) -> Option<u64>
where
    P: ThreadParkerT + Send + Sync,
    R: Threads + Wait + Clock + Sync,
{
    let gathering = Gathering::new();
    let act = |place: usize| {
        if place == 0 {
            lead(rt, alloc, deed, row, lot, &gathering)
        } else {
            wait(rt, alloc, row, lot, &gathering)
        }
    };
    time_of_leader(rt, alloc, row, &act)
}

// Parks in each run, until all is over. Nothing says that the thread could not be registered.
fn wait<P: ThreadParkerT, R: Wait + Clock>(
    rt: &R,
    alloc: Global,
    row: &Row,
    lot: &ParkingLot<P>,
    gathering: &Gathering,
) -> Option<usize> {
    let mut member = register(rt, alloc, lot).ok()?;
    for _ in 0..row.runs {
        comes_and_parks(rt, &mut member, HERE, &gathering.word, &gathering.come);
        gathering.awake.fetch_add(1, Ordering::SeqCst);
    }
    retire(rt, member);
    Some(0)
}

// Last it wakes whoever waits still.
fn lead<P: ThreadParkerT, R: Wait + Clock>(
    rt: &R,
    alloc: Global,
    deed: &str,
    row: &Row,
    lot: &ParkingLot<P>,
    gathering: &Gathering,
) -> Option<usize> {
    let run = || match deed {
        "call" => time_of_wake(rt, row, lot, gathering, false),
        "awake" => time_of_wake(rt, row, lot, gathering, true),
        _ => time_of_moves(rt, row, lot),
    };
    let median = gathering.median_of(rt, alloc, row, &run);
    gathering.end();
    unpark_all(rt, lot, HERE, DEFAULT_UNPARK_TOKEN);
    unpark_all(rt, lot, THERE, DEFAULT_UNPARK_TOKEN);
    median
}

// Unparks all, and answers the time of the call, or until all run.
fn time_of_wake<P: ThreadParkerT, R: Wait + Clock>(
    rt: &R,
    row: &Row,
    lot: &ParkingLot<P>,
    gathering: &Gathering,
    until_awake: bool,
) -> Option<u64> {
    gathering.count_anew();
    let start = Instant::now(rt).ok();
    let unparked = unpark_all(rt, lot, HERE, DEFAULT_UNPARK_TOKEN);
    let answered = nanoseconds_since(rt, start);
    if unparked != row.threads || !comes_to(&gathering.awake, row.threads) {
        return None;
    }
    if until_awake {
        nanoseconds_since(rt, start)
    } else {
        answered
    }
}

// Moves all there and back in each call.
fn time_of_moves<P: ThreadParkerT, R: Wait + Clock>(
    rt: &R,
    row: &Row,
    lot: &ParkingLot<P>,
) -> Option<u64> {
    let start = Instant::now(rt).ok();
    let mut moved = 0usize;
    for _ in 0..row.calls {
        moved = moved.wrapping_add(move_all(rt, lot, HERE, THERE));
        moved = moved.wrapping_add(move_all(rt, lot, THERE, HERE));
    }
    let spent = nanoseconds_since(rt, start);
    if moved == row.threads.wrapping_mul(row.operations) {
        spent
    } else {
        None
    }
}

fn move_all<P: ThreadParkerT, R: Wait>(
    rt: &R,
    lot: &ParkingLot<P>,
    from: usize,
    to: usize,
) -> usize {
    let moved = unpark_requeue(
        rt,
        lot,
        from,
        to,
        || RequeueOp::RequeueAll,
        |_, _| DEFAULT_UNPARK_TOKEN,
    );
    moved.requeued_threads
}
