//! A scenario on the exclusive lot: steps that ask for no memory.

use crate::fault::Fault;
use crate::stress::marks;
use lot_simulator::lot::Lot;
use lot_simulator::schedule::{Answer, Op, Step};
use lot_threads::{DEFAULT_PARK_TOKEN, DEFAULT_UNPARK_TOKEN, RequeueOp};
use std::alloc::Global;

// Keys of which the first two have one bucket of 16.
const KEYS: [usize; 3] = [0, 13, 7];

const THREADS: usize = 6;

/// Steps of each kind but registrations, recordings and lists. Answers how many threads were woken.
pub(super) fn do_steps(alloc: Global) -> Result<usize, Fault> {
    let mut lot = Lot::new(alloc, THREADS)?;
    do_steps_in(alloc, &mut lot)
}

fn do_steps_in(alloc: Global, lot: &mut Lot) -> Result<usize, Fault> {
    for thread in 0..THREADS {
        lot.register()?;
        lot.acquire(thread, KEYS[0])?;
    }
    marks::begin(alloc);
    let woken = wait_and_wake(alloc, lot);
    let left = leave(lot);
    marks::end(alloc);
    left?;
    Ok(woken)
}

// All but the last thread wait, are requeued within a bucket and across two, and four are woken.
fn wait_and_wake(alloc: Global, lot: &mut Lot) -> usize {
    for thread in 0..THREADS - 1 {
        lot.apply(&Step::Enter {
            thread,
            key: KEYS[0],
            valid: true,
            park_token: DEFAULT_PARK_TOKEN,
            timed: true,
        });
    }
    let token = DEFAULT_UNPARK_TOKEN;
    let [first, second, key] = KEYS;
    requeue(lot, first, second, RequeueOp::RequeueAll)
        .wrapping_add(requeue(lot, second, key, RequeueOp::UnparkOneRequeueRest))
        .wrapping_add(requeue(lot, key, first, RequeueOp::RequeueOne))
        .wrapping_add(unpark(lot, Op::One { key, token }))
        .wrapping_add(unpark(
            lot,
            Op::Filter {
                key,
                decisions: Vec::new(alloc),
                token,
            },
        ))
        .wrapping_add(unpark(lot, Op::All { key, token }))
}

fn requeue(lot: &mut Lot, from: usize, to: usize, op: RequeueOp) -> usize {
    let token = DEFAULT_UNPARK_TOKEN;
    unpark(
        lot,
        Op::Requeue {
            from,
            to,
            op,
            token,
        },
    )
}

// How many threads the operation wakes.
fn unpark(lot: &mut Lot, op: Op) -> usize {
    match lot.apply(&Step::Unpark(op)) {
        Answer::Unpark(result) => result.unparked_threads,
        Answer::Count(count) => count,
        _ => 0,
    }
}

// The thread that still waits is late, the others come back, and the last retires.
fn leave(lot: &mut Lot) -> Result<(), Fault> {
    lot.deadline(1)?;
    lot.apply(&Step::Resolve { thread: 1 });
    for thread in [0, 2, 3, 4] {
        lot.give_back(thread)?;
        lot.release(thread, KEYS[0])?;
    }
    lot.retire(THREADS - 1)?;
    Ok(())
}
