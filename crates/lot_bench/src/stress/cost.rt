//! `lot_bench stress cost`: calls that are told to look at few of the threads or records there are,
//! done so often that one which looks at all takes seconds. The processor time is measured from
//! outside.

use crate::fault::{Fault, Wrong};
use lot_simulator::interleaved::{FineAnswer, FineLot, FineStep, run_fine};
use lot_simulator::lot::Lot;
use lot_simulator::record::Record;
use lot_simulator::schedule::{Answer, Op, Step};
use lot_threads::{DEFAULT_PARK_TOKEN, DEFAULT_UNPARK_TOKEN, RequeueOp};
use std::alloc::Global;
use std::slice;

// As many as a lot can be made for.
const THREADS: usize = 16_384;

const LOTS: usize = 20;

const ROUNDS: usize = 4;

const RETIREMENTS: usize = 500_000;

const RECORDS: usize = 150_000;

const KEY: usize = 7;

const OTHER_KEY: usize = 13;

// How often all threads are requeued.
const REQUEUES: usize = 16;

const JOURNALS: usize = 8;

// How often a thread of each journal parks, which is three steps.
const PARKS: usize = 33_333;

// The registration, and the steps of all parks.
const ENTRIES: usize = 1 + 3 * PARKS;

/// Registers as many threads as there can be, again and again; and works in a lot, in an
/// interleaved one and in journals of so many.
pub fn run(alloc: Global) -> Result<(), Fault> {
    for number in 0..LOTS {
        work_in_new_lot(alloc, number == 0)?;
    }
    requeue_in_new_lot(alloc)?;
    for _ in 0..JOURNALS {
        fill_new_journal(alloc)?;
    }
    Ok(())
}

fn work_in_new_lot(alloc: Global, is_long: bool) -> Result<(), Fault> {
    let mut lot = Lot::new(alloc, THREADS)?;
    work_in(&mut lot, is_long)
}

// Registers all threads. In one of the lots it then works on.
fn work_in(lot: &mut Lot, is_long: bool) -> Result<(), Fault> {
    for _ in 0..THREADS {
        lot.register()?;
    }
    if is_long { work_long(lot) } else { Ok(()) }
}

// Retires and registers one of the threads; unparks all one by one from one key; and records many
// keys, which it releases from the last to the first.
fn work_long(lot: &mut Lot) -> Result<(), Fault> {
    for _ in 0..RETIREMENTS {
        lot.retire(THREADS - 1)?;
        lot.register()?;
    }
    for _ in 0..ROUNDS {
        park_and_unpark_all(lot)?;
    }
    for key in 0..RECORDS {
        lot.acquire(0, key)?;
    }
    for key in (0..RECORDS).rev() {
        lot.release(0, key)?;
    }
    Ok(())
}

fn park_and_unpark_all(lot: &mut Lot) -> Result<(), Fault> {
    for thread in 0..THREADS {
        lot.apply(&Step::Enter {
            thread,
            key: KEY,
            valid: true,
            park_token: DEFAULT_PARK_TOKEN,
            timed: false,
        });
    }
    let first = Step::Unpark(Op::One {
        key: KEY,
        token: DEFAULT_UNPARK_TOKEN,
    });
    for thread in 0..THREADS {
        lot.apply(&first);
        lot.give_back(thread)?;
    }
    Ok(())
}

fn requeue_in_new_lot(alloc: Global) -> Result<(), Fault> {
    let mut lot = FineLot::new(alloc, THREADS, 1)?;
    let (mut answers, mut sequential) = (Vec::new(alloc), Vec::new(alloc));
    park_all(&mut lot, &mut answers, &mut sequential)?;
    requeue_all(&mut lot, &mut answers, &mut sequential)
}

fn run_one(
    lot: &mut FineLot,
    step: FineStep,
    answers: &mut Vec<FineAnswer>,
    sequential: &mut Vec<Step>,
) -> Result<(), Fault> {
    run_fine(lot, slice::from_ref(&step), answers, sequential)?;
    Ok(())
}

// Lets all threads wait on one key.
fn park_all(
    lot: &mut FineLot,
    answers: &mut Vec<FineAnswer>,
    sequential: &mut Vec<Step>,
) -> Result<(), Fault> {
    for thread in 0..THREADS {
        let enter = FineStep::Enter {
            thread,
            key: KEY,
            valid: true,
            park_token: DEFAULT_PARK_TOKEN,
            timed: false,
        };
        run_one(lot, FineStep::Register, answers, sequential)?;
        run_one(lot, enter, answers, sequential)?;
    }
    Ok(())
}

// Requeues all to another key and back, again and again. Each waiter is looked at once.
fn requeue_all(
    lot: &mut FineLot,
    answers: &mut Vec<FineAnswer>,
    sequential: &mut Vec<Step>,
) -> Result<(), Fault> {
    for turn in 0..REQUEUES {
        answers.clear();
        run_one(lot, begin_requeue(turn), answers, sequential)?;
        run_one(lot, FineStep::End { caller: 0 }, answers, sequential)?;
        match answers.first() {
            Some(FineAnswer::Answer(Answer::Unpark(result)))
                if result.requeued_threads == THREADS => {}
            _ => return Err(Fault::Wrong(Wrong::Requeue)),
        }
    }
    Ok(())
}

// The step that begins a requeue of all from one key to the other.
fn begin_requeue(turn: usize) -> FineStep {
    let (from, to) = if turn % 2 == 0 {
        (KEY, OTHER_KEY)
    } else {
        (OTHER_KEY, KEY)
    };
    let op = Op::Requeue {
        from,
        to,
        op: RequeueOp::RequeueAll,
        token: DEFAULT_UNPARK_TOKEN,
    };
    FineStep::Begin { caller: 0, op }
}

fn fill_new_journal(alloc: Global) -> Result<(), Fault> {
    let mut recorded = Record::new(alloc, THREADS, ENTRIES)?;
    fill_journal(&mut recorded)
}

// One thread of very many parks again and again, each time until its deadline. Each of its steps
// changes how many entries are set aside, whose number is known without a look at each thread.
fn fill_journal(recorded: &mut Record) -> Result<(), Fault> {
    let thread = 0;
    let _ = recorded.step(Step::Register);
    for _ in 0..PARKS {
        let _ = recorded.step(Step::Enter {
            thread,
            key: KEY,
            valid: true,
            park_token: DEFAULT_PARK_TOKEN,
            timed: true,
        });
        let _ = recorded.step(Step::Deadline { thread });
        let _ = recorded.step(Step::Resolve { thread });
    }
    if recorded.journal().len() == ENTRIES {
        Ok(())
    } else {
        Err(Fault::Wrong(Wrong::Journal))
    }
}
