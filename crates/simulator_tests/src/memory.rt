//! Requests for memory: a run that is refused its room, as `rt try --test --fail-alloc N` refuses
//! the Nth request, and lots with room for all that they may hold.

use crate::words::expect;
use lot_base::token::DEFAULT_PARK_TOKEN;
use lot_machine::step::{Answer, Step};
use lot_simulator::interleaved::{FineAnswer, FineLot, FineStep, run_fine};
use lot_simulator::lot::Lot;
use lot_simulator::schedule::run;
use std::process::Abort;

// Whether a run of a registration, a recording and an entry answers what a lot may.
fn expect_answers(rt: &impl Abort, lot: &mut Lot, answers: &mut Vec<Answer>) {
    let (thread, key) = (0, 5);
    let entry = Step::Enter {
        thread,
        key: 7,
        valid: true,
        park_token: DEFAULT_PARK_TOKEN,
        timed: false,
    };
    let steps = [Step::Register, Step::Acquire { thread, key }, entry];
    if run(lot, &steps, answers).is_err() {
        expect(
            rt,
            answers.is_empty() && lot.registered() == 0,
            "nothing is done",
        );
        expect(rt, run(lot, &steps, answers).is_ok(), "all is done");
    }
    let expected = match (lot.registered(), lot.records(0, 5)) {
        (0, _) => [Answer::NoMemory, Answer::Misfit, Answer::Misfit],
        (_, 0) => [Answer::Registered(0), Answer::NoMemory, Answer::Entered],
        _ => [Answer::Registered(0), Answer::Recorded, Answer::Entered],
    };
    expect(rt, answers.as_slice() == expected.as_slice(), "the answers");
}

// A run that has no room for its answers leaves all as it was, and a registration or a recording
// that is refused is answered so.
#[test]
fn a_run_without_room_for_its_answers_changes_nothing(rt: HostRuntime) {
    if let Ok(mut lot) = Lot::new(rt.alloc(), 2) {
        expect_answers(&rt, &mut lot, &mut Vec::new(rt.alloc()));
    }
}

// So many threads register on both lots, and the last one records a thousand keys.
fn expect_room(
    rt: &impl Abort,
    (lot, fine): (&mut Lot, &mut FineLot),
    answers: &mut Vec<FineAnswer>,
    sequential: &mut Vec<Step>,
) {
    for number in 0..17_384_usize {
        let (thread, key) = (16_383, number);
        let (step, is_done) = if number < 16_384 {
            (FineStep::Register, lot.register() == Ok(number))
        } else {
            (
                FineStep::Acquire { thread, key },
                lot.acquire(thread, key) == Ok(()),
            )
        };
        let is_run = run_fine(fine, &[step], answers, sequential).is_ok();
        expect(rt, is_done && is_run, "there is room");
    }
    let is_full = fine.registered() == 16_384 && sequential.len() == 17_384;
    let is_recorded = answers.last() == Some(&FineAnswer::Answer(Answer::Recorded));
    expect(rt, is_full && is_recorded, "all have room");
}

// It refuses a `new` that answers `NoMemory` for 16,384 threads, and a registration or a recording
// that answers so once there are more than some.
#[test]
fn lots_have_room_for_16384_threads_and_a_thread_for_1000_records(rt: HostRuntime) {
    let mut lot = Lot::new(rt.alloc(), 16_384).expect(&rt, "memory");
    let mut fine = FineLot::new(rt.alloc(), 16_384, 16_384).expect(&rt, "memory");
    let (mut answers, mut sequential) = (Vec::new(rt.alloc()), Vec::new(rt.alloc()));
    expect_room(&rt, (&mut lot, &mut fine), &mut answers, &mut sequential);
}
