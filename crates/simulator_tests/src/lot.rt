//! Calls of the exclusive lot that stand on laws.

use crate::words::{expect, step};
use lot_base::token::UnparkToken;
use lot_machine::step::Answer;
use lot_simulator::laws;
use lot_simulator::lot::Lot;
use std::alloc::Global;
use std::process::Abort;

// Two of three threads wait on the key 1.
const LINES: &str = "register\nregister\nregister\nenter 0 1 yes 0 timed\nenter 1 1 yes 0 timed";

fn expect_laws(rt: &impl Abort, alloc: Global, lot: &mut Lot) {
    for line in LINES.lines() {
        let answer = lot.apply(&step(rt, alloc, line));
        let is_done = !matches!(answer, Answer::Misfit | Answer::NoMemory);
        expect(rt, is_done, line);
    }
    let recorded = laws::acquire_and_release(lot, 2, 5);
    expect(rt, recorded.is_ok(), "a record that is released");
    let moved = laws::requeue_all_to_itself(lot, 1).requeued_threads;
    let unparked = laws::unpark_all_by_filter(lot, 1, UnparkToken(42)).unparked_threads;
    expect(
        rt,
        moved == 2 && unparked == 2,
        "both are moved and unparked",
    );
}

// It refuses an `acquire_and_release` that answers `NoMemory` at each call.
#[test]
fn calls_that_stand_on_laws_do_what_the_laws_say(rt: HostRuntime) {
    let mut lot = Lot::new(rt.alloc(), 3).expect(&rt, "memory");
    expect_laws(&rt, rt.alloc(), &mut lot);
}
