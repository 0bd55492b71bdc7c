//! The examples without a lot of threads. Their contracts say what comes out; no clause says that
//! anything does, rather than want of memory, nor what two threads record.

use crate::expect;
use examples::interleaving::interleave;
use examples::recording::{record_two, replay};
use examples::simulation::{two_tasks, wait_in_vain};
use lot_simulator::interleaved::FineStep;
use lot_simulator::lot::{Lot, Status};
use std::alloc::Global;
use std::process::Abort;
use std::sync::Wait;
use std::thread::Threads;

const KEY: usize = 7;

// How many steps two threads record, which a lot without threads can do once more.
fn count_recorded<R>(rt: &R, alloc: Global, turns: usize, capacity: usize) -> usize
where
    R: Threads + Wait + Abort + Sync,
{
    let capacity = capacity.min(1_000);
    let recorded = record_two(rt, alloc, KEY, turns, capacity).expect(rt, "a record");
    expect(rt, replay(alloc, &recorded).is_ok(), "a lot");
    recorded.journal().len()
}

// In one turn each thread registers, enters and unparks, and returns if it was unparked by then.
#[test]
fn two_threads_record_their_turns_as_far_as_the_journal_has_room(rt: HostRuntime) {
    for (turns, capacity, least, most) in [
        (100, 1_000, 204, 1_000),
        (100, 7, 3, 7),
        (1, 1_000, 6, 8),
    ] {
        let steps = count_recorded(&rt, rt.alloc(), turns, capacity);
        expect(&rt, least <= steps && steps <= most, "steps of the journal");
    }
}

// Whether the thread, which runs, waits in vain.
fn waits_in_vain(alloc: Global, lot: &mut Lot, thread: usize) -> bool {
    match lot.status(thread) {
        Status::Running => wait_in_vain(alloc, lot, thread, KEY).is_ok(),
        _ => false,
    }
}

#[test]
fn each_simulation_comes_to_its_end(rt: HostRuntime) {
    let mut lot = Lot::new(rt.alloc(), 1).expect(&rt, "a lot");
    let thread = lot.register().expect(&rt, "a number");
    expect(
        &rt,
        waits_in_vain(rt.alloc(), &mut lot, thread),
        "a wait in vain",
    );
    expect(&rt, two_tasks(rt.alloc(), true).is_ok(), "two tasks");
    let interleaved = interleave(rt.alloc(), 1, 1, &[FineStep::Register]);
    expect(&rt, interleaved.is_ok(), "an interleaving");
}
