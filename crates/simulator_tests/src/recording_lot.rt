//! A recording lot among threads.

ghost use Rattle.std.specs.Prelude.{◌≡◌};

use crate::record::expect_replay;
use crate::words::expect;
use lot_base::token::{DEFAULT_PARK_TOKEN, UnparkToken};
use lot_machine::step::{Answer, Op, Step};
use lot_simulator::record::Record;
use lot_simulator::recording_lot::{RecordingLot, Ticket};
use std::alloc::Global;
use std::marker::Brand;
use std::process::Abort;
use std::sync::Wait;
use std::sync::ledger::{Blank, Ledger};
use std::thread;
use std::thread::Threads;

// How many steps each of the workers takes.
const CALLS: usize = 1_000;

// A step of one of six threads: they park on two keys, and unpark each other.
fn step_of(call: usize) -> Step {
    let thread = call % 6;
    let key = call / 7 % 2;
    match call % 11 {
        0 => Step::Register,
        1..=3 => Step::Enter {
            thread,
            key,
            valid: true,
            park_token: DEFAULT_PARK_TOKEN,
            timed: call.is_multiple_of(2),
        },
        4 => Step::Deadline { thread },
        5 => Step::Resolve { thread },
        6..=7 => Step::Unpark(Op::One {
            key,
            token: UnparkToken(call),
        }),
        _ => Step::Return { thread },
    }
}

// What each of the threads does with its ticket.
fn call_often<C: Ledger, W: Ledger, U: Ledger, R: Wait>(
    rt: &R,
    lot: &RecordingLot<C, W, U>,
    ticket: &mut Ticket<C, W, U>,
    first: usize,
) {
    for call in 0..CALLS {
        let _ = lot.step(rt, ticket, step_of(first.wrapping_add(call)));
    }
}

// A thread for each ticket, each of which begins with another step.
fn call_from_each<C, W, U, R>(rt: &R, lot: &RecordingLot<C, W, U>, tickets: &mut [Ticket<C, W, U>])
where
    C: Ledger + Send + Sync,
    W: Ledger + Send + Sync,
    U: Ledger + Send + Sync,
    R: Threads + Wait + Sync,
{
    thread::for_each_mut(
        rt,
        tickets,
        4,
        &|number, ticket| call_often(rt, lot, ticket, number.wrapping_mul(3)),
    );
}

// The last step is taken once the threads have ended.
fn take_last_step<C: Ledger, W: Ledger, U: Ledger, R: Wait + Abort>(
    rt: &R,
    lot: &RecordingLot<C, W, U>,
    tickets: &mut [Ticket<C, W, U>],
) {
    let last = tickets.first_mut().expect(rt, "a ticket");
    let told = lot.step(rt, last, Step::Trim);
    expect(rt, matches!(told, Ok(Answer::Trimmed)), "the last step");
}

// How many entries, tokens and wakes the tickets count.
fn counts_of<C: Ledger, W: Ledger, U: Ledger>(
    tickets: &[Ticket<C, W, U>],
) -> (usize, usize, usize) {
    let (mut entries, mut taken, mut woken) = (0_usize, 0_usize, 0_usize);
    for ticket in tickets {
        entries = entries.wrapping_add(ticket.count());
        taken = taken.wrapping_add(ticket.unparked());
        woken = woken.wrapping_add(ticket.woken());
    }
    (entries, taken, woken)
}

fn expect_recorded(
    rt: &impl Abort,
    alloc: Global,
    recorded: &Record,
    (entries, taken, woken): (usize, usize, usize),
) {
    let journal = recorded.journal();
    let is_last = matches!(journal.last(), Some((Step::Trim, Answer::Trimmed)));
    expect(rt, is_last, "the last entry");
    let is_counted = entries > CALLS && journal.len() == entries;
    let are_woken = taken >= woken && woken > 0;
    expect(rt, is_counted && are_woken, "what the tickets count");
    expect_replay(rt, alloc, recorded, 6);
}

// It refuses a lot whose journal is not what its threads were told.
fn call_from_four_threads<C, W, U, R>(rt: &R, alloc: Global, blanks: (Blank, Blank, Blank))
where
    C: Ledger + Send + Sync,
    W: Ledger + Send + Sync,
    U: Ledger + Send + Sync,
    R: Threads + Wait + Abort + Sync,
    requires names { (blanks.0.name ≡ C.name) × (blanks.1.name ≡ W.name)
        × (blanks.2.name ≡ U.name) }
    requires parts { (blanks.0.parts ≡ C.parts) × (blanks.1.parts ≡ W.parts)
        × (blanks.2.parts ≡ U.parts) }
    requires workers { (C.parts ≡ 4) × (W.parts ≡ 4) × (U.parts ≡ 4) }
{
    let (count, woken, unparked) = blanks;
    let (lot, mut tickets) = RecordingLot::<C, W, U>::new(
        alloc,
        6,
        4 * CALLS,
        4,
        count,
        woken,
        unparked,
    ).expect(rt, "memory");
    call_from_each(rt, &lot, tickets.as_mut_slice());
    take_last_step(rt, &lot, tickets.as_mut_slice());
    let counted = counts_of(tickets.as_slice());
    let recorded = lot.close(tickets);
    expect_recorded(rt, alloc, &recorded, counted);
}

#[test]
fn what_four_threads_did_replays(rt: HostRuntime) {
    let blanks = (Blank::new(4), Blank::new(4), Blank::new(4));
    call_from_four_threads::<Brand, Brand, Brand, HostRuntime>(&rt, rt.alloc(), blanks);
}
