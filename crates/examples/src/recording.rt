//! What threads did on a recording lot, and the same once more on a lot of one's own.

ghost use Rattle.std.specs.Prelude.{◌≡◌, ◌≤◌, IfOk, Ok};
ghost use Rattle.lot_simulator.specs.Lot.{machine};
ghost use Rattle.lot_simulator.specs.Record.{IsRecorded};
ghost use Rattle.lot_simulator.specs.declared.record.TheConstants.{MAX_JOURNAL};

use lot_simulator::lot::Lot;
use lot_simulator::record::{MAX_JOURNAL, Record, RecordError, ends_have_room};
use lot_simulator::recording_lot::{RecordingLot, Ticket};
use lot_simulator::schedule::{Answer, Op, Step};
use lot_threads::{DEFAULT_PARK_TOKEN, LotError, UnparkToken};
use std::alloc::Global;
use std::marker::Brand;
use std::sync::Wait;
use std::sync::ledger::{Blank, Ledger};
use std::thread;
use std::thread::Threads;

/// A lot that means what the record's lot means, made by the steps of the journal. What the journal
/// tells of wanting memory is left out, since it changed nothing.
///
/// It costs what `Lot::new` and the steps cost.
///
/// # Errors
///
/// Those of `Lot::new`, and `NoMemory` where a step that was done then finds no memory now.
pub fn replay(alloc: Global, recorded: &Record) -> Result<Lot, LotError>
    ensures { IfOk result (λ lot. machine lot ≡ machine recorded.now.lot) }
{
    recorded.consistency();
    let mut lot = Lot::new(alloc, recorded.max_threads())?;
    lot.consistency();
    for (step, answer) in recorded.journal() {
        if let Answer::NoMemory = answer {
            continue;
        }
        if let Answer::NoMemory = lot.apply(step) {
            return Err(LotError::NoMemory);
        }
    }
    Ok(lot)
}

/// Ends the park of a thread, and journals that. The answer is `Misfit` if the thread is neither
/// late nor unparked. The end of a park is never refused, also where the journal is full: its entry
/// was set aside when the thread entered.
///
/// It costs what `Record::step` costs.
pub fn end_park(recorded: &mut Record, thread: usize) -> Answer
    ensures { IsRecorded recorded.old (Step.Resolve thread) (Ok result) recorded.new }
{
    recorded.consistency();
    ends_have_room();
    // Only a full journal refuses a resolve, and the law says that its entry has room.
    recorded.step(Step::Resolve { thread }).unwrap()
}

/// Two threads each register on a recording lot for two, wait on the key in turns and unpark who
/// waits there, `turns` times. It gives the record once both are done.
///
/// # Errors
///
/// Those of `RecordingLot::new`.
pub fn record_two<R: Threads + Wait + Sync>(
    rt: &R,
    alloc: Global,
    key: usize,
    turns: usize,
    capacity: usize,
) -> Result<Record, LotError>
    requires { capacity ≤ MAX_JOURNAL }
{
    let work = Work { key, turns };
    let blanks = (Blank::new(2), Blank::new(2), Blank::new(2));
    record_by::<Brand, Brand, Brand, R>(rt, alloc, work, capacity, blanks)
}

// On which key each thread waits, and how often.
#[derive(Copy, Clone)]
struct Work {
    key: usize,
    turns: usize,
}

// The same in ledgers of these names.
fn record_by<C, W, U, R>(
    rt: &R,
    alloc: Global,
    work: Work,
    capacity: usize,
    blanks: (Blank, Blank, Blank),
) -> Result<Record, LotError>
where
    C: Ledger + Send + Sync,
    W: Ledger + Send + Sync,
    U: Ledger + Send + Sync,
    R: Threads + Wait + Sync,
    requires capacity { capacity ≤ MAX_JOURNAL }
    requires names { (blanks.0.name ≡ C.name) × (blanks.1.name ≡ W.name)
        × (blanks.2.name ≡ U.name) }
    requires parts { (blanks.0.parts ≡ C.parts) × (blanks.1.parts ≡ W.parts)
        × (blanks.2.parts ≡ U.parts) }
    requires workers { (C.parts ≡ 2) × (W.parts ≡ 2) × (U.parts ≡ 2) }
{
    let (count, woken, unparked) = blanks;
    let (lot, mut tickets) = RecordingLot::<C, W, U>::new(
        alloc, 2, capacity, 2, count, woken, unparked,
    )?;
    let (first, second) = tickets.as_mut_slice().split_at_mut(1);
    thread::join(
        rt,
        || take_turns(rt, &lot, &mut first[0], work),
        || take_turns(rt, &lot, &mut second[0], work),
    );
    Ok(lot.close(tickets))
}

// What each of the two threads does: it registers, and then it waits, unparks the first who waits
// on the key, and looks whether it was unparked itself, over and over.
fn take_turns<C: Ledger, W: Ledger, U: Ledger, R: Wait>(
    rt: &R,
    lot: &RecordingLot<C, W, U>,
    ticket: &mut Ticket<C, W, U>,
    work: Work,
) {
    let Ok(Answer::Registered(thread)) = lot.step(rt, ticket, Step::Register) else {
        return;
    };
    for turn in 0..work.turns {
        let enter = Step::Enter {
            thread,
            key: work.key,
            valid: true,
            park_token: DEFAULT_PARK_TOKEN,
            timed: false,
        };
        let unpark = Step::Unpark(Op::One {
            key: work.key,
            token: UnparkToken(turn),
        });
        for step in [enter, unpark, Step::Return { thread }] {
            if let Err(RecordError::JournalFull) = lot.step(rt, ticket, step) {
                return;
            }
        }
    }
}
