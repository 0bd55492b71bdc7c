//! This module has records: an exclusive lot with a journal of what was done on it.

ghost use Rattle.std.specs.Prelude.{◌≡◌, ◌≢◌, ◌↔◌, ◌<◌, ◌≤◌, ◌+◌, [], IsErrOf, IfOk, Err, IsTrue, length};
ghost use Rattle.lot_simulator.specs.Lot.{machine};
ghost use Rattle.lot_machine.specs.Machine.{new_machine};
ghost use Rattle.lot_simulator.specs.Journal.{fits, room_for, set_aside_by};
ghost use Rattle.lot_simulator.specs.JournalLaws.{MisfitsDoNotFit, ParksHaveEntries, EndsHaveRoom};
ghost use Rattle.lot_simulator.specs.Record.{IsRecord, LacksRoom, IsRecorded, result_for};

mod aside;

use crate::lot::{Lot, Status};
use crate::schedule::{Answer, Step};
use aside::Aside;
use lot_base::token::LotError;
use lot_machine::numbers::MAX_THREADS;
use std::alloc::Global;
use std::marker::Model;
use thiserror::Error;

/// This is the greatest number of entries for which a journal can have room.
pub const MAX_JOURNAL: usize = 1_048_576;

/// A `RecordError` says why a step was not done on a record.
#[derive(Copy, Clone, Eq, PartialEq, Debug, Drop, Error)]
pub enum RecordError {
    /// The journal has no room for the step. The record is as it was.
    #[error("journal is full")]
    JournalFull,

    /// There was not enough memory. The lot is as it was, and the journal has the step with this
    /// answer.
    #[error("no memory")]
    NoMemory,
}

/// A `Record` has an exclusive lot, and a journal of the steps that were done on it, each with its
/// answer.
///
/// The journal can be replayed: if its steps are done one after another on a new lot, they can have
/// the same answers, and then that lot means what this one means.
///
/// The journal has room for the number of entries that `new` is given. A part of this room is set
/// aside. There is one entry for each thread that has entered a list and whose park has not ended.
/// There is one more while such a thread waits with a timeout and its deadline has not passed. So
/// neither a deadline nor the end of a park ever lacks room.
#[derive(Drop)]
pub struct Record {
    lot: Lot,
    journal: Vec<(Step, Answer)>,
    aside: Aside,
    capacity: usize,
}

impl Model for Record {
    ghost use Rattle.std.specs.Prelude.{◌≡◌, ◌≤◌, vec_capacity};
    ghost use Rattle.lot_simulator.specs.Lot.{machine};
    ghost use Rattle.lot_simulator.specs.Journal.{asides_of};
    ghost use Rattle.lot_simulator.specs.RecordState.{RecordState};
    ghost use Rattle.lot_simulator.specs.Record.{IsRecord};

    ghost Value = { RecordState };

    ghost view = { λ kept. record {
      lot = kept.lot;
      journal = kept.journal.items;
      capacity = kept.capacity;
    } };

    ghost invariant = { λ kept. IsRecord (record {
      lot = kept.lot;
      journal = kept.journal.items;
      capacity = kept.capacity;
    }) × (kept.aside.of_each.items ≡ asides_of (machine kept.lot).max_threads kept.journal.items)
        × (kept.capacity ≤ vec_capacity kept.journal) };
}

impl Record {
    /// Creates a record of a new lot for at most `max_threads` threads, with an empty journal that
    /// has room for `capacity` entries.
    ///
    /// It allocates what `Lot::new` does, the room of the journal, and a number for each thread.
    /// After that, a step allocates only what the lot allocates for it.
    ///
    /// # Errors
    ///
    /// Returns `TooManyThreads` if and only if `max_threads` is above `MAX_THREADS`. Otherwise
    /// returns `NoMemory` if there is not enough memory.
    pub fn new(alloc: Global, max_threads: usize, capacity: usize) -> Result<Record, LotError>
        requires { capacity ≤ MAX_JOURNAL }
        ensures too_many { IsErrOf result LotError.TooManyThreads ↔ (MAX_THREADS < max_threads) }
        ensures not_full { result ≢ Err LotError.Full }
        ensures lot { IfOk result (λ made. machine made.lot ≡ new_machine max_threads) }
        ensures size { IfOk result (λ made. length made.lot.buckets ≡ 16) }
        ensures journal { IfOk result (λ made. made.journal ≡ []) }
        ensures capacity { IfOk result (λ made. made.capacity ≡ capacity) }
    {
        let lot = Lot::new(alloc, max_threads)?;
        let journal = Vec::with_capacity(alloc, capacity)?;
        let aside = Aside::new(alloc, max_threads)?;
        Ok(Record {
            lot,
            journal,
            aside,
            capacity,
        })
    }

    /// Returns the greatest number of threads. Every thread number is below it.
    pub fn max_threads(&self) -> usize
        ensures { result ≡ (machine self.now.lot).max_threads }
    {
        self.aside.threads()
    }

    /// Returns the lot as it is now.
    pub fn lot(&self) -> &Lot
        ensures { result.now ≡ self.now.lot }
    {
        &self.lot
    }

    /// Returns the steps that were done, each with its answer, in order.
    pub fn journal(&self) -> &[(Step, Answer)]
        ensures { result.now ≡ self.now.journal }
    {
        self.journal.as_slice()
    }

    /// Does the step as `Lot::apply` does, and adds it to the journal with its answer.
    ///
    /// A step that is not allowed returns `Ok(Misfit)`, and is not added to the journal. It costs
    /// what the call of the lot costs that the step names, and a constant.
    ///
    /// # Errors
    ///
    /// Returns `JournalFull` if and only if the step is allowed and there is no room for it: for
    /// its own entry, unless that is set aside, and for the entries that it sets aside. Nothing was
    /// changed then. Returns `NoMemory` if the lot had not enough memory. The journal then has the
    /// step with this answer, and the lot is as before.
    pub fn step(&mut self, step: Step) -> Result<Answer, RecordError>
        ensures { IsRecorded self.old step result self.new }
    {
        if self.lacks_room(&step) {
            return Err(RecordError::JournalFull);
        }
        let answer = self.lot.apply(&step);
        if let Answer::Misfit = answer {
            return Ok(Answer::Misfit);
        }
        self.aside.change(entries_aside(&step, answer));
        // The room for all entries was asked for when the record was made.
        self.journal.push((step, answer)).unwrap();
        answer_told(answer)
    }

    /// Does nothing, and states what always holds of a record.
    ///
    /// Its journal can be replayed to what its lot means, and there is room for its entries
    /// together with those that are set aside.
    pub fn consistency(&self)
        ensures { IsRecord self.now }
    {
        // A use of a field opens what the type keeps.
        let _ = &self.lot;
    }

    // Whether the step fits, and there is no room for it.
    fn lacks_room(&self, step: &Step) -> bool
        ensures { IsTrue result ↔ LacksRoom self.now step.now }
    {
        self.capacity - self.journal.len() - self.aside.total() < entries_needed(step)
            && does_fit(&self.lot, step)
    }
}

/// States that a step is answered `Misfit` if and only if it is not allowed while its thread has
/// the status that it has.
pub fn misfits_do_not_fit()
    ensures { MisfitsDoNotFit }
{}

/// States that a record never lacks room for a deadline or for the end of a park.
///
/// A journal has an entry set aside for each park that has no outcome yet, and one more while the
/// deadline of the park may pass.
pub fn ends_have_room()
    ensures entries { ParksHaveEntries }
    ensures room { EndsHaveRoom }
{}

// Whether the step fits the status of its thread.
fn does_fit(lot: &Lot, step: &Step) -> bool
    ensures { result ≡ fits (machine lot.now) step.now }
{
    match step {
        Step::Register | Step::Unpark(_) | Step::Trim => true,
        Step::Retire { thread }
        | Step::Enter { thread, .. }
        | Step::Acquire { thread, .. }
        | Step::Release { thread, .. } => matches!(lot.status(*thread), Status::Running),
        Step::Deadline { thread } => matches!(lot.status(*thread), Status::Waiting { timed: true }),
        Step::Resolve { thread } => {
            matches!(lot.status(*thread), Status::Late | Status::Taken(_))
        }
        Step::Return { thread } => matches!(lot.status(*thread), Status::Taken(_)),
    }
}

// How many entries the step needs that were not set aside for it.
fn entries_needed(step: &Step) -> usize
    ensures room { result ≡ room_for step.now }
    ensures few { result ≤ 3 }
{
    match step {
        Step::Enter {
            valid: true,
            timed,
            ..
        } => 2 + usize::from(*timed),
        Step::Deadline { .. } | Step::Resolve { .. } | Step::Return { .. } => 0,
        _ => 1,
    }
}

// For which thread the step with this answer leaves how many entries set aside, if it changes that.
fn entries_aside(step: &Step, answer: Answer) -> Option<(usize, usize)>
    ensures { result ≡ set_aside_by step.now answer }
{
    match (step, answer) {
        (Step::Enter { thread, timed, .. }, Answer::Entered) => {
            Some((*thread, 1 + usize::from(*timed)))
        }
        (Step::Deadline { thread }, Answer::Late) => Some((*thread, 1)),
        (Step::Resolve { thread }, Answer::TimedOut { .. } | Answer::Unparked(_)) => {
            Some((*thread, 0))
        }
        (Step::Return { thread }, Answer::Unparked(_)) => Some((*thread, 0)),
        _ => None,
    }
}

// What the caller is told of the lot's answer.
fn answer_told(answer: Answer) -> Result<Answer, RecordError>
    ensures { result ≡ result_for answer }
{
    match answer {
        Answer::NoMemory => Err(RecordError::NoMemory),
        _ => Ok(answer),
    }
}
