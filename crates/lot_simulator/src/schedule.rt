//! This module has schedules: lists of steps of any threads, which are done one after another on an
//! exclusive lot.

ghost use Rattle.std.specs.Prelude.{◌≡◌, ℕ, ◌+◌, ◌<◌, ◌++◌, List, length, vec_len, vec_capacity, OnOk, OnErr};
ghost use Rattle.lot_machine.specs.declared.step.Answer.{Answer};
ghost use Rattle.lot_simulator.specs.Lot.{machine};
ghost use Rattle.lot_machine.specs.Machine.{threads_of};
ghost use Rattle.lot_machine.specs.Run.{IsRun, OutcomesAlternate};
ghost use Rattle.lot_machine.specs.Size.{IsSizeAfterRun};
ghost use Rattle.lot_machine.specs.Status.{is_parked};
ghost use Rattle.lot_machine.specs.Steps.{IsStep, ends_park, parks};

mod apply;

use crate::lot::Lot;
use lot_base::token::NoMemory;
pub use lot_machine::step::{Answer, Op, Step};

/// Does the steps one after another, and appends one answer for each.
///
/// The answers are those of a run of the machine with one list of waiters for each key: from the
/// machine that the lot meant before, by these steps, to the one that it means after. A step that
/// is not allowed while its thread has the status that it has, such as every step of a free number,
/// is answered `Misfit`. A registration, an acquire or a trim for which there is not enough memory
/// is answered `NoMemory`.
///
/// In these answers the parks and outcomes of each thread take turns, so no park has two outcomes.
/// An outcome comes first only for a thread that was parked before. This follows from the run, by
/// `laws::parks_and_outcomes_alternate`. By `laws::answers_fix_the_run`, steps and answers
/// determine what the lot means after.
///
/// The number of buckets follows from steps and answers too: only registrations and trims change
/// it, and it stays at least three for each registered thread. A trim is refused only if it would
/// make the table smaller.
///
/// It first allocates room for all answers, and then costs what the steps cost.
///
/// # Errors
///
/// Returns `NoMemory` if there is not enough memory for the answers, and never if `answers` already
/// has room for them. The lot and the answers are then as before, and `answers` may have more room.
pub fn run(lot: &mut Lot, steps: &[Step], answers: &mut Vec<Answer>) -> Result<(), NoMemory>
    ensures ran { OnOk result (record {
      given : List Answer;
      appended : answers.new.items ≡ answers.old.items ++ given;
      run : IsRun IsStep (machine lot.old) steps.now given (machine lot.new);
      outcomes : (number : ℕ) → OutcomesAlternate (parks number)
          (ends_park number) (is_parked ((machine lot.old).status number)) steps.now given;
      size : IsSizeAfterRun (threads_of (machine lot.old)) steps.now given
          (length lot.old.buckets) (length lot.new.buckets);
    }) }
    ensures refused { OnErr result
        (vec_capacity answers.old < vec_len answers.old + length steps.now) }
    ensures err { OnErr result ((lot.new ≡ lot.old) × (answers.new.items ≡ answers.old.items)) }
{
    lot.consistency();
    answers.reserve(steps.len())?;
    for step in steps {
        answers.push(lot.apply(step))?;
    }
    Ok(())
}
