//! This module re-exports the laws of the machine, and has calls of an exclusive lot that follow
//! from them.

ghost use Rattle.std.specs.Prelude.{◌≡◌, ◌≢◌, ◌↔◌, Err, false, length};
ghost use Rattle.lot_base.specs.Waiting.{split_all, result_of};
ghost use Rattle.lot_simulator.specs.LotState.{KeepsSize};
ghost use Rattle.lot_simulator.specs.Lot.{machine};
ghost use Rattle.lot_machine.specs.Machine.{after_unpark};

use crate::lot::{Lot, Status};
use lot_base::token::{
    DEFAULT_UNPARK_TOKEN, FilterOp, RequeueOp, StepError, UnparkResult, UnparkToken,
};
pub use lot_machine::laws::{
    abort_changes_nothing, answers_fix_the_run, each_step_has_one_answer,
    parks_and_outcomes_alternate, release_undoes_acquire, steps_keep_consistency,
    unparked_threads_come_back,
};

/// Unparks every waiter of the key by a filter that always returns `Unpark`.
///
/// It does what `Lot::unpark_all` does, but returns an `UnparkResult`. It costs what
/// `Lot::unpark_filter` costs.
pub fn unpark_all_by_filter(lot: &mut Lot, key: usize, unpark_token: UnparkToken) -> UnparkResult
    ensures result { result ≡ result_of (split_all ((machine lot.old).lists key)) }
    ensures taken { machine lot.new
        ≡ after_unpark (machine lot.old) key
        (split_all ((machine lot.old).lists key)) unpark_token }
    ensures size { KeepsSize lot.old lot.new }
{
    lot.unpark_chosen(key, |_| FilterOp::Unpark, |_| unpark_token)
}

/// Requeues every waiter of the key to the same key, which changes nothing, and returns how many
/// there are.
///
/// It costs what `Lot::unpark_requeue` costs.
pub fn requeue_all_to_itself(lot: &mut Lot, key: usize) -> UnparkResult
    ensures result { result ≡ record {
      unparked_threads = 0;
      requeued_threads = length ((machine lot.old).lists key);
      have_more_threads = false;
    } }
    ensures unchanged { machine lot.new ≡ machine lot.old }
    ensures size { KeepsSize lot.old lot.new }
{
    lot.unpark_requeue(
        key,
        key,
        || RequeueOp::RequeueAll,
        |_, _| DEFAULT_UNPARK_TOKEN,
    )
}

/// Records the key for the thread and releases it again, so that the lot means what it meant.
///
/// It costs what `Lot::acquire` and `Lot::release` cost.
///
/// # Errors
///
/// Returns the errors of `Lot::acquire`.
pub fn acquire_and_release(lot: &mut Lot, number: usize, key: usize) -> Result<(), StepError>
    ensures fits { result ≢ Err StepError.Misfit
        ↔ ((machine lot.old).status number ≡ Status.Running) }
    ensures unchanged { machine lot.new ≡ machine lot.old }
    ensures size { KeepsSize lot.old lot.new }
{
    lot.acquire(number, key)?;
    // A thread that could record a key runs, and so its release fits.
    lot.release(number, key).unwrap();
    Ok(())
}
