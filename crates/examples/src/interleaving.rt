//! Interleaved schedules: what they answer on a new lot, and what they amount to.

ghost use Rattle.std.specs.Prelude.{IfOk};
ghost use Rattle.lot_simulator.specs.InterleavedRun.{AmountsTo};
ghost use Rattle.lot_simulator.specs.InterleavedState.{FineState, new_fine_state};

use lot_simulator::interleaved::{FineAnswer, FineLot, FineStep, run_fine};
use lot_simulator::schedule::Step;
use lot_threads::LotError;
use std::alloc::Global;

/// Does the steps on a new interleaved lot, and tells the answers, and the sequential steps to
/// which they amount.
///
/// With the same answers, the sequential steps are a run of the machine with one list of waiters
/// for each key. It allocates a lot and both lists, and costs what the steps cost.
///
/// # Errors
///
/// `TooManyThreads` if either number is above `MAX_THREADS`, and `NoMemory` if memory cannot be
/// had.
pub fn interleave(
    alloc: Global,
    max_threads: usize,
    callers: usize,
    steps: &[FineStep],
) -> Result<(Vec<FineAnswer>, Vec<Step>), LotError>
    ensures { IfOk result (λ told. (last : FineState)
        × AmountsTo (new_fine_state max_threads callers) last steps.now told.0.items told.1.items) }
{
    let mut lot = FineLot::new(alloc, max_threads, callers)?;
    let mut answers = Vec::new(alloc);
    let mut sequential = Vec::new(alloc);
    run_fine(&mut lot, steps, &mut answers, &mut sequential)?;
    Ok((answers, sequential))
}
