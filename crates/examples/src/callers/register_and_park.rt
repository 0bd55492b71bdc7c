//! Errors of two kinds in one.

ghost use Rattle.std.specs.Prelude.{IfOk};
ghost use Rattle.lot_simulator.specs.Lot.{machine};
ghost use Rattle.lot_machine.specs.Machine.{IsLeastFree};

use lot_base::token::{DEFAULT_PARK_TOKEN, LotError, Misfit};
use lot_simulator::lot::Lot;
use thiserror::Error;

/// Why a simulation stopped.
#[derive(Debug, Drop, Error)]
pub enum SimulationError {
    /// The lot could not be made, or a thread could not be registered.
    #[error(transparent)]
    Lot(#[from] LotError),

    /// A step did not fit the status of its thread.
    #[error(transparent)]
    Step(#[from] Misfit),
}

/// Registers a thread and parks it on the key. It tells the thread's number.
pub fn register_and_park(lot: &mut Lot, key: usize) -> Result<usize, SimulationError>
    ensures { IfOk result (λ number. IsLeastFree (machine lot.old) number) }
{
    let number = lot.register()?;
    lot.enter(number, key, || true, DEFAULT_PARK_TOKEN, false)?;
    Ok(number)
}
