//! A deadline that passes, as a step.

ghost use Rattle.lot_simulator.specs.Lot.{machine};
ghost use Rattle.lot_machine.specs.Steps.{IsStep};

use lot_simulator::lot::Lot;
use lot_simulator::schedule::{Answer, Step};

/// Lets the deadline of a thread pass, if it waits with a timeout.
pub fn let_expire(lot: &mut Lot, thread: usize) -> Answer
    ensures { IsStep (machine lot.old) (Step.Deadline thread) result (machine lot.new) }
{
    lot.apply(&Step::Deadline { thread })
}
