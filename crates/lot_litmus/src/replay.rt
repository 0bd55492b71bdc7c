//! This module runs a test along a schedule.

ghost use Rattle.std.specs.Prelude.{◌≡◌};
ghost use Rattle.lot_litmus.specs.Outcomes.{end_of, numbers_of};
ghost use Rattle.lot_litmus.specs.Schedule.{first_of, run};

use crate::code::Thread;
use crate::reached::Reached;
use crate::step::Next;
use crate::test::{Fault, Test};

impl Test {
    /// Returns the state to which the steps of this schedule lead from the beginning.
    ///
    /// A thread that cannot go on at its turn is skipped.
    ///
    /// # Errors
    ///
    /// Returns the fault that a step shows.
    pub fn replay(&self, schedule: &[Thread]) -> Result<Reached, Fault>
        ensures { end_of result ≡ run self.now (first_of self.now) (numbers_of schedule.now) }
    {
        let mut at = Reached::first(self);
        for &thread in schedule {
            match self.step(&at, thread) {
                Next::Blocked => (),
                Next::Goes(next) => at = next,
                Next::Fails(fault) => return Err(fault),
            }
        }
        Ok(at)
    }
}
