//! This module has laws of every test. Its functions do nothing: their contracts are the laws.

ghost use Rattle.lot_litmus.specs.MachineSteps.{StepsAreOfTheMachine};

/// States that after any schedule the next step of each thread leaves the lot as it is, or does to
/// it what a step of the machine does.
///
/// The machine is that of `lot_machine`, which specifies the other lots too.
pub fn steps_are_of_the_machine()
    ensures { StepsAreOfTheMachine }
{}
