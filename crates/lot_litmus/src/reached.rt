//! This module has the states that a test can reach.

ghost use Rattle.std.specs.Prelude.{◌≡◌, length};

use crate::code::{KEYS, LOCALS, THREADS};
use crate::queue::Queue;
use crate::state::{Progress, Standing, State};
use crate::test::Test;
use std::marker::Model;

/// A `Reached` is a state in which the lot's machine is consistent.
///
/// Every state that a test can reach is such a state.
#[derive(Drop)]
pub struct Reached {
    state: State,
}

impl Model for Reached {
    ghost use Rattle.std.specs.Prelude.{◌≡◌, length};
    ghost use Rattle.lot_litmus.specs.declared.state.State.{State};
    ghost use Rattle.lot_machine.specs.Machine.{IsConsistent};
    ghost use Rattle.lot_litmus.specs.View.{machine_of};

    ghost Value = { State };

    ghost view = { λ reached. reached.state };

    ghost invariant = { λ reached.
        IsConsistent (machine_of reached.state.queues reached.state.standings)
        × (length reached.state.threads ≡ 6) };
}

impl Reached {
    ghost use Rattle.std.specs.Prelude.{◌≡◌, length};
    ghost use Rattle.lot_machine.specs.Machine.{IsConsistent};
    ghost use Rattle.lot_litmus.specs.Schedule.{first_of};
    ghost use Rattle.lot_litmus.specs.View.{configuration_of, machine_of};

    /// Returns the state in which the test begins.
    pub fn first(test: &Test) -> Reached
        ensures { configuration_of result ≡ first_of test.now }
    {
        Reached {
            state: State::first(test),
        }
    }

    /// Makes a `Reached` of a state in which the machine is consistent.
    pub fn new(state: State) -> Reached
        requires { IsConsistent (machine_of state.queues state.standings) }
        ensures { result ≡ state }
    {
        Reached { state }
    }

    /// Returns the state.
    pub fn state(&self) -> &State
        ensures value { result.now ≡ self.now }
        ensures threads { length result.now.threads ≡ 6 }
        ensures consistent { IsConsistent (machine_of self.now.queues self.now.standings) }
    {
        &self.state
    }
}

impl State {
    ghost use Rattle.lot_litmus.specs.Schedule.{first_of};
    ghost use Rattle.lot_litmus.specs.View.{configuration_of};

    // The state of a test at its beginning.
    fn first(test: &Test) -> State
        ensures { configuration_of result ≡ first_of test.now }
    {
        let fresh = Progress {
            at: 0,
            locals: [0; LOCALS],
            locked: [false; KEYS],
            inside: None,
        };
        State {
            words: test.words,
            threads: [fresh; THREADS],
            standings: [Standing::Running; THREADS],
            queues: [Queue::new(); KEYS],
        }
    }
}
