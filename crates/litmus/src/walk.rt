//! A schedule, with the states between its steps.

use lot_litmus::code::{THREADS, Thread};
use lot_litmus::reached::Reached;
use lot_litmus::state::{Progress, State};
use lot_litmus::step::Next;
use lot_litmus::test::{Fault, Test};
use std::alloc::{AllocError, Global};

/// How a schedule ends.
#[derive(Clone, Copy)]
pub enum Ending {
    /// The last step shows a fault, once the thread has come so far.
    Fault { fault: Fault, progress: Progress },

    /// Nobody can go on, and not all have ended.
    Asleep,

    /// The threads go round: behind the last step all is as it was before this one.
    Round { first: usize },

    /// Not all can come to their ends. How they go on was not found.
    Open,
}

/// The steps of a schedule and the states between them.
#[derive(Drop)]
pub struct Walk {
    /// Who does each step.
    pub steps: Vec<Thread>,

    /// The state before each step, and the last one, unless the last step shows a fault.
    pub states: Vec<Reached>,

    /// Behind so many steps it is settled what comes.
    pub settled: usize,
    pub ending: Ending,
}

impl Walk {
    /// The walk of this schedule from the first state of the test.
    pub fn of(alloc: Global, test: &Test, schedule: &[Thread]) -> Result<Walk, AllocError> {
        let mut walk = Walk {
            steps: Vec::new(alloc),
            states: Vec::new(alloc),
            settled: schedule.len(),
            ending: Ending::Open,
        };
        walk.states.push(Reached::first(test))?;
        walk.go_on(test, schedule)?;
        Ok(walk)
    }

    /// Goes on by these steps.
    pub fn go_on(&mut self, test: &Test, schedule: &[Thread]) -> Result<(), AllocError> {
        for thread in schedule {
            self.step(test, *thread)?;
        }
        Ok(())
    }

    /// Goes on by a step of the thread, if it can do one. Says whether it can.
    pub fn step(&mut self, test: &Test, thread: Thread) -> Result<bool, AllocError> {
        let Some(from) = self.states.last() else {
            return Ok(false);
        };
        match test.step(from, thread) {
            Next::Blocked => return Ok(false),
            Next::Goes(next) => self.states.push(next)?,
            Next::Fails(fault) => {
                let progress = test.progress_at_fault(from, thread);
                self.ending = Ending::Fault { fault, progress };
            }
        }
        self.steps.push(thread)?;
        Ok(true)
    }

    /// Goes back to where it had so many steps.
    pub fn cut(&mut self, steps: usize) {
        self.steps.truncate(steps);
        self.states.truncate(steps.saturating_add(1));
    }

    /// The state before the step with this index, or behind the last one.
    pub fn state(&self, index: usize) -> Option<&State> {
        match self.states.get(index) {
            Some(reached) => Some(reached.state()),
            None => None,
        }
    }

    /// The last state.
    pub fn last(&self) -> Option<&State> {
        match self.states.last() {
            Some(reached) => Some(reached.state()),
            None => None,
        }
    }

    /// Who did the last step. Before the first it is as if the last thread had done one.
    pub fn last_thread(&self) -> Thread {
        match self.steps.last() {
            Some(thread) => *thread,
            None => Thread {
                number: THREADS as u8 - 1,
            },
        }
    }
}
