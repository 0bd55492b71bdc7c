//! What a step of a thread does to a state.

ghost use Rattle.std.specs.Prelude.{◌≡◌, Some, length};
ghost use Rattle.lot_litmus.specs.View.{configuration_of, machine_of};

use crate::code::{Code, Instruction, Thread, Timing};
use crate::local::Locally;
use crate::perform::Performed;
use crate::reached::Reached;
use crate::state::{Progress, Standing, State};
use crate::test::{Fault, Test};

// How many local instructions a thread does at once, at most.
const MOST_LOCAL: usize = 256;

/// What a step comes to.
#[derive(Clone, Copy)]
pub(crate) enum After {
    /// It cannot be done now.
    Blocked,

    /// It was done.
    Goes,

    /// It shows a fault.
    Fails(Fault),
}

/// A `Next` is the result of a thread's next step.
#[derive(Drop)]
pub enum Next {
    /// The thread cannot go on now.
    Blocked,

    /// The thread goes on, and the test is in this state.
    Goes(Reached),

    /// The step shows this fault.
    Fails(Fault),
}

impl State {
    ghost use Rattle.std.specs.Prelude.{slice_get};
    ghost use Rattle.lot_litmus.specs.declared.local.Locally.TheVariants.{Rests};
    ghost use Rattle.lot_litmus.specs.Steps.{local_bound, local_step, settled, with_progress};
    ghost use Rattle.lot_litmus.specs.Performing.{after_of, locally_of};

    // Lets the thread have come so far.
    fn set_progress(&mut self, thread: Thread, progress: Progress)
        ensures { configuration_of self.new
            ≡ with_progress (configuration_of self.old) thread.number progress }
    {
        self.threads[thread.index()] = progress;
    }

    // Does the thread's next instruction, if that is local, where the thread has come so far.
    #[inline(always)]
    pub(crate) fn go_locally(&self, code: &Code, thread: Thread, progress: &mut Progress) -> Locally
        ensures does { locally_of result progress.new ≡ local_step
            (with_progress (configuration_of self.now) thread.number progress.old) progress.old
            (slice_get code.now.instructions.items progress.old.at) }
        ensures rests { result ≡ Rests → progress.new ≡ progress.old }
    {
        match code.at(progress.at) {
            Some(instruction) => self.do_locally(thread, progress, instruction),
            None => Locally::Rests,
        }
    }

    // The thread goes on, up to its next step.
    fn settle(&mut self, code: &Code, thread: Thread, progress: Progress) -> After
        ensures { after_of result self.new ≡ settled local_bound code.now.instructions.items
            (configuration_of self.old) thread.number progress }
    {
        let mut progress = progress;
        for _ in 0..MOST_LOCAL {
            match self.go_locally(code, thread, &mut progress) {
                Locally::Rests => {
                    self.set_progress(thread, progress);
                    return After::Goes;
                }
                Locally::Advances => (),
                Locally::Errs(fault) => return After::Fails(fault),
            }
        }
        After::Fails(Fault::Endless)
    }
}

impl Test {
    ghost use Rattle.std.specs.Prelude.{IsTrue};
    ghost use Rattle.lot_machine.specs.Machine.{IsConsistent};
    ghost use Rattle.lot_litmus.specs.Steps.{Blocked, stepped};
    ghost use Rattle.lot_litmus.specs.Performing.{after_of};

    // Lets the thread take a step, and tells what that comes to.
    fn step_on(&self, state: &mut State, thread: Thread) -> After
        requires { IsConsistent (machine_of state.old.queues state.old.standings) }
        ensures { after_of result state.new
            ≡ stepped self.now (configuration_of state.old) thread.number }
    {
        let progress = state.threads[thread.index()];
        let code = &self.codes[thread.index()];
        let Some(instruction) = code.at(progress.at) else {
            return After::Blocked;
        };
        match state.perform(self, thread, progress, instruction) {
            Performed::Cannot => After::Blocked,
            Performed::Does(progress) => state.settle(code, thread, progress),
            Performed::Mistakes(fault) => After::Fails(fault),
        }
    }

    // Whether the thread has ended or sleeps, which most do that cannot take a step.
    fn is_idle(&self, state: &State, thread: Thread) -> bool
        ensures { IsTrue result
            → stepped self.now (configuration_of state.now) thread.number ≡ Blocked }
    {
        let at = state.threads[thread.index()].at;
        match self.codes[thread.index()].at(at) {
            Some(Instruction::Sleep { .. }) => match state.standing(thread) {
                Standing::Waiting(Timing::Endless) => true,
                _ => false,
            },
            Some(_) => false,
            None => true,
        }
    }

    // Lets the thread take a step from a state, and tells what that comes to. The next state is
    // the one to which it goes.
    pub(crate) fn step_from(&self, from: &State, next: &mut State, thread: Thread) -> After
        requires { IsConsistent (machine_of from.now.queues from.now.standings) }
        ensures { after_of result next.new
            ≡ stepped self.now (configuration_of from.now) thread.number }
    {
        if self.is_idle(from, thread) {
            return After::Blocked;
        }
        *next = *from;
        self.step_on(next, thread)
    }
}

impl Test {
    ghost use Rattle.lot_litmus.specs.Steps.{stepped};
    ghost use Rattle.lot_litmus.specs.Outcomes.{outcome_of};

    /// Does the next step of the thread.
    pub fn step(&self, from: &Reached, thread: Thread) -> Next
        ensures outcome { outcome_of result
            ≡ stepped self.now (configuration_of from.now) thread.number }
        ensures threads { length from.now.threads ≡ 6 }
    {
        if self.is_idle(from.state(), thread) {
            return Next::Blocked;
        }
        let mut state = *from.state();
        match self.step_on(&mut state, thread) {
            After::Blocked => Next::Blocked,
            After::Goes => Next::Goes(Reached::new(state)),
            After::Fails(fault) => Next::Fails(fault),
        }
    }
}
