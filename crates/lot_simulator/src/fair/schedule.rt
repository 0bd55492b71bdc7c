//! This module has steps of a fair mutex as values, and does lists of them.

ghost use Rattle.std.specs.Prelude.{◌≡◌, ◌+◌, ◌<◌, ◌++◌, List, length, vec_len, vec_capacity, OnOk, OnErr};
ghost use Rattle.lot_machine.specs.Run.{IsRun};
ghost use Rattle.lot_simulator.specs.declared.fair.schedule.FairAnswer.{FairAnswer};
ghost use Rattle.lot_simulator.specs.FairMachine.{IsFairConsistent};
ghost use Rattle.lot_simulator.specs.FairSteps.{IsFairStep};
ghost use Rattle.lot_simulator.specs.FairCore.{fair_state};

use super::fair_core::FairCore;
use lot_base::token::{NoMemory, UnparkResult};

/// A `FairStep` is a step of one thread, or a notify, which anybody may do.
#[derive(Copy, Clone, Eq, PartialEq, Debug)]
pub enum FairStep {
    /// A thread registers under the least free number, and is idle.
    Register,

    /// An idle thread gives its number back.
    Retire {
        /// The number of the thread.
        thread: usize,
    },

    /// An idle thread locks the mutex if nobody holds it, and otherwise queues for it.
    Lock {
        /// The number of the thread.
        thread: usize,
    },

    /// A thread that holds the mutex hands it to the first waiter, or frees it if nobody waits.
    Unlock {
        /// The number of the thread.
        thread: usize,
    },

    /// A thread that was handed the mutex goes on, and holds it.
    Return {
        /// The number of the thread.
        thread: usize,
    },

    /// A thread that holds the mutex goes to the end of the list of the condition variable, and
    /// still holds the mutex.
    Wait {
        /// The number of the thread.
        thread: usize,
    },

    /// A thread that has gone to the condition variable releases the mutex, as `Unlock` does.
    Leave {
        /// The number of the thread.
        thread: usize,
    },

    /// The first thread on the condition variable is handed the mutex if nobody holds it, and
    /// otherwise queues for it.
    NotifyOne,

    /// All threads on the condition variable queue for the mutex, in order. If nobody holds it, the
    /// first is handed it.
    NotifyAll,
}

/// A `FairAnswer` is what a step tells its caller.
#[derive(Copy, Clone, Eq, PartialEq, Debug)]
pub enum FairAnswer {
    /// A thread was registered under this number.
    Registered(usize),

    /// The greatest number of threads is already registered.
    Full,

    /// There was not enough memory for a registration.
    NoMemory,

    /// The number of the thread is free.
    Retired,

    /// The thread holds the mutex.
    Locked,

    /// The thread is the last of those that wait for the mutex.
    Queued,

    /// The thread has released the mutex.
    Unlocked {
        /// Says whether the mutex was handed to a waiter, which may be the same thread.
        handed: bool,
    },

    /// The thread is the last on the condition variable, and still has to leave the mutex.
    Waiting,

    /// This is what a notify did: how many threads were handed the mutex, how many were moved
    /// behind those that wait for it, and whether any still sleep.
    Notified(UnparkResult),

    /// The step is not allowed while its thread has the status that it has. Nothing was changed.
    Misfit,
}

/// Does the steps one after another, and appends one answer for each.
///
/// The answers are those of a run of the machine of a fair mutex, from the state of the core before
/// to its state after. In every state at most one thread holds the mutex, and nobody waits for it
/// while nobody holds it. A step that is not allowed is answered `Misfit`, and a registration for
/// which there is not enough memory is answered `NoMemory`. Neither changes anything.
///
/// It first allocates room for all answers, and then costs what the steps cost.
///
/// # Errors
///
/// Returns `NoMemory` if there is not enough memory for the answers, and never if `answers` already
/// has room for them. The core and the answers are then as before, and `answers` may have more
/// room.
pub fn run_fair(
    core: &mut FairCore,
    steps: &[FairStep],
    answers: &mut Vec<FairAnswer>,
) -> Result<(), NoMemory>
    ensures ran { OnOk result (record {
      given : List FairAnswer;
      appended : answers.new.items ≡ answers.old.items ++ given;
      run : IsRun IsFairStep (fair_state core.old) steps.now given (fair_state core.new);
      consistent : IsFairConsistent (fair_state core.new);
    }) }
    ensures refused { OnErr result
        (vec_capacity answers.old < vec_len answers.old + length steps.now) }
    ensures err { OnErr result ((core.new ≡ core.old) × (answers.new.items ≡ answers.old.items)) }
{
    answers.reserve(steps.len())?;
    for step in steps {
        answers.push(core.apply(step))?;
    }
    core.consistency();
    Ok(())
}
