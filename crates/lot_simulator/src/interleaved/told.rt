//! This module finds the sequential steps to which an interleaved run amounts.

ghost use Rattle.std.specs.Prelude.{◌≡◌, ◌+◌, ◌<◌, ◌≤◌, ◌++◌, ◌==◌, IfOk, OnErr, length, vec_capacity, vec_len};
ghost use Rattle.std.specs.List.{list_any};
ghost use Rattle.std.specs.Option.{option_to_list};
ghost use Rattle.lot_simulator.specs.Copies.{AreCopies, IsCopyOfOp};
ghost use Rattle.lot_simulator.specs.FineLot.{fine_state};
ghost use Rattle.lot_simulator.specs.InterleavedState.{FineState};
ghost use Rattle.lot_simulator.specs.InterleavedView.{sequential_step, steps_of, taken_in};
ghost use Rattle.lot_simulator.specs.Private.FineCopies.{AreCopiesIn, IsCopyIn};

use super::{FineAnswer, FineLot, FineStep};
use crate::schedule::{Answer, Op, Step};
use lot_base::token::NoMemory;
use std::alloc::Global;
use std::collections::VecDeque;

// For each step a copy of its operation, if it begins a section.
pub(super) fn copied_ops(
    alloc: Global,
    steps: &[FineStep],
) -> Result<VecDeque<Option<Op>>, NoMemory>
    ensures copies { IfOk result (λ copies. AreCopiesIn steps.now copies.items) }
    ensures refused { OnErr result (0 < length steps.now) }
{
    let mut copies = VecDeque::with_capacity(alloc, steps.len())?;
    for step in steps {
        copies.push_back(copied_op(step)?)?;
    }
    Ok(copies)
}

fn copied_op(step: &FineStep) -> Result<Option<Op>, NoMemory>
    ensures { IfOk result (λ copy. IsCopyIn step.now copy) }
{
    match step {
        FineStep::Begin { op, .. } => Ok(Some(copy_of(op)?)),
        _ => Ok(None),
    }
}

fn copy_of(op: &Op) -> Result<Op, NoMemory>
    ensures { IfOk result (λ copy. IsCopyOfOp op.now copy) }
{
    match op {
        Op::One { key, token } => Ok(Op::One {
            key: *key,
            token: *token,
        }),
        Op::All { key, token } => Ok(Op::All {
            key: *key,
            token: *token,
        }),
        Op::Filter {
            key,
            decisions,
            token,
        } => Ok(Op::Filter {
            key: *key,
            decisions: decisions.clone()?,
            token: *token,
        }),
        Op::Requeue {
            from,
            to,
            op,
            token,
        } => Ok(Op::Requeue {
            from: *from,
            to: *to,
            op: *op,
            token: *token,
        }),
    }
}

// Appends the step, if there is one, to steps that have room for it.
pub(super) fn push_if_any(steps: &mut Vec<Step>, step: Option<Step>)
    requires { vec_len steps.old < vec_capacity steps.old }
    ensures items { steps.new.items ≡ steps.old.items ++ option_to_list step }
    ensures len { vec_len steps.new ≤ vec_len steps.old + 1 }
    ensures capacity { vec_capacity steps.new ≡ vec_capacity steps.old }
{
    if let Some(step) = step {
        steps.push_reserved(step);
    }
}

impl FineLot {
    // The sequential step to which a step amounts that was answered so and left the lot as it is.
    // `op` is the copy of its operation.
    pub(super) fn sequential_step(
        &self,
        step: &FineStep,
        op: Option<Op>,
        given: FineAnswer,
    ) -> Option<Step>
        requires { IsCopyIn step.now op }
        ensures { AreCopies (steps_of (sequential_step (fine_state self.now) step.now given))
            (option_to_list result) }
    {
        match given {
            FineAnswer::Answer(answer) => answered_step(step, op, answer),
            FineAnswer::Late => self.passed_deadline(step),
            FineAnswer::Committed(_)
            | FineAnswer::Ended
            | FineAnswer::Woken
            | FineAnswer::Read(_)
            | FineAnswer::Retry
            | FineAnswer::Blocked => None,
        }
    }

    // Only the deadline of a thread that no open section has is one.
    fn passed_deadline(&self, step: &FineStep) -> Option<Step>
        ensures { AreCopies
            (steps_of (sequential_step (fine_state self.now) step.now FineAnswer.Late))
            (option_to_list result) }
    {
        match step {
            FineStep::Deadline { thread } if !self.is_with_caller(*thread) => {
                Some(Step::Deadline { thread: *thread })
            }
            _ => None,
        }
    }

    // Whether an open section has the thread.
    fn is_with_caller(&self, thread: usize) -> bool
        ensures { result ≡ list_any
            (λ caller. list_any (λ taken. taken.number == thread) (taken_in caller.section))
            (fine_state self.now).callers }
    {
        self.callers.iter().any(|caller| caller.has_taken(thread))
    }
}

// The sequential step to which a step amounts that has an answer of the machine, in any state.
fn answered_step(step: &FineStep, op: Option<Op>, given: Answer) -> Option<Step>
    requires { IsCopyIn step.now op }
    ensures { (s : FineState) → AreCopies
        (steps_of (sequential_step s step.now (FineAnswer.Answer given)))
        (option_to_list result) }
{
    if let Answer::Misfit = given {
        return None;
    }
    match step {
        FineStep::Begin { .. } => Some(Step::Unpark(op?)),
        FineStep::Look { thread } => match given {
            Answer::TimedOut { .. } => Some(Step::Resolve { thread: *thread }),
            _ => Some(Step::Return { thread: *thread }),
        },
        FineStep::Enter {
            thread,
            key,
            valid,
            park_token,
            timed,
        } => Some(Step::Enter {
            thread: *thread,
            key: *key,
            valid: *valid,
            park_token: *park_token,
            timed: *timed,
        }),
        FineStep::Return { thread } => Some(Step::Return { thread: *thread }),
        FineStep::Register => Some(Step::Register),
        FineStep::Retire { thread } => Some(Step::Retire { thread: *thread }),
        FineStep::Acquire { thread, key } => Some(Step::Acquire {
            thread: *thread,
            key: *key,
        }),
        FineStep::Release { thread, key } => Some(Step::Release {
            thread: *thread,
            key: *key,
        }),
        FineStep::Trim => Some(Step::Trim),
        FineStep::End { .. }
        | FineStep::Wake { .. }
        | FineStep::Deadline { .. }
        | FineStep::ReadKey { .. }
        | FineStep::Commit { .. } => None,
    }
}
