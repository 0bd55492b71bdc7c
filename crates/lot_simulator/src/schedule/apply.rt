//! This module does a step by the call of the lot that it names, with closures that return what the
//! step says.

ghost use Rattle.std.specs.Prelude.{◌≡◌, length};
ghost use Rattle.lot_base.specs.Waiting.{result_of, split_filter};
ghost use Rattle.lot_simulator.specs.Lot.{machine};
ghost use Rattle.lot_simulator.specs.LotState.{KeepsSize};
ghost use Rattle.lot_machine.specs.Machine.{after_unpark, threads_of};
ghost use Rattle.lot_machine.specs.Decisions.{AnswersNext};
ghost use Rattle.lot_machine.specs.Size.{IsSizeAfter};
ghost use Rattle.lot_machine.specs.Steps.{IsRegister, IsUnpark, IsTrim, IsStep};

use super::{Answer, Op, Step};
use crate::lot::{Lot, Status};
use lot_base::token::{
    FilterOp, LotError, Misfit, NoMemory, ParkToken, RequeueOp, StepError, UnparkResult,
    UnparkToken,
};

impl Lot {
    /// Does the step, with closures that return what the step says, and returns its answer.
    ///
    /// It costs what the call costs that the step names.
    pub fn apply(&mut self, step: &Step) -> Answer
        ensures step { IsStep (machine self.old) step.now result (machine self.new) }
        ensures size { IsSizeAfter step.now result (threads_of (machine self.new))
            (length self.old.buckets) (length self.new.buckets) }
    {
        match step {
            Step::Register => apply_register(self),
            Step::Retire { thread } => apply_retire(self, *thread),
            Step::Enter {
                thread,
                key,
                valid,
                park_token,
                timed,
            } => apply_enter(self, *thread, *key, *valid, *park_token, *timed),
            Step::Unpark(op) => apply_unpark(self, op),
            Step::Deadline { thread } => apply_deadline(self, *thread),
            Step::Resolve { thread } => apply_resolve(self, *thread),
            Step::Return { thread } => apply_return(self, *thread),
            Step::Acquire { thread, key } => apply_acquire(self, *thread, *key),
            Step::Release { thread, key } => apply_release(self, *thread, *key),
            Step::Trim => apply_trim(self),
        }
    }
}

fn apply_register(lot: &mut Lot) -> Answer
    ensures step { IsRegister (machine lot.old) result (machine lot.new) }
    ensures size { IsSizeAfter Step.Register result (threads_of (machine lot.new))
        (length lot.old.buckets) (length lot.new.buckets) }
{
    match lot.register() {
        Ok(number) => Answer::Registered(number),
        Err(LotError::Full) => Answer::Full,
        Err(_) => Answer::NoMemory,
    }
}

fn apply_retire(lot: &mut Lot, thread: usize) -> Answer
    ensures step { IsStep (machine lot.old) (Step.Retire thread) result (machine lot.new) }
    ensures size { KeepsSize lot.old lot.new }
{
    match lot.retire(thread) {
        Ok(()) => Answer::Retired,
        Err(Misfit) => Answer::Misfit,
    }
}

fn apply_enter(
    lot: &mut Lot,
    thread: usize,
    key: usize,
    valid: bool,
    park_token: ParkToken,
    timed: bool,
) -> Answer
    ensures step { IsStep (machine lot.old) (Step.Enter thread key valid park_token timed) result
        (machine lot.new) }
    ensures size { KeepsSize lot.old lot.new }
{
    match lot.enter(thread, key, || valid, park_token, timed) {
        Ok(true) => Answer::Entered,
        Ok(false) => Answer::Invalid,
        Err(Misfit) => Answer::Misfit,
    }
}

fn apply_deadline(lot: &mut Lot, thread: usize) -> Answer
    ensures step { IsStep (machine lot.old) (Step.Deadline thread) result (machine lot.new) }
    ensures size { KeepsSize lot.old lot.new }
{
    match lot.deadline(thread) {
        Ok(()) => Answer::Late,
        Err(Misfit) => Answer::Misfit,
    }
}

fn apply_resolve(lot: &mut Lot, thread: usize) -> Answer
    ensures step { IsStep (machine lot.old) (Step.Resolve thread) result (machine lot.new) }
    ensures size { KeepsSize lot.old lot.new }
{
    if let Status::Late = lot.status(thread) {
        let (key, last) = lot.time_out(thread, |key, last| (key, last));
        return Answer::TimedOut { key, last };
    }
    apply_return(lot, thread)
}

fn apply_return(lot: &mut Lot, thread: usize) -> Answer
    ensures step { IsStep (machine lot.old) (Step.Return thread) result (machine lot.new) }
    ensures size { KeepsSize lot.old lot.new }
{
    match lot.give_back(thread) {
        Ok(token) => Answer::Unparked(token),
        Err(Misfit) => Answer::Misfit,
    }
}

fn apply_acquire(lot: &mut Lot, thread: usize, key: usize) -> Answer
    ensures step { IsStep (machine lot.old) (Step.Acquire thread key) result (machine lot.new) }
    ensures size { KeepsSize lot.old lot.new }
{
    match lot.acquire(thread, key) {
        Ok(()) => Answer::Recorded,
        Err(StepError::NoMemory) => Answer::NoMemory,
        Err(StepError::Misfit) => Answer::Misfit,
    }
}

fn apply_release(lot: &mut Lot, thread: usize, key: usize) -> Answer
    ensures step { IsStep (machine lot.old) (Step.Release thread key) result (machine lot.new) }
    ensures size { KeepsSize lot.old lot.new }
{
    match lot.release(thread, key) {
        Ok(()) => Answer::Released,
        Err(Misfit) => Answer::Misfit,
    }
}

fn apply_trim(lot: &mut Lot) -> Answer
    ensures step { IsTrim (machine lot.old) result (machine lot.new) }
    ensures size { IsSizeAfter Step.Trim result (threads_of (machine lot.new))
        (length lot.old.buckets) (length lot.new.buckets) }
{
    match lot.trim() {
        Ok(()) => Answer::Trimmed,
        Err(NoMemory) => Answer::NoMemory,
    }
}

fn apply_unpark(lot: &mut Lot, op: &Op) -> Answer
    ensures step { IsUnpark (machine lot.old) op.now result (machine lot.new) }
    ensures size { KeepsSize lot.old lot.new }
{
    match op {
        Op::One { key, token } => Answer::Unpark(lot.unpark_one(*key, |_| *token)),
        Op::All { key, token } => Answer::Count(lot.unpark_all(*key, *token)),
        Op::Filter {
            key,
            decisions,
            token,
        } => Answer::Unpark(apply_filter(lot, *key, decisions.as_slice(), *token)),
        Op::Requeue {
            from,
            to,
            op,
            token,
        } => Answer::Unpark(apply_requeue(lot, *from, *to, *op, *token)),
    }
}

fn apply_requeue(
    lot: &mut Lot,
    from: usize,
    to: usize,
    op: RequeueOp,
    token: UnparkToken,
) -> UnparkResult
    ensures step { IsUnpark (machine lot.old) (Op.Requeue from to op token) (Answer.Unpark result)
        (machine lot.new) }
    ensures size { KeepsSize lot.old lot.new }
{
    lot.unpark_requeue(from, to, || op, |_, _| token)
}

// Unparks by a filter that answers these decisions, and `Skip` once they are used up.
fn apply_filter(
    lot: &mut Lot,
    key: usize,
    decisions: &[FilterOp],
    token: UnparkToken,
) -> UnparkResult
    ensures answer { result ≡ result_of (split_filter decisions.now ((machine lot.old).lists key)) }
    ensures taken { machine lot.new
        ≡ after_unpark (machine lot.old) key
        (split_filter decisions.now ((machine lot.old).lists key)) token }
    ensures size { KeepsSize lot.old lot.new }
{
    let mut rest = decisions;
    let filter = move |_: ParkToken| -> FilterOp
        ensures { AnswersNext rest.entry.now result rest.exit.now }
    {
        match rest.split_first() {
            Some((decision, behind)) => {
                rest = behind;
                *decision
            }
            None => FilterOp::Skip,
        }
    };
    lot.unpark_filter(key, filter, |_| token)
}
