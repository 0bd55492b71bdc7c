//! What local instructions do, which no other thread can come between.

ghost use Rattle.std.specs.Prelude.{◌≡◌, ◌<◌, slice_set, Some};
ghost use Rattle.lot_litmus.specs.Steps.{advanced, with_local, with_progress, at_target, lets_in, all_pass, local_step};
ghost use Rattle.lot_litmus.specs.View.{configuration_of};
ghost use Rattle.lot_litmus.specs.Performing.{locally_of};
ghost use Rattle.lot_litmus.specs.declared.local.Locally.TheVariants.{Rests, Advances};

use crate::code::{Access, Instruction, Local, Thread};
use crate::state::{Progress, State};
use crate::test::Fault;

/// What a local instruction does.
#[derive(Clone, Copy)]
pub(crate) enum Locally {
    /// Nothing: it is a step.
    Rests,

    /// It lets the thread go on.
    Advances,

    /// It shows a fault.
    Errs(Fault),
}

impl Progress {
    // Goes on behind the instruction, with the number in the local.
    fn advance_with(&mut self, to: Local, number: u8) -> Locally
        requires { self.old.at < 65535 }
        ensures next { self.new ≡ advanced (with_local self.old to number) }
        ensures goes { result ≡ Advances }
    {
        self.locals[to.index()] = number;
        self.at += 1;
        Locally::Advances
    }

    // Goes on at the target.
    fn jump(&mut self, target: u16) -> Locally
        ensures next { self.new ≡ at_target self.old target }
        ensures goes { result ≡ Advances }
    {
        self.at = target;
        Locally::Advances
    }

    // Goes on behind the instruction.
    fn advance(&mut self) -> Locally
        requires { self.old.at < 65535 }
        ensures next { self.new ≡ advanced self.old }
        ensures goes { result ≡ Advances }
    {
        self.at += 1;
        Locally::Advances
    }

    // Goes on in the critical section.
    fn enter(&mut self, access: Access) -> Locally
        requires { self.old.at < 65535 }
        ensures next { self.new ≡ advanced (record self.old { inside = Some access }) }
        ensures goes { result ≡ Advances }
    {
        self.inside = Some(access);
        self.advance()
    }
}

impl Access {
    // Whether one who is there lets another in.
    fn lets_in(self, other: Option<Access>) -> bool
        ensures { result ≡ lets_in self other }
    {
        match (self, other) {
            (_, None) => true,
            (Access::Shared, Some(Access::Shared)) => true,
            _ => false,
        }
    }
}

impl State {
    // Whether all let the thread in, which has come so far.
    fn lets_in(&self, thread: Thread, progress: Progress, access: Access) -> bool
        ensures { result ≡ all_pass (λ other. lets_in access other.inside)
            (slice_set self.now.threads thread.number progress) }
    {
        let mut others = self.threads;
        others[thread.index()] = progress;
        for other in others {
            if !access.lets_in(other.inside) {
                return false;
            }
        }
        true
    }

    // Does the instruction, if it is a local one, with the thread that has come so far.
    #[inline(always)]
    pub(crate) fn do_locally(
        &self,
        thread: Thread,
        progress: &mut Progress,
        instruction: Instruction,
    ) -> Locally
        requires { progress.old.at < 65535 }
        ensures does { locally_of result progress.new ≡ local_step
            (with_progress (configuration_of self.now) thread.number progress.old) progress.old
            (Some instruction) }
        ensures rests { result ≡ Rests → progress.new ≡ progress.old }
    {
        match instruction {
            Instruction::Compute {
                to,
                operation,
                first,
                second,
            } => match operation.make(progress.value(first), progress.value(second)) {
                Some(number) => progress.advance_with(to, number),
                None => Locally::Errs(Fault::Overflow),
            },
            Instruction::Jump { target } => progress.jump(target),
            Instruction::JumpUnless { operand, target } => {
                if progress.value(operand) == 0 {
                    progress.jump(target)
                } else {
                    progress.advance()
                }
            }
            Instruction::Assert { operand } => {
                if progress.value(operand) == 0 {
                    Locally::Errs(Fault::Assertion)
                } else {
                    progress.advance()
                }
            }
            Instruction::Enter { access } => {
                if self.lets_in(thread, *progress, access) {
                    progress.enter(access)
                } else {
                    Locally::Errs(Fault::Exclusion)
                }
            }
            Instruction::Count { to, key } => {
                progress.advance_with(to, self.queues[key.index()].len())
            }
            Instruction::Look {
                to,
                key,
                index,
                target,
            } => match self.queues[key.index()].get(progress.value(index) as usize) {
                Some(entry) => progress.advance_with(to, entry.token),
                None => progress.jump(target),
            },
            _ => Locally::Rests,
        }
    }
}
