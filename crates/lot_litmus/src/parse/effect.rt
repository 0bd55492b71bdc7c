//! Where control and numbers go at an instruction.

use super::locals::LocalSet;
use crate::code::{Instruction, Local, Operand, Operation, Validation};

/// How an instruction goes on.
#[derive(Clone, Copy, PartialEq, Eq)]
pub(super) enum Effect {
    /// At its target alone.
    Jumps,

    /// At the next one, and what it sets is 0. It can be left out where nobody reads that.
    Clears,

    /// At the next one. It can be left out where nobody reads what it sets.
    Sets,

    /// At the next one, or at its target.
    Acts,
}

impl Instruction {
    /// Whether other threads can come between it and the instruction before it.
    pub(super) fn is_step(&self) -> bool {
        !matches!(
            self,
            Instruction::Compute { .. }
                | Instruction::Jump { .. }
                | Instruction::JumpUnless { .. }
                | Instruction::Assert { .. }
                | Instruction::Enter { .. }
                | Instruction::Count { .. }
                | Instruction::Look { .. }
        )
    }

    pub(super) fn effect(&self) -> Effect {
        match self {
            Instruction::Jump { .. } => Effect::Jumps,
            Instruction::Compute {
                operation: Operation::Second,
                second: Operand::Constant(0),
                ..
            } => Effect::Clears,
            Instruction::Compute {
                operation: Operation::Add | Operation::Subtract,
                ..
            } => Effect::Acts,
            Instruction::Compute { .. } | Instruction::Count { .. } => Effect::Sets,
            _ => Effect::Acts,
        }
    }

    /// The local that it sets, if it goes on at the next instruction.
    pub(super) fn sets_ahead(&self) -> Option<Local> {
        match *self {
            Instruction::Compute { to, .. }
            | Instruction::Count { to, .. }
            | Instruction::Look { to, .. }
            | Instruction::Read { to, .. }
            | Instruction::Update { to, .. }
            | Instruction::CompareExchange { to, .. }
            | Instruction::Sleep { to, .. } => Some(to),
            _ => None,
        }
    }

    /// Sets another local in the place of one that nobody reads yet.
    pub(super) fn set_instead(&mut self, local: Local) {
        match self {
            Instruction::Compute { to, .. }
            | Instruction::Count { to, .. }
            | Instruction::Read { to, .. }
            | Instruction::Update { to, .. }
            | Instruction::CompareExchange { to, .. } => *to = local,
            _ => {}
        }
    }

    /// The local that it sets, if it goes on at its target.
    pub(super) fn sets_at_target(&self) -> Option<Local> {
        match *self {
            Instruction::Sleep { last, .. } => Some(last),
            _ => None,
        }
    }

    /// The local that is 0, if it goes on at its target.
    pub(super) fn zero_at_target(&self) -> Option<Local> {
        match *self {
            Instruction::JumpUnless { operand, .. } => operand.local(),
            _ => None,
        }
    }

    /// Gives it a target, if it can have one.
    pub(super) fn go_to(&mut self, place: u16) {
        match self {
            Instruction::Jump { target }
            | Instruction::JumpUnless { target, .. }
            | Instruction::Look { target, .. }
            | Instruction::Park { target, .. }
            | Instruction::Sleep { target, .. } => *target = place,
            _ => {}
        }
    }

    /// The locals that it reads.
    pub(super) fn reads(&self) -> LocalSet {
        let [first, second] = self.operands();
        LocalSet::of(first.local()).joined(LocalSet::of(second.local()))
    }

    // The numbers that it is given.
    fn operands(&self) -> [Operand; 2] {
        const NOTHING: Operand = Operand::Constant(0);
        match *self {
            Instruction::Compute { first, second, .. } => [first, second],
            Instruction::CompareExchange { expected, new, .. } => [expected, new],
            Instruction::UnparkFilter { chosen, token, .. } => [chosen, token],
            Instruction::Park {
                validation,
                token,
                ..
            } => [validation.operand(), token],
            Instruction::JumpUnless { operand, .. }
            | Instruction::Assert { operand }
            | Instruction::Write { operand, .. }
            | Instruction::Update { operand, .. }
            | Instruction::Await { operand, .. }
            | Instruction::Look { index: operand, .. }
            | Instruction::UnparkOne { token: operand, .. }
            | Instruction::UnparkAll { token: operand, .. }
            | Instruction::Requeue { token: operand, .. } => [operand, NOTHING],
            _ => [NOTHING, NOTHING],
        }
    }
}

impl Operand {
    pub(super) fn local(self) -> Option<Local> {
        match self {
            Operand::Local(local) => Some(local),
            Operand::Constant(_) => None,
        }
    }
}

impl Validation {
    /// The number that it is given.
    pub(super) fn operand(self) -> Operand {
        match self {
            Validation::Given(operand) | Validation::Seen { operand, .. } => operand,
        }
    }
}
