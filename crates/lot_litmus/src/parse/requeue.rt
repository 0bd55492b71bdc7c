//! Requeues, and what their callbacks are told.

use super::block::Block;
use super::draft::{Draft, Label};
use super::fault::{Syntax, Wrong, expected};
use super::names::moves_number;
use super::parser::Parser;
use super::wake::Waking;
use crate::code::{Instruction, Key, Local, Moves, Operand, Operation};

/// A requeue.
#[derive(Clone, Copy)]
pub(super) struct Requeue {
    pub(super) key: Key,
    pub(super) other: Key,

    // The number of the way.
    moves: Operand,

    // Where nobody is unparked or moved, and behind all that.
    nobody: Label,
    end: Label,
}

impl<'t> Parser<'t> {
    pub(super) fn requeue(&mut self) -> Result<(), Wrong> {
        let key = self.begin_section()?;
        let other = self.key()?;
        let mut requeue = Requeue {
            key,
            other,
            moves: Operand::Constant(0),
            nobody: self.draft.label(),
            end: self.draft.label(),
        };
        if self.cursor.opens("validate")? {
            self.draft.lock(key, other);
            requeue.moves = Operand::Local(self.declare_as("moves", 0));
            self.open(Block::Moves(requeue));
            return Ok(());
        }
        let Some(number) = moves_number(self.cursor.peek().text) else {
            return Err(expected(Syntax::Requeue));
        };
        self.cursor.next();
        requeue.moves = Operand::Constant(number);
        if self.cursor.is("callback") {
            self.draft.lock(key, other);
        }
        self.token_or_callback(Waking::Requeue(requeue))
    }

    // Where nobody is unparked or moved, no callback is run.
    pub(super) fn tell_requeue(&mut self, requeue: Requeue) {
        self.draft.jump_unless(requeue.moves, requeue.nobody);
        if let Some(local) = self.declare_if_named("unparked_threads") {
            let unparked = self.draft.unparked_by(requeue);
            self.draft.set(local, unparked);
        }
        if let Some(local) = self.declare_if_named("requeued_threads") {
            self.draft.set_requeued(requeue, local);
        }
        if let Some(local) = self.declare_if_named("have_more") {
            let left = self.draft.left_by(requeue);
            self.draft.set(local, left);
        }
    }

    pub(super) fn end_requeue(&mut self, requeue: Requeue, token: Operand) {
        match requeue.moves {
            Operand::Constant(number) => {
                self.draft.requeue_by(requeue, moves_of(number), token);
            }
            Operand::Local(_) => self.draft.choose_moves(requeue, token),
        }
        self.draft.place(requeue.nobody);
        self.draft
            .requeue_by(requeue, Moves::Nobody, Operand::Constant(0));
        self.draft.place(requeue.end);
        self.forget("moves");
    }
}

impl Draft<'_> {
    // How many a requeue unparks.
    fn unparked_by(&mut self, requeue: Requeue) -> Operand {
        let some = self.more_than(Operand::Constant(0), requeue.key);
        let wakes = self.compute(Operation::And, requeue.moves, Operand::Constant(1));
        self.compute(Operation::And, some, wakes)
    }

    // Whether it leaves somebody where it was.
    fn left_by(&mut self, requeue: Requeue) -> Operand {
        let more = self.more_than(Operand::Constant(1), requeue.key);
        let leaves = self.compute(Operation::Below, requeue.moves, Operand::Constant(4));
        self.compute(Operation::And, more, leaves)
    }

    // How many it moves: all that it does not unpark, or at most one.
    fn set_requeued(&mut self, requeue: Requeue, to: Local) {
        let done = self.label();
        let some = self.more_than(Operand::Constant(0), requeue.key);
        let one = self.compute(Operation::And, requeue.moves, Operand::Constant(2));
        let moves_one = self.compute(Operation::Below, Operand::Constant(0), one);
        let moved = self.compute(Operation::And, some, moves_one);
        self.set(to, moved);
        let all = self.compute(Operation::And, requeue.moves, Operand::Constant(4));
        self.jump_unless(all, done);
        let unparked = self.unparked_by(requeue);
        let waiting = self.waiting(requeue.key);
        let rest = self.compute(Operation::Subtract, waiting, unparked);
        self.set(to, rest);
        self.place(done);
    }

    fn requeue_by(&mut self, requeue: Requeue, moves: Moves, token: Operand) {
        self.emit(Instruction::Requeue {
            key: requeue.key,
            other: requeue.other,
            moves,
            token,
        });
        self.jump(requeue.end);
    }

    fn choose_moves(&mut self, requeue: Requeue, token: Operand) {
        for number in [1, 2, 4, 5] {
            let others = self.label();
            let this = self.compute(Operation::Equal, requeue.moves, Operand::Constant(number));
            self.jump_unless(this, others);
            self.requeue_by(requeue, moves_of(number), token);
            self.place(others);
        }
    }
}

// The way to requeue that has this number.
fn moves_of(number: u8) -> Moves {
    match number {
        0 => Moves::Nobody,
        1 => Moves::OneUnparked,
        2 => Moves::OneMoved,
        4 => Moves::AllMoved,
        _ => Moves::OneUnparkedRestMoved,
    }
}
