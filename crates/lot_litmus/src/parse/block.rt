//! Blocks: what is open, and what comes when it is closed.

use super::draft::Label;
use super::fault::Wrong;
use super::names::{Meaning, Scope};
use super::park::Park;
use super::parser::Parser;
use super::requeue::Requeue;
use super::wake::{Filter, Waking};
use crate::code::{Instruction, Key, Local, Operand};

/// A block that is open, and the statement that it belongs to.
#[derive(Clone, Copy)]
pub(super) struct Open {
    pub(super) block: Block,
    pub(super) statement: usize,
}

/// What a block is.
#[derive(Clone, Copy)]
pub(super) enum Block {
    Thread { end: Label },
    Macro(Expansion),
    If { otherwise: Label, end: Label },
    Else { end: Label },
    Loop(Loop),

    /// These are run by the lot, and are left at their ends alone.
    Validate(Park, Local),
    BeforeSleep(Park),
    TimedOut(Park),
    Filter(Filter),
    Moves(Requeue),
    Callback(Waking, Local),
}

/// A macro that is expanded.
#[derive(Clone, Copy)]
pub(super) struct Expansion {
    /// The first token of its text.
    pub(super) body: usize,
    pub(super) end: Label,

    /// The token behind the call.
    pub(super) back: usize,

    /// What was known there.
    pub(super) outer: Scope,
}

/// A loop.
#[derive(Clone, Copy)]
pub(super) struct Loop {
    /// Where it begins.
    pub(super) again: Label,
    pub(super) place: usize,

    /// The end of its body, and what is behind it.
    pub(super) next: Label,
    pub(super) end: Label,
}

impl Block {
    /// The keys whose buckets are known to be locked in it, if buckets are locked.
    pub(super) fn section(&self) -> Option<[Option<Key>; 2]> {
        match *self {
            Block::Validate(park, _) => Some([Some(park.key), None]),
            Block::TimedOut(_) => Some([None, None]),
            Block::Filter(filter) => Some([Some(filter.key), None]),
            Block::Moves(requeue) => Some([Some(requeue.key), Some(requeue.other)]),
            Block::Callback(waking, _) => Some(waking.keys()),
            _ => None,
        }
    }

    /// Whether the lot runs it.
    pub(super) fn is_run_by_lot(&self) -> bool {
        matches!(self, Block::BeforeSleep(_)) || self.section().is_some()
    }
}

impl<'t> Parser<'t> {
    /// Opens a block, whose brace was read behind the head of its statement.
    pub(super) fn open(&mut self, block: Block) {
        self.end_statement();
        self.push_block(block);
    }

    /// Closes the last block, whose brace was read.
    pub(super) fn close(&mut self) -> Result<(), Wrong> {
        let Some(open) = self.blocks.pop() else {
            return Ok(());
        };
        self.draft.statement = open.statement;
        match open.block {
            Block::Thread { end } | Block::Else { end } => self.draft.place(end),
            Block::Macro(expansion) => self.close_macro(expansion),
            Block::If { otherwise, end } => return self.close_if(otherwise, end),
            Block::Loop(rounds) => self.close_loop(rounds),
            Block::Validate(park, valid) => return self.close_validate(park, valid),
            Block::BeforeSleep(park) => return self.sleep(park),
            Block::TimedOut(park) => self.give_up(park),
            Block::Filter(filter) => return self.close_filter(filter),
            Block::Moves(requeue) => return self.token_or_callback(Waking::Requeue(requeue)),
            Block::Callback(waking, token) => self.close_callback(waking, token),
        }
        Ok(())
    }

    fn close_if(&mut self, otherwise: Label, end: Label) -> Result<(), Wrong> {
        if !self.cursor.is("else") {
            self.draft.place(otherwise);
            self.draft.place(end);
            return Ok(());
        }
        self.draft.jump(end);
        self.draft.place(otherwise);
        self.begin_statement();
        self.cursor.next();
        if self.cursor.take("if") {
            return self.open_if(end);
        }
        self.cursor.open_brace()?;
        self.open(Block::Else { end });
        Ok(())
    }

    /// What stands behind the word `if`.
    pub(super) fn open_if(&mut self, end: Label) -> Result<(), Wrong> {
        let otherwise = self.draft.label();
        let condition = self.expression()?;
        self.draft.jump_unless(condition, otherwise);
        self.cursor.open_brace()?;
        self.open(Block::If { otherwise, end });
        Ok(())
    }

    fn close_loop(&mut self, rounds: Loop) {
        self.draft.place(rounds.next);
        if !self.draft.has_step_from(rounds.place) {
            self.draft.emit(Instruction::Pass);
        }
        self.draft.jump(rounds.again);
        self.draft.place(rounds.end);
    }

    // A local that a macro declared is 0 when the macro is called again.
    fn close_macro(&mut self, expansion: Expansion) {
        self.draft.place(expansion.end);
        for index in self.names.scope.own..self.names.bindings.len() {
            if let Some(Meaning::Local(local)) = self.names.meaning_at(index) {
                self.draft.set(local, Operand::Constant(0));
                self.draft.locals.release(local);
            }
        }
        let first = self.names.scope.first;
        self.names.bindings.truncate(first);
        self.names.scope = expansion.outer;
        self.cursor.at = expansion.back;
    }
}
