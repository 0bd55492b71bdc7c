//! Statements that unpark, and their callbacks.

use super::block::Block;
use super::draft::Label;
use super::fault::{Rule, Wrong};
use super::parser::Parser;
use super::requeue::Requeue;
use crate::code::{Instruction, Key, Local, Operand, Operation};

/// A filter, and the locals that it needs.
#[derive(Clone, Copy)]
pub(super) struct Filter {
    pub(super) key: Key,
    index: Local,
    bit: Local,
    chosen: Local,
    unparked: Option<Local>,

    // Where the next waiter is looked at, where one has been looked at, and behind all of them.
    look: Label,
    next: Label,
    end: Label,
}

/// What a callback belongs to.
#[derive(Clone, Copy)]
pub(super) enum Waking {
    One(Key),
    Filter(Filter),
    Requeue(Requeue),
}

impl Waking {
    /// The keys whose buckets are locked.
    pub(super) fn keys(&self) -> [Option<Key>; 2] {
        match *self {
            Waking::One(key) => [Some(key), None],
            Waking::Filter(filter) => [Some(filter.key), None],
            Waking::Requeue(requeue) => [Some(requeue.key), Some(requeue.other)],
        }
    }
}

impl<'t> Parser<'t> {
    /// `unpark_one` or `unpark_all`.
    pub(super) fn unpark(&mut self, word: &str) -> Result<(), Wrong> {
        let key = self.begin_section()?;
        if word == "unpark_one" && self.cursor.take("{") {
            self.draft.lock(key, key);
            self.open_callback(Waking::One(key));
            return Ok(());
        }
        let token = self.token()?;
        self.draft.release(token);
        self.emit_last(if word == "unpark_one" {
            Instruction::UnparkOne { key, token }
        } else {
            Instruction::UnparkAll { key, token }
        });
        Ok(())
    }

    /// What stands behind the block of a filter or the way of a requeue.
    pub(super) fn token_or_callback(&mut self, waking: Waking) -> Result<(), Wrong> {
        if self.cursor.opens("callback")? {
            self.open_callback(waking);
            return Ok(());
        }
        let token = self.token()?;
        self.end_statement();
        self.wake(waking, token);
        self.draft.release(token);
        Ok(())
    }

    fn open_callback(&mut self, waking: Waking) {
        match waking {
            Waking::One(key) => self.tell_one(key),
            Waking::Filter(filter) => self.tell_filter(filter),
            Waking::Requeue(requeue) => self.tell_requeue(requeue),
        }
        let token = self.declare_as("token", 0);
        self.open(Block::Callback(waking, token));
    }

    fn tell_one(&mut self, key: Key) {
        if let Some(local) = self.declare_if_named("unparked_threads") {
            let unparked = self.draft.more_than(Operand::Constant(0), key);
            self.draft.set(local, unparked);
        }
        if let Some(local) = self.declare_if_named("have_more") {
            let more = self.draft.more_than(Operand::Constant(1), key);
            self.draft.set(local, more);
        }
    }

    pub(super) fn close_callback(&mut self, waking: Waking, token: Local) {
        self.wake(waking, Operand::Local(token));
        for name in ["token", "unparked_threads", "requeued_threads", "have_more"] {
            self.forget(name);
        }
    }

    // Unparks, with this token.
    fn wake(&mut self, waking: Waking, token: Operand) {
        match waking {
            Waking::One(key) => self.draft.emit(Instruction::UnparkOne { key, token }),
            Waking::Filter(filter) => self.end_filter(filter, token),
            Waking::Requeue(requeue) => self.end_requeue(requeue, token),
        }
    }
}

impl<'t> Parser<'t> {
    pub(super) fn filter(&mut self) -> Result<(), Wrong> {
        let key = self.begin_section()?;
        self.cursor.open_brace()?;
        self.draft.lock(key, key);
        let filter = self.begin_filter(key);
        let waiter = self.declare("waiter");
        self.draft.place(filter.look);
        let look = Instruction::Look {
            to: waiter,
            key,
            index: Operand::Local(filter.index),
            target: 0,
        };
        self.draft.emit_to(Some(filter.end), look);
        self.open(Block::Filter(filter));
        Ok(())
    }

    fn begin_filter(&mut self, key: Key) -> Filter {
        let unparked = if self.names("unparked_threads") || self.names("have_more") {
            Some(self.declare_as("unparked_threads", 0))
        } else {
            None
        };
        Filter {
            key,
            index: self.draft.counter(0),
            bit: self.draft.counter(1),
            chosen: self.draft.counter(0),
            unparked,
            look: self.draft.label(),
            next: self.draft.label(),
            end: self.draft.label(),
        }
    }

    /// `unpark`, `skip` or `stop`, in a filter with nothing between that is left at its end alone.
    pub(super) fn decide(&mut self, word: &str) -> Result<(), Wrong> {
        for open in self.blocks.iter().rev() {
            match open.block {
                Block::Filter(filter) => {
                    self.decide_in(filter, word);
                    return Ok(());
                }
                Block::If { .. } | Block::Else { .. } | Block::Loop(_) => {}
                _ => break,
            }
        }
        Err(self.cursor.misplaced(Rule::OutsideFilter))
    }

    fn decide_in(&mut self, filter: Filter, word: &str) {
        self.end_statement();
        if word == "stop" {
            return self.draft.jump(filter.end);
        }
        if word == "unpark" {
            let bit = Operand::Local(filter.bit);
            self.draft.change(filter.chosen, Operation::Or, bit);
            if let Some(unparked) = filter.unparked {
                self.draft
                    .change(unparked, Operation::Add, Operand::Constant(1));
            }
        }
        self.draft.jump(filter.next);
    }

    pub(super) fn close_filter(&mut self, filter: Filter) -> Result<(), Wrong> {
        let (bit, index) = (Operand::Local(filter.bit), Operand::Local(filter.index));
        self.draft.place(filter.next);
        self.draft.change(filter.bit, Operation::Add, bit);
        self.draft
            .change(filter.index, Operation::Add, Operand::Constant(1));
        self.draft.jump(filter.look);
        self.draft.place(filter.end);
        self.draft.release(bit);
        self.draft.release(index);
        self.forget("waiter");
        self.token_or_callback(Waking::Filter(filter))
    }

    fn tell_filter(&mut self, filter: Filter) {
        if let Some(unparked) = filter.unparked
            && let Some(local) = self.declare_if_named("have_more")
        {
            let more = self.draft.more_than(Operand::Local(unparked), filter.key);
            self.draft.set(local, more);
        }
    }

    fn end_filter(&mut self, filter: Filter, token: Operand) {
        let chosen = Operand::Local(filter.chosen);
        self.draft.emit(Instruction::UnparkFilter {
            key: filter.key,
            chosen,
            token,
        });
        self.draft.release(chosen);
        self.forget("unparked_threads");
    }
}
