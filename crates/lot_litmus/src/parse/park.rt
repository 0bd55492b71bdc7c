//! Parks.

use super::block::Block;
use super::draft::Label;
use super::expression::Operator;
use super::fault::{Rule, Wrong};
use super::names::Meaning;
use super::parser::Parser;
use crate::code::{Instruction, Key, Local, Operand, Timing, Validation};

/// A park.
#[derive(Clone, Copy)]
pub(super) struct Park {
    pub(super) key: Key,
    timing: Timing,

    // Where it goes on after its deadline, where it is not valid, and behind all that.
    late: Label,
    invalid: Label,
    end: Label,

    // The local that says whether nobody else waits, after the deadline.
    last: Local,
}

impl<'t> Parser<'t> {
    /// The key of a statement that parks or unparks. Within a section no other can begin.
    pub(super) fn begin_section(&mut self) -> Result<Key, Wrong> {
        if self.section().is_some() {
            return Err(self.cursor.misplaced(Rule::BucketLocked));
        }
        self.key()
    }

    // The token that a statement hands over: 0, if it says none.
    pub(super) fn token(&mut self) -> Result<Operand, Wrong> {
        if !self.cursor.is("token") || self.cursor.following().text == "=" {
            return Ok(Operand::Constant(0));
        }
        self.cursor.next();
        self.expression()
    }

    pub(super) fn park(&mut self) -> Result<(), Wrong> {
        if self.is_before_sleep() {
            return Err(self.cursor.misplaced(Rule::AboutToSleep));
        }
        let key = self.begin_section()?;
        let park = Park {
            key,
            timing: Timing::Endless,
            late: self.draft.label(),
            invalid: self.draft.label(),
            end: self.draft.label(),
            last: self.last_local(),
        };
        if self.cursor.opens("validate")? {
            self.draft.lock(key, key);
            let valid = self.declare_as("valid", 0);
            self.open(Block::Validate(park, valid));
            return Ok(());
        }
        let validation = self.condition(key)?;
        self.enter_queue(park, validation)
    }

    fn is_before_sleep(&self) -> bool {
        for open in &self.blocks {
            if let Block::BeforeSleep(_) = open.block {
                return true;
            }
        }
        false
    }

    fn last_local(&mut self) -> Local {
        if self.names("last") {
            self.declare("last")
        } else {
            self.draft.temporary()
        }
    }

    // What stands behind `if`: a look at a word in the park itself, or what is found in a section
    // that the park ends.
    fn condition(&mut self, key: Key) -> Result<Validation, Wrong> {
        if !self.cursor.is_near() || !self.cursor.take("if") {
            return Ok(Validation::Given(Operand::Constant(1)));
        }
        if let Some(seen) = self.look_at_word()? {
            return Ok(seen);
        }
        let place = self.draft.len();
        self.draft.lock(key, key);
        let operand = self.expression()?;
        if !self.draft.has_step_from(place.saturating_add(1)) {
            self.draft.remove(place);
        }
        Ok(Validation::Given(operand))
    }

    /// `WORD op E`, if that is what comes next: the word is looked at once, in the step itself.
    pub(super) fn look_at_word(&mut self) -> Result<Option<Validation>, Wrong> {
        let back = self.cursor.at;
        let place = self.draft.len();
        let meaning = self.names.lookup(self.cursor.peek().text);
        let operator = Operator::of(self.cursor.following().text);
        if let (Some(Meaning::Word(word)), Some(operator)) = (meaning, operator) {
            self.cursor.at = back.saturating_add(2);
            let operand = self.expression_above(operator.strength)?;
            let ends = Operator::of(self.cursor.peek().text).is_none();
            if ends
                && !self.draft.has_step_from(place)
                && let Some((operation, operand)) = operator.looking(operand)
            {
                return Ok(Some(Validation::Seen {
                    word,
                    operation,
                    operand,
                }));
            }
            self.draft.release(operand);
        }
        self.draft.truncate(place);
        self.cursor.at = back;
        Ok(None)
    }

    pub(super) fn close_validate(&mut self, park: Park, valid: Local) -> Result<(), Wrong> {
        self.enter_queue(park, Validation::Given(Operand::Local(valid)))?;
        self.forget("valid");
        Ok(())
    }

    // The park itself, and what comes before the sleep.
    fn enter_queue(&mut self, park: Park, validation: Validation) -> Result<(), Wrong> {
        let token = self.token()?;
        let timing = if self.cursor.take("timeout") {
            Timing::Timed
        } else {
            Timing::Endless
        };
        let park_itself = Instruction::Park {
            key: park.key,
            validation,
            token,
            timing,
            target: 0,
        };
        self.draft.emit_to(Some(park.invalid), park_itself);
        self.draft.release(token);
        self.draft.release(validation.operand());
        let park = Park { timing, ..park };
        if self.cursor.opens("before_sleep")? {
            self.open(Block::BeforeSleep(park));
            return Ok(());
        }
        self.sleep(park)
    }

    /// The sleep, and what comes of it.
    pub(super) fn sleep(&mut self, park: Park) -> Result<(), Wrong> {
        let (to, last) = (self.token_local(park), park.last);
        let late = match park.timing {
            Timing::Endless => None,
            Timing::Timed => Some(park.late),
        };
        let target = 0;
        self.draft
            .emit_to(late, Instruction::Sleep { to, last, target });
        if to != last {
            self.draft.release(Operand::Local(to));
        }
        self.set_outcome("result", 0);
        self.draft.jump(park.end);
        self.draft.place(park.late);
        if park.timing == Timing::Endless {
            self.end_park(park);
        } else if self.cursor.opens("timed_out")? {
            self.open(Block::TimedOut(park));
        } else {
            self.give_up(park);
        }
        Ok(())
    }

    // The local that the sleep sets to the token.
    fn token_local(&mut self, park: Park) -> Local {
        match self.outcome("token") {
            Some(local) => local,
            // Only one of the two is set.
            None if self.draft.locals.is_temporary(park.last) => park.last,
            None => self.draft.temporary(),
        }
    }

    /// The deadline has passed, and what was to be run then was run.
    pub(super) fn give_up(&mut self, park: Park) {
        self.draft.emit(Instruction::GiveUp);
        self.set_outcome("result", 2);
        self.set_outcome("token", 0);
        self.draft.jump(park.end);
        self.end_park(park);
    }

    fn end_park(&mut self, park: Park) {
        self.draft.release(Operand::Local(park.last));
        self.forget("last");
        self.draft.place(park.invalid);
        self.set_outcome("result", 1);
        self.set_outcome("token", 0);
        self.draft.place(park.end);
        self.end_statement();
    }
}
