//! The code of a thread while it is written.

use super::effect::Effect;
use super::fault::{Counted, Fault, Wrong};
use super::flow::{Flow, Place};
use super::locals::{LocalSet, Locals};
use crate::code::{Code, Instruction, Key, LOCALS, Local, Operand, Operation};
use std::alloc::Global;

// How many jumps in a row are made one.
const JUMPS: usize = 16;

// How many instructions a thread can have.
pub(super) const INSTRUCTIONS: usize = 65535;

const ZERO: Operand = Operand::Constant(0);

pub(super) const TOO_LONG: Fault = Fault::TooMany(Counted::Instructions);

/// A place in code, which may be found only later.
#[derive(Clone, Copy)]
pub(super) struct Label {
    number: usize,
}

// An instruction, its target, and the statement that it comes from.
#[derive(Clone, Copy)]
struct Line {
    instruction: Instruction,
    target: Option<Label>,
    statement: usize,
}

/// Code that is being written. The first thing that goes wrong with it is kept until somebody asks,
/// and what is written behind that is worth nothing.
#[derive(Drop)]
pub(super) struct Draft<'t> {
    lines: Vec<Line>,

    // Where each label is.
    labels: Vec<usize>,
    pub(super) locals: Locals<'t>,

    /// The statement from which instructions come now.
    pub(super) statement: usize,

    // What went wrong first, if something did.
    fault: Option<Fault>,
}

impl<'t> Draft<'t> {
    pub(super) fn new(alloc: Global) -> Draft<'t> {
        Draft {
            lines: Vec::new(alloc),
            labels: Vec::new(alloc),
            locals: Locals::new(),
            statement: 0,
            fault: None,
        }
    }

    /// Something is wrong with the code.
    pub(super) fn fail(&mut self, fault: Fault) {
        if self.fault.is_none() {
            self.fault = Some(fault);
        }
    }

    /// Whether something went wrong: it counts as wrong at the next token.
    pub(super) fn check(&self) -> Result<(), Wrong> {
        match self.fault {
            Some(fault) => Err(fault.here()),
            None => Ok(()),
        }
    }

    pub(super) fn len(&self) -> usize {
        self.lines.len()
    }

    pub(super) fn emit(&mut self, instruction: Instruction) {
        self.emit_to(None, instruction);
    }

    /// Emits an instruction that may go on at the label.
    pub(super) fn emit_to(&mut self, target: Option<Label>, instruction: Instruction) {
        let line = Line {
            instruction,
            target,
            statement: self.statement,
        };
        if self.lines.len() >= INSTRUCTIONS {
            self.fail(TOO_LONG);
        } else if self.lines.push(line).is_err() {
            self.fail(Fault::NoMemory);
        }
    }

    pub(super) fn label(&mut self) -> Label {
        let number = self.labels.len();
        if number >= INSTRUCTIONS {
            self.fail(TOO_LONG);
        } else if self.labels.push(usize::MAX).is_err() {
            self.fail(Fault::NoMemory);
        }
        Label { number }
    }

    /// The label stands for what comes next.
    pub(super) fn place(&mut self, label: Label) {
        let here = self.lines.len();
        if let Some(place) = self.labels.get_mut(label.number) {
            *place = here;
        }
    }

    /// Whether there is a step from this place on.
    pub(super) fn has_step_from(&self, place: usize) -> bool {
        for line in self.lines.get(place..).unwrap_or_default() {
            if line.instruction.is_step() {
                return true;
            }
        }
        false
    }

    /// Without what comes from this place on. No label is there.
    pub(super) fn truncate(&mut self, place: usize) {
        self.lines.truncate(place);
    }

    /// Without the instruction at this place. No label is behind it.
    pub(super) fn remove(&mut self, place: usize) {
        if place < self.lines.len() {
            self.lines.remove(place);
        }
    }
}

impl<'t> Draft<'t> {
    /// Takes a local for this name. A temporary has the name "".
    pub(super) fn local(&mut self, name: &'t str) -> Local {
        match self.locals.take(name) {
            Some(local) => local,
            None => {
                self.fail(Fault::TooMany(Counted::Locals));
                Local { number: 0 }
            }
        }
    }

    pub(super) fn temporary(&mut self) -> Local {
        self.local("")
    }

    /// A temporary that begins with this number.
    pub(super) fn counter(&mut self, number: u8) -> Local {
        let local = self.temporary();
        self.set(local, Operand::Constant(number));
        local
    }

    /// A temporary is not needed any more.
    pub(super) fn release(&mut self, operand: Operand) {
        if let Operand::Local(local) = operand
            && self.locals.is_temporary(local)
        {
            self.locals.release(local);
        }
    }

    pub(super) fn jump(&mut self, label: Label) {
        self.emit_to(Some(label), Instruction::Jump { target: 0 });
    }

    /// Goes on at the label if the number is 0.
    pub(super) fn jump_unless(&mut self, operand: Operand, label: Label) {
        self.release(operand);
        let target = 0;
        match operand {
            Operand::Constant(0) => self.jump(label),
            Operand::Constant(_) => {}
            Operand::Local(_) => {
                self.emit_to(Some(label), Instruction::JumpUnless { operand, target });
            }
        }
    }

    /// The local becomes the number.
    pub(super) fn set(&mut self, to: Local, operand: Operand) {
        self.release(operand);
        let is_set = match operand {
            Operand::Local(from) => self.locals.is_temporary(from) && self.set_instead(from, to),
            Operand::Constant(_) => false,
        };
        if !is_set {
            self.emit(set(to, operand));
        }
    }

    // Lets the last instruction set another local, if it sets this one. Says whether it does.
    fn set_instead(&mut self, from: Local, to: Local) -> bool {
        let Some(last) = self.lines.last_mut() else {
            return false;
        };
        let does = last.instruction.sets_ahead() == Some(from);
        if does {
            last.instruction.set_instead(to);
        }
        does
    }

    /// What the operation makes of two numbers: a number, or a temporary.
    pub(super) fn compute(
        &mut self,
        operation: Operation,
        first: Operand,
        second: Operand,
    ) -> Operand {
        let (Operand::Constant(a), Operand::Constant(b)) = (first, second) else {
            return self.computed_later(operation, first, second);
        };
        let made = operation.make(a, b);
        if made.is_none() {
            self.fail(Fault::NotAByte);
        }
        Operand::Constant(made.unwrap_or(0))
    }

    // A temporary that becomes what the operation makes of two numbers.
    fn computed_later(&mut self, operation: Operation, first: Operand, second: Operand) -> Operand {
        self.release(first);
        self.release(second);
        let to = self.temporary();
        self.emit(Instruction::Compute {
            to,
            operation,
            first,
            second,
        });
        Operand::Local(to)
    }

    /// The local becomes what the operation makes of it and a number.
    pub(super) fn change(&mut self, to: Local, operation: Operation, second: Operand) {
        self.emit(Instruction::Compute {
            to,
            operation,
            first: Operand::Local(to),
            second,
        });
    }

    pub(super) fn lock(&mut self, key: Key, other: Key) {
        self.emit(Instruction::Lock { key, other });
    }

    /// How many wait on the key, whose bucket is locked.
    pub(super) fn waiting(&mut self, key: Key) -> Operand {
        let to = self.temporary();
        self.emit(Instruction::Count { to, key });
        Operand::Local(to)
    }

    /// Whether more than this number wait on the key.
    pub(super) fn more_than(&mut self, number: Operand, key: Key) -> Operand {
        let waiting = self.waiting(key);
        self.compute(Operation::Below, number, waiting)
    }
}

// The local becomes the number.
fn set(to: Local, second: Operand) -> Instruction {
    Instruction::Compute {
        to,
        operation: Operation::Second,
        first: ZERO,
        second,
    }
}

/// Code that is done, and the statement that each instruction comes from.
#[derive(Drop)]
pub(super) struct Finished {
    pub(super) code: Code,
    pub(super) statements: Vec<usize>,
}

// Instructions that are done, and the statement that each comes from.
#[derive(Drop)]
struct Done {
    instructions: Vec<Instruction>,
    statements: Vec<usize>,
}

impl Done {
    fn push(&mut self, instruction: Instruction, statement: usize) -> Result<(), Wrong> {
        self.instructions.push(instruction)?;
        self.statements.push(statement)?;
        Ok(())
    }

    // Adds that these locals become 0.
    fn clear(&mut self, locals: LocalSet, statement: usize) -> Result<(), Wrong> {
        for number in 0..LOCALS as u8 {
            let to = Local { number };
            if locals.contains(to) {
                self.push(set(to, ZERO), statement)?;
            }
        }
        Ok(())
    }
}

impl Draft<'_> {
    /// The code, in which each local that is not read any more is 0 at the next step, and without
    /// instructions that do nothing.
    pub(super) fn finish(&self, alloc: Global) -> Result<Finished, Wrong> {
        let flow = Flow::of(self.places(alloc)?);
        let done = self.done(alloc, &flow)?;
        match Code::new(done.instructions) {
            Some(code) => Ok(Finished {
                code,
                statements: done.statements,
            }),
            None => Err(TOO_LONG.here()),
        }
    }

    fn done(&self, alloc: Global, flow: &Flow) -> Result<Done, Wrong> {
        let mut done = Done {
            instructions: Vec::new(alloc),
            statements: Vec::new(alloc),
        };
        let mut statement = 0;
        for (place, line) in self.lines.iter().enumerate() {
            if !flow.is_needless(place) {
                statement = line.statement;
                self.finish_line(flow, place, *line, &mut done)?;
            }
        }
        done.clear(flow.at(self.lines.len()).cleared_before, statement)?;
        Ok(done)
    }

    // Adds what comes of the line at this place.
    fn finish_line(
        &self,
        flow: &Flow,
        place: usize,
        line: Line,
        done: &mut Done,
    ) -> Result<(), Wrong> {
        let here = flow.at(place);
        done.clear(here.cleared_before, line.statement)?;
        done.push(self.targeted(flow, place, line)?, line.statement)?;
        done.clear(here.cleared_behind, line.statement)
    }

    // What the instructions do, and the end.
    fn places(&self, alloc: Global) -> Result<Vec<Place>, Wrong> {
        let mut places = Vec::new(alloc);
        for line in &self.lines {
            places.push(Place::of(line.instruction, self.target_of(*line)))?;
        }
        places.push(Place::END)?;
        Ok(places)
    }

    // The place of its target, jumps from jump to jump included.
    fn target_of(&self, line: Line) -> Option<usize> {
        let mut place = self.place_of(line.target?);
        for _ in 0..JUMPS {
            match self.lines.get(place) {
                Some(next) if next.instruction.effect() == Effect::Jumps => {
                    place = self.place_of(next.target?);
                }
                _ => break,
            }
        }
        Some(place)
    }

    fn place_of(&self, label: Label) -> usize {
        let place = self.labels.get(label.number).copied();
        place.unwrap_or(usize::MAX).min(self.lines.len())
    }

    // With its target among the instructions that are left. One that goes nowhere has the next.
    fn targeted(&self, flow: &Flow, place: usize, line: Line) -> Result<Instruction, Wrong> {
        let next = place.saturating_add(1);
        let target = self.target_of(line).unwrap_or(next);
        let Ok(index) = u16::try_from(flow.index(target)) else {
            return Err(TOO_LONG.here());
        };
        let mut instruction = line.instruction;
        instruction.go_to(index);
        Ok(instruction)
    }
}
