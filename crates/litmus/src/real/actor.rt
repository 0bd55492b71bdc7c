//! A thread of a test, and what it does by itself: all but the calls of the lot.

use crate::real::board::{Board, Trouble};
use crate::real::draws::Draws;
use lot_litmus::code::{
    Access, Code, Instruction, KEYS, Key, LOCALS, Local, Operand, Operation, Thread, Timing,
    Validation, Word,
};
use lot_litmus::state::Progress;
use lot_litmus::test::Fault;
use std::cell::Cell;
use std::sync::Wait;
use std::sync::atomic::Ordering;
use std::{hint, thread};

// How many local instructions a thread does in a row, at most. The machine says the same.
const MOST_LOCAL: usize = 256;

// A thread pauses before a step for so many turns of a loop at most.
const LONGEST: u64 = 16_384;

// A thread yields the processor before one step of so many.
const YIELDS: u64 = 64;

// A thread that has done nothing.
const FIRST: Progress = Progress {
    at: 0,
    locals: [0; LOCALS],
    locked: [false; KEYS],
    inside: None,
};

/// A thread of a test that is run.
///
/// What it has come to lies in cells, since the closures of one call of the lot share it.
#[derive(Drop)]
pub struct Actor<'a> {
    pub board: &'a Board,
    pub thread: Thread,
    code: &'a Code,
    progress: Cell<Progress>,

    // How many local instructions it has done since its last step.
    locals: Cell<usize>,

    draws: Draws,
}

/// The call of the lot that comes next.
#[derive(Clone, Copy)]
pub enum Call {
    Park(Key, Timing),

    /// What a park does last.
    Sleep,

    /// A section of the key's bucket, of which the lists stay as they are.
    Look(Key),

    UnparkOne(Key),

    /// A filter, or an unpark of all.
    UnparkThose(Key),

    /// From the one key to the other.
    Requeue(Key, Key),
}

// What an instruction comes to.
#[derive(Clone, Copy)]
enum Turn {
    // The thread has come so far.
    Goes(Progress),

    // It looks again.
    Waits,

    // It shows a fault.
    Fails(Fault),
}

/// The thread one instruction further.
pub fn advanced(progress: Progress) -> Progress {
    progress.at_target(progress.at.saturating_add(1))
}

// The thread one instruction further, with the number in the local.
fn set(progress: Progress, to: Local, number: u8) -> Turn {
    Turn::Goes(advanced(progress.with_local(to, number)))
}

fn computed(progress: Progress, to: Local, made: Option<u8>) -> Turn {
    match made {
        Some(number) => set(progress, to, number),
        None => Turn::Fails(Fault::Overflow),
    }
}

impl<'a> Actor<'a> {
    /// The thread at its beginning.
    pub fn new(board: &'a Board, code: &'a Code, thread: Thread, seed: u64) -> Actor<'a> {
        Actor {
            board,
            thread,
            code,
            progress: Cell::new(FIRST),
            locals: Cell::new(0),
            draws: Draws::new(seed),
        }
    }

    /// How far it has come.
    pub fn progress(&self) -> Progress {
        self.progress.get()
    }

    /// It has come so far by a step.
    pub fn come(&self, progress: Progress) {
        self.locals.set(0);
        self.progress.set(progress);
    }

    /// The instruction at which it is.
    pub fn here(&self) -> Option<Instruction> {
        self.code.at(self.progress.get().at)
    }

    /// Goes on up to the next instruction that belongs to a call of the lot. There is none if the
    /// thread comes to its end, or is to give up.
    pub fn go<R: Wait>(&self, rt: &R) -> Option<Instruction> {
        for _ in rt.forever() {
            if self.board.is_over() {
                return None;
            }
            let instruction = self.here()?;
            if is_of_lot(instruction) {
                return Some(instruction);
            }
            match self.perform(rt, self.progress.get(), instruction) {
                Turn::Goes(progress) => self.progress.set(progress),
                Turn::Waits => thread::yield_now(),
                Turn::Fails(fault) => self.board.note(rt, Trouble::Fails(fault)),
            }
        }
        unreachable!()
    }

    /// Does so in a section, from the instruction at which that begins.
    pub fn go_in_section<R: Wait>(&self, rt: &R) -> Option<Instruction> {
        if let Some(Instruction::Lock { .. }) = self.here() {
            self.come(advanced(self.progress.get()));
        }
        self.go(rt)
    }

    /// The call of the lot that comes next, if the thread does not end and is not to give up.
    pub fn next_call<R: Wait>(&self, rt: &R) -> Option<Call> {
        let next = self.go(rt)?;
        match (next, self.last_of_call()) {
            (_, Some(Instruction::Park { key, timing, .. })) => Some(Call::Park(key, timing)),
            (_, Some(Instruction::Sleep { .. })) => Some(Call::Sleep),
            (_, Some(Instruction::UnparkOne { key, .. })) => Some(Call::UnparkOne(key)),
            (_, Some(Instruction::UnparkAll { key, .. })) => Some(Call::UnparkThose(key)),
            (_, Some(Instruction::UnparkFilter { key, .. })) => Some(Call::UnparkThose(key)),
            (_, Some(Instruction::Requeue { key, other, .. })) => Some(Call::Requeue(key, other)),
            (Instruction::Lock { key, .. }, _) => Some(Call::Look(key)),
            _ => None,
        }
    }

    // The instruction that ends the section that comes next. All that stands before it in the code
    // is done in the section.
    fn last_of_call(&self) -> Option<Instruction> {
        let at = self.progress.get().at as usize;
        self.code
            .instructions
            .iter()
            .skip(at)
            .find(|instruction| ends_call(**instruction))
            .copied()
    }
}

fn is_of_lot(instruction: Instruction) -> bool {
    match instruction {
        Instruction::Lock { .. } | Instruction::GiveUp => true,
        _ => ends_call(instruction),
    }
}

fn ends_call(instruction: Instruction) -> bool {
    matches!(
        instruction,
        Instruction::Unlock
            | Instruction::Park { .. }
            | Instruction::Sleep { .. }
            | Instruction::UnparkOne { .. }
            | Instruction::UnparkAll { .. }
            | Instruction::UnparkFilter { .. }
            | Instruction::Requeue { .. }
    )
}

impl Actor<'_> {
    // Does an instruction that is none of the lot's.
    fn perform<R: Wait>(&self, rt: &R, progress: Progress, instruction: Instruction) -> Turn {
        if self.locals.get() >= MOST_LOCAL {
            return Turn::Fails(Fault::Endless);
        }
        self.locals.set(self.locals.get().saturating_add(1));
        match instruction {
            Instruction::Compute {
                to,
                operation,
                first,
                second,
            } => {
                let made = operation.make(progress.value(first), progress.value(second));
                computed(progress, to, made)
            }
            Instruction::Jump { target } => Turn::Goes(progress.at_target(target)),
            Instruction::JumpUnless { operand, target } if progress.value(operand) == 0 => {
                Turn::Goes(progress.at_target(target))
            }
            Instruction::Assert { operand } if progress.value(operand) == 0 => {
                Turn::Fails(Fault::Assertion)
            }
            Instruction::JumpUnless { .. } | Instruction::Assert { .. } => {
                Turn::Goes(advanced(progress))
            }
            Instruction::Enter { access } => self.enter(progress, access),
            Instruction::Count { to, key } => {
                set(progress, to, self.board.lists.get(rt, key).len())
            }
            Instruction::Look {
                to,
                key,
                index,
                target,
            } => self.look(rt, progress, to, key, index, target),
            step => self.step(progress, step),
        }
    }

    fn enter(&self, progress: Progress, access: Access) -> Turn {
        let entered = Progress {
            inside: Some(access),
            ..progress
        };
        match progress.inside {
            // Whoever shares the section stays in it.
            Some(Access::Shared) if access == Access::Shared => Turn::Goes(advanced(entered)),
            _ if self.board.enter(access) => Turn::Goes(advanced(entered)),
            _ => Turn::Fails(Fault::Exclusion),
        }
    }

    fn look<R: Wait>(
        &self,
        rt: &R,
        progress: Progress,
        to: Local,
        key: Key,
        index: Operand,
        target: u16,
    ) -> Turn {
        let index = progress.value(index) as usize;
        match self.board.lists.get(rt, key).get(index) {
            Some(waiter) => set(progress, to, waiter.token),
            None => Turn::Goes(progress.at_target(target)),
        }
    }
}

impl Actor<'_> {
    // Does an instruction that others can come between.
    fn step(&self, progress: Progress, instruction: Instruction) -> Turn {
        self.locals.set(0);
        self.pause();
        match instruction {
            Instruction::Leave => self.leave(progress),
            Instruction::Read { to, word } => {
                set(progress, to, self.board.word(word).load(Ordering::SeqCst))
            }
            Instruction::Write { word, operand } => {
                let number = progress.value(operand);
                self.board.word(word).store(number, Ordering::SeqCst);
                Turn::Goes(advanced(progress))
            }
            Instruction::Update {
                to,
                word,
                operation,
                operand,
            } => self.update(progress, to, word, operation, progress.value(operand)),
            Instruction::CompareExchange {
                to,
                word,
                expected,
                new,
            } => {
                let expected = progress.value(expected);
                let old = self.exchange(word, expected, progress.value(new));
                set(progress, to, old)
            }
            Instruction::Await {
                word,
                operation,
                operand,
            } => {
                let holds = operation.holds(self.seen(word), progress.value(operand));
                if holds {
                    Turn::Goes(advanced(progress))
                } else {
                    Turn::Waits
                }
            }
            // `Pass`; and whoever waits for all others runs once they have ended.
            _ => Turn::Goes(advanced(progress)),
        }
    }

    fn leave(&self, progress: Progress) -> Turn {
        if let Some(access) = progress.inside {
            self.board.leave(access);
        }
        Turn::Goes(advanced(progress.outside()))
    }

    fn seen(&self, word: Word) -> u8 {
        self.board.word(word).load(Ordering::SeqCst)
    }

    fn update(
        &self,
        progress: Progress,
        to: Local,
        word: Word,
        operation: Operation,
        number: u8,
    ) -> Turn {
        let made = |old: u8| operation.make(old, number);
        let word = self.board.word(word);
        match word.fetch_update(Ordering::SeqCst, Ordering::SeqCst, made) {
            Ok(old) => set(progress, to, old),
            Err(_) => Turn::Fails(Fault::Overflow),
        }
    }

    // Answers what the word was.
    fn exchange(&self, word: Word, expected: u8, new: u8) -> u8 {
        let word = self.board.word(word);
        match word.compare_exchange(expected, new, Ordering::SeqCst, Ordering::SeqCst) {
            Ok(old) | Err(old) => old,
        }
    }

    /// Whether the validation of a park says that the thread is to wait.
    pub fn is_valid(&self, validation: Validation) -> bool {
        let progress = self.progress.get();
        match validation {
            Validation::Given(operand) => progress.value(operand) != 0,
            Validation::Seen {
                word,
                operation,
                operand,
            } => operation.holds(self.seen(word), progress.value(operand)),
        }
    }

    /// A number below the greatest, mostly far below it.
    pub fn draw_low(&self, greatest: u64) -> u64 {
        self.draws.low(greatest)
    }

    // Lets others come between.
    fn pause(&self) {
        if self.draws.draw() % YIELDS == 0 {
            thread::yield_now();
        }
        for _ in 0..self.draws.low(LONGEST) {
            hint::spin_loop();
        }
    }
}
