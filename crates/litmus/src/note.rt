//! What a step does beyond what its statement says.

use crate::names::{instruction_at, key_name, letter, word_name};
use lot_litmus::code::{Instruction, Key, THREADS, Thread, Word};
use lot_litmus::parse::Parsed;
use lot_litmus::state::{Progress, Standing, State};
use std::alloc::AllocError;

/// A step of a thread, with the states before and behind it.
#[derive(Clone, Copy)]
pub struct Taken<'a> {
    pub parsed: &'a Parsed,
    pub thread: Thread,
    pub before: &'a State,

    /// There is none where the step shows a fault.
    pub behind: Option<&'a State>,
}

impl Taken<'_> {
    /// How far the thread had come.
    pub fn progress(&self) -> Progress {
        self.before.threads[self.thread.index()]
    }

    /// The instruction that the step is.
    pub fn instruction(&self) -> Option<Instruction> {
        instruction_at(self.parsed, self.thread, self.progress().at)
    }

    /// Adds what the step does.
    pub fn push_note(&self, cell: &mut String, statement: &str) -> Result<(), AllocError> {
        match self.instruction() {
            Some(Instruction::Read { word, .. }) => self.push_read(cell, statement, word),
            Some(Instruction::CompareExchange { word, expected, .. }) => {
                let is_met = self.before.words[word.index()] == self.progress().value(expected);
                cell.push_str(if is_met { "" } else { ": fails" })
            }
            Some(Instruction::Lock { key, other }) => self.push_lock(cell, key, other),
            Some(Instruction::Unlock) => cell.push_str(": unlocks"),
            Some(Instruction::Park { .. }) => self.push_park(cell),
            Some(Instruction::Sleep { .. }) => self.push_sleep(cell),
            Some(Instruction::GiveUp) => cell.push_str(": leaves the queue"),
            Some(
                Instruction::UnparkOne { .. }
                | Instruction::UnparkAll { .. }
                | Instruction::UnparkFilter { .. }
                | Instruction::Requeue { .. },
            ) => self.push_woken(cell),
            _ => Ok(()),
        }
    }

    // A statement that is an assignment of the word alone says so itself.
    fn push_read(&self, cell: &mut String, statement: &str, word: Word) -> Result<(), AllocError> {
        let name = word_name(self.parsed, word);
        if is_assignment_of(statement, name) {
            return Ok(());
        }
        write!(cell, ": reads {name}")
    }

    fn push_lock(&self, cell: &mut String, key: Key, other: Key) -> Result<(), AllocError> {
        write!(cell, ": locks {}", key_name(self.parsed, key))?;
        if key == other {
            return Ok(());
        }
        write!(cell, " and {}", key_name(self.parsed, other))
    }

    fn push_park(&self, cell: &mut String) -> Result<(), AllocError> {
        match self.standing_behind() {
            Some(Standing::Waiting(_)) => cell.push_str(": waits"),
            _ => cell.push_str(": does not wait"),
        }
    }

    /// What the thread does in the lot behind the step.
    pub fn standing_behind(&self) -> Option<Standing> {
        let behind = self.behind?;
        Some(behind.standings[self.thread.index()])
    }

    fn push_sleep(&self, cell: &mut String) -> Result<(), AllocError> {
        match self.before.standings[self.thread.index()] {
            Standing::Taken(token) => write!(cell, ": wakes with token {token}"),
            Standing::Waiting(_) => cell.push_str(": its deadline passes"),
            Standing::Late => cell.push_str(": comes late and locks its queue"),
            Standing::Running => Ok(()),
        }
    }

    // Whom the step unparks.
    fn push_woken(&self, cell: &mut String) -> Result<(), AllocError> {
        let mut separator = ": unparks ";
        for number in 0..THREADS as u8 {
            let thread = Thread { number };
            if self.unparks(thread) {
                cell.push_str(separator)?;
                cell.push_str(letter(thread))?;
                separator = " ";
            }
        }
        if separator == " " {
            return Ok(());
        }
        cell.push_str(": unparks nobody")
    }

    /// Whether the step unparks the thread.
    pub fn unparks(&self, thread: Thread) -> bool {
        let Some(behind) = self.behind else {
            return false;
        };
        let was = self.before.standings[thread.index()];
        let is = behind.standings[thread.index()];
        is_taken(is) && !is_taken(was)
    }
}

fn is_taken(standing: Standing) -> bool {
    matches!(standing, Standing::Taken(_))
}

// Whether the statement is `X = NAME`.
fn is_assignment_of(statement: &str, name: &str) -> bool {
    match statement.strip_suffix(name) {
        Some(rest) => rest.trim_end().ends_with(" ="),
        None => false,
    }
}
