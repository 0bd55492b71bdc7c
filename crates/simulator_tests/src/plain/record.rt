//! The plain machine with a journal: how many entries it has, and how many are set aside.

use super::exclusive::Plain;
use super::pairs::{add, take};
use crate::told::{Told, said};
use crate::words::{is_one_of, number, word};
use lot_machine::status::Status;
use std::alloc::Global;

/// The plain machine with a journal.
#[derive(Drop)]
pub struct PlainRecord {
    plain: Plain,

    // For each entry that is set aside its thread, and nothing beside it: one for the end of a
    // park, and with a timeout one for its deadline.
    aside: Vec<(usize, usize)>,

    pub entries: usize,
    capacity: usize,
}

// An entry for the step, and for one that enters those that are set aside.
fn entries_of(line: &str) -> usize {
    if word(line, 3) != "yes" {
        1
    } else if word(line, 5) == "timed" {
        3
    } else {
        2
    }
}

// What a step sets aside, or takes of that.
fn set_aside(aside: &mut Vec<(usize, usize)>, line: &str, is_entered: bool) {
    let thread = number(line, 1);
    match word(line, 0) {
        "enter" if is_entered => {
            if word(line, 5) == "timed" {
                add(aside, (thread, 0));
            }
            add(aside, (thread, 0));
        }
        "deadline" => {
            take(aside, thread);
        }
        "resolve" | "return" => {
            take(aside, thread);
            take(aside, thread);
        }
        _ => {}
    }
}

impl PlainRecord {
    /// A machine for so many threads, whose journal is empty and has room for so many entries.
    pub fn new(alloc: Global, threads: usize, capacity: usize) -> PlainRecord {
        PlainRecord {
            plain: Plain::new(alloc, threads),
            aside: Vec::new(alloc),
            entries: 0,
            capacity,
        }
    }

    /// Does the step by its rule, unless the journal has no room for it.
    pub fn step(&mut self, line: &str) -> Told {
        if self.is_full_for(line) {
            return said("journal is full");
        }
        let answer = self.plain.step(line);
        if answer.form != "misfit" {
            self.entries = self.entries.wrapping_add(1);
            set_aside(&mut self.aside, line, answer.form == "entered");
        }
        answer
    }

    // Whether the step fits and needs more entries than are left. Those that end a park, or tell of
    // its deadline, have their entries set aside.
    fn is_full_for(&self, line: &str) -> bool {
        let step = word(line, 0);
        let is_running = self.plain.status(number(line, 1)) == Status::Running;
        let needs_none = is_one_of(step, "deadline resolve return")
            || !is_running && is_one_of(step, "retire enter acquire release");
        let left = self
            .capacity
            .wrapping_sub(self.entries)
            .wrapping_sub(self.aside.len());
        !needs_none && left < entries_of(line)
    }
}
