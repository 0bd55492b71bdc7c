//! The machine of a fair mutex and its condition variable, as plain as docs/THEOREMS.md tells it.
//! It knows no lot, and moves threads one by one.

use super::pairs::{add, beside, put, take};
use crate::told::{Told, said, told_of, write_list};
use crate::words::{number, word};
use lot_simulator::fair::FairStatus;
use std::alloc::Global;
use std::fmt::Write;

/// The plain machine.
#[derive(Drop)]
pub struct PlainFair {
    max_threads: usize,

    // Who waits for the mutex, and who on the condition variable, each in order.
    waiters: Vec<usize>,
    sleepers: Vec<usize>,

    // The threads that are registered.
    statuses: Vec<(usize, FairStatus)>,
}

impl PlainFair {
    /// A machine for this many threads, none of which is registered.
    pub fn new(alloc: Global, max_threads: usize) -> PlainFair {
        PlainFair {
            max_threads,
            waiters: Vec::new(alloc),
            sleepers: Vec::new(alloc),
            statuses: Vec::new(alloc),
        }
    }

    fn status(&self, number: usize) -> FairStatus {
        beside(self.statuses.as_slice(), number).unwrap_or(FairStatus::Free)
    }

    // Whether a thread holds the mutex.
    fn is_locked(&self) -> bool {
        for (_, status) in &self.statuses {
            if let FairStatus::Holding | FairStatus::Leaving | FairStatus::Handed = *status {
                return true;
            }
        }
        false
    }

    /// Does the step by its rule, and writes the answer; or that to a question.
    pub fn answer(&mut self, line: &str, text: &mut String) {
        match word(line, 0) {
            "waiters" => write_list(text, self.waiters.as_slice()),
            "sleepers" => write_list(text, self.sleepers.as_slice()),
            "status" => self.write_status(number(line, 1), text),
            _ => self.step(line).write(text),
        }
    }

    fn write_status(&self, thread: usize, text: &mut String) {
        if write!(text, "{} {:?}", self.is_locked(), self.status(thread)).is_err() {
            text.clear();
        }
    }

    fn step(&mut self, line: &str) -> Told {
        let (thread, sleepers) = (number(line, 1), self.sleepers.len());
        match word(line, 0) {
            "register" => self.register(),
            "notify-one" => self.notify(1),
            "notify-all" => self.notify(sleepers),
            step => self.step_of(thread, step),
        }
    }

    // The step of a thread, by what it is doing.
    fn step_of(&mut self, thread: usize, step: &str) -> Told {
        match self.status(thread) {
            FairStatus::Idle => self.step_of_idle(thread, step),
            FairStatus::Holding => self.step_of_holder(thread, step),
            FairStatus::Leaving if step == "leave" => self.hand_on(thread, FairStatus::Queued),
            FairStatus::Handed if step == "return" => {
                self.go_on(thread, FairStatus::Holding, "locked")
            }
            _ => said("misfit"),
        }
    }

    fn step_of_idle(&mut self, thread: usize, step: &str) -> Told {
        match step {
            "retire" => {
                take(&mut self.statuses, thread);
                said("retired")
            }
            "lock" if self.is_locked() => {
                add(&mut self.waiters, thread);
                self.go_on(thread, FairStatus::Queued, "queued")
            }
            "lock" => self.go_on(thread, FairStatus::Holding, "locked"),
            _ => said("misfit"),
        }
    }

    fn step_of_holder(&mut self, thread: usize, step: &str) -> Told {
        match step {
            "wait" => {
                add(&mut self.sleepers, thread);
                self.go_on(thread, FairStatus::Leaving, "waiting")
            }
            "unlock" => self.hand_on(thread, FairStatus::Idle),
            _ => said("misfit"),
        }
    }

    // The thread goes on to another status than `Free`, and is told so.
    fn go_on(&mut self, thread: usize, status: FairStatus, form: &'static str) -> Told {
        put(&mut self.statuses, thread, status);
        said(form)
    }

    fn register(&mut self) -> Told {
        for number in 0..self.max_threads {
            if self.status(number) == FairStatus::Free {
                put(&mut self.statuses, number, FairStatus::Idle);
                return told_of("number #", number, 0);
            }
        }
        said("full")
    }

    // The mutex, which the thread holds no more, goes to the first who waits for it.
    fn hand_on(&mut self, thread: usize, status: FairStatus) -> Told {
        put(&mut self.statuses, thread, status);
        if self.waiters.is_empty() {
            return said("freed");
        }
        let first = self.waiters.remove(0);
        self.go_on(first, FairStatus::Handed, "handed")
    }

    // Moves so many threads off the condition variable, if there are so many.
    fn notify(&mut self, count: usize) -> Told {
        let (mut unparked, mut requeued) = (0_usize, 0_usize);
        for _ in 0..count {
            if self.sleepers.is_empty() {
                break;
            }
            let thread = self.sleepers.remove(0);
            if self.is_locked() {
                add(&mut self.waiters, thread);
                requeued = requeued.wrapping_add(1);
            } else {
                put(&mut self.statuses, thread, FairStatus::Handed);
                unparked = unparked.wrapping_add(1);
            }
        }
        if self.sleepers.is_empty() {
            told_of("notified # requeued # more false", unparked, requeued)
        } else {
            told_of("notified # requeued # more true", unparked, requeued)
        }
    }
}
