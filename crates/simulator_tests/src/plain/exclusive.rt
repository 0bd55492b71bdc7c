//! The machine of docs/THEOREMS.md, as slow and plain as it is told there: who waits, in the order
//! in which they came, what each number is doing, what the threads have recorded, and how many
//! buckets a table has.
//!
//! It knows no bucket, no node and no place, and no lot.

use super::pairs::{add, beside, put, take};
use crate::told::{Told, said, told_of, write_list};
use crate::words::{number, word};
use lot_base::token::UnparkToken;
use lot_machine::status::Status;
use std::alloc::Global;
use std::mem;

/// The plain machine.
#[derive(Drop)]
pub struct Plain {
    alloc: Global,
    pub(super) max_threads: usize,

    // The threads that are registered.
    pub(super) statuses: Vec<(usize, Status)>,

    // The threads that wait, each with its key. Those with one key are its list.
    waiting: Vec<(usize, usize)>,

    // Threads, each with a key that it has recorded.
    records: Vec<(usize, usize)>,

    pub(super) size: usize,
}

// What becomes of a waiter.
enum Fate {
    Taken,
    Moved,
    Left,
}

// What becomes of the waiter at this place of a list.
fn after_unpark(line: &str, index: usize) -> Fate {
    match word(line, 0) {
        "all" => Fate::Taken,
        "one" if index == 0 => Fate::Taken,
        "filter" => after_filter(word(line, 2), index),
        "requeue" => after_requeue(word(line, 3), index),
        _ => Fate::Left,
    }
}

// The decisions of a filter go with the waiters in order, up to the first stop.
fn after_filter(decisions: &str, index: usize) -> Fate {
    let seen = decisions.split('X').next().unwrap_or("");
    if seen.as_bytes().get(index) == Some(&b'U') {
        Fate::Taken
    } else {
        Fate::Left
    }
}

fn after_requeue(op: &str, index: usize) -> Fate {
    match op {
        "one" | "one-rest" if index == 0 => Fate::Taken,
        "requeue-one" if index == 0 => Fate::Moved,
        "all" | "one-rest" => Fate::Moved,
        _ => Fate::Left,
    }
}

/// Those keys that an unpark is of, which may be one twice, and its token.
pub fn keys_and_token(line: &str) -> (usize, usize, usize) {
    let from = number(line, 1);
    match word(line, 0) {
        "requeue" => (from, number(line, 2), number(line, 4)),
        "filter" => (from, from, number(line, 3)),
        _ => (from, from, number(line, 2)),
    }
}

impl Plain {
    /// A machine for this many threads, with no registered thread and no waiter.
    pub fn new(alloc: Global, max_threads: usize) -> Plain {
        Plain {
            alloc,
            max_threads,
            statuses: Vec::new(alloc),
            waiting: Vec::new(alloc),
            records: Vec::new(alloc),
            size: 16,
        }
    }

    /// What the number is doing.
    pub fn status(&self, number: usize) -> Status {
        beside(self.statuses.as_slice(), number).unwrap_or(Status::Free)
    }

    /// The threads that wait on the key, in order.
    pub fn list(&self, key: usize) -> Vec<usize> {
        let mut list = Vec::new(self.alloc);
        for (thread, of) in &self.waiting {
            if *of == key {
                add(&mut list, *thread);
            }
        }
        list
    }

    /// The least of 16, 32, 64 and so on that is three for each registered thread.
    pub fn least_size(&self) -> usize {
        let threads = self.statuses.len();
        let mut size: usize = 16;
        for _ in 0..threads {
            if size < threads.wrapping_mul(3) {
                size = size.wrapping_mul(2);
            }
        }
        size
    }

    /// Does what the line says by its rule, or what it asks, and writes the answer.
    pub fn answer(&mut self, line: &str, text: &mut String) {
        if word(line, 0) == "list" {
            write_list(text, self.list(number(line, 1)).as_slice());
        } else {
            self.step(line).write(text);
        }
    }

    /// The answer to a step, or to a question that is not for a list.
    pub fn step(&mut self, line: &str) -> Told {
        let of = number(line, 1);
        let status = self.status(of);
        match word(line, 0) {
            "register" => self.register(),
            "one" | "all" | "filter" | "requeue" => self.hand_out(line),
            "trim" => self.trim(),
            "size" => told_of("buckets # threads #", self.size, self.statuses.len()),
            "records" => told_of("records #", self.count_records(of, number(line, 2)), 0),
            "deadline" if status == (Status::Waiting { timed: true }) => {
                self.set_status(of, Status::Late);
                said("late")
            }
            "resolve" if status == Status::Late => self.time_out(of),
            "resolve" | "return" => self.give_back(of),
            step if status == Status::Running => self.run(step, line),
            _ => said("misfit"),
        }
    }

    fn give_back(&mut self, thread: usize) -> Told {
        let Status::Taken(token) = self.status(thread) else {
            return said("misfit");
        };
        self.set_status(thread, Status::Running);
        told_of("unparked #", token.0, 0)
    }

    // The step of a thread that runs.
    fn run(&mut self, step: &str, line: &str) -> Told {
        let (thread, key) = (number(line, 1), number(line, 2));
        match step {
            "enter" => self.enter(line),
            "acquire" => {
                add(&mut self.records, (thread, key));
                said("recorded")
            }
            "release" => {
                self.forget((thread, key));
                said("released")
            }
            "retire" => {
                for _ in 0..self.records.len() {
                    take(&mut self.records, thread);
                }
                take(&mut self.statuses, thread);
                said("retired")
            }
            _ => said("misfit"),
        }
    }

    /// Gives the number another status than `Free`.
    pub fn set_status(&mut self, number: usize, status: Status) {
        put(&mut self.statuses, number, status);
    }

    fn trim(&mut self) -> Told {
        self.size = self.size.min(self.least_size());
        said("trimmed")
    }

    fn count_records(&self, thread: usize, key: usize) -> usize {
        let mut times: usize = 0;
        for record in &self.records {
            if *record == (thread, key) {
                times = times.wrapping_add(1);
            }
        }
        times
    }

    fn register(&mut self) -> Told {
        for number in 0..self.max_threads {
            if self.status(number) == Status::Free {
                self.set_status(number, Status::Running);
                self.size = self.size.max(self.least_size());
                return told_of("number #", number, 0);
            }
        }
        said("full")
    }

    fn enter(&mut self, line: &str) -> Told {
        if word(line, 3) != "yes" {
            return said("invalid");
        }
        let thread = number(line, 1);
        add(&mut self.waiting, (thread, number(line, 2)));
        let timed = word(line, 5) == "timed";
        self.set_status(thread, Status::Waiting { timed });
        said("entered")
    }

    /// A late thread leaves its list.
    pub fn time_out(&mut self, thread: usize) -> Told {
        self.set_status(thread, Status::Running);
        let key = take(&mut self.waiting, thread).unwrap_or(0);
        if self.list(key).is_empty() {
            told_of("timed out # true", key, 0)
        } else {
            told_of("timed out # false", key, 0)
        }
    }

    // A thread that releases a key forgets its first record of it.
    fn forget(&mut self, of: (usize, usize)) {
        let before = mem::replace(&mut self.records, Vec::new(self.alloc));
        let mut is_released = false;
        for record in &before {
            if *record == of && !is_released {
                is_released = true;
            } else {
                add(&mut self.records, *record);
            }
        }
    }

    // An unpark hands its token to those whom it takes.
    fn hand_out(&mut self, line: &str) -> Told {
        let mut taken = Vec::new(self.alloc);
        let answer = self.unpark(line, &mut taken);
        let (_, _, token) = keys_and_token(line);
        for thread in &taken {
            self.set_status(*thread, Status::Taken(UnparkToken(token)));
        }
        answer
    }

    /// Takes the threads off their lists that an unpark takes, but leaves them their statuses.
    /// Those who are moved come behind the others.
    pub fn unpark(&mut self, line: &str, taken: &mut Vec<usize>) -> Told {
        let mut moved = Vec::new(self.alloc);
        let left = self.part(line, taken, &mut moved);
        for waiter in &moved {
            add(&mut self.waiting, *waiter);
        }
        let (unparked, requeued) = (taken.len(), moved.len());
        if word(line, 0) == "all" {
            told_of("count #", unparked, 0)
        } else if left == 0 || word(line, 3) == "abort" {
            told_of("unparked # requeued # more false", unparked, requeued)
        } else {
            told_of("unparked # requeued # more true", unparked, requeued)
        }
    }

    // Parts those who wait, and counts who of the list is left there.
    fn part(
        &mut self,
        line: &str,
        taken: &mut Vec<usize>,
        moved: &mut Vec<(usize, usize)>,
    ) -> usize {
        let before = mem::replace(&mut self.waiting, Vec::new(self.alloc));
        let (from, to, _) = keys_and_token(line);
        let mut left: usize = 0;
        for (thread, key) in &before {
            if *key != from {
                add(&mut self.waiting, (*thread, *key));
                continue;
            }
            let index = left.wrapping_add(taken.len()).wrapping_add(moved.len());
            match after_unpark(line, index) {
                Fate::Taken => add(taken, *thread),
                Fate::Moved => add(moved, (*thread, to)),
                Fate::Left => {
                    left = left.wrapping_add(1);
                    add(&mut self.waiting, (*thread, from));
                }
            }
        }
        left
    }
}
