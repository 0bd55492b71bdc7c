//! The interleaved machine of docs/THEOREMS.md, as slow and plain as it is told there. The threads'
//! view is the plain machine with one list for each key.
//!
//! It knows no bucket and no node, and of a table only its size.

use super::exclusive::{Plain, keys_and_token};
use super::pairs::{add, beside, put, take};
use crate::told::{Told, said, say, told_of};
use crate::words::{behind, is_one_of, number, word};
use lot_base::token::UnparkToken;
use lot_machine::status::Status;
use std::alloc::Global;

/// The plain interleaved machine, and the sequential steps of all that was done, with their
/// answers. A number has no pair in a list, or one, but that a caller may have several.
#[derive(Drop)]
pub struct FinePlain {
    alloc: Global,
    pub view: Plain,
    callers: usize,

    // Threads, each with its key word, and late ones, each with the key that it has read.
    key_words: Vec<(usize, usize)>,
    keys_read: Vec<(usize, usize)>,

    // Callers, each with a place that its section holds, and with a thread that its section has,
    // whose token stands beside that.
    held: Vec<(usize, usize)>,
    taken: Vec<(usize, usize)>,
    tokens: Vec<(usize, usize)>,

    // Threads, each with the token in its slot, and callers, each with a thread to wake.
    slots: Vec<(usize, usize)>,
    wakes: Vec<(usize, usize)>,

    pub steps: String,
    pub answers: String,
}

// The place of a key in a table of this many buckets.
fn place(key: usize, size: usize) -> usize {
    let product = key.wrapping_mul(0x9E37_79B9_7F4A_7C15);
    let width = usize::MAX.checked_div(size).unwrap_or(0).wrapping_add(1);
    product.checked_div(width).unwrap_or(0)
}

impl FinePlain {
    /// A machine for so many threads and callers, with no registered thread and no open section.
    pub fn new(alloc: Global, threads: usize, callers: usize) -> FinePlain {
        FinePlain {
            alloc,
            view: Plain::new(alloc, threads),
            callers,
            key_words: Vec::new(alloc),
            keys_read: Vec::new(alloc),
            held: Vec::new(alloc),
            taken: Vec::new(alloc),
            tokens: Vec::new(alloc),
            slots: Vec::new(alloc),
            wakes: Vec::new(alloc),
            steps: String::new(alloc),
            answers: String::new(alloc),
        }
    }

    /// Does the step by its rule, writes the answer, and notes the sequential step; or answers a
    /// question.
    pub fn answer(&mut self, line: &str, text: &mut String) {
        match word(line, 0) {
            "list" => self.view.answer(line, text),
            "steps" => self.write_steps(text),
            _ => {
                let answer = self.step(line);
                answer.write(text);
                self.note_sequential(line, answer);
            }
        }
    }

    fn step(&mut self, line: &str) -> Told {
        let of = number(line, 1);
        match word(line, 0) {
            "begin" => self.begin(of, behind(behind(line))),
            "commit" => self.commit(of),
            "end" => self.end(of),
            "wake" => said(if take(&mut self.wakes, of).is_some() {
                "woken"
            } else {
                "misfit"
            }),
            "enter" => self.enter(line),
            "read" => self.read(of),
            "look" => self.look(of),
            "register" | "trim" if self.is_blocked(line) => said("blocked"),
            "deadline" | "return" => self.end_park(line),
            _ => self.view.step(line),
        }
    }

    // A thread's deadline passes, or it returns. In the threads' view nobody is taken, so what
    // returns there does not fit.
    fn end_park(&mut self, line: &str) -> Told {
        let thread = number(line, 1);
        if beside(self.slots.as_slice(), thread).is_none() {
            return self.view.step(line);
        }
        if word(line, 0) == "deadline" || self.view.status(thread) == Status::Late {
            return said("misfit");
        }
        self.take_slot(thread)
    }

    fn enter(&mut self, line: &str) -> Told {
        let (of, key) = (number(line, 1), number(line, 2));
        if self.view.status(of) == Status::Running && self.is_held(key) {
            return said("blocked");
        }
        let answer = self.view.step(line);
        if answer.form == "entered" {
            put(&mut self.key_words, of, key);
        }
        answer
    }

    // A late thread reads its key word.
    fn read(&mut self, thread: usize) -> Told {
        if self.view.status(thread) != Status::Late {
            return said("misfit");
        }
        let key = beside(self.key_words.as_slice(), thread).unwrap_or(0);
        put(&mut self.keys_read, thread, key);
        told_of("read #", key, 0)
    }

    fn is_held(&self, key: usize) -> bool {
        let place = place(key, self.view.size);
        for (_, held) in &self.held {
            if *held == place {
                return true;
            }
        }
        false
    }

    // Whether the table is to change its size and a section holds a bucket.
    fn is_blocked(&self, step: &str) -> bool {
        let registered = self.view.statuses.len();
        let needed = registered.wrapping_add(1).wrapping_mul(3);
        let is_changed = if step == "trim" {
            self.view.least_size() < self.view.size
        } else {
            registered != self.view.max_threads && self.view.size < needed
        };
        is_changed && !self.held.is_empty()
    }

    fn begin(&mut self, caller: usize, op: &str) -> Told {
        let (from, to, _) = keys_and_token(op);
        let has_section = beside(self.held.as_slice(), caller).is_some();
        let is_to_wake = beside(self.wakes.as_slice(), caller).is_some();
        if caller >= self.callers || has_section || is_to_wake {
            return said("misfit");
        }
        if self.is_held(from) || self.is_held(to) {
            return said("blocked");
        }
        add(&mut self.held, (caller, place(from, self.view.size)));
        add(&mut self.held, (caller, place(to, self.view.size)));
        self.unpark(caller, op)
    }

    // The section has those whom the machine's step takes, who go on to wait in the threads' view.
    fn unpark(&mut self, caller: usize, op: &str) -> Told {
        let mut taken = Vec::new(self.alloc);
        let answer = self.view.unpark(op, &mut taken);
        let (_, to, token) = keys_and_token(op);
        for thread in &taken {
            add(&mut self.taken, (caller, *thread));
            add(&mut self.tokens, (*thread, token));
        }
        for thread in &self.view.list(to) {
            put(&mut self.key_words, *thread, to);
        }
        answer
    }

    // The first thread that the section has gets its node, with its token.
    fn commit(&mut self, caller: usize) -> Told {
        let Some(first) = take(&mut self.taken, caller) else {
            return said("misfit");
        };
        let token = take(&mut self.tokens, first).unwrap_or(0);
        add(&mut self.slots, (first, token));
        add(&mut self.wakes, (caller, first));
        told_of("committed #", first, 0)
    }

    // Ends a section that has nobody left.
    fn end(&mut self, caller: usize) -> Told {
        if beside(self.taken.as_slice(), caller).is_some() {
            return said("misfit");
        }
        let first = take(&mut self.held, caller);
        take(&mut self.held, caller);
        said(if first.is_some() { "ended" } else { "misfit" })
    }

    // The thread takes its node, with the token, and runs.
    fn take_slot(&mut self, thread: usize) -> Told {
        let token = take(&mut self.slots, thread).unwrap_or(0);
        self.view.set_status(thread, Status::Running);
        told_of("unparked #", token, 0)
    }

    fn look(&mut self, thread: usize) -> Told {
        let Some(key) = beside(self.keys_read.as_slice(), thread) else {
            return said("misfit");
        };
        if self.is_held(key) {
            return said("blocked");
        }
        take(&mut self.keys_read, thread);
        if beside(self.key_words.as_slice(), thread) != Some(key) {
            return said("retry");
        }
        if beside(self.slots.as_slice(), thread).is_some() {
            return self.take_slot(thread);
        }
        self.view.time_out(thread)
    }

    // The token of a thread that an open section has, or whose slot is full. Such a thread is taken
    // in the sequential view.
    fn token(&self, thread: usize) -> Option<usize> {
        match beside(self.slots.as_slice(), thread) {
            Some(token) => Some(token),
            None => beside(self.tokens.as_slice(), thread),
        }
    }

    /// Writes the sequential steps of all that was done.
    pub fn write_steps(&self, text: &mut String) {
        say(text, "told");
        for step in self.steps.lines() {
            say(text, " ");
            say(text, step);
            say(text, ";");
        }
    }

    /// The view becomes the sequential one.
    pub fn go_over(&mut self) {
        for thread in 0..self.view.max_threads {
            if let Some(token) = self.token(thread) {
                self.view
                    .set_status(thread, Status::Taken(UnparkToken(token)));
            }
        }
    }

    // Notes the sequential step of a step that was answered so, if there is one.
    fn note_sequential(&mut self, line: &str, answer: Told) {
        if !self.is_sequential(line, answer.form) {
            return;
        }
        let (step, operands) = sequential(line, answer.form);
        say(&mut self.steps, step);
        say(&mut self.steps, operands);
        say(&mut self.steps, "\n");
        answer.write(&mut self.answers);
        say(&mut self.answers, "\n");
    }

    // Whether a step that was answered so has a sequential one. What did not fit or has to be done
    // again has none, nor has a deadline of a thread that is taken.
    fn is_sequential(&self, line: &str, form: &str) -> bool {
        let step = word(line, 0);
        if step == "deadline" && self.token(number(line, 1)).is_some() {
            return false;
        }
        !is_one_of(form, "misfit blocked retry") && !is_one_of(step, "commit end wake read size")
    }
}

// The word of the sequential step, and what stands behind it.
fn sequential<'l>(line: &'l str, form: &str) -> (&'static str, &'l str) {
    match word(line, 0) {
        "begin" => ("", behind(behind(line))),
        "look" if form.starts_with("timed") => ("resolve ", behind(line)),
        "look" => ("return ", behind(line)),
        _ => ("", line),
    }
}
