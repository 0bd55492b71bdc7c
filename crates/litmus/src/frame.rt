//! What a picture shows of a state: the words, the queues, and who is in the critical section.

use crate::names::letter;
use lot_litmus::code::{Access, Instruction, THREADS, Thread};
use lot_litmus::parse::Parsed;
use lot_litmus::queue::Queue;
use lot_litmus::state::State;
use std::alloc::{AllocError, Global};

/// What is shown of a state, one text for each column.
#[derive(Drop)]
pub struct Frame {
    pub texts: Vec<String>,
}

impl Frame {
    /// What stands above the columns.
    pub fn heads(alloc: Global, parsed: &Parsed) -> Result<Frame, AllocError> {
        let mut texts = Vec::new(alloc);
        for name in &parsed.words {
            texts.push(name.clone()?)?;
        }
        for name in &parsed.keys {
            texts.push(name.clone()?)?;
        }
        if has_section(parsed) {
            texts.push(String::from_str(alloc, "inside")?)?;
        }
        Ok(Frame { texts })
    }

    /// What is shown of this state.
    pub fn of(alloc: Global, parsed: &Parsed, state: &State) -> Result<Frame, AllocError> {
        let mut texts = Vec::new(alloc);
        for (word, _) in state.words.iter().zip(parsed.words.iter()) {
            texts.push(format!(in alloc; "{word}")?)?;
        }
        for (queue, _) in state.queues.iter().zip(parsed.keys.iter()) {
            texts.push(waiters(alloc, queue)?)?;
        }
        if has_section(parsed) {
            texts.push(insiders(alloc, state)?)?;
        }
        Ok(Frame { texts })
    }

    /// The text of a column.
    pub fn text(&self, column: usize) -> &str {
        match self.texts.get(column) {
            Some(text) => text.as_str(),
            None => "",
        }
    }
}

// Whether a thread enters the critical section.
fn has_section(parsed: &Parsed) -> bool {
    let codes = &parsed.test.codes[..];
    for code in codes {
        for instruction in &code.instructions {
            if let Instruction::Enter { .. } = instruction {
                return true;
            }
        }
    }
    false
}

// Those who wait, in order.
fn waiters(alloc: Global, queue: &Queue) -> Result<String, AllocError> {
    let mut text = String::new(alloc);
    for index in 0..queue.len() {
        push_letter(&mut text, queue.entry(index).thread)?;
    }
    dash_if_empty(text)
}

// Those who are in the critical section. Who shares it has a mark.
fn insiders(alloc: Global, state: &State) -> Result<String, AllocError> {
    let mut text = String::new(alloc);
    for number in 0..THREADS as u8 {
        let thread = Thread { number };
        match state.threads[thread.index()].inside {
            Some(Access::Alone) => push_letter(&mut text, thread)?,
            Some(Access::Shared) => {
                push_letter(&mut text, thread)?;
                text.push_str("+")?;
            }
            None => {}
        }
    }
    dash_if_empty(text)
}

fn push_letter(text: &mut String, thread: Thread) -> Result<(), AllocError> {
    if !text.is_empty() {
        text.push_str(" ")?;
    }
    text.push_str(letter(thread))
}

fn dash_if_empty(mut text: String) -> Result<String, AllocError> {
    if text.is_empty() {
        text.push_str("-")?;
    }
    Ok(text)
}
