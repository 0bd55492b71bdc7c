//! What threads, words and keys are called.

use lot_litmus::code::{Instruction, KEYS, Key, THREADS, Thread, Word};
use lot_litmus::parse::{Parsed, Statement};
use lot_litmus::state::State;
use std::alloc::{AllocError, Global};

// The letters of the threads, and of the one that looks at the ends.
const LETTERS: [&str; THREADS] = ["A", "B", "C", "D", "E", "end"];

/// The letter of a thread, by which lists name it.
pub fn letter(thread: Thread) -> &'static str {
    LETTERS[thread.index()]
}

/// The name of a thread, with its number where others have the name too.
pub fn name_of(alloc: Global, parsed: &Parsed, thread: Thread) -> Result<String, AllocError> {
    match parsed.threads.get(thread.index()) {
        Some(text) if text.copies > 1 => { format!(in alloc; "{} {}", text.name, text.copy) }
        Some(text) => text.name.clone(),
        None => Ok(String::new(alloc)),
    }
}

/// How many threads the text has.
pub fn workers(parsed: &Parsed) -> u8 {
    let mut count = 0;
    for text in parsed.threads.iter().take(THREADS - 1) {
        if !text.name.is_empty() && count < THREADS as u8 {
            count += 1;
        }
    }
    count
}

/// Whether the thread is the one that looks at the ends.
pub fn is_looker(thread: Thread) -> bool {
    thread.index() == THREADS - 1
}

/// The name of a word.
pub fn word_name(parsed: &Parsed, word: Word) -> &str {
    match parsed.words.get(word.index()) {
        Some(name) => name.as_str(),
        None => "",
    }
}

/// The name of a key.
pub fn key_name(parsed: &Parsed, key: Key) -> &str {
    match parsed.keys.get(key.index()) {
        Some(name) => name.as_str(),
        None => "",
    }
}

/// The thread's instruction at this place. There is none where it has ended.
pub fn instruction_at(parsed: &Parsed, thread: Thread, at: u16) -> Option<Instruction> {
    let codes = &parsed.test.codes[..];
    codes.get(thread.index())?.at(at)
}

/// The statement from which the thread's instruction at this place comes.
pub fn statement_at(parsed: &Parsed, thread: Thread, at: u16) -> Option<&Statement> {
    let text = parsed.threads.get(thread.index())?;
    let index = text.statements.get(at as usize)?;
    parsed.statements.get(*index)
}

/// The line of the statement at which the thread is, or 0 behind its last one.
pub fn line_at(parsed: &Parsed, thread: Thread, at: u16) -> usize {
    match statement_at(parsed, thread, at) {
        Some(statement) => statement.line,
        None => 0,
    }
}

/// How many wait on the key.
pub fn count_of(state: &State, key: Key) -> u8 {
    state.queues[key.index()].len()
}

/// The key on which the thread waits, if it does.
pub fn key_of(state: &State, thread: Thread) -> Option<Key> {
    for number in 0..KEYS as u8 {
        let key = Key { number };
        if state.queues[key.index()].has(thread) {
            return Some(key);
        }
    }
    None
}
