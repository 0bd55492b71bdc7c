//! This module has the state of a test. It is small and `Copy`, because a search keeps many.

use crate::code::{Access, KEYS, LOCALS, THREADS, Timing, WORDS};
use crate::queue::Queue;

/// A `Standing` says what a thread is doing in the lot.
#[derive(Clone, Copy, PartialEq, Eq)]
pub enum Standing {
    /// It runs.
    Running,

    /// It waits in a queue.
    Waiting(Timing),

    /// It waits in a queue, and its deadline has passed.
    Late,

    /// It was unparked with this token.
    Taken(u8),
}

/// A `Progress` says how far a thread has come.
#[derive(Clone, Copy)]
pub struct Progress {
    /// The place in its code.
    pub at: u16,

    /// The numbers in its locals.
    pub locals: [u8; LOCALS],

    /// The buckets that it has locked.
    pub locked: [bool; KEYS],

    /// Its access to the critical section, or `None` if it is outside.
    pub inside: Option<Access>,
}

/// A `State` is a state of a test.
#[derive(Clone, Copy)]
pub struct State {
    /// The numbers in the words.
    pub words: [u8; WORDS],

    /// How far each thread has come.
    pub threads: [Progress; THREADS],

    /// What each thread is doing in the lot.
    pub standings: [Standing; THREADS],

    /// The queue of each key.
    pub queues: [Queue; KEYS],
}
