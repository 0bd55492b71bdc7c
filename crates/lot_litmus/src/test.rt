//! This module has tests: what their threads do, and the numbers in the words at the beginning.

use crate::code::{Code, KEYS, Key, THREADS, WORDS};

/// A `Test` is the code of some threads and the words that they share. A thread without
/// instructions has ended.
#[derive(Drop)]
pub struct Test {
    /// The code of each thread.
    pub codes: [Code; THREADS],

    /// The bucket of each key. Keys with the same bucket are locked together.
    pub buckets: [Key; KEYS],

    /// The numbers in the words at the beginning.
    pub words: [u8; WORDS],
}

/// A `Fault` says what is wrong with a test, or with its protocol.
#[derive(Clone, Copy, PartialEq, Eq)]
pub enum Fault {
    /// An assertion failed.
    Assertion,

    /// Two threads were in the critical section, and at least one of them had the access `Alone`.
    Exclusion,

    /// A number was not a byte.
    Overflow,

    /// A thread did 256 local instructions in a row, and no step.
    Endless,
}
