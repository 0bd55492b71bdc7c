//! This module has what `parse` makes of a text.

use crate::code::{Code, Key};
use crate::test::Test;

/// A `Parsed` is a test, with the names and lines of its text.
#[derive(Drop)]
pub struct Parsed {
    pub name: String,
    pub test: Test,

    /// The numbers of the `let` lines, as they were when the test was made.
    pub numbers: Vec<NamedNumber>,

    /// The names of the words and of the keys, in the order of their numbers.
    pub words: Vec<String>,
    pub keys: Vec<String>,

    /// The statements of the text, in the order in which they were read.
    pub statements: Vec<Statement>,

    /// The threads, in the order of their numbers. The last one checks `forall` and `never` after
    /// the others have ended. In front of it there may be threads without a name, which do nothing.
    pub threads: Vec<ThreadText>,

    /// One looker for each `exists`.
    pub lookers: Vec<Looker>,

    /// What the `expect` lines say.
    pub expectations: Vec<Expectation>,
}

/// A `NamedNumber` is the number of a `let` line.
#[derive(Drop)]
pub struct NamedNumber {
    pub name: String,
    pub number: u8,
}

/// A `Statement` is a statement of the text, and its place.
#[derive(Drop)]
pub struct Statement {
    /// Its line, which counts from 1, and the column at which it begins.
    pub line: usize,
    pub column: usize,

    /// Its text, without its blocks.
    pub text: String,
}

/// A `ThreadText` has the names and lines of a thread.
#[derive(Drop)]
pub struct ThreadText {
    pub name: String,

    /// Its number among the threads of this name, and how many of these there are.
    pub copy: u8,
    pub copies: u8,

    /// For each of its instructions, the index of the statement from which the instruction was
    /// made.
    pub statements: Vec<usize>,

    /// The names of its locals, in the order of their numbers. A local without a name has "".
    pub locals: Vec<String>,
}

/// A `Looker` is the code of a thread that checks an `exists`.
///
/// If this code replaces that of the last thread of the test, its assertion fails after all other
/// threads have ended in a way for which the `exists` holds.
#[derive(Drop)]
pub struct Looker {
    pub code: Code,

    /// The index of the statement.
    pub statement: usize,
}

/// An `Expectation` is what an `expect` line says about the test.
#[derive(Drop)]
pub struct Expectation {
    /// Its line, which counts from 1.
    pub line: usize,
    pub verdict: Verdict,

    /// The values of a number by name for which the verdict is expected. If it is `None`, the
    /// verdict is expected once, with the numbers as they are.
    pub sizes: Option<Sizes>,
}

/// A `Verdict` is the expected result of a search.
#[derive(Drop)]
pub enum Verdict {
    Safe,

    /// Some thread waits for ever. If the line names a thread and a key, it is this one.
    Stuck(Option<Sleeper>),

    /// There is a fault, at this line if the text names one.
    Fails(Option<usize>),
}

/// A `Sleeper` is a thread that waits on a key.
#[derive(Drop)]
pub struct Sleeper {
    /// The name of the thread, or of several threads, one of which waits.
    pub thread: String,
    pub key: Key,
}

/// A `Sizes` has the values of a number by name.
#[derive(Drop)]
pub struct Sizes {
    pub name: String,
    pub values: Vec<u8>,
}
