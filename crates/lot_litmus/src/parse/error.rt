//! This module has the errors of a text.

use std::alloc::{AllocError, AllocFailed};
use thiserror::Error;

/// A `ParseError` says why no test could be made from a text.
#[derive(Debug, Drop, Error)]
pub enum ParseError {
    /// The text is wrong at this place. Lines and columns count from 1.
    #[error("line {line}, column {column}: {problem}")]
    At {
        line: usize,
        column: usize,
        problem: Problem,
    },

    /// A number was given for a name that no `let` line has.
    #[error("no `let` names \"{name}\"")]
    NoSuchNumber {
        name: String,
    },

    /// There was not enough memory.
    #[error("no memory")]
    NoMemory,
}

/// A `Problem` says what is wrong at a place.
#[derive(Debug, Drop, Error)]
pub enum Problem {
    /// Something else was expected than what was found, which is quoted.
    #[error("expected {expected}, found {found}")]
    Expected {
        expected: &'static str,
        found: String,
    },

    /// Nothing has this name.
    #[error("nothing here has the name \"{name}\"")]
    Unknown {
        name: String,
    },

    /// Something has this name already.
    #[error("\"{name}\" means something already")]
    Taken {
        name: String,
    },

    /// No word, number or sign begins with this character.
    #[error("no word, number or sign begins with {character}")]
    Character {
        character: String,
    },

    /// A number is not a byte.
    #[error("a number is from 0 to 255")]
    NotAByte,

    /// There are too many of something.
    #[error("more than {most} {what}")]
    TooMany {
        most: usize,
        what: &'static str,
    },

    /// A brace is not closed.
    #[error("no `}}` closes this")]
    Unclosed,

    /// A macro is called with the wrong number of arguments.
    #[error("the macro takes {wanted} arguments and is given {given}")]
    Arguments {
        wanted: usize,
        given: usize,
    },

    /// A statement breaks this rule about where it may be.
    #[error("{rule}")]
    Misplaced {
        rule: &'static str,
    },
}

impl From<AllocError> for ParseError {
    fn from(_error: AllocError) -> ParseError {
        ParseError::NoMemory
    }
}

impl<T: Drop> From<AllocFailed<T>> for ParseError {
    fn from(_error: AllocFailed<T>) -> ParseError {
        ParseError::NoMemory
    }
}
