//! This module has the causes for which a script stops.

ghost use Rattle.std.specs.Prelude.{◌≡◌};
ghost use Rattle.lot_script.specs.declared.script.fault.Cause.{Cause};

use std::alloc::{AllocError, AllocFailed};
use thiserror::Error;

/// A `Cause` says what was wrong with a line.
#[derive(Eq, PartialEq, Debug, Drop, Error)]
pub enum Cause {
    /// The line is none of those that are allowed there, or it is longer than 4,096 bytes, or there
    /// is no line at all.
    #[error("bad step")]
    BadStep,

    /// The first line asks for a lot of more threads than a lot can have.
    #[error("too many threads")]
    TooManyThreads,

    /// There was not enough memory for the lot, a line, the decisions of a filter, or the buffers
    /// of `buffered_script`.
    #[error("no memory")]
    NoMemory,

    /// The line could not be read.
    #[error("read failed")]
    ReadFailed,

    /// The answer could not be written, because the writer returned an error or took no byte, or
    /// the writer could not be flushed. It is flushed after the last line, and by `buffered_script`
    /// also before a read.
    #[error("write failed")]
    WriteFailed,
}

impl From<AllocError> for Cause {
    ghost from_gives = { λ _ cause. cause ≡ Cause.NoMemory };

    fn from(_error: AllocError) -> Cause {
        Cause::NoMemory
    }
}

impl<T: Drop> From<AllocFailed<T>> for Cause {
    ghost from_gives = { λ _ cause. cause ≡ Cause.NoMemory };

    fn from(_error: AllocFailed<T>) -> Cause {
        Cause::NoMemory
    }
}

/// A `Fault` is the line at which a script stopped, and the cause.
#[derive(Eq, PartialEq, Debug, Drop, Error)]
#[error("line {line}: {cause}")]
pub struct Fault {
    /// The number of the line, counted from 1.
    pub line: usize,

    /// What was wrong with the line.
    pub cause: Cause,
}
