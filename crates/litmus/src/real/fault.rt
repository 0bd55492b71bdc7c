//! Why a test could not be run.

use crate::grade::Grade;
use std::alloc::{AllocError, AllocFailed};
use std::{fmt, io};

/// Why a test could not be run to the end.
#[derive(Drop)]
pub enum RunError {
    /// Memory was refused.
    NoMemory,

    /// No thread could be started, or it could not register.
    NoThread,

    /// The test has too many states, so nothing is foreseen.
    TooManyStates,

    /// A thread was not woken, though all were unparked.
    Lost,

    /// The lot said what is not so.
    Disagrees(&'static str),

    /// Nothing could be printed, or the clock could not be read.
    Output(io::Error),
}

impl RunError {
    /// How the run went.
    pub fn grade(&self) -> Grade {
        match self {
            RunError::TooManyStates | RunError::Lost | RunError::Disagrees(_) => Grade::Unexpected,
            RunError::NoMemory | RunError::NoThread | RunError::Output(_) => Grade::Unusable,
        }
    }
}

impl fmt::Display for RunError {
    fn fmt<W: fmt::Write>(&self, f: &mut fmt::Formatter<W>) -> fmt::Result {
        match self {
            RunError::NoMemory => write!(f, "there is no memory"),
            RunError::NoThread => write!(f, "a thread could not be started"),
            RunError::TooManyStates => write!(f, "the test has too many states to be searched"),
            RunError::Lost => write!(f, "a fault of the lot: it does not wake a thread"),
            RunError::Disagrees(what) => write!(f, "a fault of the lot: it is wrong about {what}"),
            RunError::Output(error) => write!(f, "{error}"),
        }
    }
}

impl From<AllocError> for RunError {
    fn from(_error: AllocError) -> RunError {
        RunError::NoMemory
    }
}

impl<T: Drop> From<AllocFailed<T>> for RunError {
    fn from(_error: AllocFailed<T>) -> RunError {
        RunError::NoMemory
    }
}

impl From<io::Error> for RunError {
    fn from(error: io::Error) -> RunError {
        RunError::Output(error)
    }
}
