//! This module has the error that says that there was not enough memory.

use std::alloc::{AllocError, AllocFailed};
use thiserror::Error;

/// `NoMemory` means that a request for memory was refused. Nothing was changed, unless the call
/// says otherwise.
#[derive(Eq, PartialEq, Debug, Drop, Error)]
#[error("no memory")]
pub struct NoMemory;

impl From<AllocError> for NoMemory {
    fn from(_error: AllocError) -> NoMemory {
        NoMemory
    }
}

impl<T: Drop> From<AllocFailed<T>> for NoMemory {
    fn from(_error: AllocFailed<T>) -> NoMemory {
        NoMemory
    }
}
