//! This module has the tokens, results and errors that all crates of the repository share.

ghost use Rattle.std.specs.Prelude.{◌≡◌, ◌+◌, ◌↔◌, IsTrue};
ghost use Rattle.lot_base.specs.declared.token.LotError.{LotError};
ghost use Rattle.lot_base.specs.declared.token.UnparkToken.{UnparkToken};
ghost use Rattle.lot_base.specs.NodeLists.{saturated};

pub use lot_word_lock::no_memory::NoMemory;
use std::alloc::{AllocError, AllocFailed};
use thiserror::Error;

/// A `ParkResult` says how a park ended.
#[derive(Copy, Clone, Eq, PartialEq, Debug)]
pub enum ParkResult {
    /// Another thread unparked this one and gave it the token.
    Unparked(UnparkToken),

    /// `validate` returned false, so the thread did not wait.
    Invalid,

    /// The deadline passed before the thread was unparked.
    TimedOut,
}

impl ParkResult {
    /// Returns true if another thread unparked this one, and false for every other result.
    pub fn is_unparked(self) -> bool
        ensures { IsTrue result ↔ ((token : UnparkToken) × (self ≡ ParkResult.Unparked token)) }
    {
        matches!(self, ParkResult::Unparked(_))
    }
}

/// An `UnparkResult` says what an unpark or a requeue did.
///
/// The default is `(0, 0, false)`.
#[derive(Copy, Clone, Default, Eq, PartialEq, Debug)]
pub struct UnparkResult {
    /// The number of threads that were unparked.
    pub unparked_threads: usize,

    /// The number of threads that were moved to the second key, which may be the same as the first.
    pub requeued_threads: usize,

    /// Says whether waiters of the key were left in their list. Waiters that were moved do not
    /// count. It is false after an abort.
    pub have_more_threads: bool,
}

impl UnparkResult {
    /// Returns how many threads were unparked or moved, or `usize::MAX` if there were more.
    pub fn threads(&self) -> usize
        ensures { result ≡ saturated (self.now.unparked_threads + self.now.requeued_threads) }
    {
        self.unparked_threads.saturating_add(self.requeued_threads)
    }
}

/// A `RequeueOp` says what a requeue is to do.
#[derive(Copy, Clone, Eq, PartialEq, Debug)]
pub enum RequeueOp {
    /// The requeue does nothing.
    Abort,

    /// The requeue unparks the first waiter, and moves the others to the second key.
    UnparkOneRequeueRest,

    /// The requeue moves every waiter to the second key.
    RequeueAll,

    /// The requeue unparks the first waiter, and leaves the others. It moves none.
    UnparkOne,

    /// The requeue moves the first waiter to the second key, and leaves the others.
    RequeueOne,
}

/// A `FilterOp` is what a filter decides on one waiter.
#[derive(Copy, Clone, Eq, PartialEq, Debug)]
pub enum FilterOp {
    /// The waiter is unparked, and the filter goes on to the next.
    Unpark,

    /// The waiter is left, and the filter goes on to the next.
    Skip,

    /// The waiter and all behind it are left.
    Stop,
}

/// An `UnparkToken` is a number that an unpark gives to the thread that it unparks.
#[derive(Copy, Clone, Eq, PartialEq, Debug)]
pub struct UnparkToken(pub usize);

/// A `ParkToken` is a number that a park gives, and that filters see.
#[derive(Copy, Clone, Eq, PartialEq, Debug)]
pub struct ParkToken(pub usize);

/// This is the unpark token for callers that need none.
pub const DEFAULT_UNPARK_TOKEN: UnparkToken = UnparkToken(0);

/// This is the park token for callers that need none.
pub const DEFAULT_PARK_TOKEN: ParkToken = ParkToken(0);

/// A `LotError` says why a lot could not be created, or a thread could not be registered.
#[derive(Eq, PartialEq, Debug, Drop, Error)]
pub enum LotError {
    /// A table or a lot was to be created for more threads, callers or workers than it can have.
    /// Nothing was created.
    #[error("too many threads")]
    TooManyThreads,

    /// The greatest number of threads is already registered. Nothing was changed.
    #[error("no free thread number")]
    Full,

    /// There was not enough memory. Nothing was changed, unless the call says otherwise.
    #[error("no memory")]
    NoMemory,
}

impl From<AllocError> for LotError {
    ghost from_gives = { λ _ error. error ≡ LotError.NoMemory };

    fn from(_error: AllocError) -> LotError {
        LotError::NoMemory
    }
}

impl<T: Drop> From<AllocFailed<T>> for LotError {
    ghost from_gives = { λ _ error. error ≡ LotError.NoMemory };

    fn from(_error: AllocFailed<T>) -> LotError {
        LotError::NoMemory
    }
}

impl From<NoMemory> for LotError {
    ghost from_gives = { λ _ error. error ≡ LotError.NoMemory };

    fn from(_error: NoMemory) -> LotError {
        LotError::NoMemory
    }
}

/// `Misfit` means that a step is not allowed while its thread has the status that it has. Nothing
/// was changed, and no closure was called.
#[derive(Eq, PartialEq, Debug, Drop, Error)]
#[error("step does not fit")]
pub struct Misfit;

/// A `StepError` says why a step that may allocate was refused.
#[derive(Eq, PartialEq, Debug, Drop, Error)]
pub enum StepError {
    /// The step is not allowed while its thread has the status that it has. Nothing was changed.
    #[error("step does not fit")]
    Misfit,

    /// There was not enough memory. Nothing was changed, unless the call says otherwise.
    #[error("no memory")]
    NoMemory,
}
