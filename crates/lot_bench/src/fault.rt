//! Why a task failed.

use lot_threads::{LotError, Misfit, NoMemory, StepError};
use std::alloc::{AllocError, AllocFailed};
use std::io;

/// Why it failed.
#[derive(Drop)]
pub enum Fault {
    /// The words are none that the program knows.
    UnknownWords,

    /// Memory was refused.
    NoMemory,

    /// This was not as it should be.
    Wrong(Wrong),
}

/// What was not as it should be.
// A text in its place would put a reference into each result, and each `?` would take half as long
// again to prove.
#[derive(Clone, Copy)]
pub enum Wrong {
    Row,
    Host,
    TooManyThreads,
    Misfit,
    UnknownScenario,
    EmptyScenario,
    NobodyRegistered,
    OneWaiter,
    NextNumber,
    Requeue,
    Journal,
    Park,
    ManyParks,
    LoneWaits,
    Growth,
    RaceList,
    RaceTokens,
    RaceRefusal,
    NestedParks,
    OtherAnswer,
    WordLock,
    Locks,
    TitledMutex,
    TitledRwLock,
    TitledSemaphore,
    Line,
    Meeting,
}

impl Wrong {
    /// Returns what is told of it.
    pub fn text(self) -> &'static str {
        match self {
            Wrong::Row => "the row failed",
            Wrong::Host => "no output, no clock or no arguments",
            Wrong::TooManyThreads => "too many threads",
            Wrong::Misfit => "a step that does not fit",
            Wrong::UnknownScenario => "no scenario of this name",
            Wrong::EmptyScenario => "a scenario that makes nothing",
            Wrong::NobodyRegistered => "nobody who is registered",
            Wrong::OneWaiter => "a list of one who waits, or its token",
            Wrong::NextNumber => "the number after a registration",
            Wrong::Requeue => "how many threads were requeued",
            Wrong::Journal => "how many steps were journalled",
            Wrong::Park => "the end of a park",
            Wrong::ManyParks => "how the parks of many threads ended",
            Wrong::LoneWaits => "how the waits over a parker ended",
            Wrong::Growth => "how many threads came through a growth",
            Wrong::RaceList => "a list after the race",
            Wrong::RaceTokens => "the tokens that were told, beside those handed out",
            Wrong::RaceRefusal => "a call that was refused in a race",
            Wrong::NestedParks => "how parks ended",
            Wrong::OtherAnswer => "a call that the exclusive lot answers otherwise",
            Wrong::WordLock => "the count of the threads that locked",
            Wrong::Locks => "what the locks are around",
            Wrong::TitledMutex => "what a titled mutex is around",
            Wrong::TitledRwLock => "what a titled read-write lock is around",
            Wrong::TitledSemaphore => "the permits of a titled semaphore",
            Wrong::Line => "what was passed on",
            Wrong::Meeting => "a meeting",
        }
    }
}

impl From<io::Error> for Fault {
    fn from(_error: io::Error) -> Fault {
        Fault::Wrong(Wrong::Host)
    }
}

impl From<AllocError> for Fault {
    fn from(_error: AllocError) -> Fault {
        Fault::NoMemory
    }
}

impl<T: Drop> From<AllocFailed<T>> for Fault {
    fn from(_error: AllocFailed<T>) -> Fault {
        Fault::NoMemory
    }
}

impl From<NoMemory> for Fault {
    fn from(_error: NoMemory) -> Fault {
        Fault::NoMemory
    }
}

impl From<LotError> for Fault {
    fn from(error: LotError) -> Fault {
        match error {
            LotError::NoMemory => Fault::NoMemory,
            LotError::Full | LotError::TooManyThreads => Fault::Wrong(Wrong::TooManyThreads),
        }
    }
}

impl From<Misfit> for Fault {
    fn from(_error: Misfit) -> Fault {
        Fault::Wrong(Wrong::Misfit)
    }
}

impl From<StepError> for Fault {
    fn from(error: StepError) -> Fault {
        match error {
            StepError::NoMemory => Fault::NoMemory,
            StepError::Misfit => Fault::Wrong(Wrong::Misfit),
        }
    }
}
