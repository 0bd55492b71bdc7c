//! This module has steps as values, and the answers to steps.
//!
//! A step contains what its closures return. So a list of steps can be repeated.

use lot_base::token::{FilterOp, ParkToken, RequeueOp, UnparkResult, UnparkToken};

/// An `Op` is an unpark, with what its closures return.
#[derive(Debug, Drop)]
pub enum Op {
    /// The first waiter of a key is unparked.
    One {
        /// The key whose first waiter is unparked.
        key: usize,
        /// The token that the callback returns.
        token: UnparkToken,
    },

    /// Every waiter of a key is unparked.
    All {
        /// The key whose waiters are unparked.
        key: usize,
        /// The token that the waiters are given.
        token: UnparkToken,
    },

    /// A filter chooses which waiters of a key are unparked. It does not look at their park tokens.
    Filter {
        /// The key whose waiters the filter sees.
        key: usize,
        /// What the filter returns, in order. When these are used up, it returns `Skip`.
        decisions: Vec<FilterOp>,
        /// The token that the callback returns.
        token: UnparkToken,
    },

    /// Waiters of a key are unparked, or moved to another key, which may be the same.
    Requeue {
        /// The key whose waiters are unparked or moved.
        from: usize,
        /// The key to which they are moved.
        to: usize,
        /// What `validate` returns.
        op: RequeueOp,
        /// The token that the callback returns.
        token: UnparkToken,
    },
}

/// A `Step` is a step of one thread, or of the lot, with what its closures return.
#[derive(Debug, Drop)]
pub enum Step {
    /// A thread registers under the least free number.
    Register,

    /// A running thread gives its number back, and its records are cleared.
    Retire {
        /// The number of the thread.
        thread: usize,
    },

    /// A running thread parks on a key.
    Enter {
        /// The number of the thread.
        thread: usize,
        /// The key on which it parks.
        key: usize,
        /// What `validate` returns. The thread enters the list only if this is true.
        valid: bool,
        /// The token that filters see.
        park_token: ParkToken,
        /// Says whether it waits with a timeout, so that its deadline may pass.
        timed: bool,
    },

    /// Waiters are unparked in one of four ways.
    Unpark(Op),

    /// The deadline of a waiting thread passes.
    Deadline {
        /// The number of the thread.
        thread: usize,
    },

    /// A late thread leaves its list and runs again. A thread that was taken before that runs again
    /// with its token.
    Resolve {
        /// The number of the thread.
        thread: usize,
    },

    /// A thread that was taken runs again with its token.
    Return {
        /// The number of the thread.
        thread: usize,
    },

    /// A running thread records a key once more.
    Acquire {
        /// The number of the thread.
        thread: usize,
        /// The key that it records.
        key: usize,
    },

    /// A running thread records a key once less.
    Release {
        /// The number of the thread.
        thread: usize,
        /// The key that it records once less.
        key: usize,
    },

    /// The table becomes smaller, if it has more buckets than its threads need.
    Trim,
}

/// An `Answer` is what a step tells its caller.
#[derive(Copy, Clone, Eq, PartialEq, Debug)]
pub enum Answer {
    /// A thread was registered under this number.
    Registered(usize),

    /// The greatest number of threads is already registered.
    Full,

    /// There was not enough memory.
    NoMemory,

    /// The number of the thread is free.
    Retired,

    /// The thread waits.
    Entered,

    /// `validate` returned false, so the thread does not wait.
    Invalid,

    /// This is the result of `One`, `Filter` or `Requeue`.
    Unpark(UnparkResult),

    /// This is the number of threads that `All` unparked.
    Count(usize),

    /// The deadline of the thread has passed.
    Late,

    /// The wait of the thread timed out.
    TimedOut {
        /// The key on which it waited.
        key: usize,
        /// Says whether it was the last waiter of that key.
        last: bool,
    },

    /// The thread was unparked with this token.
    Unparked(UnparkToken),

    /// The thread has recorded the key once more.
    Recorded,

    /// The thread has recorded the key once less, if it had recorded it.
    Released,

    /// The table has no more buckets than its threads need.
    Trimmed,

    /// The step is not allowed while its thread has the status that it has. Nothing was changed.
    Misfit,
}
