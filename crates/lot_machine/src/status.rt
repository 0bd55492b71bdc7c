//! This module says what a thread number is doing.

use lot_base::token::UnparkToken;

/// A `Status` is what the machine knows of a thread number.
#[derive(Copy, Clone, Eq, PartialEq, Debug)]
pub enum Status {
    /// The number is not registered. No step of that number is allowed.
    Free,

    /// The thread runs, so it may enter a list.
    Running,

    /// The thread waits in the list of a key.
    Waiting {
        /// Says whether it waits with a timeout.
        timed: bool,
    },

    /// The deadline of the thread has passed, and it is still in the list of a key.
    Late,

    /// The thread was taken out of its list and given this token, and has not gone on yet.
    Taken(UnparkToken),
}
