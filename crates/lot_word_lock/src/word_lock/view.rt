//! This module has what the proofs know of one caller of a word lock.

use std::collections::LinkedList;

/// A `View` is what a caller of a word lock may rely on, and what others rely on it for.
///
/// No value of it is ever created. Only proofs speak of it.
pub enum View {
    /// The caller neither holds the lock nor waits in the list.
    Trying {
        /// Says whether it knows that it was removed from the list, and has neither had the lock
        /// nor entered the list since.
        told: bool,

        /// Its place, or 0 if it has none.
        place: u64,

        /// What the link of its place says.
        link: u64,
    },

    /// The caller has entered the list, and has not read 0 in its link since.
    Enqueued {
        /// Its place.
        place: u64,
    },

    /// The caller holds the lock.
    Holding {
        /// The oldest places of the list, as far as the caller has seen them, newest first.
        seen: LinkedList<u64>,

        /// The places that the caller has removed from the list.
        removed: LinkedList<u64>,
    },

    /// The caller has released the lock.
    Leaving {
        /// The places that it removed, and whose callers it still has to tell.
        owed: LinkedList<u64>,
    },
}
