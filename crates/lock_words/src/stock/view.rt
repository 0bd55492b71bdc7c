//! This module has what the proofs know of one thread at a stock.

use std::collections::LinkedList;

/// A `View` is what a thread may rely on, and what others rely on it for.
///
/// No value of it is ever created. Only proofs speak of it.
pub struct View {
    /// How many permits the thread holds.
    pub holds: u64,

    /// The number as which the thread waits, from when it first entered the queue until it gives
    /// that up.
    pub waits: Option<u64>,

    /// The numbers that the title told when the thread took it, if the title is out with it.
    pub carries: Option<LinkedList<u64>>,

    /// How many permits were free when the thread took the title, if the title is out with it.
    pub aside: u64,
}
