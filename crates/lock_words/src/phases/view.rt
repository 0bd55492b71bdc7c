//! This module has what the proofs know of one thread at a word with phases.

use std::collections::LinkedList;

/// A `View` is what a thread may rely on, and what others rely on it for.
///
/// No value of it is ever created. Only proofs speak of it.
pub struct View {
    /// The number as which the thread waits, from when it first entered the queue until it knows
    /// that the phase is over.
    pub waits: Option<u64>,

    /// The phase that the thread found or began last. If it waits, it does so for the end of this.
    pub phase: u64,

    /// 1 if the thread leads the phase, so that no other thread can end it, and else 0.
    pub leads: u64,

    /// The numbers that the title told when the thread took it, if the title is out with it.
    pub carries: Option<LinkedList<u64>>,
}
