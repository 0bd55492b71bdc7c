//! This module has the events of which a history consists.

use lot_machine::step::{Answer, Step};

/// An `Event` is a step of a lot with its answer, and the witness that added it to the history.
///
/// No value of it is ever created. Only proofs speak of it.
pub struct Event {
    /// The number of the witness that added it.
    pub by: u64,

    /// The step, with what its closures returned.
    pub step: Step,

    /// The answer to the step.
    pub answer: Answer,
}
