//! A walk of a protocol, step by step.

use crate::note::Taken;
use crate::walk::Walk;
use lot_litmus::parse::Parsed;

/// A protocol, and a walk of it.
#[derive(Clone, Copy)]
pub struct Scene<'a> {
    pub parsed: &'a Parsed,
    pub walk: &'a Walk,
}

impl<'a> Scene<'a> {
    /// The step with this index.
    pub fn taken(&self, index: usize) -> Option<Taken<'a>> {
        Some(Taken {
            parsed: self.parsed,
            thread: *self.walk.steps.get(index)?,
            before: self.walk.state(index)?,
            behind: self.walk.state(index.saturating_add(1)),
        })
    }
}
