//! This module has watchers, who are told how far a search has come.

/// A `Watcher` is told from time to time how far a search has come.
pub trait Watcher {
    /// Is told that the search has found this number of states, and that it takes `depth` steps
    /// from the first state to the one that the search looks at.
    fn watch(&mut self, states: usize, depth: usize);
}

/// A `Nobody` is a watcher that does nothing.
#[derive(Clone, Copy)]
pub struct Nobody;

impl Watcher for Nobody {
    fn watch(&mut self, _states: usize, _depth: usize) {}
}
