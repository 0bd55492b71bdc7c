//! How far a history goes.

/// The bounds of a history: those of the lot that it is of.
#[derive(Drop)]
pub struct Bounds {
    /// The greatest number of threads.
    pub max_threads: usize,

    /// The keys below this one have titles.
    pub limit: usize,
}
