//! This module re-exports the hash table of the lots without threads, and the greatest number of
//! threads of a lot.

pub use lot_simulator::table::{MAX_THREADS, Table, Use};
