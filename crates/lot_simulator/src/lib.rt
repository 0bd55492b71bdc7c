//! This crate has parking lots without threads, for simulators and schedulers.
//!
//! One caller takes every step of every thread. The `lot` is the exclusive lot, whose steps are
//! whole calls. In `interleaved` the calls of threads are cut into parts. `fair` has a fair mutex
//! on an exclusive lot, and `record` and `recording_lot` keep a journal of what was done.
//!
//! # Differences from upstream
//!
//! Upstream has no lot without threads. These items do what parts of it do:
//!
//! - `Lot`: upstream's `park` is `enter`, and after the sleep `resolve`, or `give_back` for a
//!   thread that was unparked. It registers a thread at its first park, and the end of the thread
//!   retires it. The four unparks have upstream's names. `unpark_chosen` has no counterpart,
//!   because upstream's `unpark_filter` takes any closure. `acquire` and `release` are
//!   `acquire_resource` and `release_resource` of upstream's `deadlock`, which act for the thread
//!   that runs.
//! - `Table`: upstream has its buckets in a `HashTable` and counts its threads in `NUM_THREADS`.
//!   Both are static. There are no thread numbers, because a thread is in a queue by the address of
//!   its data, and there is no greatest number of threads. The first table has 16 buckets there
//!   too. Upstream counts a new thread first, and then its `grow_hashtable` locks all buckets until
//!   the new table is published. Its table never becomes smaller, so there is no `trim`, and the
//!   end of a thread only lowers the count.
//! - `Thread` has parts of upstream's `ThreadData`.
//! - `FineLot`, `FairCore`, `Record` and `RecordingLot` have no counterpart.
#![tactic(auto)]

pub mod fair;
pub mod interleaved;
pub mod laws;
pub mod lot;
pub mod record;
pub mod recording_lot;
pub mod schedule;
pub mod table;
