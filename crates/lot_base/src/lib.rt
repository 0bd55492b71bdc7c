//! This crate has what every parking lot is built from: tokens and results, queues of waiting
//! threads, parkers on which threads sleep, and the buckets of the hash table.
//!
//! Most programs use these through `lot_threads`, which re-exports them. This crate re-exports the
//! word lock and `SpinWait` of the crate below.
//!
//! # Differences from upstream
//!
//! `docs/DIFFERENCES.md` maps every public item of the Rust crate to what there is here. This list
//! adds in what way they work differently.
//!
//! - The types of `token` that are no errors have upstream's names and derives.
//!   `ParkResult::is_unparked` is a `const fn` there. `UnparkResult` is `non_exhaustive` there, and
//!   has no `threads`.
//! - `place`: upstream calls it `hash`, and passes the number of bits.
//! - `Bucket`: upstream's contains its lock and does not know its place, so its `new` takes
//!   nothing. Here a lock is put around the bucket, and `BucketPlace` tells the lock which bucket
//!   it has. What `take_one`, `take_all` and `take_filter` do is in upstream's `unpark_one`,
//!   `unpark_all` and `unpark_filter`. `requeue_one` and `requeue_two` are in `unpark_requeue`,
//!   between its locks. `enter` and `remove` are in `park`, and `pop` is in `grow_hashtable`.
//!   Upstream has no `remove_timed`: a thread whose deadline has passed finds its own node.
//! - `Node` has what upstream keeps in `ThreadData`, and `Queue` is what upstream keeps in its
//!   buckets.
//! - `ParkerT`, `ThreadParkerT`: upstream's `ThreadParkerT` has unsafe calls. The data of a thread
//!   stays at its address, and a flag says who may use it. Here the node itself moves through the
//!   calls. Upstream's parkers hand nothing over beside it, so `Payload`, `ParkerKey` and `Slot`
//!   have no counterpart.
//! - `IS_CHEAP_TO_CONSTRUCT`: where this is true, upstream makes a parker for each wait; elsewhere
//!   it keeps one for each thread.
//! - `ParkerT::new`: upstream's takes nothing, allocates nothing and cannot fail.
//! - `prepare_park` sets the flag upstream, `timed_out` returns it, `park` waits until it is
//!   cleared and returns nothing, and `park_until` returns whether it was cleared.
//! - `unpark_lock`, `unpark`: upstream's `unpark_lock` takes no node. Its handle points to the
//!   parker, so `unpark` takes none, and there is no `number`. In `unix.rs` the handle keeps the
//!   parker's lock until `unpark`, which clears the flag and notifies under that lock, because the
//!   thread might end and free the parker. Here no lock is kept, and the borrow keeps the parker.
//! - `WordParker`: `ThreadParker` in upstream's `linux.rs`, over a word alone. An unpark is one
//!   store there, and always a call of the system, by which time the parker may be gone. Here a
//!   node goes through the slot, in two steps on the word, and there is no call of the system
//!   unless the owner may sleep. The owner spins before it sleeps; upstream's sleeps at once.
//!   Upstream's `park_until` does not look again at its deadline.
//! - `ThreadParker`: upstream's is in `unix.rs`, over the system's own calls, which `prepare_park`
//!   makes ready. It waits without a deadline where its system cannot represent that.
//! - `YieldParker`: `ThreadParker` in upstream's `generic.rs`, over an atomic flag and without a
//!   lock, because a flag has no room for a node. Its handle is empty, and it reads the clock after
//!   each look.
#![tactic(auto)]

pub mod bucket;
pub mod laws;
pub mod queue;
pub mod thread_parker;
pub mod token;

pub use lot_word_lock::{spinwait, word_lock};
