//! This crate has a parking lot for real threads: it keeps queues of waiting threads by key, from
//! which you can build mutexes, condition variables and schedulers.
//!
//! For example, this registered thread sleeps on a key until another thread unparks it:
//!
//! ```
//! /// Parks on the key until another thread unparks this one.
//! pub fn wait<P: ThreadParkerT, R: Wait + Clock>(
//!     rt: &R,
//!     member: &mut Member<'_, P>,
//!     key: usize,
//! ) -> ParkResult {
//!     member.park(rt, key, || true, || (), |_, _| (), DEFAULT_PARK_TOKEN, None)
//! }
//! ```
//!
//! It is proved that all calls of a lot, by all its threads, make one history. A history is a run,
//! from the beginning, of the machine with one list of waiters for each key.
//!
//! # Differences from upstream
//!
//! `docs/DIFFERENCES.md` maps every public item of the Rust crate to what there is here. This list
//! adds in what way they work differently.
//!
//! - `ParkingLot`: upstream has one lot for the process, in statics, whose table never becomes
//!   smaller.
//! - `ThreadData`: upstream keeps it in a thread local. It registers a thread when this data is
//!   first used, and deregisters it when the thread ends. Threads have no numbers there, and their
//!   records are private.
//! - `park`: upstream finds the lot and the thread's data by itself. It is unsafe there to use a
//!   key to which the caller has no right; here it is only unwise.
//! - `unpark_all`, `unpark_filter`: upstream allocates to keep the handles of more than eight
//!   threads. Here `unpark_chosen` is a second form of `unpark_filter`.
//! - `acquire_resource`, `release_resource`: upstream's do nothing without a feature, and cannot
//!   fail.
//! - `WordParker`, `ThreadParker`, `YieldParker`: they are upstream's `ThreadParker` of `linux.rs`,
//!   `unix.rs` and `generic.rs`. Upstream's parkers hand nothing over, so `Letter` has no
//!   counterpart.
//! - `Member`, `Visitor`, `CriticalSection`, `TitledLot` with its sections and titles, and the
//!   calls whose names end in `_within` have no counterpart. Only upstream's documentation says
//!   which closures run while a queue is locked.
#![tactic(auto)]

mod cell;
mod cell_steps;
pub mod critical_section;
pub mod deadlock;
mod dealer;
mod halves;
pub mod history_laws;
pub mod member;
mod numbered_nodes;
pub mod parker;
pub mod parking_lot;
mod registry;
mod section;
mod shared_lot;
pub mod title;
pub mod titled_lot;
pub mod titled_section;
mod titled_steps;
mod told;
pub mod visitor;

pub use critical_section::CriticalSection;
pub use lot_base::bucket::{Bucket, BucketPlace, place};
pub use lot_base::laws::{
    abort_changes_nothing, filter_covers_unparks, requeue_to_itself_changes_nothing,
    spreading_keeps_order, steps_keep_park_tokens,
};
pub use lot_base::queue::{Node, Queue};
pub use lot_base::spinwait::SpinWait;
pub use lot_base::thread_parker::{
    ParkerKey, ParkerT, Payload, Slot, UnparkHandle, UnparkHandleT, WordHandle, YieldHandle,
    thread_yield,
};
pub use lot_base::token::{
    DEFAULT_PARK_TOKEN, DEFAULT_UNPARK_TOKEN, FilterOp, LotError, Misfit, NoMemory, ParkResult,
    ParkToken, RequeueOp, StepError, UnparkResult, UnparkToken,
};
pub use lot_base::word_lock::{
    Claim, Fits, Held, WORD_SLOTS, WordLock, plays, view, word_locks_keep_their_invariant,
};
pub use lot_history::history::{History, Witness};
pub use lot_machine::numbers::MAX_THREADS;
pub use member::Member;
pub use parker::{Letter, ThreadParker, ThreadParkerT, WordParker, YieldParker};
pub use parking_lot::{
    ParkingLot, ThreadData, park, park_within, unpark_all, unpark_chosen, unpark_filter,
    unpark_one, unpark_requeue,
};
pub use title::Title;
pub use titled_lot::TitledLot;
pub use titled_section::{ClosingSection, Entered, TitledSection};
pub use visitor::Visitor;
