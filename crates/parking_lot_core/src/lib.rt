//! This crate has every public item of Rust's `parking_lot_core` but the deadlock detector, under
//! the name that it has there.
//!
//! It re-exports two crates and has no code of its own. `lot_threads` is the lot that threads
//! share: lists of waiting threads by key, for building mutexes, condition variables and
//! schedulers. `lot_simulator` has the lots without threads. A crate that needs no simulator should
//! depend on `lot_threads` alone.
//!
//! `docs/DIFFERENCES.md` says what differs from the Rust crate.
#![tactic(auto)]

pub mod table;

pub use lot_simulator::{interleaved, laws, lot, schedule};
pub use lot_threads::{
    Bucket, BucketPlace, Claim, CriticalSection, DEFAULT_PARK_TOKEN, DEFAULT_UNPARK_TOKEN,
    FilterOp, Fits, Held, History, Letter, LotError, Member, Misfit, NoMemory, Node, ParkResult,
    ParkToken, ParkerKey, ParkerT, ParkingLot, Payload, Queue, RequeueOp, Slot, SpinWait,
    StepError, ThreadData, ThreadParker, ThreadParkerT, UnparkHandle, UnparkHandleT, UnparkResult,
    UnparkToken, Visitor, WORD_SLOTS, Witness, WordHandle, WordLock, WordParker, YieldHandle,
    YieldParker, abort_changes_nothing, critical_section, deadlock, filter_covers_unparks,
    history_laws, member, park, park_within, parker, parking_lot, place, plays,
    requeue_to_itself_changes_nothing, spreading_keeps_order, steps_keep_park_tokens, thread_yield,
    unpark_all, unpark_chosen, unpark_filter, unpark_one, unpark_requeue, view, visitor,
    word_locks_keep_their_invariant,
};
