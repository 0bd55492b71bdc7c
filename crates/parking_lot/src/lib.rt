//! This crate has locks around values, with the shape of Rust's `parking_lot`.
//!
//! A program makes one `Lot`, in which threads wait, and creates each lock with it. Titled locks
//! are created with a `TitledLot`, and their docs say what is proved of them. Here a thread takes a
//! seat under a mutex:
//!
//! ```
//! /// Takes a seat, and returns whether one was free.
//! pub fn take_seat<R: Wait + Clock>(rt: &R, free: &Mutex<'_, u32>) -> bool {
//!     let mut free = free.lock(rt);
//!     if *free == 0 {
//!         return false;
//!     }
//!     *free -= 1;
//!     true
//! }
//! ```
//!
//! A call that may block or wake takes the runtime, `rt`. A call that takes a guard uses the
//! guard's. `docs/GUIDE.md` has more examples, and `docs/THEOREMS.md` says what is proved of these
//! locks.
//!
//! # Calls with a deadline
//!
//! A call whose name ends in `_for` or `_until` first tries as the call without a deadline does,
//! and then waits no longer than for the duration or until the deadline. If it cannot have the lock
//! by then, it gives up. Most return `None` in that case; an upgrade returns the guard that it was
//! given, and a wait on a condition variable says so in its `WaitTimeoutResult`.
//!
//! A clock that cannot be read counts as past every deadline. If the end of a duration is beyond
//! what an `Instant` can hold, the call waits without a deadline.
//!
//! # Differences from upstream
//!
//! `docs/DIFFERENCES.md` maps every public item of the Rust crates to what there is here. This list
//! adds in what way they work differently.
//!
//! - `Lot`: upstream has one lot for the whole program, which is created at its first use.
//! - Every `new` of a lock takes the lot and returns a `Result`, and that of a titled lock takes
//!   the runtime too. Upstream's are `const fn`.
//! - `Mutex`: upstream's is one byte beside the value. A lock finds the lot by itself, and an
//!   unlock is fair about every half millisecond. A thread that waits reads the byte ten times
//!   before it parks. Here a thread can only try to lock. A try is an exchange, which takes the
//!   word away from the processor of the holder, so a thread yields ten times and tries once.
//! - `MutexGuard::unlock_fair`: upstream hands the mutex over by leaving it locked. Here a counter
//!   reserves it.
//! - `MutexGuard::leak`: upstream's needs no memory.
//! - `is_locked`, `is_locked_exclusive`: upstream looks at the word of the lock, and needs no
//!   runtime for that.
//! - `Condvar`: upstream's keeps the address of the one mutex with which threads wait. Its
//!   `notify_one` and `notify_all` move threads to the queue of the mutex whenever the mutex is
//!   locked, whoever holds it. Here only `notify_one_held` and `notify_all_held` do so, and the
//!   condition variable remembers by key with which mutex its threads came.
//! - `RwLock`: upstream's has the number of readers and four bits in one word beside the value. So
//!   a reader knows that it is the last, and hands the lock over with its bits set.
//!   `downgrade_to_upgradable` does not wait there.
//! - `Once`: upstream's is one byte. A closure that panics leaves it poisoned, so upstream has a
//!   state, and `call_once_force`, whose closure is given that state. Here a panic ends the
//!   program, and every closure is given a `Begun`. `Once::wait` is std's.
//! - `ReentrantMutex`: upstream's takes the thread as the owner, which it finds by a thread local.
//!   It can be shared if `T: Send`, since only the thread that holds it reaches the value, so that
//!   a `RefCell` in it is safe. Here the value has to be `Sync`, and the mutex keeps other threads
//!   away while its owner does several steps.
//! - `Lens`: upstream narrows a guard by a closure that returns a reference into the value. A guard
//!   that kept such a reference would borrow from itself here.
//! - `OnceLock`, `LazyLock`: upstream has neither; std and the crate `once_cell` do. `LazyLock` has
//!   no `Deref`, because its value may have to be waited for. std's `LazyLock::into_inner` returns
//!   the closure if there is no value.
//! - `Barrier`: upstream has none. std's can be used by any thread that has a shared reference, and
//!   if more threads wait than it counts, they make further rounds.
//! - `Semaphore`: upstream has none. tokio has one that can be closed. No thread overtakes those
//!   that wait there, and more than `MAX_PERMITS` permits panic. `SemaphorePermit::permits` is
//!   `num_permits` there.
//! - `TitledMutex`: upstream has none. Its threads wait in a `TitledLot`, and each call that waits
//!   may lock the bucket of its key once more than a `Mutex` does.
//! - `TitledCondvar`: upstream has none. Its threads wait in a `TitledLot`, and a notify moves no
//!   thread to the queue of the mutex.
//! - `TitledRwLock`: upstream has none. Its threads wait in a `TitledLot`. It has no upgradable and
//!   no recursive reads, and no fair unlocks.
//! - `TitledSemaphore`: upstream has none. Its threads wait in a `TitledLot` too, and each of its
//!   permits is acquired by itself.
//! - `TitledOnce`, `TitledBarrier`: upstream has neither. Their threads wait in a `TitledLot`.
//!   `Once` and `TitledOnce` are one generic type, `OnceIn`, with different `Phaser`s. So are the
//!   barriers, by `BarrierIn`.
#![tactic(auto)]

pub mod barrier;
pub mod condvar;
mod gate;
pub mod guard;
pub mod lazy_lock;
pub mod lens;
pub mod lot;
pub mod mutex;
pub mod once;
pub mod once_lock;
pub mod phaser;
mod queue_title;
pub mod reentrant_mutex;
pub mod rw_lock;
pub mod semaphore;
pub mod titled_condvar;
pub mod titled_lot;
pub mod titled_mutex;
pub mod titled_rw_lock;
pub mod titled_semaphore;
mod wait_queue;

pub use barrier::{
    Barrier, BarrierWaitResult, Parties, Party, TitledBarrier, TitledParties, TitledParty,
};
pub use condvar::{Condvar, WaitTimeoutResult};
pub use guard::Guard;
pub use lazy_lock::LazyLock;
pub use lens::{Lens, MappedGuard};
pub use lock_words::{phases, stock};
pub use lot::Lot;
pub use lot_threads::{LotError, NoMemory};
pub use mutex::{FairMutex, FairMutexGuard, Mutex, MutexGuard};
pub use once::{Begun, Once, TitledOnce};
pub use once_lock::OnceLock;
pub use reentrant_mutex::{Owner, ReentrantMutex, ReentrantMutexGuard};
pub use rw_lock::{RwLock, RwLockReadGuard, RwLockUpgradableReadGuard, RwLockWriteGuard};
pub use semaphore::{Semaphore, SemaphorePermit};
pub use titled_condvar::TitledCondvar;
pub use titled_lot::TitledLot;
pub use titled_mutex::{TitledLocked, TitledMutex, TitledMutexGuard};
pub use titled_rw_lock::{
    TitledReadLocked, TitledRwLock, TitledRwLockReadGuard, TitledRwLockWriteGuard,
    TitledWriteLocked,
};
pub use titled_semaphore::{TitledSemaphore, TitledSemaphorePermit};
