//! This crate has a small lock around a value, a counter for spinning, and the error for lack of
//! memory.
//!
//! It is the lowest crate of the repository. `docs/THEOREMS.md` says what is proved of the lock.
//!
//! # Differences from upstream
//!
//! - `SpinWait` has upstream's calls, and they do the same.
//! - `WordLock`: upstream's is private there. It is one word in place and has no value. Its `new`
//!   is a `const fn` and allocates nothing, and any number of callers can be in its list.
//! - `lock`, `claim`: upstream's `lock` waits in the same way, and returns nothing. A caller has to
//!   remember that it holds the lock, so there is neither a `Held` nor a `Claim`, nor a `lend`.
//! - `unlock`, `release`: upstream's `unlock` is unsafe, because nothing shows that its caller
//!   holds the lock. It releases the lock first and works on the list after that, which a second
//!   bit of the word allows to one thread at a time. Its list is made of nodes of the waiting
//!   threads, linked both ways. Here the holder works on the list before it releases the lock.
#![tactic(auto)]

pub mod no_memory;
pub mod spinwait;
pub mod word_lock;
