//! This module has the lot in which the threads of a program wait for its titled locks.

ghost use Rattle.std.specs.Prelude.{◌≡◌, ◌≢◌, ◌↔◌, ◌<◌, Err, IfOk, IsErrOf};
ghost use Rattle.parking_lot.specs.Locks.{titled_threads_of};

use lot_threads::{LotError, MAX_THREADS, WordParker};
use std::alloc::Global;

/// The lot of the core that a `TitledLot` has.
pub(crate) type Queues = lot_threads::TitledLot<WordParker>;

/// In a `TitledLot`, threads wait for the titled locks that were created with it.
///
/// It is for titled locks what a `Lot` is for the others. Here `count` is a closure that several
/// threads may call:
///
/// ```
/// let lot = TitledLot::new(rt.alloc(), 4)?;
/// let total = TitledMutex::new(&rt, &lot, 0u64)?;
/// let count = || {
///     for _ in 0..1000u32 {
///         let mut total = total.lock(&rt);
///         *total = total.wrapping_add(1);
///     }
/// };
/// ```
///
/// Only a fixed number of threads can wait in it at the same time. A thread that finds the lot full
/// yields the processor and tries again, as in a `Lot`.
#[derive(Drop)]
pub struct TitledLot {
    queues: Queues,
    alloc: Global,
}

impl TitledLot {
    /// Creates a lot in which up to `threads` threads can wait at the same time.
    ///
    /// It allocates what `Lot::new` does, and one more lock.
    ///
    /// # Errors
    ///
    /// Returns `TooManyThreads` if and only if `threads` is above `MAX_THREADS`, which is 16,384.
    /// Otherwise returns `NoMemory` if there is not enough memory.
    pub fn new(alloc: Global, threads: usize) -> Result<TitledLot, LotError>
        ensures too_many { IsErrOf result LotError.TooManyThreads ↔ (MAX_THREADS < threads) }
        ensures not_full { result ≢ Err LotError.Full }
        ensures threads { IfOk result (λ lot. titled_threads_of lot ≡ threads) }
    {
        // No program creates so many locks that it takes all keys.
        let queues = Queues::new(alloc, threads, usize::MAX)?;
        Ok(TitledLot { queues, alloc })
    }

    /// Creates a lot that lives as long as the program, and whose memory is never freed.
    ///
    /// Take it for locks in an `Arc`, and for threads that are spawned.
    ///
    /// # Errors
    ///
    /// Returns the errors of `TitledLot::new`.
    pub fn for_ever(alloc: Global, threads: usize) -> Result<&'static TitledLot, LotError>
        ensures too_many { IsErrOf result LotError.TooManyThreads ↔ (MAX_THREADS < threads) }
        ensures not_full { result ≢ Err LotError.Full }
        ensures threads { IfOk result (λ lot. titled_threads_of lot.now ≡ threads) }
    {
        let lot = Box::new(alloc, TitledLot::new(alloc, threads)?)?;
        Ok(Box::leak(lot))
    }

    // Where the lot, its locks and its threads get their memory.
    pub(crate) fn alloc(&self) -> Global {
        self.alloc
    }

    pub(crate) fn queues(&self) -> &Queues {
        &self.queues
    }
}
