//! This module has the lot, in which the threads of a program wait for its locks.

ghost use Rattle.std.specs.Prelude.{◌≡◌, ◌≢◌, ◌↔◌, ◌<◌, Err, IfOk, IsErrOf, None, Some, true, false};
ghost use Rattle.parking_lot.specs.Locks.{lot_of_owner, threads_of};

use crate::reentrant_mutex::Owner;
use lot_threads::{
    LotError, MAX_THREADS, Member, ParkResult, ParkToken, ParkingLot, WordParker, thread_yield,
};
use std::alloc::Global;
use std::io;
use std::sync::Wait;
use std::sync::atomic::{AtomicU64, AtomicUsize, Ordering};
use std::time::{Clock, Duration, Instant};

// How often a thread yields before it tries a lock once more, and parks.
const YIELDS: u32 = 10;

// The number of a lot that has none yet.
const UNNUMBERED: u64 = 0;

/// In a `Lot`, threads wait for the locks that were created with it.
///
/// A program makes one and creates each lock with it, but for the titled locks, which are created
/// with a `TitledLot`. Each lock has keys of its own in the lot.
///
/// Only a fixed number of threads can wait in it at the same time, whichever of its locks they wait
/// for. Threads that need not wait do not count. A thread that finds the lot full yields the
/// processor and tries again. So a lot that is too small costs processor time and the order of
/// arrival, but the locks stay correct.
#[derive(Drop)]
pub struct Lot {
    lot: ParkingLot<WordParker>,
    next_key: AtomicUsize,
    next_owner: AtomicUsize,
    number: AtomicU64,
    alloc: Global,
}

impl Lot {
    /// Creates a lot in which up to `threads` threads can wait at the same time.
    ///
    /// It allocates a node, a cache line behind that and a parker for each of these threads, and
    /// the first 16 buckets. More buckets are allocated when more threads wait at once.
    ///
    /// # Errors
    ///
    /// Returns `TooManyThreads` if and only if `threads` is above `MAX_THREADS`, which is 16,384.
    /// Otherwise returns `NoMemory` if there is not enough memory.
    pub fn new(alloc: Global, threads: usize) -> Result<Lot, LotError>
        ensures too_many { IsErrOf result LotError.TooManyThreads ↔ (MAX_THREADS < threads) }
        ensures not_full { result ≢ Err LotError.Full }
        ensures threads { IfOk result (λ lot. threads_of lot ≡ threads) }
    {
        let lot = ParkingLot::new(alloc, threads)?;
        Ok(Lot {
            lot,
            next_key: AtomicUsize::new(0),
            next_owner: AtomicUsize::new(1),
            number: AtomicU64::new(UNNUMBERED),
            alloc,
        })
    }

    /// Creates a lot that lives as long as the program, and whose memory is never freed.
    ///
    /// Take it for locks in an `Arc`, and for threads that are spawned.
    ///
    /// # Errors
    ///
    /// Returns the errors of `Lot::new`.
    pub fn for_ever(alloc: Global, threads: usize) -> Result<&'static Lot, LotError>
        ensures too_many { IsErrOf result LotError.TooManyThreads ↔ (MAX_THREADS < threads) }
        ensures not_full { result ≢ Err LotError.Full }
        ensures threads { IfOk result (λ lot. threads_of lot.now ≡ threads) }
    {
        let lot = Box::new(alloc, Lot::new(alloc, threads)?)?;
        Ok(Box::leak(lot))
    }

    /// Creates an owner for the reentrant mutexes of this lot.
    ///
    /// Create one for each thread that locks such a mutex, and give it to `ReentrantMutex::lock`. A
    /// mutex tells the owners of its lot apart.
    pub fn owner(&self) -> Owner<'_>
        ensures { lot_of_owner result ≡ self.now }
    {
        Owner::new(self, self.next_owner.fetch_add(1, Ordering::SeqCst))
    }

    // Where the lot, its locks and its threads get their memory.
    pub(crate) fn alloc(&self) -> Global {
        self.alloc
    }

    // A key that no other lock of the lot has.
    pub(crate) fn key(&self) -> usize {
        self.next_key.fetch_add(1, Ordering::SeqCst)
    }

    // Gives the two lots numbers, where they have none: from the moment when a thread first waited
    // with a mutex of the second on a condition variable of the first. References cannot be
    // compared here, so these numbers tell lots apart.
    pub(crate) fn number_both<R: Clock>(&self, rt: &R, other: &Lot) {
        if self.is_numbered() && other.is_numbered() {
            return;
        }
        if let Ok(time) = rt.monotonic() {
            let seconds = time.as_secs().wrapping_mul(1 << 30);
            let moment = seconds.wrapping_add(u64::from(time.subsec_nanos()));
            let first = moment.wrapping_mul(2) | 1;
            self.give_number(first);
            other.give_number(first.wrapping_add(1));
        }
    }

    fn is_numbered(&self) -> bool {
        self.number.load(Ordering::SeqCst) != UNNUMBERED
    }

    fn give_number(&self, number: u64) {
        self.number
            .compare_exchange(UNNUMBERED, number, Ordering::SeqCst, Ordering::SeqCst)
            .ok();
    }

    // Whether both have the same number, so that they are one lot.
    pub(crate) fn is_same(&self, other: &Lot) -> bool {
        let number = self.number.load(Ordering::SeqCst);
        number != UNNUMBERED && number == other.number.load(Ordering::SeqCst)
    }

    pub(crate) fn queues(&self) -> &ParkingLot<WordParker> {
        &self.lot
    }

    // Parks the thread, which is registered for just so long. `None` says that the lot was full, or
    // that its table could not grow; then nothing was called.
    pub(crate) fn park<R: Wait + Clock, V: FnOnce() -> bool, B: FnOnce(), T: FnOnce(usize, bool)>(
        &self,
        rt: &R,
        key: usize,
        validate: V,
        before_sleep: B,
        timed_out: T,
        park_token: ParkToken,
        deadline: Option<Instant>,
    ) -> Option<ParkResult>
        requires validate { V.pre validate }
        requires before_sleep { V.post validate true → B.pre before_sleep }
        requires timed_out { V.post validate true → deadline ≢ None
            → (key last : _) → T.pre timed_out key last }
        ensures { deadline ≡ None → result ≢ Some ParkResult.TimedOut }
    {
        let mut member = Member::register(rt, self.alloc, &self.lot).ok()?;
        let result = member.park(
            rt,
            key,
            validate,
            before_sleep,
            timed_out,
            park_token,
            deadline,
        );
        member.retire(rt);
        Some(result)
    }
}

// Yields the processor for a while, in which the thread leaves the word of a lock alone. Each look
// at the word takes it from the processor of the thread that holds the lock, which is slower then.
pub(crate) fn stand_back() {
    for _ in 0..YIELDS {
        thread_yield();
    }
}

// The instant after so long, or none where no `Instant` can say it, which is then never reached.
pub(crate) fn instant_after<R: Clock>(rt: &R, duration: Duration) -> io::Result<Option<Instant>> {
    Ok(Instant::now(rt)?.checked_add(duration))
}

// Whether the deadline is past. A clock that cannot be read counts as past each deadline.
pub(crate) fn is_past<R: Clock>(rt: &R, deadline: Option<Instant>) -> bool
    ensures { deadline ≡ None → result ≡ false }
{
    match deadline {
        Some(deadline) => match Instant::now(rt) {
            Ok(now) => now >= deadline,
            Err(_) => true,
        },
        None => false,
    }
}
