//! This module has the exclusive lot, on which one caller at a time takes the steps of all threads.

ghost use Rattle.std.specs.Prelude.{◌≡◌, ℕ, ◌≢◌, ◌↔◌, ◌<◌, ◌≤◌, ◌*◌, List, Ok, Err, IsTrue, IsOk, IsErrOf, IfOk, OnOk, OnErr, map, length, true, if◌then◌else◌};
ghost use Rattle.lot_base.specs.Filter.{IsFilterCallable, IsFiltered};
ghost use Rattle.lot_base.specs.Place.{IsTableSize};
ghost use Rattle.lot_base.specs.declared.token.RequeueOp.{RequeueOp};
ghost use Rattle.lot_base.specs.Waiting.{split_first, split_all, split_filter, split_by, result_of, requeue_result, has_any};
ghost use Rattle.lot_machine.specs.Status.{is_taken, can_resolve};
ghost use Rattle.lot_machine.specs.Machine.{new_machine, threads_of, with_status, IsLeastFree, IsFull, after_retire, after_acquire, after_release, after_enter, after_unpark, after_requeue, is_last, after_timeout, StandsAt, IsConsistent};
ghost use Rattle.lot_simulator.specs.Lot.{waiter_park_tokens};
ghost use Rattle.lot_machine.specs.Size.{IsSizeFor, IsTrimmedSize, IsTooLarge};
ghost use Rattle.lot_simulator.specs.LotState.{KeepsSize};
ghost use Rattle.lot_simulator.specs.Lot.{machine};

mod requeue;
pub mod thread;

use crate::table::Table;
use lot_base::queue::Node;
use lot_base::token::{
    FilterOp, LotError, Misfit, NoMemory, ParkResult, ParkToken, RequeueOp, StepError,
    UnparkResult, UnparkToken,
};
use lot_machine::numbers::MAX_THREADS;
pub use lot_machine::status::Status;
use requeue::requeue_waiters;
use std::alloc::Global;
use std::marker::Model;
use thread::{Thread, commit, free_threads, start_waiting};

/// A `Lot` is a parking lot for one caller at a time, which takes every step of every thread.
///
/// ```
/// let number = lot.register()?;
/// lot.enter(number, key, || true, DEFAULT_PARK_TOKEN, false)?;
/// ```
///
/// It is for simulators and schedulers. Threads are named by their numbers. The contract of each
/// step says what it does to the machine that the lot means, which has one list of waiters for each
/// key. A step that is not allowed while its thread has the status that it has returns `Misfit`,
/// changes nothing and calls no closure.
///
/// Only `new`, `register`, `trim`, `acquire` and `list` allocate. No call takes a lock.
#[derive(Drop)]
pub struct Lot {
    table: Table,
    threads: Vec<Thread>,
}

impl Model for Lot {
    ghost use Rattle.std.specs.Prelude.{◌≡◌};
    ghost use Rattle.lot_simulator.specs.LotState.{LotState};

    ghost Value = { LotState };

    ghost use Rattle.lot_simulator.specs.Lot.{IsLot, uses};

    ghost view = { λ lot. record { buckets = lot.table.cells; threads = lot.threads.items } };

    ghost invariant = { λ lot.
        IsLot (record { buckets = lot.table.cells; threads = lot.threads.items })
        × (lot.table.numbers ≡ uses lot.threads.items) };
}

impl Lot {
    /// Creates a lot for at most `max_threads` threads, none of which is registered.
    ///
    /// It allocates the table, which has 16 buckets, and room for what it keeps of each number.
    ///
    /// # Errors
    ///
    /// Returns `TooManyThreads` if and only if `max_threads` is above `MAX_THREADS`. Otherwise
    /// returns `NoMemory` if there is not enough memory.
    pub fn new(alloc: Global, max_threads: usize) -> Result<Lot, LotError>
        ensures too_many { IsErrOf result LotError.TooManyThreads ↔ (MAX_THREADS < max_threads) }
        ensures not_full { result ≢ Err LotError.Full }
        ensures ok { IfOk result (λ lot. machine lot ≡ new_machine max_threads) }
        ensures size { IfOk result (λ lot. length lot.buckets ≡ 16) }
    {
        let table = Table::new(alloc, max_threads)?;
        let threads = free_threads(alloc, max_threads)?;
        Ok(Lot { table, threads })
    }

    /// Registers a thread under the least free number, and returns that number.
    ///
    /// The thread runs, and has no records. This allocates all memory that the parks of the thread
    /// will ever need: its node, and what the table needs to grow if it would have fewer than three
    /// buckets for each thread. It costs one `Table::register`.
    ///
    /// # Errors
    ///
    /// Returns `Full` if and only if the greatest number of threads is already registered.
    /// Otherwise returns `NoMemory` if there is not enough memory. Nothing was changed then.
    pub fn register(&mut self) -> Result<usize, LotError>
        ensures full { IsErrOf result LotError.Full ↔ IsFull (machine self.old) }
        ensures not_too_many { result ≢ Err LotError.TooManyThreads }
        ensures ok { IfOk result (λ number. IsLeastFree (machine self.old) number
            × (machine self.new ≡ with_status (machine self.old) number Status.Running)) }
        ensures size { OnOk result
            (IsSizeFor (threads_of (machine self.new))
            (length self.old.buckets) (length self.new.buckets)) }
        ensures err { OnErr result (self.new ≡ self.old) }
    {
        if self.table.registered() == self.threads.len() {
            return Err(LotError::Full);
        }
        // Its number is not known yet.
        let mut node = Node::new(*self.threads.allocator(), 0)?;
        let number = self.table.register()?;
        node.number = number;
        self.threads[number].register(node);
        Ok(number)
    }

    /// Gives back the number of a running thread, and drops the thread's node and records.
    ///
    /// # Errors
    ///
    /// Returns `Misfit` if and only if the thread is not running. Nothing was changed then.
    pub fn retire(&mut self, number: usize) -> Result<(), Misfit>
        ensures fits { IsOk result ↔ ((machine self.old).status number ≡ Status.Running) }
        ensures ok { OnOk result (machine self.new
            ≡ after_retire (machine self.old) number) }
        ensures size { KeepsSize self.old self.new }
        ensures err { OnErr result (self.new ≡ self.old) }
    {
        self.threads.get_mut(number).ok_or(Misfit)?.retire()?;
        self.table.release(number);
        Ok(())
    }

    /// Makes the table smaller, if it has more buckets than its threads need.
    ///
    /// They need the least power of two that is at least three buckets for each registered thread,
    /// where fewer than three threads count as three. Every list, status and record stays as it
    /// was.
    ///
    /// It costs one `Table::trim`. If the table is not too large, that is nothing. Otherwise it
    /// allocates the smaller row of buckets, visits each bucket of the larger one and each waiting
    /// node, and frees the larger row.
    ///
    /// # Errors
    ///
    /// Returns `NoMemory` if there is not enough memory for the smaller row, and never if the table
    /// is not too large. Nothing was changed then.
    pub fn trim(&mut self) -> Result<(), NoMemory>
        ensures unchanged { machine self.new ≡ machine self.old }
        ensures size { OnOk result
            (IsTrimmedSize (threads_of (machine self.new))
            (length self.old.buckets) (length self.new.buckets)) }
        ensures refused { OnErr result
            (IsTooLarge (threads_of (machine self.new)) (length self.old.buckets)) }
        ensures err { OnErr result (self.new ≡ self.old) }
    {
        self.table.trim()
    }

    /// Calls `validate` once, puts a running thread last in the list of the key if it returns true,
    /// and returns what it returned.
    ///
    /// Filters see the park token of the thread. `timed` says that its deadline may pass. It costs
    /// one `Bucket::enter`.
    ///
    /// # Errors
    ///
    /// Returns `Misfit` if and only if the thread is not running. Nothing was changed then, and
    /// `validate` was not called.
    pub fn enter<V: FnOnce() -> bool>(
        &mut self,
        number: usize,
        key: usize,
        validate: V,
        park_token: ParkToken,
        timed: bool,
    ) -> Result<bool, Misfit>
        requires { (machine self.old).status number ≡ Status.Running → V.pre validate }

        ensures fits { IsOk result ↔ ((machine self.old).status number ≡ Status.Running) }
        ensures asked { IfOk result (λ valid. V.post validate valid) }
        ensures entered { IfOk result (λ valid. machine self.new
            ≡ (if valid then after_enter (machine self.old) number key park_token timed
            else machine self.old)) }
        ensures size { KeepsSize self.old self.new }
        ensures err { OnErr result (self.new ≡ self.old) }
    {
        let mut node = start_waiting(&mut self.threads, number, key, timed)?;
        node.prepare(key, park_token, timed);
        match self.table.enter(node, validate) {
            Ok(()) => Ok(true),
            Err(node) => {
                self.threads[number].stop_waiting(node);
                Ok(false)
            }
        }
    }

    /// Takes the first waiter of the key, and gives its thread the token that `callback` returns.
    ///
    /// `callback` is called once, with the result that is also returned: `(1, 0, more)`, where
    /// `more` says whether the key has another waiter, or `(0, 0, false)` if nobody waits. In that
    /// case its token is not used. It costs one `Bucket::take_one`.
    pub fn unpark_one<F: FnOnce(UnparkResult) -> UnparkToken>(
        &mut self,
        key: usize,
        callback: F,
    ) -> UnparkResult
        requires { F.pre callback (result_of (split_first ((machine self.old).lists key))) }

        ensures answer { result ≡ result_of (split_first ((machine self.old).lists key)) }
        ensures taken { (token : _) × F.post callback result token
            × (machine self.new ≡ after_unpark (machine self.old) key
            (split_first ((machine self.old).lists key)) token) }
        ensures size { KeepsSize self.old self.new }
    {
        let (result, taken) = self.table.take_one(key, callback);
        commit(&mut self.threads, taken);
        result
    }

    /// Takes every waiter of the key, in order, gives each thread the token, and returns how many
    /// there were.
    ///
    /// It costs one `Bucket::take_all`.
    pub fn unpark_all(&mut self, key: usize, unpark_token: UnparkToken) -> usize
        ensures answer { result ≡ length ((machine self.old).lists key) }
        ensures taken { machine self.new
            ≡ after_unpark (machine self.old) key
            (split_all ((machine self.old).lists key)) unpark_token }
        ensures size { KeepsSize self.old self.new }
    {
        let (count, taken) = self.table.take_all(key, unpark_token);
        commit(&mut self.threads, taken);
        count
    }

    /// Takes the waiters of the key for which the filter returns `Unpark`, in order, and gives each
    /// thread the token that `callback` returns.
    ///
    /// `filter` is called with the park token of each waiter of the key, in order, until it returns
    /// `Stop`; that waiter and all behind it are left. Then `callback` is called once, with the
    /// result that is also returned: how many threads were taken, 0, and whether a waiter of the
    /// key is left. If none was taken, its token is not used. It costs one `Bucket::take_filter`.
    pub fn unpark_filter<F: FnMut(ParkToken) -> FilterOp, C: FnOnce(UnparkResult) -> UnparkToken>(
        &mut self,
        key: usize,
        filter: F,
        callback: C,
    ) -> UnparkResult
        requires filter { IsFilterCallable F.FnMut filter
            (waiter_park_tokens ((machine self.old).lists key)) }
        requires callback { (decisions : _)
            → IsFiltered F.FnMut filter
            (waiter_park_tokens ((machine self.old).lists key)) decisions
            → C.pre callback (result_of (split_filter decisions ((machine self.old).lists key))) }

        ensures filtered { let waiters = (machine self.old).lists key in record {
          decisions : List FilterOp;
          decided : IsFiltered F.FnMut filter (waiter_park_tokens waiters) decisions;
          answer : result ≡ result_of (split_filter decisions waiters);
          taken : (token : _) × C.post callback result token
              × (machine self.new ≡ after_unpark (machine self.old) key
              (split_filter decisions waiters) token);
        } }
        ensures size { KeepsSize self.old self.new }
    {
        let (result, taken) = self.table.take_filter(key, filter, callback);
        commit(&mut self.threads, taken);
        result
    }

    /// Does what `unpark_filter` does, for closures that may be called at any time.
    ///
    /// Most closures have no conditions of their own. With such closures a caller of this function
    /// proves nothing about the waiters.
    pub fn unpark_chosen<F: FnMut(ParkToken) -> FilterOp, C: FnOnce(UnparkResult) -> UnparkToken>(
        &mut self,
        key: usize,
        filter: F,
        callback: C,
    ) -> UnparkResult
        requires filter { (state : F) (park_token : _) → F.pre state park_token }
        requires callback { (answer : _) → C.pre callback answer }

        ensures filtered { let waiters = (machine self.old).lists key in record {
          decisions : List FilterOp;
          decided : IsFiltered F.FnMut filter (waiter_park_tokens waiters) decisions;
          answer : result ≡ result_of (split_filter decisions waiters);
          taken : (token : _) × C.post callback result token
              × (machine self.new ≡ after_unpark (machine self.old) key
              (split_filter decisions waiters) token);
        } }
        ensures size { KeepsSize self.old self.new }
    {
        self.unpark_filter(key, filter, callback)
    }

    /// Unparks waiters of the key `from`, or moves them to the key `to`, as `validate` chooses. The
    /// keys may be equal.
    ///
    /// `validate` is called first. If it returns `Abort`, nothing changes, `callback` is not
    /// called, and the default result is returned. Otherwise `callback` is called once, with the
    /// operation and the result that is also returned, even if nobody waits. A thread that is
    /// unparked is given the token that it returns. Threads that are moved are behind the waiters
    /// of `to`, in order. It costs one `Bucket::requeue_one` or `requeue_two`.
    pub fn unpark_requeue<
        V: FnOnce() -> RequeueOp,
        C: FnOnce(RequeueOp, UnparkResult) -> UnparkToken,
    >(&mut self, from: usize, to: usize, validate: V, callback: C) -> UnparkResult
        requires validate { V.pre validate }
        requires callback { (op : _) → V.post validate op → op ≢ RequeueOp.Abort
            → C.pre callback op (requeue_result op (split_by op ((machine self.old).lists from))) }

        ensures requeued { let waiters = (machine self.old).lists from in record {
          op : RequeueOp;
          chosen : V.post validate op;
          answer : result ≡ requeue_result op (split_by op waiters);
          taken : (token : _) × (op ≢ RequeueOp.Abort → C.post callback op result token)
              × (machine self.new ≡ after_requeue (machine self.old) from to
              (split_by op waiters) token);
        } }
        ensures size { KeepsSize self.old self.new }
    {
        let (result, taken) = requeue_waiters(
            &mut self.table,
            &mut self.threads,
            from,
            to,
            validate,
            callback,
        );
        commit(&mut self.threads, taken);
        result
    }

    /// Lets the deadline pass of a thread that waits with a timeout.
    ///
    /// The thread stays in its list until `resolve` or an unpark takes it out.
    ///
    /// # Errors
    ///
    /// Returns `Misfit` if and only if the thread does not wait with a timeout, or its deadline has
    /// already passed. Nothing was changed then.
    pub fn deadline(&mut self, number: usize) -> Result<(), Misfit>
        ensures fits { IsOk result ↔ ((machine self.old).status number ≡ Status.Waiting true) }
        ensures ok { OnOk result (machine self.new
            ≡ with_status (machine self.old) number Status.Late) }
        ensures size { KeepsSize self.old self.new }
        ensures err { OnErr result (self.new ≡ self.old) }
    {
        self.threads.get_mut(number).ok_or(Misfit)?.deadline()?;
        Ok(())
    }

    /// Lets a thread that was taken run again, and returns its token.
    ///
    /// # Errors
    ///
    /// Returns `Misfit` if and only if the thread was not taken. Nothing was changed then.
    pub fn give_back(&mut self, number: usize) -> Result<UnparkToken, Misfit>
        ensures fits { IsOk result ↔ IsTrue (is_taken ((machine self.old).status number)) }
        ensures ok { IfOk result (λ token. ((machine self.old).status number ≡ Status.Taken token)
            × (machine self.new ≡ with_status (machine self.old) number Status.Running)) }
        ensures size { KeepsSize self.old self.new }
        ensures err { OnErr result (self.new ≡ self.old) }
    {
        let token = self.threads.get_mut(number).ok_or(Misfit)?.give_back()?;
        Ok(token)
    }

    /// Ends the park of a thread that is late or was taken, and lets it run again.
    ///
    /// A late thread leaves the list of its key. `timed_out` is called once, with that key and with
    /// whether its list is empty now, and the result is `TimedOut`. This costs one
    /// `Bucket::remove`. A thread that was taken gets its token, `timed_out` is not called, and the
    /// result is `Unparked`. The result is never `Invalid`.
    ///
    /// # Errors
    ///
    /// Returns `Misfit` if and only if the thread is neither late nor taken. Nothing was changed or
    /// called then.
    pub fn resolve<T: FnOnce(usize, bool)>(
        &mut self,
        number: usize,
        timed_out: T,
    ) -> Result<ParkResult, Misfit>
        requires { (machine self.old).status number ≡ Status.Late
            → (key : ℕ) → StandsAt (machine self.old) number key
            → T.pre timed_out key (is_last (machine self.old) number key) }

        ensures fits { IsOk result ↔ IsTrue (can_resolve ((machine self.old).status number)) }
        ensures late { (machine self.old).status number ≡ Status.Late
            → (result ≡ Ok ParkResult.TimedOut) × (key : ℕ) × StandsAt (machine self.old) number key
            × T.post timed_out key (is_last (machine self.old) number key) tt
            × (machine self.new ≡ after_timeout (machine self.old) number key) }
        ensures taken { (token : _) → (machine self.old).status number ≡ Status.Taken token
            → (result ≡ Ok (ParkResult.Unparked token))
            × (machine self.new ≡ with_status (machine self.old) number Status.Running) }
        ensures size { KeepsSize self.old self.new }
        ensures err { OnErr result (self.new ≡ self.old) }
    {
        if let Status::Late = self.status(number) {
            self.time_out(number, timed_out);
            return Ok(ParkResult::TimedOut);
        }
        let token = self.give_back(number)?;
        Ok(ParkResult::Unparked(token))
    }

    // Takes a late thread out of the list of its key, and lets it run again. Answers what
    // `timed_out` answered.
    pub(crate) fn time_out<A, T: FnOnce(usize, bool) -> A>(
        &mut self,
        number: usize,
        timed_out: T,
    ) -> A
        requires late { (machine self.old).status number ≡ Status.Late }
        requires callable { (key : ℕ) → StandsAt (machine self.old) number key
            → T.pre timed_out key (is_last (machine self.old) number key) }
        ensures timed_out { (key : ℕ) × StandsAt (machine self.old) number key
            × T.post timed_out key (is_last (machine self.old) number key) result
            × (machine self.new ≡ after_timeout (machine self.old) number key) }
        ensures size { KeepsSize self.old self.new }
    {
        let key = self.threads[number].key();
        // A late thread stands in the list of its key, so its node is there.
        let (node, answer) = self.table.remove(number, key, timed_out).unwrap();
        self.threads[number].stop_waiting(node);
        answer
    }

    /// Records that a running thread holds the resource of this key.
    ///
    /// A key that is recorded again counts once more. It may allocate, for the records alone.
    ///
    /// # Errors
    ///
    /// Returns `Misfit` if and only if the thread is not running. Otherwise returns `NoMemory` if
    /// there is not enough memory. Nothing was changed then.
    pub fn acquire(&mut self, number: usize, key: usize) -> Result<(), StepError>
        ensures fits { result ≢ Err StepError.Misfit
            ↔ ((machine self.old).status number ≡ Status.Running) }
        ensures ok { OnOk result (machine self.new
            ≡ after_acquire (machine self.old) number key) }
        ensures size { KeepsSize self.old self.new }
        ensures err { OnErr result (self.new ≡ self.old) }
    {
        let thread = self.threads.get_mut(number).ok_or(StepError::Misfit)?;
        thread.acquire(key)?;
        Ok(())
    }

    /// Records this key once less for a running thread, if it was recorded.
    ///
    /// It searches the thread's records from the last one.
    ///
    /// # Errors
    ///
    /// Returns `Misfit` if and only if the thread is not running. Nothing was changed then.
    pub fn release(&mut self, number: usize, key: usize) -> Result<(), Misfit>
        ensures fits { IsOk result ↔ ((machine self.old).status number ≡ Status.Running) }
        ensures ok { OnOk result (machine self.new
            ≡ after_release (machine self.old) number key) }
        ensures size { KeepsSize self.old self.new }
        ensures err { OnErr result (self.new ≡ self.old) }
    {
        self.threads.get_mut(number).ok_or(Misfit)?.release(key)?;
        Ok(())
    }

    /// Returns how often the thread with this number has recorded the key.
    ///
    /// A free number has recorded nothing. It visits the thread's records.
    pub fn records(&self, number: usize, key: usize) -> usize
        ensures { result ≡ (machine self.now).records number key }
    {
        self.threads
            .get(number)
            .map_or(0, |thread| thread.records(key))
    }

    /// Returns the numbers of the threads that wait on the key, in order. It costs one
    /// `Bucket::list`.
    ///
    /// # Errors
    ///
    /// Returns `NoMemory` if there is not enough memory for the list. An empty list needs none.
    pub fn list(&self, key: usize) -> Result<Vec<usize>, NoMemory>
        ensures refused { OnErr result (IsTrue (has_any ((machine self.now).lists key))) }
        ensures numbers { IfOk result (λ numbers. numbers.items
            ≡ map (λ waiter. waiter.number) ((machine self.now).lists key)) }
    {
        self.table.list(*self.threads.allocator(), key)
    }

    /// Returns what the number is doing.
    ///
    /// A number that is not below the greatest number of threads is `Free`.
    pub fn status(&self, number: usize) -> Status
        ensures { result ≡ (machine self.now).status number }
    {
        self.threads
            .get(number)
            .map_or(Status::Free, |thread| thread.status())
    }

    /// Does nothing, and states what always holds of a lot.
    ///
    /// Each thread that waits or is late is in one list, once, and any other thread is in none. A
    /// waiter is timed if and only if its thread waits with a timeout. A number that is not below
    /// the greatest number of threads is free, and a free number has no records.
    pub fn consistency(&self)
        ensures { IsConsistent (machine self.now) }
    {
        // A use of a field opens what the type keeps.
        let _ = &self.threads;
    }

    /// Returns how many threads are registered.
    pub fn registered(&self) -> usize
        ensures { result ≡ threads_of (machine self.now) }
    {
        self.table.registered()
    }

    /// Returns how many buckets the table has.
    ///
    /// This is a power of two from 16 to 65,536, and at least three for each registered thread.
    pub fn size(&self) -> usize
        ensures value { result ≡ length self.now.buckets }
        ensures table { IsTableSize result }
        ensures room { 3 * threads_of (machine self.now) ≤ result }
    {
        self.table.size()
    }
}
