//! This module has the calls of a lot as upstream has them: a thread parks by its data, and whoever
//! has the lot may unpark it.

ghost use Rattle.std.specs.Prelude.{◌≡◌, ◌≢◌, ◌↔◌, ◌<◌, List, [], true, Err, IfOk, IsErrOf, None};
ghost use Rattle.std.specs.Option.{is_some};
ghost use Rattle.lot_machine.specs.Machine.{Waiter};
ghost use Rattle.lot_base.specs.Waiting.{result_of, split_first};
ghost use Rattle.lot_machine.specs.Records.{times_recorded};
ghost use Rattle.lot_history.specs.Witness.{Extends, IsStill, limit_of, max_threads_of};
ghost use Rattle.lot_threads.specs.Filters.{AreCallable, WereCalled};
ghost use Rattle.lot_threads.specs.Members.{Begins, IsDataOf, IsParked, Stays, member_of};
ghost use Rattle.lot_threads.specs.Requeues.{ChoseRequeue, MayRequeue};
ghost use Rattle.lot_threads.specs.Within.{IsParkedWithin, MayPark};

use crate::critical_section::CriticalSection;
use crate::numbered_nodes::NumberedNodes;
use crate::parker::ThreadParkerT;
use crate::section::Section;
use crate::shared_lot::SharedLot;
use lot_base::queue::Node;
use lot_base::thread_parker::ParkerT;
use lot_base::token::{
    FilterOp, LotError, NoMemory, ParkResult, ParkToken, RequeueOp, UnparkResult, UnparkToken,
};
use lot_history::history::{Part, Witness};
use lot_machine::numbers::MAX_THREADS;
use lot_machine::records::Records;
use lot_machine::step::{Answer, Step};
use std::alloc::Global;
use std::marker::Model;
use std::mem;
use std::sync::Wait;
use std::time::{Clock, Instant};

/// A `ParkingLot` is a lot that real threads share: they park on keys, and others unpark them.
///
/// Its calls are the functions of `parking_lot` and the methods of `Member` and `Visitor`. In
/// contracts a lot is the history of its calls.
///
/// A lot is made for a greatest number of threads, each of which registers by `thread_data`. It
/// begins with a row of 16 buckets. Each bucket and its part of the history are protected by a lock
/// of their own. A critical section is what a call does while it has the bucket of its key locked.
/// A requeue locks the buckets of both keys, the one with the lower index first. In the section an
/// unpark puts the thread's node into the thread's parker, and with it the thread's piece of the
/// history; from then on the thread is unparked. A section takes no other locks, except those of
/// parkers, one at a time.
///
/// If a registration would leave less than three buckets for each thread, it first resizes the
/// table to twice its size. It makes the row of that size if the lot has not had it before, and the
/// lot keeps the row to its end. While it has the lock of the registry, it takes one bucket after
/// another out of the old row, and puts its nodes and its part of the history into two buckets of
/// the new row. A call that does not find its bucket waits for that lock, and tries again.
///
/// A call that finds a lock held spins for a while, and then sleeps. The order in which callers get
/// a lock is not fixed.
#[derive(Drop)]
pub struct ParkingLot<P: ThreadParkerT> {
    shared: SharedLot<P>,
}

impl<P: ThreadParkerT> Model for ParkingLot<P> {
    ghost use Rattle.lot_history.specs.declared.history.History.{History};

    ghost Value = { History };

    ghost use Rattle.std.specs.Prelude.{◌≡◌};
    ghost use Rattle.lot_history.specs.Witness.{limit_of};

    ghost view = { λ lot. lot.shared };

    ghost invariant = { λ lot. limit_of lot.shared ≡ 0 };
}

/// A `ThreadData` is the data of a registered thread.
///
/// It has the thread's number, the thread's node while the thread does not wait, the records of
/// what the thread holds, and a witness of the history, which has seen the thread's parks. It
/// belongs to the lot that created it, and calls that take a lot and data require that they belong
/// together. A `Member` has both.
///
/// If the data is only dropped, the number stays registered; `ParkingLot::retire` gives it back.
#[derive(Drop)]
pub struct ThreadData {
    pub(crate) number: usize,
    pub(crate) node: Option<Box<Node>>,
    pub(crate) keys: Records,
    pub(crate) thread: Part,
    pub(crate) records: Part,
    pub(crate) timing: Part,
    pub(crate) witness: Witness,
}

impl Model for ThreadData {
    ghost use Rattle.lot_threads.specs.Members.{IsThreadData, ThreadDataState};

    ghost Value = { ThreadDataState };

    ghost view = { λ thread. record {
      number = thread.number;
      records = thread.keys;
      witness = thread.witness;
    } };

    ghost invariant = { λ own. IsThreadData own.number own.node own.keys own.thread own.records
        own.timing own.witness };
}

impl ThreadData {
    /// Returns the number of the thread.
    pub fn number(&self) -> usize
        ensures { result ≡ self.now.number }
    {
        self.number
    }

    /// Returns how often the thread has recorded the key. It visits the records.
    pub fn records(&self, key: usize) -> usize
        ensures { result ≡ times_recorded self.now.records key }
    {
        self.keys.times(key)
    }
}

impl<P: ThreadParkerT> ParkingLot<P> {
    /// Creates a lot for at most this many threads, none of which is registered. Its history is
    /// empty.
    ///
    /// It allocates the word of the history, 16 buckets each with a lock, and for each thread
    /// number its use, a node, a cache line behind that, and a parker.
    ///
    /// # Errors
    ///
    /// Returns `TooManyThreads` if and only if the number is above `MAX_THREADS`. Otherwise returns
    /// `NoMemory` if there is not enough memory. Nothing was created then.
    pub fn new(alloc: Global, max_threads: usize) -> Result<ParkingLot<P>, LotError>
        ensures too_many { IsErrOf result LotError.TooManyThreads ↔ (MAX_THREADS < max_threads) }
        ensures not_full { result ≢ Err LotError.Full }
        ensures ok { IfOk result (λ lot. max_threads_of lot ≡ max_threads) }
    {
        let numbers = NumberedNodes::new(alloc, max_threads)?;
        let (shared, _undealt) = SharedLot::for_threads(alloc, max_threads, 0, numbers)?;
        Ok(ParkingLot { shared })
    }

    /// Returns the greatest number of threads. Every thread number is below it.
    pub fn max_threads(&self) -> usize
        ensures { result ≡ max_threads_of self.now }
    {
        self.shared.max_threads()
    }

    // What it is, a lot whose keys have no titles.
    #[inline(always)]
    pub(crate) fn shared(&self) -> &SharedLot<P>
        ensures history { result.now ≡ self.now }
        ensures plain { limit_of self.now ≡ 0 }
    {
        &self.shared
    }

    /// Registers a thread, and gives it the least free number.
    ///
    /// The first event of its witness is this registration.
    ///
    /// The call takes the lock of the registry. It searches for the number behind the one that was
    /// registered last, or from the least one that was released since. The node of the thread was
    /// made with the lot. If the table would have less than three buckets for each thread, the call
    /// first doubles it, which adds nothing to the history. For that it allocates the new row of
    /// buckets, if the lot has not had it before, and visits every bucket and every waiting thread;
    /// calls whose bucket is being moved wait. Do not call it in a critical section.
    ///
    /// # Errors
    ///
    /// Returns `Full` if as many threads are registered as the lot is for. Otherwise returns
    /// `NoMemory` if there is not enough memory. No number was given out then.
    pub fn thread_data<R: Wait>(&self, rt: &R, alloc: Global) -> Result<ThreadData, LotError>
        ensures not_too_many { result ≢ Err LotError.TooManyThreads }
        ensures own { IfOk result (IsDataOf self.now) }
        ensures records { IfOk result (λ thread. thread.records ≡ []) }
        ensures registered { IfOk result (λ thread.
            Begins self.now Step.Register (Answer.Registered thread.number) thread.witness) }
    {
        self.shared().thread_data(rt, alloc)
    }

    /// Ends the registration of the thread, and returns its witness.
    ///
    /// The number may be given to another thread then. The last event of the witness is this end;
    /// others hear it by `hear_witness`.
    ///
    /// The call takes the lock of the registry and allocates nothing. The lot keeps the node for
    /// the thread that has the number next. Do not call it in a critical section.
    pub fn retire<R: Wait>(&self, rt: &R, thread_data: ThreadData) -> Witness
        requires own { IsDataOf self.now thread_data }
        ensures still { IsStill self.now thread_data.witness result }
        ensures retired { Extends self.now thread_data.witness
            (Step.Retire thread_data.number) Answer.Retired result }
    {
        self.shared().retire(rt, thread_data)
    }

    /// Returns the numbers of the threads that are in the list of the key, in order.
    ///
    /// It calls `Visitor::list` with a new visitor, so its contract does not say this. If a proof
    /// needs it, call `Visitor::list` or `Member::list`.
    ///
    /// The call allocates while the bucket is locked, and again whenever the list has to grow. Do
    /// not call it in a critical section.
    ///
    /// # Errors
    ///
    /// Returns `NoMemory` if there is not enough memory for the list. An empty list needs none.
    pub fn list<R: Wait>(&self, rt: &R, alloc: Global, key: usize) -> Result<Vec<usize>, NoMemory> {
        self.visitor().list(rt, alloc, key)
    }

    /// Makes the table smaller if it has more buckets than it needs.
    ///
    /// It calls `Visitor::trim` with a new visitor, so its contract does not say this. If a proof
    /// needs it, call `Visitor::trim` or `Member::trim`.
    pub fn trim<R: Wait>(&self, rt: &R) {
        self.visitor().trim(rt);
    }
}

impl<P: ThreadParkerT> SharedLot<P> {
    // Registers a thread under the least free number, as a lot's public call does.
    pub(crate) fn thread_data<R: Wait>(&self, rt: &R, alloc: Global) -> Result<ThreadData, LotError>
        ensures not_too_many { result ≢ Err LotError.TooManyThreads }
        ensures own { IfOk result (IsDataOf self.now) }
        ensures records { IfOk result (λ thread. thread.records ≡ []) }
        ensures registered { IfOk result (λ thread.
            Begins self.now Step.Register (Answer.Registered thread.number) thread.witness) }
    {
        let (mut witness, node) = self.register(rt, alloc)?;
        let Some(node) = node else {
            return Err(LotError::Full);
        };
        let thread = self.history().give(&mut witness);
        let records = self.history().give(&mut witness);
        let timing = self.history().give(&mut witness);
        Ok(ThreadData {
            number: node.number,
            node: Some(node),
            keys: Records::new(alloc),
            thread,
            records,
            timing,
            witness,
        })
    }

    // Ends the registration of the thread, as a lot's public call does.
    pub(crate) fn retire<R: Wait>(&self, rt: &R, thread_data: ThreadData) -> Witness
        requires own { IsDataOf self.now thread_data }
        ensures still { IsStill self.now thread_data.witness result }
        ensures retired { Extends self.now thread_data.witness
            (Step.Retire thread_data.number) Answer.Retired result }
    {
        let ThreadData {
            number: _,
            node,
            keys: _keys,
            thread,
            records,
            timing,
            mut witness,
        } = thread_data;
        // The data of a thread that does not wait has its node: its type keeps that.
        self.release(rt, &mut witness, node.unwrap(), thread, records, timing);
        witness
    }
}

/// Parks the thread of this data on the key, until another thread unparks it.
///
/// The contract requires data of a thread of this lot.
///
/// First `validate` is called once, in the critical section of the key. If it returns false, `park`
/// returns `Invalid` and calls nothing else. If it returns true, the thread is appended to the list
/// of the key, and the section ends. Then `before_sleep` is called once with no lock held, and the
/// thread sleeps until another thread has unparked it. In this case `park` returns `Unparked` with
/// the token of that unpark.
///
/// With a timeout the thread sleeps no longer than until that instant. A clock that cannot be read
/// counts as past it. At the deadline there are two cases:
///
/// - The thread is still in a list, perhaps of another key if it was requeued. It leaves the list
///   in a critical section of that key. In the section `timed_out` is called once, with that key
///   and with whether no other thread waits on it. `park` returns `TimedOut`.
/// - An unpark took the thread before that. `timed_out` is not called, and `park` returns
///   `Unparked`.
///
/// The park token is what a filter sees of the thread. `validate` and `timed_out` must not call the
/// lot, nor wait for a thread that does. `before_sleep` may make any call of the lot, even `park`
/// with other data. The call allocates nothing.
///
/// When `park` returns `Unparked`, the thread sees everything that the other thread did before its
/// unpark. What was done in one section of a bucket is seen in the next, because every access to a
/// shared word is `SeqCst`.
pub fn park<
    P: ThreadParkerT,
    R: Wait + Clock,
    V: FnOnce() -> bool,
    B: FnOnce(),
    T: FnOnce(usize, bool),
>(
    rt: &R,
    lot: &ParkingLot<P>,
    thread_data: &mut ThreadData,
    key: usize,
    validate: V,
    before_sleep: B,
    timed_out: T,
    park_token: ParkToken,
    timeout: Option<Instant>,
) -> ParkResult
    requires own { IsDataOf lot.now thread_data.old }
    requires validate { V.pre validate }
    requires before_sleep { V.post validate true → B.pre before_sleep }
    requires timed_out { V.post validate true → timeout ≢ None
        → (key last : _) → T.pre timed_out key last }

    ensures stays { Stays (member_of lot.now thread_data.old) (member_of lot.now thread_data.new) }
    ensures parked { IsParked (λ valid. V.post validate valid) (B.post before_sleep tt)
        (λ left last. T.post timed_out left last tt) (member_of lot.now thread_data.old) key
        park_token (is_some timeout) result (member_of lot.now thread_data.new) }
{
    park_within(
        rt,
        lot,
        thread_data,
        key,
        |_|
            requires { V.pre validate }
            ensures { V.post validate result }
        { validate() },
        |_|
            requires { B.pre before_sleep }
            ensures { B.post before_sleep result }
        { before_sleep() },
        |_, left, last|
            requires { T.pre timed_out left last }
            ensures { T.post timed_out left last result }
        { timed_out(left, last) },
        park_token,
        timeout,
    )
}

/// Parks the thread of this data as `park` does, and lends a value to each closure that shows when
/// the closure is called.
///
/// `validate` and `timed_out` are lent the critical section. `before_sleep` is lent the witness of
/// the thread, which has seen that the thread entered the list.
///
/// If `validate` returned true, the contract says which threads waited on the key when it was
/// called: those that the entry found. It also says that `before_sleep` was called after the thread
/// had entered the list. If `validate` returned false, the contract says only that it was called in
/// a critical section of the key.
pub fn park_within<
    P: ThreadParkerT,
    R: Wait + Clock,
    V: FnOnce(&CriticalSection) -> bool,
    B: FnOnce(&Witness),
    T: FnOnce(&CriticalSection, usize, bool),
>(
    rt: &R,
    lot: &ParkingLot<P>,
    thread_data: &mut ThreadData,
    key: usize,
    validate: V,
    before_sleep: B,
    timed_out: T,
    park_token: ParkToken,
    timeout: Option<Instant>,
) -> ParkResult
    requires own { IsDataOf lot.now thread_data.old }
    requires callable { MayPark V.FnOnce B.FnOnce T.FnOnce validate before_sleep timed_out lot.now
        key (is_some timeout) }

    ensures stays { Stays (member_of lot.now thread_data.old) (member_of lot.now thread_data.new) }
    ensures parked { IsParkedWithin V.FnOnce B.FnOnce T.FnOnce validate before_sleep timed_out
        (member_of lot.now thread_data.old) key park_token (is_some timeout) result
        (member_of lot.now thread_data.new) }
{
    let lot = lot.shared();
    let number = thread_data.number;
    // The data of a thread that does not wait has its node: its type keeps that.
    let mut node = thread_data.node.take().unwrap();
    node.prepare(key, park_token, timeout.is_some());
    let thread = mem::replace(&mut thread_data.thread, Part::none());
    let timing = &mut thread_data.timing;
    let me = &mut thread_data.witness;

    // Queue: validate and enter in one section.
    lot.parker(number).prepare_park();
    let (mut section, licence) = Section::open(rt, lot, key);
    let entered = section.enter(me, licence, thread, timing, node, validate);
    section.close();
    if let Err((thread, node)) = entered {
        thread_data.thread = thread;
        thread_data.node = Some(node);
        return ParkResult::Invalid;
    }

    // Sleep, and a second look after the deadline.
    before_sleep(me);
    let (result, thread, node) = lot.wait(rt, me, timing, number, timed_out, timeout);
    thread_data.thread = thread;
    thread_data.node = Some(node);
    result
}

/// Unparks the first thread in the list of the key, as `Visitor::unpark_one` does with a new
/// visitor.
///
/// The contract says only with what the callback was called and what it returned. If a proof needs
/// to know which step was added to the history, call a visitor or a member instead.
pub fn unpark_one<P: ThreadParkerT, R: Wait, C: FnOnce(UnparkResult) -> UnparkToken>(
    rt: &R,
    lot: &ParkingLot<P>,
    key: usize,
    callback: C,
) -> UnparkResult
    requires callable { (waiters : List Waiter)
        → C.pre callback (result_of (split_first waiters)) }
    ensures called { (token : UnparkToken) × C.post callback result token }
{
    lot.visitor().unpark_one(rt, key, callback)
}

/// Unparks all threads in the list of the key, as `Visitor::unpark_all` does with a new visitor,
/// and returns how many there were.
///
/// The contract does not say so. If a proof needs it, call a visitor or a member instead.
pub fn unpark_all<P: ThreadParkerT, R: Wait>(
    rt: &R,
    lot: &ParkingLot<P>,
    key: usize,
    unpark_token: UnparkToken,
) -> usize {
    lot.visitor().unpark_all(rt, key, unpark_token)
}

/// Unparks those threads in the list of the key that the filter chooses, as
/// `Visitor::unpark_filter` does with a new visitor.
///
/// The contract says only with what the closures were called, on some park tokens, and what they
/// returned. If a proof needs to know which step was added to the history, call a visitor or a
/// member instead.
pub fn unpark_filter<
    P: ThreadParkerT,
    R: Wait,
    F: FnMut(ParkToken) -> FilterOp,
    C: FnOnce(UnparkResult) -> UnparkToken,
>(rt: &R, lot: &ParkingLot<P>, key: usize, filter: F, callback: C) -> UnparkResult
    requires callable { AreCallable F.FnMut C.FnOnce filter callback }
    ensures called { WereCalled F.FnMut C.FnOnce filter callback result }
{
    lot.visitor().unpark_filter(rt, key, filter, callback)
}

/// Unparks as `unpark_filter` does, with closures that may be called at any time.
///
/// Most closures have no conditions of their own, so they can be called at any time. Then the
/// caller need not prove anything about lists of waiters.
pub fn unpark_chosen<
    P: ThreadParkerT,
    R: Wait,
    F: FnMut(ParkToken) -> FilterOp,
    C: FnOnce(UnparkResult) -> UnparkToken,
>(rt: &R, lot: &ParkingLot<P>, key: usize, filter: F, callback: C) -> UnparkResult
    requires filter { (state : F) (park_token : _) → F.pre state park_token }
    requires callback { (answer : _) → C.pre callback answer }
    ensures called { WereCalled F.FnMut C.FnOnce filter callback result }
{
    lot.visitor().unpark_chosen(rt, key, filter, callback)
}

/// Unparks one thread of the key `key_from`, or moves threads to the list of `key_to`, or does
/// both, as `Visitor::unpark_requeue` does with a new visitor.
///
/// The contract says only with what the closures were called and what they returned. If a proof
/// needs to know which step was added to the history, call a visitor or a member instead.
pub fn unpark_requeue<
    P: ThreadParkerT,
    R: Wait,
    V: FnOnce() -> RequeueOp,
    C: FnOnce(RequeueOp, UnparkResult) -> UnparkToken,
>(
    rt: &R,
    lot: &ParkingLot<P>,
    key_from: usize,
    key_to: usize,
    validate: V,
    callback: C,
) -> UnparkResult
    requires callable { MayRequeue V.FnOnce C.FnOnce validate callback }
    ensures called { ChoseRequeue V.FnOnce C.FnOnce validate callback result }
{
    lot.visitor()
        .unpark_requeue(rt, key_from, key_to, validate, callback)
}
