//! This module has members of a lot: registered threads whose calls add to the lot's history.

ghost use Rattle.std.specs.Prelude.{◌≡◌, ◌≢◌, List, [], true, Err, IfOk, None, OnErr, OnOk};
ghost use Rattle.std.specs.Option.{is_some};
ghost use mathlib.Core.List.{IsPrefix};
ghost use Rattle.lot_machine.specs.Machine.{Waiter};
ghost use Rattle.lot_base.specs.Waiting.{result_of, split_first};
ghost use Rattle.lot_machine.specs.Records.{one_less, one_more, times_recorded};
ghost use Rattle.lot_history.specs.Witness.{Extends, IsStill, IsWitnessOf, Looks, events_of, id_of, pieces_of, seen_by, view_of};
ghost use Rattle.lot_threads.specs.Filters.{MayFilter, Unparks};
ghost use Rattle.lot_threads.specs.Members.{Begins, IsDataOf, IsListed, IsParked, IsSame, Makes, Stays, member_of};
ghost use Rattle.lot_threads.specs.Requeues.{MayRequeue, MayRequeueWithin, Requeues, RequeuesWithin};
ghost use Rattle.lot_threads.specs.Within.{IsParkedWithin, MayCallBack, MayFilterWithin, MayPark, UnparksOne, UnparksWithin};

use crate::critical_section::CriticalSection;
use crate::deadlock::{acquire_resource, release_resource};
use crate::parker::ThreadParkerT;
use crate::parking_lot::{ParkingLot, ThreadData, park, park_within};
use lot_base::token::{
    FilterOp, LotError, NoMemory, ParkResult, ParkToken, RequeueOp, UnparkResult, UnparkToken,
};
use lot_history::history::Witness;
use lot_machine::step::{Answer, Op, Step};
use std::alloc::Global;
use std::marker::Model;
use std::sync::Wait;
use std::time::{Clock, Instant};

/// A `Member` is a registered thread together with its lot. It can make every call of the lot.
///
/// In contracts a member has four fields: the history of its lot, its number, the keys that it has
/// recorded, and its witness. The witness says which beginning of the history the member has seen,
/// and which of the events in it were added by its own calls.
///
/// If a member is only dropped, its number stays registered; `retire` gives it back.
#[derive(Drop)]
pub struct Member<'a, P: ThreadParkerT> {
    lot: &'a ParkingLot<P>,
    thread: ThreadData,
    ghost own: { IsDataOf lot.now thread },
}

impl<'a, P: ThreadParkerT> Model for Member<'a, P> {
    ghost use Rattle.lot_threads.specs.Members.{MemberState, member_of};

    ghost Value = { MemberState };

    ghost view = { λ member. member_of member.lot.now member.thread };
}

impl<'a, P: ThreadParkerT> Member<'a, P> {
    /// Registers a thread, as `ParkingLot::thread_data` does.
    ///
    /// The first event of the member's witness is this registration.
    ///
    /// # Errors
    ///
    /// Returns the errors of `ParkingLot::thread_data`.
    pub fn register<R: Wait>(
        rt: &R,
        alloc: Global,
        lot: &'a ParkingLot<P>,
    ) -> Result<Member<'a, P>, LotError>
        ensures not_too_many { result ≢ Err LotError.TooManyThreads }
        ensures lot { IfOk result (λ member. member.history ≡ lot.now) }
        ensures records { IfOk result (λ member. member.records ≡ []) }
        ensures registered { IfOk result (λ member.
            Begins lot.now Step.Register (Answer.Registered member.number) member.witness) }
    {
        let thread = lot.thread_data(rt, alloc)?;
        Ok(Member { lot, thread })
    }

    /// Creates a member from data that `thread_data` of this lot returned.
    pub fn of(lot: &'a ParkingLot<P>, thread: ThreadData) -> Member<'a, P>
        requires own { IsDataOf lot.now thread }
        ensures { result ≡ member_of lot.now thread }
    {
        Member { lot, thread }
    }

    /// Returns the data of the thread, which belongs to the lot, and ends the member.
    pub fn into_data(self) -> ThreadData
        ensures own { IsDataOf self.entry.history result }
        ensures thread { member_of self.entry.history result ≡ self.entry }
    {
        let Member { lot: _, thread } = self;
        thread
    }

    /// Returns the lot with which the thread is registered.
    pub fn lot(&self) -> &'a ParkingLot<P>
        ensures { result.now ≡ self.now.history }
    {
        self.lot
    }

    /// Returns the number of the thread.
    pub fn number(&self) -> usize
        ensures { result ≡ self.now.number }
    {
        self.thread.number()
    }

    /// Updates the witness of the member, so that it has seen all that the other member has seen.
    ///
    /// It sees the whole history up to this moment, which begins with all that the other has seen.
    pub fn hear(&mut self, other: &mut Member<'a, P>)
        requires { id_of other.old.history ≡ id_of self.old.history }
        ensures stays { Stays self.old self.new }
        ensures looks { Looks self.old.history self.old.witness self.new.witness }
        ensures heard { IsPrefix (seen_by other.old.witness) (seen_by self.new.witness) }
        ensures other { Stays other.old other.new }
        ensures unchanged { view_of other.new.witness ≡ view_of other.old.witness }
    {
        let history = self.lot.shared().history();
        history.hear(&mut self.thread.witness, &mut other.thread.witness);
    }

    /// Returns another witness, which has seen as much as this member, and has added no events.
    ///
    /// Whoever hears it by `hear_witness` has then seen at least that much. The call costs one
    /// load.
    pub fn tell(&mut self) -> Witness
        ensures stays { Stays self.old self.new }
        ensures unchanged { view_of self.new.witness ≡ view_of self.old.witness }
        ensures witness { IsWitnessOf self.old.history result }
        ensures seen { seen_by result ≡ seen_by self.old.witness }
        ensures nothing_added { events_of result ≡ [] }
        ensures no_pieces { pieces_of result ≡ [] }
    {
        self.lot.shared().history().tell(&mut self.thread.witness)
    }

    /// Updates the witness of the member, so that it has seen all that the other witness has seen.
    ///
    /// It sees the whole history up to this moment. The other witness may come from `tell` or
    /// `retire`. The call costs three loads.
    pub fn hear_witness(&mut self, other: &mut Witness)
        requires { IsWitnessOf self.old.history other.old }
        ensures stays { Stays self.old self.new }
        ensures looks { Looks self.old.history self.old.witness self.new.witness }
        ensures heard { IsPrefix (seen_by other.old) (seen_by self.new.witness) }
        ensures other { IsStill self.old.history other.old other.new }
        ensures unchanged { view_of other.new ≡ view_of other.old }
    {
        let history = self.lot.shared().history();
        history.hear(&mut self.thread.witness, other);
    }

    /// Parks the thread, as the function `park` does.
    pub fn park<R: Wait + Clock, V: FnOnce() -> bool, B: FnOnce(), T: FnOnce(usize, bool)>(
        &mut self,
        rt: &R,
        key: usize,
        validate: V,
        before_sleep: B,
        timed_out: T,
        park_token: ParkToken,
        timeout: Option<Instant>,
    ) -> ParkResult
        requires validate { V.pre validate }
        requires before_sleep { V.post validate true → B.pre before_sleep }
        requires timed_out { V.post validate true → timeout ≢ None
            → (key last : _) → T.pre timed_out key last }

        ensures stays { Stays self.old self.new }
        ensures parked { IsParked (λ valid. V.post validate valid) (B.post before_sleep tt)
            (λ left last. T.post timed_out left last tt) self.old key park_token
            (is_some timeout) result self.new }
    {
        park(
            rt,
            self.lot,
            &mut self.thread,
            key,
            validate,
            before_sleep,
            timed_out,
            park_token,
            timeout,
        )
    }

    /// Parks the thread, as the function `park_within` does.
    pub fn park_within<
        R: Wait + Clock,
        V: FnOnce(&CriticalSection) -> bool,
        B: FnOnce(&Witness),
        T: FnOnce(&CriticalSection, usize, bool),
    >(
        &mut self,
        rt: &R,
        key: usize,
        validate: V,
        before_sleep: B,
        timed_out: T,
        park_token: ParkToken,
        timeout: Option<Instant>,
    ) -> ParkResult
        requires { MayPark V.FnOnce B.FnOnce T.FnOnce validate before_sleep timed_out
            self.old.history key (is_some timeout) }

        ensures stays { Stays self.old self.new }
        ensures parked { IsParkedWithin V.FnOnce B.FnOnce T.FnOnce validate before_sleep timed_out
            self.old key park_token (is_some timeout) result self.new }
    {
        park_within(
            rt,
            self.lot,
            &mut self.thread,
            key,
            validate,
            before_sleep,
            timed_out,
            park_token,
            timeout,
        )
    }

    /// Unparks the first thread in the list of the key, if there is one, and hands it the token
    /// that `callback` returns.
    ///
    /// `callback` is called once, in the critical section of the key. It is given the result that
    /// this call returns: `(1, 0, more)`, where `more` says whether another thread waits on the
    /// key, or `(0, 0, false)` if nobody waits. In the second case nobody gets its token, but the
    /// history contains it all the same.
    ///
    /// `callback` must not call the lot, nor wait for a thread that does. The unpark allocates
    /// nothing.
    pub fn unpark_one<R: Wait, C: FnOnce(UnparkResult) -> UnparkToken>(
        &mut self,
        rt: &R,
        key: usize,
        callback: C,
    ) -> UnparkResult
        requires { (waiters : List Waiter) → C.pre callback (result_of (split_first waiters)) }

        ensures stays { Stays self.old self.new }
        ensures unparked { (token : UnparkToken) × C.post callback result token
            × Extends self.old.history self.old.witness
            (Step.Unpark (Op.One key token)) (Answer.Unpark result) self.new.witness }
    {
        self.unpark_one_within(
            rt,
            key,
            |_, found|
                requires { C.pre callback found }
                ensures { C.post callback found result }
            { callback(found) },
        )
    }

    /// Unparks as `unpark_one` does, and lends the callback the critical section in which it is
    /// called.
    ///
    /// So the contract says which threads waited on the key when the callback was called: those
    /// that the unpark found. No critical section exists before the bucket is locked or after it is
    /// unlocked, so the callback cannot be called at another time.
    pub fn unpark_one_within<R: Wait, C: FnOnce(&CriticalSection, UnparkResult) -> UnparkToken>(
        &mut self,
        rt: &R,
        key: usize,
        callback: C,
    ) -> UnparkResult
        requires { MayCallBack C.FnOnce callback self.old.history key }
        ensures stays { Stays self.old self.new }
        ensures unparked { UnparksOne C.FnOnce callback key self.old.history self.old.witness
            result self.new.witness }
    {
        let lot = self.lot.shared();
        lot.unpark_one(rt, &mut self.thread.witness, key, callback)
    }

    /// Unparks all threads in the list of the key, in order, and hands each of them the token. It
    /// returns how many there were.
    ///
    /// Each thread is handed its node and its token in the critical section. The first eight
    /// threads are woken after it, and all others in it, with the bucket locked. The call allocates
    /// nothing.
    pub fn unpark_all<R: Wait>(&mut self, rt: &R, key: usize, token: UnparkToken) -> usize
        ensures stays { Stays self.old self.new }
        ensures unparked { Extends self.old.history self.old.witness
            (Step.Unpark (Op.All key token)) (Answer.Count result) self.new.witness }
    {
        let lot = self.lot.shared();
        lot.unpark_all(rt, &mut self.thread.witness, key, token)
    }

    /// Unparks those threads in the list of the key that the filter chooses, in order, and hands
    /// each of them the token that `callback` returns. It returns how many there were, and whether
    /// others are left.
    ///
    /// In the critical section of the key, the filter is called with the park tokens of the waiting
    /// threads, in order. When it returns `Stop`, that thread and all behind it stay, and it is not
    /// called again. Then `callback` is called once with the result, also if nobody waits. (By the
    /// contract a count above `usize::MAX` would be returned as `usize::MAX`.)
    ///
    /// Each thread is handed its node and its token in the critical section. The first eight
    /// threads are woken after it, and all others in it, with the bucket locked. Neither closure
    /// may call the lot, nor wait for a thread that does. The call allocates nothing.
    pub fn unpark_filter<
        R: Wait,
        F: FnMut(ParkToken) -> FilterOp,
        C: FnOnce(UnparkResult) -> UnparkToken,
    >(&mut self, rt: &R, key: usize, filter: F, callback: C) -> UnparkResult
        requires callable { MayFilter F.FnMut C.FnOnce filter callback key self.old.history
            self.old.witness }
        ensures stays { Stays self.old self.new }
        ensures unparked { Unparks F.FnMut C.FnOnce filter callback key self.old.history
            self.old.witness result self.new.witness }
    {
        self.unpark_filter_within(
            rt,
            key,
            filter,
            |_, found|
                requires { C.pre callback found }
                ensures { C.post callback found result }
            { callback(found) },
        )
    }

    /// Unparks as `unpark_filter` does, and lends the callback the critical section in which it is
    /// called, as `unpark_one_within` does.
    pub fn unpark_filter_within<
        R: Wait,
        F: FnMut(ParkToken) -> FilterOp,
        C: FnOnce(&CriticalSection, UnparkResult) -> UnparkToken,
    >(&mut self, rt: &R, key: usize, filter: F, callback: C) -> UnparkResult
        requires callable { MayFilterWithin F.FnMut C.FnOnce filter callback key self.old.history
            self.old.witness }
        ensures stays { Stays self.old self.new }
        ensures unparked { UnparksWithin F.FnMut C.FnOnce filter callback key self.old.history
            self.old.witness result self.new.witness }
    {
        let lot = self.lot.shared();
        lot.unpark_filter(rt, &mut self.thread.witness, key, filter, callback)
    }

    /// Unparks as `unpark_filter` does, with closures that may be called at any time.
    ///
    /// Most closures have no conditions of their own, so they can be called at any time. Then the
    /// caller need not prove anything about lists of waiters.
    pub fn unpark_chosen<
        R: Wait,
        F: FnMut(ParkToken) -> FilterOp,
        C: FnOnce(UnparkResult) -> UnparkToken,
    >(&mut self, rt: &R, key: usize, filter: F, callback: C) -> UnparkResult
        requires filter { (state : F) (park_token : _) → F.pre state park_token }
        requires callback { (answer : _) → C.pre callback answer }
        ensures stays { Stays self.old self.new }
        ensures unparked { Unparks F.FnMut C.FnOnce filter callback key self.old.history
            self.old.witness result self.new.witness }
    {
        self.unpark_filter(rt, key, filter, callback)
    }

    /// Unparks one thread of the key `from`, or moves threads from its list to the list of `to`, or
    /// does both, as `validate` chooses.
    ///
    /// A thread that is unparked is handed the token that `callback` returns. The call returns how
    /// many threads were unparked and moved, and whether others are left.
    ///
    /// In one critical section of both keys `validate` is called once, and then `callback` once,
    /// with what `validate` returned and with the result. If `validate` returns `Abort`, nothing
    /// changes and `callback` is not called. (By the contract a count above `usize::MAX` would be
    /// returned as `usize::MAX`.) If the deadline of a thread passes after it was moved, it leaves
    /// the list of `to`.
    ///
    /// The bucket with the lower index is locked first. Neither closure may call the lot, nor wait
    /// for a thread that does. The call allocates nothing.
    pub fn unpark_requeue<
        R: Wait,
        V: FnOnce() -> RequeueOp,
        C: FnOnce(RequeueOp, UnparkResult) -> UnparkToken,
    >(&mut self, rt: &R, from: usize, to: usize, validate: V, callback: C) -> UnparkResult
        requires callable { MayRequeue V.FnOnce C.FnOnce validate callback }
        ensures stays { Stays self.old self.new }
        ensures requeued { Requeues V.FnOnce C.FnOnce validate callback from to self.old.history
            self.old.witness result self.new.witness }
    {
        self.unpark_requeue_within(
            rt,
            from,
            to,
            |_|
                requires { V.pre validate }
                ensures { V.post validate result }
            { validate() },
            |_, op, found|
                requires { C.pre callback op found }
                ensures { C.post callback op found result }
            { callback(op, found) },
        )
    }

    /// Requeues as `unpark_requeue` does, and lends the closures the critical section of the bucket
    /// of `from`, in which they are called.
    ///
    /// The contract says which threads waited on `from` when `validate` was called: those that the
    /// requeue found. About the list of `to` it says only what the step does to it.
    pub fn unpark_requeue_within<
        R: Wait,
        V: FnOnce(&CriticalSection) -> RequeueOp,
        C: FnOnce(&CriticalSection, RequeueOp, UnparkResult) -> UnparkToken,
    >(&mut self, rt: &R, from: usize, to: usize, validate: V, callback: C) -> UnparkResult
        requires callable { MayRequeueWithin V.FnOnce C.FnOnce validate callback self.old.history
            from }
        ensures stays { Stays self.old self.new }
        ensures requeued { RequeuesWithin V.FnOnce C.FnOnce validate callback from to
            self.old.history self.old.witness result self.new.witness }
    {
        let lot = self.lot.shared();
        lot.unpark_requeue(rt, &mut self.thread.witness, from, to, validate, callback)
    }

    /// Returns the numbers of the threads that are in the list of the key, in order.
    ///
    /// The list is the one after all events that the member has seen when the call returns, because
    /// the member sees the history while the bucket of the key is locked.
    ///
    /// The call allocates while the bucket is locked, and again whenever the list has to grow. Do
    /// not call it in a critical section.
    ///
    /// # Errors
    ///
    /// Returns `NoMemory` if there is not enough memory for the list. An empty list needs none.
    pub fn list<R: Wait>(
        &mut self,
        rt: &R,
        alloc: Global,
        key: usize,
    ) -> Result<Vec<usize>, NoMemory>
        ensures stays { Stays self.old self.new }
        ensures listed { IsListed self.old.history key self.old.witness self.new.witness result }
    {
        let lot = self.lot.shared();
        lot.list_in_section(rt, alloc, &mut self.thread.witness, key)
    }

    /// Makes the table smaller if it has more buckets than it needs. The list of every key stays as
    /// it was.
    ///
    /// A table needs three buckets for each registered thread, rounded up to a power of two, and at
    /// least 16.
    ///
    /// The call halves the table until it has that size. For each of these resizes it visits every
    /// bucket and every waiting thread. It takes the lock of the registry, and the locks of the
    /// buckets one at a time. Registrations, and calls whose bucket is being moved, wait for its
    /// end. The call neither allocates nor frees memory. Do not call it in a critical section.
    pub fn trim<R: Wait>(&mut self, rt: &R)
        ensures stays { Stays self.old self.new }
        ensures trimmed { Makes self.old Step.Trim Answer.Trimmed self.new }
    {
        let lot = self.lot.shared();
        lot.trim_and_tell(rt, &mut self.thread.witness);
    }

    /// Records that the thread holds the resource of this key, as `deadlock::acquire_resource`
    /// does.
    ///
    /// # Errors
    ///
    /// Returns `NoMemory` if there is not enough memory. The records have not changed then, and the
    /// history says so.
    pub fn acquire_resource(&mut self, key: usize) -> Result<(), NoMemory>
        ensures same { IsSame self.old self.new }
        ensures ok { OnOk result (times_recorded self.new.records
            ≡ one_more (times_recorded self.old.records) key) }
        ensures err { OnErr result (self.new.records ≡ self.old.records) }
        ensures recorded { OnOk result (Makes self.old
            (Step.Acquire self.old.number key) Answer.Recorded self.new) }
        ensures refused { OnErr result (Makes self.old
            (Step.Acquire self.old.number key) Answer.NoMemory self.new) }
    {
        acquire_resource(self.lot, &mut self.thread, key)
    }

    /// Takes one from the count of this key, as `deadlock::release_resource` does.
    pub fn release_resource(&mut self, key: usize)
        ensures same { IsSame self.old self.new }
        ensures records { times_recorded self.new.records
            ≡ one_less (times_recorded self.old.records) key }
        ensures released { Makes self.old
            (Step.Release self.old.number key) Answer.Released self.new }
    {
        release_resource(self.lot, &mut self.thread, key);
    }

    /// Returns how often the thread has recorded the key. It visits the records.
    pub fn records(&self, key: usize) -> usize
        ensures { result ≡ times_recorded self.now.records key }
    {
        self.thread.records(key)
    }

    /// Ends the registration of the thread, as `ParkingLot::retire` does, and returns its witness.
    pub fn retire<R: Wait>(self, rt: &R) -> Witness
        ensures still { IsStill self.entry.history self.entry.witness result }
        ensures retired { Extends self.entry.history self.entry.witness
            (Step.Retire self.entry.number) Answer.Retired result }
    {
        let Member { lot, thread } = self;
        lot.retire(rt, thread)
    }
}
