//! This module has visitors of a lot: callers that are not registered, and whose calls add to the
//! lot's history.

ghost use Rattle.std.specs.Prelude.{◌≡◌, List, []};
ghost use mathlib.Core.List.{IsPrefix};
ghost use Rattle.lot_base.specs.Waiting.{result_of, split_first};
ghost use Rattle.lot_machine.specs.Machine.{Waiter};
ghost use Rattle.lot_machine.specs.declared.step.Answer.{Answer};
ghost use Rattle.lot_machine.specs.declared.step.Step.{Step};
ghost use Rattle.lot_history.specs.Witness.{IsStill, IsWitnessOf, Looks, events_of, pieces_of, seen_by, view_of};
ghost use Rattle.lot_threads.specs.Filters.{MayFilter, Unparks};
ghost use Rattle.lot_threads.specs.Idle.{IsIdle};
ghost use Rattle.lot_threads.specs.Members.{IsListed};
ghost use Rattle.lot_threads.specs.Requeues.{MayRequeue, MayRequeueWithin, Requeues, RequeuesWithin};
ghost use Rattle.lot_threads.specs.Visitors.{Does, Visits};
ghost use Rattle.lot_threads.specs.Within.{MayCallBack, MayFilterWithin, UnparksOne, UnparksWithin};

use crate::critical_section::CriticalSection;
use crate::parker::ThreadParkerT;
use crate::parking_lot::ParkingLot;
use lot_base::token::{FilterOp, NoMemory, ParkToken, RequeueOp, UnparkResult, UnparkToken};
use lot_history::history::Witness;
use lot_machine::step::{Answer, Op, Step};
use std::alloc::Global;
use std::marker::Model;
use std::sync::Wait;

/// A `Visitor` is a caller of a lot that has a witness of its own and is not registered as a
/// thread. It can make every call of a `Member`, except those that need a registered thread.
///
/// In contracts a visitor has two fields: the history of its lot, and its witness. The witness says
/// which beginning of the history the visitor has seen, and which of the events in it were added by
/// its own calls. So the contract of each call says which step it added to the history of this lot.
/// The contract of a free function such as `unpark_one` can only say with what its closures were
/// called.
///
/// Visitors of several threads learn of each other's calls by `tell` and `hear_witness`. A witness
/// may go from one thread to another through a lock or a channel.
#[derive(Drop)]
pub struct Visitor<'a, P: ThreadParkerT> {
    lot: &'a ParkingLot<P>,
    witness: Witness,
    ghost own: { IsIdle lot.now witness },
}

impl<P: ThreadParkerT> ParkingLot<P> {
    /// Creates a visitor of the lot, whose witness has seen nothing and added nothing. It costs one
    /// load.
    #[inline]
    pub fn visitor(&self) -> Visitor<'_, P>
        ensures lot { result.history ≡ self.now }
        ensures nothing_seen { seen_by result.witness ≡ [] }
        ensures nothing_added { events_of result.witness ≡ [] }
    {
        Visitor {
            lot: self,
            witness: self.shared().history().witness(),
        }
    }
}

impl<'a, P: ThreadParkerT> Model for Visitor<'a, P> {
    ghost use Rattle.lot_threads.specs.Visitors.{VisitorState};

    ghost Value = { VisitorState };

    ghost view = { λ visitor. record {
      history = visitor.lot.now;
      witness = visitor.witness;
    } };
}

impl<'a, P: ThreadParkerT> Visitor<'a, P> {
    /// Creates a visitor of the lot from a witness, for example one that `tell` or `Member::retire`
    /// returned.
    pub fn of(lot: &'a ParkingLot<P>, witness: Witness) -> Visitor<'a, P>
        requires of_history { IsWitnessOf lot.now witness }
        requires no_pieces { pieces_of witness ≡ [] }
        ensures lot { result.history ≡ lot.now }
        ensures witness { result.witness ≡ witness }
    {
        Visitor { lot, witness }
    }

    /// Returns the witness of the visitor, which others may hear, and ends the visitor.
    pub fn into_witness(self) -> Witness
        ensures of_history { IsWitnessOf self.entry.history result }
        ensures no_pieces { pieces_of result ≡ [] }
        ensures witness { result ≡ self.entry.witness }
    {
        let Visitor { lot: _, witness } = self;
        witness
    }

    /// Returns the lot of the visitor.
    pub fn lot(&self) -> &'a ParkingLot<P>
        ensures { result.now ≡ self.now.history }
    {
        self.lot
    }

    /// Returns another witness, which has seen as much as this visitor, and has added no events.
    ///
    /// Whoever hears it by `hear_witness` has then seen at least that much. The call costs one
    /// load.
    pub fn tell(&mut self) -> Witness
        ensures visits { Visits self.old self.new }
        ensures unchanged { view_of self.new.witness ≡ view_of self.old.witness }
        ensures witness { IsWitnessOf self.old.history result }
        ensures seen { seen_by result ≡ seen_by self.old.witness }
        ensures nothing_added { events_of result ≡ [] }
        ensures no_pieces { pieces_of result ≡ [] }
    {
        self.lot.shared().history().tell(&mut self.witness)
    }

    /// Updates the witness of the visitor, so that it has seen all that the other witness has seen.
    ///
    /// It sees the whole history up to this moment. The call costs three loads.
    pub fn hear_witness(&mut self, other: &mut Witness)
        requires { IsWitnessOf self.old.history other.old }
        ensures visits { Visits self.old self.new }
        ensures looks { Looks self.old.history self.old.witness self.new.witness }
        ensures heard { IsPrefix (seen_by other.old) (seen_by self.new.witness) }
        ensures other { IsStill self.old.history other.old other.new }
        ensures unchanged { view_of other.new ≡ view_of other.old }
    {
        self.lot.shared().history().hear(&mut self.witness, other);
    }

    /// Unparks the first thread in the list of the key, as `Member::unpark_one` does.
    pub fn unpark_one<R: Wait, C: FnOnce(UnparkResult) -> UnparkToken>(
        &mut self,
        rt: &R,
        key: usize,
        callback: C,
    ) -> UnparkResult
        requires { (waiters : List Waiter) → C.pre callback (result_of (split_first waiters)) }
        ensures visits { Visits self.old self.new }
        ensures unparked { (token : UnparkToken) × C.post callback result token
            × Does self.old (Step.Unpark (Op.One key token)) (Answer.Unpark result) self.new }
    {
        self.unpark_one_within(
            rt,
            key,
            |_, found|
                requires { C.pre callback found }
                ensures { C.post callback found result }
            { callback(found) },
        )
    }

    /// Unparks as `unpark_one` does, and lends the callback the critical section in which it is
    /// called.
    ///
    /// So the contract says which threads waited on the key when the callback was called: those
    /// that the unpark found. No critical section exists before the bucket is locked or after it is
    /// unlocked, so the callback cannot be called at another time.
    pub fn unpark_one_within<R: Wait, C: FnOnce(&CriticalSection, UnparkResult) -> UnparkToken>(
        &mut self,
        rt: &R,
        key: usize,
        callback: C,
    ) -> UnparkResult
        requires { MayCallBack C.FnOnce callback self.old.history key }
        ensures visits { Visits self.old self.new }
        ensures unparked { UnparksOne C.FnOnce callback key self.old.history self.old.witness
            result self.new.witness }
    {
        let lot = self.lot.shared();
        lot.unpark_one(rt, &mut self.witness, key, callback)
    }

    /// Unparks all threads in the list of the key, as `Member::unpark_all` does.
    pub fn unpark_all<R: Wait>(&mut self, rt: &R, key: usize, token: UnparkToken) -> usize
        ensures visits { Visits self.old self.new }
        ensures unparked { Does self.old (Step.Unpark (Op.All key token)) (Answer.Count result)
            self.new }
    {
        let lot = self.lot.shared();
        lot.unpark_all(rt, &mut self.witness, key, token)
    }

    /// Unparks those threads in the list of the key that the filter chooses, as
    /// `Member::unpark_filter` does.
    pub fn unpark_filter<
        R: Wait,
        F: FnMut(ParkToken) -> FilterOp,
        C: FnOnce(UnparkResult) -> UnparkToken,
    >(&mut self, rt: &R, key: usize, filter: F, callback: C) -> UnparkResult
        requires callable { MayFilter F.FnMut C.FnOnce filter callback key self.old.history
            self.old.witness }
        ensures visits { Visits self.old self.new }
        ensures unparked { Unparks F.FnMut C.FnOnce filter callback key self.old.history
            self.old.witness result self.new.witness }
    {
        self.unpark_filter_within(
            rt,
            key,
            filter,
            |_, found|
                requires { C.pre callback found }
                ensures { C.post callback found result }
            { callback(found) },
        )
    }

    /// Unparks as `unpark_filter` does, and lends the callback the critical section in which it is
    /// called, as `unpark_one_within` does.
    pub fn unpark_filter_within<
        R: Wait,
        F: FnMut(ParkToken) -> FilterOp,
        C: FnOnce(&CriticalSection, UnparkResult) -> UnparkToken,
    >(&mut self, rt: &R, key: usize, filter: F, callback: C) -> UnparkResult
        requires callable { MayFilterWithin F.FnMut C.FnOnce filter callback key self.old.history
            self.old.witness }
        ensures visits { Visits self.old self.new }
        ensures unparked { UnparksWithin F.FnMut C.FnOnce filter callback key self.old.history
            self.old.witness result self.new.witness }
    {
        let lot = self.lot.shared();
        lot.unpark_filter(rt, &mut self.witness, key, filter, callback)
    }

    /// Unparks as `unpark_filter` does, with closures that may be called at any time.
    ///
    /// Most closures have no conditions of their own, so they can be called at any time. Then the
    /// caller need not prove anything about lists of waiters.
    pub fn unpark_chosen<
        R: Wait,
        F: FnMut(ParkToken) -> FilterOp,
        C: FnOnce(UnparkResult) -> UnparkToken,
    >(&mut self, rt: &R, key: usize, filter: F, callback: C) -> UnparkResult
        requires filter { (state : F) (park_token : _) → F.pre state park_token }
        requires callback { (answer : _) → C.pre callback answer }
        ensures visits { Visits self.old self.new }
        ensures unparked { Unparks F.FnMut C.FnOnce filter callback key self.old.history
            self.old.witness result self.new.witness }
    {
        self.unpark_filter(rt, key, filter, callback)
    }

    /// Unparks one thread of the key `from`, or moves threads to the list of `to`, or does both, as
    /// `Member::unpark_requeue` does.
    pub fn unpark_requeue<
        R: Wait,
        V: FnOnce() -> RequeueOp,
        C: FnOnce(RequeueOp, UnparkResult) -> UnparkToken,
    >(&mut self, rt: &R, from: usize, to: usize, validate: V, callback: C) -> UnparkResult
        requires callable { MayRequeue V.FnOnce C.FnOnce validate callback }
        ensures visits { Visits self.old self.new }
        ensures requeued { Requeues V.FnOnce C.FnOnce validate callback from to self.old.history
            self.old.witness result self.new.witness }
    {
        self.unpark_requeue_within(
            rt,
            from,
            to,
            |_|
                requires { V.pre validate }
                ensures { V.post validate result }
            { validate() },
            |_, op, found|
                requires { C.pre callback op found }
                ensures { C.post callback op found result }
            { callback(op, found) },
        )
    }

    /// Requeues as `unpark_requeue` does, and lends the closures the critical section of the bucket
    /// of `from`, as `Member::unpark_requeue_within` does.
    pub fn unpark_requeue_within<
        R: Wait,
        V: FnOnce(&CriticalSection) -> RequeueOp,
        C: FnOnce(&CriticalSection, RequeueOp, UnparkResult) -> UnparkToken,
    >(&mut self, rt: &R, from: usize, to: usize, validate: V, callback: C) -> UnparkResult
        requires callable { MayRequeueWithin V.FnOnce C.FnOnce validate callback self.old.history
            from }
        ensures visits { Visits self.old self.new }
        ensures requeued { RequeuesWithin V.FnOnce C.FnOnce validate callback from to
            self.old.history self.old.witness result self.new.witness }
    {
        let lot = self.lot.shared();
        lot.unpark_requeue(rt, &mut self.witness, from, to, validate, callback)
    }

    /// Returns the numbers of the threads that are in the list of the key, in order, as
    /// `Member::list` does.
    ///
    /// # Errors
    ///
    /// Returns `NoMemory` if there is not enough memory for the list. An empty list needs none.
    pub fn list<R: Wait>(
        &mut self,
        rt: &R,
        alloc: Global,
        key: usize,
    ) -> Result<Vec<usize>, NoMemory>
        ensures visits { Visits self.old self.new }
        ensures listed { IsListed self.old.history key self.old.witness self.new.witness result }
    {
        let lot = self.lot.shared();
        lot.list_in_section(rt, alloc, &mut self.witness, key)
    }

    /// Makes the table smaller, as `Member::trim` does.
    pub fn trim<R: Wait>(&mut self, rt: &R)
        ensures visits { Visits self.old self.new }
        ensures trimmed { Does self.old Step.Trim Answer.Trimmed self.new }
    {
        self.lot.shared().trim_and_tell(rt, &mut self.witness);
    }
}
