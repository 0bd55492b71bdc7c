//! A section: what a call does while it has the bucket of a key locked.

ghost use Rattle.std.specs.Prelude.{◌≡◌, ◌<◌, ◌≤◌, ◌∷◌, [], length, All, Bool, IfErr, IfNone, IfSome, OnErr, OnOk, Some, true};
ghost use Rattle.std.proofs.Props.{props};
ghost use Rattle.lot_base.specs.Node.{fields};
ghost use Rattle.lot_machine.specs.declared.step.Answer.{Answer};
ghost use Rattle.lot_machine.specs.declared.step.Step.{Step};
ghost use Rattle.lot_history.specs.Witness.{Extends, IsStill, events_of, id_of, max_threads_of, pieces_of, seen_by, limit_of};
ghost use Rattle.lot_history.specs.declared.view.Piece.TheVariants.{Thread, Timing};
ghost use Rattle.lot_word_lock.specs.WordLock.{IsClaimOn, key_of};
ghost use Rattle.lot_threads.specs.Cells.{AreApart, FitsSlot, Has, HasTiming, IsBelow, IsLockFor, threads_in};
ghost use Rattle.lot_threads.specs.Idle.{IsIdle, StaysIdle};
ghost use Rattle.lot_threads.specs.Members.{IsListed, entry_of};
ghost use Rattle.lot_threads.specs.Requeues.{MayRequeueWithin, RequeuesWithin};
ghost use Rattle.lot_threads.specs.Sections.{HasBucket};
ghost use Rattle.lot_threads.specs.Within.{Enters, MayCallBack, MayFilterWithin, MayTellTimeout, MayValidate, Refuses, TellsTimeout, UnparksOne, UnparksWithin};

mod titled;

use crate::cell::Slot;
use crate::cell_steps::{enter_in, leave_in, list_in, take_all_of, take_filter_of, take_one_of};
use crate::critical_section::CriticalSection;
use crate::parker::ThreadParkerT;
use crate::shared_lot::SharedLot;
use crate::shared_lot::handles::Handles;
use lot_base::queue::{Node, Queue};
use lot_base::token::{FilterOp, NoMemory, ParkToken, RequeueOp, UnparkResult, UnparkToken};
use lot_base::word_lock::{Claim, WordLock};
use lot_history::history::{Part, Witness};
use lot_machine::status::Status;
use lot_machine::step::{Answer, Op, Step};
use std::alloc::Global;
use std::marker::Brand;
use std::sync::Wait;

/// Leave to add one step to the history. Opening a section gives one, and nothing else does; the
/// section's step uses it. It has no bytes, and no `Drop`.
pub(crate) struct Licence {
    given: (),
}

impl Licence {
    /// Uses it up.
    #[inline(always)]
    pub(crate) fn spend(self) {
        let Licence { given: () } = self;
    }
}

/// A call that has the bucket of a key, which lies behind its lock. Its step changes the bucket and
/// adds to the history what it did. It has no `Drop`: it ends in `close`.
///
/// A requeue has two, of which `behind` tells the place of the one that was opened before.
pub(crate) struct Section<'a, P: ThreadParkerT> {
    pub(crate) lot: &'a SharedLot<P>,
    lock: &'a WordLock<Slot>,
    behind: Option<usize>,
    claim: Claim<Slot>,
    pub(crate) key: usize,
    ghost for_key: { IsLockFor lot.now key lock.now },
    ghost has_bucket: { HasBucket lock.now claim } by { Prim.hlevel props },
}

impl<'a, P: ThreadParkerT> Section<'a, P> {
    /// Locks the bucket of the key.
    #[inline(always)]
    pub(crate) fn open<R: Wait>(
        rt: &R,
        lot: &'a SharedLot<P>,
        key: usize,
    ) -> (Section<'a, P>, Licence)
        ensures lot { result.0.lot.now ≡ lot.now }
        ensures key { result.0.key ≡ key }
    {
        let lock = lot.lock_of(key);
        // The compiler puts a check behind each call that may wait, so the usual way has none.
        if let Some(claim) = lock.try_claim()
            && let Some(opened) = Section::of(lot, lock, claim, key)
        {
            return opened;
        }
        let (lock, claim) = Section::claim_slow(rt, lot, key);
        Section::with_bucket(lot, lock, claim, key)
    }

    // A claim of the lock of the key's bucket, after a try in vain. Where a change of rows took the
    // bucket away, it waits until that is done, and looks again.
    #[cold]
    #[inline(never)]
    fn claim_slow<R: Wait>(
        rt: &R,
        lot: &'a SharedLot<P>,
        key: usize,
    ) -> (&'a WordLock<Slot>, Claim<Slot>)
        ensures lock { IsLockFor lot.now key result.0.now }
        ensures bucket { HasBucket result.0.now result.1 }
    {
        for _ in rt.forever() {
            let lock = lot.lock_of(key);
            let mut claim = lock.claim(rt);
            if claim.value_mut(lock).as_mut().unwrap().cell.is_some() {
                return (lock, claim);
            }
            lock.release(claim);
            lot.wait_for_change(rt);
        }
        unreachable!()
    }

    /// Locks the bucket of this lock, which is that of the key, or answers `None` where a change of
    /// rows took it away.
    #[inline]
    pub(crate) fn at<R: Wait>(
        rt: &R,
        lot: &'a SharedLot<P>,
        lock: &'a WordLock<Slot>,
        key: usize,
    ) -> Option<(Section<'a, P>, Licence)>
        requires { IsLockFor lot.now key lock.now }
        ensures lot { IfSome result (λ opened. opened.0.lot.now ≡ lot.now) }
        ensures lock { IfSome result (λ opened. opened.0.lock.now ≡ lock.now) }
        ensures key { IfSome result (λ opened. opened.0.key ≡ key) }
    {
        let claim = lock.claim(rt);
        Section::of(lot, lock, claim, key)
    }

    // The section that has the bucket of this lock, or `None` where the bucket is away. Then the
    // lock is let go.
    #[inline(always)]
    fn of(
        lot: &'a SharedLot<P>,
        lock: &'a WordLock<Slot>,
        claim: Claim<Slot>,
        key: usize,
    ) -> Option<(Section<'a, P>, Licence)>
        requires lock { IsLockFor lot.now key lock.now }
        requires claim { IsClaimOn (FitsSlot (key_of lock.now)) lock.now claim }
        ensures lot { IfSome result (λ opened. opened.0.lot.now ≡ lot.now) }
        ensures lock { IfSome result (λ opened. opened.0.lock.now ≡ lock.now) }
        ensures key { IfSome result (λ opened. opened.0.key ≡ key) }
    {
        let mut claim = claim;
        if claim.value_mut(lock).as_mut().unwrap().cell.is_none() {
            lock.release(claim);
            return None;
        }
        Some(Section::with_bucket(lot, lock, claim, key))
    }

    // The section that has the bucket of this lock, which is there.
    #[inline(always)]
    fn with_bucket(
        lot: &'a SharedLot<P>,
        lock: &'a WordLock<Slot>,
        claim: Claim<Slot>,
        key: usize,
    ) -> (Section<'a, P>, Licence)
        requires lock { IsLockFor lot.now key lock.now }
        requires bucket { HasBucket lock.now claim }
        ensures lot { result.0.lot.now ≡ lot.now }
        ensures lock { result.0.lock.now ≡ lock.now }
        ensures key { result.0.key ≡ key }
    {
        let section = Section {
            lot,
            lock,
            behind: None,
            claim,
            key,
        };
        (section, Licence { given: () })
    }

    /// Does what `at` does, for a call that has the bucket of a lower place, whose section is
    /// `first`. Its licence is that of `first`.
    #[inline(always)]
    pub(crate) fn behind<R: Wait>(
        rt: &R,
        first: &Section<'a, P>,
        place: usize,
        lock: &'a WordLock<Slot>,
        key: usize,
    ) -> Option<Section<'a, P>>
        requires lock { IsLockFor first.now.lot.now key lock.now }
        requires place { place ≡ (key_of first.now.lock.now).place }
        requires order { place < (key_of lock.now).place }
        ensures lot { IfSome result (λ section. section.lot.now ≡ first.now.lot.now) }
        ensures lock { IfSome result (λ section. section.lock.now ≡ lock.now) }
        ensures key { IfSome result (λ section. section.key ≡ key) }
        ensures behind { IfSome result (λ section.
            section.behind ≡ Some (key_of first.now.lock.now).place) }
    {
        let (mut section, licence) = Section::at(rt, first.lot, lock, key)?;
        licence.spend();
        section.behind = Some(place);
        Some(section)
    }

    /// Lets the bucket go.
    #[inline]
    pub(crate) fn close(self) {
        let Section {
            lot: _,
            lock,
            behind: _,
            claim,
            key: _,
        } = self;
        lock.release(claim);
    }

    /// Takes the first waiter of the key out of its list, if there is one, and tells so. Its unpark
    /// is still to be committed.
    #[inline]
    pub(crate) fn take_one<C: FnOnce(&CriticalSection, UnparkResult) -> UnparkToken>(
        &mut self,
        me: &mut Witness,
        licence: Licence,
        callback: C,
    ) -> (UnparkResult, Queue)
        requires idle { IsIdle self.old.lot.now me.old }
        requires above { limit_of self.old.lot.now ≤ self.old.key }
        requires callable { MayCallBack C.FnOnce callback self.old.lot.now self.old.key }
        ensures still { IsStill self.old.lot.now me.old me.new }
        ensures unparked { UnparksOne C.FnOnce callback self.old.key self.old.lot.now me.old
            result.0 me.new }
        ensures pieces { pieces_of me.new ≡ threads_in result.1 }
        ensures below { All (IsBelow (max_threads_of self.old.lot.now)) result.1 }
        ensures one { length result.1 ≤ 1 }
    {
        let slot = self.claim.value_mut(self.lock).as_mut().unwrap();
        let cell = slot.cell.as_mut().unwrap();
        let history = self.lot.history();
        take_one_of::<Brand, C>(history, me, licence, cell, self.key, callback)
    }

    /// Unparks all threads of the key, and answers handles of the first of them.
    pub(crate) fn take_all<R: Wait>(
        &mut self,
        rt: &R,
        me: &mut Witness,
        licence: Licence,
        token: UnparkToken,
    ) -> (usize, Handles<P::UnparkHandle>)
        requires idle { IsIdle self.old.lot.now me.old }
        requires above { limit_of self.old.lot.now ≤ self.old.key }
        ensures idle { StaysIdle self.old.lot.now me.old me.new }
        ensures unparked { Extends self.old.lot.now me.old
            (Step.Unpark (Op.All self.old.key token)) (Answer.Count result.0) me.new }
    {
        let lot = self.lot;
        let key = self.key;
        let slot = self.claim.value_mut(self.lock).as_mut().unwrap();
        let cell = slot.cell.as_mut().unwrap();
        let (count, taken) = take_all_of::<Brand>(lot.history(), me, licence, cell, key, token);
        (count, lot.commit(rt, me, taken))
    }

    /// Unparks those threads of the key that the filter unparks, and answers handles of the first
    /// of them.
    pub(crate) fn take_filter<
        R: Wait,
        F: FnMut(ParkToken) -> FilterOp,
        C: FnOnce(&CriticalSection, UnparkResult) -> UnparkToken,
    >(
        &mut self,
        rt: &R,
        me: &mut Witness,
        licence: Licence,
        filter: F,
        callback: C,
    ) -> (UnparkResult, Handles<P::UnparkHandle>)
        requires idle { IsIdle self.old.lot.now me.old }
        requires above { limit_of self.old.lot.now ≤ self.old.key }
        requires callable { MayFilterWithin F.FnMut C.FnOnce filter callback self.old.key
            self.old.lot.now me.old }
        ensures idle { StaysIdle self.old.lot.now me.old me.new }
        ensures unparked { UnparksWithin F.FnMut C.FnOnce filter callback self.old.key
            self.old.lot.now me.old result.0 me.new }
    {
        let lot = self.lot;
        let key = self.key;
        let slot = self.claim.value_mut(self.lock).as_mut().unwrap();
        let cell = slot.cell.as_mut().unwrap();
        let (result, taken) = take_filter_of(
            lot.history(),
            me,
            licence,
            cell,
            key,
            filter,
            callback,
        );
        (result, lot.commit(rt, me, taken))
    }

    /// Requeues threads of the key onto the key `to`, which has the same bucket, as `validate`
    /// chooses, and answers the handle of the one that is unparked, if there is one.
    pub(crate) fn requeue_here<
        R: Wait,
        V: FnOnce(&CriticalSection) -> RequeueOp,
        C: FnOnce(&CriticalSection, RequeueOp, UnparkResult) -> UnparkToken,
    >(
        &mut self,
        rt: &R,
        me: &mut Witness,
        licence: Licence,
        to: usize,
        validate: V,
        callback: C,
    ) -> (UnparkResult, Option<P::UnparkHandle>)
        requires idle { IsIdle self.old.lot.now me.old }
        requires above { limit_of self.old.lot.now ≤ self.old.key }
        requires to_above { limit_of self.old.lot.now ≤ to }
        requires to { IsLockFor self.old.lot.now to self.old.lock.now }
        requires callable { MayRequeueWithin V.FnOnce C.FnOnce validate callback self.old.lot.now
            self.old.key }
        ensures idle { StaysIdle self.old.lot.now me.old me.new }
        ensures requeued { RequeuesWithin V.FnOnce C.FnOnce validate callback self.old.key to
            self.old.lot.now me.old result.0 me.new }
    {
        let lot = self.lot;
        let from = self.key;
        let slot = self.claim.value_mut(self.lock).as_mut().unwrap();
        let cell = slot.cell.as_mut().unwrap();
        let (result, taken) = lot.requeue_in_one::<Brand, V, C>(
            me, licence, cell, from, to, validate, callback,
        );
        (result, lot.commit_one(rt, me, taken))
    }

    /// Does what `requeue_here` does, onto the key of another bucket, which the section `target`
    /// has.
    pub(crate) fn requeue_to<
        R: Wait,
        V: FnOnce(&CriticalSection) -> RequeueOp,
        C: FnOnce(&CriticalSection, RequeueOp, UnparkResult) -> UnparkToken,
    >(
        &mut self,
        rt: &R,
        me: &mut Witness,
        licence: Licence,
        target: &mut Section<'a, P>,
        validate: V,
        callback: C,
    ) -> (UnparkResult, Option<P::UnparkHandle>)
        requires idle { IsIdle self.old.lot.now me.old }
        requires above { limit_of self.old.lot.now ≤ self.old.key }
        requires to_above { limit_of self.old.lot.now ≤ target.old.key }
        requires lot { target.old.lot.now ≡ self.old.lot.now }
        requires apart { AreApart self.old.lock.now target.old.lock.now }
        requires callable { MayRequeueWithin V.FnOnce C.FnOnce validate callback self.old.lot.now
            self.old.key }
        ensures idle { StaysIdle self.old.lot.now me.old me.new }
        ensures requeued { RequeuesWithin V.FnOnce C.FnOnce validate callback self.old.key
            target.old.key self.old.lot.now me.old result.0 me.new }
    {
        let lot = self.lot;
        let from = self.key;
        let to = target.key;
        let slot = self.claim.value_mut(self.lock).as_mut().unwrap();
        let source = slot.cell.as_mut().unwrap();
        let slot = target.claim.value_mut(target.lock).as_mut().unwrap();
        let other = slot.cell.as_mut().unwrap();
        let (result, taken) = lot.requeue_across::<Brand, V, C>(
            me, licence, source, other, from, to, validate, callback,
        );
        (result, lot.commit_one(rt, me, taken))
    }

    /// Puts a thread last in the list of the key, if `validate` answers true, or gives its piece
    /// and its node back. Once it is in the list, `timing` says how it waits.
    #[inline]
    pub(crate) fn enter<V: FnOnce(&CriticalSection) -> bool>(
        &mut self,
        me: &mut Witness,
        licence: Licence,
        thread: Part,
        timing: &mut Part,
        node: Box<Node>,
        validate: V,
    ) -> Result<(), (Part, Box<Node>)>
        requires idle { IsIdle self.old.lot.now me.old }
        requires above { limit_of self.old.lot.now ≤ self.old.key }
        requires key { (fields node.value).key ≡ self.old.key }
        requires below { IsBelow (max_threads_of self.old.lot.now) (fields node.value) }
        requires thread { Has (id_of self.old.lot.now)
            (Thread (fields node.value).number Status.Running ∷ []) thread }
        requires timing { HasTiming (id_of self.old.lot.now) (fields node.value).number
            timing.old }
        requires callable { MayValidate V.FnOnce validate self.old.lot.now self.old.key }
        ensures idle { StaysIdle self.old.lot.now me.old me.new }
        ensures entered { OnOk result (Enters V.FnOnce validate self.old.lot.now
            (entry_of (fields node.value)) me.old me.new) }
        ensures refused { IfErr result (λ back. Refuses V.FnOnce validate self.old.lot.now
            (entry_of (fields node.value)) me.old me.new) }
        ensures returned { IfErr result (λ back. (back.1.value ≡ node.value)
            × Has (id_of self.old.lot.now)
            (Thread (fields node.value).number Status.Running ∷ []) back.0) }
        ensures timing { OnOk result (Has (id_of self.old.lot.now)
            (Timing (fields node.value).number (fields node.value).timed ∷ []) timing.new) }
        ensures same_timing { OnErr result (timing.new ≡ timing.old) }
    {
        let lot = self.lot;
        let key = self.key;
        let number = node.number;
        let timed = node.timed;
        let slot = self.claim.value_mut(self.lock).as_mut().unwrap();
        let cell = slot.cell.as_mut().unwrap();
        let entered = enter_in(
            lot.history(),
            me,
            licence,
            cell,
            thread,
            timing,
            node,
            validate,
        );
        if entered.is_ok() {
            lot.note_key(number, timed, key);
        }
        entered
    }

    /// Takes a thread whose deadline has passed out of the list of the key and calls `timed_out`,
    /// or answers `None` if it does not stand there, since an unpark took it.
    pub(crate) fn leave<T: FnOnce(&CriticalSection, usize, bool)>(
        &mut self,
        me: &mut Witness,
        licence: Licence,
        timing: &mut Part,
        number: usize,
        timed_out: T,
    ) -> Option<(Part, Box<Node>)>
        requires idle { IsIdle self.old.lot.now me.old }
        requires above { limit_of self.old.lot.now ≤ self.old.key }
        requires timing { Has (id_of self.old.lot.now) (Timing number true ∷ []) timing.old }
        requires callable { MayTellTimeout T.FnOnce timed_out self.old.lot.now }
        ensures idle { StaysIdle self.old.lot.now me.old me.new }
        ensures left { IfSome result (λ back. (last : Bool)
            × TellsTimeout T.FnOnce timed_out self.old.lot.now number self.old.key last me.old
            me.new) }
        ensures returned { IfSome result (λ back. ((fields back.1.value).number ≡ number)
            × Has (id_of self.old.lot.now) (Thread number Status.Running ∷ []) back.0) }
        ensures timing { Has (id_of self.old.lot.now) (Timing number true ∷ []) timing.new }
        ensures unchanged { IfNone result ((seen_by me.new ≡ seen_by me.old)
            × (events_of me.new ≡ events_of me.old)) }
    {
        let history = self.lot.history();
        let key = self.key;
        let slot = self.claim.value_mut(self.lock).as_mut().unwrap();
        let cell = slot.cell.as_mut().unwrap();
        leave_in(history, me, licence, cell, timing, number, key, timed_out)
    }

    /// Sees the history with the bucket's part, and lists the threads of the key.
    pub(crate) fn list(&mut self, me: &mut Witness, alloc: Global) -> Result<Vec<usize>, NoMemory>
        requires idle { IsIdle self.old.lot.now me.old }
        ensures idle { StaysIdle self.old.lot.now me.old me.new }
        ensures listed { IsListed self.old.lot.now self.old.key me.old me.new result }
    {
        let history = self.lot.history();
        let key = self.key;
        let slot = self.claim.value_mut(self.lock).as_mut().unwrap();
        let cell = slot.cell.as_mut().unwrap();
        list_in(history, me, cell, alloc, key)
    }
}
