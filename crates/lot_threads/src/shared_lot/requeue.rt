//! Requeues, from the list of one key to that of another: their buckets, which may be one or two,
//! and what a section does to them.

ghost use denote.Ref.{Bor};
ghost use Rattle.std.specs.Prelude.{◌≡◌, ◌≢◌, ◌<◌, ◌≤◌, ◌∷◌, [], length, IfSome, MatchOption, Some};
ghost use Rattle.lot_base.specs.BucketState.{KeepsPlace};
ghost use Rattle.lot_base.specs.Place.{place_of};
ghost use Rattle.lot_base.specs.declared.token.UnparkResult.{UnparkResult};
ghost use Rattle.lot_machine.specs.declared.step.Answer.{Answer};
ghost use Rattle.lot_machine.specs.declared.step.Step.{Step};
ghost use Rattle.lot_history.specs.Witness.{id_of, limit_of, max_threads_of, Adds, IsStill};
ghost use Rattle.lot_word_lock.specs.WordLock.{key_of};
ghost use Rattle.lot_threads.specs.Cells.{AreApart, IsCell, IsCellFor, IsLockAt, IsLockFor, TakesFrom, lists_in};
ghost use Rattle.lot_threads.specs.Idle.{IsIdle, StaysIdle};
ghost use Rattle.lot_threads.specs.Requeues.{IsRequeueWithin, MayRequeueWithin, RequeuesWithin};
ghost use Rattle.lot_threads.specs.Sections.{AreLockedInOrder, IsKeyedLock};
ghost use Rattle.lot_threads.specs.Within.{FindsPieces};

use super::{SharedLot, lock_at};
use crate::cell::{Cell, Slot};
use crate::critical_section::CriticalSection;
use crate::parker::ThreadParkerT;
use crate::section::{Licence, Section};
use crate::told::{add_requeue, add_taken};
use lot_base::bucket::place_by_bits;
use lot_base::queue::Queue;
use lot_base::token::{RequeueOp, UnparkResult, UnparkToken};
use lot_base::word_lock::WordLock;
use lot_history::history::{Part, Witness};
use lot_history::plays::Told;
use lot_machine::step::Answer;
use std::mem;
use std::sync::Wait;

// The lock of the bucket of a key, with the bucket's place in its row.
#[derive(Copy, Clone)]
struct KeyedLock<'b> {
    lock: &'b WordLock<Slot>,
    place: usize,
    key: usize,
}

impl<P: ThreadParkerT> SharedLot<P> {
    // Requeues threads of the key `from` onto the key `to`, and wakes the one that was unparked, if
    // there is one, once the buckets were let go.
    pub(crate) fn unpark_requeue<
        R: Wait,
        V: FnOnce(&CriticalSection) -> RequeueOp,
        C: FnOnce(&CriticalSection, RequeueOp, UnparkResult) -> UnparkToken,
    >(
        &self,
        rt: &R,
        me: &mut Witness,
        from: usize,
        to: usize,
        validate: V,
        callback: C,
    ) -> UnparkResult
        requires idle { IsIdle self.now me.old }
        requires plain { limit_of self.now ≡ 0 }
        requires callable { MayRequeueWithin V.FnOnce C.FnOnce validate callback self.now from }
        ensures idle { StaysIdle self.now me.old me.new }
        ensures requeued { RequeuesWithin V.FnOnce C.FnOnce validate callback from to self.now
            me.old result me.new }
    {
        let (mut source, target, licence) = self.open_two(rt, from, to);
        let Some(mut target) = target else {
            let (result, handle) = source.requeue_here(rt, me, licence, to, validate, callback);
            source.close();
            self.wake(handle);
            return result;
        };
        let (result, handle) = source.requeue_to(rt, me, licence, &mut target, validate, callback);
        source.close();
        target.close();
        self.wake(handle);
        result
    }

    // The section of the key `from`, and that of the key `to` if it has another bucket, with one
    // licence. That of the lower place is opened first.
    #[inline(always)]
    fn open_two<R: Wait>(
        &self,
        rt: &R,
        from: usize,
        to: usize,
    ) -> (Section<'_, P>, Option<Section<'_, P>>, Licence)
        ensures lot { result.0.lot.now ≡ self.now }
        ensures other_lot { IfSome result.1 (λ other. other.lot.now ≡ self.now) }
        ensures from { result.0.key ≡ from }
        ensures to { MatchOption result.1 (IsLockFor self.now to result.0.lock.now)
            (λ other. other.key ≡ to) }
        ensures apart { IfSome result.1 (λ other. AreApart result.0.lock.now other.lock.now) }
        ensures order { IfSome result.1 (λ other.
            AreLockedInOrder result.0.lock.now other.lock.now result.0.behind other.behind) }
    {
        for _ in rt.forever() {
            match self.locks_of(from, to) {
                (source, Some(target)) => {
                    if let Some((source, target, licence)) = self.open_both(rt, source, target) {
                        return (source, Some(target), licence);
                    }
                }
                (source, None) => {
                    if let Some((source, licence)) = Section::at(rt, self, source.lock, from) {
                        return (source, None, licence);
                    }
                }
            }
            self.wait_for_change(rt);
        }
        unreachable!()
    }

    // Opens the sections of two buckets of a row, or answers `None` where either is away. That of
    // the lower place is opened first, as whoever has two does.
    #[inline(always)]
    fn open_both<'b, R: Wait>(
        &'b self,
        rt: &R,
        source: KeyedLock<'b>,
        target: KeyedLock<'b>,
    ) -> Option<(Section<'b, P>, Section<'b, P>, Licence)>
        requires apart { AreApart source.lock.now target.lock.now }
        requires source { IsKeyedLock self.now source }
        requires target { IsKeyedLock self.now target }
        ensures lots { IfSome result (λ both. (both.0.lot.now ≡ self.now)
            × (both.1.lot.now ≡ self.now)) }
        ensures keys { IfSome result (λ both. (both.0.key ≡ source.entry.key)
            × (both.1.key ≡ target.entry.key)) }
        ensures locks { IfSome result (λ both. (both.0.lock.now ≡ source.entry.lock.now)
            × (both.1.lock.now ≡ target.entry.lock.now)) }
        ensures order { IfSome result (λ both.
            AreLockedInOrder both.0.lock.now both.1.lock.now both.0.behind both.1.behind) }
    {
        if source.place < target.place {
            return self.open_in_order(rt, source, target);
        }
        let (target, source, licence) = self.open_in_order(rt, target, source)?;
        Some((source, target, licence))
    }

    // Opens these two sections, one after the other.
    #[inline(always)]
    fn open_in_order<'b, R: Wait>(
        &'b self,
        rt: &R,
        first: KeyedLock<'b>,
        second: KeyedLock<'b>,
    ) -> Option<(Section<'b, P>, Section<'b, P>, Licence)>
        requires first { IsKeyedLock self.now first }
        requires second { IsKeyedLock self.now second }
        requires order { first.place < second.place }
        ensures lots { IfSome result (λ both. (both.0.lot.now ≡ self.now)
            × (both.1.lot.now ≡ self.now)) }
        ensures keys { IfSome result (λ both. (both.0.key ≡ first.entry.key)
            × (both.1.key ≡ second.entry.key)) }
        ensures locks { IfSome result (λ both. (both.0.lock.now ≡ first.entry.lock.now)
            × (both.1.lock.now ≡ second.entry.lock.now)) }
        ensures behind { IfSome result (λ both.
            both.1.behind ≡ Some (key_of first.entry.lock.now).place) }
    {
        let (opened, licence) = Section::at(rt, self, first.lock, first.key)?;
        let Some(other) = Section::behind(rt, &opened, first.place, second.lock, second.key) else {
            licence.spend();
            opened.close();
            return None;
        };
        Some((opened, other, licence))
    }

    // The lock of the bucket of the key `from`, and that of the key `to` if it is another, in one
    // row.
    #[inline(always)]
    fn locks_of(&self, from: usize, to: usize) -> (KeyedLock<'_>, Option<KeyedLock<'_>>)
        ensures from { IsKeyedLock self.now result.0 × (result.0.key ≡ from) }
        ensures to { MatchOption result.1 (IsLockFor self.now to result.0.lock.now)
            (λ other. IsKeyedLock self.now other × (other.key ≡ to)
            × AreApart result.0.lock.now other.lock.now) }
    {
        let (index, row) = self.row_in_use();
        let source = place_by_bits(from, index + 4);
        let target = place_by_bits(to, index + 4);
        if source == target {
            return (keyed_at(row, source, from), None);
        }
        (keyed_at(row, source, from), Some(keyed_at(row, target, to)))
    }

    // Requeues waiters of the key `from` onto the key `to`, where both have one bucket, and tells
    // so. The witness has the pieces of those that were taken, one at most.
    pub(crate) fn requeue_in_one<
        E: Told,
        V: FnOnce(&CriticalSection) -> RequeueOp,
        C: FnOnce(&CriticalSection, RequeueOp, UnparkResult) -> UnparkToken,
    >(
        &self,
        me: &mut Witness,
        licence: Licence,
        cell: &mut Cell,
        from: usize,
        to: usize,
        validate: V,
        callback: C,
    ) -> (UnparkResult, Queue)
        requires idle { IsIdle self.now me.old }
        requires above { limit_of self.now ≤ from }
        requires to_above { limit_of self.now ≤ to }
        requires cell { IsCellFor self.now from cell.old }
        requires to { place_of to cell.old.bucket.size ≡ cell.old.bucket.place }
        requires callable { MayRequeueWithin V.FnOnce C.FnOnce validate callback self.now from }
        requires said { (answer : UnparkResult) (s : Step) (a : Answer)
            → IsRequeueWithin V.FnOnce C.FnOnce validate callback self.now cell.old.bucket from to
            answer s a → E.said s a }

        ensures still { IsStill self.now me.old me.new }
        ensures adds { Adds self.now me.old
            (λ s a. E.said s a × (a ≡ Answer.Unpark result.0)) me.new }
        ensures found { FindsPieces self.now (lists_in (limit_of self.now) cell.old.bucket ∷ [])
            me.old me.new }
        ensures taken { TakesFrom self.now cell.old cell.new result.1 me.new }
        ensures one { length result.1 ≤ 1 }
    {
        let mut moved = |number: usize, timed: bool| self.note_key(number, timed, to);
        let part = mem::replace(&mut cell.part, Part::none());
        let section = CriticalSection { part };
        let (result, taken) = cell.bucket.requeue_one(
            from,
            to,
            ||
                requires { (lent : Bor CriticalSection) → lent.now ≡ section
                    → V.pre validate lent }
                ensures { (lent : Bor CriticalSection) × (lent.now ≡ section)
                    × V.post validate lent result }
            { validate(&section) },
            |op, found|
                requires { (lent : Bor CriticalSection) → lent.now ≡ section
                    → C.pre callback lent op found }
                ensures { (lent : Bor CriticalSection) × (lent.now ≡ section)
                    × C.post callback lent op found result }
            { callback(&section, op, found) },
            &mut moved,
        );
        let CriticalSection { part } = section;
        self.history.take(me, part);
        let answer = Answer::Unpark(result);
        add_taken::<E>(&self.history, me, licence, cell, &taken, answer);
        (result, taken)
    }

    // Does what `requeue_in_one` does, where each key has a bucket of its own.
    pub(crate) fn requeue_across<
        E: Told,
        V: FnOnce(&CriticalSection) -> RequeueOp,
        C: FnOnce(&CriticalSection, RequeueOp, UnparkResult) -> UnparkToken,
    >(
        &self,
        me: &mut Witness,
        licence: Licence,
        source: &mut Cell,
        target: &mut Cell,
        from: usize,
        to: usize,
        validate: V,
        callback: C,
    ) -> (UnparkResult, Queue)
        requires idle { IsIdle self.now me.old }
        requires above { limit_of self.now ≤ from }
        requires to_above { limit_of self.now ≤ to }
        requires source { IsCellFor self.now from source.old }
        requires target { IsCellFor self.now to target.old }
        requires size { target.old.bucket.size ≡ source.old.bucket.size }
        requires places { target.old.bucket.place ≢ source.old.bucket.place }
        requires callable { MayRequeueWithin V.FnOnce C.FnOnce validate callback self.now from }
        requires said { (answer : UnparkResult) (s : Step) (a : Answer)
            → IsRequeueWithin V.FnOnce C.FnOnce validate callback self.now source.old.bucket from
            to answer s a → E.said s a }

        ensures still { IsStill self.now me.old me.new }
        ensures adds { Adds self.now me.old
            (λ s a. E.said s a × (a ≡ Answer.Unpark result.0)) me.new }
        ensures found { FindsPieces self.now
            (lists_in (limit_of self.now) source.old.bucket
            ∷ lists_in (limit_of self.now) target.old.bucket ∷ []) me.old me.new }
        ensures taken { TakesFrom self.now source.old source.new result.1 me.new }
        ensures target { IsCell (id_of self.now) (max_threads_of self.now)
            (limit_of self.now) target.new }
        ensures place { KeepsPlace target.old.bucket target.new.bucket }
        ensures one { length result.1 ≤ 1 }
    {
        let mut moved = |number: usize, timed: bool| self.note_key(number, timed, to);
        let part = mem::replace(&mut source.part, Part::none());
        let first = CriticalSection { part };
        let (result, taken) = source.bucket.requeue_two(
            &mut target.bucket,
            from,
            to,
            ||
                requires { (lent : Bor CriticalSection) → lent.now ≡ first
                    → V.pre validate lent }
                ensures { (lent : Bor CriticalSection) × (lent.now ≡ first)
                    × V.post validate lent result }
            { validate(&first) },
            |op, found|
                requires { (lent : Bor CriticalSection) → lent.now ≡ first
                    → C.pre callback lent op found }
                ensures { (lent : Bor CriticalSection) × (lent.now ≡ first)
                    × C.post callback lent op found result }
            { callback(&first, op, found) },
            &mut moved,
        );
        let CriticalSection { part } = first;
        source.part = part;
        let answer = Answer::Unpark(result);
        add_requeue::<E>(&self.history, me, licence, source, target, &taken, answer);
        (result, taken)
    }
}

// The lock at this place of a row, with the place, for this key.
fn keyed_at(row: &[WordLock<Slot>], place: usize, key: usize) -> KeyedLock<'_>
    requires { place < length row.now }
    ensures lock { IsLockAt place row.now result.lock.now }
    ensures place { result.place ≡ place }
    ensures key { result.key ≡ key }
{
    KeyedLock {
        lock: lock_at(row, place),
        place,
        key,
    }
}
