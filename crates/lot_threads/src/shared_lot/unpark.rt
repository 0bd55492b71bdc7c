//! Unparks, but for requeues, and lists: how nodes are taken, and how each is handed to its thread
//! with a letter beside it.

ghost use Rattle.std.specs.Prelude.{◌≡◌, ◌∷◌, ◌<◌, ◌≤◌, [], length, map, min, All};
ghost use Rattle.lot_machine.specs.declared.step.Answer.{Answer};
ghost use Rattle.lot_machine.specs.declared.step.Step.{Step};
ghost use Rattle.lot_history.specs.Witness.{Extends, limit_of, IsWitnessOf, events_of, id_of, max_threads_of, pieces_of, seen_by};
ghost use Rattle.lot_threads.specs.Idle.{IsIdle, StaysIdle};
ghost use Rattle.lot_threads.specs.Members.{IsListed};
ghost use Rattle.lot_threads.specs.Within.{MayCallBack, MayFilterWithin, UnparksOne, UnparksWithin};
ghost use Rattle.lot_base.specs.Node.{fields};
ghost use Rattle.lot_threads.specs.Cells.{Has, IsBelow, thread_taken, threads_in};
ghost use Rattle.lot_threads.specs.Handles.{handle_numbers, kept_handles};

use super::SharedLot;
use super::handles::{HANDLES, Handles, Room};
use crate::critical_section::CriticalSection;
use crate::parker::{Letter, ThreadParkerT};
use crate::section::Section;
use lot_base::queue::{Node, Queue};
use lot_base::thread_parker::UnparkHandleT;
use lot_base::token::{FilterOp, NoMemory, ParkToken, UnparkResult, UnparkToken};
use lot_history::history::{Part, Witness};
use lot_machine::step::{Answer, Op, Step};
use std::alloc::Global;
use std::sync::Wait;

impl<P: ThreadParkerT> SharedLot<P> {
    // Unparks the first thread of the key, if there is one, and wakes it once the bucket was let
    // go.
    pub(crate) fn unpark_one<R: Wait, C: FnOnce(&CriticalSection, UnparkResult) -> UnparkToken>(
        &self,
        rt: &R,
        me: &mut Witness,
        key: usize,
        callback: C,
    ) -> UnparkResult
        requires idle { IsIdle self.now me.old }
        requires plain { limit_of self.now ≡ 0 }
        requires callable { MayCallBack C.FnOnce callback self.now key }
        ensures idle { StaysIdle self.now me.old me.new }
        ensures unparked { UnparksOne C.FnOnce callback key self.now me.old result me.new }
    {
        let (mut section, licence) = Section::open(rt, self, key);
        let (result, taken) = section.take_one(me, licence, callback);
        // An unpark that finds nobody is the usual one.
        let handle = if taken.front().is_none() {
            None
        } else {
            self.commit_one(rt, me, taken)
        };
        section.close();
        self.wake(handle);
        result
    }

    // Unparks all threads of the key, and wakes the first of them once the bucket was let go.
    pub(crate) fn unpark_all<R: Wait>(
        &self,
        rt: &R,
        me: &mut Witness,
        key: usize,
        token: UnparkToken,
    ) -> usize
        requires idle { IsIdle self.now me.old }
        requires plain { limit_of self.now ≡ 0 }
        ensures idle { StaysIdle self.now me.old me.new }
        ensures unparked { Extends self.now me.old (Step.Unpark (Op.All key token))
            (Answer.Count result) me.new }
    {
        let (mut section, licence) = Section::open(rt, self, key);
        let (count, handles) = section.take_all(rt, me, licence, token);
        section.close();
        self.wake_all(handles);
        count
    }

    // Unparks those threads of the key that the filter unparks, and wakes the first of them once
    // the bucket was let go.
    pub(crate) fn unpark_filter<
        R: Wait,
        F: FnMut(ParkToken) -> FilterOp,
        C: FnOnce(&CriticalSection, UnparkResult) -> UnparkToken,
    >(&self, rt: &R, me: &mut Witness, key: usize, filter: F, callback: C) -> UnparkResult
        requires idle { IsIdle self.now me.old }
        requires plain { limit_of self.now ≡ 0 }
        requires callable { MayFilterWithin F.FnMut C.FnOnce filter callback key self.now me.old }
        ensures idle { StaysIdle self.now me.old me.new }
        ensures unparked { UnparksWithin F.FnMut C.FnOnce filter callback key self.now me.old
            result me.new }
    {
        let (mut section, licence) = Section::open(rt, self, key);
        let (result, handles) = section.take_filter(rt, me, licence, filter, callback);
        section.close();
        self.wake_all(handles);
        result
    }

    // The section of a list.
    pub(crate) fn list_in_section<R: Wait>(
        &self,
        rt: &R,
        alloc: Global,
        me: &mut Witness,
        key: usize,
    ) -> Result<Vec<usize>, NoMemory>
        requires idle { IsIdle self.now me.old }
        ensures idle { StaysIdle self.now me.old me.new }
        ensures listed { IsListed self.now key me.old me.new result }
    {
        let (mut section, licence) = Section::open(rt, self, key);
        licence.spend();
        let listed = section.list(me, alloc);
        section.close();
        listed
    }

    // Commits the unparks of all nodes that were taken, in order. It wakes the threads for whose
    // handles there is no room.
    pub(crate) fn commit<R: Wait>(
        &self,
        rt: &R,
        me: &mut Witness,
        mut taken: Queue,
    ) -> Handles<P::UnparkHandle>
        requires witness { IsWitnessOf self.now me.old }
        requires pieces { pieces_of me.old ≡ threads_in taken }
        requires below { All (IsBelow (max_threads_of self.now)) taken }
        ensures idle { StaysIdle self.now me.old me.new }
        ensures seen { seen_by me.new ≡ seen_by me.old }
        ensures nothing_added { events_of me.new ≡ events_of me.old }
        ensures handles { min HANDLES (length taken) ≤ kept_handles result }
    {
        let mut handles: Handles<P::UnparkHandle> = Room::empty();
        while let Some(node) = taken.pop_front() {
            let part = self.history.give(me);
            let handle = self.hand_over(rt, node, part);
            self.wake(handles.put(handle));
        }
        handles
    }

    // Commits the unpark of the node that was taken, if there is one.
    pub(crate) fn commit_one<R: Wait>(
        &self,
        rt: &R,
        me: &mut Witness,
        mut taken: Queue,
    ) -> Option<P::UnparkHandle>
        requires witness { IsWitnessOf self.now me.old }
        requires pieces { pieces_of me.old ≡ threads_in taken }
        requires below { All (IsBelow (max_threads_of self.now)) taken }
        requires one { length taken ≤ 1 }
        ensures idle { StaysIdle self.now me.old me.new }
        ensures seen { seen_by me.new ≡ seen_by me.old }
        ensures nothing_added { events_of me.new ≡ events_of me.old }
        ensures handle { handle_numbers P.UnparkHandle.number result
            ≡ map (λ node. node.number) taken }
    {
        let node = taken.pop_front()?;
        let part = self.history.give(me);
        Some(self.hand_over(rt, node, part))
    }

    // Hands a node that was taken to its thread, with its piece, which is the commit of an unpark.
    #[inline(never)]
    fn hand_over<R: Wait>(&self, rt: &R, node: Box<Node>, part: Part) -> P::UnparkHandle
        requires below { IsBelow (max_threads_of self.now) (fields node.value) }
        requires part { Has (id_of self.now) (thread_taken (fields node.value) ∷ []) part }
        ensures { P.UnparkHandle.number result ≡ (fields node.value).number }
    {
        self.parker(node.number)
            .unpark_lock(rt, node, Letter { part })
    }

    // Wakes the thread whose unpark was committed, if there is one. Its number is that of a thread
    // of this lot, so none is skipped; no contract of a handle says so.
    #[inline]
    pub(crate) fn wake(&self, handle: Option<P::UnparkHandle>) {
        let Some(handle) = handle else {
            return;
        };
        let number = handle.number();
        if number < self.threads.len() {
            handle.unpark(self.parker(number));
        }
    }

    // Wakes the threads whose handles were kept.
    pub(crate) fn wake_all(&self, mut handles: Handles<P::UnparkHandle>) {
        // There is room for no more handles.
        for _ in 0..HANDLES {
            let Some(handle) = handles.take() else {
                return;
            };
            self.wake(Some(handle));
        }
    }
}
