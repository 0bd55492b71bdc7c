//! What a section does to a bucket where its key has a title.

ghost use Rattle.std.specs.Prelude.{◌≡◌, ◌∷◌, ◌++◌, [], length, not, true, IfErr, IfOk};
ghost use Rattle.lot_base.specs.Node.{fields};
ghost use Rattle.lot_base.specs.NodeLists.{saturated};
ghost use Rattle.lot_base.specs.Waiting.{has_any, result_of, split_first};
ghost use Rattle.lot_history.specs.Witness.{Extends, events_of, id_of, max_threads_of, seen_by};
ghost use Rattle.lot_history.specs.declared.view.Piece.TheVariants.{Thread, Timing};
ghost use Rattle.lot_machine.specs.declared.step.Answer.{Answer};
ghost use Rattle.lot_machine.specs.declared.step.Step.{Step};
ghost use Rattle.lot_threads.specs.Cells.{Has, HasTiming, IsBelow};
ghost use Rattle.lot_threads.specs.Idle.{IsIdle, StaysIdle};
ghost use Rattle.lot_threads.specs.Members.{Leaves, entry_of, entry_step};
ghost use Rattle.lot_threads.specs.Titled.{IsTitle, Retells, told_by, without_next, without_one};

use super::{Licence, Section};
use crate::parker::ThreadParkerT;
use crate::shared_lot::handles::Handles;
use crate::title::Title;
use crate::titled_steps::{
    enter_titled_in, leave_titled_in, take_all_titled_of, take_one_titled_of,
};
use lot_base::queue::Node;
use lot_base::token::{UnparkResult, UnparkToken};
use lot_history::history::{Part, Witness};
use lot_machine::status::Status;
use lot_machine::step::{Answer, Op, Step};
use std::sync::Wait;

impl<'a, P: ThreadParkerT> Section<'a, P> {
    /// Unparks the first thread of the key, if there is one, with the key's title, and answers its
    /// handle too.
    pub(crate) fn take_one_titled<R: Wait>(
        &mut self,
        rt: &R,
        me: &mut Witness,
        licence: Licence,
        title: Title,
        token: UnparkToken,
    ) -> (UnparkResult, Option<P::UnparkHandle>, Title)
        requires idle { IsIdle self.old.lot.now me.old }
        requires title { IsTitle self.old.lot.now self.old.key title }
        ensures lot { self.new.lot.now ≡ self.old.lot.now }
        ensures key { self.new.key ≡ self.old.key }
        ensures idle { StaysIdle self.old.lot.now me.old me.new }
        ensures unparked { Extends self.old.lot.now me.old
            (Step.Unpark (Op.One self.old.key token)) (Answer.Unpark result.0) me.new }
        ensures told { result.0 ≡ result_of (split_first (told_by title)) }
        ensures title { Retells self.old.lot.now self.old.key title
            (without_next (told_by title)) result.2 }
    {
        let lot = self.lot;
        let key = self.key;
        let slot = self.claim.value_mut(self.lock).as_mut().unwrap();
        let cell = slot.cell.as_mut().unwrap();
        let (result, taken, title) = take_one_titled_of(
            lot.history(),
            me,
            licence,
            cell,
            key,
            title,
            token,
        );
        (result, lot.commit_one(rt, me, taken), title)
    }

    /// Unparks all threads of the key, with the key's title, and answers handles of the first of
    /// them too.
    pub(crate) fn take_all_titled<R: Wait>(
        &mut self,
        rt: &R,
        me: &mut Witness,
        licence: Licence,
        title: Title,
        token: UnparkToken,
    ) -> (usize, Handles<P::UnparkHandle>, Title)
        requires idle { IsIdle self.old.lot.now me.old }
        requires title { IsTitle self.old.lot.now self.old.key title }
        ensures lot { self.new.lot.now ≡ self.old.lot.now }
        ensures key { self.new.key ≡ self.old.key }
        ensures idle { StaysIdle self.old.lot.now me.old me.new }
        ensures unparked { Extends self.old.lot.now me.old
            (Step.Unpark (Op.All self.old.key token)) (Answer.Count result.0) me.new }
        ensures told { result.0 ≡ saturated (length (told_by title)) }
        ensures title { Retells self.old.lot.now self.old.key title [] result.2 }
    {
        let lot = self.lot;
        let key = self.key;
        let slot = self.claim.value_mut(self.lock).as_mut().unwrap();
        let cell = slot.cell.as_mut().unwrap();
        let (count, taken, title) = take_all_titled_of(
            lot.history(),
            me,
            licence,
            cell,
            key,
            title,
            token,
        );
        (count, lot.commit(rt, me, taken), title)
    }

    /// Puts a thread last in the list of the key, with the key's title. `timing` says then how it
    /// waits.
    pub(crate) fn enter_titled(
        &mut self,
        me: &mut Witness,
        licence: Licence,
        thread: Part,
        timing: &mut Part,
        node: Box<Node>,
        title: Title,
    ) -> Title
        requires idle { IsIdle self.old.lot.now me.old }
        requires key { (fields node.value).key ≡ self.old.key }
        requires below { IsBelow (max_threads_of self.old.lot.now) (fields node.value) }
        requires thread { Has (id_of self.old.lot.now)
            (Thread (fields node.value).number Status.Running ∷ []) thread }
        requires timing { HasTiming (id_of self.old.lot.now) (fields node.value).number
            timing.old }
        requires title { IsTitle self.old.lot.now self.old.key title }
        ensures lot { self.new.lot.now ≡ self.old.lot.now }
        ensures key { self.new.key ≡ self.old.key }
        ensures idle { StaysIdle self.old.lot.now me.old me.new }
        ensures extends { Extends self.old.lot.now me.old
            (entry_step (entry_of (fields node.value)) true) Answer.Entered me.new }
        ensures title { Retells self.old.lot.now self.old.key title
            (told_by title ++ (fields node.value).number ∷ []) result }
        ensures timing { Has (id_of self.old.lot.now)
            (Timing (fields node.value).number (fields node.value).timed ∷ []) timing.new }
    {
        let history = self.lot.history();
        let slot = self.claim.value_mut(self.lock).as_mut().unwrap();
        let cell = slot.cell.as_mut().unwrap();
        enter_titled_in(history, me, licence, cell, thread, timing, node, title)
    }

    /// Takes a thread whose deadline has passed out of the list of the key, with the key's title,
    /// and answers whether it was the last there; or gives the title back if the thread does not
    /// stand there, since an unpark took it.
    pub(crate) fn leave_titled(
        &mut self,
        me: &mut Witness,
        licence: Licence,
        number: usize,
        title: Title,
    ) -> Result<(Part, Box<Node>, bool, Title), Title>
        requires idle { IsIdle self.old.lot.now me.old }
        requires title { IsTitle self.old.lot.now self.old.key title }
        ensures lot { self.new.lot.now ≡ self.old.lot.now }
        ensures key { self.new.key ≡ self.old.key }
        ensures idle { StaysIdle self.old.lot.now me.old me.new }
        ensures left { IfOk result (λ back.
            Leaves self.old.lot.now number self.old.key back.2 me.old me.new) }
        ensures title { IfOk result (λ back. Retells self.old.lot.now self.old.key title
            (without_one number (told_by title)) back.3) }
        ensures last { IfOk result (λ back.
            back.2 ≡ not (has_any (without_one number (told_by title)))) }
        ensures returned { IfOk result (λ back. ((fields back.1.value).number ≡ number)
            × Has (id_of self.old.lot.now) (Thread number Status.Running ∷ []) back.0) }
        ensures unchanged { IfErr result (λ back. (back ≡ title)
            × (seen_by me.new ≡ seen_by me.old) × (events_of me.new ≡ events_of me.old)) }
    {
        let history = self.lot.history();
        let key = self.key;
        let slot = self.claim.value_mut(self.lock).as_mut().unwrap();
        let cell = slot.cell.as_mut().unwrap();
        leave_titled_in(history, me, licence, cell, number, key, title)
    }
}
