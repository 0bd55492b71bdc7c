//! How a thread waits that entered the list of a key: it comes back, or leaves the list in which it
//! stands then.

ghost use Rattle.std.specs.Prelude.{◌≡◌, ◌≢◌, ◌∷◌, ◌<◌, ℕ, [], Bool, IfNone, IfSome, None, true};
ghost use Rattle.std.specs.Option.{is_some};
ghost use Rattle.lot_base.specs.Node.{fields};
ghost use Rattle.lot_history.specs.Witness.{events_of, id_of, max_threads_of, seen_by, limit_of, Extends};
ghost use Rattle.lot_history.specs.declared.view.Piece.TheVariants.{Thread, Timing};
ghost use Rattle.lot_threads.specs.Cells.{Has, thread_taken};
ghost use Rattle.lot_threads.specs.Idle.{IsIdle, StaysIdle};
ghost use Rattle.lot_threads.specs.Within.{EndsWithin, MayTellTimeout, TellsTimeout};
ghost use Rattle.lot_machine.specs.declared.step.Answer.{Answer};
ghost use Rattle.lot_machine.specs.declared.step.Step.{Step};

use super::SharedLot;
use crate::critical_section::CriticalSection;
use crate::parker::{Letter, ThreadParkerT};
use crate::section::{Licence, Section};
use lot_base::queue::Node;
use lot_base::token::ParkResult;
use lot_history::history::{Part, Witness};
use lot_machine::status::Status;
use lot_machine::step::{Answer, Step};
use std::sync::Wait;
use std::time::{Clock, Instant};

impl<P: ThreadParkerT> SharedLot<P> {
    // The wait of a thread that entered a list, with a timeout or without, as `timing` says: sleeps
    // until an unpark of it was committed, or until the deadline, and then leaves the list in which
    // it stands, unless an unpark took it meanwhile.
    pub(crate) fn wait<R: Wait + Clock, T: FnOnce(&CriticalSection, usize, bool)>(
        &self,
        rt: &R,
        me: &mut Witness,
        timing: &mut Part,
        number: usize,
        timed_out: T,
        timeout: Option<Instant>,
    ) -> (ParkResult, Part, Box<Node>)
        requires idle { IsIdle self.now me.old }
        requires plain { limit_of self.now ≡ 0 }
        requires below { number < max_threads_of self.now }
        requires timing { Has (id_of self.now) (Timing number (is_some timeout) ∷ []) timing.old }
        requires callable { timeout ≢ None → MayTellTimeout T.FnOnce timed_out self.now }
        ensures idle { StaysIdle self.now me.old me.new }
        ensures ends { EndsWithin T.FnOnce timed_out self.now number (is_some timeout) result.0
            me.old me.new }
        ensures thread { Has (id_of self.now) (Thread number Status.Running ∷ []) result.1 }
        ensures number { (fields result.2.value).number ≡ number }
        ensures timing { Has (id_of self.now) (Timing number (is_some timeout) ∷ []) timing.new }
    {
        let parker = self.parker(number);
        let Some(timeout) = timeout else {
            let (node, letter) = parker.park(rt);
            let thread = self.come_back(me, &node, letter);
            return (ParkResult::Unparked(node.unpark_token), thread, node);
        };
        if let Some((node, letter)) = parker.park_until(rt, timeout) {
            let thread = self.come_back(me, &node, letter);
            return (ParkResult::Unparked(node.unpark_token), thread, node);
        }
        if let Some((thread, node)) = self.leave(rt, me, timing, number, timed_out) {
            return (ParkResult::TimedOut, thread, node);
        }
        let (node, letter) = parker.park(rt);
        let thread = self.come_back(me, &node, letter);
        (ParkResult::Unparked(node.unpark_token), thread, node)
    }

    // A thread that was unparked comes back: opens the letter that came beside its node, and
    // answers the thread's piece.
    pub(crate) fn come_back(&self, me: &mut Witness, node: &Node, letter: Letter) -> Part
        requires idle { IsIdle self.now me.old }
        requires letter { Has (id_of self.now) (thread_taken (fields node.now) ∷ []) letter.part }
        ensures idle { StaysIdle self.now me.old me.new }
        ensures extends { Extends self.now me.old (Step.Return node.now.number)
            (Answer.Unparked node.now.unpark_token) me.new }
        ensures thread { Has (id_of self.now)
            (Thread node.now.number Status.Running ∷ []) result }
    {
        let Letter { part } = letter;
        self.history.take(me, part);
        self.history.give_back(me, node.number, node.unpark_token);
        self.history.give(me)
    }

    // The section in which a thread whose deadline has passed leaves the list in which it stands,
    // or answers `None` if an unpark took it.
    fn leave<R: Wait, T: FnOnce(&CriticalSection, usize, bool)>(
        &self,
        rt: &R,
        me: &mut Witness,
        timing: &mut Part,
        number: usize,
        timed_out: T,
    ) -> Option<(Part, Box<Node>)>
        requires idle { IsIdle self.now me.old }
        requires plain { limit_of self.now ≡ 0 }
        requires below { number < max_threads_of self.now }
        requires timing { Has (id_of self.now) (Timing number true ∷ []) timing.old }
        requires callable { MayTellTimeout T.FnOnce timed_out self.now }
        ensures idle { StaysIdle self.now me.old me.new }
        ensures left { IfSome result (λ back. (key : ℕ) × (last : Bool)
            × TellsTimeout T.FnOnce timed_out self.now number key last me.old me.new) }
        ensures returned { IfSome result (λ back. ((fields back.1.value).number ≡ number)
            × Has (id_of self.now) (Thread number Status.Running ∷ []) back.0) }
        ensures timing { Has (id_of self.now) (Timing number true ∷ []) timing.new }
        ensures unchanged { IfNone result ((seen_by me.new ≡ seen_by me.old)
            × (events_of me.new ≡ events_of me.old)) }
    {
        let (mut section, licence) = self.open_own(rt, number);
        let left = section.leave(me, licence, timing, number, timed_out);
        section.close();
        left
    }

    // Locks the bucket of the key on which a thread waits that has a timeout. A requeue moves the
    // thread with both buckets locked, so while this one is, it stands here or was taken.
    fn open_own<R: Wait>(&self, rt: &R, number: usize) -> (Section<'_, P>, Licence)
        requires { number < max_threads_of self.now }
        ensures { result.0.lot.now ≡ self.now }
    {
        for _ in rt.forever() {
            let key = self.key(number);
            let (section, licence) = Section::open(rt, self, key);
            if self.key(number) == key {
                return (section, licence);
            }
            licence.spend();
            section.close();
        }
        unreachable!()
    }
}
