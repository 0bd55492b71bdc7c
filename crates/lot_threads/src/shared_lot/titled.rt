//! How a thread waits in the list of a key that has a title: it comes back once an unpark took it.

ghost use Rattle.std.specs.Prelude.{◌≡◌, ◌∷◌, ◌<◌, [], IfNone, IfSome};
ghost use Rattle.lot_base.specs.Node.{fields};
ghost use Rattle.lot_machine.specs.declared.step.Answer.{Answer};
ghost use Rattle.lot_machine.specs.declared.step.Step.{Step};
ghost use Rattle.lot_history.specs.Witness.{Extends, id_of, max_threads_of};
ghost use Rattle.lot_history.specs.declared.view.Piece.TheVariants.{Thread};
ghost use Rattle.lot_threads.specs.Cells.{Has};
ghost use Rattle.lot_threads.specs.Idle.{IsIdle, StaysIdle};

use super::SharedLot;
use crate::parker::ThreadParkerT;
use lot_base::queue::Node;
use lot_base::token::UnparkToken;
use lot_history::history::{Part, Witness};
use lot_machine::status::Status;
use lot_machine::step::{Answer, Step};
use std::sync::Wait;
use std::time::{Clock, Instant};

impl<P: ThreadParkerT> SharedLot<P> {
    // The wait of a thread that entered a list, until an unpark of it was committed.
    pub(crate) fn wait_unparked<R: Wait>(
        &self,
        rt: &R,
        me: &mut Witness,
        number: usize,
    ) -> (UnparkToken, Part, Box<Node>)
        requires idle { IsIdle self.now me.old }
        requires below { number < max_threads_of self.now }
        ensures idle { StaysIdle self.now me.old me.new }
        ensures returns { Extends self.now me.old (Step.Return number) (Answer.Unparked result.0)
            me.new }
        ensures thread { Has (id_of self.now) (Thread number Status.Running ∷ []) result.1 }
        ensures number { (fields result.2.value).number ≡ number }
    {
        let (node, letter) = self.parker(number).park(rt);
        let thread = self.come_back(me, &node, letter);
        (node.unpark_token, thread, node)
    }

    // The same until the deadline at most. Answers `None` if it passed.
    pub(crate) fn wait_unparked_until<R: Wait + Clock>(
        &self,
        rt: &R,
        me: &mut Witness,
        number: usize,
        timeout: Instant,
    ) -> Option<(UnparkToken, Part, Box<Node>)>
        requires idle { IsIdle self.now me.old }
        requires below { number < max_threads_of self.now }
        ensures idle { StaysIdle self.now me.old me.new }
        ensures returns { IfSome result (λ back. Extends self.now me.old (Step.Return number)
            (Answer.Unparked back.0) me.new) }
        ensures thread { IfSome result (λ back.
            Has (id_of self.now) (Thread number Status.Running ∷ []) back.1) }
        ensures number { IfSome result (λ back. (fields back.2.value).number ≡ number) }
        ensures unchanged { IfNone result (me.new ≡ me.old) }
    {
        let (node, letter) = self.parker(number).park_until(rt, timeout)?;
        let thread = self.come_back(me, &node, letter);
        Some((node.unpark_token, thread, node))
    }
}
