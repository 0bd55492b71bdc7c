//! An unpark whose step is told.

ghost use Rattle.std.specs.Prelude.{◌≡◌};
ghost use Rattle.lot_base.specs.declared.token.UnparkToken.{UnparkToken};
ghost use Rattle.lot_history.specs.Witness.{Extends};

use lot_machine::step::{Answer, Op, Step};
use lot_threads::{Member, ThreadParkerT, UnparkToken};
use std::sync::Wait;

/// Unparks all threads of a key, and tells how many there were.
pub fn open<P: ThreadParkerT, R: Wait>(rt: &R, me: &mut Member<'_, P>, key: usize) -> usize
    ensures { Extends me.old.history me.old.witness
        (Step.Unpark (Op.All key (record { 0 = 7 }))) (Answer.Count result) me.new.witness }
{
    me.unpark_all(rt, key, UnparkToken(7))
}
