//! Two witnesses of one history.

ghost use mathlib.Core.List.{IsPrefix};
ghost use Rattle.lot_history.specs.Witness.{Extends, IsStill, IsWitnessOf, seen_by};

use lot_history::history::{History, Witness};
use lot_machine::step::{Answer, Step};

/// One witness makes a step, and the other hears it.
pub fn tell_of_a_trim(history: &History, one: &mut Witness, two: &mut Witness)
    requires one { IsWitnessOf history.now one.old }
    requires two { IsWitnessOf history.now two.old }
    ensures one { IsStill history.now one.old one.new }
    ensures two { IsStill history.now two.old two.new }
    ensures trimmed { Extends history.now one.old Step.Trim Answer.Trimmed one.new }
    ensures heard { IsPrefix (seen_by one.new) (seen_by two.new) }
{
    history.trim(one);
    history.hear(two, one);
}
