//! This module has the rule of a history's table, and what each of its steps tells. All types
//! except `Told` are for proofs alone.

use crate::bounds::Bounds;
use crate::view::View;
use atomic_table::{Join, Play, Split, TableRule};
use std::marker::{Brand, PhantomData};

/// `OneHistory` is the rule of the table: what holds of the history and of all seats between any
/// two steps.
pub struct OneHistory;

impl TableRule<(), View, Bounds> for OneHistory {
    ghost use Rattle.lot_history.specs.Rule.{Kept};
    ghost use Rattle.lot_history.specs.Views.{first_view};

    ghost holds = { λ bounds s. Kept bounds.max_threads s.views };

    ghost first = { λ bounds. first_view };
}

/// `Told` says which step `History::add` makes, and what its answer is.
///
/// A caller of a function that is generic in it picks it, and may name what a closure returned.
pub trait Told {
    ghost use Rattle.lot_machine.specs.declared.step.Answer.{Answer};
    ghost use Rattle.lot_machine.specs.declared.step.Step.{Step};

    /// States what holds of the step and of its answer.
    ghost said: { Step → Answer → Type 0 };
}

/// If a caller picks nothing, the step is a trim.
impl Told for Brand {
    ghost use Rattle.std.specs.Prelude.{◌≡◌};
    ghost use Rattle.lot_machine.specs.declared.step.Step.TheVariants.{Trim};

    ghost said = { λ step _. step ≡ Trim };
}

/// `Seated` says to which history a step belongs, which seat makes it, and which pieces it leaves.
/// Each call in this crate picks it.
pub(crate) trait Seated {
    ghost use Rattle.std.specs.Prelude.{ℕ, List};
    ghost use Rattle.lot_history.specs.declared.view.Piece.{Piece};

    ghost max_threads: { ℕ };

    ghost number: { ℕ };

    ghost after: { List Piece };
}

impl Seated for Brand {
    ghost use Rattle.std.specs.Prelude.{[]};

    ghost max_threads = { 0 };

    ghost number = { 0 };

    ghost after = { [] };
}

/// A step of the machine is made.
pub(crate) struct Add<E, C> {
    of: PhantomData<(E, C)>,
}

impl<E: Told, C: Seated> Play<(), View> for Add<E, C> {
    ghost use Rattle.std.specs.Prelude.{◌≡◌};
    ghost use Rattle.lot_history.specs.Tells.{Adds, Found};

    ghost then = { λ _ m _ n.
        Adds C.max_threads C.number E.said m.0 n.0 × (n.0.pieces ≡ C.after) × (n.1 ≡ m.1)
        × Found C.max_threads C.number m.0 n.0 × (n.0.deals ≡ m.0.deals) };
}

/// The seat sees the history as it is, which begins with what it heard.
pub(crate) struct Look<C> {
    of: PhantomData<C>,
}

impl<C: Seated> Play<(), View> for Look<C> {
    ghost use Rattle.std.specs.Prelude.{◌≡◌};
    ghost use mathlib.Core.List.{IsPrefix};
    ghost use Rattle.lot_history.specs.Tells.{Looks};
    ghost use Rattle.lot_history.specs.Titles.{Agree};

    ghost then = { λ _ m _ n.
        Looks C.max_threads C.number m.0 n.0 × IsPrefix m.0.heard n.0.seen × (n.1 ≡ m.1)
        × (n.0.deals ≡ m.0.deals) × Agree m.0.deals };
}

/// The pieces of a seat are put together in another way.
pub(crate) struct Regroup<C> {
    of: PhantomData<C>,
}

impl<C: Seated> Play<(), View> for Regroup<C> {
    ghost use Rattle.std.specs.Prelude.{◌≡◌};

    ghost then = { λ _ m _ n. n ≡ (record m.0 { pieces = C.after }, m.1) };
}

/// Of which key the title is dealt, for which table, and below which key others are not dealt yet.
/// Each call in this crate picks it.
pub(crate) trait Dealing {
    ghost use Rattle.std.specs.Prelude.{ℕ};
    ghost use Rattle.atomic_table.specs.Seated.{TableId};

    ghost key: { ℕ };

    ghost limit: { ℕ };

    ghost home: { TableId };
}

impl Dealing for Brand {
    ghost use Rattle.std.specs.Prelude.{[]};

    ghost key = { 0 };

    ghost limit = { 0 };

    ghost home = { record {
      words = 0;
      slots = 0;
      views_name = 0;
      atom = 0;
      block = 0;
      offset = 0;
      slot_names = [];
    } };
}

/// The title of the first key that has an undealt one is dealt.
pub(crate) struct DealTitle<D> {
    of: PhantomData<D>,
}

impl<D: Dealing> Play<(), View> for DealTitle<D> {
    ghost use Rattle.std.specs.Prelude.{◌≡◌};
    ghost use Rattle.lot_history.specs.Titles.{with_deal};

    ghost then = { λ _ m _ n. n ≡ (with_deal D.key D.limit D.home m.0, m.1) };
}

/// A new seat knows nothing.
pub(crate) struct Arrive;

impl Play<(), View> for Arrive {
    ghost use Rattle.std.specs.Prelude.{◌≡◌, []};
    ghost use Rattle.lot_history.specs.Views.{told_view};

    ghost then = { λ _ _ _ n. n ≡ (told_view [], []) };
}

/// A seat tells a new one what it has seen.
pub(crate) struct Telling;

impl Split<View> for Telling {
    ghost use Rattle.lot_history.specs.Views.{told_view};

    ghost left = { λ v. v };

    ghost right = { λ v. told_view v.seen };
}

/// A seat gives its first piece to a new one.
pub(crate) struct Giving;

impl Split<View> for Giving {
    ghost use Rattle.lot_history.specs.Views.{first_of, part_view, rest_of};

    ghost left = { λ v. record v { pieces = rest_of v.pieces } };

    ghost right = { λ v. part_view (first_of v.pieces) v.deals };
}

/// A seat takes what another has seen, its pieces, and the deals that it knows of.
pub(crate) struct Taking;

impl Join<View> for Taking {
    ghost use Rattle.std.specs.Prelude.{◌++◌};
    ghost use Rattle.lot_history.specs.Views.{spent_view};

    ghost both = { λ v w. record v {
      heard = w.seen;
      pieces = v.pieces ++ w.pieces;
      deals = v.deals ++ w.deals;
    } };

    ghost spent = { spent_view };
}
