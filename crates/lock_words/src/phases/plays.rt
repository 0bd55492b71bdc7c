//! This module has the rule of the table of a word with phases, and what each step tells its
//! thread.
//!
//! These types are for proofs alone. A seat carries the key of the queue beside its view, because
//! no step can read the key.

ghost use Rattle.lot_word_lock.specs.WordKey.{UnderKey, TellsUnderKey};
ghost use Rattle.lock_words.specs.PhaseRule.{Phased, resting};
ghost use Rattle.lock_words.specs.PhaseSteps.{ArriveTells, LookTells, CarryTells, EnteredTells, ReturnedTells, LeftTells, DropWaitTells, LeadTells, EndedTells, EndTells};

use super::view::View;
use crate::stock::Tells;
use atomic_table::{Play, TableRule};

/// `Order` is the rule of the table: what holds of the word, the slot and all threads between any
/// two steps.
pub struct Order;

impl<M: Tells> TableRule<Option<M>, (M::Key, View), M::Key> for Order {
    ghost holds = { UnderKey (λ key. Phased M.told (M.fits key)) };

    ghost first = { λ key. (key, resting) };
}

pub(super) struct Arrive;

impl<M: Tells> Play<Option<M>, (M::Key, View)> for Arrive {
    ghost then = { TellsUnderKey (λ _. ArriveTells) };
}

pub(super) struct Look;

impl<M: Tells> Play<Option<M>, (M::Key, View)> for Look {
    ghost then = { TellsUnderKey (λ _. LookTells) };
}

pub(super) struct Carry;

impl<M: Tells> Play<Option<M>, (M::Key, View)> for Carry {
    ghost then = { TellsUnderKey (λ key. CarryTells M.told (M.fits key)) };
}

pub(super) struct Entered;

impl<M: Tells> Play<Option<M>, (M::Key, View)> for Entered {
    ghost then = { TellsUnderKey (λ _. EnteredTells M.told) };
}

pub(super) struct Returned;

impl<M: Tells> Play<Option<M>, (M::Key, View)> for Returned {
    ghost then = { TellsUnderKey (λ _. ReturnedTells) };
}

pub(super) struct Left;

impl<M: Tells> Play<Option<M>, (M::Key, View)> for Left {
    ghost then = { TellsUnderKey (λ _. LeftTells) };
}

pub(super) struct DropWait;

impl<M: Tells> Play<Option<M>, (M::Key, View)> for DropWait {
    ghost then = { TellsUnderKey (λ _. DropWaitTells) };
}

pub(super) struct Lead;

impl<M: Tells> Play<Option<M>, (M::Key, View)> for Lead {
    ghost then = { TellsUnderKey (λ _. LeadTells) };
}

pub(super) struct Ended;

impl<M: Tells> Play<Option<M>, (M::Key, View)> for Ended {
    ghost then = { TellsUnderKey (λ _. EndedTells) };
}

pub(super) struct End;

impl<M: Tells> Play<Option<M>, (M::Key, View)> for End {
    ghost then = { TellsUnderKey (λ _. EndTells) };
}
