//! This module has the rule of a word lock's table, and what each step tells its caller.
//!
//! These types are for proofs alone. A seat carries the key of the lock beside its view, because no
//! step can read the key.

ghost use Rattle.lot_word_lock.specs.WordView.{resting};
ghost use Rattle.lot_word_lock.specs.WordKey.{UnderKey, TellsUnderKey};
ghost use Rattle.lot_word_lock.specs.WordRule.{Orderly};
ghost use Rattle.lot_word_lock.specs.WordSteps.{ArriveTells, AcquireTells, TakePlaceTells, AskTells, GiveBackTells, LinkTells, EnqueueTells, LookTells, ReleaseToZeroTells, ReadFirstTells, ReadNextTells, CutTells, ReleaseAfterCutTells, TellTells};

use super::Fits;
use super::view::View;
use atomic_table::{Play, TableRule};

/// `Order` is the rule of the table: what holds of the words, the value and all callers between any
/// two steps.
pub struct Order;

impl<T: Fits> TableRule<Option<T>, (T::Key, View), T::Key> for Order {
    ghost holds = { UnderKey (λ key. Orderly (T.fits key)) };

    ghost first = { λ key. (key, resting) };
}

pub(super) struct Arrive;

impl<T: Fits> Play<Option<T>, (T::Key, View)> for Arrive {
    ghost then = { TellsUnderKey (λ _. ArriveTells) };
}

pub(super) struct Acquire;

impl<T: Fits> Play<Option<T>, (T::Key, View)> for Acquire {
    ghost then = { TellsUnderKey (λ key. AcquireTells (T.fits key)) };
}

pub(super) struct TakePlace;

impl<T: Fits> Play<Option<T>, (T::Key, View)> for TakePlace {
    ghost then = { TellsUnderKey (λ _. TakePlaceTells) };
}

pub(super) struct Ask;

impl<T: Fits> Play<Option<T>, (T::Key, View)> for Ask {
    ghost then = { TellsUnderKey (λ _. AskTells) };
}

pub(super) struct GiveBack;

impl<T: Fits> Play<Option<T>, (T::Key, View)> for GiveBack {
    ghost then = { TellsUnderKey (λ _. GiveBackTells) };
}

pub(super) struct Link;

impl<T: Fits> Play<Option<T>, (T::Key, View)> for Link {
    ghost then = { TellsUnderKey (λ _. LinkTells) };
}

pub(super) struct Enqueue;

impl<T: Fits> Play<Option<T>, (T::Key, View)> for Enqueue {
    ghost then = { TellsUnderKey (λ _. EnqueueTells) };
}

pub(super) struct Look;

impl<T: Fits> Play<Option<T>, (T::Key, View)> for Look {
    ghost then = { TellsUnderKey (λ _. LookTells) };
}

pub(super) struct ReleaseToZero;

impl<T: Fits> Play<Option<T>, (T::Key, View)> for ReleaseToZero {
    ghost then = { TellsUnderKey (λ _. ReleaseToZeroTells) };
}

pub(super) struct ReadFirst;

impl<T: Fits> Play<Option<T>, (T::Key, View)> for ReadFirst {
    ghost then = { TellsUnderKey (λ _. ReadFirstTells) };
}

pub(super) struct ReadNext;

impl<T: Fits> Play<Option<T>, (T::Key, View)> for ReadNext {
    ghost then = { TellsUnderKey (λ _. ReadNextTells) };
}

pub(super) struct Cut;

impl<T: Fits> Play<Option<T>, (T::Key, View)> for Cut {
    ghost then = { TellsUnderKey (λ _. CutTells) };
}

pub(super) struct ReleaseAfterCut;

impl<T: Fits> Play<Option<T>, (T::Key, View)> for ReleaseAfterCut {
    ghost then = { TellsUnderKey (λ _. ReleaseAfterCutTells) };
}

pub(super) struct Tell;

impl<T: Fits> Play<Option<T>, (T::Key, View)> for Tell {
    ghost then = { TellsUnderKey (λ _. TellTells) };
}
