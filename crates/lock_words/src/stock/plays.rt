//! This module has the rule of a stock's table, and what each step tells its thread.
//!
//! These types are for proofs alone. A seat carries the key of the stock beside its view, because
//! no step can read the key.

ghost use Rattle.lock_words.specs.StockView.{resting};
ghost use Rattle.lot_word_lock.specs.WordKey.{UnderKey, TellsUnderKey};
ghost use Rattle.lock_words.specs.StockRule.{Counted};
ghost use Rattle.lock_words.specs.StockSteps.{ArriveTells, AcquireTells, ReleaseTells, CarryTells, EnteredTells, ReturnedTells, LeftTells, ReleasedTells, DropWaitTells};

use super::{Content, KeyedView, Supply, Tells};
use atomic_table::{Play, TableRule};

/// `Order` is the rule of the table: what holds of the word, the slots and all threads between any
/// two steps.
pub struct Order;

impl<T: Drop, M: Tells> TableRule<Content<T, M>, KeyedView<M::Key>, Supply<M::Key>> for Order {
    ghost holds = { UnderKey (λ key. Counted M.told (M.fits key.queue) key.permits key.guards) };

    ghost first = { λ key. (key, resting) };
}

pub(super) struct Arrive;

impl<T: Drop, M: Tells> Play<Content<T, M>, KeyedView<M::Key>> for Arrive {
    ghost then = { TellsUnderKey (λ _. ArriveTells) };
}

pub(super) struct Acquire;

impl<T: Drop, M: Tells> Play<Content<T, M>, KeyedView<M::Key>> for Acquire {
    ghost then = { TellsUnderKey (λ key. AcquireTells key.guards) };
}

pub(super) struct Release;

impl<T: Drop, M: Tells> Play<Content<T, M>, KeyedView<M::Key>> for Release {
    ghost then = { TellsUnderKey (λ _. ReleaseTells) };
}

pub(super) struct Carry;

impl<T: Drop, M: Tells> Play<Content<T, M>, KeyedView<M::Key>> for Carry {
    ghost then = { TellsUnderKey (λ key. CarryTells M.told (M.fits key.queue)) };
}

pub(super) struct Entered;

impl<T: Drop, M: Tells> Play<Content<T, M>, KeyedView<M::Key>> for Entered {
    ghost then = { TellsUnderKey (λ _. EnteredTells M.told) };
}

pub(super) struct Returned;

impl<T: Drop, M: Tells> Play<Content<T, M>, KeyedView<M::Key>> for Returned {
    ghost then = { TellsUnderKey (λ _. ReturnedTells) };
}

pub(super) struct Left;

impl<T: Drop, M: Tells> Play<Content<T, M>, KeyedView<M::Key>> for Left {
    ghost then = { TellsUnderKey (λ _. LeftTells) };
}

pub(super) struct Released;

impl<T: Drop, M: Tells> Play<Content<T, M>, KeyedView<M::Key>> for Released {
    ghost then = { TellsUnderKey (λ _. ReleasedTells) };
}

pub(super) struct DropWait;

impl<T: Drop, M: Tells> Play<Content<T, M>, KeyedView<M::Key>> for DropWait {
    ghost then = { TellsUnderKey (λ _. DropWaitTells) };
}
