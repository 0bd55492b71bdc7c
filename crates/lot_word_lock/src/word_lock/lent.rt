//! This module lends the value of a lock that is claimed, where it is.

ghost use Rattle.std.specs.Prelude.{◌≡◌};
ghost use Rattle.std.specs.Borrow.{Lends, sem};
ghost use Rattle.std.specs.contracts.option.Option.{the_row as option_row};
ghost use Rattle.lot_word_lock.specs.Lent.{claim_with, value_in};
ghost use Rattle.lot_word_lock.specs.WordLock.{IsClaimOn, key_of};
ghost use Rattle.lot_word_lock.specs.contracts.word_lock.Claim.{the_row};

use super::steps::VALUE;
use super::{Claim, Fits, WordLock};

impl<T: Fits> Claim<T> {
    /// Returns a mutable reference to the value of the lock.
    ///
    /// The claim has to come from `claim` of this lock. `release` requires that the value that is
    /// left there satisfies the invariant. It touches nothing.
    #[inline]
    pub fn value_mut<'a>(&'a mut self, lock: &'a WordLock<T>) -> &'a mut Option<T>
        requires claim { IsClaimOn (T.fits (key_of lock.now)) lock.now self.old }
        ensures* writes_back { sem 𝓛 (Lends (the_row T.row T.Key.row) (option_row T.row) self.entry
            result (claim_with self.old)) }
        ensures value { result.now ≡ value_in self.old }
    {
        let caller = &mut self.caller;
        let seat = &mut caller.seat;
        seat.slot_mut(&lock.table.shared, VALUE)
    }
}
