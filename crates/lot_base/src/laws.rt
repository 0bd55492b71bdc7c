//! This module has laws about what the steps of a bucket do to lists of waiters.
//!
//! They hold for lists of anything: of nodes, as a bucket has them, or of the machine's waiters.
//! Each function does nothing when it is called. Its contract is the law, and speaks of the same
//! definitions as the contracts of the buckets and the rules of the machine.

ghost use Rattle.lot_base.specs.Laws.{UnparkEachTakesAll, UnparkThenStopTakesFirst, StopTakesNobody, FilterSplitsInOrder, UnparkSplitsInOrder, RequeueSplitsInOrder, AbortKeepsLists, RequeueToItselfKeepsLists, RequeueAllCountsEach, OwnKeyChangesNothing, ParkTokenStays, EnteredStandsLast, EnteringKeepsOrder};

/// States that a filter can do what an unpark of all does, and what an unpark of one does, and that
/// a filter that stops at once unparks nobody.
pub fn filter_covers_unparks<T>()
    ensures all { UnparkEachTakesAll T }
    ensures first { UnparkThenStopTakesFirst T }
    ensures nobody { StopTakesNobody T }
{}

/// States that a requeue that aborts changes no list.
pub fn abort_changes_nothing<T>()
    ensures { AbortKeepsLists T }
{}

/// States that a requeue of all waiters of a key to the same key changes nothing, and counts all of
/// them.
pub fn requeue_to_itself_changes_nothing<T>()
    ensures lists { RequeueToItselfKeepsLists T }
    ensures nodes { OwnKeyChangesNothing }
    ensures answer { RequeueAllCountsEach T }
{}

/// States that no unpark and no requeue changes a park token.
///
/// Each waiter that is taken, moved or left is one of the old waiters, and a new key and a new
/// unpark token of a node leave its park token as it is.
pub fn steps_keep_park_tokens<T>()
    ensures requeue { RequeueSplitsInOrder T }
    ensures unpark { UnparkSplitsInOrder T }
    ensures filter { FilterSplitsInOrder T }
    ensures node { ParkTokenStays }
{}

/// States that nodes which leave a bucket by `pop`, first to last, and enter another by `enter`
/// keep the order of each key.
pub fn spreading_keeps_order()
    ensures one { EnteredStandsLast }
    ensures all { EnteringKeepsOrder }
{}
