//! This module has the laws of every history.
//!
//! Each function does nothing when it is called. Its contract is the law, and speaks of the same
//! definitions as the contracts of `History`.

ghost use Rattle.lot_history.specs.Laws.{EachLeadsToOneMachine, BeginningsAreHistories, HistoriesCanBeReplayed, ParksAndOutcomesAlternate, UnparkedThreadsComeBack, TokensComeFromUnparks};
ghost use Rattle.lot_history.specs.Takings.{TakenThreadsComeBack};
ghost use Rattle.lot_history.specs.Titles.{TitlesHoldWhere};
ghost use Rattle.lot_history.specs.Turns.{FirstComeFirstOut};

use crate::bounds::Bounds;
use crate::plays::OneHistory;
use crate::view::View;
use atomic_table::TableRule;

/// States that a history leads to one machine, and that each beginning of a history is a history.
pub fn histories_lead_to_one_machine()
    ensures one { EachLeadsToOneMachine }
    ensures beginnings { BeginningsAreHistories }
{}

/// States that repeating the steps of a history gives the same answers, unless memory is lacking.
///
/// Take any run of its steps that begins with a new machine for as many threads. If no step was
/// refused for lack of memory in either, the run has the answers of the history and leads to the
/// same machine. For example, `lot_simulator::schedule::run` makes such a run on a new lot.
pub fn histories_can_be_replayed()
    ensures { HistoriesCanBeReplayed }
{}

/// States that in a history the parks of each thread and their outcomes take turns, and that a park
/// comes first.
///
/// So a park has at most one outcome, and no outcome comes without a park.
pub fn parks_and_outcomes_alternate()
    ensures { ParksAndOutcomesAlternate }
{}

/// States that the threads which the unparks of a history took are as many as the answers
/// `Unparked` in it and those that are still on their way.
pub fn unparked_threads_come_back()
    ensures { UnparkedThreadsComeBack }
{}

/// States that a token which a park returns was handed to that thread by an unpark before it.
///
/// No outcome of the thread lies between the unpark and this one. So each token that was handed
/// over is returned at most once.
pub fn tokens_come_from_unparks()
    ensures { TokensComeFromUnparks }
{}

/// States that a thread which an unpark took comes back with the token of that unpark, or is still
/// on its way.
///
/// It holds for unparks of one, of all, by a filter and by a requeue. The next outcome of each such
/// thread is `Unparked` with that token, if it has one. The threads are as many as the unpark's
/// answer says, each of them waited or was late, and the status of no other thread was changed.
pub fn taken_threads_come_back()
    ensures { TakenThreadsComeBack }
{}

/// States that threads leave the list of a key in the order in which they entered it, except
/// through filters, requeues and deadlines.
///
/// Take two threads that entered the list of a key, one after the other. Assume that since the
/// first one entered, no filter was used on the key, no requeue was made from it, and the first
/// thread did not time out there. If an unpark of one or of all then takes the second thread, an
/// unpark of these two kinds has taken the first one before, or this one takes it too, in front of
/// the second.
pub fn first_come_first_out()
    ensures { FirstComeFirstOut }
{}

/// States that titles hold between any two steps of all threads. Each title, wherever it is, tells
/// who stands in the list of its key; no key has two titles, and no title was dealt for two tables.
/// It follows from the rule that the table of every history keeps.
pub fn titles_hold()
    ensures { TitlesHoldWhere
        (λ bounds s. ⟦<OneHistory as TableRule<(), View, Bounds>>⟧.holds bounds s) }
{}
