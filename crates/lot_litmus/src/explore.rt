//! This module searches every state that a test can reach.

ghost use Rattle.std.specs.Prelude.{◌≡◌, IfOk, IsTrue, Some, false, length, slice_get};
ghost use Rattle.lot_litmus.specs.Found.{Holds};
ghost use Rattle.lot_litmus.specs.Outcomes.{numbers_of};
ghost use Rattle.lot_litmus.specs.Schedule.{IsStuck, first_of, run};
ghost use Rattle.lot_litmus.specs.Search.{IsSearch};

use crate::code::Thread;
use crate::ends::first_unmarked;
use crate::search::{Search, is_at};
use crate::test::{Fault, Test};
use crate::watch::{Nobody, Watcher};
use std::alloc::{AllocError, Global};

// A watcher is told each time that so many states have been looked at.
const WATCHED: usize = 16_384;

/// A `Found` is the result of a search.
#[derive(Drop)]
pub enum Found {
    /// The test is safe. It can reach this number of states.
    Safe { states: usize },

    /// The last step of this schedule shows the fault.
    Fails { schedule: Vec<Thread>, fault: Fault },

    /// After this schedule the threads can no longer all end.
    Stuck { schedule: Vec<Thread> },

    /// There are more states than the search was allowed to look at, so nothing is known.
    TooMany,

    /// The search found a schedule, but running it again did not lead to the same fault or stuck
    /// state, so nothing is known. This should never happen, but that is not proved.
    Unknown,
}

/// Searches every state that the test can reach, and gives up if there are more than `most`.
///
/// # Errors
///
/// Returns `AllocError` if there is not enough memory.
pub fn explore(alloc: Global, test: &Test, most: usize) -> Result<Found, AllocError>
    ensures { IfOk result (λ found. Holds test.now found) }
{
    explore_watched(alloc, test, most, &mut Nobody)
}

/// Searches as `explore` does, and tells the watcher from time to time how far it has come.
///
/// # Errors
///
/// Returns `AllocError` if there is not enough memory.
pub fn explore_watched<W: Watcher>(
    alloc: Global,
    test: &Test,
    most: usize,
    watcher: &mut W,
) -> Result<Found, AllocError>
    ensures { IfOk result (λ found. Holds test.now found) }
{
    let mut search = Search::new(alloc, test)?;
    for index in 0..most {
        if search.leads().len() >= search.states().len() {
            return judge(alloc, test, &search);
        }
        tell(watcher, &search, index);
        if let Some(thread) = search.look(test)? {
            return failing_at(alloc, test, &search, index, thread);
        }
    }
    Ok(Found::TooMany)
}

// Tells the watcher now and then that the state at this index comes next.
fn tell<W: Watcher>(watcher: &mut W, search: &Search, index: usize) {
    if index % WATCHED == WATCHED - 1 {
        watcher.watch(search.states().len(), search.depth(index));
    }
}

// The fault that a step of the thread shows from the state at this index.
fn failing_at(
    alloc: Global,
    test: &Test,
    search: &Search,
    index: usize,
    thread: Thread,
) -> Result<Found, AllocError>
    ensures { IfOk result (λ found. Holds test.now found) }
{
    let mut schedule = search.schedule(alloc, index)?;
    schedule.push(thread)?;
    Ok(failing(test, schedule))
}

/// The fault that the schedule shows.
pub(crate) fn failing(test: &Test, schedule: Vec<Thread>) -> Found
    ensures { Holds test.now result }
{
    match test.replay(schedule.as_slice()) {
        Err(fault) => Found::Fails { schedule, fault },
        Ok(_) => Found::Unknown,
    }
}

// Whether all threads can come to their ends from each state that was found.
fn judge(alloc: Global, test: &Test, search: &Search) -> Result<Found, AllocError>
    requires search { IsSearch test.now search.now }
    requires complete { length search.now.leads.items ≡ length search.now.states.items }
    ensures { IfOk result (λ found. Holds test.now found) }
{
    let marks = search.hopeful(alloc, test)?;
    let Some(index) = first_unmarked(marks.as_slice()) else {
        return Ok(Found::Safe {
            states: search.states().len(),
        });
    };
    let schedule = search.schedule(alloc, index)?;
    if is_stuck(test, search, marks.as_slice(), index, schedule.as_slice()) {
        Ok(Found::Stuck { schedule })
    } else {
        Ok(Found::Unknown)
    }
}

// Whether the schedule leads to the state at the index, and from there no end can be reached.
fn is_stuck(test: &Test, search: &Search, marks: &[bool], index: usize, schedule: &[Thread]) -> bool
    requires search { IsSearch test.now search.now }
    requires complete { length search.now.leads.items ≡ length search.now.states.items }
    requires all { length marks.now ≡ length search.now.states.items }
    requires unmarked { slice_get marks.now index ≡ Some false }
    ensures { IsTrue result → IsStuck test.now
        (run test.now (first_of test.now) (numbers_of schedule.now)) }
{
    match test.replay(schedule) {
        Ok(end) => { is_at(search.states(), index, end.state()) && search.are_lost(test, marks) }
        Err(_) => false,
    }
}
