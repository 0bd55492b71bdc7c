//! This module has a search that looks at fewer states.
//!
//! It merges steps between which other threads need not act (`movers`). If two states differ only
//! in the numbers of threads with the same code, it looks at one of them (`alike`). It is not
//! proved that this suffices; the search was compared with `explore` on the files of `protocols`.

use crate::alike::Alike;
use crate::code::{THREADS, Thread};
use crate::ends::first_unmarked;
use crate::explore::{Found, failing};
use crate::movers::Round;
use crate::reached::Reached;
use crate::search::{Leads, Origin, Search};
use crate::state::State;
use crate::step::Next;
use crate::test::Test;
use std::alloc::{AllocError, Global};

/// Searches a test as `explore` does, but looks at fewer states, and gives up if there are more
/// than `most`.
///
/// It is not proved that the result is that of `explore`; both were compared on the files of
/// `protocols`. The test must come from `parse`, where queues are looked at only in critical
/// sections. The schedules have the steps of `explore`, and a fault is returned only after it was
/// seen again.
///
/// # Errors
///
/// Returns `AllocError` if there is not enough memory.
pub fn explore_reduced(alloc: Global, test: &Test, most: usize) -> Result<Found, AllocError> {
    let mut reduced = Reduced::new(alloc, test)?;
    for index in 0..most {
        if index >= reduced.search.states().len() {
            return reduced.judge(alloc, test);
        }
        if let Some(thread) = reduced.look(test, index)? {
            let mut rounds = reduced.search.schedule(alloc, index)?;
            rounds.push(thread)?;
            let schedule = steps_of(alloc, test, rounds.as_slice())?;
            return Ok(failing(test, schedule));
        }
    }
    Ok(Found::TooMany)
}

// What the search has found so far, and each state with its threads in order.
#[derive(Drop)]
struct Reduced {
    alike: Alike,
    search: Search,
    sorted: Vec<State>,
}

impl Reduced {
    fn new(alloc: Global, test: &Test) -> Result<Reduced, AllocError> {
        let mut reduced = Reduced {
            alike: Alike::new(test),
            search: Search::none(alloc),
            sorted: Vec::new(alloc),
        };
        reduced.find(Reached::first(test), Origin::FIRST)?;
        Ok(reduced)
    }

    // The index of a state, or of one that differs by the places of threads alone. It is added if
    // there is none.
    fn find(&mut self, state: Reached, origin: Origin) -> Result<u32, AllocError> {
        let sorted = self.alike.sorted(state.state());
        let hash = sorted.hash();
        let is_it = |index: u32| match self.sorted.get(index as usize) {
            Some(other) => other.is_same(&sorted),
            None => false,
        };
        match self.search.seen().find(hash, is_it) {
            Some(index) => Ok(index),
            None => {
                self.sorted.push(sorted)?;
                self.search.push(state, hash, origin)
            }
        }
    }

    // Looks at the state at the index: adds those to which the threads come from there, or tells
    // which of them shows a fault.
    fn look(&mut self, test: &Test, index: usize) -> Result<Option<Thread>, AllocError> {
        let Ok(from_index) = u32::try_from(index) else {
            return Err(AllocError);
        };
        let mut leads = Leads::NOWHERE;
        for number in 0..THREADS as u8 {
            let thread = Thread { number };
            let Some(from) = self.search.states().get(index) else {
                return Ok(None);
            };
            match test.round(from, thread).next {
                Next::Blocked => (),
                Next::Goes(next) => {
                    let origin = Origin {
                        from: from_index,
                        thread,
                    };
                    leads.to[thread.index()] = Some(self.find(next, origin)?);
                }
                Next::Fails(_) => return Ok(Some(thread)),
            }
        }
        self.search.push_leads(leads)?;
        Ok(None)
    }

    // Whether all threads can come to their ends from each state that was found.
    fn judge(&self, alloc: Global, test: &Test) -> Result<Found, AllocError> {
        let marks = self.search.hopeful(alloc, test)?;
        let Some(index) = first_unmarked(marks.as_slice()) else {
            return Ok(Found::Safe {
                states: self.search.states().len(),
            });
        };
        let rounds = self.search.schedule(alloc, index)?;
        let schedule = steps_of(alloc, test, rounds.as_slice())?;
        Ok(Found::Stuck { schedule })
    }
}

// The steps of rounds of these threads.
fn steps_of(alloc: Global, test: &Test, rounds: &[Thread]) -> Result<Vec<Thread>, AllocError> {
    let mut schedule = Vec::new(alloc);
    let mut at = Reached::first(test);
    for &thread in rounds {
        let Round { next, steps } = test.round(&at, thread);
        for _ in 0..steps {
            schedule.push(thread)?;
        }
        if let Next::Goes(next) = next {
            at = next;
        }
    }
    Ok(schedule)
}
