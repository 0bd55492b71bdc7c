//! What becomes of threads that can no longer all come to their ends.

use crate::round::go_round;
use crate::walk::{Ending, Walk};
use lot_litmus::code::{THREADS, Thread};
use lot_litmus::reached::Reached;
use lot_litmus::state::State;
use lot_litmus::step::Next;
use lot_litmus::test::Test;
use std::alloc::{AllocError, Global};

// How many states are looked at for one in which nobody can go on.
const MOST_VISITS: usize = 4_000;

// A state that was found, and by whose step from which other.
#[derive(Drop)]
struct Visit {
    state: Reached,
    from: usize,
    thread: Thread,
}

// The states behind one, which has the index 0.
#[derive(Drop)]
struct Region<'a> {
    test: &'a Test,
    first: &'a Reached,
    visits: Vec<Visit>,
}

/// Lets the threads go on to where nobody can go on, by the shortest way, or where none is found,
/// in turn until they go round.
pub fn go_to_the_end(alloc: Global, test: &Test, walk: &mut Walk) -> Result<(), AllocError> {
    let way = match walk.states.last() {
        Some(last) => way_to_rest(alloc, test, last)?,
        None => None,
    };
    match way {
        Some(steps) => {
            walk.go_on(test, steps.as_slice())?;
            walk.ending = Ending::Asleep;
        }
        None => walk.ending = go_round(test, walk)?,
    }
    Ok(())
}

// The shortest way from the state to one in which nobody can go on.
fn way_to_rest(
    alloc: Global,
    test: &Test,
    first: &Reached,
) -> Result<Option<Vec<Thread>>, AllocError> {
    let mut region = Region {
        test,
        first,
        visits: Vec::new(alloc),
    };
    for index in 0..MOST_VISITS {
        if index > region.visits.len() {
            break;
        }
        if !region.expand(index)? {
            return Ok(Some(region.way_to(alloc, index)?));
        }
    }
    Ok(None)
}

impl Region<'_> {
    fn state(&self, index: usize) -> Option<&Reached> {
        let Some(index) = index.checked_sub(1) else {
            return Some(self.first);
        };
        match self.visits.get(index) {
            Some(visit) => Some(&visit.state),
            None => None,
        }
    }

    // Adds the states to which steps lead from this one. Says whether there are steps.
    fn expand(&mut self, index: usize) -> Result<bool, AllocError> {
        let mut goes_on = false;
        for number in 0..THREADS as u8 {
            let thread = Thread { number };
            let Some(from) = self.state(index) else {
                return Ok(goes_on);
            };
            if let Next::Goes(next) = self.test.step(from, thread) {
                goes_on = true;
                self.add(Visit {
                    state: next,
                    from: index,
                    thread,
                })?;
            }
        }
        Ok(goes_on)
    }

    fn add(&mut self, visit: Visit) -> Result<(), AllocError> {
        if !self.has(visit.state.state()) {
            self.visits.push(visit)?;
        }
        Ok(())
    }

    fn has(&self, state: &State) -> bool {
        for visit in &self.visits {
            if visit.state.state().is_same(state) {
                return true;
            }
        }
        self.first.state().is_same(state)
    }

    fn way_to(&self, alloc: Global, index: usize) -> Result<Vec<Thread>, AllocError> {
        let mut way = Vec::new(alloc);
        let mut at = index;
        for _ in 0..self.visits.len() {
            let Some(index) = at.checked_sub(1) else {
                break;
            };
            let Some(visit) = self.visits.get(index) else {
                break;
            };
            way.push(visit.thread)?;
            at = visit.from;
        }
        way.reverse();
        Ok(way)
    }
}
