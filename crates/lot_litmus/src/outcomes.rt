//! This module finds all outcomes of a test: the words when all threads have ended, faults, and
//! whether some thread can wait for ever.

use crate::code::{THREADS, Thread, WORDS};
use crate::reached::Reached;
use crate::search::is_at;
use crate::seen::Seen;
use crate::step::Next;
use crate::test::{Fault, Test};
use std::alloc::{AllocError, Global};

/// An `Outcome` is how a run of a test can end.
#[derive(Clone, Copy, PartialEq, Eq)]
pub enum Outcome {
    /// All threads have ended, and the words have these numbers.
    Ends([u8; WORDS]),

    /// A step shows this fault.
    Fails(Fault),

    /// Some thread can never end.
    Stuck,
}

/// Returns all outcomes that the test can have, each once, or `None` if there are more than `most`
/// states.
///
/// Nothing is proved of them. `explore` is the search whose results are proved.
///
/// # Errors
///
/// Returns `AllocError` if there is not enough memory.
pub fn outcomes(
    alloc: Global,
    test: &Test,
    most: usize,
) -> Result<Option<Vec<Outcome>>, AllocError> {
    let mut survey = Survey::new(alloc);
    survey.push(Reached::first(test))?;
    for index in 0..most {
        if index >= survey.states.len() {
            return Ok(Some(survey.close()?));
        }
        survey.look(test, index)?;
    }
    Ok(None)
}

// A step from one state to another, by their indices.
#[derive(Clone, Copy)]
struct Edge {
    from: usize,
    to: usize,
}

// All states that were found, and what came of them.
#[derive(Drop)]
struct Survey {
    states: Vec<Reached>,
    seen: Seen,
    edges: Vec<Edge>,

    // Whether each is known to lead to an end or to a fault.
    marks: Vec<bool>,

    outcomes: Vec<Outcome>,
}

impl Survey {
    fn new(alloc: Global) -> Survey {
        Survey {
            states: Vec::new(alloc),
            seen: Seen::new(alloc),
            edges: Vec::new(alloc),
            marks: Vec::new(alloc),
            outcomes: Vec::new(alloc),
        }
    }

    fn push(&mut self, state: Reached) -> Result<u32, AllocError> {
        let Ok(index) = u32::try_from(self.states.len()) else {
            return Err(AllocError);
        };
        let hash = state.state().hash();
        self.states.push(state)?;
        self.marks.push(false)?;
        self.seen.note(hash, index)?;
        Ok(index)
    }

    // Adds the states to which steps lead from this one, and what comes of it.
    fn look(&mut self, test: &Test, index: usize) -> Result<(), AllocError> {
        if let Some(words) = self.words_at_end(test, index) {
            self.note(index, Outcome::Ends(words))?;
        }
        for number in 0..THREADS as u8 {
            self.step(test, index, Thread { number })?;
        }
        Ok(())
    }

    // The words of a state in which all threads have ended.
    fn words_at_end(&self, test: &Test, index: usize) -> Option<[u8; WORDS]> {
        let state = self.states.get(index)?.state();
        if test.unended(state) == 0 {
            Some(state.words)
        } else {
            None
        }
    }

    fn step(&mut self, test: &Test, index: usize, thread: Thread) -> Result<(), AllocError> {
        let Some(from) = self.states.get(index) else {
            return Ok(());
        };
        match test.step(from, thread) {
            Next::Blocked => Ok(()),
            Next::Goes(next) => self.lead(index, next),
            Next::Fails(fault) => self.note(index, Outcome::Fails(fault)),
        }
    }

    fn lead(&mut self, from: usize, next: Reached) -> Result<(), AllocError> {
        let states = self.states.as_slice();
        let hash = next.state().hash();
        let to = match self
            .seen
            .find(hash, |index| is_at(states, index as usize, next.state()))
        {
            Some(index) => index,
            None => self.push(next)?,
        };
        self.edges.push(Edge {
            from,
            to: to as usize,
        })?;
        Ok(())
    }

    fn note(&mut self, index: usize, outcome: Outcome) -> Result<(), AllocError> {
        if let Some(mark) = self.marks.get_mut(index) {
            *mark = true;
        }
        if !self.outcomes.contains(&outcome) {
            self.outcomes.push(outcome)?;
        }
        Ok(())
    }

    // The outcomes, once all states were looked at.
    fn close(mut self) -> Result<Vec<Outcome>, AllocError> {
        for _ in 0..self.states.len() {
            if !self.mark_before() {
                break;
            }
        }
        let is_stuck = self.marks.contains(&false);
        let Survey {
            states: _,
            seen: _,
            edges: _,
            marks: _,
            mut outcomes,
        } = self;
        if is_stuck {
            outcomes.push(Outcome::Stuck)?;
        }
        Ok(outcomes)
    }

    // Marks the states from which a step leads to a marked one. Says whether one is new.
    fn mark_before(&mut self) -> bool {
        let mut has_changed = false;
        for edge in self.edges.iter().rev() {
            let leads = self.marks.get(edge.to).copied().unwrap_or(false);
            if let Some(mark) = self.marks.get_mut(edge.from)
                && leads
                && !*mark
            {
                *mark = true;
                has_changed = true;
            }
        }
        has_changed
    }
}
