//! A protocol that was searched.

use crate::aftermath::go_to_the_end;
use crate::walk::Walk;
use lot_litmus::code::Code;
use lot_litmus::explore::{Found, explore_watched};
use lot_litmus::parse::{Looker, ParseError, Parsed, parse};
use lot_litmus::reduced::explore_reduced;
use lot_litmus::test::Test;
use lot_litmus::watch::Watcher;
use std::alloc::{AllocError, Global};
use std::mem;

/// Which search looks at a protocol.
#[derive(Clone, Copy)]
pub enum Mode {
    /// The one whose answers are proved.
    Proved,

    /// The one that looks at fewer states.
    Reduced,
}

/// How a protocol is searched.
#[derive(Clone, Copy)]
pub struct Effort {
    pub mode: Mode,

    /// How many states it looks at, at most.
    pub most: usize,
}

impl Effort {
    fn explore<W: Watcher>(
        self,
        alloc: Global,
        test: &Test,
        watcher: &mut W,
    ) -> Result<Found, AllocError> {
        match self.mode {
            Mode::Proved => explore_watched(alloc, test, self.most, watcher),
            Mode::Reduced => explore_reduced(alloc, test, self.most),
        }
    }
}

/// What came of a search.
#[derive(Drop)]
pub enum Outcome {
    /// The protocol is safe. It has so many states.
    Safe { states: usize },

    /// This shows what is wrong.
    Wrong(Walk),

    /// No end is as the `exists` at this statement says.
    Unmet { statement: usize },

    /// The search ended before it knew: mostly there are more states than it was to look at.
    Unknown,
}

/// A protocol and what came of it.
#[derive(Drop)]
pub struct Trial {
    pub parsed: Box<Parsed>,
    pub outcome: Outcome,
}

/// Searches the protocol that the text says, with these numbers.
///
/// # Errors
///
/// What is wrong with the text, or that there is no memory.
pub fn try_text<W: Watcher>(
    alloc: Global,
    text: &str,
    numbers: &[(&str, u8)],
    effort: Effort,
    watcher: &mut W,
) -> Result<Trial, ParseError> {
    let mut parsed = Box::new(alloc, parse(alloc, text, numbers)?)?;
    let outcome = search(alloc, &mut parsed, effort, watcher)?;
    Ok(Trial { parsed, outcome })
}

fn search<W: Watcher>(
    alloc: Global,
    parsed: &mut Parsed,
    effort: Effort,
    watcher: &mut W,
) -> Result<Outcome, AllocError> {
    match effort.explore(alloc, &parsed.test, watcher)? {
        Found::Safe { states } => look_for_ends(alloc, parsed, effort, states, watcher),
        Found::Fails { schedule, .. } => {
            let walk = Walk::of(alloc, &parsed.test, schedule.as_slice())?;
            Ok(Outcome::Wrong(walk))
        }
        Found::Stuck { schedule } => {
            let mut walk = Walk::of(alloc, &parsed.test, schedule.as_slice())?;
            go_to_the_end(alloc, &parsed.test, &mut walk)?;
            Ok(Outcome::Wrong(walk))
        }
        _ => Ok(Outcome::Unknown),
    }
}

// Looks for the end that each `exists` is about.
fn look_for_ends<W: Watcher>(
    alloc: Global,
    parsed: &mut Parsed,
    effort: Effort,
    states: usize,
    watcher: &mut W,
) -> Result<Outcome, AllocError> {
    let lookers = mem::replace(&mut parsed.lookers, Vec::new(alloc));
    for looker in lookers {
        let statement = looker.statement;
        match look(alloc, parsed, looker, effort, watcher)? {
            Found::Fails { .. } => {}
            Found::Safe { .. } => return Ok(Outcome::Unmet { statement }),
            _ => return Ok(Outcome::Unknown),
        }
    }
    Ok(Outcome::Safe { states })
}

// Searches with the looker in the place of the thread that looks at the ends.
fn look<W: Watcher>(
    alloc: Global,
    parsed: &mut Parsed,
    looker: Looker,
    effort: Effort,
    watcher: &mut W,
) -> Result<Found, AllocError> {
    let mut code = looker.code;
    swap_last(&mut parsed.test, &mut code);
    let found = effort.explore(alloc, &parsed.test, watcher);
    swap_last(&mut parsed.test, &mut code);
    found
}

// Swaps the code for that of the thread that looks at the ends.
fn swap_last(test: &mut Test, code: &mut Code) {
    let codes = &mut test.codes[..];
    if let Some(last) = codes.last_mut() {
        mem::swap(last, code);
    }
}
