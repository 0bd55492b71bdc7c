//! `litmus run`: the test of a file on a real lot, by real threads, with each of the three parkers.

mod actor;
mod board;
mod calls;
mod count;
mod draws;
mod fault;
mod keys;
mod lists;
mod rounds;
mod stage;
mod tally;

use crate::case::plain_case;
use crate::grade::Grade;
use crate::real::fault::RunError;
use crate::real::rounds::play_all;
use crate::real::tally::Tally;
use crate::request::Request;
use crate::text::text_of;
use lot_litmus::outcomes::outcomes;
use lot_litmus::parse::{ParseError, Parsed, parse};
use std::alloc::Global;
use std::rt::Files;
use std::sync::{Arc, Wait};
use std::thread::Threads;
use std::time::Clock;

/// Runs the test of the file, and tells how often each outcome came with each parker.
pub fn run<R>(rt: &R, request: &Request) -> anyhow::Result<Grade>
where
    R: Files + Print + Threads + Wait + Clock + AllocGlobal + Copy + Send + 'static,
{
    let (Some(file), Some(rounds)) = (request.files.first(), request.rounds) else {
        return Ok(Grade::Unusable);
    };
    let Some(text) = text_of(rt, file.as_str())? else {
        return Ok(Grade::Unusable);
    };
    let parsed = match parsed(rt.alloc(), request, text.as_str()) {
        Ok(parsed) => parsed,
        Err(error) => {
            println!(rt; "{file}: {error}")?;
            return Ok(Grade::Unusable);
        }
    };
    match run_test(rt, rt.alloc(), &parsed, rounds, request.effort.most) {
        Ok(grade) => Ok(grade),
        Err(error) => {
            println!(rt; "{file}: {error}")?;
            Ok(error.grade())
        }
    }
}

// The test that the text says, with the numbers of the request.
fn parsed(alloc: Global, request: &Request, text: &str) -> Result<Arc<Parsed, Global>, ParseError> {
    let case = plain_case(alloc, request)?;
    let pairs = case.pairs(alloc)?;
    let parsed = parse(alloc, text, pairs.as_slice())?;
    Ok(Arc::new(alloc, parsed)?)
}

// A search, which looks at no more states than so many, says which outcomes are expected.
fn run_test<R>(
    rt: &R,
    alloc: Global,
    parsed: &Arc<Parsed, Global>,
    rounds: u64,
    most: usize,
) -> Result<Grade, RunError>
where
    R: Print + Threads + Wait + Clock + Copy + Send + 'static,
{
    let Some(foreseen) = outcomes(alloc, &parsed.test, most)? else {
        return Err(RunError::TooManyStates);
    };
    let mut tally = Tally::new(alloc, foreseen.as_slice())?;
    play_all(rt, alloc, parsed, rounds, &mut tally)?;
    println!(rt; "{}: {rounds} rounds with each parker", parsed.name)?;
    Ok(tally.print(rt, parsed)?)
}
