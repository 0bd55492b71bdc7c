//! What came of a search, on one line.

use crate::names::{key_name, key_of, name_of};
use crate::trial::{Outcome, Trial};
use crate::walk::{Ending, Walk};
use lot_litmus::code::{THREADS, Thread};
use lot_litmus::parse::{Expectation, Parsed, Verdict};
use std::alloc::AllocError;

/// Adds the file, and the numbers in the place of its own.
pub fn push_case(line: &mut String, file: &str, numbers: &[(&str, u8)]) -> Result<(), AllocError> {
    line.push_str(file)?;
    for (name, number) in numbers {
        write!(line, " {name}={number}")?;
    }
    line.push_str(": ")
}

/// Adds what came.
pub fn push_summary(line: &mut String, trial: &Trial, most: usize) -> Result<(), AllocError> {
    match &trial.outcome {
        Outcome::Safe { states } => write!(line, "safe, {states} states"),
        Outcome::Unknown => write!(line, "not known within {most} states"),
        Outcome::Unmet { .. } => {
            let at = trial.failing_line().unwrap_or(0);
            write!(line, "fails at line {at}, no end is so")
        }
        Outcome::Wrong(walk) => match trial.failing_line() {
            Some(at) => write!(line, "fails at line {at} after {} steps", walk.steps.len()),
            None => {
                write!(line, "stuck after {} steps", walk.steps.len())?;
                push_sleepers(line, &trial.parsed, walk)
            }
        },
    }
}

// Adds who waits where, at the end of the walk.
fn push_sleepers(line: &mut String, parsed: &Parsed, walk: &Walk) -> Result<(), AllocError> {
    if let Ending::Round { .. } = walk.ending {
        line.push_str(" that go round")?;
    }
    let Some(state) = walk.last() else {
        return Ok(());
    };
    for number in 0..THREADS as u8 {
        let thread = Thread { number };
        let Some(key) = key_of(state, thread) else {
            continue;
        };
        let name = name_of(*line.allocator(), parsed, thread)?;
        write!(line, ", {name} on {}", key_name(parsed, key))?;
    }
    Ok(())
}

/// Adds what was expected.
pub fn push_expected(
    line: &mut String,
    parsed: &Parsed,
    expectation: &Expectation,
) -> Result<(), AllocError> {
    write!(line, "line {} expects ", expectation.line)?;
    match &expectation.verdict {
        Verdict::Safe => line.push_str("safe"),
        Verdict::Stuck(None) => line.push_str("stuck"),
        Verdict::Stuck(Some(sleeper)) => {
            let key = key_name(parsed, sleeper.key);
            write!(line, "stuck {} on {key}", sleeper.thread)
        }
        Verdict::Fails(None) => line.push_str("fails"),
        Verdict::Fails(Some(at)) => write!(line, "fails {at}"),
    }
}
