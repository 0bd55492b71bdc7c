//! `litmus sizes`: how many states the protocols of files have.

use crate::case::Case;
use crate::check::cases;
use crate::grade::Grade;
use crate::request::Request;
use crate::summary::{push_case, push_summary};
use crate::text::text_of;
use crate::ticker::Ticker;
use crate::trial::{Outcome, try_text};
use lot_litmus::parse::ParseError;
use lot_litmus::reached::Reached;
use lot_litmus::watch::Watcher;
use std::alloc::{AllocError, Global};
use std::rt::Files;
use std::time::Clock;

// How many bytes a search keeps for a state, beside the tables in which it finds it again.
const STATE_BYTES: usize = size_of::<Reached>();

/// Tells how many states there are, for each of the numbers for which the files expect something.
pub fn sizes<R: Files + Print + Eprint + Clock + AllocGlobal>(
    rt: &R,
    request: &Request,
) -> anyhow::Result<Grade> {
    let mut grade = Grade::Expected;
    for file in &request.files {
        let Some(text) = text_of(rt, file.as_str())? else {
            grade = Grade::Unusable;
            continue;
        };
        let named = (file.as_str(), text.as_str());
        match sizes_of(rt.alloc(), request, named, &mut Ticker::new(rt)) {
            Ok(page) => rt.print(page.as_str())?,
            Err(error) => {
                println!(rt; "{file}: {error}")?;
                grade = Grade::Unusable;
            }
        }
    }
    Ok(grade)
}

// A line for each search of the file.
fn sizes_of<W: Watcher>(
    alloc: Global,
    request: &Request,
    (file, text): (&str, &str),
    watcher: &mut W,
) -> Result<String, ParseError> {
    let mut page = String::new(alloc);
    for case in &cases(alloc, request, text)? {
        push_size(&mut page, request, (file, text), case, watcher)?;
    }
    Ok(page)
}

fn push_size<W: Watcher>(
    page: &mut String,
    request: &Request,
    (file, text): (&str, &str),
    case: &Case,
    watcher: &mut W,
) -> Result<(), ParseError> {
    let alloc = *page.allocator();
    let pairs = case.pairs(alloc)?;
    let trial = try_text(alloc, text, pairs.as_slice(), request.effort, watcher)?;
    push_case(page, file, pairs.as_slice())?;
    push_summary(page, &trial, request.effort.most)?;
    if let Outcome::Safe { states } = trial.outcome {
        push_bytes(page, states)?;
    }
    page.push_str("\n")?;
    Ok(())
}

fn push_bytes(page: &mut String, states: usize) -> Result<(), AllocError> {
    let bytes = states.saturating_mul(STATE_BYTES);
    write!(page, " of {STATE_BYTES} bytes, {bytes} bytes in all")
}
