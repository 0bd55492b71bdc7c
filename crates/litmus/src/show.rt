//! `litmus show`, `litmus script` and `litmus answers`: what comes of a file, and the shortest way
//! to what is wrong with it.

use crate::case::{Case, plain_case};
use crate::check::cases;
use crate::grade::Grade;
use crate::picture::picture;
use crate::request::{Command, Request};
use crate::scene::Scene;
use crate::script::Script;
use crate::style::Style;
use crate::summary::{push_case, push_summary};
use crate::text::text_of;
use crate::ticker::Ticker;
use crate::trial::{Outcome, Trial, try_text};
use lot_litmus::parse::ParseError;
use lot_litmus::watch::Watcher;
use std::alloc::{AllocError, Global};
use std::rt::Files;
use std::time::Clock;

/// Searches the file, and shows what came in the way that is asked for.
pub fn show<R: Files + Print + Eprint + Clock + AllocGlobal>(
    rt: &R,
    request: &Request,
    style: Style,
) -> anyhow::Result<Grade> {
    let Some(file) = request.files.first() else {
        return Ok(Grade::Unusable);
    };
    let Some(text) = text_of(rt, file.as_str())? else {
        return Ok(Grade::Unusable);
    };
    match tried_first(rt.alloc(), request, text.as_str(), &mut Ticker::new(rt)) {
        Ok(tried) => {
            let page = page_of(rt.alloc(), (request, file.as_str()), &tried, style)?;
            rt.print(page.as_str())?;
            Ok(grade_of(request.command, &tried.trial))
        }
        Err(error) => {
            println!(rt; "{file}: {error}")?;
            Ok(Grade::Unusable)
        }
    }
}

// A search of the text, and what came of it.
#[derive(Drop)]
struct Attempt {
    case: Case,
    trial: Trial,
}

// The first search for an expectation of the text that finds something wrong, or else the last one.
fn tried_first<W: Watcher>(
    alloc: Global,
    request: &Request,
    text: &str,
    watcher: &mut W,
) -> Result<Attempt, ParseError> {
    let mut last = None;
    for case in cases(alloc, request, text)? {
        let tried = try_case(alloc, request, text, case, watcher)?;
        if let Outcome::Wrong(_) = &tried.trial.outcome {
            return Ok(tried);
        }
        last = Some(tried);
    }
    match last {
        Some(tried) => Ok(tried),
        None => try_case(alloc, request, text, plain_case(alloc, request)?, watcher),
    }
}

fn try_case<W: Watcher>(
    alloc: Global,
    request: &Request,
    text: &str,
    case: Case,
    watcher: &mut W,
) -> Result<Attempt, ParseError> {
    let pairs = case.pairs(alloc)?;
    let trial = try_text(alloc, text, pairs.as_slice(), request.effort, watcher)?;
    drop(pairs);
    Ok(Attempt { case, trial })
}

// There is a script only of what is wrong.
fn grade_of(command: Command, trial: &Trial) -> Grade {
    match (command, &trial.outcome) {
        (_, Outcome::Wrong(_)) => Grade::Expected,
        (Command::Script | Command::Answers, _) => Grade::Unexpected,
        _ => trial.grade(),
    }
}

// A script or its answers, if there are some, and else what came, with a picture of it.
fn page_of(
    alloc: Global,
    (request, file): (&Request, &str),
    tried: &Attempt,
    style: Style,
) -> Result<String, AllocError> {
    let trial = &tried.trial;
    let mut page = String::new(alloc);
    if let Outcome::Wrong(walk) = &trial.outcome {
        let scene = Scene {
            parsed: &trial.parsed,
            walk,
        };
        match request.command {
            Command::Script => return Ok(Script::of(alloc, scene)?.lines),
            Command::Answers => return Ok(Script::of(alloc, scene)?.answers),
            _ => page = picture(alloc, scene, style)?,
        }
    }
    let mut line = String::new(alloc);
    let pairs = tried.case.pairs(alloc)?;
    push_case(&mut line, file, pairs.as_slice())?;
    push_summary(&mut line, trial, request.effort.most)?;
    writeln!(line, "")?;
    line.push_str(page.as_str())?;
    Ok(line)
}
