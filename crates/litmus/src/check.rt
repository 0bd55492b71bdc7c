//! `litmus check`: what comes of files, beside what they expect.

use crate::case::{Case, cases_of, plain_case};
use crate::grade::Grade;
use crate::picture::picture;
use crate::request::Request;
use crate::scene::Scene;
use crate::style::{Style, Times};
use crate::summary::{push_case, push_expected, push_summary};
use crate::text::text_of;
use crate::ticker::Ticker;
use crate::trial::{Outcome, Trial, try_text};
use lot_litmus::parse::{ParseError, parse};
use lot_litmus::watch::Watcher;
use std::alloc::{AllocError, Global};
use std::rt::Files;
use std::time::{Clock, Instant};

/// Checks the files, and tells a line for each search.
pub fn check<R: Files + Print + Eprint + Clock + AllocGlobal>(
    rt: &R,
    request: &Request,
    style: Style,
) -> anyhow::Result<Grade> {
    let mut grade = Grade::Expected;
    for file in &request.files {
        grade = grade.worse(check_file(rt, request, style, file.as_str())?);
    }
    Ok(grade)
}

fn check_file<R: Files + Print + Eprint + Clock + AllocGlobal>(
    rt: &R,
    request: &Request,
    style: Style,
    file: &str,
) -> anyhow::Result<Grade> {
    let Some(text) = text_of(rt, file)? else {
        return Ok(Grade::Unusable);
    };
    let cases = match cases(rt.alloc(), request, text.as_str()) {
        Ok(cases) => cases,
        Err(error) => {
            println!(rt; "{file}: {error}")?;
            return Ok(Grade::Unusable);
        }
    };
    let mut grade = Grade::Expected;
    for case in &cases {
        let search = Search {
            request,
            style,
            file,
            text: text.as_str(),
            case,
        };
        grade = grade.worse(check_case(rt, search)?);
    }
    Ok(grade)
}

/// All searches of a text.
///
/// # Errors
///
/// What is wrong with the text, or that there is no memory.
pub fn cases(alloc: Global, request: &Request, text: &str) -> Result<Vec<Case>, ParseError> {
    let plain = plain_case(alloc, request)?;
    let pairs = plain.pairs(alloc)?;
    let parsed = parse(alloc, text, pairs.as_slice())?;
    Ok(cases_of(alloc, &parsed, request)?)
}

// A search of a file.
#[derive(Clone, Copy)]
struct Search<'a> {
    request: &'a Request,
    style: Style,
    file: &'a str,
    text: &'a str,
    case: &'a Case,
}

fn check_case<R: Print + Eprint + Clock + AllocGlobal>(
    rt: &R,
    search: Search<'_>,
) -> anyhow::Result<Grade> {
    let start = Instant::now(rt)?;
    let (grade, mut report) = search.report(rt.alloc(), &mut Ticker::new(rt))?;
    if search.request.times == Times::Told {
        let millis = start.elapsed(rt)?.as_millis();
        write!(report.line, ", {millis} ms")?;
    }
    println!(rt; "{}", report.line)?;
    rt.print(report.picture.as_str())?;
    Ok(grade)
}

// A line of text, and a picture or nothing.
#[derive(Drop)]
struct Report {
    line: String,
    picture: String,
}

impl Search<'_> {
    fn report<W: Watcher>(
        &self,
        alloc: Global,
        watcher: &mut W,
    ) -> Result<(Grade, Report), AllocError> {
        let pairs = self.case.pairs(alloc)?;
        let mut report = Report {
            line: String::new(alloc),
            picture: String::new(alloc),
        };
        push_case(&mut report.line, self.file, pairs.as_slice())?;
        let effort = self.request.effort;
        match try_text(alloc, self.text, pairs.as_slice(), effort, watcher) {
            Ok(trial) => Ok((self.judge(alloc, &trial, &mut report)?, report)),
            Err(error) => {
                write!(report.line, "{error}")?;
                Ok((Grade::Unusable, report))
            }
        }
    }

    // Tells what came, and whether it was expected. If it was not, there is a picture of it.
    fn judge(
        &self,
        alloc: Global,
        trial: &Trial,
        report: &mut Report,
    ) -> Result<Grade, AllocError> {
        push_summary(&mut report.line, trial, self.request.effort.most)?;
        let expectation = match self.case.expectation {
            Some(index) => trial.parsed.expectations.get(index),
            None => None,
        };
        let Some(expectation) = expectation else {
            return Ok(trial.grade());
        };
        if trial.is_as(&expectation.verdict) {
            report.line.push_str(", as expected")?;
            return Ok(Grade::Expected);
        }
        report.line.push_str(", NOT as expected: ")?;
        push_expected(&mut report.line, &trial.parsed, expectation)?;
        if let Outcome::Wrong(walk) = &trial.outcome {
            let scene = Scene {
                parsed: &trial.parsed,
                walk,
            };
            report.picture = picture(alloc, scene, self.style)?;
        }
        Ok(Grade::Unexpected)
    }
}
