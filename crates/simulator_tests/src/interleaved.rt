//! The interleaved lot beside the plain interleaved machine: the same answers, and the same
//! sequential steps, which have the answers of the same places when a lot does them.

mod lists;
mod rows;

use crate::plain::interleaved::FinePlain;
use crate::script::answers_of;
use crate::told::{said, say, told_of, write_list};
use crate::words;
use crate::words::{behind, expect_text, number, push, step, word};
use lot_base::token::ParkToken;
use lot_machine::step::Step;
use lot_simulator::interleaved::{FineAnswer, FineLot, FineStep, run_fine};
use std::alloc::Global;
use std::fmt::Write;
use std::process::Abort;

// The step that the line is, if it is no question.
fn fine_step(rt: &impl Abort, alloc: Global, line: &str) -> Option<FineStep> {
    let (of, key) = (number(line, 1), number(line, 2));
    Some(match word(line, 0) {
        "begin" => match step(rt, alloc, behind(behind(line))) {
            Step::Unpark(op) => FineStep::Begin { caller: of, op },
            _ => return None,
        },
        "commit" => FineStep::Commit { caller: of },
        "end" => FineStep::End { caller: of },
        "wake" => FineStep::Wake { caller: of },
        "deadline" => FineStep::Deadline { thread: of },
        "read" => FineStep::ReadKey { thread: of },
        "look" => FineStep::Look { thread: of },
        "enter" => FineStep::Enter {
            thread: of,
            key,
            valid: word(line, 3) == "yes",
            park_token: ParkToken(number(line, 4)),
            timed: word(line, 5) == "timed",
        },
        "return" => FineStep::Return { thread: of },
        "register" => FineStep::Register,
        "retire" => FineStep::Retire { thread: of },
        "acquire" => FineStep::Acquire { thread: of, key },
        "release" => FineStep::Release { thread: of, key },
        "trim" => FineStep::Trim,
        _ => return None,
    })
}

fn write_answer(rt: &impl Abort, alloc: Global, answer: FineAnswer, text: &mut String) {
    let answer = match answer {
        FineAnswer::Answer(answer) => {
            words::write_answer(rt, alloc, answer, text);
            said("")
        }
        FineAnswer::Committed(thread) => told_of("committed #", thread, 0),
        FineAnswer::Ended => said("ended"),
        FineAnswer::Woken => said("woken"),
        FineAnswer::Late => said("late"),
        FineAnswer::Read(key) => told_of("read #", key, 0),
        FineAnswer::Retry => said("retry"),
        FineAnswer::Blocked => said("blocked"),
    };
    answer.write(text);
    say(text, "\n");
}

// Writes what the lot answers if the line is a question. Questions stand behind the steps.
fn write_reply(rt: &impl Abort, lot: &FineLot, line: &str, text: &mut String) {
    match word(line, 0) {
        "list" => write_list(
            text,
            lot.list(number(line, 1)).expect(rt, "memory").as_slice(),
        ),
        "size" => told_of("buckets # threads #", lot.size(), lot.registered()).write(text),
        _ => return,
    }
    say(text, "\n");
}

fn write_step(rt: &impl Abort, step: &Step, text: &mut String) {
    writeln!(text, "{step:?}").expect(rt, "memory");
}

// Compares what was told with the sequential steps of the plain machine.
fn expect_told(rt: &impl Abort, alloc: Global, told: &[Step], steps: &str) {
    let (mut found, mut expected) = (String::new(alloc), String::new(alloc));
    for step in told {
        write_step(rt, step, &mut found);
    }
    for line in steps.lines() {
        write_step(rt, &step(rt, alloc, line), &mut expected);
    }
    expect_text(rt, steps, found.as_str(), expected.as_str());
}

// What is asked behind the sequential steps. The answers tell lists, records and statuses.
const QUESTIONS: &str = "list 0\nlist 13\nlist 1\nrecords 1 13\nresolve 0\nresolve 1\nsize\n";

// An exclusive lot does the sequential steps, and answers as the plain machine noted, and behind
// them as one that is in its sequential view.
fn expect_sequential(rt: &impl Abort, alloc: Global, threads: usize, plain: &mut FinePlain) {
    let (mut lines, mut expected) = (String::new(alloc), String::new(alloc));
    told_of("lot #\n", threads, 0).write(&mut lines);
    push(rt, &mut lines, plain.steps.as_str());
    push(rt, &mut lines, QUESTIONS);
    push(rt, &mut expected, "ok\n");
    push(rt, &mut expected, plain.answers.as_str());
    plain.go_over();
    for line in QUESTIONS.lines() {
        plain.view.answer(line, &mut expected);
        say(&mut expected, "\n");
    }
    let found = answers_of(rt, alloc, lines.as_str().as_bytes(), false);
    expect_text(rt, lines.as_str(), found.as_str(), expected.as_str());
}

// What the lot answers to the lines. It adds the sequential steps of what it did.
fn answers_to(
    rt: &impl Abort,
    alloc: Global,
    lot: &mut FineLot,
    lines: &str,
    told: &mut Vec<Step>,
) -> String {
    let (mut steps, mut answers) = (Vec::new(alloc), Vec::new(alloc));
    for line in lines.lines().skip(1) {
        if let Some(step) = fine_step(rt, alloc, line) {
            steps.push(step).expect(rt, "memory");
        }
    }
    run_fine(lot, steps.as_slice(), &mut answers, told).expect(rt, "memory");
    text_of(rt, alloc, answers.as_slice())
}

fn text_of(rt: &impl Abort, alloc: Global, answers: &[FineAnswer]) -> String {
    let mut text = String::new(alloc);
    for answer in answers {
        write_answer(rt, alloc, *answer, &mut text);
    }
    text
}

// What the plain machine answers to the lines.
fn expected_of(alloc: Global, plain: &mut FinePlain, lines: &str) -> String {
    let mut text = String::new(alloc);
    for line in lines.lines().skip(1) {
        plain.answer(line, &mut text);
        say(&mut text, "\n");
    }
    text
}

// Writes the answers to the questions behind the steps. The steps that were told are those of the
// plain machine, which are compared with the lot's.
fn write_replies(
    rt: &impl Abort,
    (lot, plain): (&FineLot, &FinePlain),
    lines: &str,
    text: &mut String,
) {
    for line in lines.lines() {
        write_reply(rt, lot, line, text);
    }
    if lines.ends_with("steps\n") {
        plain.write_steps(text);
        say(text, "\n");
    }
}

/// Plays the lines on both. The first one tells for how many threads and callers.
pub fn play(rt: &impl Abort, alloc: Global, lines: &str) -> String {
    let (threads, callers) = (number(lines, 1), number(lines, 2));
    let mut lot = FineLot::new(alloc, threads, callers).expect(rt, "memory");
    let mut plain = FinePlain::new(alloc, threads, callers);
    let mut told = Vec::new(alloc);
    let expected = expected_of(alloc, &mut plain, lines);
    let mut found = answers_to(rt, alloc, &mut lot, lines, &mut told);
    write_replies(rt, (&lot, &plain), lines, &mut found);
    expect_text(rt, lines, found.as_str(), expected.as_str());
    expect_told(rt, alloc, told.as_slice(), plain.steps.as_str());
    expect_sequential(rt, alloc, threads, &mut plain);
    found
}
