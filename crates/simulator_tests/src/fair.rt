//! The fair mutex and its condition variable, without threads: worked rows, and lists of steps
//! beside the plain machine.

use crate::plain::fair::PlainFair;
use crate::player::{expect_rows, play_long_list, play_short_lists};
use crate::told::{Told, said, say, told_of, write_list};
use crate::words::{expect_text, number, word};
use lot_base::token::UnparkResult;
use lot_simulator::fair::{FairAnswer, FairCore, FairStep, run_fair};
use std::alloc::Global;
use std::fmt::Write;
use std::process::Abort;

// The step that the line is, if it is no question.
fn fair_step(line: &str) -> Option<FairStep> {
    let thread = number(line, 1);
    Some(match word(line, 0) {
        "register" => FairStep::Register,
        "retire" => FairStep::Retire { thread },
        "lock" => FairStep::Lock { thread },
        "unlock" => FairStep::Unlock { thread },
        "return" => FairStep::Return { thread },
        "wait" => FairStep::Wait { thread },
        "leave" => FairStep::Leave { thread },
        "notify-one" => FairStep::NotifyOne,
        "notify-all" => FairStep::NotifyAll,
        _ => return None,
    })
}

fn told_by(answer: FairAnswer) -> Told {
    match answer {
        FairAnswer::Registered(number) => told_of("number #\n", number, 0),
        FairAnswer::Full => said("full\n"),
        FairAnswer::NoMemory => said("no memory\n"),
        FairAnswer::Retired => said("retired\n"),
        FairAnswer::Locked => said("locked\n"),
        FairAnswer::Queued => said("queued\n"),
        FairAnswer::Unlocked { handed: true } => said("handed\n"),
        FairAnswer::Unlocked { handed: false } => said("freed\n"),
        FairAnswer::Waiting => said("waiting\n"),
        FairAnswer::Notified(told) => told_of_notify(told),
        FairAnswer::Misfit => said("misfit\n"),
    }
}

fn told_of_notify(told: UnparkResult) -> Told {
    let (unparked, requeued) = (told.unparked_threads, told.requeued_threads);
    if told.have_more_threads {
        told_of("notified # requeued # more true\n", unparked, requeued)
    } else {
        told_of("notified # requeued # more false\n", unparked, requeued)
    }
}

// Writes what the core answers if the line is a question. Questions stand behind the steps.
fn write_reply(rt: &impl Abort, core: &FairCore, line: &str, text: &mut String) {
    match word(line, 0) {
        "waiters" => write_list(text, core.waiters().expect(rt, "memory").as_slice()),
        "sleepers" => write_list(text, core.sleepers().expect(rt, "memory").as_slice()),
        "status" => write_status(rt, core, number(line, 1), text),
        _ => return,
    }
    say(text, "\n");
}

fn write_status(rt: &impl Abort, core: &FairCore, thread: usize, text: &mut String) {
    let (is_locked, status) = (core.is_locked(), core.status(thread));
    write!(text, "{is_locked} {status:?}").expect(rt, "memory");
}

// What the core answers to the lines. It refuses a `run_fair` that always answers `NoMemory`.
fn answers_to(rt: &impl Abort, alloc: Global, core: &mut FairCore, lines: &str) -> String {
    let (mut steps, mut answers) = (Vec::new(alloc), Vec::new(alloc));
    for line in lines.lines().skip(1) {
        if let Some(step) = fair_step(line) {
            steps.push(step).expect(rt, "memory");
        }
    }
    run_fair(core, steps.as_slice(), &mut answers).expect(rt, "memory");
    let mut text = String::new(alloc);
    for answer in &answers {
        told_by(*answer).write(&mut text);
    }
    text
}

// What the plain machine answers to the lines.
fn expected_of(alloc: Global, plain: &mut PlainFair, lines: &str) -> String {
    let mut text = String::new(alloc);
    for line in lines.lines().skip(1) {
        plain.answer(line, &mut text);
        say(&mut text, "\n");
    }
    text
}

/// Plays the lines on both. The first one tells for how many threads.
pub fn play(rt: &impl Abort, alloc: Global, lines: &str) -> String {
    let threads = number(lines, 1);
    let mut core = FairCore::new(alloc, threads).expect(rt, "memory");
    let mut found = answers_to(rt, alloc, &mut core, lines);
    for line in lines.lines() {
        write_reply(rt, &core, line, &mut found);
    }
    let expected = expected_of(alloc, &mut PlainFair::new(alloc, threads), lines);
    expect_text(rt, lines, found.as_str(), expected.as_str());
    found
}

// Three threads have registered.
const BEFORE: &str = "fair 3\n register = number 0\n register = number 1\n register = number 2\n";

const ROWS: [&str; 5] = [
    // The mutex goes to those who wait in order.
    "lock 0 = locked\n lock 1 = queued\n lock 2 = queued\n unlock 0 = handed\n lock 0 = queued\n\
    unlock 1 = misfit\n return 1 = locked\n unlock 1 = handed\n return 2 = locked\n\
    unlock 2 = handed\n return 0 = locked\n unlock 0 = freed",
    // Who is notified before it leaves is handed the mutex.
    "lock 0 = locked\n wait 0 = waiting\n notify-all = notified 0 requeued 1 more false\n\
    leave 0 = handed\n return 0 = locked",
    // Two sleep. Under the mutex a notify moves all, in order; a free mutex it hands to the first.
    "lock 0 = locked\n wait 0 = waiting\n leave 0 = freed\n lock 1 = locked\n wait 1 = waiting\n\
    leave 1 = freed\n lock 2 = locked\n notify-all = notified 0 requeued 2 more false\n\
    unlock 2 = handed\n return 0 = locked\n unlock 0 = handed\n\
    return 1 = locked",
    "lock 0 = locked\n wait 0 = waiting\n leave 0 = freed\n lock 1 = locked\n wait 1 = waiting\n\
    leave 1 = freed\n notify-one = notified 1 requeued 0 more true\n lock 2 = queued\n\
    return 0 = locked\n unlock 0 = handed\n return 1 = misfit\n\
    return 2 = locked",
    "lock 0 = locked\n wait 0 = waiting\n leave 0 = freed\n lock 1 = locked\n wait 1 = waiting\n\
    leave 1 = freed\n notify-all = notified 1 requeued 1 more false\n return 1 = misfit\n\
    return 0 = locked\n unlock 0 = handed\n return 1 = locked",
];

// The steps that the short lists are made of: five of each of two threads, and the notifies.
const STEPS: [&str; 12] = [
    "lock 0",
    "lock 1",
    "unlock 0",
    "unlock 1",
    "return 0",
    "return 1",
    "wait 0",
    "wait 1",
    "leave 0",
    "leave 1",
    "notify-one",
    "notify-all",
];

// What goes before the short lists.
const BEGINNINGS: [&str; 8] = [
    "fair 2\nregister\nregister\n",
    "fair 2\nregister\nregister\nlock 0\n",
    "fair 2\nregister\nregister\nlock 0\nlock 1\n",
    "fair 2\nregister\nregister\nlock 0\nlock 1\nunlock 0\n",
    "fair 2\nregister\nregister\nlock 0\nwait 0\n",
    "fair 2\nregister\nregister\nlock 0\nwait 0\nleave 0\n",
    "fair 2\nregister\nregister\nlock 0\nwait 0\nleave 0\nnotify-one\n",
    "fair 2\nregister\nregister\nlock 0\nwait 0\nleave 0\nlock 1\nwait 1\n",
];

// What is asked behind each list.
const QUESTIONS: &str = "waiters\nsleepers\nstatus 0\nstatus 1\nstatus 2\n";

#[test]
fn the_mutex_and_the_condition_variable_are_fair(rt: HostRuntime) {
    expect_rows(&rt, rt.alloc(), BEFORE, ROWS.as_slice());
}

#[test]
fn lists_of_fair_steps_are_those_of_the_plain_machine(rt: HostRuntime) {
    for before in &BEGINNINGS {
        play_short_lists(&rt, rt.alloc(), (*before, QUESTIONS), STEPS.as_slice(), 2);
    }
    for first in &["fair 1\n", "fair 2\n", "fair 5\n"] {
        play_long_list(&rt, rt.alloc(), (*first, QUESTIONS), 4_000);
    }
}
