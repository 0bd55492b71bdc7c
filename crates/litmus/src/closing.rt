//! What went wrong, in words.

use crate::names::{
    instruction_at, is_looker, key_name, key_of, letter, line_at, name_of, statement_at,
};
use crate::scene::Scene;
use crate::walk::Ending;
use lot_litmus::code::{THREADS, Thread};
use lot_litmus::parse::Parsed;
use lot_litmus::state::{Progress, State};
use lot_litmus::test::Fault;
use std::alloc::AllocError;

/// Adds what went wrong.
pub fn push_closing(page: &mut String, scene: Scene<'_>) -> Result<(), AllocError> {
    match scene.walk.ending {
        Ending::Fault { fault, progress } => {
            let thread = scene.walk.last_thread();
            push_fault(page, scene, thread, (fault, progress))
        }
        Ending::Asleep => push_threads(page, scene),
        Ending::Round { first } => {
            let next = first.saturating_add(1);
            writeln!(page, "Now all is as it was before step {next}.")?;
            push_threads(page, scene)
        }
        Ending::Open => { page.push_str("From here on, not all threads can end.\n") }
    }
}

// The step of the thread shows the fault, where it has come so far.
fn push_fault(
    page: &mut String,
    scene: Scene<'_>,
    thread: Thread,
    (fault, progress): (Fault, Progress),
) -> Result<(), AllocError> {
    let Some(statement) = statement_at(scene.parsed, thread, progress.at) else {
        return Ok(());
    };
    write!(page, "Line {}: ", statement.line)?;
    let text = statement.text.as_str();
    match fault {
        Fault::Assertion if is_looker(thread) => {
            writeln!(page, "at the end it is not so: {text}")
        }
        Fault::Assertion => {
            push_thread(page, scene.parsed, thread)?;
            writeln!(page, " finds that it is not so: {text}")?;
            push_locals(page, scene.parsed, thread, (text, progress))
        }
        Fault::Exclusion => {
            push_thread(page, scene.parsed, thread)?;
            page.push_str(" enters the critical section, and in it is")?;
            push_insiders(page, scene)?;
            page.push_str(".\n")
        }
        Fault::Overflow => {
            push_thread(page, scene.parsed, thread)?;
            writeln!(page, " comes to a number that is no byte: {text}")?;
            push_locals(page, scene.parsed, thread, (text, progress))
        }
        Fault::Endless => {
            push_thread(page, scene.parsed, thread)?;
            page.push_str(" goes on without a step.\n")
        }
    }
}

// The letter of the thread, and its name.
fn push_thread(page: &mut String, parsed: &Parsed, thread: Thread) -> Result<(), AllocError> {
    let name = name_of(*page.allocator(), parsed, thread)?;
    write!(page, "{} ({name})", letter(thread))
}

// Adds what the thread has in those of its locals that the text names.
fn push_locals(
    page: &mut String,
    parsed: &Parsed,
    thread: Thread,
    (text, progress): (&str, Progress),
) -> Result<(), AllocError> {
    let Some(names) = parsed.threads.get(thread.index()) else {
        return Ok(());
    };
    for (name, number) in names.locals.iter().zip(progress.locals.iter()) {
        if !name.is_empty() && text.contains(name.as_str()) {
            writeln!(page, "{name} is {number}.")?;
        }
    }
    Ok(())
}

// Adds those who were in the critical section before the last step.
fn push_insiders(page: &mut String, scene: Scene<'_>) -> Result<(), AllocError> {
    let Some(state) = scene.walk.last() else {
        return Ok(());
    };
    for number in 0..THREADS as u8 {
        let thread = Thread { number };
        if state.threads[thread.index()].inside.is_some() {
            page.push_str(" ")?;
            push_thread(page, scene.parsed, thread)?;
        }
    }
    Ok(())
}

// Adds a line for each thread that has not ended.
fn push_threads(page: &mut String, scene: Scene<'_>) -> Result<(), AllocError> {
    let Some(state) = scene.walk.last() else {
        return Ok(());
    };
    for number in 0..THREADS as u8 {
        let thread = Thread { number };
        if !is_looker(thread) && has_work(scene.parsed, state, thread) {
            push_thread(page, scene.parsed, thread)?;
            push_doing(page, scene, state, thread)?;
        }
    }
    Ok(())
}

fn has_work(parsed: &Parsed, state: &State, thread: Thread) -> bool {
    let at = state.threads[thread.index()].at;
    instruction_at(parsed, thread, at).is_some()
}

// Adds what the thread does for ever.
fn push_doing(
    page: &mut String,
    scene: Scene<'_>,
    state: &State,
    thread: Thread,
) -> Result<(), AllocError> {
    let line = line_at(scene.parsed, thread, state.threads[thread.index()].at);
    if goes_round(scene, thread) {
        return writeln!(page, " goes round for ever, now at line {line}.");
    }
    match key_of(state, thread) {
        Some(key) => {
            let key = key_name(scene.parsed, key);
            writeln!(page, " sleeps on {key} for ever, at line {line}.")
        }
        None => writeln!(page, " waits for ever, at line {line}."),
    }
}

// Whether the thread does a step of the round.
fn goes_round(scene: Scene<'_>, thread: Thread) -> bool {
    let Ending::Round { first } = scene.walk.ending else {
        return false;
    };
    for step in scene.walk.steps.iter().skip(first) {
        if step.number == thread.number {
            return true;
        }
    }
    false
}
