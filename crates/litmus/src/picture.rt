//! The picture of a walk: a column for each thread, a row for each step.

use crate::cell::cell_of;
use crate::closing::push_closing;
use crate::frame::Frame;
use crate::layout::{Layout, Row};
use crate::names::{is_looker, letter, name_of, workers};
use crate::scene::Scene;
use crate::style::Style;
use crate::walk::{Ending, Walk};
use lot_litmus::code::{THREADS, Thread};
use lot_litmus::parse::Parsed;
use std::alloc::{AllocError, Global};

/// Draws the walk.
pub fn picture(alloc: Global, scene: Scene<'_>, style: Style) -> Result<String, AllocError> {
    let frames = frames_of(alloc, scene)?;
    let names = names_of(alloc, scene.parsed)?;
    let cells = cells_of(alloc, scene)?;
    let longest = longest_of(names.as_slice()).max(longest_of(cells.as_slice()));
    let layout = Layout::of(alloc, style, (names.len(), longest), frames.as_slice())?;
    let mut page = String::new(alloc);
    push_frames(&mut page, scene, &layout, (&frames, &names, &cells))?;
    push_closing(&mut page, scene)?;
    Ok(page)
}

// The heads of the columns, and then a row for each state.
fn push_frames(
    page: &mut String,
    scene: Scene<'_>,
    layout: &Layout,
    (frames, names, cells): (&[Frame], &[String], &[String]),
) -> Result<(), AllocError> {
    if let Some(heads) = frames.first() {
        layout.push_heads(page, names, heads)?;
    }
    layout.push_row(page, first_row(frames))?;
    for (index, cell) in cells.iter().enumerate() {
        push_remark(page, scene.walk, index)?;
        layout.push_row(page, row_of(scene.walk, frames, index, cell.as_str()))?;
    }
    Ok(())
}

// The heads of the columns, and behind them what is shown of each state.
fn frames_of(alloc: Global, scene: Scene<'_>) -> Result<Vec<Frame>, AllocError> {
    let mut frames = Vec::new(alloc);
    frames.push(Frame::heads(alloc, scene.parsed)?)?;
    for reached in &scene.walk.states {
        frames.push(Frame::of(alloc, scene.parsed, reached.state())?)?;
    }
    Ok(frames)
}

// The letters and names of the threads.
fn names_of(alloc: Global, parsed: &Parsed) -> Result<Vec<String>, AllocError> {
    let mut names = Vec::new(alloc);
    for number in 0..workers(parsed).min(THREADS as u8) {
        let thread = Thread { number };
        let name = name_of(alloc, parsed, thread)?;
        names.push(format!(in alloc; "{} {name}", letter(thread))?)?;
    }
    Ok(names)
}

// What each step does.
fn cells_of(alloc: Global, scene: Scene<'_>) -> Result<Vec<String>, AllocError> {
    let mut cells = Vec::new(alloc);
    for index in 0..scene.walk.steps.len() {
        let cell = match scene.taken(index) {
            Some(taken) => cell_of(alloc, taken)?,
            None => String::new(alloc),
        };
        cells.push(cell)?;
    }
    Ok(cells)
}

fn longest_of(texts: &[String]) -> usize {
    let mut longest = 0;
    for text in texts {
        longest = text.len().max(longest);
    }
    longest
}

// What is to be said before the step with this index.
fn push_remark(page: &mut String, walk: &Walk, index: usize) -> Result<(), AllocError> {
    if let Ending::Round { first } = walk.ending
        && index == first
    {
        return page.push_str("From here on the threads go round for ever:\n");
    }
    if index == walk.settled {
        return page.push_str("The step above decides it. From here on, not all threads can end:\n");
    }
    Ok(())
}

// What there is before the first step.
fn first_row(frames: &[Frame]) -> Row<'_> {
    Row {
        number: 0,
        thread: None,
        text: "",
        values: frames.get(1),
        before: None,
    }
}

// The row of the step with this index.
fn row_of<'a>(walk: &Walk, frames: &'a [Frame], index: usize, text: &'a str) -> Row<'a> {
    let number = index.saturating_add(1);
    Row {
        number,
        thread: column_of(walk, index),
        text,
        values: frames.get(number.saturating_add(1)),
        before: frames.get(number),
    }
}

// The column of the thread that does the step with this index, if it has one.
fn column_of(walk: &Walk, index: usize) -> Option<usize> {
    let thread = *walk.steps.get(index)?;
    if is_looker(thread) {
        return None;
    }
    Some(thread.index())
}
