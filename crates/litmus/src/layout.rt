//! Where things stand in a picture.

use crate::frame::Frame;
use crate::style::{Look, Style};
use std::alloc::{AllocError, Global};
use std::mem;

// How wide a column of a thread is at least.
const LEAST_WIDTH: usize = 14;

// The number of a step, with a blank behind it.
const NUMBER_WIDTH: usize = 4;

// What stands between columns.
const GAP: usize = 2;

/// The widths of the columns.
#[derive(Drop)]
pub struct Layout {
    look: Look,

    // How many threads there are, and how wide the column of each is.
    threads: usize,
    column: usize,

    // How wide the columns of a frame are.
    values: Vec<usize>,
}

/// What stands on a row.
#[derive(Clone, Copy)]
pub struct Row<'a> {
    /// The number of the step, or 0 for none.
    pub number: usize,

    /// The index of the thread, if it has a column, and what stands there.
    pub thread: Option<usize>,
    pub text: &'a str,

    /// The values, and those of the row before, if there are any.
    pub values: Option<&'a Frame>,
    pub before: Option<&'a Frame>,
}

impl Layout {
    /// The widths at which all frames have room, and the rest is for so many threads, whose longest
    /// text has this length.
    pub fn of(
        alloc: Global,
        style: Style,
        (threads, longest): (usize, usize),
        frames: &[Frame],
    ) -> Result<Layout, AllocError> {
        let mut values = Vec::new(alloc);
        let mut rest = style.width.saturating_sub(NUMBER_WIDTH + GAP);
        let count = match frames.first() {
            Some(heads) => heads.texts.len(),
            None => 0,
        };
        for column in 0..count {
            let width = widest(frames, column);
            values.push(width)?;
            rest = rest.saturating_sub(width.saturating_add(GAP));
        }
        let share = rest.checked_div(threads).unwrap_or(LEAST_WIDTH);
        let column = share.min(longest.saturating_add(GAP)).max(LEAST_WIDTH);
        Ok(Layout {
            look: style.look,
            threads,
            column,
            values,
        })
    }

    // How many characters all columns of threads have.
    fn total(&self) -> usize {
        self.threads.saturating_mul(self.column)
    }

    // Where the column of the thread begins, and how wide it is. What is of no thread has all
    // columns.
    fn place_of(&self, thread: Option<usize>) -> (usize, usize) {
        match thread {
            Some(index) => (index.saturating_mul(self.column), self.column),
            None => (0, self.total()),
        }
    }

    /// Adds a row, on as many lines as its text needs.
    pub fn push_row(&self, page: &mut String, row: Row<'_>) -> Result<(), AllocError> {
        let alloc = *page.allocator();
        let (from, room) = self.place_of(row.thread);
        let texts = wrapped(alloc, row.text, room.saturating_sub(GAP))?;
        for (index, text) in texts.iter().enumerate() {
            let mut line = String::new(alloc);
            push_number(&mut line, if index == 0 { row.number } else { 0 })?;
            push_padded(&mut line, "", from)?;
            push_padded(&mut line, text.as_str(), self.total().saturating_sub(from))?;
            line.push_str("|")?;
            if index == 0 {
                self.push_values(&mut line, row)?;
            }
            push_trimmed(page, line.as_str())?;
        }
        Ok(())
    }

    fn push_values(&self, line: &mut String, row: Row<'_>) -> Result<(), AllocError> {
        let Some(values) = row.values else {
            return Ok(());
        };
        for (column, width) in self.values.iter().enumerate() {
            let text = values.text(column);
            let is_new = match row.before {
                Some(before) => before.text(column) != text,
                None => false,
            };
            if is_new {
                self.push_new(line, text, *width)?;
            } else {
                push_old(line, text, *width)?;
            }
        }
        Ok(())
    }

    // Adds a value that is new, with a mark.
    fn push_new(&self, line: &mut String, text: &str, width: usize) -> Result<(), AllocError> {
        let (begin, end) = self.look.marks();
        line.push_str(" ")?;
        line.push_str(begin)?;
        line.push_str("*")?;
        line.push_str(text)?;
        line.push_str(end)?;
        push_blanks(line, width.saturating_sub(text.len()))
    }

    /// Adds the heads of the columns.
    pub fn push_heads(
        &self,
        page: &mut String,
        names: &[String],
        heads: &Frame,
    ) -> Result<(), AllocError> {
        let mut line = String::new(*page.allocator());
        push_blanks(&mut line, NUMBER_WIDTH)?;
        for name in names {
            push_padded(&mut line, name.as_str(), self.column)?;
        }
        line.push_str("|")?;
        for (column, width) in self.values.iter().enumerate() {
            push_old(&mut line, heads.text(column), *width)?;
        }
        push_trimmed(page, line.as_str())
    }
}

// The length of the longest text of the column.
fn widest(frames: &[Frame], column: usize) -> usize {
    let mut width = 0;
    for frame in frames {
        width = frame.text(column).len().max(width);
    }
    width
}

// Adds the line without the blanks at its end.
fn push_trimmed(page: &mut String, line: &str) -> Result<(), AllocError> {
    page.push_str(line.trim_end())?;
    page.push_str("\n")
}

// Adds a value that is as it was.
fn push_old(line: &mut String, text: &str, width: usize) -> Result<(), AllocError> {
    push_blanks(line, GAP)?;
    push_padded(line, text, width)
}

// Adds the number of a step, or as many blanks.
fn push_number(line: &mut String, number: usize) -> Result<(), AllocError> {
    if number == 0 {
        return push_blanks(line, NUMBER_WIDTH);
    }
    write!(line, "{number:>3} ")
}

// Adds the text, and blanks up to the width.
fn push_padded(line: &mut String, text: &str, width: usize) -> Result<(), AllocError> {
    line.push_str(text)?;
    push_blanks(line, width.saturating_sub(text.len()))
}

fn push_blanks(line: &mut String, count: usize) -> Result<(), AllocError> {
    for _ in 0..count {
        line.push_str(" ")?;
    }
    Ok(())
}

// The text on lines that are no longer than the width, unless a word alone is.
fn wrapped(alloc: Global, text: &str, width: usize) -> Result<Vec<String>, AllocError> {
    let mut lines = Vec::new(alloc);
    let mut line = String::new(alloc);
    for word in text.split(' ') {
        let length = line.len().saturating_add(1).saturating_add(word.len());
        if line.is_empty() {
            line.push_str(word)?;
        } else if length > width {
            let next = format!(in alloc; "  {word}")?;
            lines.push(mem::replace(&mut line, next))?;
        } else {
            line.push_str(" ")?;
            line.push_str(word)?;
        }
    }
    lines.push(line)?;
    Ok(lines)
}
