//! What a picture says of a step.

use crate::names::{instruction_at, statement_at};
use crate::note::Taken;
use std::alloc::{AllocError, Global};

/// The line and the text of the step's statement, what else it does, and whether the thread ends.
pub fn cell_of(alloc: Global, taken: Taken<'_>) -> Result<String, AllocError> {
    let mut cell = String::new(alloc);
    let at = taken.progress().at;
    if let Some(statement) = statement_at(taken.parsed, taken.thread, at) {
        let text = statement.text.as_str();
        write!(cell, "{} {text}", statement.line)?;
        taken.push_note(&mut cell, text)?;
    }
    if has_ended(taken) {
        cell.push_str(", and ends")?;
    }
    Ok(cell)
}

// Whether the thread has come behind its last instruction.
fn has_ended(taken: Taken<'_>) -> bool {
    let Some(behind) = taken.behind else {
        return false;
    };
    let at = behind.threads[taken.thread.index()].at;
    instruction_at(taken.parsed, taken.thread, at).is_none()
}
