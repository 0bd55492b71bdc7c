//! The text of a file.

use std::fs;
use std::rt::Files;

/// The text of the file. Where it cannot be read, why is told, and there is none.
pub fn text_of<R: Files + Print + AllocGlobal>(
    rt: &R,
    file: &str,
) -> anyhow::Result<Option<String>> {
    match fs::read_to_string(rt, file) {
        Ok(text) => Ok(Some(text)),
        Err(error) => {
            println!(rt; "{file}: {error}")?;
            Ok(None)
        }
    }
}
