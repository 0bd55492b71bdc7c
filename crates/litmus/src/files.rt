//! The files that are meant.

use std::alloc::AllocError;
use std::path::AsPath;
use std::rt::Files;
use std::{fs, io};

// What the name of a file of a protocol ends with.
const ENDING: &str = ".litmus";

/// The names, but for each folder with protocols in it theirs, in order.
pub fn files_of<R: Files + AllocGlobal + Clone + Drop>(
    rt: &R,
    names: &[String],
) -> io::Result<Vec<String>> {
    let mut files = Vec::new(rt.alloc());
    for name in names {
        push_files(rt, &mut files, name)?;
    }
    Ok(files)
}

fn push_files<R: Files + AllocGlobal + Clone + Drop>(
    rt: &R,
    files: &mut Vec<String>,
    name: &String,
) -> io::Result<()> {
    let Ok(folder) = fs::read_dir(rt, name.as_str()) else {
        files.push(name.clone()?)?;
        return Ok(());
    };
    let mut found = Vec::new(rt.alloc());
    for entry in folder {
        add(&mut found, entry?.path().path_text())?;
    }
    push_sorted(files, found, name.as_str())?;
    Ok(())
}

// Adds those that were found in the folder, or the folder if there are none, which is no text.
fn push_sorted(
    files: &mut Vec<String>,
    mut found: Vec<String>,
    folder: &str,
) -> Result<(), AllocError> {
    if found.is_empty() {
        found.push(String::from_str(*files.allocator(), folder)?)?;
    }
    found.sort()?;
    for file in found {
        files.push(file)?;
    }
    Ok(())
}

// Adds the file, if it is one of a protocol.
fn add(files: &mut Vec<String>, file: &str) -> Result<(), AllocError> {
    if file.ends_with(ENDING) {
        files.push(String::from_str(*files.allocator(), file)?)?;
    }
    Ok(())
}
