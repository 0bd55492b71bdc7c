//! The commands of the program.

use crate::{session, threads};
use std::env;
use std::process::ExitCode;
use std::rt::Env;
use std::sync::Wait;
use std::thread::Threads;
use std::time::Clock;

const USAGE_STATUS: u8 = 2;

/// Runs the command that the arguments name.
///
/// If there is not exactly one argument, or it is no command, the program prints its usage on the
/// error output and ends with status 2.
pub fn run<
    R: Env + Input + Print + Eprint + AllocGlobal + Threads + Wait + Clock + Copy + Send + 'static,
>(rt: &R) -> ExitCode {
    let word = only_word(rt);
    match word.as_ref().map_or("", |word| word.as_str()) {
        "run" => session::run(rt),
        "threads" => threads::run(rt),
        _ => {
            let _ = eprintln!(rt; "usage: parklot run | parklot threads");
            ExitCode::from(USAGE_STATUS)
        }
    }
}

// The argument, if there is one alone. Arguments that cannot be read are none.
fn only_word<R: Env + AllocGlobal>(rt: &R) -> Option<String> {
    let mut words = env::args(rt).ok()?.skip(1);
    let word = words.next()?;
    match words.next() {
        None => Some(word),
        Some(_) => None,
    }
}
