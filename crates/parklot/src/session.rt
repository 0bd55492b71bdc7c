//! `parklot run`: a script on standard input and output.

use lot_script::script::buffered_script;
use std::io;
use std::process::ExitCode;

/// Answers the lines of standard input on standard output.
///
/// If a line is refused, the program says so on the error output and ends with status 1.
pub(super) fn run<R: Input + Print + Eprint + AllocGlobal>(rt: &R) -> ExitCode {
    match buffered_script(rt.alloc(), rt.reader(), &mut io::writer(rt)) {
        Ok(()) => ExitCode::SUCCESS,
        Err(fault) => {
            let _ = eprintln!(rt; "{fault}");
            ExitCode::FAILURE
        }
    }
}
