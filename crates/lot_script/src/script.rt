//! This module has scripts: each line is a step of an exclusive lot or a question to it, and gets
//! an answer.
//!
//! The first line is `lot M`, which creates a lot for at most `M` threads. Each other line is a
//! step or a question. The README of the crate lists all of them.
//!
//! A line consists of words with one blank between two, and has at most 4,096 bytes. Numbers are
//! decimal, without leading zeros, up to `usize::MAX`. The last line need not end in a line feed.

ghost use Rattle.std.specs.Prelude.{◌≡◌, ℕ, List, option_map, IfSome, IfErr};
ghost use Rattle.std.specs.Io.KnownBytes.{Appends, Keeps};
ghost use Rattle.lot_script.specs.Lines.{lines_of};
ghost use Rattle.lot_script.specs.Reply.{state_of};
ghost use Rattle.lot_script.specs.Script.{IsScript};
ghost use Rattle.lot_script.specs.Private.Turns.{IsTurn};

mod buffered;
mod command;
mod fault;
mod input;
mod keyword;
mod output;
mod parse;
mod print;
mod reply;
mod scripted_lot;
mod words;

pub use buffered::buffered_script;
pub use command::Command;
pub use fault::{Cause, Fault};
use input::{Next, read_line};
pub use print::write_answer;
pub use scripted_lot::ScriptedLot;
use std::alloc::Global;
use std::io::{BufRead, Write};

/// Does the lines of the input one after another, and writes an answer for each.
///
/// ```text
/// lot 2
/// register
/// enter 0 7 yes 0 untimed
/// one 7 42
/// return 0
/// ```
///
/// These lines are answered
///
/// ```text
/// ok
/// number 0
/// entered
/// unparked 1 requeued 0 more false
/// unparked 42
/// ```
///
/// The lot is dropped at the end of the call. Each line is read, done and answered before the next
/// one is read, so the lines need the memory of the longest of them, at most 4,096 bytes. It takes
/// no lock.
///
/// Lines are read by `fill_buf` and `consume` alone. Answers are written by `write` alone, in
/// pieces, and this allocates nothing. At the end of the input the writer is flushed. A read that
/// was interrupted is tried again; a write is not.
///
/// # Errors
///
/// Returns the fault of the first line that cannot be done or answered. The answers of the lines
/// before it are written, and nothing of its own answer. Only after `WriteFailed` a beginning of
/// its answer may be written, or all of it if the flush at the end failed, which is a fault of the
/// last line.
///
/// If the lot has not enough memory for a step or a list, that is no fault. The answer is `no
/// memory`, and the script goes on.
pub fn script<R: BufRead + Drop, W: Write>(
    alloc: Global,
    mut input: R,
    output: &mut W,
) -> Result<(), Fault>
    ensures { IfSome (R.remaining input) (λ bytes. (written : List ℕ)
        × Appends (W.contents output.old) (W.contents output.new) written
        × IsScript (lines_of bytes) result written) }
{
    let mut line = Vec::new(alloc);
    let mut scripted = ScriptedLot::new(alloc);
    // Lines are counted in a `usize`, and so the loop has an end. No input has so many.
    for number in 1..usize::MAX {
        match turn(&mut scripted, &mut input, output, &mut line) {
            Ok(Next::Line) => {}
            Ok(Next::End) => return flush(output, number - 1),
            Err(cause) => {
                return Err(Fault {
                    line: number,
                    cause,
                });
            }
        }
    }
    Err(Fault {
        line: usize::MAX,
        cause: Cause::ReadFailed,
    })
}

// Flushes after the last line, whose number this is.
fn flush<W: Write>(output: &mut W, line: usize) -> Result<(), Fault>
    ensures kept { Keeps (W.contents output.old) (W.contents output.new) }
    ensures failed { IfErr result (λ fault.
        (fault.line ≡ line) × (fault.cause ≡ Cause.WriteFailed)) }
{
    match output.flush() {
        Ok(()) => Ok(()),
        Err(_) => Err(Fault {
            line,
            cause: Cause::WriteFailed,
        }),
    }
}

// Reads a line and answers it. An input without any line is refused.
fn turn<R: BufRead, W: Write>(
    scripted: &mut ScriptedLot,
    input: &mut R,
    output: &mut W,
    line: &mut Vec<u8>,
) -> Result<Next, Cause>
    ensures { IfSome (R.remaining input.old) (λ bytes. (written : List ℕ)
        × Appends (W.contents output.old) (W.contents output.new) written
        × IsTurn (option_map state_of scripted.old) bytes (R.remaining input.new) result written
        (option_map state_of scripted.new)) }
{
    match read_line(input, line)? {
        Next::Line => {
            scripted.answer(line.as_slice(), output)?;
            Ok(Next::Line)
        }
        Next::End if scripted.lot().is_none() => Err(Cause::BadStep),
        Next::End => Ok(Next::End),
    }
}
