//! This module does scripts over readers and writers that have no buffers.

ghost use Rattle.std.specs.Prelude.{◌≡◌, ◌≢◌, ◌≤◌, ◌+◌, [], min, Ok, Err, IfSome, IfErr, IsErrAnd, OnOk, MatchResult};
ghost use Rattle.std.specs.Io.Buffered.{reader_remaining, writer_contents, writer_buffer};
ghost use Rattle.std.specs.Io.KnownBytes.{Keeps};
ghost use Rattle.lot_script.specs.declared.script.fault.Cause.TheVariants.{WriteFailed};
ghost use Rattle.lot_script.specs.Lines.{lines_of};
ghost use Rattle.lot_script.specs.Script.{IsScriptEnd};
ghost use Rattle.lot_script.specs.Private.Turns.{IsWrittenScript};

mod line_counter;

use super::fault::{Cause, Fault};
use super::input::Next;
use super::scripted_lot::ScriptedLot;
use super::turn;
use line_counter::LineCounter;
use std::alloc::Global;
use std::io::{BufReader, BufWriter, Read, Write};

/// Does the lines of the input as `script` does, and gives the reader and the writer a buffer each.
///
/// Answers that are held back are written before the input is read again, which may wait, and at
/// the end or a fault. So a line that is typed is answered at once, and a file is answered at full
/// speed. After a write or a flush has failed, nothing more is read, done or written.
///
/// The contract says that it ends as a script may. What it writes is tested.
///
/// # Errors
///
/// Returns the errors of `script`, and `NoMemory` at line 1 if there is not enough memory for the
/// buffers. After `WriteFailed` the line is the first one whose answer was not written as a whole,
/// and lines after it may have been done. If all answers were written and only the flush failed, it
/// is the last line that was answered.
pub fn buffered_script<R: Read + Drop, W: Write>(
    alloc: Global,
    input: R,
    output: &mut W,
) -> Result<(), Fault>
    ensures { IfSome (R.remaining input) (λ bytes. IsScriptEnd (lines_of bytes) result) }
{
    let Ok(mut input) = BufReader::new(alloc, input) else {
        return Err(no_memory());
    };
    let Ok(mut output) = BufWriter::new(alloc, LineCounter::new(output)) else {
        return Err(no_memory());
    };
    let ended = answer_lines(alloc, &mut input, &mut output);
    // Taken apart and not dropped, since a drop would write what is left of a failed write.
    let (written, _lost) = output.into_parts();
    at_first_lost(ended, written.lines())
}

// The same end, but a failed write is told of the first line whose answer was not written whole, of
// answers of which so many were.
fn at_first_lost(ended: Result<(), Fault>, written: usize) -> Result<(), Fault>
    ensures same { MatchResult result (λ _. ended ≡ Ok tt)
        (λ fault. fault.cause ≢ WriteFailed → ended ≡ Err fault) }
    ensures lost { IfErr ended (λ fault. fault.cause ≡ WriteFailed
        → IsErrAnd result (λ lost. lost.line ≡ min fault.line (written + 1))) }
{
    let Err(fault) = ended else {
        return Ok(());
    };
    if fault.cause != Cause::WriteFailed {
        return Err(fault);
    }
    Err(Fault {
        line: fault.line.min(written.saturating_add(1)),
        cause: Cause::WriteFailed,
    })
}

fn no_memory() -> Fault
    ensures { (result.line ≡ 1) × (result.cause ≡ Cause.NoMemory) }
{
    Fault {
        line: 1,
        cause: Cause::NoMemory,
    }
}

// Does the lines. Where no write failed, no answer is held back at the end. A failed write is told
// of the last line that was answered.
fn answer_lines<R: Read, W: Write + Drop>(
    alloc: Global,
    input: &mut BufReader<R>,
    output: &mut BufWriter<W>,
) -> Result<(), Fault>
    ensures ended { IfSome (reader_remaining R.remaining input.old) (λ bytes. IsWrittenScript
        (writer_contents W.contents output.old) (writer_contents W.contents output.new)
        (lines_of bytes) result) }
    ensures done { OnOk result (writer_buffer output.new ≡ []) }
    ensures stopped { IfErr result (λ fault. fault.cause ≢ WriteFailed
        → writer_buffer output.new ≡ []) }
{
    let mut line = Vec::new(alloc);
    let mut scripted = ScriptedLot::new(alloc);
    // Lines are counted as `script` counts them.
    for number in 1..usize::MAX {
        write_before_read(input, output, number - 1)?;
        match turn(&mut scripted, input, output, &mut line) {
            Ok(Next::Line) => {}
            Ok(Next::End) => return flush(output, number - 1),
            Err(cause) => return Err(stop(output, number, cause)),
        }
    }
    Err(stop(output, usize::MAX, Cause::ReadFailed))
}

// Writes the answers that are held back, the last of which is this line's, if the next line cannot
// be read without a read of the input.
fn write_before_read<R: Read, W: Write + Drop>(
    input: &BufReader<R>,
    output: &mut BufWriter<W>,
    line: usize,
) -> Result<(), Fault>
    ensures kept { Keeps (writer_contents W.contents output.old)
        (writer_contents W.contents output.new) }
    ensures failed { IfErr result (λ fault. fault.cause ≡ WriteFailed) }
{
    if input.buffer().contains(&b'\n') {
        return Ok(());
    }
    write_held(output, line)
}

// The fault of a line. The answers before it are written, unless a write failed already.
fn stop<W: Write + Drop>(output: &mut BufWriter<W>, line: usize, cause: Cause) -> Fault
    requires { 1 ≤ line }
    ensures kept { Keeps (writer_contents W.contents output.old)
        (writer_contents W.contents output.new) }
    ensures fault { result.cause ≢ WriteFailed
        → (result.line ≡ line) × (result.cause ≡ cause) × (writer_buffer output.new ≡ []) }
{
    if cause != Cause::WriteFailed
        && let Err(fault) = write_held(output, line - 1)
    {
        return fault;
    }
    Fault { line, cause }
}

// Writes the answers that are held back, the last of which is this line's.
fn write_held<W: Write + Drop>(output: &mut BufWriter<W>, line: usize) -> Result<(), Fault>
    ensures kept { Keeps (writer_contents W.contents output.old)
        (writer_contents W.contents output.new) }
    ensures written { OnOk result (writer_buffer output.new ≡ []) }
    ensures failed { IfErr result (λ fault. fault.cause ≡ WriteFailed) }
{
    if output.buffer().is_empty() {
        return Ok(());
    }
    flush(output, line)
}

fn flush<W: Write + Drop>(output: &mut BufWriter<W>, line: usize) -> Result<(), Fault>
    ensures kept { Keeps (writer_contents W.contents output.old)
        (writer_contents W.contents output.new) }
    ensures written { OnOk result (writer_buffer output.new ≡ []) }
    ensures failed { IfErr result (λ fault. (fault.line ≡ line) × (fault.cause ≡ WriteFailed)) }
{
    match output.flush() {
        Ok(()) => Ok(()),
        Err(_) => Err(Fault {
            line,
            cause: Cause::WriteFailed,
        }),
    }
}
