//! This module writes text to a writer.

ghost use Rattle.std.specs.Prelude.{◌≡◌, ◌+◌, ◌<◌, decimal};
ghost use Rattle.lot_script.specs.declared.script.fault.Cause.TheVariants.{WriteFailed};
ghost use Rattle.lot_script.specs.Private.Turns.{Writes};

use super::fault::Cause;
use std::io::Write;

// A write told an error, or took no byte.
#[derive(Drop)]
pub(super) struct NotWritten;

impl From<NotWritten> for Cause {
    ghost from_gives = { λ _ cause. cause ≡ WriteFailed };

    fn from(_error: NotWritten) -> Cause {
        Cause::WriteFailed
    }
}

// Writes all of the bytes. A write that fails or takes none is not tried again.
pub(super) fn put<W: Write>(output: &mut W, bytes: &[u8]) -> Result<(), NotWritten>
    ensures { Writes (W.contents output.old) (W.contents output.new) result bytes.now }
{
    let mut rest = bytes;
    while !rest.is_empty() {
        match output.write(rest) {
            Ok(0) => return Err(NotWritten),
            Ok(taken) => rest = &rest[taken..],
            Err(_) => return Err(NotWritten),
        }
    }
    Ok(())
}

// Writes the number in decimal.
pub(super) fn put_number<W: Write>(output: &mut W, number: usize) -> Result<(), NotWritten>
    ensures { Writes (W.contents output.old) (W.contents output.new) result (decimal number) }
{
    if number < 10 {
        return put(output, &[digit_of(number)]);
    }
    put_number(output, number / 10)?;
    put(output, &[digit_of(number % 10)])
}

// The digit of a number below 10.
fn digit_of(number: usize) -> u8
    requires { number < 10 }
    ensures { result ≡ 48 + number }
{
    b'0' + number as u8
}
