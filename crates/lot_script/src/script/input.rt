//! This module reads the lines of an input.

ghost use Rattle.std.specs.Prelude.{◌≡◌, ◌<◌, ◌≤◌, length, take, slice_index, IfSome, OnOk};
ghost use Rattle.lot_script.specs.Private.Turns.{HasNoFeed, IsLineRead, IsPartRead};

use super::fault::Cause;
use std::io::{BufRead, ErrorKind};

/// The greatest number of bytes of a line, without its line feed.
pub(super) const MAX_LINE: usize = 4096;

// What was found where a line may begin.
pub(super) enum Next {
    Line,
    End,
}

// What stands behind the bytes that were read of a line.
#[derive(Drop)]
enum Behind {
    // Its line feed, which was read too.
    Feed,

    // What is to be read yet.
    Unknown,

    // The end of the input.
    End,
}

// Reads the next line, without its line feed. Of a line that is too long no more is kept than shows
// it.
pub(super) fn read_line<R: BufRead>(input: &mut R, line: &mut Vec<u8>) -> Result<Next, Cause>
    ensures read { IfSome (R.remaining input.old) (λ bytes.
        IsLineRead bytes (R.remaining input.new) result line.new.items) }
    ensures short { OnOk result (length line.new.items ≤ MAX_LINE) }
{
    line.clear();
    // A read that was interrupted is tried again, so often that it comes to an end all the same.
    for _ in 0..u64::MAX {
        let behind = read_part(input, line)?;
        if line.len() > MAX_LINE {
            return Err(Cause::BadStep);
        }
        match behind {
            Behind::Feed => return Ok(Next::Line),
            Behind::Unknown => {}
            Behind::End if line.is_empty() => return Ok(Next::End),
            Behind::End => return Ok(Next::Line),
        }
    }
    Err(Cause::ReadFailed)
}

// Reads what the reader holds of the line, up to one byte more than a line may have.
fn read_part<R: BufRead>(input: &mut R, line: &mut Vec<u8>) -> Result<Behind, Cause>
    requires { length line.old.items ≤ MAX_LINE }
    ensures { IsPartRead (R.remaining input.old) (R.remaining input.new) line.old.items result
        line.new.items }
{
    let held = match input.fill_buf() {
        Ok(held) => held,
        Err(error) => {
            if error.kind() == ErrorKind::Interrupted {
                return Ok(Behind::Unknown);
            }
            return Err(Cause::ReadFailed);
        }
    };
    if held.is_empty() {
        return Ok(Behind::End);
    }
    let most = held.len().min(MAX_LINE + 1 - line.len());
    let part = &held[..most];
    let end = before_feed(part);
    line.extend_from_slice(&part[..end])?;
    if end < most {
        input.consume(end + 1);
        return Ok(Behind::Feed);
    }
    input.consume(end);
    Ok(Behind::Unknown)
}

// How many bytes stand before the first line feed, or how many there are.
fn before_feed(bytes: &[u8]) -> usize
    ensures within { result ≤ length bytes.now }
    ensures none { HasNoFeed (take result bytes.now) }
    ensures feed { result < length bytes.now → slice_index bytes.now result ≡ 10 }
{
    match bytes.iter().position(|byte| *byte == b'\n') {
        Some(end) => end,
        None => bytes.len(),
    }
}
