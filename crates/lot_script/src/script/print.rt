//! This module writes replies as lines of text.

ghost use Rattle.std.specs.Prelude.{◌≡◌, ◌++◌, ◌∷◌, [], ℕ, List, decimal, codes, if◌then◌else◌, IfErr, OnOk, OnErr};
ghost use Rattle.std.specs.Io.KnownBytes.{Appends};
ghost use Rattle.std.specs.List.{flat_map};
ghost use Rattle.lot_script.specs.Words.{line_of};
ghost use Rattle.lot_script.specs.Reply.{reply_words, answer_words, result_words};
ghost use Rattle.lot_script.specs.Private.Turns.{Writes};

use super::fault::Cause;
use super::output::{NotWritten, put, put_number};
use super::reply::Reply;
use lot_base::token::UnparkResult;
use lot_simulator::schedule::Answer;
use std::io::Write;

/// Writes the line with which a script answers a step that has this answer, without a line feed.
///
/// # Errors
///
/// Returns `WriteFailed` if the writer returns an error or takes no byte. A beginning of the line
/// may be written then.
pub fn write_answer<W: Write>(output: &mut W, answer: Answer) -> Result<(), Cause>
    ensures written { OnOk result (Appends (W.contents output.old) (W.contents output.new)
        (line_of (answer_words answer))) }
    ensures begun { OnErr result ((front rest : List ℕ)
        × (line_of (answer_words answer) ≡ front ++ rest)
        × Appends (W.contents output.old) (W.contents output.new) front) }
    ensures failed { IfErr result (λ cause. cause ≡ Cause.WriteFailed) }
{
    put_answer(output, answer)?;
    Ok(())
}

// Writes the reply and a line feed.
pub(super) fn print_reply<W: Write>(output: &mut W, reply: &Reply) -> Result<(), NotWritten>
    ensures { Writes (W.contents output.old) (W.contents output.new) result
        (line_of (reply_words reply.now) ++ 10 ∷ []) }
{
    put_reply(output, reply)?;
    put(output, b"\n")
}

fn put_reply<W: Write>(output: &mut W, reply: &Reply) -> Result<(), NotWritten>
    ensures { Writes (W.contents output.old) (W.contents output.new) result
        (line_of (reply_words reply.now)) }
{
    match reply {
        Reply::Did(answer) => put_answer(output, *answer),
        Reply::Waiters(numbers) => {
            put(output, b"waiters")?;
            put_numbers(output, numbers.as_slice())
        }
        Reply::Records(count) => put_named(output, b"records ", *count),
        Reply::Size { buckets, threads } => {
            put_named(output, b"buckets ", *buckets)?;
            put_named(output, b" threads ", *threads)
        }
        Reply::NoMemory => put(output, b"no memory"),
    }
}

fn put_answer<W: Write>(output: &mut W, answer: Answer) -> Result<(), NotWritten>
    ensures { Writes (W.contents output.old) (W.contents output.new) result
        (line_of (answer_words answer)) }
{
    match answer {
        Answer::Registered(thread) => put_named(output, b"number ", thread),
        Answer::Full => put(output, b"full"),
        Answer::NoMemory => put(output, b"no memory"),
        Answer::Retired => put(output, b"retired"),
        Answer::Entered => put(output, b"entered"),
        Answer::Invalid => put(output, b"invalid"),
        Answer::Unpark(result) => put_result(output, result),
        Answer::Count(count) => put_named(output, b"count ", count),
        Answer::Late => put(output, b"late"),
        Answer::TimedOut { key, last } => {
            put_named(output, b"timed out ", key)?;
            put_flag(output, last)
        }
        Answer::Unparked(token) => put_named(output, b"unparked ", token.0),
        Answer::Recorded => put(output, b"recorded"),
        Answer::Released => put(output, b"released"),
        Answer::Trimmed => put(output, b"trimmed"),
        Answer::Misfit => put(output, b"misfit"),
    }
}

fn put_result<W: Write>(output: &mut W, outcome: UnparkResult) -> Result<(), NotWritten>
    ensures { Writes (W.contents output.old) (W.contents output.new) result
        (line_of (result_words outcome)) }
{
    put_named(output, b"unparked ", outcome.unparked_threads)?;
    put_named(output, b" requeued ", outcome.requeued_threads)?;
    put(output, b" more")?;
    put_flag(output, outcome.have_more_threads)
}

// Writes a blank, and `true` or `false`.
fn put_flag<W: Write>(output: &mut W, flag: bool) -> Result<(), NotWritten>
    ensures { Writes (W.contents output.old) (W.contents output.new) result
        (32 ∷ (if flag then codes "true" else codes "false")) }
{
    if flag {
        put(output, b" true")
    } else {
        put(output, b" false")
    }
}

// Writes a blank before each number.
fn put_numbers<W: Write>(output: &mut W, numbers: &[usize]) -> Result<(), NotWritten>
    ensures { Writes (W.contents output.old) (W.contents output.new) result
        (flat_map (λ n. 32 ∷ decimal n) numbers.now) }
{
    for number in numbers {
        put_named(output, b" ", *number)?;
    }
    Ok(())
}

// Writes a number behind its name.
fn put_named<W: Write>(output: &mut W, name: &[u8], number: usize) -> Result<(), NotWritten>
    ensures { Writes (W.contents output.old) (W.contents output.new) result
        (name.now ++ decimal number) }
{
    put(output, name)?;
    put_number(output, number)
}
