//! This module has the lot of a script, which does one line at a time.

ghost use Rattle.std.specs.Prelude.{◌≡◌, ◌≢◌, ℕ, ◌≤◌, [], List, Some, None, Err, length, option_map, option_copied, is_some, IfOk, IfErr};
ghost use Rattle.std.specs.Io.KnownBytes.{Appends};
ghost use Rattle.lot_script.specs.Words.{IsLine};
ghost use Rattle.lot_script.specs.Command.{lot_words};
ghost use Rattle.lot_script.specs.Reply.{state_of, new_state};
ghost use Rattle.lot_script.specs.Script.{Answers};

use super::fault::Cause;
use super::input::MAX_LINE;
use super::output::put;
use super::parse::{parse_command, parse_lot};
use super::print::print_reply;
use super::reply::reply_to;
use lot_base::token::LotError;
use lot_simulator::lot::Lot;
use lot_simulator::table::MAX_THREADS;
use std::alloc::Global;
use std::io::Write;
use std::marker::Model;

/// A `ScriptedLot` does the lines of a script one at a time, and shows the lot between them.
///
/// It has no lot until the first line has created one. `script` does the lines of its input by it.
#[derive(Drop)]
pub struct ScriptedLot {
    alloc: Global,
    lot: Option<Lot>,
}

impl Model for ScriptedLot {
    ghost use Rattle.std.specs.Prelude.{Option};
    ghost use Rattle.lot_simulator.specs.LotState.{LotState};

    ghost Value = { Option LotState };

    ghost view = { λ scripted. scripted.lot };
}

impl ScriptedLot {
    /// Creates a `ScriptedLot` that has no lot yet. It allocates nothing.
    pub fn new(alloc: Global) -> ScriptedLot
        ensures { result ≡ None }
    {
        ScriptedLot { alloc, lot: None }
    }

    /// Returns the lot, or `None` if no line has created it yet.
    pub fn lot(&self) -> Option<&Lot>
        ensures value { option_copied result ≡ self.now }
        ensures made { is_some result ≡ is_some self.now }
    {
        self.lot.as_ref()
    }

    /// Does what the line says, and writes the answer and a line feed.
    ///
    /// `line` is without its line feed. The first line creates the lot. The answer is written by
    /// `write` alone, in pieces, and this allocates nothing. If the lot has not enough memory for a
    /// step or a list, that is no fault, and the answer is `no memory`.
    ///
    /// # Errors
    ///
    /// Returns the cause for which a script would stop here. It is never `ReadFailed`. The lot is
    /// as it was, and nothing is written. Only after `WriteFailed` the line was done, and a
    /// beginning of its answer may be written.
    pub fn answer<W: Write>(&mut self, line: &[u8], output: &mut W) -> Result<(), Cause>
        ensures answered { (written : List ℕ)
            × Appends (W.contents output.old) (W.contents output.new) written
            × Answers (option_map state_of self.old) line.now result written
            (option_map state_of self.new) }
        ensures refused { IfErr result (λ cause. cause ≢ Cause.WriteFailed
            → self.new ≡ self.old) }
    {
        if line.len() > MAX_LINE {
            return Err(Cause::BadStep);
        }
        answer(self.alloc, &mut self.lot, line, output)
    }
}

fn answer<W: Write>(
    alloc: Global,
    lot: &mut Option<Lot>,
    line: &[u8],
    output: &mut W,
) -> Result<(), Cause>
    requires { length line.now ≤ MAX_LINE }
    ensures answered { (written : List ℕ)
        × Appends (W.contents output.old) (W.contents output.new) written
        × Answers (option_map state_of lot.old) line.now result written
        (option_map state_of lot.new) }
    ensures refused { IfErr result (λ cause. cause ≢ Cause.WriteFailed → lot.new ≡ lot.old) }
{
    match lot {
        Some(lot) => answer_command(alloc, lot, line, output),
        None => {
            *lot = Some(make_lot(alloc, line)?);
            put(output, b"ok\n")?;
            Ok(())
        }
    }
}

// Makes the lot that the first line asks for.
fn make_lot(alloc: Global, line: &[u8]) -> Result<Lot, Cause>
    requires { length line.now ≤ MAX_LINE }
    ensures made { IfOk result (λ lot. (max_threads : ℕ) × IsLine (lot_words max_threads) line.now
        × (max_threads ≤ MAX_THREADS) × (state_of lot ≡ new_state max_threads)) }
    ensures refused { IfErr result (λ cause. Answers None line.now (Err cause) [] None) }
{
    let Some(max_threads) = parse_lot(line) else {
        return Err(Cause::BadStep);
    };
    match Lot::new(alloc, max_threads) {
        Ok(lot) => Ok(lot),
        Err(LotError::TooManyThreads) => Err(Cause::TooManyThreads),
        Err(_) => Err(Cause::NoMemory),
    }
}

fn answer_command<W: Write>(
    alloc: Global,
    lot: &mut Lot,
    line: &[u8],
    output: &mut W,
) -> Result<(), Cause>
    requires { length line.now ≤ MAX_LINE }
    ensures answered { (written : List ℕ)
        × Appends (W.contents output.old) (W.contents output.new) written
        × Answers (Some (state_of lot.old)) line.now result written (Some (state_of lot.new)) }
    ensures refused { IfErr result (λ cause. cause ≢ Cause.WriteFailed → lot.new ≡ lot.old) }
{
    let command = parse_command(alloc, line)?;
    let reply = reply_to(lot, &command);
    print_reply(output, &reply)?;
    Ok(())
}
