//! This module turns a line into the command for which it asks.

ghost use Rattle.std.specs.Prelude.{◌≡◌, ◌≢◌, ℕ, ◌<◌, ◌≤◌, ◌^◌, ◌∷◌, [], List, decimal, length, Some, IfSome, IfNone, IfOk, IfErr, IsErrOf, ◌⊎◌};
ghost use Rattle.lot_base.specs.declared.token.FilterOp.{FilterOp};
ghost use Rattle.lot_base.specs.declared.token.RequeueOp.{RequeueOp};
ghost use Rattle.lot_script.specs.declared.script.command.Command.{Command};
ghost use Rattle.lot_script.specs.Words.{IsLine};
ghost use Rattle.lot_script.specs.Command.{lot_words, command_words, decisions_text, requeue_text, letter_of};
ghost use Rattle.lot_script.specs.Private.Parsing.{texts_left, HasArguments};

use super::command::Command;
use super::fault::Cause;
use super::input::MAX_LINE;
use super::keyword::Keyword;
use super::words::{last_number, last_numbers, next_choice, next_number, next_word, split_word};
use lot_base::token::{FilterOp, ParkToken, RequeueOp, UnparkToken};
use lot_simulator::schedule::{Op, Step};
use std::alloc::Global;

// For how many threads the first line makes the lot.
pub(super) fn parse_lot(line: &[u8]) -> Option<usize>
    requires { length line.now ≤ MAX_LINE }
    ensures found { IfSome result (λ max_threads. IsLine (lot_words max_threads) line.now) }
    ensures none { IfNone result ((max_threads : ℕ) → IsLine (lot_words max_threads) line.now → ⊥) }
{
    let (word, left) = split_word(line);
    if word == b"lot".as_slice() {
        last_number(left)
    } else {
        None
    }
}

// What any other line asks for. A filter's decisions ask for memory.
pub(super) fn parse_command(alloc: Global, line: &[u8]) -> Result<Command, Cause>
    requires { length line.now ≤ MAX_LINE }
    ensures found { IfOk result (λ command. IsLine (command_words command) line.now) }
    ensures bad { IsErrOf result Cause.BadStep
        → (command : Command) → IsLine (command_words command) line.now → ⊥ }
    ensures refused { IfErr result (λ cause. (cause ≡ Cause.BadStep) ⊎ (cause ≡ Cause.NoMemory)) }
{
    let (word, left) = split_word(line);
    let Some(keyword) = Keyword::of(word) else {
        return Err(Cause::BadStep);
    };
    if let Keyword::Filter = keyword {
        return parse_filter(alloc, left);
    }
    match parse_arguments(keyword, left) {
        Some(command) => Ok(command),
        None => Err(Cause::BadStep),
    }
}

// What a line asks for that begins with any keyword but `filter`.
fn parse_arguments(keyword: Keyword, left: Option<&[u8]>) -> Option<Command>
    requires { keyword ≢ Keyword.Filter }
    ensures found { IfSome result (HasArguments keyword (texts_left left.entry)) }
    ensures none { IfNone result
        ((command : Command) → HasArguments keyword (texts_left left.entry) command → ⊥) }
{
    match keyword {
        Keyword::Register => alone(left, Command::Do(Step::Register)),
        Keyword::Retire => last_number(left).map(|thread| Command::Do(Step::Retire { thread })),
        Keyword::Enter => parse_enter(left),
        Keyword::One => last_numbers(left).map(|(key, token)| {
            Command::Do(Step::Unpark(Op::One {
                key,
                token: UnparkToken(token),
            }))
        }),
        Keyword::All => last_numbers(left).map(|(key, token)| {
            Command::Do(Step::Unpark(Op::All {
                key,
                token: UnparkToken(token),
            }))
        }),
        Keyword::Filter => unreachable!(),
        Keyword::Requeue => parse_requeue(left),
        Keyword::Deadline => last_number(left).map(|thread| Command::Do(Step::Deadline { thread })),
        Keyword::Resolve => last_number(left).map(|thread| Command::Do(Step::Resolve { thread })),
        Keyword::Return => last_number(left).map(|thread| Command::Do(Step::Return { thread })),
        Keyword::Acquire => last_numbers(left).map(|(thread, key)| Command::Do(Step::Acquire {
            thread,
            key,
        })),
        Keyword::Release => last_numbers(left).map(|(thread, key)| Command::Do(Step::Release {
            thread,
            key,
        })),
        Keyword::Trim => alone(left, Command::Do(Step::Trim)),
        Keyword::List => last_number(left).map(|key| Command::List { key }),
        Keyword::Records => {
            last_numbers(left).map(|(thread, key)| Command::Records { thread, key })
        }
        Keyword::Size => alone(left, Command::Size),
    }
}

// The command, if no word is left.
fn alone(left: Option<&[u8]>, command: Command) -> Option<Command>
    ensures found { IfSome result (λ found. (found ≡ command) × (texts_left left.entry ≡ [])) }
    ensures none { IfNone result (texts_left left.entry ≢ []) }
{
    match left {
        Some(_) => None,
        None => Some(command),
    }
}

fn parse_enter(left: Option<&[u8]>) -> Option<Command>
    ensures found { IfSome result (HasArguments Keyword.Enter (texts_left left.entry)) }
    ensures none { IfNone result
        ((command : Command) → HasArguments Keyword.Enter (texts_left left.entry) command → ⊥) }
{
    let (thread, left) = next_number(left)?;
    let (key, left) = next_number(left)?;
    let (valid, left) = next_choice(left, b"yes", b"no")?;
    let (park_token, left) = next_number(left)?;
    let (timed, left) = next_choice(left, b"timed", b"untimed")?;
    let step = Step::Enter {
        thread,
        key,
        valid,
        park_token: ParkToken(park_token),
        timed,
    };
    alone(left, Command::Do(step))
}

fn parse_requeue(left: Option<&[u8]>) -> Option<Command>
    ensures found { IfSome result (HasArguments Keyword.Requeue (texts_left left.entry)) }
    ensures none { IfNone result
        ((command : Command) → HasArguments Keyword.Requeue (texts_left left.entry) command → ⊥) }
{
    let (from, left) = next_number(left)?;
    let (to, left) = next_number(left)?;
    let (word, left) = next_word(left)?;
    let op = requeue_op(word)?;
    let token = UnparkToken(last_number(left)?);
    Some(Command::Do(Step::Unpark(Op::Requeue {
        from,
        to,
        op,
        token,
    })))
}

// The operation that this word is.
fn requeue_op(word: &[u8]) -> Option<RequeueOp>
    ensures found { IfSome result (λ op. word.now ≡ requeue_text op) }
    ensures none { IfNone result ((op : RequeueOp) → word.now ≢ requeue_text op) }
{
    match word {
        b"abort" => Some(RequeueOp::Abort),
        b"one-rest" => Some(RequeueOp::UnparkOneRequeueRest),
        b"all" => Some(RequeueOp::RequeueAll),
        b"one" => Some(RequeueOp::UnparkOne),
        b"requeue-one" => Some(RequeueOp::RequeueOne),
        _ => None,
    }
}

fn parse_filter(alloc: Global, left: Option<&[u8]>) -> Result<Command, Cause>
    ensures found { IfOk result (HasArguments Keyword.Filter (texts_left left.entry)) }
    ensures bad { IsErrOf result Cause.BadStep → (command : Command)
        → HasArguments Keyword.Filter (texts_left left.entry) command → ⊥ }
    ensures refused { IfErr result (λ cause. (cause ≡ Cause.BadStep) ⊎ (cause ≡ Cause.NoMemory)) }
{
    let Some((key, word, token)) = filter_words(left) else {
        return Err(Cause::BadStep);
    };
    let decisions = parse_decisions(alloc, word)?;
    Ok(Command::Do(Step::Unpark(Op::Filter {
        key,
        decisions,
        token: UnparkToken(token),
    })))
}

// The key, the word of the decisions and the token of a filter.
fn filter_words(left: Option<&[u8]>) -> Option<(usize, &[u8], usize)>
    ensures found { IfSome result (λ x. (x.0 < 2 ^ 64) × (x.2 < 2 ^ 64)
        × (texts_left left.entry ≡ decimal x.0 ∷ x.1.now ∷ decimal x.2 ∷ [])) }
    ensures none { IfNone result ((key token : ℕ) (text : List ℕ) → key < 2 ^ 64 → token < 2 ^ 64
        → texts_left left.entry ≢ decimal key ∷ text ∷ decimal token ∷ []) }
{
    let (key, left) = next_number(left)?;
    let (word, left) = next_word(left)?;
    let token = last_number(left)?;
    Some((key, word, token))
}

// The decisions that the letters of a word stand for, or none for a dash.
fn parse_decisions(alloc: Global, word: &[u8]) -> Result<Vec<FilterOp>, Cause>
    ensures found { IfOk result (λ decisions. word.now ≡ decisions_text decisions.items) }
    ensures bad { IsErrOf result Cause.BadStep
        → (decisions : List FilterOp) → word.now ≢ decisions_text decisions }
    ensures refused { IfErr result (λ cause. (cause ≡ Cause.BadStep) ⊎ (cause ≡ Cause.NoMemory)) }
{
    let mut decisions = Vec::new(alloc);
    if word == b"-".as_slice() {
        return Ok(decisions);
    }
    if word.is_empty() {
        return Err(Cause::BadStep);
    }
    for letter in word {
        let Some(decision) = decision_of(*letter) else {
            return Err(Cause::BadStep);
        };
        decisions.push(decision)?;
    }
    Ok(decisions)
}

// The decision that this letter stands for.
fn decision_of(letter: u8) -> Option<FilterOp>
    ensures found { IfSome result (λ decision. letter ≡ letter_of decision) }
    ensures none { IfNone result ((decision : FilterOp) → letter ≢ letter_of decision) }
{
    match letter {
        b'U' => Some(FilterOp::Unpark),
        b'S' => Some(FilterOp::Skip),
        b'X' => Some(FilterOp::Stop),
        _ => None,
    }
}
