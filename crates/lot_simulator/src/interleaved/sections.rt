//! This module begins a section of an interleaved lot, on its table and its threads.

ghost use Rattle.std.specs.Prelude.{◌≡◌, length, map};
ghost use Rattle.lot_base.specs.NodeLists.{saturated, split_to, with_saturated_counts, with_token};
ghost use Rattle.lot_base.specs.Requeue.{numbers};
ghost use Rattle.lot_base.specs.Waiting.{lists_after_requeue, requeue_result, result_of, split_all, split_by, split_filter, split_first};
ghost use Rattle.lot_machine.specs.Decisions.{AnswersNext};
ghost use Rattle.lot_simulator.specs.Private.FineSection.{IsTakenBy, fine_threads_with_key, fine_threads_with_keys, threads_by};
ghost use Rattle.lot_machine.specs.Operation.{split_of};
ghost use Rattle.lot_simulator.specs.Represents.{Represents, nodes_in, waiters_in};
ghost use Rattle.lot_simulator.specs.Table.{IsRowStep, IsTakenFrom};

use super::thread::{FineThread, set_key_word};
use crate::schedule::{Answer, Op};
use crate::table::Table;
use lot_base::queue::Queue;
use lot_base::token::{FilterOp, ParkToken, RequeueOp, UnparkResult, UnparkToken};

// Does to the lists what the operation says, and to the key words of those that move. Those that it
// takes have the operation's token.
pub(super) fn unpark(table: &mut Table, threads: &mut Vec<FineThread>, op: &Op) -> (Answer, Queue)
    requires { Represents table.old.cells (waiters_in table.old.cells) }
    ensures numbers { table.new.numbers ≡ table.old.numbers }
    ensures threads { threads.new.items
        ≡ threads_by op.now (split_of op.now (nodes_in table.old.cells)) threads.old.items }
    ensures taken { IsTakenBy op.now table.old.cells table.new.cells result.0 result.1 }
{
    match op {
        Op::One { key, token } => {
            let (result, taken) = take_one(table, *key, *token);
            (Answer::Unpark(result), taken)
        }
        Op::All { key, token } => {
            let (count, taken) = take_all(table, *key, *token);
            (Answer::Count(count), taken)
        }
        Op::Filter {
            key,
            decisions,
            token,
        } => {
            let (result, taken) = take_filter(table, *key, decisions.as_slice(), *token);
            (Answer::Unpark(result), taken)
        }
        Op::Requeue {
            from,
            to,
            op,
            token,
        } => {
            let (result, taken) = requeue(table, threads, *from, *to, *op, *token);
            (Answer::Unpark(result), taken)
        }
    }
}

fn take_one(table: &mut Table, key: usize, token: UnparkToken) -> (UnparkResult, Queue)
    requires { Represents table.old.cells (waiters_in table.old.cells) }
    ensures numbers { table.new.numbers ≡ table.old.numbers }
    ensures answer { result.0 ≡ result_of (split_first (nodes_in table.old.cells key)) }
    ensures taken { IsTakenFrom table.old.cells table.new.cells key
        (split_first (nodes_in table.old.cells key)) token result.1 }
{
    table.take_one(key, |_| token)
}

fn take_all(table: &mut Table, key: usize, token: UnparkToken) -> (usize, Queue)
    requires { Represents table.old.cells (waiters_in table.old.cells) }
    ensures numbers { table.new.numbers ≡ table.old.numbers }
    ensures answer { result.0 ≡ saturated (length (nodes_in table.old.cells key)) }
    ensures taken { IsTakenFrom table.old.cells table.new.cells key
        (split_all (nodes_in table.old.cells key)) token result.1 }
{
    table.take_all(key, token)
}

// Takes by a filter that answers these decisions, and `Skip` once they are used up.
fn take_filter(
    table: &mut Table,
    key: usize,
    decisions: &[FilterOp],
    token: UnparkToken,
) -> (UnparkResult, Queue)
    requires { Represents table.old.cells (waiters_in table.old.cells) }
    ensures numbers { table.new.numbers ≡ table.old.numbers }
    ensures answer { result.0 ≡ with_saturated_counts
        (result_of (split_filter decisions.now (nodes_in table.old.cells key))) }
    ensures taken { IsTakenFrom table.old.cells table.new.cells key
        (split_filter decisions.now (nodes_in table.old.cells key)) token result.1 }
{
    let mut rest = decisions;
    let filter = move |_: ParkToken| -> FilterOp
        ensures { AnswersNext rest.entry.now result rest.exit.now }
    {
        match rest.split_first() {
            Some((decision, behind)) => {
                rest = behind;
                *decision
            }
            None => FilterOp::Skip,
        }
    };
    table.take_filter(key, filter, |_| token)
}

fn requeue(
    table: &mut Table,
    threads: &mut Vec<FineThread>,
    from: usize,
    to: usize,
    op: RequeueOp,
    token: UnparkToken,
) -> (UnparkResult, Queue)
    requires { Represents table.old.cells (waiters_in table.old.cells) }
    ensures numbers { table.new.numbers ≡ table.old.numbers }
    ensures rows { IsRowStep table.old.cells table.new.cells
        (lists_after_requeue (nodes_in table.old.cells) from to
        (split_to to (split_by op (nodes_in table.old.cells from)))) }
    ensures answer { result.0 ≡ with_saturated_counts
        (requeue_result op (split_by op (nodes_in table.old.cells from))) }
    ensures threads { threads.new.items ≡ fine_threads_with_keys to
        (numbers (split_by op (nodes_in table.old.cells from)).moved) threads.old.items }
    ensures nodes { result.1
        ≡ map (with_token token) (split_by op (nodes_in table.old.cells from)).taken }
{
    let mut moved = |number: usize, _: bool|
        ensures same_threads { threads.exit.ghost_name ≡ threads.entry.ghost_name }
        ensures moved { threads.exit.now.items
            ≡ fine_threads_with_key threads.entry.now.items number to }
    {
        set_key_word(threads, number, to);
    };
    table.requeue(from, to, || op, |_, _| token, &mut moved)
}
