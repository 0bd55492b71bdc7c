//! This module gets the reply of a lot to a command.

ghost use Rattle.lot_script.specs.Reply.{state_of, IsReply};

use super::command::Command;
use lot_simulator::lot::Lot;
use lot_simulator::schedule::Answer;

#[derive(Drop)]
pub(super) enum Reply {
    // What a step answered.
    Did(Answer),

    // Who waits, in order.
    Waiters(Vec<usize>),

    // How often the thread has recorded the key.
    Records(usize),

    // How many buckets the table has, and how many threads are registered.
    Size { buckets: usize, threads: usize },

    // There was no memory for the list of those who wait.
    NoMemory,
}

// Does a step, or answers a question.
pub(super) fn reply_to(lot: &mut Lot, command: &Command) -> Reply
    ensures { IsReply (state_of lot.old) command.now result (state_of lot.new) }
{
    match command {
        Command::Do(step) => Reply::Did(lot.apply(step)),
        Command::List { key } => match lot.list(*key) {
            Ok(numbers) => Reply::Waiters(numbers),
            Err(_) => Reply::NoMemory,
        },
        Command::Records { thread, key } => Reply::Records(lot.records(*thread, *key)),
        Command::Size => Reply::Size {
            buckets: lot.size(),
            threads: lot.registered(),
        },
    }
}
