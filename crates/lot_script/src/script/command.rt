//! This module has the commands of which a script consists.

ghost use Rattle.std.specs.Prelude.{◌≡◌, IfOk, IfErr, IsErrOf, ◌⊎◌};
ghost use Rattle.lot_script.specs.declared.script.command.Command.{Command};
ghost use Rattle.lot_script.specs.Words.{IsLine};
ghost use Rattle.lot_script.specs.Command.{command_words};

use super::fault::Cause;
use super::input::MAX_LINE;
use super::parse::parse_command;
use lot_simulator::schedule::Step;
use std::alloc::Global;

/// A `Command` is what a line of a script asks for, except the first line.
#[derive(Drop)]
pub enum Command {
    /// The line asks for a step of the lot.
    Do(Step),

    /// The line asks which threads wait on the key.
    List {
        /// The key.
        key: usize,
    },

    /// The line asks how often the thread has recorded the key.
    Records {
        /// The number of the thread.
        thread: usize,
        /// The key.
        key: usize,
    },

    /// The line asks how many buckets the table has, and how many threads are registered.
    Size,
}

impl Command {
    /// Returns what the line asks for.
    ///
    /// `line` is without its line feed. It allocates for the decisions of a filter.
    ///
    /// # Errors
    ///
    /// Returns `BadStep` if the words of the line are no command. Otherwise returns `NoMemory` if
    /// there is not enough memory.
    pub fn of(alloc: Global, line: &[u8]) -> Result<Command, Cause>
        ensures found { IfOk result (λ command. IsLine (command_words command) line.now) }
        ensures bad { IsErrOf result Cause.BadStep
            → (command : Command) → IsLine (command_words command) line.now → ⊥ }
        ensures refused { IfErr result
            (λ cause. (cause ≡ Cause.BadStep) ⊎ (cause ≡ Cause.NoMemory)) }
    {
        if line.len() > MAX_LINE {
            return Err(Cause::BadStep);
        }
        parse_command(alloc, line)
    }
}
