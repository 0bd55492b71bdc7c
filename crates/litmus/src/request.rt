//! What the words of the command line ask for.

use crate::style::{Look, Times};
use crate::trial::{Effort, Mode};
use lot_litmus::parse::NamedNumber;
use std::alloc::{AllocError, AllocFailed, Global};
use std::fmt;

// A search looks at no more states than so many, unless it is told another number.
const MOST_STATES: usize = 2_000_000;

/// What is to be done.
#[derive(Clone, Copy, PartialEq, Eq)]
pub enum Command {
    /// To compare what comes of each file with what it expects.
    Check,

    /// To show what comes of a file.
    Show,

    /// To tell what is wrong with a file as a script for a lot.
    Script,

    /// To tell what the lot is to answer to that script.
    Answers,

    /// To tell how many states there are.
    Sizes,

    /// To run a file on real threads.
    Run,
}

impl Command {
    fn of(word: &str) -> Option<Command> {
        match word {
            "check" => Some(Command::Check),
            "show" => Some(Command::Show),
            "script" => Some(Command::Script),
            "answers" => Some(Command::Answers),
            "sizes" => Some(Command::Sizes),
            "run" => Some(Command::Run),
            _ => None,
        }
    }

    /// Whether it takes several files, and folders.
    pub fn takes_several(self) -> bool {
        match self {
            Command::Check | Command::Sizes => true,
            Command::Show | Command::Script | Command::Answers | Command::Run => false,
        }
    }
}

/// Why the words ask for nothing.
#[derive(Debug, Drop)]
pub enum Misuse {
    NoCommand,
    NoFile,

    /// The command takes one file alone.
    Files,
    NoRounds,

    /// `--states` is the last word.
    NoStates,

    /// This word is no command, or no option.
    Command(String),
    Option(String),

    /// This word has no number where one is to be.
    Number(String),
    NoMemory,
}

impl fmt::Display for Misuse {
    fn fmt<W: fmt::Write>(&self, f: &mut fmt::Formatter<W>) -> fmt::Result {
        match self {
            Misuse::NoCommand => write!(f, "the first word is to be a command"),
            Misuse::NoFile => write!(f, "no file is named"),
            Misuse::Files => write!(f, "this command takes one file"),
            Misuse::NoRounds => write!(f, "how many rounds are to be run?"),
            Misuse::NoStates => write!(f, "a number is to stand behind --states"),
            Misuse::Command(word) => write!(f, "\"{word}\" is no command"),
            Misuse::Option(word) => write!(f, "\"{word}\" is no option"),
            Misuse::Number(word) => write!(f, "there is no such number: \"{word}\""),
            Misuse::NoMemory => write!(f, "no memory"),
        }
    }
}

impl From<AllocError> for Misuse {
    fn from(_error: AllocError) -> Misuse {
        Misuse::NoMemory
    }
}

impl<T: Drop> From<AllocFailed<T>> for Misuse {
    fn from(_error: AllocFailed<T>) -> Misuse {
        Misuse::NoMemory
    }
}

/// What the words ask for.
#[derive(Drop)]
pub struct Request {
    pub command: Command,

    /// The files, and the folders whose files are meant.
    pub files: Vec<String>,

    /// Numbers in the place of those that the files have.
    pub numbers: Vec<NamedNumber>,

    /// How often a file is run.
    pub rounds: Option<u64>,

    /// How the files are searched.
    pub effort: Effort,
    pub look: Look,
    pub times: Times,
}

// What the next word is to be.
#[derive(Clone, Copy, PartialEq, Eq)]
enum Next {
    Any,
    States,
}

impl Request {
    /// What the words ask for.
    ///
    /// # Errors
    ///
    /// Why they ask for nothing, or that there is no memory.
    pub fn of(alloc: Global, words: Vec<String>) -> Result<Request, Misuse> {
        let mut words = words.into_iter();
        let Some(word) = words.next() else {
            return Err(Misuse::NoCommand);
        };
        let Some(command) = Command::of(word.as_str()) else {
            return Err(Misuse::Command(word));
        };
        let mut request = Request::new(alloc, command);
        let mut next = Next::Any;
        for word in words {
            next = request.take(word, next)?;
        }
        match request.want(next) {
            Some(misuse) => Err(misuse),
            None => Ok(request),
        }
    }

    fn new(alloc: Global, command: Command) -> Request {
        Request {
            command,
            files: Vec::new(alloc),
            numbers: Vec::new(alloc),
            rounds: None,
            effort: Effort {
                mode: Mode::Proved,
                most: MOST_STATES,
            },
            look: Look::Terminal,
            times: Times::Untold,
        }
    }

    // Takes a word, and says what the next one is to be.
    fn take(&mut self, word: String, next: Next) -> Result<Next, Misuse> {
        if next == Next::States {
            return self.take_states(word);
        }
        match word.as_str() {
            "--plain" => self.look = Look::Plain,
            "--times" => self.times = Times::Told,
            "--reduced" => self.effort.mode = Mode::Reduced,
            "--states" => return Ok(Next::States),
            text if text.starts_with('-') => return Err(Misuse::Option(word)),
            text if text.contains('=') => self.take_number(word)?,
            _ if self.lacks_rounds() => self.take_rounds(word)?,
            _ => self.files.push(word)?,
        }
        Ok(Next::Any)
    }

    fn take_states(&mut self, word: String) -> Result<Next, Misuse> {
        let Ok(most) = word.as_str().parse::<usize>() else {
            return Err(Misuse::Number(word));
        };
        self.effort.most = most;
        Ok(Next::Any)
    }

    // A number by name has a sign of equality.
    fn take_number(&mut self, word: String) -> Result<(), Misuse> {
        let Some((name, number)) = word.as_str().split_once('=') else {
            return Err(Misuse::Number(word));
        };
        let Ok(number) = number.parse::<u8>() else {
            return Err(Misuse::Number(word));
        };
        let name = String::from_str(*word.allocator(), name)?;
        self.numbers.push(NamedNumber { name, number })?;
        Ok(())
    }

    // Whether the next word that is no number by name is to be how often the file is run.
    fn lacks_rounds(&self) -> bool {
        self.command == Command::Run && self.rounds.is_none() && !self.files.is_empty()
    }

    fn take_rounds(&mut self, word: String) -> Result<(), Misuse> {
        let Ok(rounds) = word.as_str().parse::<u64>() else {
            return Err(Misuse::Number(word));
        };
        self.rounds = Some(rounds);
        Ok(())
    }

    // What is still wanted once the words are read, if anything is.
    fn want(&self, next: Next) -> Option<Misuse> {
        if next == Next::States {
            Some(Misuse::NoStates)
        } else if self.files.is_empty() {
            Some(Misuse::NoFile)
        } else if self.files.len() > 1 && !self.command.takes_several() {
            Some(Misuse::Files)
        } else if self.lacks_rounds() {
            Some(Misuse::NoRounds)
        } else {
            None
        }
    }
}
