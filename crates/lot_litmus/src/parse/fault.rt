//! This module has what can be wrong while a text is read.
//!
//! A fault has names for what it tells, and no texts: a text would put a reference into the result
//! of each function that reads, and each `?` would take half as long again to prove.

use super::draft::INSTRUCTIONS;
use super::top::WORKERS;
use crate::code::{KEYS, LOCALS, WORDS};
use std::alloc::{AllocError, AllocFailed};

/// What is wrong while a text is read: a problem that does not quote its token yet.
#[derive(Clone, Copy)]
pub(super) enum Fault {
    Expected(Syntax),
    Unknown,
    Taken,
    Character,
    NotAByte,
    TooMany(Counted),
    Unclosed,
    Arguments { wanted: usize, given: usize },
    Misplaced(Rule),
    NoMemory,
}

/// What was expected.
#[derive(Clone, Copy)]
pub(super) enum Syntax {
    Test,
    TestName,
    Declaration,
    NumberName,
    WordName,
    KeyName,
    ThreadName,
    MacroName,
    ParameterName,
    Word,
    Key,
    Macro,
    Number,
    KnownNumber,
    NamedNumber,
    WordOrLocal,
    Value,
    Argument,
    Comparison,
    Statement,
    End,
    Requeue,
    Verdict,
    Brace,
    Parenthesis,
    Comma,
    Operator,
    Equals,
    EqualsOrCall,
    On,
    In,
}

impl Syntax {
    pub(super) fn text(self) -> &'static str {
        match self {
            Syntax::Test => "`test NAME`",
            Syntax::TestName => "a name of the test",
            Syntax::Declaration =>
                "`let`, `word`, `key`, `macro`, `thread`, `forall`, `never`, `exists` or `expect`",
            Syntax::NumberName => "a name of the number",
            Syntax::WordName => "a name of the word",
            Syntax::KeyName => "a name of the key",
            Syntax::ThreadName => "a name of the thread",
            Syntax::MacroName => "a name of the macro",
            Syntax::ParameterName => "a name of a parameter",
            Syntax::Word => "a word",
            Syntax::Key => "a key",
            Syntax::Macro => "a macro",
            Syntax::Number => "a number",
            Syntax::KnownNumber => "a number that is known at first",
            Syntax::NamedNumber => "a number by name",
            Syntax::WordOrLocal => "a word or a local",
            Syntax::Value => "a number, a word or a local",
            Syntax::Argument => "a word, a key, a local or a number",
            Syntax::Comparison => "one word, compared with a number or a local",
            Syntax::Statement => "a statement",
            Syntax::End => "the end of the statement (a new line, `;` or two blanks)",
            Syntax::Requeue => "`nobody`, `one`, `move_one`, `all`, `one_rest` or `validate {`",
            Syntax::Verdict => "`safe`, `stuck` or `fails`",
            Syntax::Brace => "`{`",
            Syntax::Parenthesis => "`(`",
            Syntax::Comma => "`,` or `)`",
            Syntax::Operator => "`)` or an operator",
            Syntax::Equals => "`=`",
            Syntax::EqualsOrCall => "`=` or `(`",
            Syntax::On => "`on`",
            Syntax::In => "`in`",
        }
    }
}

/// A rule about where a statement may be.
#[derive(Clone, Copy)]
pub(super) enum Rule {
    NoLoop,
    CallsItself,
    LeavesLot,
    NotForBits,
    BucketLocked,
    AboutToSleep,
    NoLocal,
    BucketNotLocked,
    OutsideFilter,
}

impl Rule {
    pub(super) fn text(self) -> &'static str {
        match self {
            Rule::NoLoop => "this stands in no loop that it could leave",
            Rule::CallsItself => "a macro cannot call itself",
            Rule::LeavesLot => "a block that the lot runs cannot be left by `return`",
            Rule::NotForBits => "`!` is for what is true or not: write 255 - N for bits",
            Rule::BucketLocked => "a bucket is locked here, so nobody can park or unpark",
            Rule::AboutToSleep => "a thread that is about to sleep cannot park",
            Rule::NoLocal => "a name that this statement sets is that of no local",
            Rule::BucketNotLocked => "the bucket of this key is not known to be locked here",
            Rule::OutsideFilter => "only the block of a filter decides on waiters",
        }
    }
}

/// What a text can have too much of.
#[derive(Clone, Copy)]
pub(super) enum Counted {
    Words,
    Keys,
    Threads,
    Instructions,
    Locals,
}

impl Counted {
    /// How many there may be, and of what.
    pub(super) fn most(self) -> (usize, &'static str) {
        match self {
            Counted::Words => (WORDS, "words"),
            Counted::Keys => (KEYS, "keys"),
            Counted::Threads => (WORKERS, "threads"),
            Counted::Instructions => (INSTRUCTIONS, "instructions in a thread"),
            Counted::Locals => (LOCALS, "locals in a thread"),
        }
    }
}

/// A fault, and the index of its token. It is the next token if none is named.
#[derive(Clone, Copy)]
pub(super) struct Wrong {
    pub(super) fault: Fault,
    pub(super) token: Option<usize>,
}

impl Wrong {
    pub(super) fn at(self, token: usize) -> Wrong {
        Wrong {
            fault: self.fault,
            token: Some(token),
        }
    }
}

impl Fault {
    /// The fault at the next token.
    pub(super) fn here(self) -> Wrong {
        Wrong {
            fault: self,
            token: None,
        }
    }
}

pub(super) fn expected(what: Syntax) -> Wrong {
    Fault::Expected(what).here()
}

pub(super) fn misplaced(rule: Rule) -> Wrong {
    Fault::Misplaced(rule).here()
}

pub(super) fn too_many(what: Counted) -> Wrong {
    Fault::TooMany(what).here()
}

impl From<AllocError> for Wrong {
    fn from(_error: AllocError) -> Wrong {
        Fault::NoMemory.here()
    }
}

impl<T: Drop> From<AllocFailed<T>> for Wrong {
    fn from(_error: AllocFailed<T>) -> Wrong {
        Fault::NoMemory.here()
    }
}

/// The same, but what is wrong is wrong at this token.
pub(super) fn blamed_on<T: Drop>(found: Result<T, Wrong>, token: usize) -> Result<T, Wrong> {
    match found {
        Err(wrong) => Err(wrong.at(token)),
        found => found,
    }
}
