//! What is known while the statements of a text are read.

use super::block::{Block, Open};
use super::cursor::{Cursor, Span};
use super::draft::Draft;
use super::fault::{Fault, Rule, Syntax, Wrong, expected};
use super::names::{Meaning, Names};
use super::parsed::Statement;
use super::token::Token;
use crate::code::{KEYS, Key, Local, Operand, Word};
use std::alloc::Global;

/// A text that is read, its names, and the code that is made of it.
#[derive(Drop)]
pub(super) struct Parser<'t> {
    pub(super) alloc: Global,
    pub(super) cursor: Cursor<'t>,
    pub(super) names: Names<'t>,
    pub(super) draft: Draft<'t>,

    /// The blocks that are open.
    pub(super) blocks: Vec<Open>,
    pub(super) statements: Vec<Statement>,

    /// The bucket of each key.
    pub(super) buckets: [Key; KEYS],
}

impl<'t> Parser<'t> {
    pub(super) fn new(alloc: Global, tokens: Vec<Token<'t>>) -> Parser<'t> {
        Parser {
            alloc,
            cursor: Cursor { tokens, at: 0 },
            names: Names::new(alloc),
            draft: Draft::new(alloc),
            blocks: Vec::new(alloc),
            statements: Vec::new(alloc),
            buckets: own_buckets(),
        }
    }

    /// What the next token means. Something was expected that has a name.
    pub(super) fn meaning(&self, what: Syntax) -> Result<Meaning, Wrong> {
        self.names.meaning(self.cursor.peek(), what)
    }

    /// The same, where a number may stand too.
    pub(super) fn number_or_meaning(&self, what: Syntax) -> Result<Meaning, Wrong> {
        match self.cursor.byte()? {
            Some(number) => Ok(Meaning::Number(number)),
            None => self.meaning(what),
        }
    }

    pub(super) fn word(&mut self) -> Result<Word, Wrong> {
        let Meaning::Word(word) = self.meaning(Syntax::Word)? else {
            return Err(expected(Syntax::Word));
        };
        self.cursor.next();
        Ok(word)
    }

    pub(super) fn key(&mut self) -> Result<Key, Wrong> {
        let Meaning::Key(key) = self.meaning(Syntax::Key)? else {
            return Err(expected(Syntax::Key));
        };
        self.cursor.next();
        Ok(key)
    }

    pub(super) fn bucket(&self, key: Key) -> Key {
        self.buckets[key.index()]
    }

    /// A thread with this text and number begins.
    pub(super) fn begin_thread(&mut self, text: Span, number: u8) {
        self.draft = Draft::new(self.alloc);
        self.names.begin_thread(text, number);
        self.cursor.at = text.from;
        let end = self.draft.label();
        self.push_block(Block::Thread { end });
    }

    /// A block begins, which belongs to the statement that is read.
    pub(super) fn push_block(&mut self, block: Block) {
        let statement = self.draft.statement;
        if self.blocks.push(Open { block, statement }).is_err() {
            self.draft.fail(Fault::NoMemory);
        }
    }
}

impl<'t> Parser<'t> {
    /// Whether the text of the thread or the macro names this.
    pub(super) fn names(&self, name: &str) -> bool {
        self.cursor.has(self.names.scope.text, name)
    }

    pub(super) fn declare(&mut self, name: &'t str) -> Local {
        let local = self.draft.local(name);
        if self.names.bind(name, Meaning::Local(local)).is_err() {
            self.draft.fail(Fault::NoMemory);
        }
        local
    }

    /// Declares a local that begins with this number.
    pub(super) fn declare_as(&mut self, name: &'t str, number: u8) -> Local {
        let local = self.declare(name);
        self.draft.set(local, Operand::Constant(number));
        local
    }

    /// Declares a local that the text may name. It begins with 0.
    pub(super) fn declare_if_named(&mut self, name: &'t str) -> Option<Local> {
        if self.names(name) {
            Some(self.declare_as(name, 0))
        } else {
            None
        }
    }

    /// The local of this name that a statement sets, if the text names it.
    pub(super) fn outcome(&mut self, name: &'t str) -> Option<Local> {
        if !self.names(name) {
            return None;
        }
        match self.names.lookup(name) {
            Some(Meaning::Local(local)) => Some(local),
            None => Some(self.declare(name)),
            Some(_) => {
                self.draft.fail(Fault::Misplaced(Rule::NoLocal));
                None
            }
        }
    }

    /// The local of this name becomes the number, if the text names it.
    pub(super) fn set_outcome(&mut self, name: &'t str, number: u8) {
        if let Some(to) = self.outcome(name) {
            self.draft.set(to, Operand::Constant(number));
        }
    }

    /// The name means no local any more.
    pub(super) fn forget(&mut self, name: &str) {
        if let Some(local) = self.names.forget(name) {
            self.draft.locals.release(local);
        }
    }
}

// Each key has a bucket of its own.
fn own_buckets() -> [Key; KEYS] {
    [
        Key { number: 0 },
        Key { number: 1 },
        Key { number: 2 },
        Key { number: 3 },
    ]
}
