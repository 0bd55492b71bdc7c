//! What stands outside of threads.

use super::cursor::Span;
use super::draft::{Draft, Finished, TOO_LONG};
use super::fault::{Counted, Fault, Syntax, Wrong, expected, too_many};
use super::locals::Locals;
use super::names::{Macro, Meaning, is_known};
use super::parsed::{
    Expectation, Looker, NamedNumber, Parsed, Sizes, Sleeper, ThreadText, Verdict,
};
use super::parser::Parser;
use super::token::Kind;
use crate::code::{Instruction, KEYS, Key, LOCALS, Operand, Operation, THREADS, WORDS, Word};
use std::mem;

// How many threads a test can have, beside the one that looks at the ends.
pub(super) const WORKERS: usize = THREADS - 1;

// What is said of the ends.
#[derive(Clone, Copy, PartialEq, Eq)]
enum Claim {
    // At each of them this holds.
    Forall,

    // At none of them.
    Never,
}

/// A text that is read, and what it says.
#[derive(Drop)]
pub(super) struct Reader<'t> {
    pub(super) parser: Parser<'t>,

    /// The numbers that stand for others.
    pub(super) numbers: &'t [(&'t str, u8)],

    /// The code of the thread that looks at the ends.
    pub(super) ends: Draft<'t>,
    pub(super) parsed: Parsed,
}

impl<'t> Reader<'t> {
    /// Reads the text up to its end.
    pub(super) fn read(&mut self) -> Result<(), Wrong> {
        self.parser.cursor.expect("test", Syntax::Test)?;
        let name = self.parser.cursor.peek();
        if !matches!(name.kind, Kind::Name | Kind::Keyword) {
            return Err(expected(Syntax::TestName));
        }
        self.parser.cursor.next();
        self.parsed.name = self.string(name.text)?;
        for _ in 0..self.parser.cursor.tokens.len() {
            if self.parser.cursor.peek().kind == Kind::End {
                break;
            }
            self.declaration()?;
        }
        self.add_last_threads()
    }

    fn string(&self, text: &str) -> Result<String, Wrong> {
        Ok(String::from_str(self.parser.alloc, text)?)
    }

    fn declaration(&mut self) -> Result<(), Wrong> {
        self.parser.cursor.expect_break()?;
        match self.parser.cursor.peek().text {
            "let" => self.let_number(),
            "word" => self.declare_word(),
            "key" => self.declare_key(),
            "macro" => self.parser.declare_macro(),
            "thread" => self.declare_thread(),
            "forall" => self.claim(Claim::Forall),
            "never" => self.claim(Claim::Never),
            "exists" => self.look_for(),
            "expect" => self.expect(),
            _ => Err(expected(Syntax::Declaration)),
        }
    }
}

impl<'t> Parser<'t> {
    fn any_name(&mut self, what: Syntax) -> Result<&'t str, Wrong> {
        let token = self.cursor.peek();
        match token.kind {
            Kind::Name if !is_known(token.text) => Ok(self.cursor.next().text),
            Kind::Name | Kind::Keyword => Err(Fault::Taken.here()),
            _ => Err(expected(what)),
        }
    }

    // The name that is declared behind the next token.
    fn new_name(&mut self, what: Syntax) -> Result<&'t str, Wrong> {
        self.cursor.next();
        let name = self.any_name(what)?;
        if self.names.lookup(name).is_some() {
            return Err(Fault::Taken.here().at(self.cursor.last()));
        }
        Ok(name)
    }

    fn declare_macro(&mut self) -> Result<(), Wrong> {
        let name = self.new_name(Syntax::MacroName)?;
        self.cursor.expect("(", Syntax::Parenthesis)?;
        let first = self.cursor.at;
        let parameters = self.parameters()?;
        let body = self.cursor.skip_block()?;
        let meaning = Meaning::Macro(Macro {
            first,
            parameters,
            body,
        });
        self.names.bind(name, meaning)
    }

    // Reads the parameters of a macro. Returns how many they are.
    fn parameters(&mut self) -> Result<usize, Wrong> {
        let from = self.cursor.at;
        for count in 0..self.cursor.tokens.len() {
            if !self.cursor.has_element(count)? {
                return Ok(count);
            }
            let to = self.cursor.at;
            let name = self.any_name(Syntax::ParameterName)?;
            if self.cursor.has(Span { from, to }, name) {
                return Err(Fault::Taken.here().at(to));
            }
        }
        Ok(0)
    }
}

impl<'t> Reader<'t> {
    fn let_number(&mut self) -> Result<(), Wrong> {
        let name = self.parser.new_name(Syntax::NumberName)?;
        self.parser.cursor.expect("=", Syntax::Equals)?;
        let number = self.parser.constant()?;
        let number = self.replaced(name).unwrap_or(number);
        let text = self.string(name)?;
        self.parsed
            .numbers
            .push(NamedNumber { name: text, number })?;
        self.parser.names.bind(name, Meaning::Number(number))
    }

    // The number that the caller has in the place of the one with this name.
    fn replaced(&self, name: &str) -> Option<u8> {
        for (known, number) in self.numbers.iter() {
            if *known == name {
                return Some(*number);
            }
        }
        None
    }

    fn declare_word(&mut self) -> Result<(), Wrong> {
        let name = self.parser.new_name(Syntax::WordName)?;
        let number = self.parsed.words.len();
        if number >= WORDS {
            return Err(too_many(Counted::Words).at(self.parser.cursor.last()));
        }
        self.parser.cursor.expect("=", Syntax::Equals)?;
        self.parsed.test.words[number] = self.parser.constant()?;
        let text = self.string(name)?;
        self.parsed.words.push(text)?;
        self.parser.names.bind(
            name,
            Meaning::Word(Word {
                number: number as u8,
            }),
        )
    }

    fn declare_key(&mut self) -> Result<(), Wrong> {
        let name = self.parser.new_name(Syntax::KeyName)?;
        let number = self.parsed.keys.len();
        if number >= KEYS {
            return Err(too_many(Counted::Keys).at(self.parser.cursor.last()));
        }
        if self.parser.cursor.take("beside") {
            let other = self.parser.key()?;
            let bucket = self.parser.bucket(other);
            if let Some(own) = self.parser.buckets.get_mut(number) {
                *own = bucket;
            }
        }
        let text = self.string(name)?;
        self.parsed.keys.push(text)?;
        self.parser.names.bind(
            name,
            Meaning::Key(Key {
                number: number as u8,
            }),
        )
    }

    fn declare_thread(&mut self) -> Result<(), Wrong> {
        let name = self.parser.new_name(Syntax::ThreadName)?;
        let token = self.parser.cursor.last();
        let copies = if self.parser.cursor.take("*") {
            self.parser.constant()?
        } else {
            1
        };
        let text = self.parser.cursor.skip_block()?;
        if self.parsed.threads.len().saturating_add(copies as usize) > WORKERS {
            return Err(too_many(Counted::Threads).at(token));
        }
        for copy in 0..copies {
            self.parser.begin_thread(text, copy);
            self.parser.read_thread()?;
            self.add_thread(name, copy, copies)?;
            self.parser.names.end_thread();
        }
        Ok(())
    }

    // Adds a thread that does what was written.
    fn add_thread(&mut self, name: &str, copy: u8, copies: u8) -> Result<(), Wrong> {
        let Finished { code, statements } = self.parser.draft.finish(self.parser.alloc)?;
        if let Some(place) = self.parsed.test.codes.get_mut(self.parsed.threads.len()) {
            *place = code;
        }
        let thread = ThreadText {
            name: self.string(name)?,
            copy,
            copies,
            statements,
            locals: self.local_names()?,
        };
        self.parsed.threads.push(thread)?;
        Ok(())
    }

    fn local_names(&self) -> Result<Vec<String>, Wrong> {
        let mut names = Vec::new(self.parser.alloc);
        for number in 0..LOCALS {
            names.push(self.string(self.parser.draft.locals.name(number))?)?;
        }
        Ok(names)
    }

    // The threads that do nothing, and the one that looks at the ends.
    fn add_last_threads(&mut self) -> Result<(), Wrong> {
        self.parser.draft = Draft::new(self.parser.alloc);
        for _ in self.parsed.threads.len()..WORKERS {
            self.add_thread("", 0, 1)?;
        }
        mem::swap(&mut self.parser.draft, &mut self.ends);
        self.parser.draft.locals = Locals::new();
        self.add_thread("the end", 0, 1)
    }
}

impl<'t> Reader<'t> {
    fn claim(&mut self, claim: Claim) -> Result<(), Wrong> {
        mem::swap(&mut self.parser.draft, &mut self.ends);
        self.parser.assert_at_ends(claim)?;
        mem::swap(&mut self.parser.draft, &mut self.ends);
        Ok(())
    }

    fn look_for(&mut self) -> Result<(), Wrong> {
        self.parser.draft = Draft::new(self.parser.alloc);
        self.parser.assert_at_ends(Claim::Never)?;
        let code = self.parser.draft.finish(self.parser.alloc)?.code;
        let statement = self.parser.draft.statement;
        self.parsed.lookers.push(Looker { code, statement })?;
        Ok(())
    }

    fn expect(&mut self) -> Result<(), Wrong> {
        let line = self.parser.cursor.next().line;
        let verdict = self.verdict()?;
        let sizes = if self.parser.cursor.take("for") {
            Some(self.sizes()?)
        } else {
            None
        };
        self.parsed.expectations.push(Expectation {
            line,
            verdict,
            sizes,
        })?;
        Ok(())
    }

    fn verdict(&mut self) -> Result<Verdict, Wrong> {
        if self.parser.cursor.take("safe") {
            return Ok(Verdict::Safe);
        }
        if self.parser.cursor.take("fails") {
            return Ok(Verdict::Fails(self.parser.cursor.take_number()));
        }
        if self.parser.cursor.take("stuck") {
            return Ok(Verdict::Stuck(self.sleeper()?));
        }
        Err(expected(Syntax::Verdict))
    }

    fn sleeper(&mut self) -> Result<Option<Sleeper>, Wrong> {
        let name = self.parser.cursor.peek();
        if name.kind != Kind::Name || !self.parser.cursor.is_near() {
            return Ok(None);
        }
        if !self.has_thread(name.text) {
            return Err(Fault::Unknown.here());
        }
        self.parser.cursor.next();
        self.parser.cursor.expect("on", Syntax::On)?;
        let key = self.parser.key()?;
        let thread = self.string(name.text)?;
        Ok(Some(Sleeper { thread, key }))
    }

    fn has_thread(&self, name: &str) -> bool {
        for thread in &self.parsed.threads {
            if thread.name.as_str() == name {
                return true;
            }
        }
        false
    }

    fn sizes(&mut self) -> Result<Sizes, Wrong> {
        let name = self.parser.number_name()?;
        self.parser.cursor.expect("in", Syntax::In)?;
        let mut values = Vec::new(self.parser.alloc);
        for _ in 0..self.parser.cursor.tokens.len() {
            let Some(value) = self.parser.cursor.byte()? else {
                break;
            };
            self.parser.cursor.next();
            values.push(value)?;
        }
        if values.is_empty() {
            return Err(expected(Syntax::Number));
        }
        let name = self.string(name)?;
        Ok(Sizes { name, values })
    }
}

impl<'t> Parser<'t> {
    // Reads the statements of a thread.
    fn read_thread(&mut self) -> Result<(), Wrong> {
        for _ in 0..u32::MAX {
            if self.blocks.is_empty() {
                return Ok(());
            }
            self.statement()?;
            self.draft.check()?;
        }
        Err(TOO_LONG.here())
    }

    // Reads the name of a number.
    fn number_name(&mut self) -> Result<&'t str, Wrong> {
        let token = self.cursor.at;
        let name = self.any_name(Syntax::NamedNumber)?;
        match self.names.lookup(name) {
            Some(Meaning::Number(_)) => Ok(name),
            Some(_) => Err(expected(Syntax::NamedNumber).at(token)),
            None => Err(Fault::Unknown.here().at(token)),
        }
    }

    // Reads what is said of the ends. Instructions outside of threads have no locals but
    // temporaries.
    fn assert_at_ends(&mut self, claim: Claim) -> Result<(), Wrong> {
        self.draft.locals = Locals::new();
        self.begin_statement();
        self.cursor.next();
        if self.draft.len() == 0 {
            self.draft.emit(Instruction::AwaitOthers);
        }
        let mut operand = self.expression()?;
        if claim == Claim::Never {
            let zero = Operand::Constant(0);
            operand = self.draft.compute(Operation::Equal, operand, zero);
        }
        self.draft.release(operand);
        self.emit_last(Instruction::Assert { operand });
        self.draft.check()
    }
}
