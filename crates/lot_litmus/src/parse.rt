//! This module makes a test from the text of a protocol.
//!
//! It reads the text once, from its beginning to its end, and writes instructions as it reads. It
//! reads a macro each time that the macro is called.

mod block;
mod cursor;
mod draft;
mod effect;
mod error;
mod expression;
mod fault;
mod flow;
mod locals;
mod names;
mod park;
mod parsed;
mod parser;
mod requeue;
mod statement;
mod token;
mod top;
mod wake;

use crate::code::{Code, WORDS};
use crate::test::Test;
use draft::Draft;
pub use error::{ParseError, Problem};
use names::Meaning;
pub use parsed::{
    Expectation, Looker, NamedNumber, Parsed, Sizes, Sleeper, Statement, ThreadText, Verdict,
};
use parser::Parser;
use std::alloc::Global;
use token::{Token, tokens_of};
use top::Reader;

/// Makes a test from a text. Each of the given numbers replaces the number of the `let` line with
/// its name.
///
/// # Errors
///
/// Returns the first thing that is wrong with the text, or a given name that no `let` line has, or
/// that there is not enough memory.
pub fn parse(alloc: Global, text: &str, numbers: &[(&str, u8)]) -> Result<Parsed, ParseError> {
    let tokens = tokens_of(alloc, text)?;
    let mut reader = reader(alloc, tokens, numbers);
    if let Err(wrong) = reader.read() {
        return Err(reader.parser.cursor.error(alloc, wrong));
    }
    reader.check_numbers()?;
    Ok(reader.parsed())
}

// A text of which nothing was read yet.
fn reader<'t>(alloc: Global, tokens: Vec<Token<'t>>, numbers: &'t [(&'t str, u8)]) -> Reader<'t> {
    let parser = Parser::new(alloc, tokens);
    Reader {
        parsed: nothing(alloc, &parser),
        parser,
        numbers,
        ends: Draft::new(alloc),
    }
}

// What a text says that says nothing.
fn nothing(alloc: Global, parser: &Parser<'_>) -> Parsed {
    Parsed {
        name: String::new(alloc),
        test: Test {
            codes: [
                Code::none(alloc),
                Code::none(alloc),
                Code::none(alloc),
                Code::none(alloc),
                Code::none(alloc),
                Code::none(alloc),
            ],
            buckets: parser.buckets,
            words: [0; WORDS],
        },
        numbers: Vec::new(alloc),
        words: Vec::new(alloc),
        keys: Vec::new(alloc),
        statements: Vec::new(alloc),
        threads: Vec::new(alloc),
        lookers: Vec::new(alloc),
        expectations: Vec::new(alloc),
    }
}

impl Reader<'_> {
    // Each number that was handed in stands for one of the text.
    fn check_numbers(&self) -> Result<(), ParseError> {
        for (name, _) in self.numbers.iter() {
            let known = self.parser.names.lookup(name);
            if !matches!(known, Some(Meaning::Number(_))) {
                let name = String::from_str(self.parser.alloc, name)?;
                return Err(ParseError::NoSuchNumber { name });
            }
        }
        Ok(())
    }

    fn parsed(self) -> Parsed {
        let Reader {
            parser,
            mut parsed,
            ..
        } = self;
        let buckets = parser.buckets;
        parsed.test.buckets = buckets;
        parsed.statements = parser.statements;
        parsed
    }
}
