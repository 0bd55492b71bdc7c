//! What comes next in a text.

use super::error::ParseError;
use super::fault::{Fault, Rule, Syntax, Wrong, expected, misplaced};
use super::token::{Before, Kind, Token};
use std::alloc::Global;

/// A part of the text, by the indices of its first token and of the one behind its last.
#[derive(Clone, Copy)]
pub(super) struct Span {
    pub(super) from: usize,
    pub(super) to: usize,
}

/// A text that has been read up to a token.
#[derive(Drop)]
pub(super) struct Cursor<'t> {
    pub(super) tokens: Vec<Token<'t>>,

    /// The index of the next token.
    pub(super) at: usize,
}

impl<'t> Cursor<'t> {
    pub(super) fn token(&self, index: usize) -> Token<'t> {
        match self.tokens.get(index) {
            Some(token) => *token,
            None => Token::end(0),
        }
    }

    pub(super) fn peek(&self) -> Token<'t> {
        self.token(self.at)
    }

    /// The token behind the next one.
    pub(super) fn following(&self) -> Token<'t> {
        self.token(self.at.saturating_add(1))
    }

    /// The index of the token before the next one.
    pub(super) fn last(&self) -> usize {
        self.at.saturating_sub(1)
    }

    /// The error that the last token breaks this rule.
    pub(super) fn misplaced(&self, rule: Rule) -> Wrong {
        misplaced(rule).at(self.last())
    }

    pub(super) fn next(&mut self) -> Token<'t> {
        let token = self.peek();
        self.at = self.at.saturating_add(1);
        token
    }

    /// Whether this word or sign is next.
    pub(super) fn is(&self, text: &str) -> bool {
        self.peek().text == text
    }

    /// Takes the word or sign, if it is next.
    pub(super) fn take(&mut self, text: &str) -> bool {
        let is_next = self.is(text);
        if is_next {
            self.next();
        }
        is_next
    }

    pub(super) fn expect(&mut self, text: &str, name: Syntax) -> Result<(), Wrong> {
        if !self.take(text) {
            return Err(expected(name));
        }
        Ok(())
    }

    pub(super) fn open_brace(&mut self) -> Result<(), Wrong> {
        self.expect("{", Syntax::Brace)
    }

    /// Takes the word and the brace behind it, if the word is next.
    pub(super) fn opens(&mut self, word: &str) -> Result<bool, Wrong> {
        if !self.take(word) {
            return Ok(false);
        }
        self.open_brace()?;
        Ok(true)
    }

    /// Reads what stands before the next element of a list in parentheses, or the end of the list.
    /// Says whether there is one more, behind so many.
    pub(super) fn has_element(&mut self, count: usize) -> Result<bool, Wrong> {
        if self.take(")") {
            return Ok(false);
        }
        if count > 0 {
            self.expect(",", Syntax::Comma)?;
        }
        Ok(true)
    }

    /// The byte that comes next, if a number does.
    pub(super) fn byte(&self) -> Result<Option<u8>, Wrong> {
        let Kind::Number(number) = self.peek().kind else {
            return Ok(None);
        };
        match u8::try_from(number) {
            Ok(byte) => Ok(Some(byte)),
            Err(_) => Err(Fault::NotAByte.here()),
        }
    }

    /// Takes the number, if one is next.
    pub(super) fn take_number(&mut self) -> Option<usize> {
        let Kind::Number(number) = self.peek().kind else {
            return None;
        };
        self.next();
        Some(number)
    }

    /// Whether the next token stands on the same line as the one before it, and close to it.
    pub(super) fn is_near(&self) -> bool {
        self.peek().before == Before::Near
    }

    /// A statement begins on a new line, after a semicolon or two blanks, or at a brace.
    pub(super) fn expect_break(&self) -> Result<(), Wrong> {
        let last = self.token(self.last()).text;
        if self.is_near() && last != "{" && last != "}" {
            return Err(expected(Syntax::End));
        }
        Ok(())
    }

    /// Reads a block, but for its braces.
    pub(super) fn skip_block(&mut self) -> Result<Span, Wrong> {
        self.open_brace()?;
        let from = self.at;
        let to = self.closing_brace()?;
        self.at = to.saturating_add(1);
        Ok(Span { from, to })
    }

    // The index of the brace that closes the one before the next token.
    fn closing_brace(&self) -> Result<usize, Wrong> {
        let mut open = 0usize;
        for index in self.at..self.tokens.len() {
            let text = self.token(index).text;
            if text == "{" {
                open = open.saturating_add(1);
            } else if text == "}" && open == 0 {
                return Ok(index);
            } else if text == "}" {
                open = open.saturating_sub(1);
            }
        }
        Err(Fault::Unclosed.here().at(self.last()))
    }

    /// Whether this part of the text has the word.
    pub(super) fn has(&self, span: Span, word: &str) -> bool {
        for index in span.from..span.to {
            if self.token(index).text == word {
                return true;
            }
        }
        false
    }

    /// The last token that was read on this line, but for a brace.
    pub(super) fn last_on(&self, line: usize) -> Token<'t> {
        for index in (0..self.at).rev() {
            let token = self.token(index);
            if token.line == line && token.text != "{" {
                return token;
            }
        }
        self.peek()
    }

    /// The error that this is wrong.
    pub(super) fn error(&self, alloc: Global, wrong: Wrong) -> ParseError {
        let index = wrong.token.unwrap_or(self.at);
        self.token(index).error(alloc, wrong.fault)
    }
}
