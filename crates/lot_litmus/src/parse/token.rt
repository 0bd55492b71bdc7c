//! The words, numbers and signs of a text.

use super::error::{ParseError, Problem};
use super::fault::Fault;
use std::alloc::{AllocError, Global};

/// What a token is.
#[derive(Clone, Copy, PartialEq, Eq)]
pub(super) enum Kind {
    Name,
    Keyword,
    Number(usize),
    Sign,
    End,
}

/// What stands before a token.
#[derive(Clone, Copy, PartialEq, Eq)]
pub(super) enum Before {
    /// At most one blank.
    Near,

    /// A new line, a semicolon or more blanks.
    Break,
}

// The words that cannot be names.
const KEYWORDS: [&str; 46] = [
    "test",
    "let",
    "word",
    "key",
    "beside",
    "macro",
    "thread",
    "forall",
    "never",
    "exists",
    "expect",
    "for",
    "in",
    "on",
    "if",
    "else",
    "while",
    "loop",
    "break",
    "continue",
    "return",
    "await",
    "assert",
    "enter",
    "shared",
    "leave",
    "count",
    "cas",
    "swap",
    "add",
    "sub",
    "and",
    "or",
    "xor",
    "park",
    "validate",
    "timeout",
    "before_sleep",
    "unpark_one",
    "unpark_all",
    "filter",
    "unpark",
    "skip",
    "stop",
    "requeue",
    "callback",
];

// The signs. One that begins with another stands before it.
const SIGNS: [&str; 21] = [
    "==", "!=", "<=", ">=", "&&", "||", "{", "}", "(", ")", ",", "*", "=", "+", "-", "&", "|", "^",
    "<", ">", "!",
];

/// A word, number or sign of the text, or its end.
#[derive(Clone, Copy)]
pub(super) struct Token<'t> {
    pub(super) kind: Kind,
    pub(super) text: &'t str,
    pub(super) before: Before,
    pub(super) line: usize,
    pub(super) column: usize,

    // Its whole line.
    whole: &'t str,
}

impl<'t> Token<'t> {
    /// The end of a text.
    pub(super) fn end(line: usize) -> Token<'t> {
        Token {
            kind: Kind::End,
            text: "",
            before: Before::Break,
            line,
            column: 1,
            whole: "",
        }
    }

    /// What its line says from this column to its own end.
    pub(super) fn since(&self, column: usize) -> &'t str {
        let from = column.saturating_sub(1);
        let to = self.column.saturating_add(self.text.len());
        self.whole
            .get(from..to.saturating_sub(1))
            .unwrap_or(self.text)
    }

    /// The error that this is wrong here.
    pub(super) fn error(&self, alloc: Global, fault: Fault) -> ParseError {
        match self.problem(alloc, fault) {
            Ok(problem) => ParseError::At {
                line: self.line,
                column: self.column,
                problem,
            },
            Err(_) => ParseError::NoMemory,
        }
    }

    fn problem(&self, alloc: Global, fault: Fault) -> Result<Problem, AllocError> {
        let name = String::from_str(alloc, self.text)?;
        let found = self.quoted(alloc)?;
        Ok(match fault {
            Fault::Expected(expected) => {
                let expected = expected.text();
                Problem::Expected { expected, found }
            },
            Fault::Unknown => Problem::Unknown { name },
            Fault::Taken => Problem::Taken { name },
            Fault::Character => Problem::Character { character: found },
            Fault::NotAByte => Problem::NotAByte,
            Fault::TooMany(counted) => {
                let (most, what) = counted.most();
                Problem::TooMany { most, what }
            },
            Fault::Unclosed => Problem::Unclosed,
            Fault::Arguments { wanted, given } => Problem::Arguments { wanted, given },
            Fault::Misplaced(rule) => Problem::Misplaced { rule: rule.text() },
            Fault::NoMemory => return Err(AllocError),
        })
    }

    // As a message shows it.
    fn quoted(&self, alloc: Global) -> Result<String, AllocError> {
        let text = self.text;
        match self.kind {
            Kind::End => String::from_str(alloc, "the end of the text"),
            _ => format!(in alloc; "\"{text}\""),
        }
    }
}

/// All tokens of the text, and its end.
pub(super) fn tokens_of(alloc: Global, text: &str) -> Result<Vec<Token<'_>>, ParseError> {
    let mut tokens = Vec::new(alloc);
    let mut last = 1;
    for (line, whole) in (1..usize::MAX).zip(text.lines()) {
        let code = match whole.split_once('#') {
            Some((code, _)) => code,
            None => whole,
        };
        add_line(alloc, &mut tokens, line, code)?;
        last = line;
    }
    tokens.push(Token::end(last))?;
    Ok(tokens)
}

// Adds the tokens of a line.
fn add_line<'t>(
    alloc: Global,
    tokens: &mut Vec<Token<'t>>,
    line: usize,
    whole: &'t str,
) -> Result<(), ParseError> {
    let mut token = Token {
        kind: Kind::Sign,
        whole,
        ..Token::end(line)
    };
    let mut rest = whole;
    for _ in 0..whole.len() {
        let blanks = Class::Blank.length(rest.as_bytes());
        if blanks > 1 || rest.starts_with(';') {
            token.before = Before::Break;
        }
        rest = rest.get(blanks..).unwrap_or_default();
        if rest.is_empty() {
            break;
        }
        token.column = whole.len().saturating_sub(rest.len()).saturating_add(1);
        let (found, length) = first_of(rest);
        token.text = rest.get(..length).unwrap_or(rest);
        token.kind = match found {
            Ok(kind) => kind,
            Err(fault) => return Err(token.error(alloc, fault)),
        };
        rest = rest.get(length..).unwrap_or_default();
        tokens.push(token)?;
        token.before = Before::Near;
    }
    Ok(())
}

// What a character belongs to.
#[derive(Clone, Copy, PartialEq, Eq)]
enum Class {
    Blank,
    Number,
    Word,
    Other,
}

impl Class {
    fn of(byte: u8) -> Class {
        match byte {
            b' ' | b'\t' | b'\r' | b';' => Class::Blank,
            b'0'..=b'9' => Class::Number,
            b'a'..=b'z' | b'A'..=b'Z' | b'_' => Class::Word,
            _ => Class::Other,
        }
    }

    // How long the line goes on with this. A word goes on with digits too.
    fn length(self, line: &[u8]) -> usize {
        let mut length = 0usize;
        for byte in line {
            let goes_on = match (self, Class::of(*byte)) {
                (Class::Word, Class::Number) => true,
                (class, found) => class == found,
            };
            if !goes_on {
                break;
            }
            length = length.saturating_add(1);
        }
        length
    }
}

// What the text begins with, and how long that is.
fn first_of(text: &str) -> (Result<Kind, Fault>, usize) {
    let line = text.as_bytes();
    let number = Class::Number.length(line);
    if number > 0 {
        return (number_of(text.get(..number).unwrap_or(text)), number);
    }
    let word = Class::Word.length(line);
    if word > 0 {
        return (Ok(word_of(text.get(..word).unwrap_or(text))), word);
    }
    match sign_length(line) {
        Some(length) => (Ok(Kind::Sign), length),
        None => (Err(Fault::Character), character_length(text)),
    }
}

fn number_of(digits: &str) -> Result<Kind, Fault> {
    match digits.parse::<usize>() {
        Ok(number) => Ok(Kind::Number(number)),
        Err(_) => Err(Fault::NotAByte),
    }
}

fn word_of(word: &str) -> Kind {
    for keyword in &KEYWORDS {
        if *keyword == word {
            return Kind::Keyword;
        }
    }
    Kind::Name
}

fn sign_length(line: &[u8]) -> Option<usize> {
    for sign in &SIGNS {
        if line.starts_with(sign.as_bytes()) {
            return Some(sign.len());
        }
    }
    None
}

fn character_length(text: &str) -> usize {
    match text.char_indices().nth(1) {
        Some((length, _)) => length,
        None => text.len(),
    }
}
