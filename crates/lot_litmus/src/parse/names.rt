//! What the names of a text mean.

use super::cursor::Span;
use super::fault::{Fault, Syntax, Wrong, expected};
use super::token::{Kind, Token};
use crate::code::{Key, Local, Word};
use std::alloc::Global;

/// A procedure that stands where it is called.
#[derive(Clone, Copy)]
pub(super) struct Macro {
    /// The index of its first parameter's token, and how many there are. Commas are between them.
    pub(super) first: usize,
    pub(super) parameters: usize,
    pub(super) body: Span,
}

/// What a name means.
#[derive(Clone, Copy)]
pub(super) enum Meaning {
    Number(u8),
    Word(Word),
    Key(Key),
    Local(Local),
    Macro(Macro),
}

/// A name and its meaning.
#[derive(Clone, Copy)]
pub(super) struct Binding<'t> {
    pub(super) name: &'t str,
    pub(super) meaning: Meaning,
}

/// The text of a thread or a macro.
#[derive(Clone, Copy)]
pub(super) struct Scope {
    pub(super) text: Span,

    /// The index of its first binding, and of the first that it has not been given.
    pub(super) first: usize,
    pub(super) own: usize,
}

/// The names that are known.
#[derive(Drop)]
pub(super) struct Names<'t> {
    pub(super) bindings: Vec<Binding<'t>>,

    /// How many of them are from outside of threads.
    outside: usize,
    pub(super) scope: Scope,

    /// The number of the thread.
    me: Option<u8>,
}

impl<'t> Names<'t> {
    pub(super) fn new(alloc: Global) -> Names<'t> {
        Names {
            bindings: Vec::new(alloc),
            outside: 0,
            scope: Scope {
                text: Span { from: 0, to: 0 },
                first: 0,
                own: 0,
            },
            me: None,
        }
    }

    /// A thread with this number begins.
    pub(super) fn begin_thread(&mut self, text: Span, number: u8) {
        self.outside = self.bindings.len();
        self.me = Some(number);
        self.scope = Scope {
            text,
            first: self.outside,
            own: self.outside,
        };
    }

    /// The thread ends, and what it has declared.
    pub(super) fn end_thread(&mut self) {
        self.bindings.truncate(self.outside);
        self.me = None;
    }

    pub(super) fn bind(&mut self, name: &'t str, meaning: Meaning) -> Result<(), Wrong> {
        self.bindings.push(Binding { name, meaning })?;
        Ok(())
    }

    /// What the name means, if it means something.
    pub(super) fn lookup(&self, name: &str) -> Option<Meaning> {
        let here = self.bindings.get(self.scope.first..).unwrap_or_default();
        let outside = self.bindings.get(..self.outside).unwrap_or_default();
        let declared = meaning_in(here, name).or(meaning_in(outside, name));
        match declared {
            Some(meaning) => Some(meaning),
            None => Some(Meaning::Number(self.number(name)?)),
        }
    }

    // The number that has this name without being declared.
    fn number(&self, name: &str) -> Option<u8> {
        if name == "me" {
            return self.me;
        }
        known_number(name)
    }

    /// What the token means. Something was expected that has a name.
    pub(super) fn meaning(&self, token: Token<'t>, what: Syntax) -> Result<Meaning, Wrong> {
        if token.kind != Kind::Name {
            return Err(expected(what));
        }
        match self.lookup(token.text) {
            Some(meaning) => Ok(meaning),
            None => Err(Fault::Unknown.here()),
        }
    }

    /// What the binding at this index means, if there is one.
    pub(super) fn meaning_at(&self, index: usize) -> Option<Meaning> {
        Some(self.bindings.get(index)?.meaning)
    }

    /// The name means no local any more. Returns the local.
    pub(super) fn forget(&mut self, name: &str) -> Option<Local> {
        for index in (self.scope.own..self.bindings.len()).rev() {
            let binding = *self.bindings.get(index)?;
            if binding.name == name
                && let Meaning::Local(local) = binding.meaning
            {
                self.bindings.remove(index);
                return Some(local);
            }
        }
        None
    }
}

// What the last of the bindings with this name means.
fn meaning_in(bindings: &[Binding<'_>], name: &str) -> Option<Meaning> {
    for binding in bindings.iter().rev() {
        if binding.name == name {
            return Some(binding.meaning);
        }
    }
    None
}

/// Whether the name is that of a number in every text.
pub(super) fn is_known(name: &str) -> bool {
    name == "me" || known_number(name).is_some()
}

// A number that has a name in every text.
fn known_number(name: &str) -> Option<u8> {
    match name {
        "unparked" => Some(0),
        "invalid" => Some(1),
        "timed_out" => Some(2),
        _ => moves_number(name),
    }
}

/// The number of a way to requeue: 1 for a waiter that is unparked, 2 for one that is moved, and 4
/// for all the rest that are moved.
pub(super) fn moves_number(name: &str) -> Option<u8> {
    match name {
        "nobody" => Some(0),
        "one" => Some(1),
        "move_one" => Some(2),
        "all" => Some(4),
        "one_rest" => Some(5),
        _ => None,
    }
}
