//! This module reads the words of a script for threads: a line is an action, in words with spaces
//! between them.

/// `Words` has the words of a line, or of a part of it, that are still to be read.
#[derive(Copy, Clone)]
pub struct Words<'t> {
    rest: &'t str,
    values: &'t [usize],

    // The number of the thread that reads them, or of the round in which they are read.
    own: usize,
}

impl<'t> Words<'t> {
    /// Creates the words of this text.
    ///
    /// In it `$0` stands for the first of the values, and so on, and `mine` for the number of the
    /// thread that reads it.
    pub fn of(text: &'t str, values: &'t [usize], mine: usize) -> Words<'t> {
        Words {
            rest: text,
            values,
            own: mine,
        }
    }

    /// Returns the same words, as they are read in a round with this number, for which `round`
    /// stands in them.
    pub fn in_round(self, round: usize) -> Words<'t> {
        Words { own: round, ..self }
    }

    /// Takes the next word, or returns `None` if there is none.
    pub fn word(&mut self) -> Option<&'t str> {
        let text = self.rest.trim_start();
        let (word, rest) = text.split_once(' ').unwrap_or((text, ""));
        self.rest = rest;
        if word.is_empty() { None } else { Some(word) }
    }

    // The value for which the word stands, by its digit.
    fn value(&self, word: &str) -> Option<usize> {
        let place: usize = word.strip_prefix('$')?.parse().ok()?;
        self.values.get(place).copied()
    }

    /// Takes the next word as a number. The word `greatest` is `usize::MAX`.
    pub fn number(&mut self) -> Option<usize> {
        match self.word()? {
            "greatest" => Some(usize::MAX),
            "mine" | "round" => Some(self.own),
            word => match word.parse::<usize>() {
                Ok(number) => Some(number),
                Err(_) => self.value(word),
            },
        }
    }

    /// Takes the next word as a number, or returns the default if there is no word.
    pub fn number_or(&mut self, default: usize) -> Option<usize> {
        if self.rest.trim_start().is_empty() {
            Some(default)
        } else {
            self.number()
        }
    }

    /// Takes the next word as a number if it is one, and else returns 1.
    pub fn number_or_one(&mut self) -> usize {
        let mut ahead = *self;
        let Some(number) = ahead.number() else {
            return 1;
        };
        *self = ahead;
        number
    }

    /// Takes the next word if it is the wanted one, and returns whether it is.
    pub fn reads(&mut self, wanted: &str) -> bool {
        let mut ahead = *self;
        let is_next = ahead.word().unwrap_or("") == wanted;
        if is_next {
            *self = ahead;
        }
        is_next
    }

    /// Returns what was found if all words were read, and `None` if there are more.
    pub fn end(&mut self, found: bool) -> Option<bool> {
        if self.rest.trim_start().is_empty() {
            Some(found)
        } else {
            None
        }
    }
}
