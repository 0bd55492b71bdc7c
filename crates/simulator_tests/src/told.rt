//! What a machine answers, as text.
//!
//! A text for which there is no memory is emptied. It is another one then than what it is compared
//! with, so no call has to say that memory ran out.

use std::fmt::Write;

/// An answer. The first `#` of its form stands for the first number, and another for the second.
#[derive(Copy, Clone)]
pub struct Told {
    pub form: &'static str,
    first: usize,
    second: usize,
}

/// An answer without numbers.
pub fn said(form: &'static str) -> Told {
    told_of(form, 0, 0)
}

/// An answer of two numbers, or of one where its form has no place for another.
pub fn told_of(form: &'static str, first: usize, second: usize) -> Told {
    Told {
        form,
        first,
        second,
    }
}

impl Told {
    /// Writes the answer.
    pub fn write(&self, text: &mut String) {
        let mut parts = self.form.split('#');
        say(text, parts.next().unwrap_or(""));
        let mut number = self.first;
        for part in parts {
            say_number(text, "", number);
            say(text, part);
            number = self.second;
        }
    }
}

/// Writes these words.
pub fn say(text: &mut String, words: &str) {
    if text.push_str(words).is_err() {
        text.clear();
    }
}

/// Writes these words, and the number behind them.
pub fn say_number(text: &mut String, words: &str, number: usize) {
    if write!(text, "{words}{number}").is_err() {
        text.clear();
    }
}

/// Writes the answer that tells a list.
pub fn write_list(text: &mut String, threads: &[usize]) {
    say(text, "waiters");
    for thread in threads {
        say_number(text, " ", *thread);
    }
}
