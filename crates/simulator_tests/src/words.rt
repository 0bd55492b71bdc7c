//! Words of lines, and the steps that lines are.

use lot_machine::step::{Answer, Step};
use lot_script::script;
use lot_script::script::Command;
use std::alloc::Global;
use std::process::Abort;

/// The word at this place, or an empty one.
pub fn word(line: &str, index: usize) -> &str {
    line.split_whitespace().nth(index).unwrap_or("")
}

/// The number at this place. Where there is none, it is one that no thread and no key of a test is.
pub fn number(line: &str, index: usize) -> usize {
    word(line, index).parse::<usize>().unwrap_or(usize::MAX - 1)
}

/// The line behind its first word, which has one blank behind it.
pub fn behind(line: &str) -> &str {
    let (_, rest) = line.split_once(' ').unwrap_or(("", ""));
    rest
}

/// Whether the word is one of these, which have a blank between them.
pub fn is_one_of(word: &str, words: &str) -> bool {
    for each in words.split(' ') {
        if each == word {
            return true;
        }
    }
    false
}

/// The step of a lot that the line is.
pub fn step(rt: &impl Abort, alloc: Global, line: &str) -> Step {
    match Command::of(alloc, line.as_bytes()) {
        Ok(Command::Do(step)) => step,
        _ => {
            expect(rt, false, line);
            Step::Trim
        }
    }
}

/// Adds these words to the text.
pub fn push(rt: &impl Abort, text: &mut String, words: &str) {
    text.push_str(words).expect(rt, "memory");
}

/// Adds a line of these words to the text.
pub fn push_line(rt: &impl Abort, text: &mut String, words: &str) {
    push(rt, text, words);
    push(rt, text, "\n");
}

/// Adds what was written to the text.
pub fn push_written(rt: &impl Abort, written: &[u8], text: &mut String) {
    let given = str::from_utf8(written).unwrap_or("no text");
    push(rt, text, given);
}

/// Writes what a script answers where a step of the lot answers this.
pub fn write_answer(rt: &impl Abort, alloc: Global, answer: Answer, text: &mut String) {
    let mut written = Vec::new(alloc);
    script::write_answer(&mut written, answer).expect(rt, "memory");
    push_written(rt, written.as_slice(), text);
}

/// Compares two texts.
pub fn expect_text(rt: &impl Abort, case: &str, found: &str, expected: &str) {
    assert!(rt; found == expected, "{case}: {found}, and not {expected}");
}

/// An assertion costs a proof a second or more wherever it stands, and a call of this a tenth.
pub fn expect(rt: &impl Abort, is_so: bool, case: &str) {
    assert!(rt; is_so, "{case}");
}
