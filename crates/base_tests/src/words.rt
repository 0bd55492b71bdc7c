//! Lines of words, in which the tests of buckets are written.

use std::process::Abort;

/// The word at this place of a line. It is empty if there is none.
pub fn word(line: &str, index: usize) -> &str {
    line.split_whitespace().nth(index).unwrap_or("")
}

/// The number at this place of a line.
pub fn number(rt: &impl Abort, line: &str, index: usize) -> usize {
    word(line, index).parse::<usize>().expect(rt, "a number")
}

/// What a line asks for, and what is expected, which stands behind an equals sign.
pub fn parts(line: &str) -> (&str, &str) {
    let (asked, expected) = line.split_once('=').unwrap_or((line, ""));
    (asked.trim(), expected.trim())
}

/// The decimal number with this digit behind the others.
pub fn with_digit(digits: usize, digit: usize) -> usize {
    digits.wrapping_mul(10).wrapping_add(digit)
}
