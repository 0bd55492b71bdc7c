//! Plays lines of text on a machine and on its plain one: worked rows, all short lists of some
//! lines, and long lists of arbitrary ones.

use crate::plain::arbitrary::write_line;
use crate::words::{expect_text, number, push, push_line, word};
use crate::{fair, interleaved, record, script};
use std::alloc::Global;
use std::process::Abort;

/// Plays the lines, the first of which names a machine and its size, and answers what both have
/// answered, a line for each.
pub fn play(rt: &impl Abort, alloc: Global, lines: &str) -> String {
    match word(lines, 0) {
        "interleaved" => interleaved::play(rt, alloc, lines),
        "fair" => fair::play(rt, alloc, lines),
        "record" => record::play(rt, alloc, lines),
        _ => script::play(rt, alloc, lines),
    }
}

// The same, and a script in each way that there is. Short lists are too many for that.
fn play_each_way(rt: &impl Abort, alloc: Global, lines: &str) -> String {
    let found = play(rt, alloc, lines);
    if word(lines, 0) == "lot" {
        script::expect_other_ways(rt, alloc, lines, found.as_str());
    }
    found
}

// A row is a line, and its answer behind an equals sign. The first line may have none.
fn write_rows(rt: &impl Abort, rows: &str, (lines, expected): (&mut String, &mut String)) {
    for row in rows.lines() {
        let (asked, answer) = row.split_once('=').unwrap_or((row, ""));
        push_line(rt, lines, asked.trim());
        if !answer.is_empty() {
            push_line(rt, expected, answer.trim());
        }
    }
}

/// Plays each text of rows behind those rows with which all begin, and compares the answers with
/// those of the rows.
pub fn expect_rows(rt: &impl Abort, alloc: Global, before: &str, texts: &[&str]) {
    for rows in texts {
        let (mut lines, mut expected) = (String::new(alloc), String::new(alloc));
        write_rows(rt, before, (&mut lines, &mut expected));
        write_rows(rt, rows, (&mut lines, &mut expected));
        let found = play_each_way(rt, alloc, lines.as_str());
        expect_text(rt, rows, found.as_str(), expected.as_str());
    }
}

// The list of so many of these lines whose kinds are the digits of the code.
fn write_list(rt: &impl Abort, text: &mut String, kinds: &[&str], (length, code): (usize, usize)) {
    let mut rest = code;
    for _ in 0..length {
        let kind = rest.checked_rem(kinds.len()).unwrap_or(0);
        push_line(rt, text, kinds.get(kind).copied().unwrap_or(""));
        rest = rest.checked_div(kinds.len()).unwrap_or(0);
    }
}

// How many lists of so many lines there are.
fn lists_of(kinds: usize, length: usize) -> usize {
    let mut lists: usize = 1;
    for _ in 0..length {
        lists = lists.wrapping_mul(kinds);
    }
    lists
}

/// Plays all lists of so many lines of these kinds, behind the lines before, and asks the
/// questions. Shorter lists are the beginnings of those.
pub fn play_short_lists(
    rt: &impl Abort,
    alloc: Global,
    (before, questions): (&str, &str),
    kinds: &[&str],
    length: usize,
) {
    for code in 0..lists_of(kinds.len(), length) {
        let mut text = String::new(alloc);
        push(rt, &mut text, before);
        write_list(rt, &mut text, kinds, (length, code));
        push(rt, &mut text, questions);
        play(rt, alloc, text.as_str());
    }
}

/// Plays so many arbitrary lines behind the first, asks the questions, and answers what was
/// answered.
pub fn play_long_list(
    rt: &impl Abort,
    alloc: Global,
    (first, questions): (&str, &str),
    length: usize,
) -> String {
    let mut state = length.wrapping_add(number(first, 2));
    let mut text = String::new(alloc);
    push(rt, &mut text, first);
    for count in 0..length {
        write_line(&mut state, first, count, &mut text);
    }
    push(rt, &mut text, questions);
    play_each_way(rt, alloc, text.as_str())
}
