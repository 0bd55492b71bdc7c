//! Scripts, and by them the exclusive lot: worked rows, lists of lines beside the plain machine,
//! and lines that are refused.

mod lists;
mod refused;
mod rows;

use crate::plain::exclusive::Plain;
use crate::told::say;
use crate::words::{expect_text, number, push_written};
use lot_script::script::{ScriptedLot, buffered_script, script};
use std::alloc::Global;
use std::io::Write;
use std::process::Abort;

/// What a script answers to this input, with its fault. It may be one that has buffers of its own.
pub fn answers_of(rt: &impl Abort, alloc: Global, input: &[u8], is_buffered: bool) -> String {
    let mut written = Vec::new(alloc);
    let ended = if is_buffered {
        buffered_script(alloc, input, &mut written)
    } else {
        script(alloc, input, &mut written)
    };
    if let Err(fault) = ended {
        writeln!(written, "{fault}").expect(rt, "memory");
    }
    text_of(rt, alloc, written.as_slice())
}

// What a lot answers to which the lines are given one by one. A line that is refused has its cause
// for an answer.
fn answers_by_line(rt: &impl Abort, alloc: Global, input: &str) -> String {
    let mut scripted = ScriptedLot::new(alloc);
    let mut written = Vec::new(alloc);
    for line in input.lines() {
        if let Err(cause) = scripted.answer(line.as_bytes(), &mut written) {
            writeln!(written, "{cause}").expect(rt, "memory");
        }
    }
    text_of(rt, alloc, written.as_slice())
}

fn text_of(rt: &impl Abort, alloc: Global, written: &[u8]) -> String {
    let mut text = String::new(alloc);
    push_written(rt, written, &mut text);
    text
}

/// Plays a script, and on the plain machine.
pub fn play(rt: &impl Abort, alloc: Global, lines: &str) -> String {
    let mut plain = Plain::new(alloc, number(lines, 1));
    let mut expected = String::new(alloc);
    say(&mut expected, "ok\n");
    for line in lines.lines().skip(1) {
        plain.answer(line, &mut expected);
        say(&mut expected, "\n");
    }
    let found = answers_of(rt, alloc, lines.as_bytes(), false);
    expect_text(rt, lines, found.as_str(), expected.as_str());
    found
}

/// Plays a script in the other ways that there are.
pub fn expect_other_ways(rt: &impl Abort, alloc: Global, lines: &str, expected: &str) {
    let buffered = answers_of(rt, alloc, lines.as_bytes(), true);
    expect_text(rt, lines, buffered.as_str(), expected);
    let by_line = answers_by_line(rt, alloc, lines);
    expect_text(rt, lines, by_line.as_str(), expected);
}
