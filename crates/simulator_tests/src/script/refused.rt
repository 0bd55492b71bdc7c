//! Lines that are refused, and the calls for one line.

use super::{answers_by_line, answers_of};
use crate::words::{expect, expect_text};
use lot_script::script::{Cause, Command, Fault};
use std::alloc::Global;
use std::fmt::Write;
use std::process::Abort;

// Inputs, each with what a script answers to it.
const INPUTS: [(&[u8], &str); 6] = [
    (b"", "line 1: bad step\n"),
    (b"lot 16385", "line 1: too many threads\n"),
    (b"lot 18446744073709551615\n", "line 1: too many threads\n"),
    (b"lot 1\nretire \xff", "ok\nline 2: bad step\n"),
    (b"lot 1\nsize", "ok\nbuckets 16 threads 0\n"),
    (
        b"lot 2\nregister\nenter 0 7 yes 5 untimed\none 7 42\nreturn 0\nreturn 0\none 7\n",
        "ok\nnumber 0\nentered\nunparked 1 requeued 0 more false\nunparked 42\nmisfit\n\
        line 7: bad step\n",
    ),
];

// Lines that make no lot, and lines that say nothing to one.
const NO_LOTS: &str = "lot 18446744073709551616;\n;lot 01;lot;lot 1 1;lot +1;register";

const NO_FORMS: &str = "lot 1;\nsize;retire  0;retire 0 ; size;retire\t0;size\r\n;\
    all 18446744073709551616 1;retire 00;retire -1;retire;Size;filter 1 U- 1;filter 1 u 1;\
    filter 1  1;enter 0 1 maybe 0 timed;enter 0 1 yes 0 late;requeue 1 2 rest 0;trim 1";

// Gives each of the lines to a script behind those before.
fn expect_refused(rt: &impl Abort, alloc: Global, (before, lines): (&str, &str), expected: &str) {
    for line in lines.split(';') {
        let mut input = String::new(alloc);
        write!(input, "{before}{line}").expect(rt, "memory");
        let found = answers_of(rt, alloc, input.as_str().as_bytes(), false);
        expect_text(rt, line, found.as_str(), expected);
    }
}

#[test]
fn a_line_without_a_form_ends_a_script(rt: HostRuntime) {
    expect_refused(&rt, rt.alloc(), ("", NO_LOTS), "line 1: bad step\n");
    expect_refused(
        &rt,
        rt.alloc(),
        ("lot 1\n", NO_FORMS),
        "ok\nline 2: bad step\n",
    );
    for (input, expected) in &INPUTS {
        let found = answers_of(&rt, rt.alloc(), *input, false);
        expect_text(&rt, "an input", found.as_str(), *expected);
    }
}

// Refused first lines make no lot, and a later one may.
const LINES: &str =
    "\nregister\nlot 01\nlot 1 \nlot 16385\nlot 2\nregister\nregister\nacquire 1 3\n\
    enter 0 7 yes 5 timed\nenter 1 7 yes 6 untimed\n\nlot 2\none 7\nall 7 1 \nrelease 1 03\n\
    deadline 0 0\nfilter 7 u 1\nlist 7\nrecords 1 3\nsize\ndeadline 0\nresolve 0\nlist 7";

const ANSWERS: &str = "bad step\nbad step\nbad step\nbad step\ntoo many threads\nok\nnumber 0\n\
    number 1\nrecorded\nentered\nentered\nbad step\nbad step\nbad step\nbad step\nbad step\n\
    bad step\nbad step\nwaiters 0 1\nrecords 1\nbuckets 16 threads 2\nlate\ntimed out 7 false\n\
    waiters 1\n";

#[test]
fn a_line_that_is_refused_leaves_lot_and_answers(rt: HostRuntime) {
    let found = answers_by_line(&rt, rt.alloc(), LINES);
    expect_text(&rt, LINES, found.as_str(), ANSWERS);
}

fn is_read(alloc: Global) -> bool {
    let read = Command::of(alloc, b"records 3 18446744073709551615");
    matches!(read, Ok(Command::Records { thread: 3, key }) if key == usize::MAX)
}

fn is_too_long(alloc: Global) -> bool {
    let read = Command::of(alloc, &[b' '; 4_097]);
    matches!(read, Err(Cause::BadStep))
}

#[test]
fn a_line_is_read_alone_and_a_fault_has_its_text(rt: HostRuntime) {
    expect(&rt, is_read(rt.alloc()), "a question for records");
    expect(&rt, is_too_long(rt.alloc()), "a line that is too long");
    let fault = Fault {
        line: 7,
        cause: Cause::NoMemory,
    };
    let text = fault.to_string(rt.alloc()).expect(&rt, "memory");
    expect_text(&rt, "a fault", text.as_str(), "line 7: no memory");
}
