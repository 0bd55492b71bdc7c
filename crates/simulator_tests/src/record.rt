//! Records: worked rows, and records beside the plain machine.

use crate::plain::record::PlainRecord;
use crate::player::{expect_rows, play_long_list};
use crate::told::say;
use crate::words::{expect, expect_text, number, step, write_answer};
use lot_machine::step::Answer;
use lot_simulator::lot::Lot;
use lot_simulator::record::{MAX_JOURNAL, Record, RecordError};
use std::alloc::Global;
use std::fmt::Write;
use std::process::Abort;

/// Writes what a record answers.
pub fn write_told(
    rt: &impl Abort,
    alloc: Global,
    told: Result<Answer, RecordError>,
    text: &mut String,
) {
    match told {
        Ok(answer) => write_answer(rt, alloc, answer, text),
        Err(refused) => write!(text, "{refused}").expect(rt, "memory"),
    }
}

/// Does the journal's steps on a new lot for so many threads, and compares the answers.
pub fn expect_replay(rt: &impl Abort, alloc: Global, record: &Record, threads: usize) {
    let mut lot = Lot::new(alloc, threads).expect(rt, "memory");
    for (step, answer) in record.journal() {
        expect(rt, lot.apply(step) == *answer, "the answer of the journal");
    }
    let are_as_many = lot.registered() == record.lot().registered();
    expect(rt, are_as_many, "the registered threads");
}

// What the record answers to the lines.
fn answers_to(rt: &impl Abort, alloc: Global, record: &mut Record, lines: &str) -> String {
    let mut text = String::new(alloc);
    for line in lines.lines().skip(1) {
        let told = record.step(step(rt, alloc, line));
        write_told(rt, alloc, told, &mut text);
        say(&mut text, "\n");
    }
    text
}

// What the plain machine answers to the lines.
fn expected_of(alloc: Global, plain: &mut PlainRecord, lines: &str) -> String {
    let mut text = String::new(alloc);
    for line in lines.lines().skip(1) {
        plain.step(line).write(&mut text);
        say(&mut text, "\n");
    }
    text
}

/// Plays the lines on both. The first one tells for how many threads, and entries.
pub fn play(rt: &impl Abort, alloc: Global, lines: &str) -> String {
    let (threads, room) = (number(lines, 1), number(lines, 2).min(MAX_JOURNAL));
    let mut record = Record::new(alloc, threads, room).expect(rt, "memory");
    let mut plain = PlainRecord::new(alloc, threads, room);
    let found = answers_to(rt, alloc, &mut record, lines);
    let expected = expected_of(alloc, &mut plain, lines);
    expect_text(rt, lines, found.as_str(), expected.as_str());
    let is_as_long = record.journal().len() == plain.entries;
    expect(rt, is_as_long && record.max_threads() == threads, lines);
    expect_replay(rt, alloc, &record, threads);
    found
}

const ROWS: [&str; 3] = [
    // The entries of a timed park are set aside for it, and no other step gets them.
    "record 1 4\n register = number 0\n enter 0 1 yes 0 timed = entered\n\
    one 1 42 = journal is full\n deadline 0 = late\n resolve 0 = timed out 1 true\n\
    register = journal is full\n resolve 0 = misfit",
    // Registrations that are refused and trims that do nothing have entries too.
    "record 0 1\n register = full\n register = journal is full\n trim = journal is full",
    "record 0 1\n trim = trimmed\n register = journal is full\n trim = journal is full",
];

// It refuses a record that tells another kind, number, key or answer than the machine does.
#[test]
fn a_journal_has_the_room_that_it_was_made_with(rt: HostRuntime) {
    expect_rows(&rt, rt.alloc(), "", ROWS.as_slice());
    let greatest = Record::new(rt.alloc(), 0, MAX_JOURNAL);
    expect(&rt, greatest.is_ok(), "the greatest journal");
    let mut text = String::new(rt.alloc());
    write_told(&rt, rt.alloc(), Err(RecordError::NoMemory), &mut text);
    expect_text(&rt, "a refusal", text.as_str(), "no memory");
}

#[test]
fn records_of_every_small_room_do_as_the_plain_machine(rt: HostRuntime) {
    for room in 0..40 {
        let mut first = String::new(rt.alloc());
        writeln!(first, "record 3 {room}").expect(&rt, "memory");
        play_long_list(&rt, rt.alloc(), (first.as_str(), ""), 150);
    }
}
