//! Lists of lines beside the plain machine: all short ones, long ones of arbitrary lines, and one
//! of more threads than a byte counts.

use crate::player::{play, play_long_list, play_short_lists};
use crate::words::expect;
use std::alloc::AllocError;
use std::fmt::Write;

// The steps that the short lists are made of. The keys 0 and 13 have place 0 of 16.
const STEPS: [&str; 29] = [
    "enter 0 0 yes 0 untimed",
    "enter 0 0 yes 0 timed",
    "enter 0 13 yes 0 untimed",
    "enter 0 13 yes 0 timed",
    "deadline 0",
    "resolve 0",
    "return 0",
    "enter 1 0 yes 0 untimed",
    "enter 1 0 yes 0 timed",
    "enter 1 13 yes 0 untimed",
    "enter 1 13 yes 0 timed",
    "deadline 1",
    "resolve 1",
    "return 1",
    "requeue 0 13 abort 100",
    "requeue 0 13 one-rest 101",
    "requeue 0 13 all 102",
    "requeue 0 13 one 103",
    "requeue 0 13 requeue-one 104",
    "requeue 13 13 all 105",
    "filter 0 SU 106",
    "one 0 107",
    "one 13 108",
    "all 13 109",
    "enter 0 0 no 0 untimed",
    "acquire 1 13",
    "release 1 13",
    "retire 1",
    "register",
];

// What goes before the short lists.
const BEGINNINGS: [&str; 8] = [
    "lot 2\nregister\nregister\n",
    "lot 2\nregister\nregister\nenter 0 0 yes 0 timed\n",
    "lot 2\nregister\nregister\nenter 0 0 yes 0 timed\nenter 1 0 yes 0 timed\n",
    "lot 2\nregister\nregister\nenter 0 0 yes 0 timed\nenter 1 13 yes 0 untimed\n",
    "lot 2\nregister\nregister\nenter 1 0 yes 0 untimed\nenter 0 0 yes 0 timed\ndeadline 0\n",
    "lot 2\nregister\nregister\nenter 0 0 yes 0 timed\nenter 1 13 yes 0 timed\none 0 99\n",
    "lot 2\nregister\nregister\nenter 0 0 yes 0 timed\nenter 1 0 yes 0 timed\n\
    requeue 0 13 all 99\n",
    "lot 2\nregister\nregister\nacquire 1 13\nacquire 1 13\nenter 0 13 yes 0 timed\n",
];

// What is asked behind each list. The answers tell lists, records and statuses.
const QUESTIONS: &str = "list 0\nlist 13\nrecords 1 13\nresolve 0\nresolve 1\n";

#[test]
fn short_lists_are_those_of_the_plain_machine(rt: HostRuntime) {
    for before in &BEGINNINGS {
        play_short_lists(&rt, rt.alloc(), (*before, QUESTIONS), STEPS.as_slice(), 2);
    }
}

const FIRST_LINES: [&str; 7] = [
    "lot 0\n",
    "lot 1\n",
    "lot 2\n",
    "lot 6\n",
    "lot 11\n",
    "lot 16384\n",
    "lot 40\n",
];

// With the forty threads of the last one the table grows, and is trimmed.
#[test]
fn long_lists_are_those_of_the_plain_machine(rt: HostRuntime) {
    let mut found = String::new(rt.alloc());
    for first in &FIRST_LINES {
        found = play_long_list(&rt, rt.alloc(), (*first, QUESTIONS), 2_000);
    }
    let (_, behind) = found.as_str().split_once("buckets 128").unwrap_or(("", ""));
    expect(&rt, behind.contains("buckets 64"), "the sizes");
}

// Of three hundred threads on a key, a filter leaves one more than a byte counts.
fn write_crowd(text: &mut String) -> Result<(), AllocError> {
    text.push_str("lot 300\n")?;
    for thread in 0..300 {
        write!(text, "register\nenter {thread} 1 yes 0 untimed\n")?;
    }
    text.push_str("filter 1 ")?;
    for thread in 0..300 {
        text.push_str(if thread < 257 { "S" } else { "U" })?;
    }
    text.push_str(" 42\nrequeue 1 2 all 43\nlist 2\nall 2 44\n")?;
    for thread in 0..300 {
        writeln!(text, "return {thread}")?;
    }
    Ok(())
}

// It refuses a list, a filter, a requeue or an unpark that goes no further than some thread.
#[test]
fn three_hundred_threads_are_filtered_moved_and_unparked(rt: HostRuntime) {
    let mut text = String::new(rt.alloc());
    write_crowd(&mut text).expect(&rt, "memory");
    play(&rt, rt.alloc(), text.as_str());
}
