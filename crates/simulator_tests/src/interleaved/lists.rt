//! Lists of interleaved steps: all short ones, all short races, and long ones of arbitrary steps.

use crate::player::{play_long_list, play_short_lists};
use crate::words::expect;
use std::alloc::Global;
use std::fmt::Write;
use std::process::Abort;

// The steps that the shortest lists are made of. The keys 0 and 13 have place 0 of 16, and there is
// no caller 2.
const STEPS: [&str; 31] = [
    "begin 0 one 0 100",
    "begin 0 all 13 101",
    "begin 1 one 13 102",
    "begin 0 requeue 0 13 all 103",
    "begin 1 requeue 13 0 one-rest 104",
    "begin 1 requeue 13 13 requeue-one 105",
    "begin 0 requeue 0 0 abort 106",
    "begin 2 one 0 107",
    "commit 0",
    "end 0",
    "wake 0",
    "commit 1",
    "end 1",
    "wake 1",
    "commit 2",
    "enter 0 0 yes 0 timed",
    "enter 0 13 yes 0 untimed",
    "deadline 0",
    "read 0",
    "look 0",
    "return 0",
    "enter 1 13 yes 0 timed",
    "enter 1 0 yes 0 untimed",
    "deadline 1",
    "read 1",
    "look 1",
    "return 1",
    "enter 1 0 no 0 untimed",
    "retire 1",
    "register",
    "trim",
];

// The steps of a race: a late thread, a caller that unparks it, and one that requeues it.
const RACE: [&str; 7] = [
    "begin 0 all 0 100",
    "begin 1 requeue 0 1 all 101",
    "commit 0",
    "end 0",
    "end 1",
    "read 0",
    "look 0",
];

// Both threads have entered.
const BEGINNING: &str = "interleaved 2 2\nregister\nregister\nenter 0 0 yes 0 timed\n\
    enter 1 13 yes 0 timed\n";

// What is asked behind each list.
const QUESTIONS: &str = "list 0\nlist 13\nlist 1\nsize\n";

// Plays all lists of so many of these steps behind the beginning and the steps before them.
fn play_lists(rt: &impl Abort, alloc: Global, before: &str, steps: &[&str], length: usize) {
    let mut text = String::new(alloc);
    write!(text, "{BEGINNING}{before}").expect(rt, "memory");
    play_short_lists(rt, alloc, (text.as_str(), QUESTIONS), steps, length);
}

#[test]
fn short_interleaved_lists_amount_to_their_sequential_steps(rt: HostRuntime) {
    play_lists(&rt, rt.alloc(), "", STEPS.as_slice(), 2);
}

#[test]
fn races_amount_to_their_sequential_steps(rt: HostRuntime) {
    for before in &[
        "begin 0 one 0 98\n",
        "begin 0 all 0 98\ncommit 0\n",
        "begin 1 requeue 0 13 all 99\n",
        "deadline 0\nread 0\n",
        "deadline 0\nread 0\nbegin 0 one 0 98\n",
        "deadline 0\nread 0\nbegin 0 requeue 0 1 all 99\nend 0\n",
        "begin 0 one 0 98\ndeadline 0\nread 0\ncommit 0\nend 0\n",
    ] {
        play_lists(&rt, rt.alloc(), *before, STEPS.as_slice(), 1);
        play_lists(&rt, rt.alloc(), *before, RACE.as_slice(), 3);
    }
}

// What is answered in the long lists, somewhere. Of twelve threads a table has 64 buckets.
const ANSWERS: [&str; 12] = [
    "committed",
    "ended",
    "woken",
    "late",
    "read",
    "retry",
    "blocked",
    "misfit",
    "timed out",
    "unparked",
    "full",
    "retired",
];

#[test]
fn long_interleaved_lists_amount_to_their_sequential_steps(rt: HostRuntime) {
    let long = ("interleaved 12 4\n", QUESTIONS);
    let found = play_long_list(&rt, rt.alloc(), long, 12_000);
    for answer in &ANSWERS {
        expect(&rt, found.as_str().contains(*answer), *answer);
    }
}
