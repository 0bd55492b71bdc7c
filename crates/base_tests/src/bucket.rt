//! Worked rows of each step. The threads a, b, c and d are 1, 2, 3 and 4, and each parks with its
//! number for a park token. All buckets are those of a table of 16, where the keys 0 and 13 have
//! place 0, key 1 has place 9, key 2 has place 3 and key 7 has place 5.
#![tactic(auto, using(crate::proofs::TableSizes::is_table_size_16))]

mod steps;

use crate::bucket::steps::Answer;
use crate::words::{number, parts, word};
use crate::{expect, expect_each};
use lot_base::bucket::{Bucket, place};
use std::alloc::Global;
use std::process::Abort;

#[tactic(auto, using(crate::proofs::TableSizes::is_table_size_32))]
fn place_of_32(key: usize) -> usize {
    place(key, 32)
}

#[tactic(auto, using(crate::proofs::TableSizes::is_table_size_65536))]
fn place_of_65536(key: usize) -> usize {
    place(key, 65_536)
}

// A place is the first bits of the key's product with the multiplier.
#[test]
fn keys_have_the_places_of_the_table(rt: HostRuntime) {
    for (key, product, of_16, of_32) in [
        (0, 0x0000_0000_0000_0000usize, 0, 0),
        (1, 0x9e37_79b9_7f4a_7c15, 9, 19),
        (2, 0x3c6e_f372_fe94_f82a, 3, 7),
        (4, 0x78dd_e6e5_fd29_f054, 7, 15),
        (5, 0x1715_609f_7c74_6c69, 1, 2),
        (7, 0x5384_5412_7b09_6493, 5, 10),
        (8, 0xf1bb_cdcb_fa53_e0a8, 15, 30),
        (13, 0x08d1_2e6b_76c8_4d11, 0, 1),
    ] {
        let are_small = place(key, 16) == of_16 && place_of_32(key) == of_32;
        let are_so = are_small && place_of_65536(key) == product >> 48;
        expect_each(&rt, are_so, "the places of a key", key);
    }
}

// Does to the bucket of a key what the words ask for. The other bucket stands by.
fn do_words(
    rt: &impl Abort,
    alloc: Global,
    (bucket, other): (&mut Bucket, &mut Bucket),
    asked: &str,
) -> Answer {
    match word(asked, 0) {
        "enter" => steps::enter(rt, alloc, bucket, asked),
        "refuse" => steps::refuse(rt, alloc, bucket, asked),
        "one" => steps::take_one(rt, bucket, asked),
        "all" => steps::take_all(rt, bucket, asked),
        "filter" => steps::take_filter(rt, bucket, asked),
        "requeue" => steps::requeue(rt, (bucket, other), asked),
        "remove" => steps::remove(rt, bucket, asked),
        "pop" => steps::pop(bucket),
        _ => steps::list(rt, alloc, bucket, asked),
    }
}

// The number that a line expects at this place.
fn expected_number(rt: &impl Abort, expected: &str, index: usize) -> usize {
    match word(expected, index) {
        "true" => 1,
        "" | "false" | "nobody" => 0,
        _ => number(rt, expected, index),
    }
}

fn do_line(rt: &impl Abort, alloc: Global, first: &mut Bucket, second: &mut Bucket, line: &str) {
    let (asked, expected) = parts(line);
    let found = if place(number(rt, asked, 1), 16) == first.place() {
        do_words(rt, alloc, (&mut *first, &mut *second), asked)
    } else {
        do_words(rt, alloc, (&mut *second, &mut *first), asked)
    };
    for (index, answered) in found.into_iter().enumerate() {
        expect(rt, answered == expected_number(rt, expected, index), line);
    }
}

fn new_bucket(rt: &impl Abort, place: usize) -> Bucket {
    expect(rt, place < 16, "a place of the table");
    Bucket::new(place % 16, 16)
}

// Does each line on two buckets, of which each line's first key has one. A line `buckets` makes
// them anew, with these places.
fn play(rt: &impl Abort, alloc: Global, lines: &str) {
    let (mut first, mut second) = (new_bucket(rt, 0), new_bucket(rt, 9));
    for line in lines.lines() {
        if word(line, 0) == "buckets" {
            first = new_bucket(rt, number(rt, line, 1));
            second = new_bucket(rt, number(rt, line, 2));
        } else {
            do_line(rt, alloc, &mut first, &mut second, line);
        }
    }
}

// An entry that is not valid gives back the node, which is told as its number, key and park token.
#[test]
fn an_invalid_entry_gives_the_node_back(rt: HostRuntime) {
    let lines = "\
        buckets 5 9
        enter 7 1
        refuse 7 2 = 2 7 2
        list 7 = 1
        refuse 7 2 = 2 7 2
        list 7 = 1";
    play(&rt, rt.alloc(), lines);
}

// What a step takes is told as its counts, whether it leaves a waiter of the key, and the numbers
// of the threads that it takes with its token.
#[test]
fn the_waiters_of_a_key_are_taken_in_order_and_no_others(rt: HostRuntime) {
    let lines = "\
        buckets 0 9
        enter 0 1
        enter 13 2
        enter 0 3
        one 0 42 = 1 0 true 1
        one 0 42 = 1 0 false 3
        one 0 42 = 0 0 false 0
        list 13 = 2
        buckets 0 9
        enter 0 1
        enter 13 2
        enter 0 3
        all 0 42 = 2 13
        list 0 =
        list 13 = 2
        all 0 42 = 0 0
        buckets 0 9
        enter 0 1
        enter 13 2
        enter 0 3
        remove 0 2 = nobody
        remove 13 2 = 2 77 13 true
        remove 0 1 = 1 77 0 false
        list 0 = 3
        list 13 =
        buckets 0 9
        enter 0 1
        enter 13 2
        enter 0 3
        pop 0 = 1 0
        pop 0 = 2 13
        list 0 = 3
        pop 0 = 3 0
        pop 0 = nobody";
    play(&rt, rt.alloc(), lines);
}

// A filter is asked about park tokens, which are told as digits behind what it takes. The last row
// is of nobody: the filter is not called.
#[test]
fn filters_are_those_of_the_table(rt: HostRuntime) {
    let lines = "\
        buckets 9 3
        enter 1 123
        filter 1 SUX 42 = 1 0 true 2 123
        list 1 = 13
        buckets 9 3
        enter 1 123
        filter 1 XU 42 = 0 0 true 0 1
        list 1 = 123
        buckets 9 3
        enter 1 123
        filter 1 USS 42 = 1 0 true 1 123
        list 1 = 23
        buckets 9 3
        enter 1 123
        filter 1 UX 42 = 1 0 true 1 12
        list 1 = 23
        filter 2 U 42 = 0 0 false 0 0
        list 1 = 23";
    play(&rt, rt.alloc(), lines);
}

#[test]
fn requeues_are_those_of_the_table(rt: HostRuntime) {
    let lines = "\
        buckets 0 9
        enter 0 1
        enter 13 2
        enter 0 3
        requeue 0 13 all 9 = 0 2 false 0
        list 0 =
        list 13 = 213
        buckets 9 3
        enter 1 123
        enter 2 4
        requeue 1 2 one-rest 9 = 1 2 false 1
        list 1 =
        list 2 = 423
        buckets 9 3
        enter 1 123
        requeue 1 1 requeue-one 9 = 0 1 true 0
        list 1 = 231
        buckets 9 3
        enter 1 1
        requeue 1 1 requeue-one 9 = 0 1 false 0
        list 1 = 1
        buckets 9 3
        enter 1 123
        requeue 1 1 all 9 = 0 3 false 0
        list 1 = 123
        buckets 9 3
        enter 1 123
        enter 2 4
        requeue 1 2 one 9 = 1 0 true 1
        list 1 = 23
        list 2 = 4
        buckets 9 3
        enter 1 12
        enter 2 4
        requeue 1 2 abort 9 = 0 0 false 0
        list 1 = 12
        list 2 = 4
        buckets 9 3
        enter 2 4
        requeue 1 2 all 9 = 0 0 false 0
        list 1 =
        list 2 = 4";
    play(&rt, rt.alloc(), lines);
}
