//! Threads that wait in a row, and are unparked by another.

use crate::played::{goes_well, goes_well_on_words, goes_well_with};
use test_support::ordered_parker::OrderedParker;

const WAYS: usize = 4;

// It refuses an unpark that wakes nobody or hands over another token than its own, a requeue that
// moves nobody, a filter that unparks nobody, and an `unpark_all` that keeps the threads it took.
#[test]
fn waiters_are_woken_by_each_unpark(rt: HostRuntime) {
    let scene = "
        thread
        park 1 forever -> unparked 9
        thread
        waiting 1 1
        park 1 forever -> unparked 42
        thread
        waiting 1 2
        park 1 forever -> unparked 5
        thread
        park 7 forever -> unparked 43
        caller
        waiting 1 3
        waiting 7 1
        requeue 1 2 unpark_one_requeue_rest 9 -> 1 2
        list 1 ->
        list 2 -> 1 2
        unpark_chosen 2 su 5 -> 1 0 more
        unpark_all 2 42 -> 1
        unpark_one 7 43 -> 1 0
    ";
    goes_well(&rt, scene, &[]);
}

// The keys 0 and 13 have place 0 in a table of 16, and the places 0 and 1 in one of 32, as six
// threads need it. Twelve threads need one of 64.
//
// It refuses a `list` that is always empty, a growth that drops the nodes in the locks, and a
// change of rows that turns the order of a list round.
#[test]
fn waiters_keep_their_order_where_the_table_grows_twice_and_is_trimmed(rt: HostRuntime) {
    let scene = "
        lot 12
        thread
        park 0 forever -> unparked 10
        thread
        waiting 0 1
        park 13 forever -> unparked 11
        thread
        waiting 13 1
        park 0 forever -> unparked 12
        thread
        waiting 0 2
        park 13 forever -> unparked 13
        caller
        waiting 13 2
        list 0 -> 0 2
        list 13 -> 1 3
        come_and_go 8
        list 0 -> 0 2
        list 13 -> 1 3
        trim
        list 0 -> 0 2
        list 13 -> 1 3
        unpark_one 0 10 -> 1 0 more
        unpark_one 13 11 -> 1 0 more
        unpark_one 0 12 -> 1 0
        unpark_one 13 13 -> 1 0
    ";
    goes_well_on_words(&rt, scene, &[]);
}

// It refuses any call that takes less of a key or a token than all of it.
#[test]
fn the_greatest_key_and_tokens_come_through_each_way(rt: HostRuntime) {
    let scene = "
        thread
        park greatest forever -> unparked greatest
        caller
        waiting greatest 1
        move greatest $1 -> 1
        list greatest ->
        list $1 -> 0
        move $1 greatest -> 1
        unpark $0 greatest greatest -> 1
    ";
    for way in 0..WAYS {
        goes_well_on_words(&rt, scene, &[way, usize::MAX - 1]);
    }
}

// It refuses a `park` that calls its parker in another order or not at all, and a second look that
// calls `timed_out` or answers `TimedOut` although the node is in the slot.
#[test]
fn a_park_prepares_its_parker_and_waits_by_it_in_order(rt: HostRuntime) {
    let scene = "
        thread
        park_in_vain 7 forever -> invalid
        before_sleep: unpark $0 7 42 -> 1
        park 7 forever -> unparked 42
        no_faults
    ";
    let with_a_deadline = "
        thread
        park_in_vain 7 past -> invalid
        before_sleep: unpark $0 7 42 -> 1
        park 7 past -> unparked 42
        no_faults
    ";
    for scene in [scene, with_a_deadline] {
        for way in 0..WAYS {
            goes_well_with::<OrderedParker, _>(&rt, scene, &[way]);
        }
    }
}
