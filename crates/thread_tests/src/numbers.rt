//! The numbers under which threads register, and the table that grows with them.

use crate::expect;
use crate::played::{goes_well, goes_well_on_words};
use lot_threads::{ThreadParkerT, WordParker};
use std::alloc::Global;
use test_support::calls::new_lot;

// The key 0 has the first place in a table of each size from 16 to 65,536, and this the last one.
const LAST_PLACE: usize = 46_368;

// How many threads a lot for so many is for. `None` says that those are too many.
fn max_threads<P: ThreadParkerT>(alloc: Global, threads: usize) -> Option<usize> {
    let lot = new_lot::<P>(alloc, threads).ok()?;
    Some(lot.max_threads())
}

// It refuses a `new` that answers `NoMemory` always.
#[test]
fn a_lot_is_for_at_most_16384_threads(rt: HostRuntime) {
    for (threads, expected) in [(0, Some(0)), (16_384, Some(16_384)), (16_385, None)] {
        let found = max_threads::<WordParker>(rt.alloc(), threads);
        expect(
            &rt,
            found == expected,
            "a lot is for as many threads as it is made for",
        );
    }
}

// The table grows from 16 buckets to 65,536 while one thread waits, and the last of all parks then.
//
// It refuses a growth that leaves out the last bucket, or loses it where there are more than 16; a
// number that is never given; a registration that is refused once there are more than some; and a
// number that is cut where its thread is handed its node, woken, or noted on its key.
#[test]
fn the_first_and_the_last_of_16384_park_at_the_first_and_the_last_place(rt: HostRuntime) {
    let scene = "
        lot 16384
        thread
        raise parking
        park $0 forever -> unparked 42
        caller
        await parking
        waiting $0 1
        register 16382 -> 1
        raise registered
        await done
        list $0 -> 0
        full
        unpark_all $0 42 -> 1
        caller
        await registered
        come
        before_sleep: unpark one 7 42 -> 1
        park 7 forever -> unparked 42
        before_sleep: unpark all 7 42 -> 1
        park 7 forever -> unparked 42
        before_sleep: unpark filter 7 42 -> 1
        park 7 forever -> unparked 42
        before_sleep: unpark requeue 7 42 -> 1
        park 7 forever -> unparked 42
        before_sleep: move 7 8 -> 1; list 8 -> 16383
        park 7 past -> timed_out 8 last
        raise sleeping
        park 7 forever -> unparked 43
        raise done
        caller
        await sleeping
        waiting 7 1
        sleep 50000
        unpark_one 7 43 -> 1 0
    ";
    for key in [0, LAST_PLACE] {
        goes_well_on_words(&rt, scene, &[key]);
    }
}

// What another thread was given and dropped stays registered. It refuses a `retire` that does
// nothing or frees another number too, and a `thread_data` that gives a number twice.
#[test]
fn a_retired_number_is_given_again(rt: HostRuntime) {
    let scene = "
        lot 3
        thread
        await dropped
        retire
        raise gone
        caller
        register 2 -> 1
        full
        raise dropped
        await gone
        register 1 -> 0
        full
    ";
    goes_well(&rt, scene, &[]);
}

// It refuses a retirement that frees no number, and a registration that then finds none.
#[test]
fn more_threads_than_numbers_take_turns(rt: HostRuntime) {
    let scene = "
        lot 4
        caller 12
        come
        park 7 past -> timed_out 7 any
        retire
        raise zero
        caller
        await zero 12
        register 4 -> 0
        full
    ";
    for _ in 0..20 {
        goes_well(&rt, scene, &[]);
    }
}
