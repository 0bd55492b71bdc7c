//! What is done in a section, while no other call on the key comes through.

use crate::played::{goes_well, goes_well_on_words};

// It refuses an unpark of one, an unpark by a filter and a requeue that call one of their closures
// without the lock of the bucket, and a requeue that lacks that of the other key's bucket.
#[test]
fn an_unpark_calls_its_closures_in_its_section(rt: HostRuntime) {
    let scene = "
        thread
        before_sleep: raise parked; await done
        park 7 forever -> unparked 42
        caller
        await parked
        callback: raise inside; await coming; never heard
        repeat $1 unpark_one 7 42 -> 1 0
        filter: raise inside; await coming; never heard
        callback: never heard
        repeat $2 unpark_chosen 7 u 42 -> 1 0
        validate: raise inside; await coming; never heard
        callback: never heard
        repeat $3 requeue 7 8 unpark_one_requeue_rest 42 -> 1 0
        raise done
        caller
        await inside
        raise coming
        list $0
        raise heard
    ";
    for values in [[7, 1, 0, 0], [7, 0, 1, 0], [7, 0, 0, 1], [8, 0, 0, 1]] {
        goes_well_on_words(&rt, scene, &values);
    }
}

// It refuses a `park` that calls `validate` without the lock of the bucket, goes on although that
// answered false, or leaves the thread in its queue then.
#[test]
fn a_park_validates_in_its_section(rt: HostRuntime) {
    let scene = "
        thread
        validate: raise inside; await coming; never heard
        before_sleep: raise wrong
        timed_out: raise wrong
        park_in_vain 7 past -> invalid
        is wrong 0
        list 7 ->
        caller
        await inside
        raise coming
        list 7
        raise heard
    ";
    goes_well(&rt, scene, &[]);
}

// It refuses a `park` that calls `timed_out` without the lock of the bucket.
#[test]
fn a_park_times_out_in_its_section(rt: HostRuntime) {
    let scene = "
        thread
        timed_out: raise inside; await coming; never heard
        park 7 past -> timed_out 7 last
        caller
        await inside
        raise coming
        list 7
        raise heard
    ";
    goes_well(&rt, scene, &[]);
}
