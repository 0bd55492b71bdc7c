//! Several threads that sleep on one key, and are all woken.

use crate::played::goes_well;

// More than eight threads are woken in the section, and the first eight after it.
//
// It refuses an unpark that wakes the first of those that it took, or only those for whose handles
// it has room.
#[test]
fn an_unpark_of_all_and_a_filter_wake_each_sleeper(rt: HostRuntime) {
    let scene = "
        thread $0
        park 7 forever -> unparked 42
        caller
        waiting 7 $0
        sleep 10000
        unpark all 7 42 -> $0
        waiting 7 0
        unpark all 7 42 -> 0
        raise again
        thread $0
        await again
        park 8 forever -> unparked 43
        caller
        waiting 8 $0
        sleep 10000
        unpark filter 8 43 -> $0
    ";
    for threads in [3, 10] {
        goes_well(&rt, scene, &[threads]);
    }
}

// It refuses a requeue that wakes nobody, or loses one of those that it moves.
#[test]
fn each_sleeper_is_woken_one_by_one_and_after_a_move(rt: HostRuntime) {
    let scene = "
        thread $0
        park 7 forever -> unparked 42
        park 7 forever -> unparked 43
        park 7 forever -> unparked 44
        caller
        waiting 7 $0
        sleep 10000
        repeat $0 unpark one 7 42 -> 1
        waiting 7 $0
        sleep 10000
        repeat $0 unpark requeue 7 43 -> 1
        waiting 7 $0
        sleep 10000
        move 7 8 -> $0
        unpark_all 8 44 -> $0
    ";
    for threads in [3, 10] {
        goes_well(&rt, scene, &[threads]);
    }
}

// It refuses numbers above 255, or the last of all, that are not given, not handed their node, or
// not woken.
#[test]
fn one_unpark_wakes_1024_threads(rt: HostRuntime) {
    let scene = "
        thread 1024
        park 7 forever -> unparked 42
        caller
        waiting 7 1024
        unpark_all 7 42 -> 1024
    ";
    goes_well(&rt, scene, &[]);
}
