//! Threads that are back before their unpark ends, and one that does not come to sleep.

use crate::played::{goes_well, goes_well_with};
use crate::returning_parker::ReturningParker;

const WAYS: usize = 4;

// A requeue stays in the bucket of the one key, and goes from that of the other to it. It refuses
// an unpark of the last waiter that takes whoever came after it, one that commits without the lock
// of the bucket, and one that wakes with it.
#[test]
fn a_thread_that_parks_during_its_wake_waits_for_the_next_unpark(rt: HostRuntime) {
    let scene = "
        thread
        park $0 forever -> unparked 1
        park $0 forever -> unparked 2
        no_faults
        caller
        waiting $0 1
        unpark $1 $0 1 -> 1
        waiting $0 1
        unpark $1 $0 2 -> 1
    ";
    let until_a_deadline = "
        thread
        park $0 far -> unparked 1
        park $0 far -> unparked 2
        no_faults
        caller
        waiting $0 1
        unpark $1 $0 1 -> 1
        waiting $0 1
        unpark $1 $0 2 -> 1
    ";
    for scene in [scene, until_a_deadline] {
        for key in [7, 8] {
            for way in 0..WAYS {
                goes_well_with::<ReturningParker, _>(&rt, scene, &[key, way]);
            }
        }
    }
}

// Threads park behind one another and are unparked at once, and then again from another key. It
// refuses an unpark that commits its nodes in another order than that of the queue.
#[test]
fn nodes_are_committed_in_the_order_of_the_queue(rt: HostRuntime) {
    let scene = "
        thread 12
        waiting 7 mine
        park 7 forever -> unparked 42
        is back mine
        raise back
        park 8 forever -> unparked 42
        caller
        waiting 7 12
        unpark_all 7 42 -> 12
        waiting 8 12
        unpark_all 8 42 -> 12
        list 7 ->
    ";
    goes_well_with::<ReturningParker, _>(&rt, scene, &[]);
}

// It refuses an unpark that waits until each thread has its node, or that goes on only so far.
#[test]
fn a_thread_that_does_not_come_to_sleep_holds_nobody_up(rt: HostRuntime) {
    let scene = "
        thread
        before_sleep: await back
        park 7 forever -> unparked 42
        thread
        waiting 7 1
        park 7 forever -> unparked 42
        raise back
        caller
        waiting 7 2
        unpark_all 7 42 -> 2
    ";
    goes_well(&rt, scene, &[]);
}
