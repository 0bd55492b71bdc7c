//! Threads whose deadline has passed, or passes, and which others move or unpark meanwhile.

use crate::played::goes_well;

// Of 16 buckets the keys 0 and 13 have one.
const KEYS: [usize; 6] = [1, 13, 7, 0, usize::MAX, usize::MAX - 1];

// Keys 1 and 2 have buckets of their own, 0 and 13 have one. It refuses a late thread that goes on
// with a key which it read before it had the bucket.
#[test]
fn a_late_thread_that_is_moved_meanwhile_reads_its_key_again(rt: HostRuntime) {
    let scene = "
        thread
        before_sleep: raise entered; await inside; raise late
        park $0 past -> timed_out $1 last
        caller
        await entered
        validate: raise inside; await late; sleep 5000
        requeue $0 $1 requeue_all 42 -> 0 1
    ";
    for keys in [[1, 2], [2, 1], [0, 13]] {
        goes_well(&rt, scene, &keys);
    }
}

// It refuses a requeue that notes the new key of one of those that it moved alone: the others look
// for themselves in their old queue for ever.
#[test]
fn each_late_thread_that_was_moved_leaves_its_new_key(rt: HostRuntime) {
    let scene = "
        thread 4
        before_sleep: await moved
        park 1 past -> timed_out 2 any
        caller
        waiting 1 4
        requeue 1 2 requeue_all 42 -> 0 4
        raise moved
    ";
    goes_well(&rt, scene, &[]);
}

// It refuses a park that does not note its key, or less than all of it, where the thread noted
// another before, and a requeue that does not note each key to which it moves a thread, as 0: the
// thread then looks for itself in another queue for ever.
#[test]
fn a_late_thread_finds_itself_on_each_key(rt: HostRuntime) {
    let scene = "
        thread
        park $0 past -> timed_out $0 last
        before_sleep: move $0 $1 -> 1
        park $0 past -> timed_out $1 last
        park $0 past -> timed_out $0 last
        before_sleep: move $1 $0 -> 1
        park $1 past -> timed_out $0 last
        park $1 past -> timed_out $1 last
    ";
    for from in KEYS {
        for to in KEYS {
            goes_well(&rt, scene, &[from, to]);
        }
    }
}

// It refuses a park that calls `timed_out` although the thread was unparked.
#[test]
fn timed_out_is_not_called_where_the_thread_was_unparked(rt: HostRuntime) {
    let scene = "
        thread
        before_sleep: unpark one $0 42 -> 1
        park $0 past -> unparked 42
        before_sleep: unpark one $0 42 -> 1
        park $0 far -> unparked 42
        before_sleep: unpark one $0 42 -> 1
        park $0 forever -> unparked 42
    ";
    for key in KEYS {
        goes_well(&rt, scene, &[key]);
    }
}

// The thread leaves while a requeue that moved it calls back, and a third thread has its first
// bucket. It refuses a requeue that notes where a timed thread went only after it called back: the
// thread, which looks meanwhile, then waits for its first bucket.
#[test]
fn a_requeue_calls_back_once_the_thread_is_moved(rt: HostRuntime) {
    let scene = "
        thread
        before_sleep: raise entered; await moved; raise late
        park 7 past -> timed_out 8 last
        raise gone
        caller
        await entered
        validate: raise inside; await behind; sleep 5000
        callback: raise moved; await late; sleep 5000
        requeue 7 8 requeue_all 42 -> 0 1
        caller
        await inside
        raise behind
        callback: await gone
        unpark_one 7 42 -> 0 0
    ";
    for _ in 0..4 {
        goes_well(&rt, scene, &[]);
    }
}

// It refuses a park that ends before its deadline, or leaves the key on which it is no more.
#[test]
fn a_park_lasts_until_its_deadline(rt: HostRuntime) {
    let scene = "
        thread
        raise begun
        before_sleep: move 1 2 -> 1
        park 1 500 -> timed_out 2 last
        raise ended
        caller
        await begun
        sleep 20000
        is ended 0
    ";
    goes_well(&rt, scene, &[]);
}
