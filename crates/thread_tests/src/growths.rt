//! Calls that meet a change of the row of buckets: five threads have 16 buckets, one more has 32.

use crate::played::goes_well;

// So many growths and trims: each change three times.
const CHANGES: [[usize; 2]; 6] = [[1, 0], [0, 1], [1, 0], [0, 1], [1, 0], [0, 1]];

// The keys have the first and the second place of 16, which are emptied first, and the first and
// the third of 32.
const KEYS: [usize; 2] = [0, 5];

const WAYS: usize = 4;

// Of 16 buckets the keys 8, 0 and 5 have the last, the first and the second, and buckets of their
// own in each larger table. The growth waits for the last, while the thread comes to the second. It
// refuses a section that finds its bucket away, and then looks in the old row for ever.
#[test]
fn a_park_that_meets_a_growth_is_found_after_it(rt: HostRuntime) {
    let scene = "
        lot 6
        register 4
        thread
        await begun
        sleep 20000
        park 5 forever -> unparked 42
        caller
        callback: raise begun; sleep 50000
        unpark_one 8 42 -> 0 0
        caller
        await begun
        register 1
        waiting 5 1
        unpark_all 5 42 -> 1
    ";
    goes_well(&rt, scene, &[]);
}

// It refuses a requeue after a change of rows that does not note where a late thread went, and a
// thread that looks for itself in a row that is not in use: it looks for ever.
#[test]
fn a_late_thread_that_was_moved_after_a_change_of_rows_leaves_its_new_key(rt: HostRuntime) {
    let scene = "
        lot 96
        thread
        before_sleep: come_and_go $0; move 0 5 -> 1
        park 0 past -> timed_out 5 last
        before_sleep: trim; move 0 5 -> 1
        park 0 past -> timed_out 5 last
        before_sleep: come_and_go $0; trim
        park 7 past -> timed_out 7 last
    ";
    for guests in [5, 30, 95] {
        goes_well(&rt, scene, &[guests]);
    }
}

// A section of the key stays until an unpark has come to its bucket, and lets the table grow, or
// has it trimmed, before that has gone on. It refuses an unpark and a requeue that look in the old
// row for ever where the bucket is away.
#[test]
fn an_unpark_that_a_change_of_rows_overtakes_finds_who_waits(rt: HostRuntime) {
    let scene = "
        lot 6
        register 4
        come_and_go 1
        repeat $2 trim
        thread
        before_sleep: raise entered; await done 2
        park $0 forever -> unparked 42
        caller
        await entered
        await inside
        raise coming
        unpark $1 $0 42 -> 1
        raise done
        caller
        await entered
        callback: raise inside; await coming; sleep 1000
        unpark_chosen $0 s 42 -> 0 0 more
        repeat $2 register 1
        repeat $3 trim
        raise done
    ";
    for [growths, trims] in CHANGES {
        for key in KEYS {
            for way in 0..WAYS {
                goes_well(&rt, scene, &[key, way, growths, trims]);
            }
        }
    }
}

// It refuses a park that looks in the old row for ever where the bucket is away: nobody finds the
// thread then.
#[test]
fn a_thread_whose_park_a_change_of_rows_overtakes_is_found(rt: HostRuntime) {
    let scene = "
        lot 6
        register 4
        come_and_go 1
        repeat $1 trim
        thread
        await inside
        raise coming
        park $0 forever -> unparked 42
        caller
        callback: raise inside; await coming; sleep 1000
        unpark_chosen $0 s 42 -> 0 0
        repeat $1 register 1
        repeat $2 trim
        waiting $0 1
        unpark_all $0 42 -> 1
    ";
    for [growths, trims] in CHANGES {
        for key in KEYS {
            goes_well(&rt, scene, &[key, growths, trims]);
        }
    }
}

// Threads park, are moved and are unparked while the table grows and is trimmed. It refuses a
// section that waits for a row of buckets that was left, a thread that looks for itself where it is
// not for ever, and one that leaves its queue although its unpark was committed.
#[test]
fn nobody_is_lost_between_unparks_requeues_deadlines_growths_and_trims(rt: HostRuntime) {
    let scene = "
        lot 105
        thread 3
        repeat 200 park 0 1
        raise done
        thread 2
        repeat 200 park 13 1
        raise done
        caller
        until done 5 requeue 0 13 requeue_all 42
        caller
        until done 5 unpark_all 13 42
        caller
        until done 5 come_and_go 95
        caller
        until done 5 come_and_go 5
        caller
        until done 5 trim
        caller
        await done 5
        list 0 ->
        list 13 ->
    ";
    goes_well(&rt, scene, &[]);
}

// The keys have the places 0 and 1 of 32 buckets. It refuses a requeue that locks its first key's
// bucket first: two threads then have one bucket each, and wait for that of the other for ever.
#[test]
fn requeues_in_both_directions_end(rt: HostRuntime) {
    let scene = "
        lot 7
        register 6
        thread
        park 0 forever -> unparked 42
        caller 2
        validate: sleep 0
        repeat 300 requeue 0 13 requeue_all 42
        raise done
        caller 2
        validate: sleep 0
        repeat 300 requeue 13 0 requeue_all 42
        raise done
        caller
        await done 4
        move 13 0
        waiting 0 1
        unpark_all 0 42 -> 1
    ";
    goes_well(&rt, scene, &[]);
}
