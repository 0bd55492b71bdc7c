//! Worked rows of the interleaved machine. The threads a and b are 0 and 1, and the keys 0 and 13
//! have place 0 of 16.

use crate::player::expect_rows;

// Two threads of six have registered, and there are two callers.
const TWO: &str = "interleaved 6 2\n register = number 0\n register = number 1\n";

const ROWS: [&str; 9] = [
    // A deadline that an unpark overtook ends unparked. This refuses a look that answers `TimedOut`
    // without looking into the slot, and one that does not ask for the bucket.
    "enter 0 1 yes 0 timed = entered\n begin 0 all 1 42 = count 1\n deadline 0 = late\n\
    read 0 = read 1\n look 0 = blocked\n commit 0 = committed 0\n end 0 = ended\n\
    look 0 = unparked 42\n wake 0 = woken\n\
    steps = told register; register; enter 0 1 yes 0 timed; all 1 42; return 0;",
    // A thread that was requeued reads its key again. This refuses a look that does not compare the
    // key that was read.
    "enter 0 1 yes 0 timed = entered\n deadline 0 = late\n read 0 = read 1\n\
    begin 0 requeue 1 2 all 9 = unparked 0 requeued 1 more false\n end 0 = ended\n\
    look 0 = retry\n read 0 = read 2\n look 0 = timed out 2 true\n\
    steps = told register; register; enter 0 1 yes 0 timed; deadline 0; requeue 1 2 all 9; \
    resolve 0;",
    // Of two that were taken one returns and one is late. This refuses a deadline of a thread whose
    // slot is full, a return of one that is late, and a count of wakes that goes below zero.
    "enter 0 1 yes 0 timed = entered\n enter 1 1 yes 0 timed = entered\n\
    begin 0 all 1 42 = count 2\n commit 0 = committed 0\n deadline 0 = misfit\n\
    deadline 1 = late\n return 0 = unparked 42\n end 0 = misfit\n commit 0 = committed 1\n\
    end 0 = ended\n return 1 = misfit\n read 1 = read 1\n look 1 = unparked 42\n\
    wake 0 = woken\n wake 0 = woken\n wake 0 = misfit\n\
    steps = told register; register; enter 0 1 yes 0 timed; enter 1 1 yes 0 timed; all 1 42; \
    return 0; return 1;",
    // A wake may come after the thread has gone. This refuses a wake that changes a slot.
    "enter 0 1 yes 0 untimed = entered\n\
    begin 0 one 1 42 = unparked 1 requeued 0 more false\n commit 0 = committed 0\n\
    end 0 = ended\n return 0 = unparked 42\n retire 0 = retired\n register = number 0\n\
    enter 0 2 yes 0 untimed = entered\n wake 0 = woken\n return 0 = misfit\n list 2 = waiters 0",
    // A caller has one section at a time. There are the callers 0 and 1.
    "enter 0 1 yes 0 untimed = entered\n enter 1 2 yes 0 untimed = entered\n\
    begin 0 one 1 42 = unparked 1 requeued 0 more false\n begin 0 one 2 42 = misfit",
    "enter 0 1 yes 0 untimed = entered\n enter 1 2 yes 0 untimed = entered\n\
    begin 0 one 1 42 = unparked 1 requeued 0 more false\n\
    begin 1 one 2 42 = unparked 1 requeued 0 more false",
    "enter 0 1 yes 0 untimed = entered\n enter 1 2 yes 0 untimed = entered\n\
    begin 0 one 1 42 = unparked 1 requeued 0 more false\n begin 2 one 2 42 = misfit",
    // A section ends once all that it took have their nodes.
    "enter 0 1 yes 0 untimed = entered\n commit 0 = misfit\n end 0 = misfit\n\
    begin 0 one 1 42 = unparked 1 requeued 0 more false\n end 0 = misfit\n\
    commit 0 = committed 0\n commit 0 = misfit\n end 0 = ended\n end 0 = misfit",
    // Keys of one place share a bucket, and the key 1 has another place than 0 and 13. This refuses
    // an entry that is invalid before it is blocked.
    "enter 0 0 yes 0 untimed = entered\n begin 0 all 0 42 = count 1\n\
    begin 1 one 13 42 = blocked\n begin 1 requeue 1 13 abort 9 = blocked\n\
    enter 1 13 yes 0 untimed = blocked\n enter 1 13 no 0 untimed = blocked\n\
    enter 1 1 no 0 untimed = invalid\n enter 1 1 yes 0 untimed = entered",
];

// Five of six threads have registered, and there is one caller.
const FIVE: &str = "interleaved 6 1\n register = number 0\n register = number 1\n\
    register = number 2\n register = number 3\n register = number 4\n";

const SIZES: [&str; 3] = [
    // A growth waits for every section. This refuses a registration that grows the table while a
    // section holds a bucket, and one that is blocked though it does not grow the table.
    "begin 0 one 7 42 = unparked 0 requeued 0 more false\n register = blocked\n end 0 = ended\n\
    register = number 5\n begin 0 one 7 42 = unparked 0 requeued 0 more false\n\
    register = full\n retire 5 = retired\n register = number 5\n size = buckets 32 threads 6",
    // It waits for no late thread. This refuses a look that no reading of the key came before.
    "enter 0 13 yes 0 timed = entered\n deadline 0 = late\n look 0 = misfit\n\
    read 0 = read 13\n register = number 5\n look 0 = timed out 13 true\n\
    size = buckets 32 threads 6",
    // A trim waits for every section, and key 13 has another place of 32. This refuses a trim while
    // a section holds a bucket, and one that is blocked though the table is not too large.
    "register = number 5\n enter 0 13 yes 0 timed = entered\n retire 5 = retired\n\
    deadline 0 = late\n read 0 = read 13\n\
    begin 0 one 7 42 = unparked 0 requeued 0 more false\n trim = blocked\n\
    end 0 = ended\n trim = trimmed\n begin 0 one 7 42 = unparked 0 requeued 0 more false\n\
    trim = trimmed\n end 0 = ended\n look 0 = timed out 13 true\n size = buckets 16 threads 5",
];

#[test]
fn worked_rows_of_the_interleaved_machine_have_their_answers(rt: HostRuntime) {
    expect_rows(&rt, rt.alloc(), TWO, ROWS.as_slice());
    expect_rows(&rt, rt.alloc(), FIVE, SIZES.as_slice());
}
