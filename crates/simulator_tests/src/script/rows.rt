//! Worked rows. The threads a, b, c and d are 0, 1, 2 and 3, and the keys 0 and 13 have place 0 in
//! a table of 16.

use crate::player::expect_rows;

// Four of six threads have registered.
const BEFORE: &str = "lot 6 = ok\n register = number 0\n register = number 1\n\
    register = number 2\n register = number 3\n";

const ROWS: [&str; 12] = [
    // Threads register by number, and the seventh is refused.
    "size = buckets 16 threads 4\n register = number 4\n size = buckets 16 threads 5\n\
    register = number 5\n size = buckets 32 threads 6\n register = full\n\
    size = buckets 32 threads 6\n retire 6 = misfit\n retire 2 = retired\n register = number 2",
    // The first waiter of a key gets the token. A bucket that is not empty may have none.
    "enter 0 7 yes 0 untimed = entered\n one 7 42 = unparked 1 requeued 0 more false\n\
    list 7 = waiters\n return 0 = unparked 42\n return 0 = misfit",
    "enter 0 0 yes 0 untimed = entered\n enter 1 13 yes 0 untimed = entered\n\
    one 0 42 = unparked 1 requeued 0 more false\n list 0 = waiters\n list 13 = waiters 1\n\
    return 0 = unparked 42",
    "enter 2 7 yes 0 untimed = entered\n enter 0 7 yes 0 untimed = entered\n\
    enter 1 7 yes 0 untimed = entered\n one 7 42 = unparked 1 requeued 0 more true\n\
    list 7 = waiters 0 1\n return 2 = unparked 42",
    // An untimed waiter stays until it is handed a token.
    "enter 0 1 yes 0 untimed = entered\n deadline 0 = misfit\n retire 0 = misfit\n\
    all 1 18446744073709551615 = count 1\n return 0 = unparked 18446744073709551615\n\
    retire 0 = retired",
    // Only a running thread enters.
    "enter 0 7 no 0 untimed = invalid\n enter 0 7 yes 0 untimed = entered\n\
    enter 0 7 yes 0 untimed = misfit\n enter 4 7 yes 0 untimed = misfit\n list 7 = waiters 0",
    // A thread has records of what it holds.
    "acquire 0 5 = recorded\n acquire 0 5 = recorded\n acquire 0 7 = recorded\n\
    release 0 5 = released\n release 0 9 = released\n enter 0 9 yes 1 timed = entered\n\
    acquire 0 5 = misfit\n release 0 5 = misfit\n records 0 5 = records 1\n\
    records 0 7 = records 1\n records 0 9 = records 0\n records 6 5 = records 0\n\
    deadline 0 = late\n resolve 0 = timed out 9 true\n retire 0 = retired\n\
    records 0 5 = records 0",
    // Growth and trims keep the waiters of each key. Six threads need 32 buckets, and five 16.
    "enter 0 0 yes 0 untimed = entered\n enter 1 13 yes 0 untimed = entered\n\
    enter 2 0 yes 0 untimed = entered\n register = number 4\n register = number 5\n\
    trim = trimmed\n size = buckets 32 threads 6\n list 0 = waiters 0 2\n list 13 = waiters 1\n\
    retire 5 = retired\n trim = trimmed\n size = buckets 16 threads 5\n list 0 = waiters 0 2\n\
    list 13 = waiters 1\n trim = trimmed\n register = number 5\n size = buckets 32 threads 6",
    // A deadline that passes first, one that an unpark overtakes, and one behind a requeue.
    "enter 0 1 yes 0 timed = entered\n resolve 0 = misfit\n deadline 0 = late\n\
    resolve 0 = timed out 1 true\n all 1 42 = count 0",
    "enter 0 1 yes 0 timed = entered\n enter 1 1 yes 0 timed = entered\n deadline 0 = late\n\
    resolve 0 = timed out 1 false\n list 1 = waiters 1",
    "enter 0 1 yes 0 timed = entered\n deadline 0 = late\n\
    one 1 42 = unparked 1 requeued 0 more false\n resolve 0 = unparked 42\n\
    resolve 0 = misfit",
    "enter 0 1 yes 0 timed = entered\n enter 1 1 yes 0 timed = entered\n\
    requeue 1 2 all 9 = unparked 0 requeued 2 more false\n deadline 0 = late\n\
    resolve 0 = timed out 2 false\n all 1 9 = count 0\n all 2 9 = count 1",
];

// The first three wait on the key 1, and the last one on 2.
const WAITING: &str = "lot 4 = ok\n register = number 0\n register = number 1\n\
    register = number 2\n register = number 3\n enter 0 1 yes 0 untimed = entered\n\
    enter 1 1 yes 0 untimed = entered\n enter 2 1 yes 0 untimed = entered\n\
    enter 3 2 yes 0 untimed = entered\n";

const UNPARKS: [&str; 13] = [
    // A filter leaves whom it skips and whom it does not see, and is not asked for nobody.
    "filter 1 SUX 42 = unparked 1 requeued 0 more true\n list 1 = waiters 0 2\n\
    return 1 = unparked 42",
    "filter 1 X 42 = unparked 0 requeued 0 more true\n list 1 = waiters 0 1 2",
    "filter 1 UX 42 = unparked 1 requeued 0 more true\n list 1 = waiters 1 2\n\
    return 0 = unparked 42",
    "filter 1 U 42 = unparked 1 requeued 0 more true\n list 1 = waiters 1 2",
    "filter 3 UX 42 = unparked 0 requeued 0 more false\n list 1 = waiters 0 1 2",
    // To the key 2 the moved come behind those who wait there, to their own behind those left.
    "requeue 1 2 one-rest 9 = unparked 1 requeued 2 more false\n list 1 = waiters\n\
    list 2 = waiters 3 1 2\n return 0 = unparked 9\n filter 2 SUX 4 = unparked 1 requeued 0 \
    more true\n list 2 = waiters 3 2\n return 1 = unparked 4",
    "requeue 1 2 abort 9 = unparked 0 requeued 0 more false\n list 1 = waiters 0 1 2\n\
    list 2 = waiters 3",
    "requeue 4 2 all 9 = unparked 0 requeued 0 more false\n list 2 = waiters 3",
    "requeue 1 2 all 9 = unparked 0 requeued 3 more false\n list 2 = waiters 3 0 1 2",
    "requeue 1 2 one 9 = unparked 1 requeued 0 more true\n list 1 = waiters 1 2",
    "requeue 1 1 requeue-one 9 = unparked 0 requeued 1 more true\n list 1 = waiters 1 2 0",
    "requeue 2 2 requeue-one 9 = unparked 0 requeued 1 more false\n list 2 = waiters 3",
    "requeue 1 1 all 9 = unparked 0 requeued 3 more false\n list 1 = waiters 0 1 2",
];

const WHOLE: [&str; 2] = [
    // Each form of a line has its answers, those that the other rows do not have.
    "lot 2 = ok\n register = number 0\n register = number 1\n retire 1 = retired\n\
        retire 1 = misfit\n enter 0 7 no 5 timed = invalid\n enter 0 7 yes 5 timed = entered\n\
        enter 0 7 yes 5 timed = misfit\n all 8 1 = count 0\n\
        all 7 18446744073709551615 = count 1\n deadline 0 = misfit\n\
        resolve 0 = unparked 18446744073709551615\n resolve 0 = misfit\n register = number 1\n\
        enter 0 3 yes 0 timed = entered\n enter 1 3 yes 0 timed = entered\n deadline 1 = late\n\
        resolve 1 = timed out 3 false\n filter 3 - 0 = unparked 0 requeued 0 more true\n\
        requeue 3 4 abort 0 = unparked 0 requeued 0 more false\n\
        requeue 3 4 all 0 = unparked 0 requeued 1 more false\n\
        requeue 4 3 requeue-one 0 = unparked 0 requeued 1 more false\n\
        requeue 3 4 one 8 = unparked 1 requeued 0 more false\n return 0 = unparked 8\n\
        return 5 = misfit",
    // Steps that do not fit are answered, and the lot goes on.
    "lot 1 = ok\n return 0 = misfit\n register = number 0\n return 0 = misfit\n\
        enter 0 7 yes 5 timed = entered\n retire 0 = misfit\n resolve 0 = misfit\n\
        enter 0 8 yes 5 timed = misfit\n list 8 = waiters\n list 7 = waiters 0\n\
        one 7 42 = unparked 1 requeued 0 more false\n list 7 = waiters\n deadline 0 = misfit\n\
        return 0 = unparked 42\n retire 0 = retired\n register = number 0\n register = full",
];

#[test]
fn worked_rows_have_their_answers(rt: HostRuntime) {
    expect_rows(&rt, rt.alloc(), BEFORE, ROWS.as_slice());
    expect_rows(&rt, rt.alloc(), WAITING, UNPARKS.as_slice());
    expect_rows(&rt, rt.alloc(), "", WHOLE.as_slice());
}
