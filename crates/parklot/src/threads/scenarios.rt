//! The scenarios.

/// The scenarios in the order in which they run, with an empty line between two. The first line of
/// each is printed if it went well. Each other line is of threads: how many these are, and the acts
/// of each with `;` between two. An act has at most three numbers, and one that is left out is 0.
/// The threads register in the order in which they stand here.
///
/// `pair`: one thread parks, and the other unparks it. `single_thread_timeout`: a park with a
/// deadline that nobody unparks ends after it. `single_thread_unpark_before_sleep`: a thread that
/// unparks itself before it sleeps is back with the token. `wake_one_then_all` and
/// `wake_filter_then_all`: an unpark of one, or a filter, wakes one of two threads, and an unpark
/// of all the other. Then the threads of latches are let through, one by one and then all.
/// `two_buckets`: a call on one key does not wait for a section of a key in another bucket.
/// `fair_handover`: a fair mutex goes to those who wait in their order, and excludes.
/// `fair_notify_all`: a notify of all moves those who wait on a condition variable to its mutex, in
/// their order.
pub const SCENARIOS: &str = "\
pair unparked 1 token 42
1 sleep 7
1 wake 7 1

single_thread_timeout ok
1 time-out 7; all 7 0

single_thread_unpark_before_sleep ok
1 wake-oneself 7; wake-oneself 7 0 5

wake_one_then_all ok
1 sleep 7 0 5
1 sleep 7 1 5
1 await 2; one 7 1; all 7 1

wake_filter_then_all ok
1 sleep 7 0 5
1 sleep 7 1 5
1 await 2; filter 7 1; all 7 1

unpark_all_one ok
1 come 0
1 let-all 1 1

unpark_all_hundred ok
100 come 0
1 let-all 1 100

unpark_one_one ok
1 come 0
1 let-one 1; let-all 1 1

unpark_one_fifty ok
50 come 0
1 let-one 50; let-all 1 50

unpark_one_fifty_then_fifty_all ok
100 come 0
1 let-one 50; let-all 1 100

hundred_unpark_all_one ok
100 come own
1 let-all 100 1

two_buckets ok
1 stay-inside 1
1 await 1; all 2 0; step; await 3

fair_handover ok
1 lock; step; stand 11 1; step; stand 11 12; unlock; await 4; noted 12; step; await 9; counted 4000
1 await 1; lock; note; unlock; step
1 await 2; lock; note; unlock; step
4 await 5; count 1000; step

fair_notify_all ok
1 stand 12 1; step; stand 12 12; lock; notify; stand 11 12; unlock; await 3; noted 12
1 lock; wait; note; unlock; step
1 await 1; lock; wait; note; unlock; step";
