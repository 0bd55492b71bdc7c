//! Producers and consumers at a queue with an end, in rows as upstream has them from WebKit: with a
//! hundredth of the messages or fewer, so that they end soon. The queue is its length: a message
//! that is lost, or taken twice, leaves a length that is not 0, or a thread that waits for ever.

use crate::mutex::play;
use crate::stage::{Host, ROOM};
use parking_lot::mutex::Barging;
use test_support::player::Script;

// A row's numbers: producers, consumers, the length at the end, that length but one, and the
// messages of each producer and of each consumer.
const NOTIFY_ALL: &str = "# Whoever changes what others wait for notifies all.
leaves 0
thread $0
repeat $4 mutex lock ; other_condvar wait_while is $2 ; guard add 1 ; guard unlock ; \
condvar notify_all_after 1 -> any
thread $1
repeat $5 mutex lock ; condvar wait_while is 0 ; guard take 1 ; guard unlock ; \
other_condvar notify_all_after $3 -> any";

const NOTIFY_ONE: &str = "# Whoever changes the queue notifies one.
leaves 0
thread $0
repeat $4 mutex lock ; other_condvar wait_while is $2 ; guard add 1 ; guard unlock ; \
condvar notify_one -> any
thread $1
repeat $5 mutex lock ; condvar wait_while is 0 ; guard take 1 ; guard unlock ; \
other_condvar notify_one -> any";

const WITH_A_DEADLINE: &str = "# Whoever waits looks again after a time.
leaves 0
thread $0
repeat $4 mutex lock ; other_condvar wait_while_for long is $2 ; guard add 1 ; guard unlock ; \
condvar notify_all_after 1 -> any
thread $1
repeat $5 mutex lock ; condvar wait_while_for long is 0 ; guard take 1 ; guard unlock ; \
other_condvar notify_all_after $3 -> any";

fn play_rows<R: Host>(rt: &R, text: &str, rows: &[[usize; 6]]) {
    for values in rows {
        let script = Script {
            text,
            values: values.as_slice(),
        };
        play::<Barging, R>(rt, ROOM, &script);
    }
}

#[test]
fn rows_of_a_queue_that_notify_all(rt: HostRuntime) {
    let rows = [
        // one_producer_one_consumer_one_slot
        [1, 1, 1, 0, 1000, 1000],
        // new_test_without_timeout_5
        [1, 5, 1, 0, 1000, 200],
        // one_producer_one_consumer_hundred_slots
        [1, 1, 100, 99, 10_000, 10_000],
        // ten_producers_one_consumer_one_slot
        [10, 1, 1, 0, 100, 1000],
        // ten_producers_one_consumer_hundred_slots_notify_all
        [10, 1, 100, 99, 100, 1000],
        // one_producer_ten_consumers_one_slot
        [1, 10, 1, 0, 100, 10],
        // one_producer_ten_consumers_hundred_slots_notify_all
        [1, 10, 100, 99, 1000, 100],
        // ten_producers_ten_consumers_one_slot
        [10, 10, 1, 0, 100, 100],
        // ten_producers_ten_consumers_hundred_slots_notify_all
        [10, 10, 100, 99, 500, 500],
    ];
    play_rows(&rt, NOTIFY_ALL, &rows);
}

#[test]
fn rows_of_a_queue_that_notify_one(rt: HostRuntime) {
    let rows = [
        // ten_producers_one_consumer_hundred_slots_notify_one
        [10, 1, 100, 99, 100, 1000],
        // one_producer_ten_consumers_hundred_slots_notify_one
        [1, 10, 100, 99, 1000, 100],
        // ten_producers_ten_consumers_hundred_slots_notify_one
        [10, 10, 100, 99, 500, 500],
    ];
    play_rows(&rt, NOTIFY_ONE, &rows);
}

// `sanity_check_queue`, `sanity_check_queue_timeout`, `one_producer_one_consumer_one_slot_timeout`.
#[test]
fn row_of_a_queue_with_a_deadline(rt: HostRuntime) {
    play_rows(&rt, WITH_A_DEADLINE, &[[1, 1, 1, 0, 1000, 1000]]);
}
