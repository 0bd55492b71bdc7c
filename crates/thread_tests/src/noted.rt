//! A thread whose key is noted in a section, and which another moves as soon as that ends.

use crate::played::goes_well;

// The one that moves the thread comes a little later in each round.
const ROUNDS: usize = 32;

// It refuses a park that notes its key once it has let the bucket go, and woken whoever slept
// there. In some rounds a requeue that comes meanwhile notes the new key first then, and the thread
// looks for itself in its old queue for ever.
#[test]
fn a_park_notes_its_key_before_it_lets_its_bucket_go(rt: HostRuntime) {
    let scene = "
        thread
        validate: raise inside; sleep 100; raise leaving
        before_sleep: await moved
        park 1 past -> timed_out 2 last
        caller
        await inside
        list 1
        caller
        await leaving
        spin $0
        move 1 2
        move 1 2
        raise moved
    ";
    for round in 0..ROUNDS {
        goes_well(&rt, scene, &[round]);
    }
}

// It refuses a requeue that notes the key so late.
#[test]
fn a_requeue_notes_the_key_before_it_lets_the_bucket_go(rt: HostRuntime) {
    let scene = "
        thread
        before_sleep: raise entered; await moved
        park 1 past -> timed_out 3 last
        caller
        await entered
        validate: raise inside; sleep 100; raise leaving
        requeue 1 2 requeue_all 42 -> 0 1
        caller
        await inside
        list 2
        caller
        await leaving
        spin $0
        move 2 3 -> 1
        raise moved
    ";
    for round in 0..ROUNDS {
        goes_well(&rt, scene, &[round]);
    }
}
