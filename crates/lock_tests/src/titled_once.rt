//! Tests of `TitledOnce`, in lots with room for all that wait, for one and for none.

use crate::stage::{Host, ROOMS, expect, new_titled_lot};
use parking_lot::{TitledLot, TitledOnce};
use std::sync::Wait;
use std::sync::atomic::{AtomicUsize, Ordering};
use std::thread;
use std::time::Clock;

// What four threads share: the once, and how often a closure has run.
#[derive(Drop)]
struct Shared<'l> {
    once: TitledOnce<'l>,
    runs: AtomicUsize,
}

// Asks for the closure, and answers whether one has run then, and no other.
fn ask<R: Wait + Clock>(rt: &R, shared: &Shared<'_>) -> bool {
    shared.once.call_once(rt, |_begun| {
        thread::yield_now();
        shared.runs.fetch_add(1, Ordering::SeqCst);
    });
    shared.once.wait(rt);
    shared.once.is_completed() && shared.runs.load(Ordering::SeqCst) == 1
}

fn ask_in_four<R: Host>(rt: &R, shared: &Shared<'_>) -> bool {
    let two = || {
        let (one, other) = thread::join(rt, &|| ask(rt, shared), &|| ask(rt, shared));
        one && other
    };
    let (one, other) = thread::join(rt, &two, &two);
    one && other
}

fn runs_once<R: Host>(rt: &R, lot: &TitledLot) {
    let shared = Shared {
        once: TitledOnce::new(rt, lot).expect(rt, "a once"),
        runs: AtomicUsize::new(0),
    };
    expect(rt, !shared.once.is_completed(), "nobody has begun");
    expect(rt, ask_in_four(rt, &shared), "one has run");
}

// Nobody is forgotten, and nobody goes on before a closure has run.
#[test]
fn threads_wait_for_the_closure_of_a_titled_once(rt: HostRuntime) {
    for room in ROOMS {
        let lot = new_titled_lot(&rt, room);
        for _ in 0..20u32 {
            runs_once(&rt, lot);
        }
    }
}
