//! This module has a parker that holds its thread up before a park, or holds up the thread that
//! wakes it.

use crate::waits::comes_within;
use lot_threads::{
    Letter, NoMemory, Node, ParkerKey, ParkerT, Payload, UnparkHandleT, YieldHandle, YieldParker,
};
use std::alloc::Global;
use std::sync::Wait;
use std::sync::atomic::{AtomicBool, AtomicUsize, Ordering};
use std::time::{Clock, Instant};
use std::{hint, thread};

/// A thread that is unparked from this key is held up before its next park.
pub const GATE: usize = 1;

// Some tens of milliseconds of a processor, and some times in which others go on.
const SPINS: usize = 1_000_000;

const SPINS_AT_ONCE: usize = 50_000;

// So often whoever wakes a thread yields before it goes on.
const TURNS: usize = 1_000_000;

/// A `FollowedParker` is a `YieldParker` that gives other threads time to act at two points.
///
/// A thread that unparks another from the gate goes on when that one prepares to park again, which
/// takes it long. So it can act between what the other does before its park and the park itself. A
/// thread that is the first to unpark thread 0 from another key goes on when thread 0 has parked
/// again. So other threads can act between the section of an unpark and what comes after it.
#[derive(Drop)]
pub struct FollowedParker {
    parker: YieldParker,
    is_followed: AtomicBool,
    is_held_up: AtomicBool,
    prepared: AtomicUsize,
    parked: AtomicUsize,
}

impl FollowedParker {
    // How often the thread is to have prepared to park, and to have parked, before whoever unparks
    // it from this key goes on.
    fn turns_after(&self, key: usize) -> (usize, usize) {
        if key == GATE {
            self.is_held_up.store(true, Ordering::SeqCst);
            return (one_more(&self.prepared), 0);
        }
        if self.is_followed.swap(false, Ordering::SeqCst) {
            return (0, one_more(&self.parked));
        }
        (0, 0)
    }
}

fn one_more(count: &AtomicUsize) -> usize {
    count.load(Ordering::SeqCst).wrapping_add(1)
}

impl ParkerT for FollowedParker {
    type Payload = Letter;

    type UnparkHandle = FollowedHandle;

    const IS_CHEAP_TO_CONSTRUCT: bool = true;

    ghost owner = { λ followed. ⟦<YieldParker as ParkerT>⟧.owner followed.parker };

    ghost home = { λ followed. ⟦<YieldParker as ParkerT>⟧.home followed.parker };

    fn new(
        alloc: Global,
        key: &ParkerKey<<Letter as Payload>::Home>,
    ) -> Result<FollowedParker, NoMemory> {
        Ok(FollowedParker {
            parker: YieldParker::new(alloc, key)?,
            is_followed: AtomicBool::new(key.number == 0),
            is_held_up: AtomicBool::new(false),
            prepared: AtomicUsize::new(0),
            parked: AtomicUsize::new(0),
        })
    }

    fn prepare_park(&self) {
        self.prepared.fetch_add(1, Ordering::SeqCst);
        if !self.is_held_up.swap(false, Ordering::SeqCst) {
            return;
        }
        for spin in 0..SPINS {
            hint::spin_loop();
            if spin % SPINS_AT_ONCE == 0 {
                thread::yield_now();
            }
        }
    }

    fn timed_out<R: Wait>(&self, rt: &R) -> bool {
        self.parker.timed_out(rt)
    }

    fn park<R: Wait>(&self, rt: &R) -> (Box<Node>, Letter) {
        self.parked.fetch_add(1, Ordering::SeqCst);
        self.parker.park(rt)
    }

    fn park_until<R: Wait + Clock>(&self, rt: &R, timeout: Instant) -> Option<(Box<Node>, Letter)> {
        self.parked.fetch_add(1, Ordering::SeqCst);
        self.parker.park_until(rt, timeout)
    }

    fn unpark_lock<R: Wait>(&self, rt: &R, node: Box<Node>, payload: Letter) -> FollowedHandle {
        let (prepared, parked) = self.turns_after(node.key);
        FollowedHandle {
            handle: self.parker.unpark_lock(rt, node, payload),
            prepared,
            parked,
        }
    }
}

/// A `FollowedHandle` stands for what is left to do after an unpark.
#[derive(Drop)]
pub struct FollowedHandle {
    handle: YieldHandle,

    // How often the thread is to prepare to park, and to park, before whoever woke it goes on.
    prepared: usize,
    parked: usize,
}

impl UnparkHandleT<FollowedParker> for FollowedHandle {
    ghost number = { λ followed.
        ⟦<YieldHandle as UnparkHandleT<YieldParker>>⟧.number followed.handle };

    fn number(&self) -> usize {
        UnparkHandleT::<YieldParker>::number(&self.handle)
    }

    fn unpark(self, parker: &FollowedParker) {
        self.handle.unpark(&parker.parker);
        comes_within(TURNS, &parker.prepared, self.prepared);
        comes_within(TURNS, &parker.parked, self.parked);
    }
}
