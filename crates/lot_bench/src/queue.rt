//! A queue with few places: threads put things into it, and others take them.

use lot_threads::NoMemory;
use parking_lot::{Condvar, Lot, Mutex};
use std::sync::Wait;
use std::time::Clock;

/// How many things are queued, and a count: of those that were taken, and of what else whoever has
/// the mutex counts.
#[derive(Clone, Copy)]
pub struct Things {
    pub queued: u64,
    pub count: u64,
}

// What a thread does with things.
#[derive(Clone, Copy)]
enum Side {
    Puts,
    Takes,
}

/// When a thread notifies another of what it put or took.
#[derive(Clone, Copy)]
pub enum Notice {
    /// Once it has let the mutex go.
    Late,

    /// The same, but before that where the thing has an even number.
    ByTurns,
}

impl Things {
    pub fn none() -> Things {
        Things {
            queued: 0,
            count: 0,
        }
    }

    pub fn count_one(&mut self) {
        self.count = self.count.wrapping_add(1);
    }

    // Whether no thing can be put, or none be taken.
    fn keep_out(&self, side: Side, places: u64) -> bool {
        match side {
            Side::Puts => self.queued == places,
            Side::Takes => self.queued == 0,
        }
    }

    fn pass_one(&mut self, side: Side) {
        match side {
            Side::Puts => self.queued = self.queued.wrapping_add(1),
            Side::Takes => {
                self.queued = self.queued.wrapping_sub(1);
                self.count_one();
            }
        }
    }
}

/// The queue, of which the things are counted alone.
#[derive(Drop)]
pub struct Queue<'l> {
    pub things: Mutex<'l, Things>,
    filled: Condvar<'l>,
    emptied: Condvar<'l>,
    // How many things may be queued at once.
    places: u64,
}

impl<'l> Queue<'l> {
    pub fn new(lot: &'l Lot, places: u64) -> Result<Queue<'l>, NoMemory> {
        Ok(Queue {
            things: Mutex::new(lot, Things::none())?,
            filled: Condvar::new(lot)?,
            emptied: Condvar::new(lot)?,
            places,
        })
    }

    /// Puts so many things, or takes as many at an odd place.
    pub fn pass<R: Wait + Clock>(&self, rt: &R, place: usize, calls: usize, notice: Notice) {
        if place % 2 == 0 {
            self.pass_all(rt, Side::Puts, calls, notice);
        } else {
            self.pass_all(rt, Side::Takes, calls, notice);
        }
    }

    // Waits on one condition before each thing, and notifies on the other after it.
    fn pass_all<R: Wait + Clock>(&self, rt: &R, side: Side, calls: usize, notice: Notice) {
        let (places, here, there) = match side {
            Side::Puts => (self.places, &self.emptied, &self.filled),
            Side::Takes => (self.places, &self.filled, &self.emptied),
        };
        for call in 0..calls {
            let is_early = |things: &mut Things| things.keep_out(side, places);
            let mut things = here.wait_while(self.things.lock(rt), is_early);
            things.pass_one(side);
            if matches!(notice, Notice::ByTurns) && call % 2 == 0 {
                there.notify_one_held(&things);
            } else {
                drop(things);
                there.notify_one(rt);
            }
        }
    }
}
