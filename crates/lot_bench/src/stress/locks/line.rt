//! Threads that pass things on under a titled mutex, and wait on titled condition variables.

use super::patience::MOMENT;
use crate::fault::{Fault, Wrong};
use crate::threads::sum_of;
use parking_lot::{NoMemory, TitledCondvar, TitledLot, TitledMutex, TitledMutexGuard};
use std::alloc::Global;
use std::sync::Wait;
use std::thread::Threads;
use std::time::{Clock, Duration};

// How many things a line has at most, and how many each thread puts or takes.
const ROOM: usize = 2;

const THINGS: usize = 500;

// Things that are only counted. Threads wait until one is put, or taken.
#[derive(Drop)]
struct Line<'l> {
    things: TitledMutex<'l, usize>,
    filled: TitledCondvar<'l>,
    freed: TitledCondvar<'l>,
}

type Things<'x, 'l, R> = TitledMutexGuard<'x, 'x, 'l, usize, R>;

/// Lets half of the threads put things, and half take them, and answers how many they passed on.
pub(super) fn play<R: Threads + Wait + Clock + Sync>(
    rt: &R,
    alloc: Global,
    lot: &TitledLot,
    threads: usize,
) -> Result<usize, Fault> {
    let line = Line::new(rt, lot)?;
    let pass = |index: usize| line.pass(rt, index);
    let passed = sum_of(rt, alloc, threads, &pass);
    let left = *line.things.lock(rt);
    match passed {
        Some(sum) if left == 0 => Ok(sum),
        _ => Err(Fault::Wrong(Wrong::Line)),
    }
}

impl<'l> Line<'l> {
    fn new<R: Wait>(rt: &R, lot: &'l TitledLot) -> Result<Line<'l>, NoMemory> {
        Ok(Line {
            things: TitledMutex::new(rt, lot, 0)?,
            filled: TitledCondvar::new(rt, lot)?,
            freed: TitledCondvar::new(rt, lot)?,
        })
    }

    fn pass<R: Wait + Clock>(&self, rt: &R, index: usize) -> Option<usize> {
        for call in 0..THINGS {
            if index % 2 == 0 {
                self.put(rt, call);
            } else {
                self.take(rt, call);
            }
        }
        Some(THINGS)
    }

    fn put<R: Wait + Clock>(&self, rt: &R, call: usize) {
        let things = sleep_at_times(&self.freed, self.things.lock(rt), call);
        let mut things = self
            .freed
            .wait_while(things, |things: &mut usize| *things >= ROOM);
        *things = things.wrapping_add(1);
        drop(things);
        self.filled.notify_one(rt);
    }

    fn take<R: Wait + Clock>(&self, rt: &R, call: usize) {
        let things = sleep_at_times(&self.filled, self.things.lock(rt), call);
        let mut things = self
            .filled
            .wait_while(things, |things: &mut usize| *things == 0);
        *things = things.wrapping_sub(1);
        drop(things);
        if call % 16 == 0 {
            self.freed.notify_all(rt);
        } else {
            self.freed.notify_one(rt);
        }
    }
}

// Waits for a moment before every eighth thing, whether or not there is a reason to.
fn sleep_at_times<'x, 'l, R: Wait + Clock>(
    condvar: &TitledCondvar<'_>,
    things: Things<'x, 'l, R>,
    call: usize,
) -> Things<'x, 'l, R> {
    if call % 8 == 0 {
        condvar.wait_for(things, Duration::from_micros(MOMENT)).0
    } else {
        things
    }
}
