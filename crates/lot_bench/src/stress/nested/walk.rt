//! A walk: a lot that threads share and the exclusive one, side by side, and idle threads.

use super::sides::{call, free, trim};
use super::twin::{Shape, Twin};
use crate::calls::{Ended, Entry, register, retire};
use crate::fault::Fault;
use crate::stress::draws::draw_below;
use lot_simulator::schedule::{Answer, Step};
use lot_threads::{LotError, Member, ParkingLot, ThreadParkerT};
use std::alloc::Global;
use std::sync::Wait;

const MOST_CALLS: usize = 4;

const MOST_COMING: usize = 12;

// Where no thread comes any more, and most wait.
const LAST_CALLS: usize = 24;

/// The lot of threads, the one that it is compared with, and threads that are registered and idle.
#[derive(Drop)]
pub(super) struct Walk<'a, P: ThreadParkerT> {
    pub(super) lot: &'a ParkingLot<P>,
    pub(super) twin: Twin,
    idle: Vec<Member<'a, P>>,
}

impl<'a, P: ThreadParkerT> Walk<'a, P> {
    /// Begins a walk on a new lot.
    pub(super) fn new(
        alloc: Global,
        lot: &'a ParkingLot<P>,
        twin: Twin,
    ) -> Result<Walk<'a, P>, Fault> {
        let idle = Vec::with_capacity(alloc, twin.shape.0)?;
        Ok(Walk { lot, twin, idle })
    }

    /// The thread has parked, and the park ended so: it is compared, a few calls are made, or none,
    /// and the thread idles or retires.
    pub(super) fn leave<R: Wait>(
        &mut self,
        rt: &R,
        alloc: Global,
        thread: Member<'a, P>,
        ended: Ended,
    ) {
        self.twin.end(thread.number(), ended);
        if draw_below(&mut self.twin.draws, self.twin.shape.3) == 0 {
            let count = draw_below(&mut self.twin.draws, MOST_CALLS);
            self.calls(rt, alloc, count);
        }
        self.give_thread(rt, thread);
    }

    fn calls<R: Wait>(&mut self, rt: &R, alloc: Global, count: usize) {
        for _ in 0..count {
            match draw_below(&mut self.twin.draws, 16) {
                12 => self.come(rt, alloc),
                13 => self.go(rt),
                kind => call(rt, alloc, self.lot, &mut self.twin, kind),
            }
        }
    }

    // More threads register, and are idle.
    fn come<R: Wait>(&mut self, rt: &R, alloc: Global) {
        for _ in 0..draw_below(&mut self.twin.draws, MOST_COMING) {
            if let Some(thread) = self.register(rt, alloc) {
                self.give_thread(rt, thread);
            }
        }
    }

    // Idle threads retire, and then the table has more buckets than it needs.
    fn go<R: Wait>(&mut self, rt: &R) {
        let most = self.idle.len().saturating_add(1);
        for _ in 0..draw_below(&mut self.twin.draws, most) {
            if let Some(thread) = self.idle.pop() {
                self.retire(rt, thread);
            }
        }
        trim(rt, self.lot, &mut self.twin);
    }

    /// A thread for the next park: one that is idle, or one that registers now. If there is to be
    /// none, many calls are made.
    pub(super) fn next_thread<R: Wait>(&mut self, rt: &R, alloc: Global) -> Option<Member<'a, P>> {
        let thread = if self.twin.starts_park() {
            self.take_thread(rt, alloc)
        } else {
            None
        };
        if thread.is_none() {
            self.calls(rt, alloc, LAST_CALLS);
        }
        thread
    }

    fn take_thread<R: Wait>(&mut self, rt: &R, alloc: Global) -> Option<Member<'a, P>> {
        if draw_below(&mut self.twin.draws, 2) == 0
            && let Some(thread) = self.idle.pop()
        {
            return Some(thread);
        }
        match self.register(rt, alloc) {
            Some(thread) => Some(thread),
            None => self.idle.pop(),
        }
    }

    // Registers a thread with both lots.
    fn register<R: Wait>(&mut self, rt: &R, alloc: Global) -> Option<Member<'a, P>> {
        let (answer, thread) = match register(rt, alloc, self.lot) {
            Ok(thread) => (Answer::Registered(thread.number()), Some(thread)),
            Err(LotError::Full) => (Answer::Full, None),
            Err(_) => (Answer::NoMemory, None),
        };
        self.twin.expect(Step::Register, answer);
        thread
    }

    // Retires a thread from both lots.
    fn retire<R: Wait>(&mut self, rt: &R, member: Member<'a, P>) {
        let thread = member.number();
        retire(rt, member);
        self.twin.expect(Step::Retire { thread }, Answer::Retired);
    }

    // Keeps the thread for later, or retires it.
    fn give_thread<R: Wait>(&mut self, rt: &R, thread: Member<'a, P>) {
        let is_leaving = draw_below(&mut self.twin.draws, 4) == 0;
        if is_leaving || self.idle.len() == self.idle.capacity() {
            self.retire(rt, thread);
        } else {
            let _ = self.idle.push(thread);
        }
    }

    /// Unparks the thread that entered so, if it would wait for ever.
    pub(super) fn free<R: Wait>(&mut self, rt: &R, thread: usize, entry: Entry) {
        free(rt, self.lot, &mut self.twin, thread, entry);
    }
}
