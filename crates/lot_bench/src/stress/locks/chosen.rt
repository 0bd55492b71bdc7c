//! Threads that choose from several locks in one lot.

use super::deeds::{DEEDS, Deed, KINDS, count_locked, notify, notify_held, sleep};
use super::patience::{Patience, count_often};
use super::shared::{count_upgraded, count_written, hold_permits, read};
use crate::fault::{Fault, Wrong};
use crate::queue::{Notice, Queue, Things};
use crate::stress::marks;
use crate::threads::sum_of;
use parking_lot::mutex::{Fairness, MutexIn};
use parking_lot::{Condvar, FairMutex, Lot, RwLock, Semaphore};
use std::alloc::Global;
use std::sync::Wait;
use std::sync::atomic::{AtomicUsize, Ordering};
use std::thread::Threads;
use std::time::{Clock, Instant};

// How many things may be queued at once, and how many each thread puts or takes.
const ROOM: u64 = 2;

const THINGS: usize = 2_000;

// How many permits there are.
const PERMITS: usize = 3;

// The locks of a round, how many permits are lent, and how often threads counted with one. The
// mutex is the queue's.
#[derive(Drop)]
struct Locks<'a, 'l> {
    queue: &'a Queue<'l>,
    changed: &'a Condvar<'l>,
    fair: &'a FairMutex<'l, Things>,
    lock: &'a RwLock<'l, usize>,
    semaphore: &'a Semaphore<'l>,
    lent: AtomicUsize,
    permitted: AtomicUsize,
}

/// Who uses the locks.
#[derive(Clone, Copy)]
pub(super) enum Players {
    /// One thread, which does each operation with each patience. The instant has passed.
    One(Instant),

    /// So many, which draw what they do from this seed.
    Several(usize, u64),
}

/// Plays a round with so many places. Answers how often its threads counted, which is what they
/// counted.
pub(super) fn play<R: Threads + Wait + Clock + Sync>(
    rt: &R,
    alloc: Global,
    places: usize,
    players: Players,
) -> Result<usize, Fault> {
    let lot = Lot::new(alloc, places)?;
    play_on(rt, alloc, &lot, players)
}

fn play_on<R: Threads + Wait + Clock + Sync>(
    rt: &R,
    alloc: Global,
    lot: &Lot,
    players: Players,
) -> Result<usize, Fault> {
    marks::begin(alloc);
    let (queue, changed) = (Queue::new(lot, ROOM), Condvar::new(lot));
    let (fair, lock) = (FairMutex::new(lot, Things::none()), RwLock::new(lot, 0));
    let semaphore = Semaphore::new(lot, PERMITS);
    let (Ok(queue), Ok(changed), Ok(fair), Ok(lock), Ok(semaphore)) = (
        &queue, &changed, &fair, &lock, &semaphore,
    ) else {
        return Err(Fault::NoMemory);
    };
    let locks = Locks {
        queue,
        changed,
        fair,
        lock,
        semaphore,
        lent: AtomicUsize::new(0),
        permitted: AtomicUsize::new(0),
    };
    let counted = locks.count(rt, alloc, players);
    marks::end(alloc);
    locks.judge(rt, counted)
}

impl Locks<'_, '_> {
    fn count<R: Threads + Wait + Clock + Sync>(
        &self,
        rt: &R,
        alloc: Global,
        players: Players,
    ) -> Option<usize> {
        match players {
            Players::One(past) => self.act_each_way(rt, past),
            Players::Several(threads, seed) => {
                let take_part = |index: usize| self.take_part(rt, seed, index);
                sum_of(rt, alloc, threads, &take_part)
            }
        }
    }

    // Answers how often the thread of this index counted, or nothing if a lock was wrong. Even then
    // it comes to the queue, where others wait for it.
    fn take_part<R: Wait + Clock>(&self, rt: &R, seed: u64, index: usize) -> Option<usize> {
        let act = |number: u64, patience: Patience| {
            self.act(rt, DEEDS[number as usize % KINDS], patience)
        };
        let counted = count_often(rt, seed.wrapping_add(index as u64), &act);
        self.queue.pass(rt, index, THINGS, Notice::ByTurns);
        let taken = if index % 2 == 0 { 0 } else { THINGS };
        Some(counted?.wrapping_add(taken))
    }

    fn act_each_way<R: Wait + Clock>(&self, rt: &R, past: Instant) -> Option<usize> {
        let mut counted = 0usize;
        for deed in DEEDS {
            for patience in [Patience::Over, Patience::Until(past), Patience::Endless] {
                counted = counted.wrapping_add(self.act(rt, deed, patience)?);
            }
        }
        Some(counted)
    }

    // Answers how often the thread counted, or nothing if a lock was wrong.
    fn act<R: Wait + Clock>(&self, rt: &R, deed: Deed, patience: Patience) -> Option<usize> {
        let things = &self.queue.things;
        match deed {
            Deed::Lock | Deed::UnlockFair | Deed::Bump => {
                Some(count_locked(rt, things, deed, patience))
            }
            Deed::LockFair => Some(count_locked(rt, self.fair, deed, patience)),
            Deed::Sleep => Some(sleep(rt, things, self.changed, patience)),
            Deed::NotifyOne | Deed::NotifyAll => Some(notify(rt, self.changed, deed)),
            Deed::NotifyOneHeld | Deed::NotifyAllHeld => {
                Some(notify_held(rt, things, self.changed, deed))
            }
            Deed::Read => read(rt, self.lock, patience),
            Deed::Write | Deed::Downgrade | Deed::DowngradeToUpgradable => {
                count_written(rt, self.lock, deed, patience)
            }
            Deed::Upgrade => count_upgraded(rt, self.lock, patience),
            Deed::Acquire => self.count_permitted(rt, 1, patience),
            Deed::AcquireTwo => self.count_permitted(rt, 2, patience),
        }
    }

    // Counts with so many permits, and answers nothing if more were lent than there are.
    fn count_permitted<R: Wait + Clock>(
        &self,
        rt: &R,
        permits: usize,
        patience: Patience,
    ) -> Option<usize> {
        let Some(lent) = hold_permits(rt, self.semaphore, &self.lent, permits, patience) else {
            return Some(0);
        };
        self.permitted.fetch_add(1, Ordering::SeqCst);
        (lent.wrapping_add(permits) <= PERMITS).then_some(1)
    }

    // Whether the locks are around as much as was counted, with nothing queued and nothing lent.
    fn judge<R: Wait + Clock>(&self, rt: &R, counted: Option<usize>) -> Result<usize, Fault> {
        let things = value_in(rt, &self.queue.things);
        let counted_locked = things.count.wrapping_add(value_in(rt, self.fair).count);
        let sum = (counted_locked as usize)
            .wrapping_add(self.permitted.load(Ordering::SeqCst))
            .wrapping_add(*self.lock.read(rt));
        let is_free = self.semaphore.available_permits() == PERMITS;
        if counted == Some(sum) && things.queued == 0 && is_free {
            Ok(sum)
        } else {
            Err(Fault::Wrong(Wrong::Locks))
        }
    }
}

fn value_in<F: Fairness, R: Wait + Clock>(rt: &R, mutex: &MutexIn<'_, Things, F>) -> Things {
    *mutex.lock(rt)
}
