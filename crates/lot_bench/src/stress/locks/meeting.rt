//! What threads do that meet at a barrier, with a `Once` for each round and a reentrant mutex.

use super::patience::Patience;
use crate::fault::{Fault, Wrong};
use parking_lot::barrier::{PartiesIn, PartyIn};
use parking_lot::once::OnceIn;
use parking_lot::phaser::Phaser;
use parking_lot::{Barrier, Lot, Once, ReentrantMutex, TitledBarrier, TitledLot, TitledOnce};
use std::alloc::Global;
use std::sync::Wait;
use std::sync::atomic::{AtomicU64, AtomicUsize, Ordering};
use std::thread;
use std::thread::Threads;
use std::time::Clock;

// How often the threads meet.
const MEETINGS: usize = 200;

// What the threads share: a `Once` for each meeting, how many of those have run, a count that is
// not added to in one step, how many threads have led a meeting, and the next thread's seed.
#[derive(Drop)]
struct Meeting<'a, 'm, 'l, P: Phaser> {
    onces: &'a [OnceIn<P>],
    ran: AtomicUsize,
    mutex: &'m ReentrantMutex<'l, AtomicUsize>,
    led: AtomicUsize,
    seed: AtomicU64,
}

/// Lets so many threads meet again and again, in a lot with so many places, and answers how often
/// they counted. Each number of places and threads comes with each kind of barrier by turns.
pub(super) fn play<R: Threads + Wait + Clock + Sync>(
    rt: &R,
    alloc: Global,
    places: usize,
    threads: usize,
    seed: u64,
) -> Result<usize, Fault> {
    let lot = Lot::new(alloc, places)?;
    let mutex = ReentrantMutex::new(&lot, AtomicUsize::new(0))?;
    if seed / 12 % 2 == 0 {
        meet(rt, alloc, &lot, &mutex, threads, seed)
    } else {
        let titled = TitledLot::new(alloc, places)?;
        meet_with_titles(rt, alloc, &titled, &mutex, threads, seed)
    }
}

fn meet<R: Threads + Wait + Clock + Sync>(
    rt: &R,
    alloc: Global,
    lot: &Lot,
    mutex: &ReentrantMutex<'_, AtomicUsize>,
    threads: usize,
    seed: u64,
) -> Result<usize, Fault> {
    let mut onces = Vec::with_capacity(alloc, MEETINGS)?;
    for _ in 0..MEETINGS {
        onces.push(Once::new(lot)?)?;
    }
    let mut barrier = Barrier::new(lot, threads)?;
    let meeting = Meeting::new(&onces, mutex, seed);
    let parties = all_of(alloc, barrier.parties())?;
    let take_part = |mut party| meeting.take_part(rt, &mut party);
    let counted = thread::map_vec(rt, parties, &take_part)?;
    meeting.judge(rt, sum_of(counted))
}

fn meet_with_titles<R: Threads + Wait + Clock + Sync>(
    rt: &R,
    alloc: Global,
    lot: &TitledLot,
    mutex: &ReentrantMutex<'_, AtomicUsize>,
    threads: usize,
    seed: u64,
) -> Result<usize, Fault> {
    let mut onces = Vec::with_capacity(alloc, MEETINGS)?;
    for _ in 0..MEETINGS {
        onces.push(TitledOnce::new(rt, lot)?)?;
    }
    let mut barrier = TitledBarrier::new(rt, lot, threads)?;
    let meeting = Meeting::new(&onces, mutex, seed);
    let parties = all_of(alloc, barrier.parties())?;
    let take_part = |mut party| meeting.take_part(rt, &mut party);
    let counted = thread::map_vec(rt, parties, &take_part)?;
    meeting.judge(rt, sum_of(counted))
}

fn all_of<'a, P: Phaser>(
    alloc: Global,
    left: PartiesIn<'a, P>,
) -> Result<Vec<PartyIn<'a, P>>, Fault> {
    let mut parties = Vec::new(alloc);
    for party in left {
        parties.push(party)?;
    }
    Ok(parties)
}

// How often all threads counted, or nothing if one of them found something wrong.
fn sum_of(counted: Vec<Option<usize>>) -> Option<usize> {
    let mut sum = Some(0usize);
    for more in counted {
        sum = added(sum, more);
    }
    sum
}

impl<'a, 'm, 'l, P: Phaser> Meeting<'a, 'm, 'l, P> {
    fn new(
        onces: &'a [OnceIn<P>],
        mutex: &'m ReentrantMutex<'l, AtomicUsize>,
        seed: u64,
    ) -> Meeting<'a, 'm, 'l, P> {
        Meeting {
            onces,
            ran: AtomicUsize::new(0),
            mutex,
            led: AtomicUsize::new(0),
            seed: AtomicU64::new(seed),
        }
    }

    // Even if it finds something wrong it comes to each meeting, where others wait for it.
    fn take_part<R: Wait + Clock>(&self, rt: &R, party: &mut PartyIn<'_, P>) -> Option<usize> {
        let mut draws = self.seed.fetch_add(1, Ordering::SeqCst);
        let mut counted = Some(0usize);
        for (before, once) in self.onces.iter().enumerate() {
            let has_run = self.has_run(rt, once, before);
            let more = self.count_one(rt, Patience::drawn(rt, &mut draws));
            counted = added(counted, if has_run { more } else { None });
            if party.wait(rt).is_leader() {
                self.led.fetch_add(1, Ordering::SeqCst);
            }
        }
        counted
    }

    // Whether this `Once` has run when its call returns, and no other since those before it.
    fn has_run<R: Wait + Clock>(&self, rt: &R, once: &OnceIn<P>, before: usize) -> bool {
        once.call_once(rt, |_begun| {
            thread::yield_now();
            self.ran.fetch_add(1, Ordering::SeqCst);
        });
        self.ran.load(Ordering::SeqCst) == before.wrapping_add(1)
    }

    // Counts if it gets the mutex in time, under two guards. The clock may not have been read.
    fn count_one<R: Wait + Clock>(&self, rt: &R, patience: Option<Patience>) -> Option<usize> {
        let owner = self.mutex.owner();
        let found = match patience? {
            Patience::Over => self.mutex.try_lock(rt, &owner),
            Patience::Until(deadline) => self.mutex.lock_until(rt, &owner, deadline),
            Patience::Endless => Some(self.mutex.lock(rt, &owner)),
        };
        let Some(outer) = found else {
            return Some(0);
        };
        let before = outer.load(Ordering::SeqCst);
        let inner = self.mutex.try_lock(rt, &owner)?;
        thread::yield_now();
        inner.store(before.wrapping_add(1), Ordering::SeqCst);
        Some(1)
    }

    // Whether as much was counted as the threads say, and each meeting had one leader.
    fn judge<R: Wait + Clock>(&self, rt: &R, counted: Option<usize>) -> Result<usize, Fault> {
        let sum = self
            .mutex
            .lock(rt, &self.mutex.owner())
            .load(Ordering::SeqCst);
        let led = self.led.load(Ordering::SeqCst);
        if counted == Some(sum) && led == MEETINGS {
            Ok(sum)
        } else {
            Err(Fault::Wrong(Wrong::Meeting))
        }
    }
}

fn added(sum: Option<usize>, more: Option<usize>) -> Option<usize> {
    Some(sum?.wrapping_add(more?))
}
