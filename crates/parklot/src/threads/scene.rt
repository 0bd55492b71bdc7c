//! What the threads of a scenario share, and the acts that any thread can do on it.

use crate::threads::fair_condvar::FairCondvar;
use crate::threads::fair_mutex::FairMutex;
use crate::threads::latch::{Latch, let_all_through, let_one_by_one};
use crate::threads::turns::{TURNS, comes_to};
use lot_threads::{
    FilterOp, ParkToken, ParkingLot, ThreadParkerT, UnparkResult, UnparkToken, unpark_all,
    unpark_chosen, unpark_one,
};
use std::alloc::Global;
use std::sync::Wait;
use std::sync::atomic::{AtomicUsize, Ordering};
use std::thread;
use std::time::Clock;

// How many threads the lot is for.
const MAX_THREADS: usize = 128;

const LATCHES: usize = 100;

const MUTEX_KEY: usize = 11;

const CONDVAR_KEY: usize = 12;

/// The token of the unparks of a scenario, but for those of latches.
pub const TOKEN: UnparkToken = UnparkToken(42);

/// A lot, latches, a fair mutex with its condition variable, and what threads note.
#[derive(Drop)]
pub struct Scene<P: ThreadParkerT> {
    pub lot: ParkingLot<P>,
    pub latches: Vec<Latch>,
    pub mutex: FairMutex,
    pub condvar: FairCondvar,

    /// How many threads have registered.
    pub come: AtomicUsize,

    /// How many have come to the end of their part.
    pub done: AtomicUsize,

    // How many steps threads have made, of which they tell each other.
    steps: AtomicUsize,

    // The key whose last waiter was late.
    late_key: AtomicUsize,

    // The numbers noted so far, the first of them the highest digit.
    noted: AtomicUsize,

    // How often threads have counted.
    counted: AtomicUsize,
}

impl<P: ThreadParkerT> Scene<P> {
    pub fn new(alloc: Global) -> Option<Scene<P>> {
        Some(Scene {
            lot: ParkingLot::<P>::new(alloc, MAX_THREADS).ok()?,
            latches: all_latches(alloc)?,
            mutex: FairMutex::new(MUTEX_KEY),
            condvar: FairCondvar::new(CONDVAR_KEY),
            come: AtomicUsize::new(0),
            done: AtomicUsize::new(0),
            steps: AtomicUsize::new(0),
            late_key: AtomicUsize::new(0),
            noted: AtomicUsize::new(0),
            counted: AtomicUsize::new(0),
        })
    }

    // Tells the others that this thread is one step further.
    fn step(&self) {
        self.steps.fetch_add(1, Ordering::SeqCst);
    }

    /// Whether a thread that parks this way is to sleep. One that stays inside makes a step in the
    /// section of its key, waits there for another one, and tells by a third that it was made.
    pub fn validate(&self, way: &str) -> bool {
        if way != "stay-inside" {
            return true;
        }
        self.step();
        if comes_to(&self.steps, 2).is_some() {
            self.step();
        }
        false
    }

    /// Makes a step before a thread sleeps, which first unparks itself if it parks that way.
    pub fn get_ready<R: Wait>(&self, rt: &R, way: &str, key: usize) {
        if way != "wake-oneself" || unpark_first(rt, &self.lot, key, TOKEN) == 1 {
            self.step();
        }
    }

    /// Notes that a thread was late on the key, and whether it was the last there.
    pub fn note_late(&self, key: usize, last: bool) {
        self.late_key
            .store(if last { key } else { 0 }, Ordering::SeqCst);
    }

    /// Whether the thread that was late last was so on this key, as the last there.
    pub fn was_late_alone(&self, key: usize) -> bool {
        self.late_key.load(Ordering::SeqCst) == key
    }

    /// Notes the number of a thread. Only who holds the mutex notes and counts, so a load and a
    /// store are enough.
    pub fn note(&self, number: usize) {
        let noted = self.noted.load(Ordering::SeqCst);
        self.noted.store(
            noted.wrapping_mul(10).wrapping_add(number),
            Ordering::SeqCst,
        );
    }

    /// Counts one more.
    pub fn count(&self) {
        let counted = self.counted.load(Ordering::SeqCst);
        self.counted
            .store(counted.wrapping_add(1), Ordering::SeqCst);
    }

    /// Does an act that needs no thread of the lot. `None` says that it went otherwise than it
    /// should, or that there is none of this name.
    pub fn act<R: Wait + Clock>(
        &self,
        rt: &R,
        alloc: Global,
        verb: &str,
        (first, second): (usize, usize),
    ) -> Option<()> {
        let went_well = match verb {
            "step" => {
                self.step();
                true
            }
            "await" => comes_to(&self.steps, first).is_some(),
            "one" => unpark_first(rt, &self.lot, first, TOKEN) == second,
            "wake" => unpark_by_turns(rt, &self.lot, first, TOKEN) == Some(second),
            "all" => unpark_all(rt, &self.lot, first, TOKEN) == second,
            "filter" => unpark_those_with(rt, &self.lot, first, ParkToken(0)) == second,
            "let-one" => let_one_by_one(rt, alloc, self, first).is_some(),
            "let-all" => let_all_through(rt, alloc, self, first, second).is_some(),
            "stand" => self.comes_to_stand(rt, alloc, first, second).is_some(),
            "notify" => self.moves_two(rt),
            "unlock" => {
                self.mutex.unlock(rt, &self.lot);
                true
            }
            "noted" => self.noted.load(Ordering::SeqCst) == first,
            "counted" => self.counted.load(Ordering::SeqCst) == first,
            _ => false,
        };
        went_well.then_some(())
    }

    // Whether a notify of all wakes none and moves two threads to the mutex, and leaves none.
    fn moves_two<R: Wait>(&self, rt: &R) -> bool {
        if self.condvar.key() == self.mutex.key() {
            return false;
        }
        let moved = UnparkResult {
            unparked_threads: 0,
            requeued_threads: 2,
            have_more_threads: false,
        };
        self.condvar.notify_all(rt, &self.mutex, &self.lot) == moved
    }

    // Waits until just these threads stand on the key, in this order: the first is the highest
    // digit.
    fn comes_to_stand<R: Wait>(
        &self,
        rt: &R,
        alloc: Global,
        key: usize,
        digits: usize,
    ) -> Option<()> {
        for _ in 0..TURNS {
            let mut found = 0usize;
            for number in &self.lot.list(rt, alloc, key).ok()? {
                found = found.wrapping_mul(10).wrapping_add(*number);
            }
            if found == digits {
                return Some(());
            }
            thread::yield_now();
        }
        None
    }
}

fn all_latches(alloc: Global) -> Option<Vec<Latch>> {
    let mut latches = Vec::new(alloc);
    for index in 0..LATCHES {
        latches.push(Latch::new(index)).ok()?;
    }
    Some(latches)
}

// Unparks the first thread of the key, and answers how many there were.
fn unpark_first<P: ThreadParkerT, R: Wait>(
    rt: &R,
    lot: &ParkingLot<P>,
    key: usize,
    token: UnparkToken,
) -> usize {
    unpark_one(rt, lot, key, |_| token).unparked_threads
}

/// Unparks until a thread was unparked, and answers how many were. `None` says that the turns are
/// over.
pub fn unpark_by_turns<P: ThreadParkerT, R: Wait>(
    rt: &R,
    lot: &ParkingLot<P>,
    key: usize,
    token: UnparkToken,
) -> Option<usize> {
    for _ in 0..TURNS {
        let unparked = unpark_first(rt, lot, key, token);
        if unparked > 0 {
            return Some(unparked);
        }
        thread::yield_now();
    }
    None
}

// Unparks the threads of the key with this park token, and answers how many there were.
fn unpark_those_with<P: ThreadParkerT, R: Wait>(
    rt: &R,
    lot: &ParkingLot<P>,
    key: usize,
    chosen: ParkToken,
) -> usize {
    let filter = |token| {
        if token == chosen {
            FilterOp::Unpark
        } else {
            FilterOp::Skip
        }
    };
    unpark_chosen(rt, lot, key, filter, |_| TOKEN).unparked_threads
}
