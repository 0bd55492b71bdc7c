//! `lot_bench stress race`: threads that park, unpark, requeue, register and retire on one lot,
//! while the tokens that were handed out are compared with those that were told.

use crate::calls::{
    Entry, park_if, register, register_into, requeue, retire, retire_all_but, unpark_all,
    unpark_first, unpark_through, waiting_on,
};
use crate::fault::{Fault, Wrong};
use crate::stress::draws::{draw, draw_op, draw_sieve, mixed};
use crate::threads::{has_lasted, sum_of};
use lot_threads::{Member, ParkResult, ParkToken, ParkingLot, ThreadParkerT, UnparkToken};
use std::alloc::Global;
use std::sync::Wait;
use std::sync::atomic::{AtomicUsize, Ordering};
use std::thread;
use std::thread::Threads;
use std::time::{Clock, Duration, Instant};

// Keys of which the first two have one bucket in each table of a round, and the next two another;
// the fifth has the first's while the table is of 16 buckets, the last while it is of 64 at most.
const KEYS: [usize; 6] = [0, 233, 7, 384, 13, 34];

/// How many numbers the lot of a round has.
pub const MOST: usize = 64;

// The first thread ends the round, one registers, and those behind unpark, requeue and park.
const LEADER: usize = 0;

const REGISTRAR: usize = 1;

const FIRST_PARKER: usize = 6;

const PARKERS: usize = 8;

const THREADS: usize = FIRST_PARKER + PARKERS;

// Added to how many threads still park, once nobody is to park any more.
const OVER: usize = 1_000;

// A table grows in the first of these alone, so rounds are short.
const ROUND_MILLISECONDS: u64 = 50;

// How long those who park have to end once they are all woken.
const PATIENCE_SECONDS: u64 = 20;

// How many numbers the thread that registers holds at most.
const HELD: usize = 48;

// How many parks a thread does with one number.
const PARKS: usize = 64;

/// Runs a round on a new lot, and answers how many parks ended by an unpark. A thread that is not
/// woken is told, and then waited for.
///
/// Each token that was handed out was told, if the tokens of all threads cancel out: a mixed one is
/// added for each thread that it was handed to, and taken away where a park ended with it.
pub fn run_round<P, R>(
    rt: &R,
    alloc: Global,
    lot: &ParkingLot<P>,
    seed: u64,
) -> Result<usize, Fault>
where
    P: ThreadParkerT + Send + Sync,
    R: Eprint + Threads + Wait + Clock + Sync,
{
    let round = Round {
        alloc,
        lot,
        seed,
        parking: AtomicUsize::new(PARKERS),
        unparked: AtomicUsize::new(0),
    };
    let act = |index: usize| round.act(rt, index);
    let tokens = sum_of(rt, alloc, THREADS, &act);
    if !nobody_waits(rt, alloc, lot) {
        return Err(Fault::Wrong(Wrong::RaceList));
    }
    match tokens {
        Some(0) => Ok(round.unparked.load(Ordering::SeqCst)),
        Some(_) => Err(Fault::Wrong(Wrong::RaceTokens)),
        None => Err(Fault::Wrong(Wrong::RaceRefusal)),
    }
}

fn nobody_waits<P: ThreadParkerT, R: Wait>(rt: &R, alloc: Global, lot: &ParkingLot<P>) -> bool {
    for key in KEYS {
        if waiting_on(rt, alloc, lot, key) != Some(0) {
            return false;
        }
    }
    true
}

// A round: the lot, and what its threads share besides.
#[derive(Drop)]
struct Round<'a, P: ThreadParkerT> {
    alloc: Global,
    lot: &'a ParkingLot<P>,
    seed: u64,
    // How many threads still park, and `OVER` more once the round is over.
    parking: AtomicUsize,
    // How many parks ended by an unpark.
    unparked: AtomicUsize,
}

impl<P: ThreadParkerT> Round<'_, P> {
    // Acts until the round is over, and answers the sum of the tokens.
    fn act<R: Eprint + Wait + Clock>(&self, rt: &R, index: usize) -> Option<usize> {
        let seed = self.seed.wrapping_mul(THREADS as u64);
        let mut draws = seed.wrapping_add(index as u64);
        let mut tokens = 0usize;
        for _ in 0..u64::MAX {
            tokens = tokens.wrapping_add(self.act_once(rt, index, &mut draws)?);
            if self.is_over() {
                break;
            }
        }
        if index >= FIRST_PARKER {
            self.parking.fetch_sub(1, Ordering::SeqCst);
        }
        Some(tokens)
    }
}

impl<P: ThreadParkerT> Round<'_, P> {
    // What the thread of this index does again and again. It answers a sum of tokens.
    fn act_once<R: Eprint + Wait + Clock>(
        &self,
        rt: &R,
        index: usize,
        draws: &mut u64,
    ) -> Option<usize> {
        match index {
            LEADER => self.lead(rt),
            REGISTRAR => register_and_retire(rt, self.alloc, self.lot, draws),
            2..=5 => Some(unpark(rt, self.lot, index < 4, draws)),
            _ => self.register_and_park(rt, draws),
        }
    }

    fn is_over(&self) -> bool {
        self.parking.load(Ordering::SeqCst) >= OVER
    }

    // Ends the round: nobody parks any more, and all who wait are woken.
    fn lead<R: Eprint + Wait + Clock>(&self, rt: &R) -> Option<usize> {
        thread::sleep(rt, Duration::from_millis(ROUND_MILLISECONDS));
        self.parking.fetch_add(OVER, Ordering::SeqCst);
        let start = Instant::now(rt).ok()?;
        let mut tokens = 0usize;
        for _ in 0..u64::MAX {
            tokens = tokens.wrapping_add(wake_all(rt, self.lot));
            if self.parking.load(Ordering::SeqCst) == OVER {
                break;
            }
            if has_lasted(rt, start, PATIENCE_SECONDS) {
                let seed = self.seed;
                let _ = eprintln!(rt; "a thread was not woken: lot_bench stress race 1 {seed}");
                return None;
            }
            thread::yield_now();
        }
        Some(tokens)
    }

    // Parks again and again with a new number.
    fn register_and_park<R: Wait + Clock>(&self, rt: &R, draws: &mut u64) -> Option<usize> {
        let mut member = register(rt, self.alloc, self.lot).ok()?;
        let tokens = self.park_often(rt, &mut member, draws);
        retire(rt, member);
        tokens
    }

    fn park_often<R: Wait + Clock>(
        &self,
        rt: &R,
        member: &mut Member<'_, P>,
        draws: &mut u64,
    ) -> Option<usize> {
        let mut tokens = 0usize;
        for _ in 0..PARKS {
            let entry = draw_entry(Instant::now(rt).ok()?, draws);
            let validate = || !self.is_over();
            let (result, _) = park_if(rt, member, entry, validate, || ());
            if let ParkResult::Unparked(token) = result {
                tokens = tokens.wrapping_sub(sum_for(token, 1));
                self.unparked.fetch_add(1, Ordering::SeqCst);
            }
        }
        Some(tokens)
    }
}

// What a token adds to the sum that is handed to so many threads.
fn sum_for(token: UnparkToken, threads: usize) -> usize {
    (mixed(token.0 as u64) as usize).wrapping_mul(threads)
}

fn wake_all<P: ThreadParkerT, R: Wait>(rt: &R, lot: &ParkingLot<P>) -> usize {
    let mut tokens = 0usize;
    for key in KEYS {
        let token = UnparkToken(key);
        tokens = tokens.wrapping_add(sum_for(token, unpark_all(rt, lot, key, token)));
    }
    tokens
}

// A park on any key with a deadline within two milliseconds, or with none.
fn draw_entry(start: Instant, draws: &mut u64) -> Entry {
    let number = draw(draws);
    let soon = start.checked_add(Duration::from_nanos(number & 0x1F_FFFF));
    let timeout = if number % 2 == 0 { None } else { soon };
    (draw_key(draws), ParkToken(draw(draws) as usize), timeout)
}

fn draw_key(draws: &mut u64) -> usize {
    KEYS[draw(draws) as usize % 6]
}

// Unparks or requeues by any call, from any key to any, and answers the sum of the tokens.
fn unpark<P: ThreadParkerT, R: Wait + Clock>(
    rt: &R,
    lot: &ParkingLot<P>,
    is_requeuing: bool,
    draws: &mut u64,
) -> usize {
    let (key, token) = (draw_key(draws), UnparkToken(draw(draws) as usize));
    let way = if is_requeuing { 3 } else { draw(draws) % 3 };
    let threads = match way {
        0 => unpark_first(rt, lot, key, token).unparked_threads,
        1 => unpark_all(rt, lot, key, token),
        2 => unpark_through(rt, lot, key, draw_sieve(draws), token).unparked_threads,
        _ => {
            let (to, op) = (draw_key(draws), draw_op(draws));
            requeue(rt, lot, key, to, op, token).unparked_threads
        }
    };
    pause(rt, draws);
    sum_for(token, threads)
}

// Registers many threads one after another and retires them. It was handed no token.
fn register_and_retire<P: ThreadParkerT, R: Wait + Clock>(
    rt: &R,
    alloc: Global,
    lot: &ParkingLot<P>,
    draws: &mut u64,
) -> Option<usize> {
    let mut held = Vec::with_capacity(alloc, HELD).ok()?;
    for _ in 0..HELD {
        let _ = register_into(rt, alloc, lot, &mut held);
        pause(rt, draws);
    }
    let is_right = held.len() == HELD;
    retire_all_but(rt, &mut held, 0);
    is_right.then_some(0)
}

// Sleeps for a while now and then, so that threads gather in the queues.
fn pause<R: Clock>(rt: &R, draws: &mut u64) {
    if draw(draws) & 15 == 0 {
        thread::sleep(rt, Duration::from_nanos(draw(draws) & 0x7_FFFF));
    }
}
