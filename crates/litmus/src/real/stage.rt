//! The lot of a test, its threads, and the rounds that they play on it.

use crate::real::actor::Actor;
use crate::real::board::Board;
use crate::real::calls::Caller;
use crate::real::count::Count;
use crate::real::fault::RunError;
use crate::real::keys::LotKeys;
use lot_litmus::code::{KEYS, Key, THREADS, Thread};
use lot_litmus::outcomes::Outcome;
use lot_litmus::parse::Parsed;
use lot_litmus::test::Test;
use lot_threads::{Member, ParkingLot, ThreadParkerT, UnparkToken, unpark_all};
use std::alloc::Global;
use std::hint;
use std::sync::atomic::{AtomicU64, Ordering};
use std::sync::{Arc, Wait};
use std::time::{Clock, Duration, Instant};

// How many seconds a round may take until its threads give up, and how many that may take.
const PATIENCE: u64 = 10;

// How often a thread looks, at the beginning of a round, whether the others have come.
const LOOKS: usize = 2_000;

// The number of a round behind the last one.
const NO_MORE: u64 = u64::MAX;

// The thread that looks at the ends. It has no thread of its own.
const LAST: Thread = Thread {
    number: THREADS as u8 - 1,
};

/// How a round was played.
#[derive(Clone, Copy)]
pub struct Played {
    pub outcome: Outcome,

    /// Whether it came to rest by itself.
    pub is_at_rest: bool,
}

/// A lot, and what the threads of a test share on it.
#[derive(Drop)]
pub struct Stage<P: ThreadParkerT> {
    lot: ParkingLot<P>,
    parsed: Arc<Parsed, Global>,
    keys: LotKeys,
    board: Board,

    // How many threads the test has, how many of them are registered, and how many have left the
    // round.
    threads: u64,
    registered: Count,
    gone: Count,

    // How many have come to the round.
    come: AtomicU64,

    // The number of the round that is played, from 1.
    round: Count,

    // An instant that has passed.
    past: Instant,
}

impl<P: ThreadParkerT> Stage<P> {
    /// A new lot for a test that is run from this instant on.
    pub fn new(
        alloc: Global,
        parsed: Arc<Parsed, Global>,
        past: Instant,
    ) -> Result<Stage<P>, RunError> {
        let threads = threads_of(&parsed.test);
        let keys = LotKeys::of(&parsed.test);
        let Ok(lot) = ParkingLot::<P>::new(alloc, THREADS) else {
            return Err(RunError::NoMemory);
        };
        Ok(Stage {
            lot,
            parsed,
            keys,
            board: Board::new(),
            threads,
            registered: Count::new(),
            gone: Count::new(),
            come: AtomicU64::new(0),
            round: Count::new(),
            past,
        })
    }

    // What the thread does.
    fn caller(&self, thread: Thread, seed: u64) -> Caller<'_, P> {
        let code = &self.parsed.test.codes[thread.index()];
        Caller {
            actor: Actor::new(&self.board, code, thread, seed),
            keys: &self.keys,
            lot: &self.lot,
            past: self.past,
        }
    }
}

/// Whether the thread does anything before the others have ended.
pub fn acts(test: &Test, thread: Thread) -> bool {
    thread != LAST && test.codes[thread.index()].at(0).is_some()
}

fn threads_of(test: &Test) -> u64 {
    let mut threads = 0u64;
    for number in 0..THREADS as u8 {
        if acts(test, Thread { number }) {
            threads = threads.saturating_add(1);
        }
    }
    threads
}

impl<P: ThreadParkerT> Stage<P> {
    /// Plays all rounds as this thread of the test.
    pub fn act<R: Wait + Clock>(&self, rt: &R, alloc: Global, thread: Thread) {
        let Ok(mut member) = Member::register(rt, alloc, &self.lot) else {
            return;
        };
        self.registered.add_one();
        for round in 1..NO_MORE {
            if self.round.wait(rt, round) == NO_MORE {
                break;
            }
            self.meet();
            let seed = round.wrapping_mul(THREADS as u64);
            let caller = self.caller(thread, seed.wrapping_add(thread.number as u64));
            caller.play(rt, &mut member);
            self.board.end();
            self.gone.add_one();
        }
        member.retire(rt);
    }

    // Waits for a while until all threads have come to the round, so that they begin together.
    fn meet(&self) {
        self.come.fetch_add(1, Ordering::SeqCst);
        for _ in 0..LOOKS {
            if self.come.load(Ordering::SeqCst) >= self.threads {
                break;
            }
            hint::spin_loop();
        }
    }

    /// There is no further round.
    pub fn close(&self) {
        self.round.set(NO_MORE);
    }
}

impl<P: ThreadParkerT> Stage<P> {
    /// Waits until all threads are registered.
    pub fn assemble<R: Wait + Clock>(&self, rt: &R) -> Result<(), RunError> {
        if self.registered.wait_for(rt, self.threads, patience()) {
            Ok(())
        } else {
            Err(RunError::NoThread)
        }
    }

    /// Lets the threads play a round, and answers what it comes to.
    ///
    /// # Errors
    ///
    /// What the lot is wrong about, or that it does not wake a thread.
    pub fn play<R: Wait + Clock>(&self, rt: &R, round: u64) -> Result<Played, RunError> {
        self.board.begin(rt, self.parsed.test.words, self.threads);
        self.come.store(0, Ordering::SeqCst);
        self.gone.set(0);
        self.round.set(round);
        let is_at_rest = self.board.rest.wait_for(rt, 1, patience());
        let have_ended = self.board.ended() == self.threads && !self.board.is_over();
        if have_ended {
            self.caller(LAST, 0).actor.go(rt);
        }
        let outcome = self.board.outcome(rt, have_ended);
        self.end(rt)?;
        match outcome {
            Ok(outcome) => Ok(Played {
                outcome,
                is_at_rest,
            }),
            Err(what) => Err(RunError::Disagrees(what)),
        }
    }

    // Lets all threads leave the round, whether they have ended or not. Whoever would enter a list
    // from here on gives up first, so it is enough to unpark all of them once.
    fn end<R: Wait + Clock>(&self, rt: &R) -> Result<(), RunError> {
        self.board.give_up();
        self.unpark_all(rt);
        if self.gone.wait_for(rt, self.threads, patience()) {
            Ok(())
        } else {
            Err(RunError::Lost)
        }
    }

    fn unpark_all<R: Wait>(&self, rt: &R) {
        for number in 0..KEYS as u8 {
            let key = self.keys.number(Key { number });
            unpark_all(rt, &self.lot, key, UnparkToken(0));
        }
    }
}

fn patience() -> Duration {
    Duration::from_secs(PATIENCE)
}
