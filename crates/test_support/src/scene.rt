//! This module plays scenes: texts that say what threads do on one lot.
//!
//! ```text
//! # A late thread that another moves meanwhile leaves its new key.
//! thread
//! before_sleep: raise entered; await moved
//! park 1 past -> timed_out 2 last
//! caller
//! await entered
//! requeue 1 2 requeue_all 42 -> 0 1
//! raise moved
//! ```
//!
//! - `thread` begins a registered thread, `thread 10` begins ten that do the same, and `caller`
//!   begins one without a number.
//! - `lot 6` says for how many threads the lot is. Without it, the lot is for those that register.
//! - Lines before the first thread are done before any thread begins.
//! - A line whose first word ends in `:` says what a closure of the next call does.
//! - Each other line is an action. The outcome that it has to have stands behind `->`.

mod calls;
mod deeds;
mod outcomes;
mod text;

use crate::waits::TURNS;
use crate::words::Words;
use calls::Call;
use lot_threads::{LotError, Member, ParkingLot, ThreadParkerT};
use std::alloc::Global;
use std::sync::Wait;
use std::sync::atomic::{AtomicUsize, Ordering};
use std::thread::Threads;
use std::time::Clock;
use std::{hint, thread};
use text::{begun, is_about_closure, is_action, sizes};

// A count has the name of its first letter.
const LETTERS: usize = 32;

// Who waits for a count or for waiters looks so often before it yields.
const LOOKS: usize = 1_000;

// A lot, and what the threads of a scene tell each other.
#[derive(Drop)]
struct Stage<'t, P: ThreadParkerT> {
    lot: ParkingLot<P>,
    text: &'t str,
    values: &'t [usize],
    counts: [AtomicUsize; LETTERS],

    // How many threads the unparks answered, and how many parks ended by one.
    answered: AtomicUsize,
    received: AtomicUsize,

    // How many threads there are, how many of them have had their turn to register, and whether
    // they may begin.
    all: usize,
    entered: AtomicUsize,
    begun: AtomicUsize,

    // The number of a line that went otherwise than it says. 0 says that there is none.
    fault: AtomicUsize,
}

impl<'t, P: ThreadParkerT> Stage<'t, P> {
    fn new(alloc: Global, text: &'t str, values: &'t [usize]) -> Result<Stage<'t, P>, LotError> {
        let (all, room) = sizes(text, values);
        Ok(Stage {
            lot: ParkingLot::new(alloc, room)?,
            text,
            values,
            counts: [0; LETTERS].map(|_| AtomicUsize::new(0)),
            answered: AtomicUsize::new(0),
            received: AtomicUsize::new(0),
            all,
            entered: AtomicUsize::new(0),
            begun: AtomicUsize::new(0),
            fault: AtomicUsize::new(0),
        })
    }

    fn note(&self, line: usize) {
        let _ = self
            .fault
            .compare_exchange(0, line, Ordering::SeqCst, Ordering::SeqCst);
    }

    // Waits a little, as one does who has looked so often. False says that there is a fault.
    fn waits_a_turn(&self, turn: usize) -> bool {
        if turn < LOOKS {
            hint::spin_loop();
        } else {
            thread::yield_now();
        }
        self.fault.load(Ordering::SeqCst) == 0
    }

    // Waits until a count is so high. False says that it does not come to that, or that there is a
    // fault.
    fn comes_to(&self, count: &AtomicUsize, least: usize) -> bool {
        for turn in 0..TURNS {
            if count.load(Ordering::SeqCst) >= least {
                return true;
            }
            if !self.waits_a_turn(turn) {
                break;
            }
        }
        false
    }

    // Plays the thread at this place. The first, at 0, is who does what goes before all threads.
    fn play_place<R: Wait + Clock>(&self, rt: &R, alloc: Global, place: usize) {
        let mut member = None;
        let (mut next, mut first) = (1_usize, 0);
        let mut is_own = place == 0;
        if is_own {
            self.comes_to(&self.entered, self.all);
        }
        for (index, line) in self.text.lines().enumerate() {
            let registering = begun(line, self.values, "thread");
            let threads = registering.wrapping_add(begun(line, self.values, "caller"));
            if threads > 0 {
                is_own = place.wrapping_sub(next) < threads;
                next = next.wrapping_add(threads);
                if is_own {
                    member = self.enter(rt, alloc, place, registering > 0);
                }
            } else if !is_about_closure(line) {
                if is_own && is_action(line) {
                    let call = Call {
                        first,
                        line: index.wrapping_add(1),
                    };
                    self.play_line(rt, alloc, &mut member, call, line);
                }
                first = index.wrapping_add(1);
            }
        }
        if place == 0 {
            self.begun.fetch_add(1, Ordering::SeqCst);
        }
    }

    // Registers the thread at this place, if it is to have a number, once those at lower places
    // have theirs, and waits until what goes before all threads is done.
    fn enter<R: Wait>(
        &self,
        rt: &R,
        alloc: Global,
        place: usize,
        registers: bool,
    ) -> Option<Member<'_, P>> {
        self.comes_to(&self.entered, place.wrapping_sub(1));
        let mut member = None;
        if registers {
            member = Member::register(rt, alloc, &self.lot).ok();
        }
        self.entered.fetch_add(1, Ordering::SeqCst);
        self.comes_to(&self.begun, 1);
        member
    }

    // Does a line, and notes it if that goes otherwise.
    fn play_line<'s, R: Wait + Clock>(
        &'s self,
        rt: &R,
        alloc: Global,
        member: &mut Option<Member<'s, P>>,
        call: Call,
        line: &str,
    ) {
        if self.act_often(rt, alloc, member, call, line) != Some(true) {
            self.note(call.line);
        }
    }

    // Does a line so often as it says, once if it does not: `repeat 20 ..`, and `until done 3 ..`,
    // which ends once the count is so high. `None` says that it has no form.
    fn act_often<'s, R: Wait + Clock>(
        &'s self,
        rt: &R,
        alloc: Global,
        member: &mut Option<Member<'s, P>>,
        call: Call,
        line: &str,
    ) -> Option<bool> {
        let mine = match member {
            Some(member) => member.number(),
            None => 0,
        };
        let mut words = Words::of(line, self.values, mine);
        let (mut times, mut count, mut least) = (1, &self.begun, usize::MAX);
        if words.reads("repeat") {
            times = words.number()?;
        } else if words.reads("until") {
            count = self.count(&mut words)?;
            least = words.number()?;
            times = TURNS;
        }
        for _ in 0..times {
            if count.load(Ordering::SeqCst) >= least {
                break;
            }
            let mut words = words;
            if self.act(rt, alloc, member, call, &mut words) != Some(true) {
                return None;
            }
        }
        Some(true)
    }

    // Plays all threads. It answers a line that went otherwise, or 0 where the lines went well, but
    // not as many parks ended by an unpark as the unparks answered.
    fn play_all<R>(&self, rt: &R, alloc: Global) -> Option<usize>
    where
        P: Send + Sync,
        R: Threads + Wait + Clock + Sync,
    {
        let threads = self.all.wrapping_add(1);
        let play = |place| self.play_place(rt, alloc, place);
        let is_played = thread::map_indices(rt, alloc, threads, &play).is_ok();
        let line = self.fault.load(Ordering::SeqCst);
        let answered = self.answered.load(Ordering::SeqCst);
        let are_as_many = answered == self.received.load(Ordering::SeqCst);
        (line != 0 || !are_as_many || !is_played).then_some(line)
    }
}

/// Plays a scene on a lot with parkers of type `P`, and returns `None` if everything went as it
/// says.
///
/// Otherwise it returns the number of the first line that went differently. It returns 0 if the lot
/// could not be created, if the threads could not be started, or if the number of parks that were
/// unparked is not the number that the unparks returned.
pub fn play<P, R>(rt: &R, alloc: Global, text: &str, values: &[usize]) -> Option<usize>
where
    P: ThreadParkerT + Send + Sync,
    R: Threads + Wait + Clock + Sync,
{
    let Ok(stage) = Stage::<P>::new(alloc, text, values) else {
        return Some(0);
    };
    stage.play_all(rt, alloc)
}
