//! The mutex, the events and the semaphores of `examples`, which members of a lot share. No clause
//! says that a mutex keeps others out, or that whoever waits is woken: these tests do.
//!
//! What threads do with them is told by scripts of `test_support::player`. The first thread is the
//! member of number 0, and so on.
//!
//! - `mutex`: `lock`, `unlock` (whether another thread was handed it).
//! - `event`, `other_event`: `wait N`, `look N` (a wait whose time is over; both tell whether the
//!   event was set), `set N` (how many it woke).
//! - `semaphore`, `other_semaphore`: `acquire` (how many permits were free), `release` (whether a
//!   thread waited for one).
//! - `waiting KEY N`: waits until so many threads wait on the key. `park KEY`, `look KEY` (a park
//!   whose time is over), `unpark KEY`. The keys are 21 for the mutex, 22 for the semaphore, and
//!   100 for the first event.
//!
//! A line `begins N` says how many permits each semaphore has. Several scripts stand in one text,
//! with an empty line between them.

ghost use Rattle.std.specs.Prelude.{◌≡◌};

use crate::expect;
use examples::byte_mutex::{ByteMutex, Held};
use examples::event::Event;
use examples::thread_semaphore::ThreadSemaphore;
use lot_threads::{Member, ParkingLot, ThreadParkerT};
use std::process::Abort;
use std::sync::Wait;
use std::sync::atomic::{AtomicUsize, Ordering};
use std::thread::Threads;
use std::time::{Clock, Instant};
use test_support::calls::{TOKEN, Way, new_lot, unpark, wait};
use test_support::clock::now;
use test_support::counts::Counts;
use test_support::followed_parker::FollowedParker;
use test_support::player::{AFTER, Hand, Script, Stage, play_lines, play_on};
use test_support::waits::{come_by_turns, comes_to};
use test_support::words::Words;

// A lot is for so many threads.
const ROOM: usize = 16;

// So many events two threads set for each other, by turns.
const EVENTS: usize = 5_001;

const MUTEX_KEY: usize = 21;

const SEMAPHORE_KEY: usize = 22;

const OTHER_SEMAPHORE_KEY: usize = 23;

const EVENT_KEY: usize = 100;

const OTHER_EVENT_KEY: usize = EVENT_KEY + EVENTS;

// The locks of a lot. Its parkers are of one type, since an impl for the parkers of a parameter may
// not call a lot.
#[derive(Drop)]
struct Locks {
    lot: ParkingLot<FollowedParker>,
    mutex: ByteMutex,
    events: [Event; EVENTS],
    other_events: [Event; EVENTS],
    semaphore: ThreadSemaphore,
    other_semaphore: ThreadSemaphore,
    counts: Counts,

    // How many threads have their numbers.
    entered: AtomicUsize,
}

// Events whose keys follow one another.
fn new_events(first: usize) -> [Event; EVENTS] {
    let mut key = first;
    [(); EVENTS].map(|_| {
        let event = Event::new(key);
        key = key.wrapping_add(1);
        event
    })
}

impl Locks {
    fn new(lot: ParkingLot<FollowedParker>, permits: usize) -> Locks {
        Locks {
            lot,
            mutex: ByteMutex::new(MUTEX_KEY),
            events: new_events(EVENT_KEY),
            other_events: new_events(OTHER_EVENT_KEY),
            semaphore: ThreadSemaphore::new(SEMAPHORE_KEY, permits),
            other_semaphore: ThreadSemaphore::new(OTHER_SEMAPHORE_KEY, permits),
            counts: Counts::new(),
            entered: AtomicUsize::new(0),
        }
    }
}

impl<R: Wait + Clock + Abort + AllocGlobal> Stage<R> for Locks {
    fn play_place<'x>(&'x self, rt: &'x R, script: &Script<'_>, place: usize) {
        // Threads get their numbers in the order of their places.
        if place != AFTER {
            comes_to(&self.entered, place);
        }
        let member = Member::register(rt, rt.alloc(), &self.lot).expect(rt, "a number");
        self.entered.fetch_add(1, Ordering::SeqCst);
        let mut user = User {
            rt,
            locks: self,
            member,
            hold: None,
        };
        let other = play_lines(rt, &self.counts, &mut user, script, place);
        let User {
            rt: _,
            locks: _,
            member,
            hold,
        } = user;
        if let Some(hold) = hold {
            unlock(rt, &self.lot, hold);
        }
        drop(member.retire(rt));
        assert!(rt; other.is_none(), "line {other:?} in\n{}", script.text);
    }
}

// That the thread has the mutex.
struct Hold<'x> {
    mutex: &'x ByteMutex,
    held: Held,
    ghost of_mutex: { held.key ≡ mutex.now.key },
}

fn unlock<P: ThreadParkerT, R: Wait>(rt: &R, lot: &ParkingLot<P>, hold: Hold<'_>) -> bool {
    let Hold { mutex, held } = hold;
    mutex.unlock(rt, lot, held)
}

// A thread that uses the locks.
struct User<'x, R> {
    rt: &'x R,
    locks: &'x Locks,
    member: Member<'x, FollowedParker>,
    hold: Option<Hold<'x>>,
}

impl<R: Wait + Clock + AllocGlobal> Hand for User<'_, R> {
    fn call(&mut self, first: &str, words: &mut Words<'_>) -> Option<usize> {
        let (rt, locks) = (self.rt, self.locks);
        let (lot, member) = (&locks.lot, &mut self.member);
        let call = words.word()?;
        match first {
            "mutex" => match call {
                "lock" => {
                    let mutex = &locks.mutex;
                    let held = mutex.lock(rt, member);
                    match self.hold.replace(Hold { mutex, held }) {
                        None => Some(1),
                        Some(other) => Some(usize::from(unlock(rt, lot, other))),
                    }
                }
                "unlock" => Some(usize::from(unlock(rt, lot, self.hold.take()?))),
                _ => None,
            },
            "event" => use_event(rt, lot, &locks.events, member, call, words.number()?),
            "other_event" => {
                use_event(rt, lot, &locks.other_events, member, call, words.number()?)
            }
            "semaphore" => use_semaphore(rt, lot, &locks.semaphore, member, call),
            "other_semaphore" => use_semaphore(rt, lot, &locks.other_semaphore, member, call),
            _ => use_key(rt, member, first, call.parse().ok()?, words),
        }
    }
}

fn use_event<P: ThreadParkerT, R: Wait + Clock>(
    rt: &R,
    lot: &ParkingLot<P>,
    events: &[Event],
    member: &mut Member<'_, P>,
    call: &str,
    number: usize,
) -> Option<usize> {
    let event = events.get(number)?;
    let deadline = match call {
        "set" => return Some(event.set(rt, lot)),
        "wait" => None,
        "look" => Some(now(rt)?),
        _ => return None,
    };
    Some(usize::from(event.wait(rt, member, deadline) && event.is_set()))
}

fn use_semaphore<P: ThreadParkerT, R: Wait + Clock>(
    rt: &R,
    lot: &ParkingLot<P>,
    semaphore: &ThreadSemaphore,
    member: &mut Member<'_, P>,
    call: &str,
) -> Option<usize> {
    match call {
        "acquire" => Some(semaphore.acquire(rt, member)),
        "release" => Some(usize::from(semaphore.release(rt, lot))),
        _ => None,
    }
}

fn use_key<P: ThreadParkerT, R: Wait + Clock + AllocGlobal>(
    rt: &R,
    member: &mut Member<'_, P>,
    call: &str,
    key: usize,
    words: &mut Words<'_>,
) -> Option<usize> {
    let lot = member.lot();
    match call {
        "waiting" => {
            let came = come_by_turns(rt, rt.alloc(), lot, key, words.number()?);
            Some(usize::from(came))
        }
        "park" => Some(usize::from(wait(rt, member, key, None).is_unparked())),
        "look" => Some(usize::from(wait(rt, member, key, now(rt)).is_unparked())),
        "unpark" => Some(unpark(rt, lot, Way::One, key, TOKEN)),
        _ => None,
    }
}

// Plays each script of a text on a new stage.
fn play_each<R>(rt: &R, scripts: &str)
where
    R: Threads + Wait + Clock + Abort + AllocGlobal + Sync,
{
    for text in scripts.split("\n\n") {
        let script = Script { text, values: &[] };
        let lot = new_lot(rt.alloc(), ROOM).expect(rt, "a lot");
        let locks = Locks::new(lot, script.told("begins").unwrap_or(0));
        expect(rt, play_on(rt, rt.alloc(), &locks, &script), "threads");
    }
}

// It refuses a `lock` that does not wait, an `unlock` that wakes nobody, forgets the waiters who
// are left, or hands the mutex over and unlocks it too, and a mutex that is not free in the end.
// With a `lock` that marks a mutex which was let go since it looked, most runs of the second script
// do not end.
#[test]
fn a_mutex_excludes_and_hands_itself_over(rt: HostRuntime) {
    let scripts = "thread 4
await a
repeat 500 mutex lock ; raise inside -> 1 ; yield ; lower inside -> 1 ; mutex unlock -> any
thread
mutex lock ; raise a ; waiting 21 4 ; mutex unlock
after
mutex lock ; mutex unlock -> 0

thread 2
until mutex lock ; mutex unlock -> any ; tell over
thread
pause 500 ; raise over";
    play_each(&rt, scripts);
}

// It refuses a `lock` that sleeps while the byte tells that nobody waits, since whoever unlocks
// then looks for no waiter, and an `unlock` that changes the byte behind its section, since it
// would not know of a thread that came to wait meanwhile.
#[test]
fn who_comes_to_wait_beside_an_unlock_is_woken(rt: HostRuntime) {
    let scripts = "thread
await a
park 1 ; mutex lock ; mutex unlock -> any
thread
mutex lock ; raise a ; waiting 1 1 ; unpark 1 ; mutex unlock -> any
mutex lock ; waiting 21 1 ; mutex unlock

thread
await a
mutex lock ; raise b ; waiting 21 1 ; look 1 -> 0 ; await a 2 ; mutex unlock
thread
await b
mutex lock ; mutex unlock -> any
thread
mutex lock ; raise a ; waiting 21 1 ; mutex unlock ; raise a";
    play_each(&rt, scripts);
}

// It refuses a `set` that wakes one thread alone, a `wait` that does not look at the event, keeps
// no deadline, or answers then that the event was set, and a `set` that looks for waiters before
// the event is set: a thread that comes between sleeps for ever.
#[test]
fn an_event_wakes_every_thread(rt: HostRuntime) {
    let scripts = "thread 3
event wait 0
thread
waiting 100 3
event look 0 -> 0 ; event set 0 -> 3 ; event look 0 ; event set 0 -> 0

thread
repeat 5000 event set round -> any ; other_event wait round
thread
repeat 5000 other_event set round -> any ; event wait round";
    play_each(&rt, scripts);
}

// It refuses an `acquire` that takes no permit, looks for one before it stands in the queue, a
// `release` that wakes nobody, as a second one while the first permit is free still, frees none,
// tells of no waiter or of one where there is none, or looks for a waiter before the permit is
// free: a thread sleeps then while a permit is free.
#[test]
fn as_many_threads_are_inside_as_there_are_permits(rt: HostRuntime) {
    let scripts = "begins 2
thread 4
repeat 1000 semaphore acquire -> at_most 2 ; raise inside -> at_most 2 ; yield ; \
lower inside ; semaphore release -> any
after
semaphore acquire -> 2 ; semaphore release -> 0

thread 3
semaphore acquire
thread
waiting 22 3
repeat 3 semaphore release

thread
repeat 20000 semaphore release -> any ; other_semaphore acquire
thread
repeat 20000 other_semaphore release -> any ; semaphore acquire";
    play_each(&rt, scripts);
}
