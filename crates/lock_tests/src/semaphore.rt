//! Tests of `Semaphore`, which upstream does not have. It begins with three permits.
//!
//! - `semaphore`: `acquire`, `try_acquire`, `acquire_many N`, `try_acquire_many N`,
//!   `acquire_for TIME`, `acquire_until TIME`, `acquire_many_until TIME N` (whether the thread has
//!   permits by it, in place of those that it had), `available_permits`, `add_permits N`.
//! - `permit`: `permits`, `split N` (whether there are so many; they are given back), `forget`,
//!   `drop`.

use crate::player::{Kind, expect_played, play_each, play_locks};
use crate::stage::{Actor, Host, Patience, ROOM, ROOMS, has, keep, let_go, new_lot};
use parking_lot::{Semaphore, SemaphorePermit};
use std::sync::Wait;
use std::time::Clock;
use test_support::counts::Counts;
use test_support::player::{Hand, Script, Stage, play_lines};
use test_support::words::Words;

type Permit<'x, R> = SemaphorePermit<'x, 'x, 'static, R>;

const PERMITS: usize = 3;

/// Plays a script on a new semaphore.
pub fn play<R: Host>(rt: &R, room: usize, script: &Script<'_>) {
    let semaphore = Semaphore::new(new_lot(rt, room), PERMITS).expect(rt, "a semaphore");
    let counts = Counts::new();
    play_locks(rt, &Permits { semaphore, counts }, script);
}

#[derive(Drop)]
struct Permits {
    semaphore: Semaphore<'static>,
    counts: Counts,
}

impl<R: Actor> Stage<R> for Permits {
    fn play_place<'x>(&'x self, rt: &'x R, script: &Script<'_>, place: usize) {
        let mut taker = Taker {
            rt,
            semaphore: &self.semaphore,
            permit: None,
        };
        let other = play_lines(rt, &self.counts, &mut taker, script, place);
        expect_played(rt, other, script);
    }
}

// A thread with what it has of the permits.
#[derive(Drop)]
struct Taker<'x, R: Wait> {
    rt: &'x R,
    semaphore: &'x Semaphore<'static>,
    permit: Option<Permit<'x, R>>,
}

impl<R: Wait + Clock> Hand for Taker<'_, R> {
    fn call(&mut self, first: &str, words: &mut Words<'_>) -> Option<usize> {
        match first {
            "semaphore" => use_semaphore(self.rt, self.semaphore, &mut self.permit, words),
            "permit" => use_permit(&mut self.permit, words),
            _ => None,
        }
    }
}

fn use_semaphore<'x, R: Wait + Clock>(
    rt: &'x R,
    semaphore: &'x Semaphore<'static>,
    permit: &mut Option<Permit<'x, R>>,
    words: &mut Words<'_>,
) -> Option<usize> {
    let (name, patience) = Patience::of(rt, words.word()?, words)?;
    let number = words.number_or_one();
    match name {
        "available_permits" => return Some(semaphore.available_permits()),
        "add_permits" => semaphore.add_permits(rt, number),
        "acquire" => return Some(usize::from(keep(permit, acquire(rt, semaphore, patience)))),
        "acquire_many" => {
            let found = acquire_many(rt, semaphore, number, patience);
            return Some(usize::from(keep(permit, found)));
        }
        _ => return None,
    }
    Some(1)
}

fn acquire<'x, R: Wait + Clock>(
    rt: &'x R,
    semaphore: &'x Semaphore<'static>,
    patience: Patience,
) -> Option<Permit<'x, R>> {
    match patience {
        Patience::Over => semaphore.try_acquire(rt),
        Patience::Endless => Some(semaphore.acquire(rt)),
        Patience::For(time) => semaphore.acquire_for(rt, time),
        Patience::Until(deadline) => semaphore.acquire_until(rt, deadline),
    }
}

// There is no call that acquires many for a time.
fn acquire_many<'x, R: Wait + Clock>(
    rt: &'x R,
    semaphore: &'x Semaphore<'static>,
    permits: usize,
    patience: Patience,
) -> Option<Permit<'x, R>> {
    match patience {
        Patience::Over => semaphore.try_acquire_many(rt, permits),
        Patience::Endless => Some(semaphore.acquire_many(rt, permits)),
        Patience::For(_time) => None,
        Patience::Until(deadline) => semaphore.acquire_many_until(rt, permits, deadline),
    }
}

fn use_permit<R: Wait>(held: &mut Option<Permit<'_, R>>, words: &mut Words<'_>) -> Option<usize> {
    let call = words.word()?;
    let number = words.number_or_one();
    match call {
        "permits" => Some(held.as_ref()?.permits()),
        "split" => Some(usize::from(has(held.as_mut()?.split(number)))),
        "forget" => {
            SemaphorePermit::forget(held.take()?);
            Some(1)
        }
        "drop" => Some(usize::from(let_go(held))),
        _ => None,
    }
}

#[test]
fn permits_go_and_come_back(rt: HostRuntime) {
    let scripts = "# One thread has them.
semaphore acquire_many 3 ; permit permits -> 3 ; semaphore try_acquire -> 0
permit split 1 ; permit permits -> 2 ; semaphore available_permits -> 1
semaphore try_acquire_many 2 -> 0 ; permit split 3 -> 0 ; permit permits -> 2
permit split 1 ; semaphore available_permits -> 2
permit forget ; semaphore available_permits -> 2
semaphore add_permits 5 ; semaphore try_acquire_many 7 ; semaphore available_permits -> 0
permit drop ; semaphore available_permits -> 7";
    play_each(&rt, Kind::Semaphore, &[ROOM], 1, scripts);
}

#[test]
fn deadlines_of_a_semaphore_pass_or_do_not(rt: HostRuntime) {
    let scripts = "# None is left.
semaphore acquire_many 3
semaphore acquire_for short -> 0 ; semaphore acquire_until short -> 0
semaphore acquire_many_until no_time 2 -> 0
permit drop ; semaphore acquire_until no_time

# Some are given back, or added.
thread
semaphore acquire_many 3 ; raise held ; pause 2 ; permit drop ; await done 1
semaphore acquire_many 3 ; raise held ; pause 2 ; permit split 1 ; semaphore add_permits 1
thread
await held 1 ; semaphore acquire_for long ; permit drop ; raise done
await held 2 ; semaphore acquire_many_until long 2
after
semaphore available_permits -> 4";
    play_each(&rt, Kind::Semaphore, &ROOMS, 1, scripts);
}

#[test]
fn six_threads_share_three_permits(rt: HostRuntime) {
    let scripts = "# Nobody has permits that another has, and none is lost.
thread 2
repeat 300 semaphore acquire ; raise held 1 -> at_most 3 ; yield ; lower held 1 ; permit drop
thread 2
repeat 300 semaphore acquire_many 2 ; raise held 2 -> at_most 3 ; yield ; lower held 2 ; \
permit drop
thread 2
repeat 300 semaphore acquire_many 3 ; raise held 3 -> at_most 3 ; yield ; lower held 3 ; \
permit drop
after
semaphore available_permits -> 3";
    play_each(&rt, Kind::Semaphore, &ROOMS, 1, scripts);
}
