//! Tests of `Once`, and of `OnceLock` and `LazyLock`, which upstream does not have.
//!
//! - `once`: `call_once N` (its closure raises `came`, and waits until `done` is N; it tells how
//!   many closures have begun to run), `is_completed`, `wait`.
//! - `cell`: `get` (0 is none), `set N`, `wait`, `get_or_init N` (its closure raises `came`),
//!   `get_or_try_init N` (which fails where that is 0).

use crate::player::{Kind, expect_played, play_each, play_locks};
use crate::stage::{Actor, Host, ROOMS, new_lot};
use parking_lot::{Once, OnceLock};
use std::sync::Wait;
use std::sync::atomic::{AtomicUsize, Ordering};
use std::time::Clock;
use test_support::counts::Counts;
use test_support::player::{Hand, Script, Stage, play_lines};
use test_support::waits::comes_to;
use test_support::words::Words;

/// Plays a script on a new once and a new cell.
pub fn play<R: Host>(rt: &R, room: usize, script: &Script<'_>) {
    let lot = new_lot(rt, room);
    let stage = OnceStage {
        once: Once::new(lot).expect(rt, "a once"),
        cell: OnceLock::new(lot).expect(rt, "a cell"),
        counts: Counts::new(),
    };
    play_locks(rt, &stage, script);
}

#[derive(Drop)]
struct OnceStage {
    once: Once<'static>,
    cell: OnceLock<'static, usize>,
    counts: Counts,
}

impl<R: Actor> Stage<R> for OnceStage {
    fn play_place<'x>(&'x self, rt: &'x R, script: &Script<'_>, place: usize) {
        let mut hand = OnceHand { rt, stage: self };
        let other = play_lines(rt, &self.counts, &mut hand, script, place);
        expect_played(rt, other, script);
    }
}

#[derive(Drop)]
struct OnceHand<'x, R> {
    rt: &'x R,
    stage: &'x OnceStage,
}

impl<R: Wait + Clock> Hand for OnceHand<'_, R> {
    fn call(&mut self, first: &str, words: &mut Words<'_>) -> Option<usize> {
        let stage = self.stage;
        match first {
            "once" => use_once(self.rt, &stage.once, &stage.counts, words),
            "cell" => use_cell(self.rt, &stage.cell, stage.counts.named("came"), words),
            _ => None,
        }
    }
}

fn use_once<R: Wait + Clock>(
    rt: &R,
    once: &Once<'static>,
    counts: &Counts,
    words: &mut Words<'_>,
) -> Option<usize> {
    match words.word()? {
        "is_completed" => Some(usize::from(once.is_completed())),
        "wait" => {
            once.wait(rt);
            Some(1)
        }
        "call_once" => {
            let least = words.number()?;
            once.call_once(rt, |_begun| {
                counts.named("came").fetch_add(1, Ordering::SeqCst);
                comes_to(counts.named("done"), least);
            });
            Some(counts.named("came").load(Ordering::SeqCst))
        }
        _ => None,
    }
}

fn use_cell<R: Wait + Clock>(
    rt: &R,
    cell: &OnceLock<'static, usize>,
    runs: &AtomicUsize,
    words: &mut Words<'_>,
) -> Option<usize> {
    let call = words.word()?;
    let number = words.number_or_one();
    match call {
        "get" => Some(number_in(cell.get())),
        "wait" => Some(*cell.wait(rt)),
        "set" => Some(usize::from(cell.set(rt, number).is_ok())),
        "get_or_init" => Some(*cell.get_or_init(rt, || compute(runs, number))),
        "get_or_try_init" => Some(tried(rt, cell, number)),
        _ => None,
    }
}

// A number that may be there, or 0.
fn number_in(found: Option<&usize>) -> usize {
    match found {
        Some(number) => *number,
        None => 0,
    }
}

fn tried<R: Wait + Clock>(rt: &R, cell: &OnceLock<'static, usize>, number: usize) -> usize {
    let found = cell.get_or_try_init(rt, || if number == 0 { Err(()) } else { Ok(number) });
    number_in(found.ok())
}

// A number that takes long to compute.
fn compute(runs: &AtomicUsize, number: usize) -> usize {
    runs.fetch_add(1, Ordering::SeqCst);
    number
}

#[test]
fn one_closure_runs(rt: HostRuntime) {
    let scripts = "# smoke_once, and the example of the documentation
once is_completed -> 0 ; once call_once 0 -> 1 ; once is_completed
once call_once 0 -> 1 ; once is_completed ; once wait

# stampede_once
thread 11
repeat 4 yield
once call_once 0 -> 1

# The example of call_once: a cached value.
thread 10
cell get_or_init 2 -> 2
thread
cell wait -> 2
after
tell came -> 1";
    play_each(&rt, Kind::Onces, &ROOMS, 20, scripts);
}

#[test]
fn others_wait_for_the_closure(rt: HostRuntime) {
    let scripts = "# wait_for_force_to_finish, but for the poison with which that begins
thread
once call_once 1
thread
await came ; once is_completed -> 0 ; raise done ; once call_once 0 -> 1 ; once is_completed

# A cell is set once.
cell get -> 0 ; cell get_or_try_init 0 -> 0 ; cell set 5 ; cell set 6 -> 0 ; cell get -> 5
cell get_or_try_init 7 -> 5";
    play_each(&rt, Kind::Onces, &ROOMS, 1, scripts);
}
