//! Scripts that threads play on the locks of one kind, by `test_support::player`.
//!
//! The first word of a call names what is called, and the second the call: `mutex`, `guard`,
//! `condvar`, `other_condvar`, `rwlock`, `reader`, `upgradable`, `writer`, `semaphore`, `permit`,
//! `once`, `cell` and `reentrant`, a call of a lock, or of what the thread holds of it. The modules
//! of the locks tell what comes out of each, and what else there is. The counts that scripts use
//! are `came`, `held` and `done`.
//!
//! A line `begins N` says what the locks have as values, if not 0, and a line `leaves N` what the
//! lock gives back at last, of several the first. Several scripts stand in one text, with an empty
//! line between them.

use crate::stage::{Host, expect};
use crate::{collections, mutex, once, reentrant_mutex, rw_lock, semaphore};
use parking_lot::mutex::{Barging, InOrder};
use std::alloc::AllocGlobal;
use std::process::Abort;
use test_support::player::{Script, Stage, play_on};

/// Locks that have values.
pub trait Valued {
    /// Changes their values, before any thread has them.
    fn begin(&mut self, value: usize);

    /// The value of the first of them.
    fn end(self) -> usize;
}

/// A kind of locks.
#[derive(Clone, Copy)]
pub enum Kind {
    // Those that bar nobody, and then the fair ones.
    Mutexes,
    RwLock,
    ReentrantMutex,
    Semaphore,
    Onces,

    // Those of `examples`, which stand on locks.
    Collections,
}

/// Expects that no line went otherwise than it says.
pub fn expect_played<R: Abort + AllocGlobal>(rt: &R, other: Option<usize>, script: &Script<'_>) {
    let Script { text, values } = *script;
    assert!(rt;
        other.is_none(),
        "line {other:?} with {values:?} in\n{text}"
    );
}

/// Plays a script on this stage, which is new.
pub fn play_locks<S: Stage<R> + Sync, R: Host>(rt: &R, stage: &S, script: &Script<'_>) {
    let is_played = play_on(rt, rt.alloc(), stage, script);
    expect(rt, is_played, "threads");
}

/// Plays a script on this stage, which is new, and looks at the values of its locks.
pub fn play_valued<S: Stage<R> + Valued + Sync, R: Host>(
    rt: &R,
    mut stage: S,
    script: &Script<'_>,
) {
    if let Some(value) = script.told("begins") {
        stage.begin(value);
    }
    play_locks(rt, &stage, script);
    let value = stage.end();
    expect(
        rt,
        script.told("leaves").unwrap_or(value) == value,
        script.text,
    );
}

/// Plays each script of a text in a lot of each of these sizes, so often, with locks of this kind.
pub fn play_each<R: Host>(rt: &R, kind: Kind, rooms: &[usize], times: usize, scripts: &str) {
    for text in scripts.split("\n\n") {
        for room in rooms {
            let values = [*room];
            let script = Script {
                text,
                values: &values,
            };
            for _ in 0..times {
                play(rt, kind, *room, &script);
            }
        }
    }
}

// Plays a script on a new stage.
fn play<R: Host>(rt: &R, kind: Kind, room: usize, script: &Script<'_>) {
    match kind {
        Kind::Mutexes => {
            mutex::play::<Barging, R>(rt, room, script);
            mutex::play::<InOrder, R>(rt, room, script);
        }
        Kind::RwLock => rw_lock::play(rt, room, script),
        Kind::ReentrantMutex => reentrant_mutex::play(rt, room, script),
        Kind::Semaphore => semaphore::play(rt, room, script),
        Kind::Onces => once::play(rt, room, script),
        Kind::Collections => collections::play(rt, room, script),
    }
}
