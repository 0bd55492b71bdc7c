//! Tests of `RwLock`.
//!
//! - `rwlock`: `read`, `read_for TIME`, `read_until TIME`, the same of `read_recursive`,
//!   `upgradable_read` and `write` (whether the thread has it now), `try_read`,
//!   `try_read_recursive`, `try_upgradable_read`, `try_write` (whether it had it, which is let go
//!   at once), `is_locked`, `is_locked_exclusive`, `look` (reads, and tells that no writer is
//!   caught in the act).
//! - `reader`, `upgradable`, `writer`: the calls of each guard, and of one that writes.
//! - `upgradable`: `upgrade`, `try_upgrade`, `upgrade_for TIME`, `upgrade_until TIME` (whether the
//!   thread writes now), `downgrade`. `writer`: `downgrade`, `downgrade_to_upgradable`.

use crate::held::{GuardCall, Held, use_held, use_writing};
use crate::player::{Kind, Valued, expect_played, play_each, play_valued};
use crate::stage::{
    Actor, BETWEEN, Host, Patience, ROOM, ROOMS, has, hold, keep, let_go, new_lot, value_in,
};
use parking_lot::{RwLock, RwLockReadGuard, RwLockUpgradableReadGuard, RwLockWriteGuard};
use std::sync::Wait;
use std::time::Clock;
use test_support::counts::Counts;
use test_support::player::{Hand, Script, Stage, play_lines};
use test_support::words::Words;

type Lock = RwLock<'static, usize>;

type Reader<'x, R> = RwLockReadGuard<'x, 'x, 'static, usize, R>;

type Upgradable<'x, R> = RwLockUpgradableReadGuard<'x, 'x, 'static, usize, R>;

type Writer<'x, R> = RwLockWriteGuard<'x, 'x, 'static, usize, R>;

/// Plays a script on a new lock.
pub fn play<R: Host>(rt: &R, room: usize, script: &Script<'_>) {
    let lock = RwLock::new(new_lot(rt, room), 0).expect(rt, "a lock");
    let counts = Counts::new();
    play_valued(rt, OneLock { lock, counts }, script);
}

#[derive(Drop)]
struct OneLock {
    lock: Lock,
    counts: Counts,
}

impl Valued for OneLock {
    fn begin(&mut self, value: usize) {
        *self.lock.get_mut() = value;
    }

    fn end(self) -> usize {
        self.lock.into_inner()
    }
}

impl<R: Actor> Stage<R> for OneLock {
    fn play_place<'x>(&'x self, rt: &'x R, script: &Script<'_>, place: usize) {
        let mut guards = Guards {
            rt,
            lock: &self.lock,
            reader: None,
            upgradable: None,
            writer: None,
            last: 0,
        };
        let other = play_lines(rt, &self.counts, &mut guards, script, place);
        expect_played(rt, other, script);
    }
}

// What a thread holds of the lock, and the value that it saw or wrote last.
#[derive(Drop)]
struct Guards<'x, R: Wait> {
    rt: &'x R,
    lock: &'x Lock,
    reader: Option<Reader<'x, R>>,
    upgradable: Option<Upgradable<'x, R>>,
    writer: Option<Writer<'x, R>>,
    last: usize,
}

impl<R: Wait + Clock> Hand for Guards<'_, R> {
    fn call(&mut self, first: &str, words: &mut Words<'_>) -> Option<usize> {
        let call = words.word()?;
        match first {
            "rwlock" => use_rwlock(self, call, words),
            "reader" => use_held(self.rt, &mut self.reader, &mut self.last, call),
            "upgradable" => use_upgradable(self, call, words),
            "writer" => use_writer(self, call, words),
            _ => None,
        }
    }
}

fn use_rwlock<R: Wait + Clock>(
    guards: &mut Guards<'_, R>,
    call: &str,
    words: &mut Words<'_>,
) -> Option<usize> {
    let (rt, lock) = (guards.rt, guards.lock);
    let (name, patience) = Patience::of(rt, call, words)?;
    let is_well = match name {
        "read" => have(&mut guards.reader, read(rt, lock, patience), patience),
        "read_recursive" => {
            have(
                &mut guards.reader,
                read_recursively(rt, lock, patience),
                patience,
            )
        }
        "upgradable_read" => {
            have(
                &mut guards.upgradable,
                read_upgradably(rt, lock, patience),
                patience,
            )
        }
        "write" => have(&mut guards.writer, write(rt, lock, patience), patience),
        _ => looks(rt, lock, name)?,
    };
    Some(usize::from(is_well))
}

// Has a thread hold what it found, but for what it only tried to find. Tells whether it found it.
fn have<G: Drop>(held: &mut Option<G>, found: Option<G>, patience: Patience) -> bool {
    match patience {
        Patience::Over => has(found),
        _ => keep(held, found),
    }
}

fn looks<R: Wait + Clock>(rt: &R, lock: &Lock, call: &str) -> Option<bool> {
    match call {
        "is_locked" => Some(lock.is_locked(rt)),
        "is_locked_exclusive" => Some(lock.is_locked_exclusive(rt)),
        "look" => Some(value_in(lock.read(rt)) != BETWEEN),
        _ => None,
    }
}

fn read<'x, R: Wait + Clock>(
    rt: &'x R,
    lock: &'x Lock,
    patience: Patience,
) -> Option<Reader<'x, R>> {
    match patience {
        Patience::Over => lock.try_read(rt),
        Patience::Endless => Some(lock.read(rt)),
        Patience::For(time) => lock.read_for(rt, time),
        Patience::Until(deadline) => lock.read_until(rt, deadline),
    }
}

fn read_recursively<'x, R: Wait + Clock>(
    rt: &'x R,
    lock: &'x Lock,
    patience: Patience,
) -> Option<Reader<'x, R>> {
    match patience {
        Patience::Over => lock.try_read_recursive(rt),
        Patience::Endless => Some(lock.read_recursive(rt)),
        Patience::For(time) => lock.read_recursive_for(rt, time),
        Patience::Until(deadline) => lock.read_recursive_until(rt, deadline),
    }
}

fn read_upgradably<'x, R: Wait + Clock>(
    rt: &'x R,
    lock: &'x Lock,
    patience: Patience,
) -> Option<Upgradable<'x, R>> {
    match patience {
        Patience::Over => lock.try_upgradable_read(rt),
        Patience::Endless => Some(lock.upgradable_read(rt)),
        Patience::For(time) => lock.upgradable_read_for(rt, time),
        Patience::Until(deadline) => lock.upgradable_read_until(rt, deadline),
    }
}

fn write<'x, R: Wait + Clock>(
    rt: &'x R,
    lock: &'x Lock,
    patience: Patience,
) -> Option<Writer<'x, R>> {
    match patience {
        Patience::Over => lock.try_write(rt),
        Patience::Endless => Some(lock.write(rt)),
        Patience::For(time) => lock.write_for(rt, time),
        Patience::Until(deadline) => lock.write_until(rt, deadline),
    }
}

fn use_upgradable<R: Wait + Clock>(
    guards: &mut Guards<'_, R>,
    call: &str,
    words: &mut Words<'_>,
) -> Option<usize> {
    let (name, patience) = Patience::of(guards.rt, call, words)?;
    match name {
        "upgrade" => upgrade_held(&mut guards.upgradable, &mut guards.writer, patience),
        "downgrade" => downgrade_held(&mut guards.upgradable, &mut guards.reader),
        "value" => {
            guards.last = **guards.upgradable.as_ref()?;
            Some(guards.last)
        }
        _ => pass_upgradable(guards.rt, guards.lock, &mut guards.upgradable, call),
    }
}

// The toolchain does not prove `use_held` for such a guard.
fn pass_upgradable<'x, R: Wait + Clock>(
    rt: &'x R,
    lock: &'x Lock,
    held: &mut Option<Upgradable<'x, R>>,
    call: &str,
) -> Option<usize> {
    match call {
        "is_locked" => {
            let lock = RwLockUpgradableReadGuard::rwlock(held.as_ref()?);
            return Some(usize::from(lock.is_locked(rt)));
        }
        "bump" => {
            let guard = RwLockUpgradableReadGuard::bump(held.take()?);
            hold(held, guard);
        }
        "unlocked" => {
            let try_to_read = || has(lock.try_read(rt));
            let (guard, found) = RwLockUpgradableReadGuard::unlocked(held.take()?, try_to_read);
            hold(held, guard);
            return Some(usize::from(found));
        }
        "unlock_fair" => RwLockUpgradableReadGuard::unlock_fair(held.take()?),
        "unlock" => return Some(usize::from(let_go(held))),
        _ => return None,
    }
    Some(1)
}

fn downgrade_held<'x, R: Wait + Clock>(
    upgradable: &mut Option<Upgradable<'x, R>>,
    reader: &mut Option<Reader<'x, R>>,
) -> Option<usize> {
    let guard = RwLockUpgradableReadGuard::downgrade(upgradable.take()?);
    hold(reader, guard);
    Some(1)
}

fn upgrade_held<'x, R: Wait + Clock>(
    upgradable: &mut Option<Upgradable<'x, R>>,
    writer: &mut Option<Writer<'x, R>>,
    patience: Patience,
) -> Option<usize> {
    match upgrade(upgradable.take()?, patience) {
        Ok(guard) => {
            hold(writer, guard);
            Some(1)
        }
        Err(guard) => {
            hold(upgradable, guard);
            Some(0)
        }
    }
}

fn upgrade<'x, R: Wait + Clock>(
    guard: Upgradable<'x, R>,
    patience: Patience,
) -> Result<Writer<'x, R>, Upgradable<'x, R>> {
    match patience {
        Patience::Over => RwLockUpgradableReadGuard::try_upgrade(guard),
        Patience::Endless => Ok(RwLockUpgradableReadGuard::upgrade(guard)),
        Patience::For(time) => RwLockUpgradableReadGuard::upgrade_for(guard, time),
        Patience::Until(deadline) => RwLockUpgradableReadGuard::upgrade_until(guard, deadline),
    }
}

fn use_writer<R: Wait + Clock>(
    guards: &mut Guards<'_, R>,
    call: &str,
    words: &mut Words<'_>,
) -> Option<usize> {
    match call {
        "downgrade" => {
            let guard = RwLockWriteGuard::downgrade(guards.writer.take()?);
            hold(&mut guards.reader, guard);
            Some(1)
        }
        "downgrade_to_upgradable" => {
            let guard = RwLockWriteGuard::downgrade_to_upgradable(guards.writer.take()?);
            hold(&mut guards.upgradable, guard);
            Some(1)
        }
        _ => use_writing(guards.rt, &mut guards.writer, &mut guards.last, call, words),
    }
}

impl<'x, R: Wait + Clock> Held for Reader<'x, R> {
    fn pass<H: Wait>(self, rt: &H, call: GuardCall) -> (Option<Self>, bool) {
        let lock = RwLockReadGuard::rwlock(&self);
        match call {
            GuardCall::IsLocked => (Some(self), lock.is_locked(rt)),
            GuardCall::Bump => (Some(RwLockReadGuard::bump(self)), true),
            GuardCall::Unlocked => {
                let (guard, found) = RwLockReadGuard::unlocked(self, || has(lock.try_write(rt)));
                (Some(guard), found)
            }
            GuardCall::UnlockFair => {
                RwLockReadGuard::unlock_fair(self);
                (None, true)
            }
        }
    }
}

impl<'x, R: Wait + Clock> Held for Writer<'x, R> {
    fn pass<H: Wait>(self, rt: &H, call: GuardCall) -> (Option<Self>, bool) {
        let lock = RwLockWriteGuard::rwlock(&self);
        match call {
            GuardCall::IsLocked => (Some(self), lock.is_locked_exclusive(rt)),
            GuardCall::Bump => (Some(RwLockWriteGuard::bump(self)), true),
            GuardCall::Unlocked => {
                let (guard, found) = RwLockWriteGuard::unlocked(self, || has(lock.try_read(rt)));
                (Some(guard), found)
            }
            GuardCall::UnlockFair => {
                RwLockWriteGuard::unlock_fair(self);
                (None, true)
            }
        }
    }
}

#[test]
fn tries_beside_each_guard(rt: HostRuntime) {
    let scripts = "# smoke
rwlock read ; reader unlock ; rwlock write ; writer unlock
rwlock upgradable_read ; upgradable unlock
rwlock read ; rwlock try_read ; rwlock upgradable_read ; reader unlock ; upgradable unlock
rwlock write

# test_rwlock_try_read, _try_write, _try_upgrade, and test_rw_write_is_locked
rwlock read ; rwlock try_read ; rwlock try_write -> 0 ; rwlock try_upgradable_read
rwlock is_locked ; rwlock is_locked_exclusive -> 0 ; reader unlock
rwlock upgradable_read ; rwlock try_read ; rwlock try_write -> 0
rwlock try_upgradable_read -> 0 ; rwlock is_locked ; rwlock is_locked_exclusive -> 0
upgradable unlock
rwlock write ; rwlock try_read -> 0 ; rwlock try_write -> 0 ; rwlock try_upgradable_read -> 0
rwlock try_read_recursive -> 0 ; rwlock is_locked ; rwlock is_locked_exclusive ; writer unlock
rwlock try_read ; rwlock try_write ; rwlock try_upgradable_read ; rwlock try_read_recursive
rwlock is_locked -> 0 ; rwlock is_locked_exclusive -> 0

# into_inner_and_get_mut
begins 20
leaves 20

# into_inner
leaves 0";
    play_each(&rt, Kind::RwLock, &[ROOM], 1, scripts);
}

#[test]
fn threads_share_a_lock(rt: HostRuntime) {
    let scripts = "# frob
thread 5
repeat 100 rwlock write ; writer unlock ; rwlock look ; rwlock look ; rwlock look ; \
rwlock look ; rwlock look ; rwlock look ; rwlock look ; rwlock look ; rwlock look
thread 5
repeat 100 rwlock look ; rwlock look ; rwlock look ; rwlock look ; rwlock look ; \
rwlock look ; rwlock look ; rwlock look ; rwlock look ; rwlock write ; writer unlock

# test_ruw_arc
leaves 15
thread
repeat 10 rwlock write ; writer slowly ; writer unlock
thread 5
rwlock upgradable_read ; upgradable value -> any ; yield ; upgradable upgrade ; writer still
writer slowly
thread 5
rwlock look

# test_rw_arc
leaves 10
thread
rwlock write
repeat 10 writer slowly
thread 5
rwlock look

# test_rwlock_downgrade
leaves 800
thread 8
repeat 100 rwlock write ; writer add 1 ; writer downgrade ; reader still ; reader unlock

# Bumps and fair unlocks lose nothing.
leaves 800
thread 4
repeat 200 rwlock read ; reader bump ; reader unlocked -> any ; reader is_locked ; \
reader unlock_fair ; rwlock upgradable_read ; upgradable bump ; upgradable unlocked -> any ; \
upgradable is_locked ; upgradable unlock_fair ; rwlock write ; writer bump ; \
writer unlocked -> any ; writer add 1 ; writer is_locked ; writer unlock_fair";
    play_each(&rt, Kind::RwLock, &ROOMS, 1, scripts);
}

#[test]
fn readers_beside_readers_and_a_waiting_writer(rt: HostRuntime) {
    let scripts = "# The example of the documentation.
begins 5
leaves 6
thread 2
rwlock read ; reader value -> 5 ; raise came ; await came 2
after
rwlock write ; writer add 1 ; writer value -> 6

# test_rwlock_recursive: a read waits behind the writer, and a recursive one does not.
thread
rwlock read ; raise held
until rwlock try_read -> 0
rwlock try_read_recursive ; rwlock read_recursive
thread
await held ; rwlock write";
    play_each(&rt, Kind::RwLock, &[ROOM], 1, scripts);
}

// It refuses a call that leaves the lock closed to others as it gives up.
#[test]
fn deadlines_of_a_lock_pass_or_do_not(rt: HostRuntime) {
    let scripts = "# Somebody writes, and then nobody.
rwlock write
rwlock read_for short -> 0 ; rwlock read_until short -> 0
rwlock read_recursive_for short -> 0 ; rwlock read_recursive_until short -> 0
rwlock upgradable_read_for short -> 0 ; rwlock upgradable_read_until short -> 0
rwlock write_for short -> 0 ; rwlock write_until short -> 0
writer unlock
rwlock read_for short ; reader unlock ; rwlock read_until short ; reader unlock
rwlock read_recursive_for short ; reader unlock ; rwlock read_recursive_until short
reader unlock
rwlock upgradable_read_for short ; upgradable unlock ; rwlock upgradable_read_until short
upgradable unlock
rwlock write_for short ; writer unlock ; rwlock write_until short

# Whoever writes lets it go.
thread
repeat 8 rwlock write ; raise held ; pause 2 ; writer unlock ; await done ; lower done
thread
await held ; lower held ; rwlock read_for long ; reader unlock ; raise done
await held ; lower held ; rwlock read_until long ; reader unlock ; raise done
await held ; lower held ; rwlock read_recursive_for long ; reader unlock ; raise done
await held ; lower held ; rwlock read_recursive_until long ; reader unlock ; raise done
await held ; lower held ; rwlock upgradable_read_for long ; upgradable unlock ; raise done
await held ; lower held ; rwlock upgradable_read_until long ; upgradable unlock ; raise done
await held ; lower held ; rwlock write_for long ; writer unlock ; raise done
await held ; lower held ; rwlock write_until long ; writer unlock ; raise done";
    play_each(&rt, Kind::RwLock, &ROOMS, 1, scripts);
}

#[test]
fn upgrades_and_downgrades(rt: HostRuntime) {
    let scripts = "# A reader keeps an upgrade out, and the guard that may be upgraded comes back.
rwlock read ; rwlock upgradable_read ; upgradable try_upgrade -> 0
upgradable upgrade_for short -> 0 ; upgradable upgrade_until no_time -> 0
rwlock try_read ; rwlock try_upgradable_read -> 0
reader unlock ; upgradable try_upgrade ; writer unlock ; rwlock is_locked -> 0

# Nobody reads.
rwlock upgradable_read ; upgradable upgrade_for long ; writer unlock
rwlock upgradable_read ; upgradable upgrade_until long ; writer unlock
rwlock upgradable_read ; upgradable downgrade ; rwlock try_upgradable_read ; reader unlock
rwlock write ; writer downgrade_to_upgradable ; rwlock try_read
rwlock try_upgradable_read -> 0 ; upgradable unlock ; rwlock is_locked -> 0";
    play_each(&rt, Kind::RwLock, &ROOMS, 1, scripts);
}
