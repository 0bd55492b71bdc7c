//! This module has the way in which threads take the lock, and wait for it.

ghost use Rattle.std.specs.Prelude.{◌≡◌, ◌≢◌, None, IsSome};

use super::waking::Front;
use super::{DOWNGRADING, DRAINS, KEPT, KEPT_ONCE, PARKED, RwLock, UPGRADING, WRITER};
use crate::lot::{instant_after, is_past};
use lot_threads::{ParkResult, ParkToken, SpinWait, UnparkToken, thread_yield};
use std::sync;
use std::sync::Wait;
use std::sync::atomic::Ordering;
use std::time::{Clock, Duration, Instant};

pub(super) const READS: ParkToken = ParkToken(0);

pub(super) const WRITES: ParkToken = ParkToken(1);

// What a woken thread is told for which the lock is kept.
pub(super) const IS_KEPT: UnparkToken = UnparkToken(1);

/// `Turn` says how far a thread has come that wants the lock.
#[derive(Clone, Copy)]
pub(super) enum Turn {
    Comes,
    Woken,
    // The lock is kept for it.
    Kept,
}

/// `Access` says what a thread wants: a guard `G` of the std lock.
pub(super) trait Access<'a, T, G: Drop>: Copy {
    /// The token with which the thread parks.
    const TOKEN: ParkToken;

    /// Returns the bits that say that such a thread is parked.
    fn parks_under(self) -> usize;

    /// Returns the bits that keep the thread out.
    fn is_kept_out_by(self, turn: Turn) -> usize;

    /// Takes the std lock if it is free.
    fn try_value(self, value: &'a sync::RwLock<T>) -> Option<G>;
}

/// A `Reader` is a thread that wants to read.
#[derive(Clone, Copy)]
pub(super) enum Reader {
    Comes,
    // It may read already.
    Recurs,
}

impl<'a, T: 'a> Access<'a, T, sync::RwLockReadGuard<'a, T>> for Reader {
    const TOKEN: ParkToken = READS;

    fn parks_under(self) -> usize {
        PARKED
    }

    #[inline]
    fn is_kept_out_by(self, turn: Turn) -> usize {
        match (self, turn) {
            (Reader::Comes, Turn::Comes) => WRITER | UPGRADING,
            _ => 0,
        }
    }

    #[inline]
    fn try_value(self, value: &'a sync::RwLock<T>) -> Option<sync::RwLockReadGuard<'a, T>> {
        value.try_read()
    }
}

/// A `Writer` is a thread that wants to write.
#[derive(Clone, Copy)]
pub(super) enum Writer {
    Comes,
    // It has the right to upgrade, and has let its read go.
    Upgrades,
}

impl<'a, T: 'a> Access<'a, T, sync::RwLockWriteGuard<'a, T>> for Writer {
    const TOKEN: ParkToken = WRITES;

    fn parks_under(self) -> usize {
        match self {
            Writer::Comes => PARKED | WRITER,
            Writer::Upgrades => DRAINS,
        }
    }

    #[inline]
    fn is_kept_out_by(self, turn: Turn) -> usize {
        match (self, turn) {
            (Writer::Comes, Turn::Comes) => UPGRADING | DOWNGRADING | KEPT,
            (Writer::Comes, _) => UPGRADING | DOWNGRADING,
            (Writer::Upgrades, _) => DOWNGRADING,
        }
    }

    #[inline]
    fn try_value(self, value: &'a sync::RwLock<T>) -> Option<sync::RwLockWriteGuard<'a, T>> {
        value.try_write()
    }
}

// How a park for the lock ended.
enum Parked<G: Drop> {
    // Its last look took the lock.
    Took(G),
    NotLetIn,
    Unparked(UnparkToken),
    TimedOut,
    LotIsFull,
}

impl<'l, T> RwLock<'l, T> {
    /// Takes the lock, and waits for it if it has to.
    #[inline]
    pub(super) fn take<'a, R: Wait + Clock, G: Drop, A: Access<'a, T, G>>(
        &'a self,
        rt: &R,
        access: A,
    ) -> G {
        match self.try_take(rt, access, Turn::Comes) {
            Some(held) => held,
            None => self.wait(rt, access),
        }
    }

    /// Takes the lock if it need not wait.
    #[inline]
    pub(super) fn try_take<'a, R: Wait, G: Drop, A: Access<'a, T, G>>(
        &'a self,
        rt: &R,
        access: A,
        turn: Turn,
    ) -> Option<G> {
        let held = self.look(access, turn)?;
        self.keep(rt, access, turn, held)
    }

    /// Takes the lock, and waits for it no longer than for the duration.
    pub(super) fn take_for<'a, R: Wait + Clock, G: Drop, A: Access<'a, T, G>>(
        &'a self,
        rt: &R,
        access: A,
        duration: Duration,
    ) -> Option<G> {
        match self.try_take(rt, access, Turn::Comes) {
            Some(held) => Some(held),
            None => self.take_until(rt, access, instant_after(rt, duration).ok()?),
        }
    }

    // Takes std's lock, if that is free and no bit keeps the thread out.
    #[inline]
    fn look<'a, G: Drop, A: Access<'a, T, G>>(&'a self, access: A, turn: Turn) -> Option<G> {
        if self.has(access.is_kept_out_by(turn)) {
            None
        } else {
            access.try_value(&self.value)
        }
    }

    // Keeps what a look took, or lets it go again if a bit keeps the writer out by now.
    #[inline]
    fn keep<'a, R: Wait, G: Drop, A: Access<'a, T, G>>(
        &'a self,
        rt: &R,
        access: A,
        turn: Turn,
        held: G,
    ) -> Option<G> {
        if A::TOKEN == WRITES && self.has(access.is_kept_out_by(turn)) {
            drop(held);
            self.wake(rt, Front::Nobody);
            return None;
        }
        if let Turn::Kept = turn {
            self.note_kept_no_longer();
        }
        Some(held)
    }

    fn note_kept_no_longer(&self) {
        self.state.fetch_sub(KEPT_ONCE, Ordering::SeqCst);
    }

    #[cold]
    #[inline(never)]
    fn wait<'a, R: Wait + Clock, G: Drop, A: Access<'a, T, G>>(&'a self, rt: &R, access: A) -> G {
        self.take_until(rt, access, None).unwrap()
    }

    /// Takes the lock, and waits for it no longer than until the deadline.
    pub(super) fn take_until<'a, R: Wait + Clock, G: Drop, A: Access<'a, T, G>>(
        &'a self,
        rt: &R,
        access: A,
        deadline: Option<Instant>,
    ) -> Option<G>
        ensures { deadline ≡ None → IsSome result }
    {
        let mut turn = Turn::Comes;
        let mut spin = SpinWait::new();
        for _ in rt.forever() {
            if let Some(held) = self.try_take(rt, access, turn) {
                return Some(held);
            }
            // The readers that keep a woken writer waiting leave soon, since no others come.
            if (A::TOKEN == WRITES || !self.has(PARKED)) && spin.spin() {
                continue;
            }
            match self.park(rt, access, turn, deadline) {
                Parked::Took(held) => {
                    if let Some(held) = self.keep(rt, access, turn, held) {
                        return Some(held);
                    }
                }
                Parked::NotLetIn => (),
                Parked::Unparked(token) => turn = self.next_turn(turn, token),
                Parked::LotIsFull if !is_past(rt, deadline) => thread_yield(),
                Parked::TimedOut | Parked::LotIsFull => {
                    self.give_up(rt, A::TOKEN, turn);
                    return None;
                }
            }
            spin.reset();
        }
        unreachable!()
    }

    // The turn of a thread that was unparked. Whoever was told twice that the lock is kept for it
    // has it only once.
    fn next_turn(&self, turn: Turn, token: UnparkToken) -> Turn {
        match (turn, token) {
            (Turn::Kept, IS_KEPT) => {
                self.note_kept_no_longer();
                Turn::Kept
            }
            (Turn::Kept, _) | (_, IS_KEPT) => Turn::Kept,
            _ => Turn::Woken,
        }
    }

    // Leaves without the lock, which is kept for this thread no longer.
    fn give_up<R: Wait>(&self, rt: &R, token: ParkToken, turn: Turn) {
        if let Turn::Kept = turn {
            self.note_kept_no_longer();
            self.wake(rt, Front::Nobody);
        }
        if token == WRITES {
            self.wake(rt, Front::Readers);
        }
    }

    // Parks on the key unless a look takes the lock, with the bits up before it.
    fn park<'a, R: Wait + Clock, G: Drop, A: Access<'a, T, G>>(
        &'a self,
        rt: &R,
        access: A,
        turn: Turn,
        deadline: Option<Instant>,
    ) -> Parked<G>
        ensures { deadline ≡ None → result ≢ Parked.TimedOut }
    {
        let bits = access.parks_under();
        let mut held = None;
        let parked = self.lot.park(
            rt,
            if bits == DRAINS { self.drain } else { self.key },
            || {
                self.state.fetch_or(bits, Ordering::SeqCst);
                held = self.look(access, turn);
                held.is_none()
            },
            || (),
            |_, _| (),
            A::TOKEN,
            deadline,
        );
        match (held, parked) {
            (Some(held), _) => Parked::Took(held),
            (None, None) => Parked::LotIsFull,
            (None, Some(ParkResult::Unparked(token))) => Parked::Unparked(token),
            (None, Some(ParkResult::Invalid)) => Parked::NotLetIn,
            (None, Some(ParkResult::TimedOut)) => Parked::TimedOut,
        }
    }
}
