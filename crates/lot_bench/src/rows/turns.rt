//! Two threads that hand a turn to each other.

use crate::calls::unpark_all;
use crate::rows::alone::nothing;
use lot_threads::{
    DEFAULT_PARK_TOKEN, DEFAULT_UNPARK_TOKEN, Member, ParkResult, ParkingLot, ThreadParkerT,
    unpark_one,
};
use std::sync::Wait;
use std::sync::atomic::{AtomicU64, Ordering};
use std::time::{Clock, Instant};
use std::{hint, thread};

/// How often a loop that waits by turns looks before it has failed.
pub const TURNS: usize = 10_000_000;

/// What the word says once a side has given up, or all is over.
pub const OVER: u64 = 2;

/// Waits by turns until the word has this value. False says that it never had.
pub fn comes_to(word: &AtomicU64, value: usize) -> bool {
    for _ in 0..TURNS {
        if word.load(Ordering::SeqCst) == value as u64 {
            return true;
        }
        thread::yield_now();
    }
    false
}

/// Parks if the word has this value.
pub fn park_while<P: ThreadParkerT, R: Wait + Clock, B: FnOnce()>(
    rt: &R,
    member: &mut Member<'_, P>,
    key: usize,
    word: &AtomicU64,
    value: u64,
    before_sleep: B,
    timeout: Option<Instant>,
) -> ParkResult
    requires { B.pre before_sleep }
{
    let validate = || word.load(Ordering::SeqCst) == value;
    member.park(
        rt,
        key,
        validate,
        before_sleep,
        |_, _| (),
        DEFAULT_PARK_TOKEN,
        timeout,
    )
}

/// Unparks the first waiter of the key, and tells how many that were. A row that returned the whole
/// `UnparkResult` would measure how its padding is copied.
#[inline]
pub fn unparks<P: ThreadParkerT, R: Wait>(rt: &R, lot: &ParkingLot<P>, key: usize) -> usize {
    unpark_one(rt, lot, key, |_| DEFAULT_UNPARK_TOKEN).unparked_threads
}

/// Parks while the word is 0, and counts that it has come. False says that it was not let in.
pub fn comes_and_parks<P: ThreadParkerT, R: Wait + Clock>(
    rt: &R,
    member: &mut Member<'_, P>,
    key: usize,
    word: &AtomicU64,
    parked: &AtomicU64,
) -> bool {
    let comes = || {
        parked.fetch_add(1, Ordering::SeqCst);
    };
    park_while(rt, member, key, word, 0, comes, None).is_unparked()
}

/// Unparks the other side until it was parked, and then parks, in each round; the side 1 parks
/// first. False says that a side gave up. A side is 0 or 1, and so is its key.
pub fn takes_turns_strictly<P: ThreadParkerT, R: Wait + Clock>(
    rt: &R,
    member: &mut Member<'_, P>,
    word: &AtomicU64,
    side: usize,
    rounds: usize,
) -> bool {
    let lot = member.lot();
    for turn in 0..rounds.wrapping_mul(2) {
        let is_well = if turn % 2 == side {
            unparks_surely(rt, lot, word, side ^ 1)
        } else {
            park_while(rt, member, side, word, 0, nothing, None).is_unparked()
        };
        if !is_well {
            return false;
        }
    }
    true
}

// Unparks until it unparked the other side. False says that it gave up: the other side is woken,
// and does not park again.
fn unparks_surely<P: ThreadParkerT, R: Wait>(
    rt: &R,
    lot: &ParkingLot<P>,
    word: &AtomicU64,
    key: usize,
) -> bool {
    for _ in 0..TURNS {
        if unparks(rt, lot, key) == 1 {
            return true;
        }
        hint::spin_loop();
    }
    word.store(OVER, Ordering::SeqCst);
    unpark_all(rt, lot, key, DEFAULT_UNPARK_TOKEN);
    false
}

/// Parks until the word says that it is this side's turn, and then gives the turn to the other, in
/// each round. False says that a side gave up.
pub fn takes_turns_by_word<P: ThreadParkerT, R: Wait + Clock>(
    rt: &R,
    member: &mut Member<'_, P>,
    word: &AtomicU64,
    side: usize,
    rounds: usize,
) -> bool {
    let lot = member.lot();
    for _ in 0..rounds {
        let has_turn = awaits_turn(rt, member, word, side);
        let next = if has_turn { (side ^ 1) as u64 } else { OVER };
        word.store(next, Ordering::SeqCst);
        unparks(rt, lot, side ^ 1);
        if !has_turn {
            return false;
        }
    }
    true
}

// Parks until it is this side's turn. False says that it is nobody's, or never came.
fn awaits_turn<P: ThreadParkerT, R: Wait + Clock>(
    rt: &R,
    member: &mut Member<'_, P>,
    word: &AtomicU64,
    side: usize,
) -> bool {
    let other = (side ^ 1) as u64;
    for _ in 0..TURNS {
        let whose = word.load(Ordering::SeqCst);
        if whose != other {
            return whose == side as u64;
        }
        park_while(rt, member, side, word, other, nothing, None);
    }
    false
}
