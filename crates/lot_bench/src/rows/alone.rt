//! What one thread does with the lot, again and again.

use crate::rows::turns::unparks;
use lot_threads::{
    DEFAULT_PARK_TOKEN, DEFAULT_UNPARK_TOKEN, Member, ParkResult, ParkingLot, ThreadParkerT,
    unpark_one,
};
use std::sync::Wait;
use std::sync::atomic::{AtomicU64, Ordering};
use std::time::{Clock, Instant};

/// Before a thread sleeps it does nothing.
pub fn nothing() {}

/// Unparks one on a key, and on the keys behind it by such steps, where nobody waits. False says
/// that somebody did. Its closure is that of no other row, so that the unpark becomes a part of the
/// loop, as in a program that unparks at one place.
pub fn unparks_nobody<P: ThreadParkerT, R: Wait>(
    rt: &R,
    lot: &ParkingLot<P>,
    first: usize,
    step: usize,
    calls: usize,
) -> bool {
    let (mut key, mut unparked) = (first, 0usize);
    for _ in 0..calls {
        let found = unpark_one(rt, lot, key, |_| DEFAULT_UNPARK_TOKEN);
        unparked = unparked.wrapping_add(found.unparked_threads);
        key = key.wrapping_add(step);
    }
    unparked == 0
}

/// Parks on the key, where the validation answers false unless the word is 0. False says that a
/// park did not end with this result. Its closures are those of no other row, so that the park
/// becomes a part of the loop, as in a program that parks at one place.
pub fn parks<P: ThreadParkerT, R: Wait + Clock>(
    rt: &R,
    member: &mut Member<'_, P>,
    key: usize,
    word: &AtomicU64,
    timeout: Option<Instant>,
    expected: ParkResult,
    calls: usize,
) -> bool {
    let mut ended = 0usize;
    for _ in 0..calls {
        let result = member.park(
            rt,
            key,
            || word.load(Ordering::SeqCst) == 0,
            nothing,
            |_, _| (),
            DEFAULT_PARK_TOKEN,
            timeout,
        );
        ended = ended.wrapping_add(usize::from(result == expected));
    }
    ended == calls
}

/// Parks on one key after another, where it unparks itself before it sleeps. False says that it was
/// not unparked.
pub fn unparks_itself_on_each<P: ThreadParkerT, R: Wait + Clock>(
    rt: &R,
    member: &mut Member<'_, P>,
    word: &AtomicU64,
    keys: usize,
) -> bool {
    let lot = member.lot();
    let mut unparked = 0usize;
    for key in 0..keys {
        let result = member.park(
            rt,
            key,
            || word.load(Ordering::SeqCst) == 0,
            || {
                unparks(rt, lot, key);
            },
            |_, _| (),
            DEFAULT_PARK_TOKEN,
            None,
        );
        unparked = unparked.wrapping_add(usize::from(result.is_unparked()));
    }
    unparked == keys
}
