//! This module reads what the words of a line say of a call: until when it waits, what it chooses,
//! and how it has to end.

use crate::calls::{WAYS, Way};
use crate::clock::{FAR, from_now, now};
use crate::words::Words;
use lot_threads::{FilterOp, ParkResult, RequeueOp, UnparkResult, UnparkToken};
use std::time::{Clock, Instant};

/// Returns the deadline of a park for this word, or for this number of milliseconds. `Some(None)`
/// means that it has none.
pub(super) fn deadline_of<R: Clock>(rt: &R, word: &str) -> Option<Option<Instant>> {
    match word {
        "forever" => Some(None),
        "past" => Some(Some(now(rt)?)),
        "far" => Some(Some(from_now(rt, FAR)?)),
        milliseconds => Some(Some(from_now(rt, milliseconds.parse().ok()?)?)),
    }
}

/// Returns the operation with this name.
pub(super) fn requeue_op_of(word: &str) -> Option<RequeueOp> {
    match word {
        "abort" => Some(RequeueOp::Abort),
        "requeue_all" => Some(RequeueOp::RequeueAll),
        "unpark_one_requeue_rest" => Some(RequeueOp::UnparkOneRequeueRest),
        _ => None,
    }
}

/// Returns the way with this name, or the one whose place a value gives.
pub(super) fn way_of(words: &mut Words<'_>) -> Option<Way> {
    let mut ahead = *words;
    let place = match ahead.word()? {
        "one" => 0,
        "all" => 1,
        "filter" => 2,
        "requeue" => 3,
        _ => {
            ahead = *words;
            ahead.number()?
        }
    };
    *words = ahead;
    WAYS.get(place).copied()
}

/// Returns what a filter decides on the thread at this place: `s` skips it, and any other letter,
/// or a missing one, unparks it.
pub(super) fn decision_of(letters: &str, place: usize) -> FilterOp {
    let letter = letters.as_bytes().get(place).copied().unwrap_or(b'u');
    if letter == b's' {
        FilterOp::Skip
    } else {
        FilterOp::Unpark
    }
}

// Whether a late thread was to be the last on its key: `last`, or `any`, as it was told.
fn was_last(words: &mut Words<'_>, told: Option<(usize, bool)>) -> Option<bool> {
    match words.word()? {
        "last" => Some(true),
        "any" => Some(told?.1),
        _ => None,
    }
}

/// Returns whether a park ended as the words say, if they say so.
pub(super) fn park_ended(
    words: &mut Words<'_>,
    ended: ParkResult,
    told: Option<(usize, bool)>,
) -> Option<bool> {
    if !words.reads("->") {
        return words.end(true);
    }
    let expected = match words.word()? {
        "unparked" => (ParkResult::Unparked(UnparkToken(words.number()?)), None),
        "invalid" => (ParkResult::Invalid, None),
        "timed_out" => {
            let key = words.number()?;
            (ParkResult::TimedOut, Some((key, was_last(words, told)?)))
        }
        _ => return None,
    };
    words.end((ended, told) == expected)
}

/// Returns whether an unpark returned what the words say, if they say so.
pub(super) fn unpark_answered(words: &mut Words<'_>, answer: UnparkResult) -> Option<bool> {
    if !words.reads("->") {
        return words.end(true);
    }
    let unparked = words.number()?;
    let requeued = words.number()?;
    let have_more = words.reads("more");
    let are_so_many = unparked == answer.unparked_threads && requeued == answer.requeued_threads;
    words.end(are_so_many && have_more == answer.have_more_threads)
}

/// Returns whether a call returned the number that the words say, if they say one.
pub(super) fn count_answered(words: &mut Words<'_>, count: usize) -> Option<bool> {
    if !words.reads("->") {
        return words.end(true);
    }
    let expected = words.number()?;
    words.end(count == expected)
}
