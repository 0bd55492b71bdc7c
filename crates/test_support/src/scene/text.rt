//! This module reads which lines of a scene begin threads, and how many.

use crate::words::Words;

/// Returns whether a line says what a closure of the next call does.
pub(super) fn is_about_closure(line: &str) -> bool {
    let mut words = Words::of(line, &[], 0);
    words.reads("validate:")
        || words.reads("before_sleep:")
        || words.reads("timed_out:")
        || words.reads("filter:")
        || words.reads("callback:")
}

/// Returns whether a line is more than a comment, and does not say for how many threads the lot is.
pub(super) fn is_action(line: &str) -> bool {
    let mut words = Words::of(line, &[], 0);
    let head = words.word().unwrap_or("");
    !head.is_empty() && head != "#" && head != "lot"
}

/// Returns how many threads the line begins, if its first word is `kind`.
pub(super) fn begun(line: &str, values: &[usize], kind: &str) -> usize {
    let mut words = Words::of(line, values, 0);
    if words.reads(kind) {
        words.number_or(1).unwrap_or(0)
    } else {
        0
    }
}

/// Returns how many threads there are, and for how many the lot is.
///
/// The second number is the one that the text says, or else the number of threads that register.
pub(super) fn sizes(text: &str, values: &[usize]) -> (usize, usize) {
    let (mut all, mut registering, mut room) = (0_usize, 0_usize, 0);
    for line in text.lines() {
        let threads = begun(line, values, "thread");
        all = all.wrapping_add(threads);
        all = all.wrapping_add(begun(line, values, "caller"));
        registering = registering.wrapping_add(threads);
        let own = begun(line, values, "lot");
        if own > 0 {
            room = own;
        }
    }
    (all, if room == 0 { registering } else { room })
}
