//! Tests of the parts of a lot: tokens, queues, buckets, spinning and thread parkers, and of the
//! search for faults of protocols. All by their public calls alone.
#![tactic(auto)]

#[cfg(test)]
mod bucket;
#[cfg(test)]
mod litmus;
#[cfg(test)]
mod nodes;
#[cfg(test)]
mod queue;
#[cfg(test)]
mod spinwait;
#[cfg(test)]
mod thread_parker;
#[cfg(test)]
mod token;
#[cfg(test)]
mod words;

#[cfg(test)]
use std::process::Abort;

// Compares what was found with what is expected, at this line or in this case.
#[cfg(test)]
fn expect_text(rt: &impl Abort, case: &str, found: &str, expected: &str) {
    assert!(rt; found == expected, "{case}: {found}");
}

// An assertion costs a proof a second or more wherever it stands, and a call of these a tenth.
#[cfg(test)]
fn expect(rt: &impl Abort, is_so: bool, case: &str) {
    assert!(rt; is_so, "{case}");
}

// The same in a round, a row or another case that has a number.
#[cfg(test)]
fn expect_each(rt: &impl Abort, is_so: bool, case: &str, number: usize) {
    assert!(rt; is_so, "{case}: {number}");
}
