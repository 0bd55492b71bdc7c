//! Tests of the threaded lot, its word locks and the examples that stand on a lot by their public
//! calls alone: what they do and answer, step by step, and what threads do to one another that meet
//! in an order which no clause of a contract sees. Most are scenes, texts that
//! `test_support::scene` plays, or scripts, which `test_support::player` plays. The comment of a
//! test tells which wrong bodies it refuses, which every contract lets through.
#![tactic(auto)]

#[cfg(test)]
mod calls;
#[cfg(test)]
mod crowds;
#[cfg(test)]
mod growths;
#[cfg(test)]
mod handed;
#[cfg(test)]
mod late;
#[cfg(test)]
mod locks;
#[cfg(test)]
mod noted;
#[cfg(test)]
mod numbers;
#[cfg(test)]
mod played;
#[cfg(test)]
mod records;
#[cfg(test)]
mod returning_parker;
#[cfg(test)]
mod returns;
#[cfg(test)]
mod sections;
#[cfg(test)]
mod simulated;
#[cfg(test)]
mod sizes;
#[cfg(test)]
mod titled_lots;
#[cfg(test)]
mod titles;
#[cfg(test)]
mod waiters;
#[cfg(test)]
mod witnesses;
#[cfg(test)]
mod word_lock;

#[cfg(test)]
use std::process::Abort;

// An assertion costs a proof a second or more wherever it stands, and a call of this a tenth.
#[cfg(test)]
fn expect(rt: &impl Abort, is_so: bool, case: &str) {
    assert!(rt; is_so, "{case}");
}
