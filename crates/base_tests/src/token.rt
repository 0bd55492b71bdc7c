//! Tests of results, tokens and the texts of refusals.

use crate::{expect, expect_text};
use lot_base::token::{
    DEFAULT_PARK_TOKEN, DEFAULT_UNPARK_TOKEN, LotError, Misfit, NoMemory, ParkResult, StepError,
    UnparkResult, UnparkToken,
};
use std::alloc::Global;
use std::fmt::Display;
use std::process::Abort;

fn expect_shown(rt: &impl Abort, alloc: Global, refusal: impl Display + Drop, expected: &str) {
    let text = refusal.to_string(alloc).expect(rt, "memory");
    expect_text(rt, "a refusal", text.as_str(), expected);
}

// No clause says what a refusal prints: an empty text, or that of another one, would be proved.
#[test]
fn each_refusal_has_its_text(rt: HostRuntime) {
    let alloc = rt.alloc();
    expect_shown(&rt, alloc, LotError::TooManyThreads, "too many threads");
    expect_shown(&rt, alloc, LotError::Full, "no free thread number");
    expect_shown(&rt, alloc, LotError::NoMemory, "no memory");
    expect_shown(&rt, alloc, NoMemory, "no memory");
    expect_shown(&rt, alloc, Misfit, "step does not fit");
    expect_shown(&rt, alloc, StepError::Misfit, "step does not fit");
    expect_shown(&rt, alloc, StepError::NoMemory, "no memory");
}

// The constants have no clauses.
#[test]
fn the_defaults_are_0_and_only_unparked_is_unparked(rt: HostRuntime) {
    let tokens = DEFAULT_UNPARK_TOKEN.0 == 0 && DEFAULT_PARK_TOKEN.0 == 0;
    expect(&rt, tokens, "the tokens");
    let nobody = UnparkResult::default();
    let none = nobody.unparked_threads == 0 && nobody.requeued_threads == 0;
    expect(
        &rt,
        none && nobody.threads() == 0 && !nobody.have_more_threads,
        "nobody",
    );
    let is_unparked = ParkResult::Unparked(UnparkToken(42)).is_unparked();
    let others = ParkResult::Invalid.is_unparked() || ParkResult::TimedOut.is_unparked();
    expect(&rt, is_unparked && !others, "unparked alone");
}
