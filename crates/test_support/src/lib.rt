//! This crate has what tests of threads share: players of scripts and of scenes, lots and members,
//! short calls of them, waits for what other threads do, clocks, and parkers that hold their
//! threads up or check the order of their calls.
//!
//! Nothing here ends the process. A call that is refused returns that, and the test decides what it
//! expects.
#![tactic(auto)]

pub mod calls;
pub mod clock;
pub mod counts;
pub mod faults;
pub mod followed_parker;
pub mod ordered_parker;
pub mod player;
pub mod scene;
pub mod waits;
pub mod words;
