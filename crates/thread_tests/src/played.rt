//! Scenes that are to go well. Few functions name a parker, since a proof pays for each that does.

use lot_threads::{ThreadParker, ThreadParkerT, WordParker, YieldParker};
use std::process::Abort;
use std::sync::Wait;
use std::thread::Threads;
use std::time::Clock;
use test_support::scene::play;

/// The scene goes well on a lot with these parkers.
pub fn goes_well_with<P, R>(rt: &R, text: &str, values: &[usize])
where
    P: ThreadParkerT + Send + Sync,
    R: AllocGlobal + Threads + Wait + Clock + Abort + Sync,
{
    if let Some(line) = play::<P, R>(rt, rt.alloc(), text, values) {
        assert!(rt; false, "line {line} goes otherwise with {values:?}:{text}");
    }
}

/// The scene goes well with parkers of one word.
pub fn goes_well_on_words<R>(rt: &R, text: &str, values: &[usize])
where
    R: AllocGlobal + Threads + Wait + Clock + Abort + Sync,
{
    goes_well_with::<WordParker, R>(rt, text, values);
}

/// The scene goes well with each parker.
pub fn goes_well<R>(rt: &R, text: &str, values: &[usize])
where
    R: AllocGlobal + Threads + Wait + Clock + Abort + Sync,
{
    goes_well_on_words(rt, text, values);
    goes_well_with::<ThreadParker, R>(rt, text, values);
    goes_well_with::<YieldParker, R>(rt, text, values);
}
