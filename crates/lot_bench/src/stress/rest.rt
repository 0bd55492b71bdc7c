//! `lot_bench stress rest`: threads that wait for a while, and should sleep meanwhile. What
//! processor time they take is measured from outside.

pub mod alone;
mod growth;

use crate::fault::Fault;
use crate::stress::crowd;
use crate::stress::word_lock::count_together;
use lot_threads::{ParkingLot, ThreadParkerT};
use std::alloc::Global;
use std::sync::Wait;
use std::thread::Threads;
use std::time::{Clock, Duration};

/// How many numbers the lot has.
pub const MOST: usize = crowd::WAITERS + growth::REGISTERED;

/// Threads wait for so many milliseconds: eight that come while a table grows; twelve parked on the
/// lot, three times each, after a park whose deadline passed; and eight for a word lock.
pub fn run<P, R>(
    rt: &R,
    alloc: Global,
    lot: &ParkingLot<P>,
    milliseconds: u64,
) -> Result<usize, Fault>
where
    P: ThreadParkerT + Send + Sync,
    R: Threads + Wait + Clock + Sync,
{
    let rest = Duration::from_millis(milliseconds);
    growth::come_to_a_growth(rt, alloc, lot, rest)?;
    crowd::gather(rt, alloc, lot, rest)?;
    count_together(rt, alloc, 1, rest)
}
