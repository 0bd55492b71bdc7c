//! `lot_bench stress memory`: scenarios in which requests for memory are counted, and refused from
//! outside.
//!
//! Each makes what it stands on and shows the state, does its calls between the marks, and then
//! tells what they answered and the state after them. Last it looks whether later calls do what
//! they should. One with threads that act at the same time tells its answer alone.

mod exclusive;
mod one_thread;

use crate::fault::{Fault, Wrong};
use crate::stress::{crowd, locks, word_lock};
use lot_threads::{MAX_THREADS, ParkingLot, ThreadParkerT};
use std::alloc::Global;
use std::sync::Wait;
use std::thread::Threads;
use std::time::{Clock, Duration};

/// All scenarios: those that ask for memory, and then those that do not. Of each line the first
/// word says whether each request is refused in turn, or some of very many, or they are only
/// counted, or it is to ask for none; then comes the name; and then whether it is run with each
/// parker, or has none and is run with any.
pub const SCENARIOS: &str = "each parking_lot_new each
each thread_data each
some registrations each
each parking_lot_list each
each acquire_resource each
count all_registered_twice any
each word_lock_new any
each lot_new any
none parking_lot_trim_far each
none park each
none lock_calls any
none threads each
none word_lock any
none lot_steps any
none spin_wait any
";

// How many numbers the lot of most scenarios has.
const MOST: usize = 1_024;

// In milliseconds, long enough for a thread to fall asleep.
const MOMENT: u64 = 5;

// How often each of the threads locks that share a word lock.
const LOCKS: usize = 500;

/// A scenario of this list.
#[derive(Clone, Copy)]
pub enum Scenario {
    ParkingLotNew,
    ThreadData,
    Registrations,
    ParkingLotList,
    AcquireResource,
    AllRegisteredTwice,
    WordLockNew,
    LotNew,
    ParkingLotTrimFar,
    Park,
    LockCalls,
    Threads,
    WordLock,
    LotSteps,
    SpinWait,
}

impl Scenario {
    /// The scenario of this name.
    pub fn named(name: &str) -> Result<Scenario, Fault> {
        let found = match Scenario::that_asks(name) {
            Some(scenario) => Some(scenario),
            None => Scenario::that_asks_for_none(name),
        };
        match found {
            Some(scenario) => Ok(scenario),
            None => Err(Fault::Wrong(Wrong::UnknownScenario)),
        }
    }

    fn that_asks(name: &str) -> Option<Scenario> {
        Some(match name {
            "parking_lot_new" => Scenario::ParkingLotNew,
            "thread_data" => Scenario::ThreadData,
            "registrations" => Scenario::Registrations,
            "parking_lot_list" => Scenario::ParkingLotList,
            "acquire_resource" => Scenario::AcquireResource,
            "all_registered_twice" => Scenario::AllRegisteredTwice,
            "word_lock_new" => Scenario::WordLockNew,
            "lot_new" => Scenario::LotNew,
            _ => return None,
        })
    }

    fn that_asks_for_none(name: &str) -> Option<Scenario> {
        Some(match name {
            "parking_lot_trim_far" => Scenario::ParkingLotTrimFar,
            "park" => Scenario::Park,
            "lock_calls" => Scenario::LockCalls,
            "threads" => Scenario::Threads,
            "word_lock" => Scenario::WordLock,
            "lot_steps" => Scenario::LotSteps,
            "spin_wait" => Scenario::SpinWait,
            _ => return None,
        })
    }

    /// How many numbers its lot has.
    pub fn threads(self) -> usize {
        match self {
            Scenario::AllRegisteredTwice => MAX_THREADS,
            _ => MOST,
        }
    }
}

/// Does the scenario on a new lot, prints what it saw, and answers how much was done. It gives back
/// all memory that it had.
pub fn play<P, R>(
    rt: &R,
    alloc: Global,
    lot: &ParkingLot<P>,
    scenario: Scenario,
) -> Result<usize, Fault>
where
    P: ThreadParkerT + Send + Sync,
    R: Print + Threads + Wait + Clock + Sync,
{
    let moment = Duration::from_millis(MOMENT);
    let answer = match scenario {
        Scenario::Threads => crowd::gather(rt, alloc, lot, Duration::ZERO)?,
        Scenario::WordLock => word_lock::count_together(rt, alloc, LOCKS, moment)?,
        Scenario::LockCalls => locks::act_alone(rt, alloc)?,
        Scenario::LotSteps => exclusive::do_steps(alloc)?,
        _ => return one_thread::play(rt, alloc, lot, scenario),
    };
    tell(rt, Ok(answer))
}

// Tells how much was done, or that memory was refused. Any other fault is one of the scenario.
fn tell<R: Print>(rt: &R, answer: Result<usize, Fault>) -> Result<usize, Fault> {
    match answer {
        Ok(number) => println!(rt; "answer {number}")?,
        Err(Fault::NoMemory) => println!(rt; "answer NoMemory")?,
        Err(fault) => return Err(fault),
    }
    Ok(0)
}
