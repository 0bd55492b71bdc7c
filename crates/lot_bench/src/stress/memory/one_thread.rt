//! Scenarios on the lot of threads, and on what is made, with one thread.

use super::{MOST, Scenario, tell};
use crate::calls::{park, register_into, register_often, retire_all_but, unpark_all};
use crate::fault::{Fault, Wrong};
use crate::stress::marks;
use crate::stress::parks::park_often;
use crate::stress::word_lock::Count;
use lot_base::word_lock::WordLock;
use lot_threads::{
    DEFAULT_PARK_TOKEN, LotError, MAX_THREADS, Member, ParkResult, ParkingLot, SpinWait,
    ThreadParkerT, UnparkToken, thread_yield,
};
use parking_lot::Lot;
use std::alloc::Global;
use std::sync::Wait;
use std::time::{Clock, Instant};

// Keys of which the first two have one bucket of 16.
const KEYS: [usize; 3] = [0, 13, 7];

// A lot for so many is made with few enough requests to refuse each in turn.
const SOME: usize = 40;

// As many threads as have three buckets each of 16.
const FEW: usize = 5;

const RECORDINGS: usize = 130;

const PARKS: usize = 16;

/// Does the scenario's calls on a new lot, between marks, and shows the state before and after
/// them.
pub(super) fn play<P: ThreadParkerT, R: Print + Wait + Clock>(
    rt: &R,
    alloc: Global,
    lot: &ParkingLot<P>,
    scenario: Scenario,
) -> Result<usize, Fault> {
    let past = Instant::now(rt)?;
    let mut members = Vec::with_capacity(alloc, lot.max_threads())?;
    play_with(rt, alloc, lot, &mut members, scenario, past)
}

fn play_with<'a, P: ThreadParkerT, R: Print + Wait + Clock>(
    rt: &R,
    alloc: Global,
    lot: &'a ParkingLot<P>,
    members: &mut Vec<Member<'a, P>>,
    scenario: Scenario,
    past: Instant,
) -> Result<usize, Fault> {
    prepare(rt, alloc, lot, members, scenario)?;
    show(rt, "before", members.len(), records_of(members))?;
    marks::begin(alloc);
    let answer = call(rt, alloc, lot, members, scenario, past);
    marks::end(alloc);
    tell(rt, answer)?;
    show(rt, "after", members.len(), records_of(members))?;
    register_and_wait(rt, alloc, lot, members)
}

// Registers those who are there before.
fn prepare<'a, P: ThreadParkerT, R: Wait>(
    rt: &R,
    alloc: Global,
    lot: &'a ParkingLot<P>,
    members: &mut Vec<Member<'a, P>>,
    scenario: Scenario,
) -> Result<(), Fault> {
    let (come, left) = match scenario {
        Scenario::Registrations => (0, 0),
        Scenario::AllRegisteredTwice => (1, 1),
        Scenario::ParkingLotTrimFar => (MOST, FEW),
        _ => (FEW, FEW),
    };
    register_often(rt, alloc, lot, members, come)?;
    retire_all_but(rt, members, left);
    match members.first_mut() {
        Some(member) => record(member),
        None => Ok(()),
    }
}

fn record<P: ThreadParkerT>(member: &mut Member<'_, P>) -> Result<(), Fault> {
    match member.acquire_resource(KEYS[0]) {
        Ok(()) => Ok(()),
        Err(_) => Err(Fault::NoMemory),
    }
}

// Does the calls that are counted, and answers how many were not refused, or how much they did.
fn call<'a, P: ThreadParkerT, R: Wait + Clock>(
    rt: &R,
    alloc: Global,
    lot: &'a ParkingLot<P>,
    members: &mut Vec<Member<'a, P>>,
    scenario: Scenario,
    past: Instant,
) -> Result<usize, Fault> {
    let registered = match scenario {
        Scenario::ThreadData => register_often(rt, alloc, lot, members, 1),
        Scenario::Registrations => register_whom_it_can(rt, alloc, lot, members),
        Scenario::AllRegisteredTwice => register_all_twice(rt, alloc, lot, members),
        // The rows that the first registrations made are found again.
        Scenario::ParkingLotTrimFar => {
            lot.trim(rt);
            register_often(rt, alloc, lot, members, MOST - FEW)
        }
        _ => {
            return match members.first_mut() {
                Some(member) => call_of_one(rt, alloc, member, scenario, past),
                None => Err(Fault::Wrong(Wrong::NobodyRegistered)),
            };
        }
    };
    registered?;
    Ok(members.len())
}

// A registration that is refused is not the last.
fn register_whom_it_can<'a, P: ThreadParkerT, R: Wait>(
    rt: &R,
    alloc: Global,
    lot: &'a ParkingLot<P>,
    members: &mut Vec<Member<'a, P>>,
) -> Result<(), LotError> {
    for _ in 0..MOST {
        let _ = register_into(rt, alloc, lot, members);
    }
    Ok(())
}

fn register_all_twice<'a, P: ThreadParkerT, R: Wait>(
    rt: &R,
    alloc: Global,
    lot: &'a ParkingLot<P>,
    members: &mut Vec<Member<'a, P>>,
) -> Result<(), LotError> {
    register_often(rt, alloc, lot, members, MAX_THREADS - 1)?;
    retire_all_but(rt, members, 1);
    lot.trim(rt);
    register_often(rt, alloc, lot, members, MAX_THREADS - 1)
}

fn call_of_one<P: ThreadParkerT, R: Wait + Clock>(
    rt: &R,
    alloc: Global,
    member: &mut Member<'_, P>,
    scenario: Scenario,
    past: Instant,
) -> Result<usize, Fault> {
    match scenario {
        Scenario::ParkingLotList => list_in_a_park(rt, alloc, member, KEYS[0]),
        Scenario::AcquireResource => Ok(record_often(member)),
        Scenario::Park => {
            let right = park_often(rt, member, PARKS, past);
            member.release_resource(KEYS[0]);
            member.release_resource(KEYS[0]);
            // Nobody waits, and such a list needs no memory.
            let listed = member.list(rt, alloc, KEYS[0])?;
            Ok(right.wrapping_add(listed.len()))
        }
        Scenario::SpinWait => Ok(spin_each_way()),
        _ => make::<P>(alloc, scenario),
    }
}

// Makes what the scenario says, and drops it.
fn make<P: ThreadParkerT>(alloc: Global, scenario: Scenario) -> Result<usize, Fault> {
    let is_made = match scenario {
        Scenario::ParkingLotNew => ParkingLot::<P>::new(alloc, SOME).is_ok(),
        Scenario::WordLockNew => WordLock::new(alloc, Count(0), &()).is_ok(),
        Scenario::LotNew => Lot::new(alloc, SOME).is_ok(),
        _ => return Err(Fault::Wrong(Wrong::EmptyScenario)),
    };
    if is_made { Ok(1) } else { Err(Fault::NoMemory) }
}

// Records resources for the thread, and answers how often it did. A refusal leaves the others.
fn record_often<P: ThreadParkerT>(member: &mut Member<'_, P>) -> usize {
    let mut recorded = 0usize;
    for call in 0..RECORDINGS {
        let is_recorded = member.acquire_resource(KEYS[call % 3]).is_ok();
        recorded = recorded.wrapping_add(usize::from(is_recorded));
    }
    recorded
}

// The thread parks on the key, is listed alone, and is unparked.
fn list_in_a_park<P: ThreadParkerT, R: Wait + Clock>(
    rt: &R,
    alloc: Global,
    member: &mut Member<'_, P>,
    key: usize,
) -> Result<usize, Fault> {
    let (lot, number, token) = (member.lot(), member.number(), UnparkToken(key));
    let mut is_alone = None;
    let (result, _) = park(rt, member, (key, DEFAULT_PARK_TOKEN, None), true, || {
        is_alone = is_listed_alone(rt, alloc, lot, key, number);
        unpark_all(rt, lot, key, token);
    });
    let Some(is_alone) = is_alone else {
        return Err(Fault::NoMemory);
    };
    if is_alone && result == ParkResult::Unparked(token) {
        Ok(1)
    } else {
        Err(Fault::Wrong(Wrong::OneWaiter))
    }
}

// Nothing says that there was no memory for the list.
fn is_listed_alone<P: ThreadParkerT, R: Wait>(
    rt: &R,
    alloc: Global,
    lot: &ParkingLot<P>,
    key: usize,
    number: usize,
) -> Option<bool> {
    let listed = lot.list(rt, alloc, key).ok()?;
    Some(listed.len() == 1 && listed[0] == number)
}

// All of `SpinWait`, and `thread_yield`. Answers how many of twelve spins asked for more.
fn spin_each_way() -> usize {
    let mut wait = SpinWait::new();
    let mut again = 0usize;
    for _ in 0..12 {
        again = again.wrapping_add(usize::from(wait.spin()));
    }
    wait.reset();
    for _ in 0..12 {
        wait.spin_no_yield();
    }
    for _ in 0..3 {
        thread_yield();
    }
    again
}

// Shows how many are registered, and what the first of them has recorded.
fn show<R: Print>(rt: &R, moment: &str, registered: usize, records: usize) -> Result<(), Fault> {
    println!(rt; "{moment} registered {registered} records {records}")?;
    Ok(())
}

fn records_of<P: ThreadParkerT>(members: &[Member<'_, P>]) -> usize {
    match members.first() {
        Some(member) => member.records(KEYS[0]),
        None => 0,
    }
}

// Registrations that were refused have no number: the next gives the least. The first thread can
// wait on each key.
fn register_and_wait<'a, P: ThreadParkerT, R: Wait + Clock>(
    rt: &R,
    alloc: Global,
    lot: &'a ParkingLot<P>,
    members: &mut Vec<Member<'a, P>>,
) -> Result<usize, Fault> {
    if members.len() < lot.max_threads() {
        register_into(rt, alloc, lot, members)?;
    }
    if !has_next_number(members) {
        return Err(Fault::Wrong(Wrong::NextNumber));
    }
    match members.first_mut() {
        Some(member) => wait_on_each_key(rt, alloc, member),
        None => Ok(0),
    }
}

// Whether the last has the number behind those of the others.
fn has_next_number<P: ThreadParkerT>(members: &[Member<'_, P>]) -> bool {
    match members.last() {
        Some(member) => member.number().wrapping_add(1) == members.len(),
        None => true,
    }
}

fn wait_on_each_key<P: ThreadParkerT, R: Wait + Clock>(
    rt: &R,
    alloc: Global,
    member: &mut Member<'_, P>,
) -> Result<usize, Fault> {
    for key in KEYS {
        list_in_a_park(rt, alloc, member, key)?;
    }
    Ok(0)
}
