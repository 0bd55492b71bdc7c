//! Tests of `TitledRwLock`, in lots with room for all that wait, for one and for none.

use crate::stage::{Host, ROOMS, expect, new_titled_lot};
use parking_lot::{TitledLot, TitledRwLock, TitledRwLockReadGuard, TitledRwLockWriteGuard};
use std::sync::Wait;
use std::thread;
use std::time::{Clock, Duration, Instant};

// How often each thread does what it does with the lock.
const ROUNDS: usize = 200;

// How long a hurried thread waits, in microseconds.
const SOON: u64 = 50;

// Two numbers that are equal while nobody writes.
#[derive(Drop)]
struct Pair {
    first: usize,
    second: usize,
}

type Lock<'l> = TitledRwLock<'l, Pair>;

fn new_lock<'l, R: Host>(rt: &R, lot: &'l TitledLot) -> Lock<'l> {
    let pair = Pair {
        first: 0,
        second: 0,
    };
    TitledRwLock::new(rt, lot, pair).expect(rt, "a lock")
}

fn soon<R: Clock>(rt: &R) -> Option<Instant> {
    Instant::now(rt)
        .ok()?
        .checked_add(Duration::from_micros(SOON))
}

// Looks at both numbers, and answers whether they are equal.
fn are_equal<R: Wait>(pair: TitledRwLockReadGuard<'_, '_, '_, Pair, R>) -> bool {
    let first = pair.first;
    thread::yield_now();
    first == pair.second
}

// Adds one to both numbers, and answers whether they were equal, and are when others may read.
fn add_one<R: Wait>(mut pair: TitledRwLockWriteGuard<'_, '_, '_, Pair, R>) -> bool {
    let before = pair.second;
    pair.first = pair.first.wrapping_add(1);
    thread::yield_now();
    pair.second = pair.second.wrapping_add(1);
    let pair = TitledRwLockWriteGuard::downgrade(pair);
    pair.first == pair.second && pair.second == before.wrapping_add(1)
}

// Reads and writes patiently, in a hurry and at once by turns. Answers how often it wrote, or
// nothing if the numbers were not equal or the clock could not be read.
fn take_part<R: Wait + Clock>(rt: &R, lock: &Lock<'_>) -> Option<usize> {
    let mut wrote: usize = 0;
    for round in 0..ROUNDS {
        let reads = match round % 3 {
            0 => Some(lock.read(rt)),
            1 => lock.read_until(rt, soon(rt)?),
            _ => lock.try_read(rt),
        };
        if let Some(pair) = reads {
            are_equal(pair).then_some(())?;
        }
        let writes = match round / 3 % 3 {
            0 => Some(lock.write(rt)),
            1 => lock.write_until(rt, soon(rt)?),
            _ => lock.try_write(rt),
        };
        if let Some(pair) = writes {
            add_one(pair).then_some(())?;
            wrote = wrote.wrapping_add(1);
        }
    }
    Some(wrote)
}

fn added(one: Option<usize>, other: Option<usize>) -> Option<usize> {
    Some(one?.wrapping_add(other?))
}

fn take_part_in_four<R: Host>(rt: &R, lock: &Lock<'_>) -> Option<usize> {
    let two = || {
        let (one, other) = thread::join(rt, &|| take_part(rt, lock), &|| take_part(rt, lock));
        added(one, other)
    };
    let (one, other) = thread::join(rt, &two, &two);
    added(one, other)
}

// Nobody is forgotten, a writer is alone, and no addition is lost.
#[test]
fn threads_read_and_write_under_a_titled_lock(rt: HostRuntime) {
    for room in ROOMS {
        let lot = new_titled_lot(&rt, room);
        let lock = new_lock(&rt, lot);
        let wrote = take_part_in_four(&rt, &lock);
        let pair = lock.into_inner();
        expect(
            &rt,
            wrote == Some(pair.first),
            "as many additions as were made",
        );
        expect(&rt, pair.first == pair.second, "both numbers are equal");
    }
}

fn readers_share_it<R: Host>(rt: &R, lock: &Lock<'_>) {
    let first = lock.read(rt);
    let second = lock.try_read(rt);
    expect(rt, second.is_some(), "two threads read");
    expect(
        rt,
        lock.try_write(rt).is_none(),
        "nobody writes beside them",
    );
    let late = lock.write_for(rt, Duration::from_micros(SOON));
    expect(rt, late.is_none(), "nor does a writer that waits");
    expect(
        rt,
        lock.try_read(rt).is_some(),
        "its end lets readers in again",
    );
    drop((first, second));
    expect(
        rt,
        lock.try_write(rt).is_some(),
        "the last reader leaves it free",
    );
}

fn a_writer_is_alone<R: Host>(rt: &R, lock: &Lock<'_>) {
    let mut pair = lock.write(rt);
    pair.first = 7;
    expect(
        rt,
        lock.try_read(rt).is_none(),
        "nobody reads beside a writer",
    );
    expect(rt, lock.try_write(rt).is_none(), "nobody writes beside one");
    let late = lock.read_for(rt, Duration::from_micros(SOON));
    expect(rt, late.is_none(), "nor does a reader that waits");
    let pair = TitledRwLockWriteGuard::downgrade(pair);
    let beside = lock.try_read(rt).map(|pair| pair.first);
    expect(
        rt,
        beside == Some(7) && pair.first == 7,
        "both read what was written",
    );
    expect(
        rt,
        TitledRwLockReadGuard::rwlock(&pair).try_write(rt).is_none(),
        "it still reads",
    );
}

#[test]
fn a_titled_lock_is_read_by_many_or_written_by_one(rt: HostRuntime) {
    for room in ROOMS {
        let lot = new_titled_lot(&rt, room);
        let mut lock = new_lock(&rt, lot);
        readers_share_it(&rt, &lock);
        a_writer_is_alone(&rt, &lock);
        lock.get_mut().second = 8;
        let pair = lock.write(&rt);
        let lock = TitledRwLockWriteGuard::rwlock(&pair);
        expect(
            &rt,
            lock.try_read(&rt).is_none(),
            "it is locked for writing",
        );
        expect(&rt, (pair.first, pair.second) == (7, 8), "what was written");
    }
}
