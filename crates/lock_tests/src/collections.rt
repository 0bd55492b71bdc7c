//! Tests of the queue, the pool and the table of `examples`, which stand on locks. No clause says
//! that what one thread puts in comes out in its order, or that whoever waits is woken.
//!
//! - `queue`: `put N`, `take` (which adds what it took to the count `sum`), `put_for MS`, `take_for
//!   MS` (whether it did in so many milliseconds; the first puts 1).
//! - `pool`, `other`: `submit N` (whether it was taken), `take` (the job), `close`.
//! - `table`: `insert KEY N`, `get KEY`, `remove KEY` (the value at the key, before it is changed),
//!   `look` (how many entries there are, if the halves of each value are equal and all values are
//!   one version or the next).
//!
//! `greatest` stands for none. A line `begins N` says for how many numbers or jobs there is room,
//! if not for one.

use crate::player::{Kind, expect_played, play_each, play_locks};
use crate::stage::{Actor, Host, ROOM, expect, new_lot};
use examples::bounded_queue::BoundedQueue;
use examples::read_mostly_table::ReadMostlyTable;
use examples::thread_pool::{Done, ThreadPool, do_jobs};
use std::alloc::{AllocGlobal, Global};
use std::sync::Wait;
use std::sync::atomic::{AtomicUsize, Ordering};
use std::time::{Clock, Duration};
use test_support::counts::Counts;
use test_support::player::{Hand, Script, Stage, play_lines};
use test_support::words::Words;

const JOBS: usize = 500;

const WORKERS: usize = 4;

// A number twice. With two values mixed, the halves differ.
type Pair = (usize, usize);

/// Plays a script on a new queue, two new pools and a new table.
pub fn play<R: Host>(rt: &R, room: usize, script: &Script<'_>) {
    let (lot, alloc) = (new_lot(rt, room), rt.alloc());
    let places = script.told("begins").unwrap_or(1).max(1);
    let stage = Collections {
        queue: BoundedQueue::new(lot, alloc, places).expect(rt, "a queue"),
        pool: ThreadPool::new(lot, alloc, places).expect(rt, "a pool"),
        other: ThreadPool::new(lot, alloc, places).expect(rt, "a pool"),
        table: ReadMostlyTable::new(lot, alloc).expect(rt, "a table"),
        counts: Counts::new(),
    };
    play_locks(rt, &stage, script);
}

#[derive(Drop)]
struct Collections {
    queue: BoundedQueue<'static, usize>,
    pool: ThreadPool<'static, usize>,
    other: ThreadPool<'static, usize>,
    table: ReadMostlyTable<'static, Pair>,
    counts: Counts,
}

impl<R: Actor> Stage<R> for Collections {
    fn play_place<'x>(&'x self, rt: &'x R, script: &Script<'_>, place: usize) {
        let mut hand = User { rt, stage: self };
        let other = play_lines(rt, &self.counts, &mut hand, script, place);
        expect_played(rt, other, script);
    }
}

#[derive(Drop)]
struct User<'x, R> {
    rt: &'x R,
    stage: &'x Collections,
}

impl<R: Wait + Clock + AllocGlobal> Hand for User<'_, R> {
    fn call(&mut self, first: &str, words: &mut Words<'_>) -> Option<usize> {
        let (rt, stage) = (self.rt, self.stage);
        let call = words.word()?;
        match first {
            "queue" => use_queue(rt, &stage.queue, stage.counts.named("sum"), call, words),
            "pool" => use_pool(rt, &stage.pool, call, words),
            "other" => use_pool(rt, &stage.other, call, words),
            "table" => use_table(rt, &stage.table, call, words),
            _ => None,
        }
    }
}

fn use_queue<R: Wait + Clock>(
    rt: &R,
    queue: &BoundedQueue<'static, usize>,
    sum: &AtomicUsize,
    call: &str,
    words: &mut Words<'_>,
) -> Option<usize> {
    if call == "take" {
        let taken = queue.take(rt);
        sum.fetch_add(taken, Ordering::SeqCst);
        return Some(taken);
    }
    let number = words.number()?;
    let time = Duration::from_millis(number as u64);
    let is_well = match call {
        "put" => {
            queue.put(rt, number);
            true
        }
        "put_for" => queue.put_for(rt, 1, time).is_ok(),
        "take_for" => queue.take_for(rt, time).is_some(),
        _ => return None,
    };
    Some(usize::from(is_well))
}

fn use_pool<R: Wait + Clock>(
    rt: &R,
    pool: &ThreadPool<'static, usize>,
    call: &str,
    words: &mut Words<'_>,
) -> Option<usize> {
    match call {
        "submit" => Some(usize::from(pool.submit(rt, words.number()?).is_ok())),
        "take" => Some(pool.take(rt).unwrap_or(usize::MAX)),
        "close" => {
            pool.close(rt);
            Some(1)
        }
        _ => None,
    }
}

fn use_table<R: Wait + Clock + AllocGlobal>(
    rt: &R,
    table: &ReadMostlyTable<'static, Pair>,
    call: &str,
    words: &mut Words<'_>,
) -> Option<usize> {
    if call == "look" {
        return look(rt, table);
    }
    let key = words.number()? as u64;
    let before = match call {
        "insert" => {
            let number = words.number()?;
            table.insert(rt, key, (number, number)).ok()?
        }
        "get" => table.get(rt, key),
        "remove" => table.remove(rt, key),
        _ => return None,
    };
    Some(before.unwrap_or((usize::MAX, 0)).0)
}

// How many entries there are, or 0 if they are not neighbours.
fn look<R: Wait + Clock + AllocGlobal>(
    rt: &R,
    table: &ReadMostlyTable<'static, Pair>,
) -> Option<usize> {
    let entries = table.entries(rt, rt.alloc()).ok()?;
    let mut oldest = usize::MAX;
    let mut newest = 0;
    for (_, value) in &entries {
        oldest = oldest.min(value.0).min(value.1);
        newest = newest.max(value.0).max(value.1);
    }
    let are_neighbours = newest <= oldest.saturating_add(1);
    Some(if are_neighbours { entries.len() } else { 0 })
}

// It refuses a `put` that waits while a place is free, or overwrites, a `take` in another order, or
// that takes a number twice, and where there is one place, which is full or empty at each look,
// changes that are told to nobody; and a wait with a deadline that ends early though the queue
// changes, or that does not end.
#[test]
fn consumers_take_what_producers_put_in_its_order(rt: HostRuntime) {
    let scripts = "begins 3
repeat 2 queue put 1 ; queue put 2 ; queue put 3 ; \
queue take -> 1 ; queue take -> 2 ; queue take -> 3
thread 3
repeat 2000 queue put round
thread 3
repeat 2000 queue take
after
tell sum -> 6003012

thread 3
repeat 2000 queue put round
thread 3
repeat 2000 queue take
after
tell sum -> 6003000

thread
queue take_for 5 -> 0 ; queue put_for 5 ; queue put_for 5 -> 0 ; raise full
queue put_for 10000 ; queue take_for 10000
thread
await full ; queue take_for 10000";
    play_each(&rt, Kind::Collections, &[ROOM], 1, scripts);
}

// It refuses a `close` that drops the jobs that wait, wakes nobody, or one sleeper alone, a `take`
// in another order, a closed pool that still takes a job, and a `submit` that notifies before the
// job is in the queue, or not at all: a worker that has looked sleeps, and no later job wakes it.
#[test]
fn a_pool_gives_each_job_and_wakes_all_as_it_is_closed(rt: HostRuntime) {
    let scripts = "begins 4
pool submit 1 ; pool submit 2 ; pool submit 3 ; pool close ; pool submit 4 -> 0
pool take -> 1 ; pool take -> 2 ; pool take -> 3 ; pool take -> greatest

thread 2
raise a ; pool take -> greatest
thread
await a 2 ; pause 20 ; pool close

thread 2
await a ; raise b ; pool submit 5 -> 0
thread
pool submit 9 ; raise a ; await b 2 ; pause 20 ; pool close

thread
repeat 10000 pool submit round ; other take -> round
pool close
thread
repeat 10000 pool take -> round ; other submit round
pool take -> greatest";
    play_each(&rt, Kind::Collections, &[ROOM], 1, scripts);
}

// It refuses calls that find nothing, change nothing, or tell another value than the one until
// then, and a table that lends its entries while they are written, or copies them piece by piece.
#[test]
fn readers_of_a_table_see_old_or_new_values(rt: HostRuntime) {
    let scripts = "table insert 3 1 -> greatest ; table insert 1 2 -> greatest
table insert 2 2 -> greatest ; table insert 3 3 -> 1 ; table get 3 -> 3
table get 4 -> greatest ; table look -> 3
table remove 1 -> 2 ; table remove 1 -> greatest ; table get 2 -> 2 ; table look -> 2

table insert 10 0 -> any ; table insert 20 0 -> any ; table insert 30 0 -> any
thread 3
repeat 3000 table look -> 2 or 3
thread
repeat 1000 table remove 10 -> any ; table insert 30 round -> any ; \
table insert 10 round -> greatest ; table insert 20 round -> any";
    play_each(&rt, Kind::Collections, &[ROOM], 1, scripts);
}

// Whether each place has one output, which is 1.
fn are_done_once(done: &[Done<usize>]) -> bool {
    let mut sums = [0usize; JOBS];
    for each in done {
        if let Some(sum) = sums.get_mut(each.place) {
            *sum = sum.wrapping_add(each.output);
        }
    }
    done.len() == JOBS && sums.iter().all(|sum| *sum == 1)
}

fn do_all<R: Host>(rt: &R, alloc: Global) {
    let work = |_: &()| 1usize;
    let done = do_jobs(rt, alloc, new_lot(rt, ROOM), WORKERS, &[(); JOBS], &work);
    expect(rt, are_done_once(&done.expect(rt, "memory")), "done once");
}

// It refuses a job that is lost, as the last one before the pool is closed, or done twice. With
// workers whom nobody wakes at the end, or a queue whose room nobody tells of, it does not end.
#[test]
fn each_job_is_done_once_and_has_its_place(rt: HostRuntime) {
    do_all(&rt, rt.alloc());
}
