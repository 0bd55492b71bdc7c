//! Rows of threads that are registered with a lot, and call it.

use crate::calls::{register, retire};
use crate::rows::alone::{parks, unparks_itself_on_each, unparks_nobody};
use crate::rows::measure::{Watch, time_of_runs};
use crate::rows::row::Row;
use crate::rows::turns::{OVER, takes_turns_by_word, takes_turns_strictly};
use crate::rows::word_mutex::WordMutex;
use lot_threads::{Member, ParkResult, ParkingLot, ThreadParkerT};
use std::alloc::Global;
use std::sync::Wait;
use std::sync::atomic::{AtomicU64, Ordering};
use std::thread::Threads;
use std::time::{Clock, Instant};

// The inverse of the factor by which a lot hashes keys: their product is 1.
const INVERSE: usize = 0xF1DE_83E1_9937_733D;

/// Lets threads do the deed on a new lot, where others are registered too.
pub fn time_of<P, R>(rt: &R, alloc: Global, deed: &str, row: &Row) -> Option<u64>
where
    P: ThreadParkerT + Send + Sync,
    R: Threads + Wait + Clock + Sync,
{
    let room = row.threads.checked_add(row.others)?;
    let lot = ParkingLot::<P>::new(alloc, room).ok()?;
    time_on(rt, alloc, deed, row, &lot)
}

// The others keep their numbers.
fn time_on<P, R>(rt: &R, alloc: Global, deed: &str, row: &Row, lot: &ParkingLot<P>) -> Option<u64>
where
    P: ThreadParkerT + Send + Sync,
    R: Threads + Wait + Clock + Sync,
{
    for _ in 0..row.others {
        drop(register(rt, alloc, lot));
    }
    let (watch, words) = (Watch::new(rt, row), Words::new());
    let act = |place: usize| take_part(rt, alloc, deed, row, lot, &watch, &words, place);
    time_of_runs(rt, alloc, row, &watch, &act)
}

// What the threads share beside the lot.
#[derive(Drop)]
struct Words {
    // Whose turn it is. Who parks does so where it is 0.
    word: AtomicU64,
    mutex: WordMutex,
    // What was counted under the mutex.
    count: AtomicU64,
}

impl Words {
    fn new() -> Words {
        Words {
            word: AtomicU64::new(0),
            mutex: WordMutex::new(),
            count: AtomicU64::new(0),
        }
    }
}

// A key whose bucket is the one at this place of a table of 16.
fn key_at(place: usize) -> usize {
    (place << 60).wrapping_mul(INVERSE)
}

// Registers before all begin and retires after the end, so that neither counts. Nothing says that
// it went otherwise than it has to.
fn take_part<P: ThreadParkerT, R: Wait + Clock>(
    rt: &R,
    alloc: Global,
    deed: &str,
    row: &Row,
    lot: &ParkingLot<P>,
    watch: &Watch,
    words: &Words,
    place: usize,
) -> Option<usize> {
    let member = register(rt, alloc, lot);
    let start = watch.begin(rt);
    let mut member = member.ok()?;
    let is_well = act(
        rt,
        deed,
        row.calls,
        &mut member,
        words,
        place,
        watch.is_first(),
    );
    let counted = is_well.then_some(words.count.load(Ordering::SeqCst));
    let ended = watch.end(rt, start, counted);
    retire(rt, member);
    ended
}

// In the first run threads count under the mutex.
fn act<P: ThreadParkerT, R: Wait + Clock>(
    rt: &R,
    deed: &str,
    calls: usize,
    member: &mut Member<'_, P>,
    words: &Words,
    place: usize,
    is_first: bool,
) -> bool {
    let (lot, word) = (member.lot(), &words.word);
    let own_key = place.wrapping_add(1);
    match deed {
        "unpark" => unparks_nobody(rt, lot, 1, 0, calls),
        "unpark_apart" => unparks_nobody(rt, lot, own_key, 0, calls),
        "unpark_near" => unparks_nobody(rt, lot, key_at(place), 0, calls),
        "unpark_keys" => unparks_nobody(rt, lot, 0, 1, calls),
        "park_late" => {
            let past = Instant::now(rt).ok();
            parks(rt, member, own_key, word, past, ParkResult::TimedOut, calls)
        }
        "park_invalid" => {
            word.store(OVER, Ordering::SeqCst);
            parks(rt, member, own_key, word, None, ParkResult::Invalid, calls)
        }
        "many_keys" => unparks_itself_on_each(rt, member, word, calls),
        "mutex" if is_first => words.mutex.counts(rt, member, &words.count, calls),
        "mutex" => words.mutex.pairs(rt, member, calls),
        "strict" => takes_turns_strictly(rt, member, word, place, calls),
        _ => takes_turns_by_word(rt, member, word, place, calls),
    }
}
