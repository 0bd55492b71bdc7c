//! Tests of word locks: the words of a lock, step by step, and two threads.

ghost use Rattle.std.specs.Prelude.{◌≡◌, ◌%◌, ◌/◌, ◌+◌, [], IsTrue};
ghost use Rattle.lot_word_lock.specs.WordPlaces.{IsPlace};
ghost use Rattle.lot_word_lock.specs.WordLock.{IsCallerOf, IsTrying, HasFullSlot, Sees, seat_of};
ghost use Rattle.lot_word_lock.specs.declared.word_lock.view.View.TheVariants.{Enqueued};

use super::*;
use std::process::Abort;
use std::sync::atomic::{AtomicBool, Ordering};
use std::thread;
use std::thread::Threads;

const TURNS: usize = 10_000_000;

#[derive(Drop)]
struct Value(u64);

impl Fits for Value {
    type Key = ();

    ghost fits = { λ _ value. value.0 ≡ 7 };
}

fn new_lock(alloc: Global) -> Result<WordLock<Value>, NoMemory> {
    WordLock::new(alloc, Value(7), &())
}

// An assertion costs a proof a second or more wherever it stands, and a call of this a tenth.
fn expect(rt: &impl Abort, is_so: bool, case: &str)
    ensures { IsTrue is_so }
{
    assert!(rt; is_so, "{case}");
}

// Compares the word, and then the links of the four places.
fn expect_words(rt: &impl Abort, lock: &WordLock<Value>, words: [u64; 5]) {
    let link = |place: usize| lock.table.shared.peek(place);
    let found = [lock.word(), link(8), link(9), link(10), link(11)];
    assert_eq!(rt; found, words);
}

// A caller that holds the lock, whose word was this one.
fn hold<R: Abort>(rt: &R, lock: &WordLock<Value>, word: u64) -> Caller<Value>
    requires { word % 2 ≡ 0 }
    ensures lock { IsCallerOf lock.now result }
    ensures holds { Sees result [] }
    ensures home { HasFullSlot (⟦<Value as Fits>⟧.fits tt) result }
{
    let mut caller = lock.arrive();
    expect(rt, lock.acquire(&mut caller, word), "the lock is free");
    caller
}

// Makes the caller enter the list with this place, behind the word.
fn enter<R: Abort>(
    rt: &R,
    lock: &WordLock<Value>,
    caller: &mut Caller<Value>,
    place: usize,
    word: u64,
)
    requires lock { IsCallerOf lock.now caller.old }
    requires tries { IsTrying caller.old 0 0 }
    requires place { IsPlace place }
    requires locked { word % 2 ≡ 1 }
    ensures lock { IsCallerOf lock.now caller.new }
    ensures waits { seat_of caller.new ≡ (Enqueued place, []) }
{
    let is_taken = lock.take_place(caller, place, TAKEN);
    expect(rt, is_taken, "the place is free");
    lock.write_link(caller, place, word / 2);
    let is_entered = lock.enqueue(caller, place, word);
    expect(rt, is_entered, "the word has not changed");
}

// Makes a caller that was told give its place back, and take the lock, whose word is this one.
fn wake_up<R: Abort>(
    rt: &R,
    lock: &WordLock<Value>,
    caller: &mut Caller<Value>,
    place: usize,
    word: u64,
)
    requires lock { IsCallerOf lock.now caller.old }
    requires place { IsPlace place }
    requires waits { seat_of caller.old ≡ (Enqueued place, []) }
    requires free { word % 2 ≡ 0 }
    ensures lock { IsCallerOf lock.now caller.new }
    ensures holds { Sees caller.new [] }
    ensures home { HasFullSlot (⟦<Value as Fits>⟧.fits tt) caller.new }
{
    give_back_told(rt, lock, caller, place);
    expect(rt, lock.acquire(caller, word), "the lock is free");
}

// Makes a caller that was told give its place back, and try again.
fn give_back_told<R: Abort>(
    rt: &R,
    lock: &WordLock<Value>,
    caller: &mut Caller<Value>,
    place: usize,
)
    requires lock { IsCallerOf lock.now caller.old }
    requires place { IsPlace place }
    requires waits { seat_of caller.old ≡ (Enqueued place, []) }
    ensures lock { IsCallerOf lock.now caller.new }
    ensures tries { IsTrying caller.new 0 0 }
{
    expect(rt, lock.own_link(caller, place) == 0, "the place was told");
    lock.give_back(caller, place);
}

// With an exchange that does not compare, the second caller holds the lock too.
#[test]
fn the_word_is_1_while_the_lock_is_held(rt: HostRuntime) -> Result<(), NoMemory> {
    let lock = new_lock(rt.alloc())?;
    expect_words(&rt, &lock, [0, 0, 0, 0, 0]);
    let holder = hold(&rt, &lock, 0);
    expect_words(&rt, &lock, [1, 0, 0, 0, 0]);
    let mut other = lock.arrive();
    expect(&rt, !lock.acquire(&mut other, 0), "the lock is held");
    other.leave();
    lock.let_go(holder);
    expect_words(&rt, &lock, [0, 0, 0, 0, 0]);
    Ok(())
}

// Tries to claim the lock, and releases it again. Answers whether it was claimed.
fn is_claimed_by_a_try(lock: &WordLock<Value>) -> bool {
    match lock.try_claim() {
        Some(claim) => {
            lock.release(claim);
            true
        }
        None => false,
    }
}

// A try that never claims meets its contract too.
#[test]
fn a_try_claims_the_lock_if_nobody_holds_it(rt: HostRuntime) -> Result<(), NoMemory> {
    let lock = new_lock(rt.alloc())?;
    let holder = hold(&rt, &lock, 0);
    expect(&rt, !is_claimed_by_a_try(&lock), "the lock is held");
    lock.let_go(holder);
    expect(&rt, is_claimed_by_a_try(&lock), "nobody holds the lock");
    expect_words(&rt, &lock, [0, 0, 0, 0, 0]);
    Ok(())
}

// One waits, and is removed by the release to 0.
#[test]
fn the_only_waiter_is_removed_and_told(rt: HostRuntime) -> Result<(), NoMemory> {
    let lock = new_lock(rt.alloc())?;
    let mut a = hold(&rt, &lock, 0);
    let mut b = lock.arrive();
    enter(&rt, &lock, &mut b, 9, 1);
    expect_words(&rt, &lock, [19, 0, 1, 0, 0]);
    let word = lock.release_to_zero(&mut a, 1);
    expect(&rt, word == 19, "somebody waits");
    let link = lock.first_link(&mut a, 19);
    expect(&rt, link == 1, "nobody else does");
    let word = lock.release_to_zero(&mut a, 19);
    expect(&rt, word == 19, "nobody came since");
    expect_words(&rt, &lock, [0, 0, 1, 0, 0]);
    lock.tell(&mut a, 9);
    expect_words(&rt, &lock, [0, 0, 0, 0, 0]);
    a.leave();
    wake_up(&rt, &lock, &mut b, 9, 0);
    lock.let_go(b);
    expect_words(&rt, &lock, [0, 0, 0, 0, 0]);
    Ok(())
}

// Two wait; the older one is cut off, gets the lock, and removes the other.
#[test]
fn the_oldest_of_two_is_cut_off_and_told(rt: HostRuntime) -> Result<(), NoMemory> {
    let lock = new_lock(rt.alloc())?;
    let mut a = hold(&rt, &lock, 0);
    let mut b = lock.arrive();
    let mut c = lock.arrive();
    enter(&rt, &lock, &mut b, 9, 1);
    enter(&rt, &lock, &mut c, 10, 19);
    expect_words(&rt, &lock, [21, 0, 1, 10, 0]);
    let word = lock.release_to_zero(&mut a, 1);
    expect(&rt, word == 21, "somebody waits");
    let link = lock.first_link(&mut a, 21);
    expect(&rt, link == 10, "another waits behind");
    let (newer, oldest) = lock.find_oldest(&mut a, 10, 9);
    expect(&rt, newer == 10 && oldest == 9, "in this order");
    lock.cut(&mut a, newer);
    expect_words(&rt, &lock, [21, 0, 1, 1, 0]);
    lock.release_after_cut(&mut a);
    expect_words(&rt, &lock, [20, 0, 1, 1, 0]);
    lock.tell(&mut a, oldest);
    expect_words(&rt, &lock, [20, 0, 0, 1, 0]);
    a.leave();
    wake_up(&rt, &lock, &mut b, 9, 20);
    expect_words(&rt, &lock, [21, 0, 0, 1, 0]);
    lock.let_go(b);
    expect_words(&rt, &lock, [0, 0, 0, 0, 0]);
    wake_up(&rt, &lock, &mut c, 10, 0);
    lock.let_go(c);
    expect_words(&rt, &lock, [0, 0, 0, 0, 0]);
    Ok(())
}

// A caller that was told finds the lock taken, and enters the list again.
#[test]
fn a_told_caller_can_enter_again(rt: HostRuntime) -> Result<(), NoMemory> {
    let lock = new_lock(rt.alloc())?;
    let a = hold(&rt, &lock, 0);
    let mut b = lock.arrive();
    let mut c = lock.arrive();
    enter(&rt, &lock, &mut b, 9, 1);
    enter(&rt, &lock, &mut c, 10, 19);
    lock.let_go(a);
    expect_words(&rt, &lock, [20, 0, 0, 1, 0]);
    give_back_told(&rt, &lock, &mut b, 9);
    let d = hold(&rt, &lock, 20);
    expect_words(&rt, &lock, [21, 0, 0, 1, 0]);
    enter(&rt, &lock, &mut b, 9, 21);
    expect_words(&rt, &lock, [19, 0, 11, 1, 0]);
    lock.let_go(d);
    expect_words(&rt, &lock, [18, 0, 1, 0, 0]);
    wake_up(&rt, &lock, &mut c, 10, 18);
    lock.let_go(c);
    expect_words(&rt, &lock, [0, 0, 0, 0, 0]);
    wake_up(&rt, &lock, &mut b, 9, 0);
    lock.let_go(b);
    expect_words(&rt, &lock, [0, 0, 0, 0, 0]);
    Ok(())
}

// Holds the lock until somebody waits in the list, and answers the word then.
fn hold_until_waited_for<R: Wait>(rt: &R, lock: &WordLock<Value>, is_held: &AtomicBool) -> u64 {
    let held = lock.lock(rt);
    is_held.store(true, Ordering::SeqCst);
    let mut word = lock.word();
    for _ in 0..TURNS {
        if word > LOCKED {
            break;
        }
        thread::yield_now();
        word = lock.word();
    }
    lock.unlock(held);
    word
}

fn lock_once_held<R: Wait>(rt: &R, lock: &WordLock<Value>, is_held: &AtomicBool) {
    for _ in 0..TURNS {
        if is_held.load(Ordering::SeqCst) {
            break;
        }
        thread::yield_now();
    }
    let held = lock.lock(rt);
    lock.unlock(held);
}

fn word_while_waited_for<R: Threads + Wait + Sync>(rt: &R, lock: &WordLock<Value>) -> u64 {
    let is_held = AtomicBool::new(false);
    let (word, ()) = thread::join(
        rt,
        || hold_until_waited_for(rt, lock, &is_held),
        || lock_once_held(rt, lock, &is_held),
    );
    word
}

// No clause says that a caller waits in the list. With a lock that only spins, or a lock of
// another kind in its place, the word stays 1.
#[test]
fn a_caller_waits_in_the_list(rt: HostRuntime) -> Result<(), NoMemory> {
    let lock = new_lock(rt.alloc())?;
    for _ in 0..100 {
        let word = word_while_waited_for(&rt, &lock);
        let is_place = word == 17 || word == 19 || word == 21 || word == 23;
        expect(&rt, is_place, "the word tells a place");
        expect(&rt, lock.word() == 0, "the lock is free again");
    }
    Ok(())
}
