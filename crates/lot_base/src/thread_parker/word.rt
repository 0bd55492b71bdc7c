//! This module has a parker of one word, on which its thread sleeps.
//!
//! The word says whether the slot is empty and whether the owner sleeps, so a look reads the word
//! alone. A thread that works on the slot first makes the word `BUSY` by a swap, then changes the
//! slot, and then stores the new state in the word. The owner marks in the word that it sleeps,
//! before it does. So an unpark makes a call of the system only if it may have to wake the owner.
//!
//! It is proved that the word says whether the slot is empty whenever no thread works on the slot,
//! and that one thread at a time does. That the owner is woken is tested.

ghost use Rattle.std.specs.Prelude.{◌≡◌, ◌≢◌, ◌⊎◌, ◌↔◌, IsTrue, IfSome};
ghost use Rattle.lot_base.specs.Loaded.{HasNoNode, IsSlotFor, IsUnparked};
ghost use Rattle.lot_base.specs.Node.{fields};
ghost use Rattle.lot_base.specs.WordParkerRule.{ParkerOrderly, OpenTells, Untold, HasSlot, Tells, MaySleep};

use super::{LoadedSlot, ParkerKey, ParkerT, Payload, UnparkHandleT, thread_yield, time_left};
use crate::queue::Node;
use crate::token::NoMemory;
use atomic_table::{Play, Refused, Seat, Table, TableRule};
use lot_word_lock::spinwait::SpinWait;
use std::alloc::Global;
use std::sync::Wait;
use std::time::{Clock, Instant};

// The slot is empty, and the owner does not sleep.
const EMPTY: u64 = 0;

// Somebody works on the slot.
const BUSY: u64 = 1;

// The slot is empty, and the owner sleeps, or did until its deadline.
const EMPTY_ASLEEP: u64 = 2;

// The slot holds a node, and the owner does not sleep. Of the words that are not busy those less
// than this one say that the slot is empty.
const FULL: u64 = 3;

// The slot holds a node, and the owner may sleep still.
const FULL_ASLEEP: u64 = 4;

// The index of the word in its block. With seven words before it and seven behind it the block has
// all of the cache line of 64 bytes in which the word lies, so that no other block is in that line.
const WORD: usize = 7;

// How many words the block has.
const WORDS: usize = 15;

// The index of the slot.
const SLOT: usize = 0;

// What holds of the word and the slot between any two steps.
struct Order;

impl<L: Payload> TableRule<LoadedSlot<L>, ParkerKey<L::Home>, ParkerKey<L::Home>> for Order {
    ghost holds = { ParkerOrderly L.fits };

    ghost first = { λ key. key };
}

// The step after which the caller has the slot, if nobody had it before.
struct Open;

impl<L: Payload> Play<LoadedSlot<L>, ParkerKey<L::Home>> for Open {
    ghost then = { OpenTells L.fits };
}

// Any other step.
struct Step;

impl<L: Payload> Play<LoadedSlot<L>, ParkerKey<L::Home>> for Step {
    ghost then = { Untold };
}

// The slot out with one thread, and the word that this found. It has no `Drop`, so that it ends in
// `close`.
struct OpenSlot<L: Payload> {
    seat: Seat<LoadedSlot<L>, ParkerKey<L::Home>>,
    found: u64,
}

/// A `WordParker` has one word, on which its thread sleeps, and its slot in a block beside it.
///
/// It is the parker to take. No call except `new` allocates.
#[derive(Drop)]
pub struct WordParker<L: Payload = ()> {
    table: Table<LoadedSlot<L>, ParkerKey<L::Home>, ParkerKey<L::Home>, Order, Global>,
    ghost sized: { (table.shared.table_id.words ≡ 15) × (table.shared.table_id.slots ≡ 1) },
}

// Whether a word that is not busy says that the slot is empty.
fn says_empty(word: u64) -> bool {
    word < FULL
}

// What the word says of a slot that a node was put into. The mark that the owner sleeps stays.
fn filled(found: u64) -> u64
    ensures full { (result ≡ FULL) ⊎ (result ≡ FULL_ASLEEP) }
    ensures mark { MaySleep result ↔ MaySleep found }
{
    match found {
        EMPTY_ASLEEP | FULL_ASLEEP => FULL_ASLEEP,
        _ => FULL,
    }
}

impl<L: Payload> WordParker<L> {
    // The word, as it was at a moment when nobody worked on the slot.
    #[inline]
    fn word<R: Wait>(&self, rt: &R) -> u64 {
        let word = self.table.shared.peek(WORD);
        if word == BUSY {
            return self.word_slow(rt);
        }
        word
    }

    // The same, after a look that found the word busy.
    #[cold]
    #[inline(never)]
    fn word_slow<R: Wait>(&self, rt: &R) -> u64 {
        let mut spin = SpinWait::new();
        for _ in rt.forever() {
            if !spin.spin() {
                thread_yield();
            }
            let word = self.table.shared.peek(WORD);
            if word != BUSY {
                return word;
            }
        }
        unreachable!()
    }

    // Makes the word busy, and takes the slot out if nobody worked on it.
    #[inline]
    fn try_open(&self) -> Option<OpenSlot<L>>
        ensures table { IfSome result (λ opened.
            opened.seat.table_id ≡ self.now.table.shared.table_id) }
        ensures slot { IfSome result (λ opened.
            HasSlot opened.seat.me (Tells L.fits self.now.table.shared.key opened.found)) }
    {
        let (found, seat) = self.table.shared.swap_new_seat::<Open>(WORD, BUSY);
        if found == BUSY {
            return None;
        }
        Some(OpenSlot { seat, found })
    }

    // The same, once nobody works on it.
    #[inline]
    fn open<R: Wait>(&self, rt: &R) -> OpenSlot<L>
        ensures table { result.seat.table_id ≡ self.now.table.shared.table_id }
        ensures slot { HasSlot result.seat.me
            (Tells L.fits self.now.table.shared.key result.found) }
    {
        if let Some(opened) = self.try_open() {
            return opened;
        }
        self.open_slow(rt)
    }

    // The same, after a try in vain.
    #[cold]
    #[inline(never)]
    fn open_slow<R: Wait>(&self, rt: &R) -> OpenSlot<L>
        ensures table { result.seat.table_id ≡ self.now.table.shared.table_id }
        ensures slot { HasSlot result.seat.me
            (Tells L.fits self.now.table.shared.key result.found) }
    {
        for _ in rt.forever() {
            self.word_slow(rt);
            if let Some(opened) = self.try_open() {
                return opened;
            }
        }
        unreachable!()
    }

    // Puts the slot back, of which the word tells.
    #[inline]
    fn close(&self, opened: OpenSlot<L>, word: u64)
        requires table { opened.seat.table_id ≡ self.now.table.shared.table_id }
        requires slot { HasSlot opened.seat.me (Tells L.fits self.now.table.shared.key word) }
        requires settled { word ≢ BUSY }
    {
        let OpenSlot { mut seat, found: _ } = opened;
        self.table.shared.store::<Step>(&mut seat, WORD, word);
    }

    // Puts a node of the owner into the slot, and its payload beside it, unless one is there.
    #[inline]
    fn put(&self, seat: &mut Seat<LoadedSlot<L>, ParkerKey<L::Home>>, node: Box<Node>, payload: L)
        requires table { seat.old.table_id ≡ self.now.table.shared.table_id }
        requires slot { HasSlot seat.old.me (IsSlotFor
            (L.fits self.now.table.shared.key.home) self.now.table.shared.key.number) }
        requires number { (fields node.value).number ≡ self.now.table.shared.key.number }
        requires payload { L.fits self.now.table.shared.key.home (fields node.value) payload }
        ensures table { seat.new.table_id ≡ seat.old.table_id }
        ensures slot { HasSlot seat.new.me (λ slot. (HasNoNode slot → ⊥) × IsSlotFor
            (L.fits self.now.table.shared.key.home) self.now.table.shared.key.number slot) }
    {
        seat.slot_mut(&self.table.shared, SLOT).put(node, payload);
    }

    // Takes what the slot holds.
    #[inline]
    fn take_out(&self, seat: &mut Seat<LoadedSlot<L>, ParkerKey<L::Home>>) -> Option<(Box<Node>, L)>
        requires table { seat.old.table_id ≡ self.now.table.shared.table_id }
        requires slot { HasSlot seat.old.me (IsSlotFor
            (L.fits self.now.table.shared.key.home) self.now.table.shared.key.number) }
        ensures table { seat.new.table_id ≡ seat.old.table_id }
        ensures slot { HasSlot seat.new.me (λ slot. HasNoNode slot × IsSlotFor
            (L.fits self.now.table.shared.key.home) self.now.table.shared.key.number slot) }
        ensures unparked { IfSome result (IsUnparked
            (L.fits self.now.table.shared.key.home) self.now.table.shared.key.number) }
    {
        seat.slot_mut(&self.table.shared, SLOT).take()
    }

    // Puts a node of the owner into the slot, unless one is there, and puts the slot back. Answers
    // whether the owner may sleep.
    #[inline]
    fn fill(&self, mut opened: OpenSlot<L>, node: Box<Node>, payload: L) -> bool
        requires table { opened.seat.table_id ≡ self.now.table.shared.table_id }
        requires slot { HasSlot opened.seat.me
            (Tells L.fits self.now.table.shared.key opened.found) }
        requires number { (fields node.value).number ≡ self.now.table.shared.key.number }
        requires payload { L.fits self.now.table.shared.key.home (fields node.value) payload }
        ensures { IsTrue result ↔ MaySleep opened.found }
    {
        let word = filled(opened.found);
        self.put(&mut opened.seat, node, payload);
        self.close(opened, word);
        word == FULL_ASLEEP
    }

    // Takes the node and its payload, or answers `None` if the slot was empty at a look. The owner
    // is awake, so no mark of its sleep is left.
    #[inline]
    fn take<R: Wait>(&self, rt: &R) -> Option<(Box<Node>, L)>
        ensures { IfSome result (IsUnparked
            (L.fits self.now.table.shared.key.home) self.now.table.shared.key.number) }
    {
        if says_empty(self.word(rt)) {
            return None;
        }
        let mut opened = self.open(rt);
        let unparked = self.take_out(&mut opened.seat);
        self.close(opened, EMPTY);
        unparked
    }

    // Takes the node and its payload if they come while the owner spins, which costs about as much
    // as a sleep. Then the owner need not sleep, and the unpark need not wake it.
    fn take_soon<R: Wait>(&self, rt: &R) -> Option<(Box<Node>, L)>
        ensures { IfSome result (IsUnparked
            (L.fits self.now.table.shared.key.home) self.now.table.shared.key.number) }
    {
        let mut spin = SpinWait::new();
        for _ in rt.forever() {
            if !spin.spin() {
                return None;
            }
            if let Some(unparked) = self.take(rt) {
                return Some(unparked);
            }
        }
        unreachable!()
    }

    // Marks that the owner sleeps, if the slot is empty. Answers whether the mark is there.
    fn mark_asleep(&self) -> bool {
        let (word, mut seat) = self.table.shared.load_new_seat::<Step>(WORD);
        if word != EMPTY {
            return word == EMPTY_ASLEEP;
        }
        self.table
            .shared
            .compare_exchange::<Step>(&mut seat, WORD, EMPTY, EMPTY_ASLEEP)
            == EMPTY
    }

    // Removes the mark that the owner sleeps, which a sleep until a deadline leaves.
    #[cold]
    #[inline(never)]
    fn unmark_asleep(&self) {
        let (_, mut seat) = self.table.shared.load_new_seat::<Step>(WORD);
        self.table
            .shared
            .compare_exchange::<Step>(&mut seat, WORD, EMPTY_ASLEEP, EMPTY);
    }

    // Waits until the slot holds a node, and takes it with its payload.
    #[cold]
    #[inline(never)]
    fn park_slow<R: Wait>(&self, rt: &R) -> (Box<Node>, L)
        ensures { IsUnparked
            (L.fits self.now.table.shared.key.home) self.now.table.shared.key.number result }
    {
        if let Some(unparked) = self.take_soon(rt) {
            return unparked;
        }
        for _ in rt.forever() {
            if self.mark_asleep() {
                self.table.shared.park(rt, WORD, EMPTY_ASLEEP as u32);
            }
            if let Some(unparked) = self.take(rt) {
                return unparked;
            }
        }
        unreachable!()
    }

    // Waits until the slot holds a node, and takes it with its payload, or until the deadline.
    #[cold]
    #[inline(never)]
    fn park_until_slow<R: Wait + Clock>(&self, rt: &R, timeout: Instant) -> Option<(Box<Node>, L)>
        ensures { IfSome result (IsUnparked
            (L.fits self.now.table.shared.key.home) self.now.table.shared.key.number) }
    {
        if time_left(rt, timeout).is_none() {
            return self.take(rt);
        }
        if let Some(unparked) = self.take_soon(rt) {
            return Some(unparked);
        }
        for _ in rt.forever() {
            let Some(left) = time_left(rt, timeout) else {
                return self.take(rt);
            };
            if self.mark_asleep() {
                let shared = &self.table.shared;
                shared.park_timeout(rt, WORD, EMPTY_ASLEEP as u32, left);
            }
            if let Some(unparked) = self.take(rt) {
                return Some(unparked);
            }
        }
        unreachable!()
    }
}

impl<L: Payload> ParkerT for WordParker<L> {
    type Payload = L;

    type UnparkHandle = WordHandle;

    const IS_CHEAP_TO_CONSTRUCT: bool = false;

    ghost owner = { λ parker. parker.table.shared.key.number };

    ghost home = { λ parker. parker.table.shared.key.home };

    /// Creates a parker, for which it allocates the block of the word and the block of the slot.
    ///
    /// It also allocates a third block, of the slot's size, which it frees before it returns.
    ///
    /// # Errors
    ///
    /// Returns `NoMemory` if there is not enough memory.
    fn new(alloc: Global, key: &ParkerKey<L::Home>) -> Result<WordParker<L>, NoMemory> {
        let slot = LoadedSlot::new(key.number);
        let mut slots = Vec::with_capacity(alloc, 1)?;
        slots.push_reserved(slot);
        match Table::new(alloc, &[EMPTY; WORDS], slots, key) {
            Ok((table, _seat)) => Ok(WordParker { table }),
            Err(Refused { slots: _ }) => Err(NoMemory),
        }
    }

    /// Removes the mark that the owner sleeps, if an earlier sleep left it at its deadline.
    ///
    /// Otherwise it only reads the word.
    #[inline]
    fn prepare_park(&self) {
        if self.table.shared.peek(WORD) == EMPTY_ASLEEP {
            self.unmark_asleep();
        }
    }

    /// Reads the word, and reads it again while another thread works on the slot.
    #[inline]
    fn timed_out<R: Wait>(&self, rt: &R) -> bool {
        says_empty(self.word(rt))
    }

    /// Takes a node that is there by a swap and a store.
    ///
    /// If there is none, it spins, and looks ten times in some microseconds, about as long as a
    /// sleep and a wake-up take. Then it marks that the owner sleeps, and sleeps on the word. If it
    /// is woken without a node, it sleeps again.
    #[inline]
    fn park<R: Wait>(&self, rt: &R) -> (Box<Node>, L) {
        match self.take(rt) {
            Some(unparked) => unparked,
            None => self.park_slow(rt),
        }
    }

    /// Does what `park` does, but sleeps at most until the deadline.
    ///
    /// It reads the clock before it spins and before each sleep, and looks once more after the
    /// deadline. It may return some microseconds late, because it does not read the clock while it
    /// spins.
    #[inline]
    fn park_until<R: Wait + Clock>(&self, rt: &R, timeout: Instant) -> Option<(Box<Node>, L)> {
        match self.take(rt) {
            Some(unparked) => Some(unparked),
            None => self.park_until_slow(rt, timeout),
        }
    }

    /// Makes the word busy, puts the node into the slot, and stores that the slot is full.
    ///
    /// It waits only while another thread does the same, or while the owner takes a node.
    #[inline]
    fn unpark_lock<R: Wait>(&self, rt: &R, node: Box<Node>, payload: L) -> WordHandle {
        let number = node.number;
        let opened = self.open(rt);
        let wakes = self.fill(opened, node, payload);
        WordHandle { number, wakes }
    }
}

/// A `WordHandle` is the handle of a `WordParker`, and has the number of the thread and whether
/// that may sleep.
#[derive(Drop)]
pub struct WordHandle {
    number: usize,
    wakes: bool,
}

impl<L: Payload> UnparkHandleT<WordParker<L>> for WordHandle {
    ghost number = { λ handle. handle.number };

    fn number(&self) -> usize {
        self.number
    }

    /// Wakes the thread by a call of the system, if it may have slept when the unpark was
    /// committed.
    #[inline]
    fn unpark(self, parker: &WordParker<L>) {
        if self.wakes {
            parker.table.shared.wake_one(WORD);
        }
    }
}
