//! This module has the steps of one caller on the words of a lock.

ghost use Rattle.std.specs.Prelude.{◌≡◌, ◌≢◌, ℕ, List, ◌+◌, ◌-◌, ◌*◌, ◌/◌, ◌%◌, ◌^◌, ◌<◌, ◌≤◌, [], ◌∷◌, length, None, IfSome, IsTrue, IsFalse};
ghost use Rattle.std.specs.Fn.{FnOnceReturnsAtMut, FnOnceTakesAtMut};
ghost use Rattle.lot_word_lock.specs.WordLockInvariant.{IsAwake};
ghost use Rattle.lot_word_lock.specs.WordPlaces.{head, behind, LinkLeadsTo, IsPlace};
ghost use Rattle.lot_word_lock.specs.WordView.{resting, leaving, seen_by, owed_by};
ghost use Rattle.lot_word_lock.specs.declared.word_lock.view.View.TheVariants.{Enqueued, Holding, Leaving};

use super::plays::{
    Acquire, Arrive, Ask, Cut, Enqueue, GiveBack, Link, Look, ReadFirst, ReadNext, ReleaseAfterCut,
    ReleaseToZero, TakePlace, Tell,
};
use super::view::View;
use super::{Fits, WORD_SLOTS, WordLock};
use atomic_table::Seat;
use std::sync::Wait;

/// The number of words of a lock, which are three cache lines.
pub(super) const WORDS: usize = 24;

// The index of the lock's word.
const WORD: usize = 0;

// The first of the places. A link is the word whose index is its place, and a place's mark is as
// many words further as there are places.
const FIRST_PLACE: usize = 8;

// The last of them.
const LAST_PLACE: usize = FIRST_PLACE + WORD_SLOTS - 1;

// The index of a word that nobody writes.
const UNWRITTEN: usize = 16;

/// The index of the slot that has the value.
pub(super) const VALUE: usize = 0;

/// The mark of a place that nobody has.
const FREE: u64 = 0;

/// The mark of a place that a caller has.
pub(super) const TAKEN: u64 = 1;

/// The mark of a place that a caller has, while another may sleep until it is given back.
pub(super) const WANTED: u64 = 2;

/// The word of a lock that is held while nobody is in the list. In any other word, this bit says
/// that the lock is held.
pub(super) const LOCKED: u64 = 1;

/// The link of a place after its caller was told that it was removed from the list.
pub(super) const TOLD: u64 = 0;

/// The link of the oldest place in the list.
pub(super) const OLDEST: u64 = 1;

/// A `Caller` is one caller of a word lock.
///
/// It has no `Drop`, and only this module reads its seat. So each one that `arrive` creates ends in
/// `leave`.
pub struct Caller<T: Fits> {
    pub(super) seat: Seat<Option<T>, (T::Key, View)>,
}

impl<T: Fits> Caller<T> {
    ghost use Rattle.lot_word_lock.specs.WordLock.{seat_of};

    /// Ends a caller that neither holds the lock nor has to tell another one of its removal.
    pub(super) fn leave(self)
        requires { seat_of self ≡ (resting, []) }
    {
        let Caller { seat: _ } = self;
    }
}

impl<T: Fits> WordLock<T> {
    ghost use Rattle.lot_word_lock.specs.WordLock.{IsCallerOf, IsTrying, HasFullSlot, RemovesOnce, key_of, Sees, SeesMore, SlotIsWithHolder, seat_of};

    /// Creates a caller.
    pub(super) fn arrive(&self) -> Caller<T>
        ensures lock { IsCallerOf self.now result }
        ensures rests { seat_of result ≡ (resting, []) }
    {
        // A load of the lock's own word would wait for the exchange before it, and a load from its
        // line for whoever holds the line.
        Caller {
            seat: self.table.shared.load_new_seat::<Arrive>(UNWRITTEN).1,
        }
    }

    /// Returns the word of the lock, as it was at one moment.
    pub(super) fn word(&self) -> u64 {
        self.table.shared.peek(WORD)
    }

    /// Returns a place that nobody had at one moment, or `None` if there was none.
    pub(super) fn free_place(&self) -> Option<usize>
        ensures { IfSome result IsPlace }
    {
        (FIRST_PLACE..=LAST_PLACE).find(|&place| self.table.shared.peek(place + WORD_SLOTS) == FREE)
    }

    /// Sets bit 0 of the word if the word is still the given one, and returns whether it was.
    pub(super) fn acquire(&self, caller: &mut Caller<T>, word: u64) -> bool
        requires lock { IsCallerOf self.now caller.old }
        requires tries { IsTrying caller.old 0 0 }
        requires free { word % 2 ≡ 0 }
        ensures lock { IsCallerOf self.now caller.new }
        ensures holds { IsTrue result →
            Sees caller.new [] × HasFullSlot (T.fits (key_of self.now)) caller.new }
        ensures tries { IsFalse result → seat_of caller.new ≡ seat_of caller.old }
        ensures slot { SlotIsWithHolder caller.new }
    {
        self.table
            .shared
            .compare_exchange::<Acquire>(&mut caller.seat, WORD, word, word + LOCKED)
            == word
    }

    /// Takes the value out of its slot.
    pub(super) fn take_value(&self, caller: &mut Caller<T>) -> T
        requires lock { IsCallerOf self.now caller.old }
        requires holds { Sees caller.old [] }
        requires home { HasFullSlot (T.fits (key_of self.now)) caller.old }
        ensures lock { IsCallerOf self.now caller.new }
        ensures out { seat_of caller.new ≡ (Holding [] [], (0, None) ∷ []) }
        ensures fits { T.fits (key_of self.now) result }
    {
        // A caller that holds the lock and has not taken the value out has the slot full.
        self.table
            .shared
            .exchange(&mut caller.seat, VALUE, None)
            .unwrap()
    }

    /// Calls the closure with the value, which stays in its slot.
    pub(super) fn lend_value<A, F: FnOnce(&mut T) -> A>(
        &self,
        caller: &mut Caller<T>,
        visitor: F,
    ) -> A
        requires lock { IsCallerOf self.now caller.old }
        requires holds { Sees caller.old [] }
        requires home { HasFullSlot (T.fits (key_of self.now)) caller.old }
        requires callable { (value : T) → T.fits (key_of self.now) value
            → FnOnceTakesAtMut F.FnOnce visitor value }
        requires keeps { (old new : T) (answer : A) → T.fits (key_of self.now) old
            → FnOnceReturnsAtMut F.FnOnce visitor old answer new → T.fits (key_of self.now) new }
        ensures lock { IsCallerOf self.now caller.new }
        ensures holds { Sees caller.new [] }
        ensures home { HasFullSlot (T.fits (key_of self.now)) caller.new }
        ensures lent { (old new : T) × T.fits (key_of self.now) old
            × FnOnceReturnsAtMut F.FnOnce visitor old result new }
    {
        // A caller that holds the lock and has not taken the value out has the slot full.
        let lent = caller.seat.slot_mut(&self.table.shared, VALUE).as_mut();
        visitor(lent.unwrap())
    }

    /// Puts a value into the slot, which is empty.
    pub(super) fn put_value(&self, caller: &mut Caller<T>, value: T)
        requires lock { IsCallerOf self.now caller.old }
        requires out { seat_of caller.old ≡ (Holding [] [], (0, None) ∷ []) }
        requires fits { T.fits (key_of self.now) value }
        ensures lock { IsCallerOf self.now caller.new }
        ensures holds { Sees caller.new [] }
        ensures home { HasFullSlot (T.fits (key_of self.now)) caller.new }
    {
        let old = self
            .table
            .shared
            .exchange(&mut caller.seat, VALUE, Some(value));
        // The value was taken out, so the slot was empty.
        let None = old else { unreachable!() };
    }

    /// Returns the place for which a caller asks that found none free.
    ///
    /// It is the newest of the list, as the word says, or the first place if the list is empty.
    pub(super) fn place_to_want(word: u64) -> usize
        ensures place { IsPlace result }
        ensures newest { IsPlace (word / 2) → result ≡ word / 2 }
    {
        let newest = (word / 2) as usize;
        if newest < FIRST_PLACE || newest >= FIRST_PLACE + WORD_SLOTS {
            return FIRST_PLACE;
        }
        newest
    }

    /// Takes the place if nobody has it, writes the given mark, and returns whether it did.
    pub(super) fn take_place(&self, caller: &mut Caller<T>, place: usize, mark: u64) -> bool
        requires lock { IsCallerOf self.now caller.old }
        requires place { IsPlace place }
        requires tries { IsTrying caller.old 0 0 }
        requires mark { (0 < mark) × (mark ≤ 2) }
        ensures lock { IsCallerOf self.now caller.new }
        ensures has { IsTrue result → (link : ℕ) × IsTrying caller.new place link }
        ensures tries { IsFalse result → seat_of caller.new ≡ seat_of caller.old }
    {
        self.table
            .shared
            .compare_exchange::<TakePlace>(&mut caller.seat, place + WORD_SLOTS, FREE, mark)
            == FREE
    }

    /// Marks that the place is wanted, if a caller has it, and returns whether a caller has it.
    pub(super) fn ask_for_place(&self, caller: &mut Caller<T>, place: usize) -> bool
        requires lock { IsCallerOf self.now caller.old }
        requires place { IsPlace place }
        requires tries { IsTrying caller.old 0 0 }
        ensures lock { IsCallerOf self.now caller.new }
        ensures tries { IsTrying caller.new 0 0 }
    {
        self.table
            .shared
            .compare_exchange::<Ask>(&mut caller.seat, place + WORD_SLOTS, TAKEN, WANTED)
            != FREE
    }

    /// Sleeps while the place is marked as wanted.
    pub(super) fn sleep_for_place<R: Wait>(&self, rt: &R, place: usize)
        requires { IsPlace place }
    {
        self.table
            .shared
            .park(rt, place + WORD_SLOTS, WANTED as u32);
    }

    /// Gives the place back, and wakes a caller that sleeps for it.
    pub(super) fn give_back(&self, caller: &mut Caller<T>, place: usize)
        requires lock { IsCallerOf self.now caller.old }
        requires place { IsPlace place }
        requires has { (link : ℕ) × IsTrying caller.old place link }
        ensures lock { IsCallerOf self.now caller.new }
        ensures tries { IsTrying caller.new 0 0 }
        ensures awake { IsAwake (seat_of caller.old).0 → IsAwake (seat_of caller.new).0 }
    {
        let mark = self
            .table
            .shared
            .swap::<GiveBack>(&mut caller.seat, place + WORD_SLOTS, FREE);
        if mark == WANTED {
            self.table.shared.wake_one(place + WORD_SLOTS);
        }
    }

    /// Writes the link of the caller's place.
    ///
    /// It is 1 more than `newest`, the place that entered before it. If `newest` is 0, the list is
    /// empty, and the link is 1.
    pub(super) fn write_link(&self, caller: &mut Caller<T>, place: usize, newest: u64)
        requires lock { IsCallerOf self.now caller.old }
        requires place { IsPlace place }
        requires has { (link : ℕ) × IsTrying caller.old place link }
        requires newest { newest < 2 ^ 63 }
        ensures lock { IsCallerOf self.now caller.new }
        ensures has { IsTrying caller.new place (1 + newest) }
    {
        self.table
            .shared
            .store::<Link>(&mut caller.seat, place, 1 + newest);
    }

    /// Makes the caller's place the newest of the list if the word is still the given one, and
    /// returns whether it was.
    ///
    /// Bit 0 of the word is set.
    pub(super) fn enqueue(&self, caller: &mut Caller<T>, place: usize, word: u64) -> bool
        requires lock { IsCallerOf self.now caller.old }
        requires place { IsPlace place }
        requires linked { IsTrying caller.old place (1 + word / 2) }
        requires locked { word % 2 ≡ 1 }
        ensures lock { IsCallerOf self.now caller.new }
        ensures waits { IsTrue result → seat_of caller.new ≡ (Enqueued place, []) }
        ensures tries { IsFalse result → seat_of caller.new ≡ seat_of caller.old }
    {
        let entered = LOCKED + 2 * place as u64;
        self.table
            .shared
            .compare_exchange::<Enqueue>(&mut caller.seat, WORD, word, entered)
            == word
    }

    /// Returns the link of the place with which the caller waits. If it is 0, the caller waits no
    /// longer.
    pub(super) fn own_link(&self, caller: &mut Caller<T>, place: usize) -> u64
        requires lock { IsCallerOf self.now caller.old }
        requires place { IsPlace place }
        requires waits { seat_of caller.old ≡ (Enqueued place, []) }
        ensures lock { IsCallerOf self.now caller.new }
        ensures told { result ≡ 0 → IsTrying caller.new place 0 }
        ensures awake { result ≡ 0 → IsAwake (seat_of caller.new).0 }
        ensures waits { result ≢ 0 → seat_of caller.new ≡ seat_of caller.old }
    {
        self.table.shared.load::<Look>(&mut caller.seat, place)
    }

    /// Makes the word 0 if it is still the given one, and returns the word as it was.
    ///
    /// The given word says that at most one place is in the list. So this releases the lock and
    /// removes that place.
    pub(super) fn release_to_zero(&self, caller: &mut Caller<T>, word: u64) -> u64
        requires lock { IsCallerOf self.now caller.old }
        requires home { HasFullSlot (T.fits (key_of self.now)) caller.old }
        requires holds { Sees caller.old (seen_by (seat_of caller.old).0) }
        requires short { length (seen_by (seat_of caller.old).0) ≤ 1 }
        requires word { word ≡ 1 + 2 * head (seen_by (seat_of caller.old).0) }
        ensures lock { IsCallerOf self.now caller.new }
        ensures left { result ≡ word →
            seat_of caller.new ≡ (leaving (seen_by (seat_of caller.old).0), []) }
        ensures once { RemovesOnce (seat_of caller.old).0 (seat_of caller.new).0 }
        ensures slot { SlotIsWithHolder caller.new }
        ensures home { result ≢ word → HasFullSlot (T.fits (key_of self.now)) caller.new }
        ensures holds { result ≢ word →
            SeesMore caller.new (length (seen_by (seat_of caller.old).0)) result }
    {
        self.table
            .shared
            .compare_exchange::<ReleaseToZero>(&mut caller.seat, WORD, word, 0)
    }

    /// Returns the link of the newest place, as the word says it and the caller has seen it.
    pub(super) fn first_link(&self, caller: &mut Caller<T>, word: u64) -> u64
        requires lock { IsCallerOf self.now caller.old }
        requires holds { SeesMore caller.old 0 word }
        ensures lock { IsCallerOf self.now caller.new }
        ensures home { (seat_of caller.new).1 ≡ (seat_of caller.old).1 }
        ensures last { result ≡ 1 → Sees caller.new (word / 2 ∷ []) }
        ensures next { result ≢ 1 → IsPlace (result - 1)
            × ((older : List ℕ) × Sees caller.new (word / 2 ∷ (result - 1) ∷ older)) }
        ensures alone { result ≡ 1 → (n : ℕ) → SeesMore caller.old n word → n ≡ 0 }
    {
        self.table
            .shared
            .load::<ReadFirst>(&mut caller.seat, (word / 2) as usize)
    }

    /// Returns the link of the second place that the caller has seen.
    ///
    /// If there is a third, the caller no longer keeps the first in sight.
    pub(super) fn next_link(&self, caller: &mut Caller<T>, place: usize) -> u64
        requires lock { IsCallerOf self.now caller.old }
        requires place { IsPlace place }
        requires holds { (newer : ℕ) × (older : List ℕ) × Sees caller.old (newer ∷ place ∷ older) }
        ensures lock { IsCallerOf self.now caller.new }
        ensures home { (seat_of caller.new).1 ≡ (seat_of caller.old).1 }
        ensures last { result ≡ 1 → seat_of caller.new ≡ seat_of caller.old }
        ensures next { result ≢ 1 → Sees caller.new (behind (seen_by (seat_of caller.old).0)) }
        ensures link { LinkLeadsTo result (behind (behind (seen_by (seat_of caller.old).0))) }
    {
        self.table.shared.load::<ReadNext>(&mut caller.seat, place)
    }

    /// Makes the place the oldest of the list, and so removes the one behind it.
    pub(super) fn cut(&self, caller: &mut Caller<T>, place: usize)
        requires lock { IsCallerOf self.now caller.old }
        requires place { IsPlace place }
        requires holds { (oldest : ℕ) × Sees caller.old (place ∷ oldest ∷ []) }
        ensures lock { IsCallerOf self.now caller.new }
        ensures owes { (seat_of caller.new).0
            ≡ Holding [] (behind (seen_by (seat_of caller.old).0)) }
        ensures once { RemovesOnce (seat_of caller.old).0 (seat_of caller.new).0 }
        ensures home { (seat_of caller.new).1 ≡ (seat_of caller.old).1 }
    {
        self.table
            .shared
            .store::<Cut>(&mut caller.seat, place, OLDEST);
    }

    /// Clears bit 0 of the word after a cut.
    pub(super) fn release_after_cut(&self, caller: &mut Caller<T>)
        requires lock { IsCallerOf self.now caller.old }
        requires home { HasFullSlot (T.fits (key_of self.now)) caller.old }
        requires owes { (removed : ℕ) × ((seat_of caller.old).0 ≡ Holding [] (removed ∷ [])) }
        ensures lock { IsCallerOf self.now caller.new }
        ensures left { seat_of caller.new ≡ (leaving (owed_by (seat_of caller.old).0), []) }
        ensures once { owed_by (seat_of caller.new).0 ≡ owed_by (seat_of caller.old).0 }
        ensures slot { SlotIsWithHolder caller.new }
    {
        self.table
            .shared
            .fetch_sub::<ReleaseAfterCut>(&mut caller.seat, WORD, LOCKED);
    }

    /// Tells the caller of the place that it was removed, and wakes it.
    pub(super) fn tell(&self, caller: &mut Caller<T>, place: usize)
        requires lock { IsCallerOf self.now caller.old }
        requires place { IsPlace place }
        requires owes { seat_of caller.old ≡ (Leaving (place ∷ []), []) }
        ensures lock { IsCallerOf self.now caller.new }
        ensures rests { seat_of caller.new ≡ (resting, []) }
    {
        self.table
            .shared
            .store::<Tell>(&mut caller.seat, place, TOLD);
        self.table.shared.wake_one(place);
    }

    /// Sleeps while the link of the place is the given one.
    ///
    /// The system compares only the low 32 bits of a word. They are enough, because a link is at
    /// most one more than a place.
    pub(super) fn sleep<R: Wait>(&self, rt: &R, place: usize, link: u64)
        requires { IsPlace place }
    {
        self.table.shared.park(rt, place, (link % (1 << 32)) as u32);
    }
}
