//! This module has a lock of one word around a value, whose callers wait in a list and sleep.
//!
//! # The words
//!
//! A lock has 24 words. Word 0 is the word of the lock. Its bit 0 says that a caller holds the
//! lock. The other bits are the newest place of the waiting list, or 0 if the list is empty.
//!
//! To be in the list, a caller needs a place, which is an entry of the list. There are four places,
//! with the numbers 8 to 11.
//!
//! - Words 8 to 11 are the links of the places. While a place is in the list, its link is 1 if the
//!   place is the oldest, and otherwise 1 more than the place that entered before it. It is 0 after
//!   the caller was told that its place was removed.
//! - Words 12 to 15 are the marks of the places. A mark is 0 while nobody has the place, 1 while a
//!   caller has it, and 2 if another caller sleeps until it is given back.
//! - The other words are written by nobody. A caller that arrives reads word 16.
//!
//! The words that nobody writes keep links and marks out of the cache line of word 0, and the words
//! of the next lock out of the cache lines of these.
//!
//! # The protocol
//!
//! - A caller that finds bit 0 clear sets it by one exchange of the word, and needs no place.
//! - A caller that finds it set, and has spun in vain, takes a place, writes its link, makes it the
//!   newest place by an exchange of the word, and sleeps on the link.
//! - If nobody is in the list, the holder makes the word 0 by one exchange.
//! - Otherwise the holder removes the oldest place. If it is the only one, it is removed as the
//!   word becomes 0. If there are several, a cut makes the link of the next place 1, and then bit 0
//!   is cleared. After that the holder writes 0 into the link of the removed place and wakes its
//!   caller, which tries again.
//!
//! A lock has a key, which is fixed when the lock is created. It says in proofs which lock this is,
//! and the invariant of the value may depend on it. Neither the lock nor a caller keeps a byte of
//! it.
//!
//! It is proved that `WordLockInvariant` holds, and that `lock` and `lend` give a value that
//! satisfies the invariant of the lock's key. That a caller that sleeps is woken is tested.

ghost use Rattle.std.specs.Prelude.{◌≡◌, ◌-◌, ◌%◌, ◌/◌, ◌+◌, ℕ, List, [], ◌∷◌, IfOk, IfSome, IfNone, Option, IsTrue};
ghost use Rattle.std.specs.Fn.{FnOnceReturnsAtMut, FnOnceTakesAtMut};
ghost use Rattle.atomic_table.specs.Table.{State};
ghost use Rattle.lot_word_lock.specs.WordPlaces.{IsPlace};
ghost use Rattle.lot_word_lock.specs.WordKey.{without_keys};
ghost use Rattle.lot_word_lock.specs.WordLockInvariant.{WordLockInvariant, IsAwake};
ghost use Rattle.lot_word_lock.specs.declared.word_lock.view.View.{View};
ghost use Rattle.lot_word_lock.specs.declared.word_lock.view.View.TheVariants.{Enqueued};

mod lent;
pub mod plays;
mod steps;
#[cfg(test)]
mod tests;
pub mod view;

use crate::no_memory::NoMemory;
use crate::spinwait::SpinWait;
use crate::word_lock::plays::Order;
use crate::word_lock::steps::{Caller, LOCKED, OLDEST, TAKEN, TOLD, WANTED, WORDS};
use crate::word_lock::view::View;
use atomic_table::{Refused, Table, TableRule};
use std::alloc::Global;
use std::sync::Wait;

/// This is the number of places of a lock, and so of the callers that can wait in its list.
///
/// Other callers sleep until a place is free.
pub const WORD_SLOTS: usize = 4;

/// `Fits` says what a value behind a lock satisfies whenever nobody holds the lock.
///
/// `WordLock::new` and `unlock` require it, and `lock` ensures it. `lend` gives such a value to its
/// closure, and requires that the closure leaves one.
///
/// It has `Drop` as its parent, so that a lock can be dropped with its value.
pub trait Fits: Drop {
    /// Tells one lock from another in proofs, as the place of a bucket does. It is `()` if all
    /// locks are alike.
    type Key;

    /// Says what the value behind a lock of this key satisfies.
    ghost fits: { Self.Key → Self → Type 0 };
}

/// A `WordLock` is a lock of one word around a value, which threads share by reference.
///
/// Here `pair` has two numbers that `Fits` wants to be equal, and both change in their place:
///
/// ```
/// let mut claim = lock.claim(rt);
/// lock.lend(&mut claim, |pair| {
///     pair.first = pair.first.wrapping_add(1);
///     pair.second = pair.second.wrapping_add(1);
/// });
/// lock.release(claim);
/// ```
///
/// It has 64 bytes, and points to two blocks on the heap, one of 24 words and one for the value. A
/// `lock` and an `unlock` that meet no other caller touch few cache lines: that of the lock itself,
/// that of its word, that of a word that nobody writes, and those of the value. For a value of 40
/// bytes these are four or five.
#[derive(Drop)]
pub struct WordLock<T: Fits> {
    table: Table<Option<T>, (T::Key, View), T::Key, Order, Global>,
    ghost sized: { (table.shared.table_id.words ≡ 24) × (table.shared.table_id.slots ≡ 1) },
}

/// A `Held` has the value of a lock that its owner holds.
///
/// It has no `Drop`, so it has to end in `unlock` of the lock that gave it.
pub struct Held<T: Fits> {
    /// The value, which may be read and changed.
    pub value: T,

    caller: Caller<T>,
}

/// A `Claim` says that its owner holds a lock, while the value stays in the lock.
///
/// It has no `Drop`, so it has to end in `release` of the lock whose `claim` gave it.
pub struct Claim<T: Fits> {
    caller: Caller<T>,
}

impl<T: Fits> WordLock<T> {
    ghost use Rattle.lot_word_lock.specs.WordLock.{IsCallerOf, IsClaimOn, IsHeldOf, IsTrying, HasFullSlot, Sees, SeesMore, key_of, seat_of};

    /// Creates a lock with this key that nobody holds, around a value that satisfies the invariant
    /// of the key.
    ///
    /// The key is for proofs alone. Nothing reads or keeps it.
    ///
    /// It allocates the block of the words, the block of the value, and a third block of the
    /// value's size, which it frees before it returns. No other call of a lock allocates.
    ///
    /// # Errors
    ///
    /// Returns `NoMemory` if there is not enough memory. The value is dropped then.
    pub fn new(alloc: Global, value: T, key: &T::Key) -> Result<WordLock<T>, NoMemory>
        requires { T.fits key.now value }
        ensures { IfOk result (λ lock. key_of lock ≡ key.now) }
    {
        let mut slots = Vec::with_capacity(alloc, 1)?;
        slots.push_reserved(Some(value));
        match Table::new(alloc, &[0; WORDS], slots, key) {
            Ok((table, _resting)) => Ok(WordLock { table }),
            Err(Refused { slots: _ }) => Err(NoMemory),
        }
    }

    /// Waits until nobody holds the lock, takes the lock, and returns its value, which satisfies
    /// the lock's invariant.
    ///
    /// Any thread may call it. A thread that already holds the lock waits for ever.
    ///
    /// If nobody holds the lock and nobody is in the list, it is one exchange of the word. If
    /// another caller holds the lock, it spins by a `SpinWait` while nobody is in the list. Then it
    /// enters the list, sleeps until it was removed, and tries again like any other caller. If no
    /// place is free, it sleeps until one certain place is given back, even if another is free
    /// before: the newest of the list, or the first place if the list is empty.
    #[inline]
    pub fn lock<R: Wait>(&self, rt: &R) -> Held<T>
        ensures held { IsHeldOf self.now result }
        ensures fits { T.fits (key_of self.now) result.value }
    {
        let mut caller = self.hold(rt);
        let value = self.take_value(&mut caller);
        Held { value, caller }
    }

    /// Puts the value back and releases the lock.
    ///
    /// The value has to satisfy the invariant of the lock's key, and `held` has to come from this
    /// lock. It does not wait.
    ///
    /// If nobody is in the list, it is one exchange of the word. Otherwise it reads links of the
    /// list, at most five times in all, tries to change the word up to three times, removes the
    /// oldest place, and wakes its caller.
    #[inline]
    pub fn unlock(&self, held: Held<T>)
        requires held { IsHeldOf self.now held }
        requires fits { T.fits (key_of self.now) held.value }
    {
        let Held { value, mut caller } = held;
        self.put_value(&mut caller, value);
        self.let_go(caller);
    }

    /// Waits as `lock` does and takes the lock, but leaves the value in it.
    ///
    /// Use `lend` to change the value. A value of several words is cheaper to change in place than
    /// to take out and put back.
    #[inline]
    pub fn claim<R: Wait>(&self, rt: &R) -> Claim<T>
        ensures { IsClaimOn (T.fits (key_of self.now)) self.now result }
    {
        Claim {
            caller: self.hold(rt),
        }
    }

    /// Takes the lock as `claim` does, if nobody holds it and nobody is in the list.
    ///
    /// It does not wait: it is one exchange of the word.
    #[inline]
    pub fn try_claim(&self) -> Option<Claim<T>>
        ensures { IfSome result (IsClaimOn (T.fits (key_of self.now)) self.now) }
    {
        let mut caller = self.arrive();
        if !self.acquire(&mut caller, 0) {
            caller.leave();
            return None;
        }
        Some(Claim { caller })
    }

    /// Calls the closure once with the value, which satisfies the lock's invariant, and returns
    /// what it returned.
    ///
    /// The closure has to leave a value that satisfies the invariant, and `claim` has to come from
    /// this lock. It does not wait, and touches the value alone.
    #[inline]
    pub fn lend<A, F: FnOnce(&mut T) -> A>(&self, claim: &mut Claim<T>, visitor: F) -> A
        requires claim { IsClaimOn (T.fits (key_of self.now)) self.now claim.old }
        requires callable { (value : T) → T.fits (key_of self.now) value
            → FnOnceTakesAtMut F.FnOnce visitor value }
        requires keeps { (old new : T) (answer : A) → T.fits (key_of self.now) old
            → FnOnceReturnsAtMut F.FnOnce visitor old answer new → T.fits (key_of self.now) new }
        ensures claim { IsClaimOn (T.fits (key_of self.now)) self.now claim.new }
        ensures lent { (old new : T) × T.fits (key_of self.now) old
            × FnOnceReturnsAtMut F.FnOnce visitor old result new }
    {
        self.lend_value(&mut claim.caller, visitor)
    }

    /// Releases the lock, as `unlock` does.
    ///
    /// `claim` has to come from this lock.
    #[inline]
    pub fn release(&self, claim: Claim<T>)
        requires { IsClaimOn (T.fits (key_of self.now)) self.now claim }
    {
        let Claim { caller } = claim;
        self.let_go(caller);
    }

    // A caller that holds the lock.
    #[inline]
    fn hold<R: Wait>(&self, rt: &R) -> Caller<T>
        ensures lock { IsCallerOf self.now result }
        ensures holds { Sees result [] }
        ensures home { HasFullSlot (T.fits (key_of self.now)) result }
    {
        let mut caller = self.arrive();
        if self.acquire(&mut caller, 0) {
            return caller;
        }
        self.lock_slow(rt, caller)
    }

    // The same for a caller that found the lock held, or somebody in the list.
    #[cold]
    #[inline(never)]
    fn lock_slow<R: Wait>(&self, rt: &R, arrived: Caller<T>) -> Caller<T>
        requires lock { IsCallerOf self.now arrived }
        requires tries { IsTrying arrived 0 0 }
        ensures lock { IsCallerOf self.now result }
        ensures holds { Sees result [] }
        ensures home { HasFullSlot (T.fits (key_of self.now)) result }
    {
        let mut caller = arrived;
        let mut spin = SpinWait::new();
        for _ in rt.forever() {
            let word = self.word();
            if word % 2 != LOCKED {
                if self.acquire(&mut caller, word) {
                    return caller;
                }
            } else if word == LOCKED && spin.spin() {
                continue;
            } else if self.wait(rt, &mut caller, word) {
                spin.reset();
            }
        }
        unreachable!()
    }

    // Waits in the list until the caller was removed from it. Answers false where another caller
    // took the place first, and where the word is another by now.
    fn wait<R: Wait>(&self, rt: &R, caller: &mut Caller<T>, word: u64) -> bool
        requires lock { IsCallerOf self.now caller.old }
        requires tries { IsTrying caller.old 0 0 }
        requires locked { word % 2 ≡ 1 }
        ensures lock { IsCallerOf self.now caller.new }
        ensures tries { IsTrying caller.new 0 0 }
        ensures awake { IsTrue result → IsAwake (seat_of caller.new).0 }
    {
        let Some(place) = self.find_place(rt, caller, word) else {
            return false;
        };
        let waited = self.wait_with(rt, caller, place, word);
        self.give_back(caller, place);
        waited
    }

    // Takes a place that is free, or waits for one. Answers `None` where another caller took the
    // place first.
    fn find_place<R: Wait>(&self, rt: &R, caller: &mut Caller<T>, word: u64) -> Option<usize>
        requires lock { IsCallerOf self.now caller.old }
        requires tries { IsTrying caller.old 0 0 }
        ensures lock { IsCallerOf self.now caller.new }
        ensures has { IfSome result (λ place.
            IsPlace place × ((link : ℕ) × IsTrying caller.new place link)) }
        ensures tries { IfNone result (IsTrying caller.new 0 0) }
    {
        let Some(place) = self.free_place() else {
            return Some(self.wait_for_place(rt, caller, word));
        };
        if self.take_place(caller, place, TAKEN) {
            Some(place)
        } else {
            None
        }
    }

    // Takes a place that was taken, once it is given back. It is marked as wanted then too, since
    // whoever sleeps for it as well is woken by nobody else.
    fn wait_for_place<R: Wait>(&self, rt: &R, caller: &mut Caller<T>, word: u64) -> usize
        requires lock { IsCallerOf self.now caller.old }
        requires tries { IsTrying caller.old 0 0 }
        ensures lock { IsCallerOf self.now caller.new }
        ensures place { IsPlace result }
        ensures has { (link : ℕ) × IsTrying caller.new result link }
    {
        let place = WordLock::<T>::place_to_want(word);
        for _ in rt.forever() {
            if self.take_place(caller, place, WANTED) {
                return place;
            }
            if self.ask_for_place(caller, place) {
                self.sleep_for_place(rt, place);
            }
        }
        unreachable!()
    }

    // Waits in the list with this place.
    fn wait_with<R: Wait>(&self, rt: &R, caller: &mut Caller<T>, place: usize, word: u64) -> bool
        requires lock { IsCallerOf self.now caller.old }
        requires place { IsPlace place }
        requires has { (link : ℕ) × IsTrying caller.old place link }
        requires locked { word % 2 ≡ 1 }
        ensures lock { IsCallerOf self.now caller.new }
        ensures has { (link : ℕ) × IsTrying caller.new place link }
        ensures awake { IsTrue result → IsAwake (seat_of caller.new).0 }
    {
        self.write_link(caller, place, word / 2);
        if !self.enqueue(caller, place, word) {
            return false;
        }
        self.wait_until_told(rt, caller, place);
        true
    }

    // Sleeps until the caller's link is 0.
    fn wait_until_told<R: Wait>(&self, rt: &R, caller: &mut Caller<T>, place: usize)
        requires lock { IsCallerOf self.now caller.old }
        requires place { IsPlace place }
        requires waits { seat_of caller.old ≡ (Enqueued place, []) }
        ensures lock { IsCallerOf self.now caller.new }
        ensures told { IsTrying caller.new place 0 }
        ensures awake { IsAwake (seat_of caller.new).0 }
    {
        for _ in rt.forever() {
            let link = self.own_link(caller, place);
            if link == TOLD {
                return;
            }
            self.sleep(rt, place, link);
        }
        unreachable!()
    }

    // Lets the lock go, once the value is back.
    #[inline]
    fn let_go(&self, holder: Caller<T>)
        requires lock { IsCallerOf self.now holder }
        requires holds { Sees holder [] }
        requires home { HasFullSlot (T.fits (key_of self.now)) holder }
    {
        let mut caller = holder;
        let word = self.release_to_zero(&mut caller, LOCKED);
        if word == LOCKED {
            caller.leave();
        } else {
            self.unlock_slow(caller, word);
        }
    }

    // The same where somebody is in the list, as the word told.
    #[cold]
    #[inline(never)]
    fn unlock_slow(&self, holder: Caller<T>, word: u64)
        requires lock { IsCallerOf self.now holder }
        requires holds { SeesMore holder 0 word }
        requires home { HasFullSlot (T.fits (key_of self.now)) holder }
    {
        let mut caller = holder;
        let link = self.first_link(&mut caller, word);
        if link != OLDEST {
            return self.remove_oldest(caller, (word / 2) as usize, (link - 1) as usize);
        }
        let found = self.release_to_zero(&mut caller, word);
        if found != word {
            // Another has entered, so the oldest place is no longer the newest.
            let link = self.first_link(&mut caller, found);
            return self.remove_oldest(caller, (found / 2) as usize, (link - 1) as usize);
        }
        self.tell(&mut caller, (word / 2) as usize);
        caller.leave();
    }

    // Removes the oldest of several places, lets the lock go, and tells the place. `next` is the
    // place that entered before the newest.
    fn remove_oldest(&self, holder: Caller<T>, newest: usize, next: usize)
        requires lock { IsCallerOf self.now holder }
        requires places { IsPlace newest × IsPlace next }
        requires holds { (older : List ℕ) × Sees holder (newest ∷ next ∷ older) }
        requires home { HasFullSlot (T.fits (key_of self.now)) holder }
    {
        let mut caller = holder;
        let (newer, oldest) = self.find_oldest(&mut caller, newest, next);
        self.cut(&mut caller, newer);
        self.release_after_cut(&mut caller);
        self.tell(&mut caller, oldest);
        caller.leave();
    }

    // The place that entered second, and the oldest.
    fn find_oldest(&self, caller: &mut Caller<T>, newest: usize, next: usize) -> (usize, usize)
        requires lock { IsCallerOf self.now caller.old }
        requires places { IsPlace newest × IsPlace next }
        requires holds { (older : List ℕ) × Sees caller.old (newest ∷ next ∷ older) }
        ensures lock { IsCallerOf self.now caller.new }
        ensures places { IsPlace result.0 × IsPlace result.1 }
        ensures holds { Sees caller.new (result.0 ∷ result.1 ∷ []) }
        ensures home { (seat_of caller.new).1 ≡ (seat_of caller.old).1 }
    {
        let mut newer = newest;
        let mut oldest = next;
        loop {
            let link = self.next_link(caller, oldest);
            if link == OLDEST {
                return (newer, oldest);
            }
            newer = oldest;
            oldest = (link - 1) as usize;
        }
    }
}

/// Between any two steps of its callers a word lock keeps its invariant, since the rule that the
/// table of every lock keeps gives it.
///
/// The state is one without the key that each caller carries.
pub fn word_locks_keep_their_invariant<T: Fits>()
    ensures { (key : T.Key) → (state : State (Option T) (T.Key × View))
        → ⟦<Order as TableRule<Option<T>, (T::Key, View), T::Key>>⟧.holds key state
        → WordLockInvariant (T.fits key) (without_keys state) }
{}
