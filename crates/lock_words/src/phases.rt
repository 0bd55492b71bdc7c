//! This module has a word that numbers phases, and the title of the queue of the threads that wait
//! for the end of the present one, both in one table.
//!
//! The word is four times the number of the phase, and 1 more if somebody may wait for its end.
//! While the title is out with a thread, the word is 2 more, and only that thread can end the
//! phase. The queue is elsewhere: the word knows of it what the title tells.
//!
//! A phase with an even number is open: any thread can end it, and the next one has the next even
//! number. Or a thread begins to *lead* it. The number is odd then, 1 more, and only that thread
//! can end the phase. The numbers wrap around after 2 to the power of 62.

ghost use Rattle.std.specs.Prelude.{◌≡◌, ◌⊎◌, ◌≤◌, ℕ, ◌/◌, ◌%◌, ◌==◌, ◌+◌, ◌*◌, [], ◌∷◌, ◌++◌, Contains, IfOk, IfSome, IfNone, IsTrue, IsFalse, None, Option, Some};
ghost use Rattle.atomic_table.specs.Table.{State};
ghost use Rattle.lot_word_lock.specs.WordKey.{without_keys};
ghost use Rattle.lot_base.specs.Waiting.{without_first};
ghost use Rattle.lock_words.specs.PhaseRule.{being, leading, next_phase};
ghost use Rattle.lock_words.specs.PhaseSteps.{TookTitle};
ghost use Rattle.lock_words.specs.StockSteps.{behind};
ghost use Rattle.lock_words.specs.PhaseLaws.{HasOneLeader, LeavesNobody};
ghost use Rattle.lock_words.specs.declared.phases.view.View.{View};

pub mod plays;
pub mod view;

use crate::phases::plays::{
    Arrive, Carry, DropWait, End, Ended, Entered, Lead, Left, Look, Order, Returned,
};
use crate::phases::view::View;
use crate::stock::{Tells, word_of};
use atomic_table::{Refused, Seat, Table, TableRule};
use lot_word_lock::no_memory::NoMemory;
use std::alloc::Global;

// The index of the word.
const WORD: usize = 0;

// The index of the slot that has the title.
const TITLE: usize = 0;

/// What one phase counts in the word.
pub const PHASE: u64 = 4;

// What an open phase and the one that follows it are apart in the word.
const OPEN_PHASE: u64 = 8;

/// What the word has more if somebody may wait for the end of the phase.
pub const AWAITED: u64 = 1;

// What it has more while the title is out with a thread.
const OUT: u64 = 2;

/// A `Phases` has the number of the present phase, and the title of the queue of the threads that
/// wait for its end.
#[derive(Drop)]
pub struct Phases<M: Tells> {
    table: Table<Option<M>, (M::Key, View), M::Key, Order, Global>,
    ghost sized: { (table.shared.table_id.words ≡ 1) × (table.shared.table_id.slots ≡ 1) },
}

/// A `Hand` is one thread at a word with phases.
///
/// It has no `Drop`, so it has to end in `leave`.
pub struct Hand<M: Tells> {
    seat: Seat<Option<M>, (M::Key, View)>,
}

impl<M: Tells> Hand<M> {
    ghost use Rattle.lock_words.specs.Phases.{IsResting};

    /// Ends a hand that neither waits, nor leads the phase, nor carries the title.
    pub fn leave(self)
        requires { IsResting self }
    {
        let Hand { seat: _ } = self;
    }
}

impl<M: Tells> Phases<M> {
    ghost use Rattle.lock_words.specs.Phases.{IsHandOf, IsResting, IsFollowing, IsWithout, IsLeading, IsCarrying, MayWaitFor, HasSeenOther, carrying, queue_of, waits_of, phase_of, leads_of, numbers_of, seat_of};

    /// Creates a word in its first phase, whose number is 0, and for whose end nobody waits.
    ///
    /// # Errors
    ///
    /// Returns `NoMemory` if there is not enough memory. The title is dropped then.
    pub fn new(alloc: Global, title: M, queue: &M::Key) -> Result<Phases<M>, NoMemory>
        requires fits { M.fits queue.now title }
        requires nobody { M.told title ≡ [] }
        ensures { IfOk result (λ phases. queue_of phases ≡ queue.now) }
    {
        let mut slots = Vec::with_capacity(alloc, 1)?;
        slots.push_reserved(Some(title));
        match Table::new(alloc, &[0], slots, queue) {
            Ok((table, _resting)) => Ok(Phases { table }),
            Err(Refused { slots: _ }) => Err(NoMemory),
        }
    }

    /// Creates a hand that neither waits, nor leads the phase, nor carries the title.
    pub fn arrive(&self) -> Hand<M>
        ensures own { IsHandOf self.now result }
        ensures rests { IsResting result }
    {
        Hand {
            seat: self.table.shared.load_new_seat::<Arrive>(WORD).1,
        }
    }

    /// Returns the word, as it was at one moment.
    #[inline]
    pub fn word(&self) -> u64 {
        self.table.shared.peek(WORD)
    }

    /// Returns whether another phase than the given one is present. If so, the thread waits no
    /// longer.
    pub fn is_over(&self, hand: &mut Hand<M>, phase: u64) -> bool
        requires own { IsHandOf self.now hand.old }
        requires follows { IsFollowing hand.old }
        requires waits { MayWaitFor phase hand.old }
        ensures over { IsTrue result → HasSeenOther self.now phase hand.new }
        ensures own { IsHandOf self.now hand.new }
        ensures present { IsFalse result
            → seat_of hand.new ≡ (being (waits_of hand.old) phase, []) }
    {
        self.table.shared.load::<Look>(&mut hand.seat, WORD) / PHASE != phase
    }

    /// Takes the title out of its slot and returns it, if the word is still the given one.
    ///
    /// The thread carries the title then, until it puts it back by `entered`, `returned`, `left` or
    /// `ended`. The phase stays the same meanwhile.
    pub fn carry(&self, hand: &mut Hand<M>, word: u64) -> Option<M>
        requires own { IsHandOf self.now hand.old }
        requires without { IsWithout hand.old }
        requires home { word % 4 ≤ 1 }
        ensures own { IsHandOf self.now hand.new }
        ensures carries { IfSome result (λ title.
            seat_of hand.new ≡ carrying (waits_of hand.old) (leads_of hand.old) (M.told title)
            (word / 4)) }
        ensures fits { IfSome result (λ title. M.fits (queue_of self.now) title) }
        ensures unchanged { IfNone result (seat_of hand.new ≡ seat_of hand.old) }
    {
        if !self.take_slot(hand, word) {
            return None;
        }
        // The slot has the title in it.
        let Some(title) = self.exchange(hand, None) else {
            unreachable!()
        };
        Some(title)
    }

    /// Puts the title back, once the thread has entered the queue as the given number. The title
    /// tells of the thread now. The thread took it when the word was `found`.
    pub fn entered(&self, hand: &mut Hand<M>, title: M, number: u64, found: u64)
        requires own { IsHandOf self.now hand.old }
        requires carries { IsCarrying hand.old }
        requires follows { leads_of hand.old ≡ 0 }
        requires found { phase_of hand.old ≡ found / 4 }
        requires waits { (waits_of hand.old ≡ None) ⊎ (waits_of hand.old ≡ Some number) }
        requires new_one { ¬ Contains (numbers_of hand.old) number }
        requires fits { M.fits (queue_of self.now) title }
        requires tells { M.told title ≡ numbers_of hand.old ++ number ∷ [] }
        ensures own { IsHandOf self.now hand.new }
        ensures waits { seat_of hand.new ≡ (being (Some number) (found / 4), []) }
    {
        self.put_title(hand, title);
        self.table
            .shared
            .store::<Entered>(&mut hand.seat, WORD, found / PHASE * PHASE + AWAITED);
    }

    /// Puts the title back, which the thread took when the word was `found`. The thread waits as
    /// before.
    ///
    /// The title tells as it was taken, or the first thread was taken from the queue. `more` may be
    /// false only if it tells of nobody.
    pub fn returned(&self, hand: &mut Hand<M>, title: M, found: u64, more: bool)
        requires own { IsHandOf self.now hand.old }
        requires carries { IsCarrying hand.old }
        requires follows { leads_of hand.old ≡ 0 }
        requires found { phase_of hand.old ≡ found / 4 }
        requires fits { M.fits (queue_of self.now) title }
        requires others { (M.told title ≡ numbers_of hand.old)
            ⊎ (M.told title ≡ behind (numbers_of hand.old)) }
        requires more { IsFalse more → M.told title ≡ [] }
        ensures own { IsHandOf self.now hand.new }
        ensures waits { seat_of hand.new ≡ (being (waits_of hand.old) (found / 4), []) }
    {
        self.put_title(hand, title);
        self.table
            .shared
            .store::<Returned>(&mut hand.seat, WORD, word_of(found, more));
    }

    /// Puts the title back, which the thread took when the word was `found`. The thread, which is
    /// not in the queue any more, waits no longer.
    ///
    /// The title tells of the others: as it was taken, or without the thread. `more` may be false
    /// only if it tells of nobody.
    pub fn left(&self, hand: &mut Hand<M>, title: M, found: u64, more: bool)
        requires own { IsHandOf self.now hand.old }
        requires carries { IsCarrying hand.old }
        requires follows { leads_of hand.old ≡ 0 }
        requires found { phase_of hand.old ≡ found / 4 }
        requires fits { M.fits (queue_of self.now) title }
        requires others { ((number : ℕ) × (waits_of hand.old ≡ Some number) × (M.told title
            ≡ without_first (λ each. each == number) (numbers_of hand.old)))
            ⊎ ((M.told title ≡ numbers_of hand.old) × ((n : ℕ) → waits_of hand.old ≡ Some n
            → ¬ Contains (numbers_of hand.old) n)) }
        requires more { IsFalse more → M.told title ≡ [] }
        ensures own { IsHandOf self.now hand.new }
        ensures rests { seat_of hand.new ≡ (being None (found / 4), []) }
    {
        self.put_title(hand, title);
        self.table
            .shared
            .store::<Left>(&mut hand.seat, WORD, word_of(found, more));
    }

    /// Lets the thread wait no longer if the word is still the given one, which says that nobody
    /// waits, and returns whether it was.
    pub fn drop_wait(&self, hand: &mut Hand<M>, word: u64) -> bool
        requires own { IsHandOf self.now hand.old }
        requires follows { IsFollowing hand.old }
        requires nobody { word % 4 ≡ 0 }
        ensures own { IsHandOf self.now hand.new }
        ensures rests { IsTrue result → seat_of hand.new ≡ (being None (phase_of hand.old), []) }
        ensures unchanged { IsFalse result → seat_of hand.new ≡ seat_of hand.old }
    {
        self.table
            .shared
            .compare_exchange::<DropWait>(&mut hand.seat, WORD, word, word)
            == word
    }

    /// Begins to lead the phase if the word is still the given one, which says that the phase is
    /// open and nobody waits for its end, and returns whether it was.
    #[inline]
    pub fn lead(&self, hand: &mut Hand<M>, word: u64) -> bool
        requires own { IsHandOf self.now hand.old }
        requires rests { IsResting hand.old }
        requires open_phase { word % 8 ≡ 0 }
        ensures own { IsHandOf self.now hand.new }
        ensures leads { IsTrue result → seat_of hand.new ≡ (leading (word / 4 + 1), []) }
        ensures unchanged { IsFalse result → seat_of hand.new ≡ seat_of hand.old }
    {
        self.table
            .shared
            .compare_exchange::<Lead>(&mut hand.seat, WORD, word, word + PHASE)
            == word
    }

    /// Begins the phase after that of the word `found`, when the thread took the title, and puts
    /// the title back. The thread leads the phase, or the phase was open.
    ///
    /// All threads were taken from the queue, so the title tells of nobody.
    pub fn ended(&self, hand: &mut Hand<M>, title: M, found: u64)
        requires own { IsHandOf self.now hand.old }
        requires carries { IsCarrying hand.old }
        requires found { phase_of hand.old ≡ found / 4 }
        requires open_phase { leads_of hand.old ≡ 0 → found / 4 % 2 ≡ 0 }
        requires fits { M.fits (queue_of self.now) title }
        requires nobody { M.told title ≡ [] }
        ensures own { IsHandOf self.now hand.new }
        ensures next { seat_of hand.new ≡ (being None (next_phase (found / 4)), []) }
    {
        self.put_title(hand, title);
        self.table
            .shared
            .store::<Ended>(&mut hand.seat, WORD, next_word(found));
    }

    /// Begins the next phase if the word is still the given one, which says that nobody waits, and
    /// returns whether it was. The thread leads the phase, or the phase is open.
    #[inline]
    pub fn end(&self, hand: &mut Hand<M>, word: u64) -> bool
        requires own { IsHandOf self.now hand.old }
        requires without { IsWithout hand.old }
        requires open_phase { leads_of hand.old ≡ 0 → word / 4 % 2 ≡ 0 }
        requires nobody { word % 4 ≡ 0 }
        ensures own { IsHandOf self.now hand.new }
        ensures next { IsTrue result
            → seat_of hand.new ≡ (being None (next_phase (word / 4)), []) }
        ensures unchanged { IsFalse result → seat_of hand.new ≡ seat_of hand.old }
    {
        self.table
            .shared
            .compare_exchange::<End>(&mut hand.seat, WORD, word, next_word(word))
            == word
    }

    // Takes the slot with the title, if the word is still the given one, and returns whether it
    // was.
    fn take_slot(&self, hand: &mut Hand<M>, word: u64) -> bool
        requires own { IsHandOf self.now hand.old }
        requires without { IsWithout hand.old }
        requires home { word % 4 ≤ 1 }
        ensures own { IsHandOf self.now hand.new }
        ensures took { IsTrue result → TookTitle M.told (M.fits (queue_of self.now))
            (word / 4) (seat_of hand.old) (seat_of hand.new) }
        ensures unchanged { IsFalse result → seat_of hand.new ≡ seat_of hand.old }
    {
        self.table
            .shared
            .compare_exchange::<Carry>(&mut hand.seat, WORD, word, word / PHASE * PHASE + OUT)
            == word
    }

    // Puts a title into the slot, which the thread has taken.
    fn put_title(&self, hand: &mut Hand<M>, title: M)
        requires own { IsHandOf self.now hand.old }
        requires carries { IsCarrying hand.old }
        ensures own { IsHandOf self.now hand.new }
        ensures back { seat_of hand.new ≡ ((seat_of hand.old).0, (0, Some title) ∷ []) }
    {
        // The title was taken out, so the slot was empty.
        let None = self.exchange(hand, Some(title)) else {
            unreachable!()
        };
    }

    // Puts a content into the slot, which the thread has taken, and returns what was there.
    fn exchange(&self, hand: &mut Hand<M>, content: Option<M>) -> Option<M>
        requires own { IsHandOf self.now hand.old }
        requires slot { (was : Option M) × (seat_of hand.old
            ≡ ((seat_of hand.old).0, (0, was) ∷ [])) }
        ensures own { IsHandOf self.now hand.new }
        ensures was { seat_of hand.old ≡ ((seat_of hand.old).0, (0, result) ∷ []) }
        ensures new { seat_of hand.new ≡ ((seat_of hand.old).0, (0, content) ∷ []) }
    {
        self.table.shared.exchange(&mut hand.seat, TITLE, content)
    }
}

// The word of the phase that follows, for whose end nobody waits.
#[inline]
fn next_word(word: u64) -> u64
    ensures { result ≡ 4 * next_phase (word / 4) }
{
    (word / OPEN_PHASE * OPEN_PHASE).wrapping_add(OPEN_PHASE)
}

/// States that nobody waits in the queue for the end of a phase that is over, and that the word
/// tells if somebody waits while the title is in its slot. It follows from the rule that the table
/// of every word with phases keeps.
///
/// The state leaves out the key that each thread carries.
pub fn phases_leave_nobody<M: Tells>()
    ensures { (key : M.Key) → (state : State (Option M) (M.Key × View))
        → ⟦<Order as TableRule<Option<M>, (M::Key, View), M::Key>>⟧.holds key state
        → LeavesNobody (without_keys state) M.told (M.fits key) }
{}

/// States that no two threads lead the present phase, and that one does exactly if its number is
/// odd. It follows from the rule that the table of every word with phases keeps.
///
/// Such a thread is a `Hand` that cannot be dropped: it has to end the phase. And that takes a
/// title which tells of nobody, so that all who wait were taken from the queue.
pub fn phases_have_one_leader<M: Tells>()
    ensures { (key : M.Key) → (state : State (Option M) (M.Key × View))
        → ⟦<Order as TableRule<Option<M>, (M::Key, View), M::Key>>⟧.holds key state
        → HasOneLeader (without_keys state) }
{}
