//! This module has a stock of permits: the word of a lock, the title of its queue, and perhaps a
//! value that its only permit guards, all in one table.
//!
//! The word is four times the permits that are free, and 1 more if somebody may wait. It is 2 more
//! while the title is out with a thread, and no permit is taken or freed then. The queue is
//! elsewhere: the stock knows of it what the title tells.

ghost use Rattle.std.specs.Prelude.{◌≡◌, ◌≢◌, ◌⊎◌, ◌≤◌, ◌<◌, ◌+◌, ◌*◌, ◌/◌, ◌%◌, ◌==◌, ℕ, true, false, List, [], ◌∷◌, ◌++◌, Contains, IfOk, IfSome, IfNone, IsSome, IsTrue, IsFalse, None, Some};
ghost use Rattle.atomic_table.specs.Table.{State, rest};
ghost use Rattle.lot_word_lock.specs.WordKey.{without_keys};
ghost use Rattle.lock_words.specs.StockRule.{NoRepeats};
ghost use Rattle.lock_words.specs.StockView.{view, having, resting};
ghost use Rattle.lock_words.specs.StockSteps.{TookTitle, behind};
ghost use Rattle.lock_words.specs.StockLaws.{ConservesPermits, ForgetsNobody, IsExclusive};
ghost use Rattle.lock_words.specs.declared.stock.Content.{Content};
ghost use Rattle.lock_words.specs.declared.stock.Content.TheVariants.{Out, Value, Title};
ghost use Rattle.lock_words.specs.declared.stock.Supply.{Supply};
ghost use Rattle.lock_words.specs.declared.stock.view.View.{View};

pub mod plays;
pub mod view;

use crate::stock::plays::{
    Acquire, Arrive, Carry, DropWait, Entered, Left, Order, Release, Released, Returned,
};
use crate::stock::view::View;
use atomic_table::{Refused, Seat, Table, TableRule};
use lot_word_lock::no_memory::NoMemory;
use std::alloc::Global;

// The number of words of a stock.
const WORDS: usize = 2;

// The index of the word.
const WORD: usize = 0;

// The index of a word that nobody writes.
const UNWRITTEN: usize = 1;

// The index of the slot that has the value, if the permit guards one.
const VALUE: usize = 0;

// The index of the slot that has the title.
const TITLE: usize = 1;

/// What one free permit counts in the word.
pub const PERMIT: u64 = 4;

/// What the word has more if somebody may wait.
pub const TOLD: u64 = 1;

/// What it has more while the title is out with a thread.
pub const OUT: u64 = 2;

/// Says who waits in the queue of a lock.
pub trait Tells: Drop {
    /// Tells one queue from another in proofs.
    type Key;

    /// The numbers of the threads that wait in the queue, in order.
    ghost told: { Self → List ℕ };

    /// Says that it is the title of the queue of this key.
    ghost fits: { Self.Key → Self → Type 0 };
}

/// A `Content` is what lies in a slot of a stock.
#[derive(Drop)]
pub enum Content<T: Drop, M: Drop> {
    /// What lay there was taken out, or nothing ever lay there.
    Out,

    /// The value that the permit guards.
    Value(Box<T>),

    /// The title of the queue.
    Title(M),
}

/// A `Supply` is what a stock is made with.
#[derive(Drop)]
pub struct Supply<K> {
    /// Tells the queue of the stock from others, in proofs.
    pub queue: K,

    /// How many permits there are.
    pub permits: u32,

    /// Says whether the permit, of which there is one then, guards a value.
    pub guards: bool,
}

/// A `KeyedView` is what a hand carries in proofs: what its stock was made with, and its own view.
pub type KeyedView<K> = (Supply<K>, View);

/// A `Stock` has the permits of a lock that nobody holds, the title of its queue, and the value
/// that its permit guards, if it guards one and nobody holds it.
#[derive(Drop)]
pub struct Stock<T: Drop, M: Tells> {
    table: Table<Content<T, M>, KeyedView<M::Key>, Supply<M::Key>, Order, Global>,
    ghost sized: { (table.shared.table_id.words ≡ 2) × (table.shared.table_id.slots ≡ 2) },
}

/// A `Hand` is one thread at a stock.
///
/// It has no `Drop`, so it has to end in `leave`.
pub struct Hand<T: Drop, M: Tells> {
    seat: Seat<Content<T, M>, KeyedView<M::Key>>,
}

impl<T: Drop, M: Tells> Hand<T, M> {
    ghost use Rattle.lock_words.specs.Stock.{seat_of};

    /// Ends a hand that neither holds a permit, waits nor has a slot.
    pub fn leave(self)
        requires { seat_of self ≡ (resting, []) }
    {
        let Hand { seat: _ } = self;
    }
}

impl<T: Drop, M: Tells> Stock<T, M> {
    ghost use Rattle.lock_words.specs.Stock.{IsHandOf, IsWithout, IsCarrying, HasPermit, HasPermitAndTitle, HasSlot, HasValue, HasEmptySlot, MayOpenWith, carrying, with_content, supply_of, holds_of, waits_of, numbers_of, aside_of, seat_of};
    ghost use Rattle.lot_base.specs.Waiting.{without_first};

    /// Creates a stock in which all permits are free, and for which nobody waits.
    ///
    /// # Errors
    ///
    /// Returns `NoMemory` if there is not enough memory. The title is dropped then.
    pub fn new(alloc: Global, title: M, supply: &Supply<M::Key>) -> Result<Stock<T, M>, NoMemory>
        requires fits { M.fits supply.now.queue title }
        requires nobody { M.told title ≡ [] }
        requires bare { supply.now.guards ≡ false }
        ensures { IfOk result (λ stock. supply_of stock ≡ supply.now) }
    {
        Self::with(alloc, Content::Out, title, supply)
    }

    /// Creates a stock of one permit, which is free and guards a value, and for which nobody waits.
    ///
    /// # Errors
    ///
    /// Returns `NoMemory` if there is not enough memory. Value and title are dropped then.
    pub fn guarding(
        alloc: Global,
        value: Box<T>,
        title: M,
        supply: &Supply<M::Key>,
    ) -> Result<Stock<T, M>, NoMemory>
        requires fits { M.fits supply.now.queue title }
        requires nobody { M.told title ≡ [] }
        requires one { supply.now.permits ≡ 1 }
        ensures { IfOk result (λ stock. supply_of stock ≡ supply.now) }
    {
        Self::with(alloc, Content::Value(value), title, supply)
    }

    // Creates a stock with this in the slot of the value.
    fn with(
        alloc: Global,
        content: Content<T, M>,
        title: M,
        supply: &Supply<M::Key>,
    ) -> Result<Stock<T, M>, NoMemory>
        requires fits { M.fits supply.now.queue title }
        requires nobody { M.told title ≡ [] }
        requires content { MayOpenWith supply.now content }
        ensures { IfOk result (λ stock. supply_of stock ≡ supply.now) }
    {
        let mut slots = Vec::with_capacity(alloc, 2)?;
        slots.push_reserved(content);
        slots.push_reserved(Content::Title(title));
        let word = u64::from(supply.permits) * PERMIT;
        match Table::new(alloc, &[word, 0], slots, supply) {
            Ok((table, _resting)) => Ok(Stock { table }),
            Err(Refused { slots: _ }) => Err(NoMemory),
        }
    }

    /// Creates a hand that neither holds a permit of this stock nor waits.
    #[inline]
    pub fn arrive(&self) -> Hand<T, M>
        ensures stock { IsHandOf self.now result }
        ensures rests { seat_of result ≡ (resting, []) }
    {
        // A load of the word itself would wait for the exchange before it.
        Hand {
            seat: self.table.shared.load_new_seat::<Arrive>(UNWRITTEN).1,
        }
    }

    /// Returns the word of the stock, as it was at one moment.
    #[inline]
    pub fn word(&self) -> u64 {
        self.table.shared.peek(WORD)
    }

    /// Takes a permit, and the slot of the value with it if it guards one, if the word is still the
    /// given one, and returns whether it was.
    #[inline]
    pub fn acquire(&self, hand: &mut Hand<T, M>, word: u64) -> bool
        requires stock { IsHandOf self.now hand.old }
        requires without { seat_of hand.old ≡ (having 0 (waits_of hand.old), []) }
        requires free { 4 ≤ word }
        requires home { word % 4 ≤ 1 }
        ensures stock { IsHandOf self.now hand.new }
        ensures holds { IsTrue result → HasPermit self.now (waits_of hand.old) hand.new }
        ensures unchanged { IsFalse result → seat_of hand.new ≡ seat_of hand.old }
    {
        self.table
            .shared
            .compare_exchange::<Acquire>(&mut hand.seat, WORD, word, word - PERMIT)
            == word
    }

    /// Takes the value out of its slot, which the thread took last.
    #[inline]
    pub fn take_value(&self, hand: &mut Hand<T, M>) -> Box<T>
        requires stock { IsHandOf self.now hand.old }
        requires value { HasValue hand.old }
        ensures stock { IsHandOf self.now hand.new }
        ensures out { seat_of hand.new ≡ with_content hand.old 0 Out }
    {
        // The thread has slot 0 with the value in it.
        let Content::Value(value) = self.exchange(hand, VALUE, Content::Out) else {
            unreachable!()
        };
        value
    }

    /// Puts a value into slot 0, which the thread took last.
    #[inline]
    pub fn put_value(&self, hand: &mut Hand<T, M>, value: Box<T>)
        requires stock { IsHandOf self.now hand.old }
        requires empty { HasEmptySlot 0 hand.old }
        ensures stock { IsHandOf self.now hand.new }
        ensures back { seat_of hand.new ≡ with_content hand.old 0 (Value value) }
    {
        let old = self.exchange(hand, VALUE, Content::Value(value));
        // The value was taken out, so the slot was empty.
        let Content::Out = old else { unreachable!() };
    }

    /// Frees a permit, and gives the value back with it if it guards one, if the word is still the
    /// given one, and returns whether it was.
    ///
    /// The word has to say that nobody waits, or that a permit is free already, so that somebody is
    /// on the way if anybody waits.
    #[inline]
    pub fn release(&self, hand: &mut Hand<T, M>, word: u64) -> bool
        requires stock { IsHandOf self.now hand.old }
        requires holds { HasPermit self.now None hand.old }
        requires nobody_to_wake { (word % 4 ≡ 0) ⊎ ((word % 4 ≡ 1) × (4 ≤ word)) }
        ensures stock { IsHandOf self.now hand.new }
        ensures rests { IsTrue result → seat_of hand.new ≡ (resting, []) }
        ensures unchanged { IsFalse result → seat_of hand.new ≡ seat_of hand.old }
    {
        // The sum never wraps around where the word is that of the stock.
        self.table
            .shared
            .compare_exchange::<Release>(&mut hand.seat, WORD, word, word.wrapping_add(PERMIT))
            == word
    }

    /// Takes the title out of its slot and returns it, if the word is still the given one.
    ///
    /// The thread carries the title then, until it puts one back by `entered`, `returned`, `left`
    /// or `released`. So many permits are free meanwhile, and nobody takes or frees one.
    pub fn carry(&self, hand: &mut Hand<T, M>, word: u64) -> Option<M>
        requires stock { IsHandOf self.now hand.old }
        requires without { IsWithout hand.old }
        requires home { word % 4 ≤ 1 }
        ensures stock { IsHandOf self.now hand.new }
        ensures carries { IfSome result (λ title.
            seat_of hand.new ≡ carrying (seat_of hand.old) (M.told title) (word / 4)) }
        ensures fits { IfSome result (λ title. M.fits (supply_of self.now).queue title) }
        ensures once { IfSome result (λ title. NoRepeats (M.told title)) }
        ensures unchanged { IfNone result (seat_of hand.new ≡ seat_of hand.old) }
    {
        if !self.take_slot(hand, word) {
            return None;
        }
        // The slot has the title in it.
        let Content::Title(title) = self.exchange(hand, TITLE, Content::Out) else {
            unreachable!()
        };
        Some(title)
    }

    /// Puts the title back after the thread has entered the queue as the given number, as the title
    /// tells. No permit was free.
    pub fn entered(&self, hand: &mut Hand<T, M>, title: M, number: u64)
        requires stock { IsHandOf self.now hand.old }
        requires carries { seat_of hand.old
            ≡ carrying (having 0 (waits_of hand.old), []) (numbers_of hand.old) 0 }
        requires waits { (waits_of hand.old ≡ None) ⊎ (waits_of hand.old ≡ Some number) }
        requires new_one { ¬ Contains (numbers_of hand.old) number }
        requires fits { M.fits (supply_of self.now).queue title }
        requires tells { M.told title ≡ numbers_of hand.old ++ number ∷ [] }
        ensures stock { IsHandOf self.now hand.new }
        ensures waits { seat_of hand.new ≡ (having 0 (Some number), []) }
    {
        self.put_title(hand, title);
        self.table
            .shared
            .store::<Entered>(&mut hand.seat, WORD, TOLD);
    }

    /// Puts the title back, which the thread took when the word was `found`. The thread waits as
    /// before.
    ///
    /// The title tells as it was taken, or the thread has left the queue. `more` may be false only
    /// if it tells of nobody.
    pub fn returned(&self, hand: &mut Hand<T, M>, title: M, found: u64, more: bool)
        requires stock { IsHandOf self.now hand.old }
        requires carries { IsCarrying hand.old }
        requires found { aside_of hand.old ≡ found / 4 }
        requires fits { M.fits (supply_of self.now).queue title }
        requires others { (M.told title ≡ numbers_of hand.old)
            ⊎ ((number : ℕ) × (waits_of hand.old ≡ Some number)
            × (M.told title ≡ without_first (λ each. each == number)
            (numbers_of hand.old))) }
        requires more { IsFalse more → M.told title ≡ [] }
        ensures stock { IsHandOf self.now hand.new }
        ensures returned { seat_of hand.new
            ≡ (having (holds_of hand.old) (waits_of hand.old), rest (seat_of hand.old).1) }
    {
        self.put_title(hand, title);
        self.table
            .shared
            .store::<Returned>(&mut hand.seat, WORD, word_of(found, more));
    }

    /// Puts the title back, which the thread took when the word was `found`. The thread, which is
    /// not in the queue, waits no longer.
    ///
    /// If a permit is free, the first who waited was taken from the queue, if anybody waited, and
    /// the title tells of the others. `more` may be false only if it tells of nobody.
    pub fn left(&self, hand: &mut Hand<T, M>, title: M, found: u64, more: bool)
        requires stock { IsHandOf self.now hand.old }
        requires carries { IsCarrying hand.old }
        requires found { aside_of hand.old ≡ found / 4 }
        requires fits { M.fits (supply_of self.now).queue title }
        requires others { (M.told title ≡ behind (numbers_of hand.old))
            ⊎ ((M.told title ≡ numbers_of hand.old) × (found < 4)) }
        requires gone { (n : ℕ) → waits_of hand.old ≡ Some n → ¬ Contains (numbers_of hand.old) n }
        requires more { IsFalse more → M.told title ≡ [] }
        ensures stock { IsHandOf self.now hand.new }
        ensures left { seat_of hand.new
            ≡ (having (holds_of hand.old) None, rest (seat_of hand.old).1) }
    {
        self.put_title(hand, title);
        self.table
            .shared
            .store::<Left>(&mut hand.seat, WORD, word_of(found, more));
    }

    /// Puts the title back and frees the thread's permit as `release` does, after the first who
    /// waited was taken from the queue, if anybody waited. No permit was free.
    ///
    /// The title tells of the others. `more` may be false only if there are none.
    pub fn released(&self, hand: &mut Hand<T, M>, title: M, more: bool)
        requires stock { IsHandOf self.now hand.old }
        requires carries { HasPermitAndTitle self.now hand.old }
        requires fits { M.fits (supply_of self.now).queue title }
        requires others { M.told title ≡ behind (numbers_of hand.old) }
        requires more { IsFalse more → M.told title ≡ [] }
        ensures stock { IsHandOf self.now hand.new }
        ensures rests { seat_of hand.new ≡ (resting, []) }
    {
        self.put_title(hand, title);
        self.table
            .shared
            .store::<Released>(&mut hand.seat, WORD, word_of(PERMIT, more));
    }

    /// Lets the thread wait no longer if the word is still the given one, which says that nobody
    /// waits, and returns whether it was. The thread may hold a permit.
    pub fn drop_wait(&self, hand: &mut Hand<T, M>, word: u64) -> bool
        requires stock { IsHandOf self.now hand.old }
        requires without { IsWithout hand.old }
        requires untold { word % 4 ≡ 0 }
        ensures stock { IsHandOf self.now hand.new }
        ensures dropped { IsTrue result → seat_of hand.new
            ≡ (having (holds_of hand.old) None, (seat_of hand.old).1) }
        ensures unchanged { IsFalse result → seat_of hand.new ≡ seat_of hand.old }
    {
        self.table
            .shared
            .compare_exchange::<DropWait>(&mut hand.seat, WORD, word, word)
            == word
    }

    /// Ends the stock, and returns its word and the value that the permit guards.
    ///
    /// There is no value only if the permit guards none, or if a thread holds it still.
    pub fn close(self) -> (u64, Option<Box<T>>)
        ensures { (supply_of self).guards ≡ true → 4 ≤ result.0 → IsSome result.1 }
    {
        let Stock { table } = self;
        let mut closed = table.close();
        let word = closed.word(WORD);
        let content = closed.take(VALUE);
        drop(closed.take(TITLE));
        closed.free();
        match content {
            Content::Value(value) => (word, Some(value)),
            Content::Out | Content::Title(_) => (word, None),
        }
    }

    // Takes the slot with the title, if the word is still the given one, and returns whether it
    // was.
    fn take_slot(&self, hand: &mut Hand<T, M>, word: u64) -> bool
        requires stock { IsHandOf self.now hand.old }
        requires without { IsWithout hand.old }
        requires home { word % 4 ≤ 1 }
        ensures stock { IsHandOf self.now hand.new }
        ensures took { IsTrue result → TookTitle M.told (M.fits (supply_of self.now).queue)
            (word / 4) (seat_of hand.old) (seat_of hand.new) }
        ensures unchanged { IsFalse result → seat_of hand.new ≡ seat_of hand.old }
    {
        self.table
            .shared
            .compare_exchange::<Carry>(&mut hand.seat, WORD, word, word / PERMIT * PERMIT + OUT)
            == word
    }

    // Puts a title into slot 1, which the thread took last.
    fn put_title(&self, hand: &mut Hand<T, M>, title: M)
        requires stock { IsHandOf self.now hand.old }
        requires empty { HasEmptySlot 1 hand.old }
        ensures stock { IsHandOf self.now hand.new }
        ensures back { seat_of hand.new ≡ with_content hand.old 1 (Title title) }
    {
        let old = self.exchange(hand, TITLE, Content::Title(title));
        // The title was taken out, so the slot was empty.
        let Content::Out = old else { unreachable!() };
    }

    // Puts a content into the slot that the thread took last, and returns what was there.
    #[inline]
    fn exchange(&self, hand: &mut Hand<T, M>, slot: usize, content: Content<T, M>) -> Content<T, M>
        requires stock { IsHandOf self.now hand.old }
        requires slot { HasSlot slot hand.old }
        ensures stock { IsHandOf self.now hand.new }
        ensures was { seat_of hand.old ≡ with_content hand.old slot result }
        ensures new { seat_of hand.new ≡ with_content hand.old slot content }
    {
        self.table.shared.exchange(&mut hand.seat, slot, content)
    }
}

// The word with the same number of permits, or of the phase, as the given one, where others wait or
// do not.
pub(crate) fn word_of(found: u64, more: bool) -> u64
    ensures { (mark : ℕ) × (result ≡ 4 * (found / 4) + mark) × (mark ≤ 1)
        × (mark ≡ 0 → IsFalse more) }
{
    let told = if more { TOLD } else { 0 };
    found / PERMIT * PERMIT + told
}

/// States that no permit of a stock is lost and none comes from nowhere, by the rule that the table
/// of every stock keeps.
///
/// The state leaves out the key that each thread carries.
pub fn stocks_conserve_permits<T: Drop, M: Tells>()
    ensures { (key : Supply M.Key) → (state : State (Content T M) (Supply M.Key × View))
        → ⟦<Order as TableRule<Content<T, M>, KeyedView<M::Key>, Supply<M::Key>>>⟧.holds key state
        → ConservesPermits (without_keys state) key.permits }
{}

/// States that at most one thread holds the permit that guards a value, and that the value is there
/// exactly while nobody does. It follows from the rule that the table of every stock keeps.
pub fn stocks_exclude<T: Drop, M: Tells>()
    ensures { (key : Supply M.Key) → (state : State (Content T M) (Supply M.Key × View))
        → ⟦<Order as TableRule<Content<T, M>, KeyedView<M::Key>, Supply<M::Key>>>⟧.holds key state
        → key.guards ≡ true → IsExclusive (without_keys state) }
{}

/// States that if the title names anybody, the word says so, and if a permit is free then, somebody
/// is on the way. It follows from the rule that the table of every stock keeps.
pub fn stocks_forget_nobody<T: Drop, M: Tells>()
    ensures { (key : Supply M.Key) → (state : State (Content T M) (Supply M.Key × View))
        → ⟦<Order as TableRule<Content<T, M>, KeyedView<M::Key>, Supply<M::Key>>>⟧.holds key state
        → ForgetsNobody (without_keys state) M.told (M.fits key.queue) }
{}
