//! How a thread waits at a gate for a permit, and how one that gives a permit back wakes another.

ghost use Rattle.std.specs.Prelude.{◌≡◌, ◌⊎◌, ◌≤◌, ◌%◌, ◌/◌, ℕ, [], Contains, IfErr, IfNone, IfOk, IfSome, IsFalse, IsTrue, None, OnErr, OnOk, Some};
ghost use Rattle.atomic_table.specs.Table.{rest};
ghost use Rattle.lot_threads.specs.Members.{IsDataOf};
ghost use Rattle.lot_threads.specs.Titled.{IsEnteredIn, IsTitle, told_by};
ghost use Rattle.lock_words.specs.Stock.{HasPermit, IsHandOf, IsWithout, carrying, holds_of, seat_of, waits_of};
ghost use Rattle.lock_words.specs.StockRule.{NoRepeats};
ghost use Rattle.lock_words.specs.StockView.{having, resting};
ghost use Rattle.parking_lot.specs.Gates.{Holds, HoldsAs, IsInList, MayWait, Rests};
ghost use Rattle.parking_lot.specs.Queues.{IsThreadOf, MayBe};

use super::Gate;
use crate::lot::stand_back;
use crate::queue_title::QueueTitle;
use lock_words::stock::{Hand, PERMIT, TOLD};
use lot_threads::{
    DEFAULT_PARK_TOKEN, DEFAULT_UNPARK_TOKEN, Entered, ThreadData, Title, TitledSection, WordParker,
};
use std::sync::Wait;
use std::time::{Clock, Instant};

impl<T: Drop> Gate<'_, T> {
    // Takes a permit if one is free, and answers whether it did. While the title is out, it looks
    // again: nobody takes a free permit then. After an exchange in vain it stands back too, so that
    // threads which come together do not take the word from each other all the time.
    #[inline]
    pub(super) fn try_take<R: Wait>(&self, rt: &R, hand: &mut Hand<T, QueueTitle>) -> bool
        requires stock { IsHandOf self.now.stock hand.old }
        requires without { seat_of hand.old ≡ (having 0 (waits_of hand.old), []) }
        ensures stock { IsHandOf self.now.stock hand.new }
        ensures holds { IsTrue result → HasPermit self.now.stock (waits_of hand.old) hand.new }
        ensures unchanged { IsFalse result → seat_of hand.new ≡ seat_of hand.old }
    {
        for _ in rt.forever() {
            let word = self.stock.word();
            if word < PERMIT {
                return false;
            }
            if word % PERMIT <= TOLD && self.stock.acquire(hand, word) {
                return true;
            }
            stand_back();
        }
        unreachable!()
    }

    // Waits until it has a permit.
    pub(super) fn wait<R: Wait>(
        &self,
        rt: &R,
        arrived: Hand<T, QueueTitle>,
        registered: ThreadData,
    ) -> Hand<T, QueueTitle>
        requires own { IsDataOf self.now.lot.now registered }
        requires rests { Rests self.now.stock arrived }
        ensures { Holds self.now.stock result }
    {
        let mut hand = arrived;
        let mut thread = registered;
        for _ in rt.forever() {
            if self.try_take(rt, &mut hand) {
                self.settle(rt, &mut hand, thread);
                return hand;
            }
            thread = self.park(rt, &mut hand, thread);
        }
        unreachable!()
    }

    // Waits until it has a permit, or until the deadline.
    pub(super) fn wait_until<R: Wait + Clock>(
        &self,
        rt: &R,
        arrived: Hand<T, QueueTitle>,
        registered: ThreadData,
        deadline: Instant,
    ) -> Option<Hand<T, QueueTitle>>
        requires own { IsDataOf self.now.lot.now registered }
        requires rests { Rests self.now.stock arrived }
        ensures { IfSome result (Holds self.now.stock) }
    {
        let mut hand = arrived;
        let mut thread = registered;
        for _ in rt.forever() {
            if self.try_take(rt, &mut hand) {
                self.settle(rt, &mut hand, thread);
                return Some(hand);
            }
            match self.park_until(rt, &mut hand, thread, deadline) {
                Ok(back) => thread = back,
                Err(late) => {
                    let thread = self.leave(rt, &mut hand, late);
                    return self.give_up(rt, hand, thread);
                }
            }
        }
        unreachable!()
    }

    // Enters the list, if no permit is free, and sleeps until it is woken.
    fn park<R: Wait>(
        &self,
        rt: &R,
        hand: &mut Hand<T, QueueTitle>,
        thread: ThreadData,
    ) -> ThreadData
        requires own { IsDataOf self.now.lot.now thread }
        requires may_wait { MayWait self.now.stock thread.number hand.old }
        ensures own { IsThreadOf self.now.lot.now thread.number result }
        ensures may_wait { MayWait self.now.stock thread.number hand.new }
    {
        match self.enter(rt, hand, thread, false) {
            Ok(entered) => self.lot.wait(rt, entered).0,
            Err(back) => back,
        }
    }

    // Does the same, but sleeps no longer than until the deadline. If it passed, the thread is in
    // the list still, unless it was unparked.
    fn park_until<R: Wait + Clock>(
        &self,
        rt: &R,
        hand: &mut Hand<T, QueueTitle>,
        thread: ThreadData,
        deadline: Instant,
    ) -> Result<ThreadData, Entered>
        requires own { IsDataOf self.now.lot.now thread }
        requires may_wait { MayWait self.now.stock thread.number hand.old }
        ensures own { IfOk result (IsThreadOf self.now.lot.now thread.number) }
        ensures may_wait { OnOk result (MayWait self.now.stock thread.number hand.new) }
        ensures late { IfErr result (λ late.
            IsInList self.now.lot.now self.now.key self.now.stock late hand.new) }
    {
        match self.enter(rt, hand, thread, true) {
            Ok(entered) => Ok(self.lot.wait_until(rt, entered, deadline)?.0),
            Err(back) => Ok(back),
        }
    }

    // Puts the thread last in the list of the key, if no permit is free, or gives its data back.
    fn enter<R: Wait>(
        &self,
        rt: &R,
        hand: &mut Hand<T, QueueTitle>,
        running: ThreadData,
        timed: bool,
    ) -> Result<Entered, ThreadData>
        requires own { IsDataOf self.now.lot.now running }
        requires may_wait { MayWait self.now.stock running.number hand.old }
        ensures entered { IfOk result (λ entered. (entered.number ≡ running.number)
            × IsInList self.now.lot.now self.now.key self.now.stock entered hand.new) }
        ensures own { IfErr result (IsThreadOf self.now.lot.now running.number) }
        ensures may_wait { OnErr result (MayWait self.now.stock running.number hand.new) }
    {
        let number = running.number();
        let section = self.lot.open(rt, self.key);
        let Some(title) = self.take_title_if_none_is_free(hand) else {
            section.close();
            return Err(running);
        };
        let mut thread = running;
        let title = self.lot.confirm_out(&mut thread, self.key, title);
        let (entered, title, section) = section.enter(thread, title, DEFAULT_PARK_TOKEN, timed);
        self.stock
            .entered(hand, QueueTitle { title }, number as u64);
        section.close();
        Ok(entered)
    }

    // Takes the title out of the gate, in a section of the key, if no permit is free.
    fn take_title_if_none_is_free(&self, hand: &mut Hand<T, QueueTitle>) -> Option<Title>
        requires stock { IsHandOf self.now.stock hand.old }
        requires without { IsWithout hand.old }
        ensures stock { IsHandOf self.now.stock hand.new }
        ensures title { IfSome result (IsTitle self.now.lot.now self.now.key) }
        ensures once { IfSome result (λ title. NoRepeats (told_by title)) }
        ensures carries { IfSome result (λ title.
            seat_of hand.new ≡ carrying (seat_of hand.old) (told_by title) 0) }
        ensures unchanged { IfNone result (seat_of hand.new ≡ seat_of hand.old) }
    {
        let word = self.stock.word();
        if word < PERMIT {
            self.take_title(hand, word)
        } else {
            None
        }
    }

    // Takes the title out of the gate, in a section of the key, if the word is still the given one.
    fn take_title(&self, hand: &mut Hand<T, QueueTitle>, word: u64) -> Option<Title>
        requires stock { IsHandOf self.now.stock hand.old }
        requires without { IsWithout hand.old }
        ensures stock { IsHandOf self.now.stock hand.new }
        ensures title { IfSome result (IsTitle self.now.lot.now self.now.key) }
        ensures once { IfSome result (λ title. NoRepeats (told_by title)) }
        ensures carries { IfSome result (λ title.
            seat_of hand.new ≡ carrying (seat_of hand.old) (told_by title) (word / 4)) }
        ensures unchanged { IfNone result (seat_of hand.new ≡ seat_of hand.old) }
    {
        // In a section nobody else has the title.
        if word % PERMIT > TOLD {
            return None;
        }
        let QueueTitle { title } = self.stock.carry(hand, word)?;
        Some(title)
    }

    // Gives up the number of a thread that has a permit, and ends its registration.
    fn settle<R: Wait>(&self, rt: &R, hand: &mut Hand<T, QueueTitle>, registered: ThreadData)
        requires own { IsDataOf self.now.lot.now registered }
        requires holds { HoldsAs self.now.stock registered.number hand.old }
        ensures { Holds self.now.stock hand.new }
    {
        let mut thread = registered;
        for _ in rt.forever() {
            if self.forget_number(rt, hand, &mut thread) {
                self.lot.retire(rt, thread);
                return;
            }
        }
        unreachable!()
    }

    // Gives up the number of a thread that is in no list, and answers whether it did. If others may
    // wait and a permit is free, it unparks the first of them.
    fn forget_number<R: Wait>(
        &self,
        rt: &R,
        hand: &mut Hand<T, QueueTitle>,
        thread: &mut ThreadData,
    ) -> bool
        requires own { IsDataOf self.now.lot.now thread.old }
        requires stock { IsHandOf self.now.stock hand.old }
        requires without { IsWithout hand.old }
        requires as_number { MayBe thread.old.number (waits_of hand.old) }
        ensures own { IsThreadOf self.now.lot.now thread.old.number thread.new }
        ensures stock { IsHandOf self.now.stock hand.new }
        ensures forgot { IsTrue result → seat_of hand.new
            ≡ (having (holds_of hand.old) None, (seat_of hand.old).1) }
        ensures unchanged { IsFalse result → seat_of hand.new ≡ seat_of hand.old }
    {
        let word = self.stock.word();
        if word % PERMIT == 0 {
            return self.stock.drop_wait(hand, word);
        }
        let section = self.lot.open(rt, self.key);
        let word = self.stock.word();
        let Some(title) = self.take_title(hand, word) else {
            section.close();
            return false;
        };
        let title = self.lot.confirm_out(thread, self.key, title);
        if word < PERMIT {
            self.stock.left(hand, QueueTitle { title }, word, true);
            section.close();
        } else {
            self.pass_on(rt, hand, section, title, word);
        }
        true
    }

    // Unparks the first thread of the list in a section, with the title that was taken out when the
    // word was this one, and puts the title back. The thread waits no longer.
    fn pass_on<R: Wait>(
        &self,
        rt: &R,
        hand: &mut Hand<T, QueueTitle>,
        section: TitledSection<'_, WordParker>,
        title: Title,
        word: u64,
    )
        requires lot { section.history ≡ self.now.lot.now }
        requires key { section.key ≡ self.now.key }
        requires title { IsTitle self.now.lot.now self.now.key title }
        requires stock { IsHandOf self.now.stock hand.old }
        requires carries { seat_of hand.old
            ≡ carrying ((seat_of hand.old).0, rest (seat_of hand.old).1) (told_by title)
            (word / 4) }
        requires gone { (n : ℕ) → waits_of hand.old ≡ Some n → ¬ Contains (told_by title) n }
        ensures stock { IsHandOf self.now.stock hand.new }
        ensures left { seat_of hand.new
            ≡ (having (holds_of hand.old) None, rest (seat_of hand.old).1) }
    {
        let mut witness = self.lot.witness();
        let (found, title, section) = section.unpark_one(
            rt,
            &mut witness,
            title,
            DEFAULT_UNPARK_TOKEN,
        );
        self.stock
            .left(hand, QueueTitle { title }, word, found.have_more_threads);
        section.close();
    }

    // Leaves the list once the deadline has passed, and returns the thread's data. The thread waits
    // still: it has to try, as one that was woken.
    fn leave<R: Wait>(&self, rt: &R, hand: &mut Hand<T, QueueTitle>, late: Entered) -> ThreadData
        requires { IsInList self.now.lot.now self.now.key self.now.stock late hand.old }
        ensures own { IsThreadOf self.now.lot.now late.number result }
        ensures may_wait { MayWait self.now.stock late.number hand.new }
    {
        for _ in rt.forever() {
            let section = self.lot.open(rt, self.key);
            let word = self.stock.word();
            if let Some(title) = self.take_title(hand, word) {
                return self.leave_in(rt, hand, section, late, title, word);
            }
            section.close();
        }
        unreachable!()
    }

    // Does the same in a section, with the title that was taken out when the word was this one.
    fn leave_in<R: Wait>(
        &self,
        rt: &R,
        hand: &mut Hand<T, QueueTitle>,
        section: TitledSection<'_, WordParker>,
        late: Entered,
        title: Title,
        word: u64,
    ) -> ThreadData
        requires lot { section.history ≡ self.now.lot.now }
        requires key { (section.key ≡ self.now.key) × (late.key ≡ self.now.key) }
        requires own { IsEnteredIn self.now.lot.now late }
        requires title { IsTitle self.now.lot.now self.now.key title }
        requires stock { IsHandOf self.now.stock hand.old }
        requires carries { seat_of hand.old
            ≡ carrying (having 0 (Some late.number), []) (told_by title) (word / 4) }
        ensures own { IsThreadOf self.now.lot.now late.number result }
        ensures may_wait { MayWait self.now.stock late.number hand.new }
    {
        let (left, title, section) = section.leave(late, title);
        match left {
            Ok((thread, last)) => {
                self.stock.returned(hand, QueueTitle { title }, word, !last);
                section.close();
                thread
            }
            Err(taken) => {
                self.stock.returned(hand, QueueTitle { title }, word, true);
                section.close();
                self.lot.wait(rt, taken).0
            }
        }
    }

    // Takes a permit for a thread whose deadline has passed, or gives up where none is free.
    fn give_up<R: Wait>(
        &self,
        rt: &R,
        late: Hand<T, QueueTitle>,
        registered: ThreadData,
    ) -> Option<Hand<T, QueueTitle>>
        requires own { IsDataOf self.now.lot.now registered }
        requires may_wait { MayWait self.now.stock registered.number late }
        ensures { IfSome result (Holds self.now.stock) }
    {
        let mut hand = late;
        let mut thread = registered;
        for _ in rt.forever() {
            if self.try_take(rt, &mut hand) {
                self.settle(rt, &mut hand, thread);
                return Some(hand);
            }
            if self.forget_number(rt, &mut hand, &mut thread) {
                self.lot.retire(rt, thread);
                hand.leave();
                return None;
            }
        }
        unreachable!()
    }

    /// Gives the permit of a thread back.
    #[inline]
    pub(crate) fn release<R: Wait>(&self, rt: &R, holder: Hand<T, QueueTitle>)
        requires { Holds self.now.stock holder }
    {
        let mut hand = holder;
        for _ in rt.forever() {
            if self.try_release(rt, &mut hand) {
                hand.leave();
                return;
            }
        }
        unreachable!()
    }

    // Does so, and answers whether it did, or found the word changed.
    #[inline]
    fn try_release<R: Wait>(&self, rt: &R, hand: &mut Hand<T, QueueTitle>) -> bool
        requires { Holds self.now.stock hand.old }
        ensures stock { IsHandOf self.now.stock hand.new }
        ensures rests { IsTrue result → seat_of hand.new ≡ (resting, []) }
        ensures holds { IsFalse result → Holds self.now.stock hand.new }
    {
        let word = self.stock.word();
        if has_nobody_to_wake(word) {
            self.stock.release(hand, word)
        } else {
            self.release_slow(rt, hand)
        }
    }

    // Does the same where no permit is free and somebody may wait, and wakes the first thread of
    // the list.
    #[cold]
    #[inline(never)]
    fn release_slow<R: Wait>(&self, rt: &R, hand: &mut Hand<T, QueueTitle>) -> bool
        requires { Holds self.now.stock hand.old }
        ensures stock { IsHandOf self.now.stock hand.new }
        ensures rests { IsTrue result → seat_of hand.new ≡ (resting, []) }
        ensures holds { IsFalse result → Holds self.now.stock hand.new }
    {
        let section = self.lot.open(rt, self.key);
        let Some(title) = self.take_title(hand, TOLD) else {
            section.close();
            return false;
        };
        let mut witness = self.lot.witness();
        let (found, title, section) = section.unpark_one(
            rt,
            &mut witness,
            title,
            DEFAULT_UNPARK_TOKEN,
        );
        self.stock
            .released(hand, QueueTitle { title }, found.have_more_threads);
        section.close();
        true
    }
}

// Whether a permit can be given back without waking anybody: nobody waits, or a permit is free, so
// that somebody is on the way to it, and passes the rest on.
#[inline]
fn has_nobody_to_wake(word: u64) -> bool
    ensures { IsTrue result → (word % 4 ≡ 0) ⊎ ((word % 4 ≡ 1) × (4 ≤ word)) }
{
    let told = word % PERMIT;
    told == 0 || (told == TOLD && word >= PERMIT)
}
