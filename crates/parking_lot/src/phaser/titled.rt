//! This module has a phaser of which it is proved that nobody waits in its queue for the end of a
//! phase that is over.
//!
//! # The protocol
//!
//! One word says how the phaser is. It is four times the number of the phase, and 1 more, the mark,
//! if somebody may wait for its end. It is 2 more while the title of the key, which tells who
//! waits, is out with a thread. Otherwise the title lies beside the word. A thread takes the title
//! out only in the critical section of the key, and puts it back before the section ends. Only that
//! thread can end the phase meanwhile.
//!
//! A phase with an even number is open, and any thread can end it. A thread can begin to lead an
//! open phase: by one exchange its number becomes 1 more. Then only that thread can end it.
//!
//! - A thread that waits reads the word. If its phase is present still, it opens the section of the
//!   key, takes the title, enters the list, puts the title back with the mark, and sleeps. A thread
//!   that was woken reads the word again.
//! - A thread that ends the phase does so by one exchange if there is no mark. Otherwise it takes
//!   the title in a section of the key, unparks all threads of the list, and puts the title back
//!   with the number of the next open phase.
//! - A thread whose deadline has passed looks whether its phase is over. If it is, an unpark has
//!   taken the thread out of the list. Otherwise the thread leaves the list in a section of the
//!   key, with the title. It takes the mark away if nobody is left.
//!
//! It is proved that two laws hold between any two steps of all threads. By `phases_leave_nobody`,
//! a thread in the list waits for the end of the present phase, and the word has the mark then,
//! unless the title is out. By `phases_have_one_leader`, exactly one thread leads a phase with an
//! odd number.

ghost use Rattle.std.specs.Prelude.{◌≡◌, ◌/◌, ◌%◌, [], IfErr, IfNone, IfOk, IfSome, IsFalse, IsOk, IsSome, IsTrue, None, OnErr, OnOk, Some};
ghost use Rattle.lot_threads.specs.Members.{IsDataOf};
ghost use Rattle.lot_threads.specs.Titled.{IsEnteredIn, IsTitle, told_by};
ghost use Rattle.lock_words.specs.PhaseRule.{being, next_phase};
ghost use Rattle.lock_words.specs.Phases.{HasSeenOther, IsHandOf, IsResting, IsWithout, carrying, leads_of, queue_of, seat_of, waits_of};
ghost use Rattle.parking_lot.specs.Phasers.{IsInQueue, Leads, MayWait, Rests};
ghost use Rattle.parking_lot.specs.Queues.{IsQueueOf, IsThreadOf};

pub(crate) mod notify;

use super::Phaser;
use crate::lot::{is_past, stand_back};
use crate::queue_title::QueueTitle;
use crate::titled_lot::{Queues, TitledLot};
use lock_words::phases::{AWAITED, Hand, PHASE, Phases};
use lot_threads::{
    DEFAULT_PARK_TOKEN, DEFAULT_UNPARK_TOKEN, Entered, NoMemory, ThreadData, Title, TitledSection,
    WordParker,
};
use std::alloc::Global;
use std::sync::Wait;
use std::time::{Clock, Instant};

/// A `TitledPhaser` is one whose threads wait in a `TitledLot`, which deals each such phaser a key.
#[derive(Drop)]
pub struct TitledPhaser<'l> {
    lot: &'l Queues,
    phases: Phases<QueueTitle>,
    key: usize,
    alloc: Global,
    ghost of_lot: { IsQueueOf lot.now key (queue_of phases) },
}

impl Phaser for TitledPhaser<'_> {
    #[inline]
    fn phase(&self) -> u64 {
        self.phases.word() / PHASE
    }

    fn advance<R: Wait>(&self, rt: &R, phase: u64) {
        if is_open(phase) {
            self.end(rt, phase).leave();
        }
    }

    fn wait<R: Wait + Clock>(&self, rt: &R, phase: u64) {
        match self.wait_until(rt, phase, None) {
            Some(hand) => hand.leave(),
            None => unreachable!(),
        }
    }
}

impl<'l> TitledPhaser<'l> {
    /// Creates a phaser in phase 0.
    ///
    /// It takes the next key of the lot, and allocates one block for the word and one for the
    /// title.
    ///
    /// # Errors
    ///
    /// Returns `NoMemory` if there is not enough memory.
    pub(crate) fn new<R: Wait>(rt: &R, lot: &'l TitledLot) -> Result<TitledPhaser<'l>, NoMemory> {
        let alloc = lot.alloc();
        let lot = lot.queues();
        let (title, queue) = QueueTitle::deal(rt, lot)?;
        let key = queue.key;
        let phases = Phases::new(alloc, title, &queue)?;
        Ok(TitledPhaser {
            lot,
            phases,
            key,
            alloc,
        })
    }

    /// Begins to lead the present phase, and returns the hand that has to end it, or none if
    /// another thread leads or ends the phase.
    #[inline]
    pub(crate) fn lead(&self) -> Option<Hand<QueueTitle>>
        ensures { IfSome result (Leads self.now.phases) }
    {
        let word = self.phases.word();
        if word % (2 * PHASE) != 0 {
            return None;
        }
        let mut hand = self.phases.arrive();
        if self.phases.lead(&mut hand, word) {
            return Some(hand);
        }
        hand.leave();
        None
    }

    /// Ends the phase that a thread leads.
    #[inline]
    pub(crate) fn finish<R: Wait>(&self, rt: &R, leader: Hand<QueueTitle>)
        requires { Leads self.now.phases leader }
    {
        let mut hand = leader;
        for _ in rt.forever() {
            let word = self.phases.word();
            if self.try_end(rt, &mut hand, word) {
                hand.leave();
                return;
            }
        }
        unreachable!()
    }

    // Ends an open phase, if it is present. The hand has begun or seen another one.
    fn end<R: Wait>(&self, rt: &R, phase: u64) -> Hand<QueueTitle>
        requires open_phase { phase % 2 ≡ 0 }
        ensures { HasSeenOther self.now.phases phase result }
    {
        let mut hand = self.phases.arrive();
        for _ in rt.forever() {
            if self.phases.is_over(&mut hand, phase) {
                return hand;
            }
            let word = self.phases.word();
            if word / PHASE == phase && self.try_end(rt, &mut hand, word) {
                return hand;
            }
        }
        unreachable!()
    }

    // Tries to end the phase of the given word, and answers whether it did. It did not if the word
    // changed.
    #[inline]
    fn try_end<R: Wait>(&self, rt: &R, hand: &mut Hand<QueueTitle>, word: u64) -> bool
        requires own { IsHandOf self.now.phases hand.old }
        requires without { IsWithout hand.old }
        requires open_phase { leads_of hand.old ≡ 0 → word / 4 % 2 ≡ 0 }
        ensures own { IsHandOf self.now.phases hand.new }
        ensures ended { IsTrue result
            → seat_of hand.new ≡ (being None (next_phase (word / 4)), []) }
        ensures unchanged { IsFalse result → seat_of hand.new ≡ seat_of hand.old }
    {
        if word % PHASE == 0 {
            self.phases.end(hand, word)
        } else {
            self.end_awaited(rt, hand, word / PHASE).is_some()
        }
    }

    // Does the same where somebody may wait, wakes all threads of the list, and answers how many it
    // woke.
    #[cold]
    #[inline(never)]
    fn end_awaited<R: Wait>(&self, rt: &R, hand: &mut Hand<QueueTitle>, phase: u64) -> Option<usize>
        requires own { IsHandOf self.now.phases hand.old }
        requires without { IsWithout hand.old }
        requires open_phase { leads_of hand.old ≡ 0 → phase % 2 ≡ 0 }
        ensures own { IsHandOf self.now.phases hand.new }
        ensures ended { IfSome result (λ _.
            seat_of hand.new ≡ (being None (next_phase phase), [])) }
        ensures unchanged { IfNone result (seat_of hand.new ≡ seat_of hand.old) }
    {
        let section = self.lot.open(rt, self.key);
        let word = self.phases.word();
        let Some(title) = self.take_title(hand, word, phase) else {
            section.close();
            return None;
        };
        let mut witness = self.lot.witness();
        let (count, title, section) = section.unpark_all(
            rt,
            &mut witness,
            title,
            DEFAULT_UNPARK_TOKEN,
        );
        self.phases.ended(hand, QueueTitle { title }, word);
        section.close();
        Some(count)
    }

    /// Waits until another phase than the given one is present, which the hand has seen then, or
    /// until the deadline.
    pub(crate) fn wait_until<R: Wait + Clock>(
        &self,
        rt: &R,
        phase: u64,
        deadline: Option<Instant>,
    ) -> Option<Hand<QueueTitle>>
        ensures over { IfSome result (HasSeenOther self.now.phases phase) }
        ensures patient { deadline ≡ None → IsSome result }
    {
        let mut hand = self.phases.arrive();
        for _ in rt.forever() {
            if self.phases.is_over(&mut hand, phase) {
                return Some(hand);
            }
            stand_back();
            if let Ok(thread) = self.lot.thread_data(rt, self.alloc) {
                return self.wait_as(rt, phase, hand, thread, deadline);
            }
            if is_past(rt, deadline) {
                hand.leave();
                return None;
            }
        }
        unreachable!()
    }

    // Does the same as a thread of the lot.
    fn wait_as<R: Wait + Clock>(
        &self,
        rt: &R,
        phase: u64,
        arrived: Hand<QueueTitle>,
        registered: ThreadData,
        deadline: Option<Instant>,
    ) -> Option<Hand<QueueTitle>>
        requires own { IsDataOf self.now.lot.now registered }
        requires may_wait { MayWait self.now.phases registered.number phase arrived }
        ensures over { IfSome result (HasSeenOther self.now.phases phase) }
        ensures patient { deadline ≡ None → IsSome result }
    {
        let mut hand = arrived;
        let mut thread = registered;
        for _ in rt.forever() {
            if self.phases.is_over(&mut hand, phase) {
                self.lot.retire(rt, thread);
                return Some(hand);
            }
            match self.park(rt, &mut hand, thread, phase, deadline) {
                Ok(back) => thread = back,
                Err(late) => {
                    self.lot.retire(rt, late);
                    hand.leave();
                    return None;
                }
            }
        }
        unreachable!()
    }

    // Enters the list, if the phase is present, and sleeps until it is woken. `Err` has a thread
    // that has left the list because its deadline has passed.
    fn park<R: Wait + Clock>(
        &self,
        rt: &R,
        hand: &mut Hand<QueueTitle>,
        thread: ThreadData,
        phase: u64,
        deadline: Option<Instant>,
    ) -> Result<ThreadData, ThreadData>
        requires own { IsDataOf self.now.lot.now thread }
        requires may_wait { MayWait self.now.phases thread.number phase hand.old }
        ensures own { IfOk result (IsThreadOf self.now.lot.now thread.number) }
        ensures may_wait { OnOk result (MayWait self.now.phases thread.number phase hand.new) }
        ensures late { IfErr result (IsDataOf self.now.lot.now) }
        ensures rests { OnErr result (Rests self.now.phases hand.new) }
        ensures patient { deadline ≡ None → IsOk result }
    {
        match self.enter(rt, hand, thread, phase, deadline.is_some()) {
            Ok(entered) => self.stay(rt, hand, entered, phase, deadline),
            Err(back) => Ok(back),
        }
    }

    // Sleeps in the list until the thread is woken. `Err` has a thread that has left the list
    // because its deadline has passed.
    fn stay<R: Wait + Clock>(
        &self,
        rt: &R,
        hand: &mut Hand<QueueTitle>,
        entered: Entered,
        phase: u64,
        deadline: Option<Instant>,
    ) -> Result<ThreadData, ThreadData>
        requires { IsInQueue self.now.lot.now self.now.key self.now.phases entered phase hand.old }
        ensures own { IfOk result (IsThreadOf self.now.lot.now entered.number) }
        ensures may_wait { OnOk result (MayWait self.now.phases entered.number phase hand.new) }
        ensures late { IfErr result (IsDataOf self.now.lot.now) }
        ensures rests { OnErr result (Rests self.now.phases hand.new) }
        ensures patient { deadline ≡ None → IsOk result }
    {
        match self.sleep(rt, entered, deadline) {
            Ok(back) => Ok(back),
            Err(late) => self.leave(rt, hand, late, phase),
        }
    }

    // Sleeps until it is unparked. `Err` has a thread whose deadline has passed, and which is in
    // the list still, unless it was unparked.
    fn sleep<R: Wait + Clock>(
        &self,
        rt: &R,
        entered: Entered,
        deadline: Option<Instant>,
    ) -> Result<ThreadData, Entered>
        requires own { IsEnteredIn self.now.lot.now entered }
        ensures back { IfOk result (IsThreadOf self.now.lot.now entered.number) }
        ensures late { IfErr result (λ late. IsEnteredIn self.now.lot.now late
            × (late.number ≡ entered.number) × (late.key ≡ entered.key)) }
        ensures patient { deadline ≡ None → IsOk result }
    {
        match deadline {
            Some(deadline) => Ok(self.lot.wait_until(rt, entered, deadline)?.0),
            None => Ok(self.lot.wait(rt, entered).0),
        }
    }

    // Puts the thread last in the list of the key, if the phase is present, or gives its data back.
    fn enter<R: Wait>(
        &self,
        rt: &R,
        hand: &mut Hand<QueueTitle>,
        running: ThreadData,
        phase: u64,
        timed: bool,
    ) -> Result<Entered, ThreadData>
        requires own { IsDataOf self.now.lot.now running }
        requires may_wait { MayWait self.now.phases running.number phase hand.old }
        ensures entered { IfOk result (λ entered. (entered.number ≡ running.number)
            × IsInQueue self.now.lot.now self.now.key self.now.phases entered phase hand.new) }
        ensures own { IfErr result (IsThreadOf self.now.lot.now running.number) }
        ensures may_wait { OnErr result (MayWait self.now.phases running.number phase hand.new) }
    {
        let number = running.number();
        let section = self.lot.open(rt, self.key);
        let word = self.phases.word();
        let Some(title) = self.take_title(hand, word, phase) else {
            section.close();
            return Err(running);
        };
        let mut thread = running;
        let title = self.lot.confirm_out(&mut thread, self.key, title);
        let (entered, title, section) = section.enter(thread, title, DEFAULT_PARK_TOKEN, timed);
        self.phases
            .entered(hand, QueueTitle { title }, number as u64, word);
        section.close();
        Ok(entered)
    }

    // Leaves the list once the deadline has passed, unless the thread was unparked before.
    fn leave<R: Wait>(
        &self,
        rt: &R,
        hand: &mut Hand<QueueTitle>,
        late: Entered,
        phase: u64,
    ) -> Result<ThreadData, ThreadData>
        requires { IsInQueue self.now.lot.now self.now.key self.now.phases late phase hand.old }
        ensures own { IfOk result (IsThreadOf self.now.lot.now late.number) }
        ensures may_wait { OnOk result (MayWait self.now.phases late.number phase hand.new) }
        ensures late { IfErr result (IsDataOf self.now.lot.now) }
        ensures rests { OnErr result (Rests self.now.phases hand.new) }
    {
        for _ in rt.forever() {
            if self.phases.is_over(hand, phase) {
                return Ok(self.lot.wait(rt, late).0);
            }
            let section = self.lot.open(rt, self.key);
            let word = self.phases.word();
            if let Some(title) = self.take_title(hand, word, phase) {
                return self.leave_in(rt, hand, section, late, title, word);
            }
            section.close();
        }
        unreachable!()
    }

    // Does the same in a section, with the title that was taken out when the word was this one.
    fn leave_in<R: Wait>(
        &self,
        rt: &R,
        hand: &mut Hand<QueueTitle>,
        section: TitledSection<'_, WordParker>,
        late: Entered,
        title: Title,
        word: u64,
    ) -> Result<ThreadData, ThreadData>
        requires lot { section.history ≡ self.now.lot.now }
        requires key { (section.key ≡ self.now.key) × (late.key ≡ self.now.key) }
        requires own { IsEnteredIn self.now.lot.now late }
        requires title { IsTitle self.now.lot.now self.now.key title }
        requires phases { IsHandOf self.now.phases hand.old }
        requires carries { seat_of hand.old
            ≡ carrying (Some late.number) 0 (told_by title) (word / 4) }
        ensures own { IfOk result (IsThreadOf self.now.lot.now late.number) }
        ensures may_wait { OnOk result (MayWait self.now.phases late.number (word / 4) hand.new) }
        ensures late { IfErr result (IsDataOf self.now.lot.now) }
        ensures rests { OnErr result (Rests self.now.phases hand.new) }
    {
        let (left, title, section) = section.leave(late, title);
        match left {
            Ok((thread, last)) => {
                self.phases.left(hand, QueueTitle { title }, word, !last);
                section.close();
                Err(thread)
            }
            Err(taken) => {
                self.phases.returned(hand, QueueTitle { title }, word, true);
                section.close();
                Ok(self.lot.wait(rt, taken).0)
            }
        }
    }

    // Takes the title out, in a section of the key, if the word is still the given one, and that of
    // the phase.
    fn take_title(&self, hand: &mut Hand<QueueTitle>, word: u64, phase: u64) -> Option<Title>
        requires own { IsHandOf self.now.phases hand.old }
        requires without { IsWithout hand.old }
        ensures own { IsHandOf self.now.phases hand.new }
        ensures present { IfSome result (λ _. word / 4 ≡ phase) }
        ensures title { IfSome result (IsTitle self.now.lot.now self.now.key) }
        ensures carries { IfSome result (λ title. seat_of hand.new
            ≡ carrying (waits_of hand.old) (leads_of hand.old) (told_by title) phase) }
        ensures unchanged { IfNone result (seat_of hand.new ≡ seat_of hand.old) }
    {
        // In a section nobody else has the title.
        if word / PHASE != phase || word % PHASE > AWAITED {
            return None;
        }
        let QueueTitle { title } = self.phases.carry(hand, word)?;
        Some(title)
    }
}

/// Returns whether a phase with this number is open: no thread leads it.
#[inline]
pub(crate) fn is_open(phase: u64) -> bool
    ensures { IsTrue result → phase % 2 ≡ 0 }
{
    phase % 2 == 0
}
