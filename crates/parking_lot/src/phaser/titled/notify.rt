//! How threads are notified one by one, before the phase of a phaser ends. The waits of a condition
//! variable are made of it.

ghost use Rattle.std.specs.Prelude.{◌≡◌, ◌≢◌, [], IsFalse, IsTrue, None};
ghost use Rattle.lot_threads.specs.Members.{IsDataOf};
ghost use Rattle.lock_words.specs.PhaseRule.{being};
ghost use Rattle.lock_words.specs.Phases.{IsHandOf, seat_of, waits_of};
ghost use Rattle.parking_lot.specs.Phasers.{IsInQueue, MayWait};
ghost use Rattle.parking_lot.specs.Queues.{IsThreadOf, MayBe};

use super::{TitledPhaser, is_open};
use crate::phaser::Phaser;
use crate::queue_title::QueueTitle;
use lock_words::phases::{Hand, PHASE};
use lot_threads::{DEFAULT_UNPARK_TOKEN, Entered, ThreadData, thread_yield};
use std::sync::Wait;
use std::time::{Clock, Instant};

/// An `Ending` says why a thread waits no longer.
#[derive(Clone, Copy, PartialEq, Eq)]
pub(crate) enum Ending {
    /// It was notified, or it did not stand in the list at all.
    Notified,
    TimedOut,
}

impl TitledPhaser<'_> {
    /// Enters the list, calls the closure, and sleeps until the thread is notified or the deadline
    /// has passed.
    ///
    /// If the lot is full, or all threads are notified before this one has entered the list, it
    /// calls the closure and does not sleep.
    pub(crate) fn wait_once<R: Wait + Clock, U: FnOnce()>(
        &self,
        rt: &R,
        before_sleep: U,
        deadline: Option<Instant>,
    ) -> Ending
        requires { U.pre before_sleep }
        ensures { deadline ≡ None → result ≢ Ending.TimedOut }
    {
        let Ok(thread) = self.lot.thread_data(rt, self.alloc) else {
            before_sleep();
            thread_yield();
            return Ending::Notified;
        };
        let mut hand = self.phases.arrive();
        let phase = self.phase();
        let entered = self.enter(rt, &mut hand, thread, phase, deadline.is_some());
        before_sleep();
        match entered {
            Ok(entered) => self.sleep_once(rt, hand, entered, phase, deadline),
            Err(back) => {
                self.settle(rt, hand, back, phase);
                Ending::Notified
            }
        }
    }

    // Sleeps in the list until the thread is notified, or the deadline has passed.
    fn sleep_once<R: Wait + Clock>(
        &self,
        rt: &R,
        sleeper: Hand<QueueTitle>,
        entered: Entered,
        phase: u64,
        deadline: Option<Instant>,
    ) -> Ending
        requires { IsInQueue self.now.lot.now self.now.key self.now.phases entered phase sleeper }
        ensures { deadline ≡ None → result ≢ Ending.TimedOut }
    {
        let mut hand = sleeper;
        match self.stay(rt, &mut hand, entered, phase, deadline) {
            Ok(back) => {
                self.settle(rt, hand, back, phase);
                Ending::Notified
            }
            Err(late) => {
                self.lot.retire(rt, late);
                hand.leave();
                Ending::TimedOut
            }
        }
    }

    // Gives up the number of a thread that is in no list, and ends its registration.
    fn settle<R: Wait>(&self, rt: &R, woken: Hand<QueueTitle>, registered: ThreadData, phase: u64)
        requires own { IsDataOf self.now.lot.now registered }
        requires may_wait { MayWait self.now.phases registered.number phase woken }
    {
        let mut hand = woken;
        let mut thread = registered;
        for _ in rt.forever() {
            if self.phases.is_over(&mut hand, phase) {
                self.lot.retire(rt, thread);
                hand.leave();
                return;
            }
            if self.forget_number(rt, &mut hand, &mut thread, phase) {
                self.lot.retire(rt, thread);
                hand.leave();
                return;
            }
        }
        unreachable!()
    }

    // Gives up the number of a thread that is in no list, and answers whether it did. It did not if
    // the word changed.
    fn forget_number<R: Wait>(
        &self,
        rt: &R,
        hand: &mut Hand<QueueTitle>,
        thread: &mut ThreadData,
        phase: u64,
    ) -> bool
        requires own { IsDataOf self.now.lot.now thread.old }
        requires of_phases { IsHandOf self.now.phases hand.old }
        requires waits { seat_of hand.old ≡ (being (waits_of hand.old) phase, []) }
        requires as_number { MayBe thread.old.number (waits_of hand.old) }
        ensures own { IsThreadOf self.now.lot.now thread.old.number thread.new }
        ensures of_phases { IsHandOf self.now.phases hand.new }
        ensures forgot { IsTrue result → seat_of hand.new ≡ (being None phase, []) }
        ensures unchanged { IsFalse result → seat_of hand.new ≡ seat_of hand.old }
    {
        let word = self.phases.word();
        if word % PHASE == 0 {
            return self.phases.drop_wait(hand, word);
        }
        let section = self.lot.open(rt, self.key);
        let word = self.phases.word();
        let Some(title) = self.take_title(hand, word, phase) else {
            section.close();
            return false;
        };
        let title = self.lot.confirm_out(thread, self.key, title);
        self.phases.left(hand, QueueTitle { title }, word, true);
        section.close();
        true
    }

    /// Wakes the first thread of the list, and returns whether there was one.
    pub(crate) fn notify_one<R: Wait>(&self, rt: &R) -> bool {
        for _ in rt.forever() {
            if self.phases.word() % PHASE == 0 {
                return false;
            }
            if let Some(found) = self.unpark_first(rt) {
                return found != 0;
            }
        }
        unreachable!()
    }

    // Unparks the first thread of the list, and answers how many it unparked, or nothing if the
    // title was not to be had.
    #[cold]
    #[inline(never)]
    fn unpark_first<R: Wait>(&self, rt: &R) -> Option<usize> {
        let mut hand = self.phases.arrive();
        let section = self.lot.open(rt, self.key);
        let word = self.phases.word();
        let Some(title) = self.take_title(&mut hand, word, word / PHASE) else {
            section.close();
            hand.leave();
            return None;
        };
        let mut witness = self.lot.witness();
        let (found, title, section) = section.unpark_one(
            rt,
            &mut witness,
            title,
            DEFAULT_UNPARK_TOKEN,
        );
        self.phases.returned(
            &mut hand,
            QueueTitle { title },
            word,
            found.have_more_threads,
        );
        section.close();
        hand.leave();
        Some(found.unparked_threads)
    }

    /// Wakes all threads of the list, ends the phase, and returns how many there were. While a
    /// thread leads the phase it does nothing.
    pub(crate) fn notify_all<R: Wait>(&self, rt: &R) -> usize {
        for _ in rt.forever() {
            let word = self.phases.word();
            if word % PHASE == 0 || !is_open(word / PHASE) {
                return 0;
            }
            let mut hand = self.phases.arrive();
            let unparked = self.end_awaited(rt, &mut hand, word / PHASE);
            hand.leave();
            if let Some(count) = unparked {
                return count;
            }
        }
        unreachable!()
    }
}
