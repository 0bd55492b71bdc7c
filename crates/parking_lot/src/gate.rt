//! This module has a gate, which lets as many threads in as it has permits. Two titled locks are
//! instances of it: a `TitledSemaphore` has any number of permits, and a `TitledMutex` one, which
//! guards a value. It is proved of a gate that it loses no permit and forgets no waiting thread.
//!
//! # The protocol
//!
//! One word says how the gate is. It is four times the permits that are free, and 1 more if
//! somebody may wait. It is 2 more while the title of the key, which tells who waits, is out with a
//! thread. Otherwise the title lies in the gate. A thread takes the title out only in the critical
//! section of the key, and puts it back before the section ends. No permit is taken or freed
//! meanwhile, but by that thread.
//!
//! - A thread that arrives takes a permit, by one exchange, if one is free.
//! - If none is, it opens the section of the key, takes the title, enters the list, puts the title
//!   back, and sleeps. A thread that was woken tries again like any other.
//! - A thread that has a permit after it waited gives its number up before it goes on. If somebody
//!   may wait, it does so in a section of the key, and **if permits are free there, it unparks the
//!   first thread of the list**, because its own wake-up may have been the only one for them.
//! - A thread that gives a permit back does so by one exchange, if nobody waits, or if a permit is
//!   free already, since somebody is on the way then. Otherwise it takes the title in a section of
//!   the key, unparks the first thread of the list, and puts the title back with the permit.
//! - A thread whose deadline has passed leaves the list in a section of the key, and then does what
//!   a woken thread does: it tries to take a permit. If none is free, it gives its number up as
//!   above, and goes without.
//!
//! It is proved that the laws of `stock` hold between any two steps of all threads. By
//! `stocks_conserve_permits`, the permits that are free and those that threads hold are always as
//! many as there were at first. By `stocks_exclude`, the value of a mutex is with the one thread
//! that holds it. By `stocks_forget_nobody`, the word tells of who is in the list, and if a permit
//! is free then, some thread waits that is not in the list. That thread was unparked, or left at
//! its deadline.

ghost use Rattle.std.specs.Prelude.{◌≡◌, true, false, IfOk, IfSome};
ghost use Rattle.lock_words.specs.Stock.{supply_of};
ghost use Rattle.parking_lot.specs.Gates.{Holds, Rests};
ghost use Rattle.parking_lot.specs.Queues.{IsQueueOf};

mod waiting;

use crate::lot::{is_past, stand_back};
use crate::queue_title::QueueTitle;
use crate::titled_lot::{Queues, TitledLot};
use lock_words::stock::{Hand, Stock, Supply};
use lot_threads::NoMemory;
use std::alloc::Global;
use std::sync::Wait;
use std::time::{Clock, Instant};

/// A `Gate` lets as many threads in as it has permits. The others wait in a `TitledLot`, which
/// deals each gate a key.
#[derive(Drop)]
pub struct Gate<'l, T: Drop> {
    lot: &'l Queues,
    pub(crate) stock: Stock<T, QueueTitle>,
    key: usize,
    alloc: Global,
    ghost of_lot: { IsQueueOf lot.now key (supply_of stock).queue },
}

impl<'l, T: Drop> Gate<'l, T> {
    /// Creates a gate with the given number of permits, all of which are free.
    ///
    /// It takes the next key of the lot, and allocates one block for the word and one for two
    /// slots.
    ///
    /// # Errors
    ///
    /// Returns `NoMemory` if there is not enough memory.
    pub(crate) fn new<R: Wait>(
        rt: &R,
        lot: &'l TitledLot,
        permits: u32,
    ) -> Result<Gate<'l, T>, NoMemory>
        ensures bare { IfOk result (λ gate. (supply_of gate.stock).guards ≡ false) }
        ensures permits { IfOk result (λ gate. (supply_of gate.stock).permits ≡ permits) }
    {
        let alloc = lot.alloc();
        let lot = lot.queues();
        let (title, queue) = QueueTitle::deal(rt, lot)?;
        let key = queue.key;
        let supply = Supply {
            queue,
            permits,
            guards: false,
        };
        let stock = Stock::new(alloc, title, &supply)?;
        Ok(Gate {
            lot,
            stock,
            key,
            alloc,
        })
    }

    /// Creates a gate with one permit, which is free and guards the given value.
    ///
    /// It takes a key and allocates as `new` does.
    ///
    /// # Errors
    ///
    /// Returns the errors of `new`. The value is dropped then.
    pub(crate) fn guarding<R: Wait>(
        rt: &R,
        lot: &'l TitledLot,
        value: Box<T>,
    ) -> Result<Gate<'l, T>, NoMemory>
        ensures { IfOk result (λ gate. (supply_of gate.stock).guards ≡ true) }
    {
        let alloc = lot.alloc();
        let lot = lot.queues();
        let (title, queue) = QueueTitle::deal(rt, lot)?;
        let key = queue.key;
        let supply = Supply {
            queue,
            permits: 1,
            guards: true,
        };
        let stock = Stock::guarding(alloc, value, title, &supply)?;
        Ok(Gate {
            lot,
            stock,
            key,
            alloc,
        })
    }

    /// Returns a thread that holds a permit, and waits until one is free.
    #[inline]
    pub(crate) fn take<R: Wait>(&self, rt: &R) -> Hand<T, QueueTitle>
        ensures { Holds self.now.stock result }
    {
        let mut hand = self.stock.arrive();
        if self.try_take(rt, &mut hand) {
            return hand;
        }
        self.take_slow(rt, hand)
    }

    /// Does the same for a thread that found no permit free.
    #[cold]
    #[inline(never)]
    pub(crate) fn take_slow<R: Wait>(
        &self,
        rt: &R,
        arrived: Hand<T, QueueTitle>,
    ) -> Hand<T, QueueTitle>
        requires { Rests self.now.stock arrived }
        ensures { Holds self.now.stock result }
    {
        let mut hand = arrived;
        for _ in rt.forever() {
            stand_back();
            if self.try_take(rt, &mut hand) {
                return hand;
            }
            if let Ok(thread) = self.lot.thread_data(rt, self.alloc) {
                return self.wait(rt, hand, thread);
            }
        }
        unreachable!()
    }

    /// Returns a thread that holds a permit, or none if no permit is free.
    pub(crate) fn take_if_free<R: Wait>(&self, rt: &R) -> Option<Hand<T, QueueTitle>>
        ensures { IfSome result (Holds self.now.stock) }
    {
        let mut hand = self.stock.arrive();
        if self.try_take(rt, &mut hand) {
            return Some(hand);
        }
        hand.leave();
        None
    }

    /// Returns a thread that holds a permit, or none if the deadline passed before one was free.
    pub(crate) fn take_until<R: Wait + Clock>(
        &self,
        rt: &R,
        deadline: Instant,
    ) -> Option<Hand<T, QueueTitle>>
        ensures { IfSome result (Holds self.now.stock) }
    {
        let mut hand = self.stock.arrive();
        if self.try_take(rt, &mut hand) {
            return Some(hand);
        }
        for _ in rt.forever() {
            stand_back();
            if self.try_take(rt, &mut hand) {
                return Some(hand);
            }
            if is_past(rt, Some(deadline)) {
                hand.leave();
                return None;
            }
            if let Ok(thread) = self.lot.thread_data(rt, self.alloc) {
                return self.wait_until(rt, hand, thread, deadline);
            }
        }
        unreachable!()
    }

    /// Returns the word of the gate, as it was at one moment.
    #[inline]
    pub(crate) fn word(&self) -> u64 {
        self.stock.word()
    }

    /// Ends the gate, and returns the value that its permit guards, unless a thread has it still.
    pub(crate) fn close(self) -> Option<Box<T>> {
        let Gate {
            lot: _,
            stock,
            key: _,
            alloc: _,
        } = self;
        let (_, value) = stock.close();
        value
    }
}
