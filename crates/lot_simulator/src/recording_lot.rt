//! This module has recording lots: threads share a record, and whatever they do, its journal can be
//! replayed.

ghost use Rattle.std.specs.Prelude.{◌≡◌, ◌≢◌, ◌↔◌, ◌<◌, ◌≤◌, ◌+◌, ◌⊎◌, IsErrOf, IfOk, Err, All, length, vec_len};
ghost use Rattle.std.specs.List.{sum_by};
ghost use Rattle.lot_simulator.specs.Journal.{woken_in, unparked_total};
ghost use Rattle.lot_simulator.specs.Record.{IsRecord, IsRecorded};
ghost use Rattle.lot_simulator.specs.RecordState.{RecordState};
ghost use Rattle.lot_simulator.specs.TicketState.{new_ticket, after_answer};
ghost use Rattle.lot_simulator.specs.JournalLaws.{UnparkedAreWokenOrTaken, TotalsHaveRoom};

mod counted;
mod tally;
mod ticket;

use crate::record::{MAX_JOURNAL, Record, RecordError};
use crate::schedule::{Answer, Step};
use counted::{Counted, Rest};
use lot_base::token::LotError;
use lot_machine::numbers::MAX_THREADS;
use std::alloc::Global;
use std::sync::ledger::{Blank, Ledger};
use std::sync::{Mutex, Wait};
pub use ticket::Ticket;

/// A `RecordingLot` is a record that threads share by reference.
///
/// Each step is done and added to the journal under one lock. So the journal is the history of an
/// exclusive lot, whichever threads took the steps. It also agrees with what the threads were told:
/// its totals are the sums of the totals of their tickets.
///
/// Each total is counted in a ledger of std's. The three parameters name these ledgers. A caller
/// passes `Brand` for each, and a blank whose parts are as many as the workers.
#[derive(Drop)]
pub struct RecordingLot<C: Ledger, W: Ledger, U: Ledger> {
    counted: Mutex<Counted<C, W, U>>,
}

impl<C: Ledger, W: Ledger, U: Ledger> RecordingLot<C, W, U> {
    /// Creates a recording lot and a ticket for each worker.
    ///
    /// Its lot is new, for at most `max_threads` threads, and its journal has room for `capacity`
    /// entries. It allocates what `Record::new` does, and room for the tickets.
    ///
    /// # Errors
    ///
    /// Returns `TooManyThreads` if and only if `max_threads` or `workers` is above `MAX_THREADS`.
    /// Otherwise returns `NoMemory` if there is not enough memory.
    pub fn new(
        alloc: Global,
        max_threads: usize,
        capacity: usize,
        workers: usize,
        count: Blank,
        woken: Blank,
        unparked: Blank,
    ) -> Result<(RecordingLot<C, W, U>, Vec<Ticket<C, W, U>>), LotError>
        requires capacity { capacity ≤ MAX_JOURNAL }
        requires names { (count.name ≡ C.name) × (woken.name ≡ W.name) × (unparked.name ≡ U.name) }
        requires parts { (count.parts ≡ C.parts) × (woken.parts ≡ W.parts)
            × (unparked.parts ≡ U.parts) }
        requires workers { (C.parts ≡ workers) × (W.parts ≡ workers) × (U.parts ≡ workers) }
        ensures too_many { IsErrOf result LotError.TooManyThreads
            ↔ ((MAX_THREADS < max_threads) ⊎ (MAX_THREADS < workers)) }
        ensures not_full { result ≢ Err LotError.Full }
        ensures tickets { IfOk result (λ made. (vec_len made.1 ≡ workers)
            × All (λ ticket. ticket ≡ new_ticket) made.1.items) }
    {
        if workers > MAX_THREADS {
            return Err(LotError::TooManyThreads);
        }
        let recorded = Record::new(alloc, max_threads, capacity)?;
        let mut tickets = Vec::with_capacity(alloc, workers)?;
        let (counts, mut count) = count.open::<C>();
        let (wakes, mut woken) = woken.open::<W>();
        let (unparks, mut unparked) = unparked.open::<U>();
        for _ in 0..workers {
            tickets.push(Ticket::new(
                count.split_off(1, 0),
                woken.split_off(1, 0),
                unparked.split_off(1, 0),
            ))?;
        }
        let counted = Counted {
            recorded,
            counts,
            wakes,
            unparks,
            rest: Rest {
                count,
                woken,
                unparked,
            },
        };
        let lot = RecordingLot {
            counted: Mutex::new(counted),
        };
        Ok((lot, tickets))
    }

    /// Does the step as `Record::step` does, and adds its answer to the totals of the ticket.
    ///
    /// It takes the lock of the lot, and waits for it. The contract does not know which record it
    /// finds there, so it says that the answer is one that some record gives to this step. The
    /// journal is tied to the answers only by the totals; that the step is in the journal with this
    /// answer is tested.
    ///
    /// # Errors
    ///
    /// Returns the errors of `Record::step`.
    pub fn step<R: Wait>(
        &self,
        rt: &R,
        ticket: &mut Ticket<C, W, U>,
        step: Step,
    ) -> Result<Answer, RecordError>
        ensures recorded { (old : RecordState) × (new : RecordState) × IsRecord old
            × IsRecorded old step result new }
        ensures ticket { ticket.new ≡ after_answer ticket.old result }
    {
        let mut counted = self.counted.lock(rt);
        let result = counted.step(ticket, step);
        drop(counted);
        result
    }

    /// Ends the recording: takes the tickets of all workers, and returns the record.
    ///
    /// It takes no lock, because nobody else has the lot any more.
    pub fn close(self, tickets: Vec<Ticket<C, W, U>>) -> Record
        requires { (C.parts ≡ vec_len tickets) × (W.parts ≡ vec_len tickets)
            × (U.parts ≡ vec_len tickets) }
        ensures count { length result.journal ≡ sum_by (λ ticket. ticket.count) tickets.items }
        ensures woken { woken_in result.journal ≡ sum_by (λ ticket. ticket.woken) tickets.items }
        ensures unparked { unparked_total result.journal
            ≡ sum_by (λ ticket. ticket.unparked) tickets.items }
    {
        self.counted.into_inner().close(tickets)
    }
}

/// States that the threads which the unparks of a journal unparked are as many as its answers
/// `Unparked` and the threads that are still taken.
///
/// It holds whatever threads do on a recording lot or on a record.
pub fn unparked_are_woken_or_taken()
    ensures { UnparkedAreWokenOrTaken }
{}

/// States that no total of a journal is above the number of entries for which it has room.
pub fn totals_have_room()
    ensures { TotalsHaveRoom }
{}
