//! This module has what the lock of a recording lot protects.

ghost use Rattle.std.specs.Prelude.{◌≡◌, length, vec_len};
ghost use Rattle.std.specs.List.{sum_by};
ghost use Rattle.lot_simulator.specs.Journal.{woken_in, unparked_total};
ghost use Rattle.lot_simulator.specs.Record.{IsRecord, IsRecorded};
ghost use Rattle.lot_simulator.specs.TicketState.{after_answer, count_of, woken_of, unparked_of};

use super::ticket::Ticket;
use crate::record::{Record, RecordError};
use crate::schedule::{Answer, Step};
use std::sync::ledger::{Book, Ledger, Share};

// A record, the books in which its journal's totals stand, and what is left of their shares.
#[derive(Drop)]
pub(super) struct Counted<C: Ledger, W: Ledger, U: Ledger> {
    pub(super) recorded: Record,
    pub(super) counts: Book<C>,
    pub(super) wakes: Book<W>,
    pub(super) unparks: Book<U>,
    pub(super) rest: Rest<C, W, U>,
    ghost counted: { length recorded.journal ≡ counts.total },
    ghost woken: { woken_in recorded.journal ≡ wakes.total },
    ghost unparked: { unparked_total recorded.journal ≡ unparks.total },
}

// What is left of the three ledgers' shares once each ticket has its part.
#[derive(Drop)]
pub(super) struct Rest<C: Ledger, W: Ledger, U: Ledger> {
    pub(super) count: Share<C>,
    pub(super) woken: Share<W>,
    pub(super) unparked: Share<U>,
    ghost no_part: { (count.parts ≡ 0) × (woken.parts ≡ 0) × (unparked.parts ≡ 0) },
    ghost nothing: { (count.amount ≡ 0) × (woken.amount ≡ 0) × (unparked.amount ≡ 0) },
}

impl<C: Ledger, W: Ledger, U: Ledger> Counted<C, W, U> {
    // Does the step, and adds its answer to the ticket's totals and to the books.
    pub(super) fn step(
        &mut self,
        ticket: &mut Ticket<C, W, U>,
        step: Step,
    ) -> Result<Answer, RecordError>
        ensures kept { IsRecord self.old.recorded }
        ensures recorded { IsRecorded self.old.recorded step result self.new.recorded }
        ensures ticket { ticket.new ≡ after_answer ticket.old result }
    {
        self.recorded.consistency();
        let result = self.recorded.step(step);
        self.recorded.consistency();
        ticket.count.add(&mut self.counts, entries_of(&result));
        ticket.woken.add(&mut self.wakes, woken_by(&result));
        ticket.unparked.add(&mut self.unparks, unparked_by(&result));
        result
    }

    // The record, for the tickets of all workers, to whose sums its totals are equal.
    pub(super) fn close(self, mut tickets: Vec<Ticket<C, W, U>>) -> Record
        requires { (C.parts ≡ vec_len tickets) × (W.parts ≡ vec_len tickets)
            × (U.parts ≡ vec_len tickets) }
        ensures count { length result.journal ≡ sum_by (λ ticket. ticket.count) tickets.items }
        ensures woken { woken_in result.journal ≡ sum_by (λ ticket. ticket.woken) tickets.items }
        ensures unparked { unparked_total result.journal
            ≡ sum_by (λ ticket. ticket.unparked) tickets.items }
    {
        let Counted {
            recorded,
            mut counts,
            mut wakes,
            mut unparks,
            rest,
        } = self;
        let Rest {
            mut count,
            mut woken,
            mut unparked,
        } = rest;
        while let Some(ticket) = tickets.pop() {
            ticket.count.merge_into(&mut count);
            ticket.woken.merge_into(&mut woken);
            ticket.unparked.merge_into(&mut unparked);
        }
        counts.audit(&mut count);
        wakes.audit(&mut woken);
        unparks.audit(&mut unparked);
        recorded
    }
}

// How many entries a step has in the journal that was answered so.
fn entries_of(told: &Result<Answer, RecordError>) -> usize
    ensures { result ≡ count_of told.now }
{
    match told {
        Ok(Answer::Misfit) | Err(RecordError::JournalFull) => 0,
        Ok(_) | Err(RecordError::NoMemory) => 1,
    }
}

// How many threads came back by a step that was answered so.
fn woken_by(told: &Result<Answer, RecordError>) -> usize
    ensures { result ≡ woken_of told.now }
{
    match told {
        Ok(Answer::Unparked(_)) => 1,
        _ => 0,
    }
}

// How many threads were unparked by a step that was answered so.
fn unparked_by(told: &Result<Answer, RecordError>) -> usize
    ensures { result ≡ unparked_of told.now }
{
    match told {
        Ok(Answer::Unpark(result)) => result.unparked_threads,
        Ok(Answer::Count(count)) => *count,
        _ => 0,
    }
}
