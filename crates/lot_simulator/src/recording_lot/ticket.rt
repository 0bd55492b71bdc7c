//! This module adds up what a worker of a recording lot was told.

ghost use Rattle.std.specs.Prelude.{◌≡◌, ◌+◌};
ghost use Rattle.lot_simulator.specs.TicketState.{TicketState, new_ticket};

use super::tally::Tally;
use std::marker::Model;
use std::sync::ledger::{Ledger, Share};

/// A `Ticket` is a worker's right to take steps on a recording lot, and the totals of what it was
/// told.
///
/// Each worker has one, and it cannot be copied. `RecordingLot::close` takes all of them. If one is
/// dropped before, the lot can never be closed.
#[derive(Drop)]
pub struct Ticket<C: Ledger, W: Ledger, U: Ledger> {
    pub(super) count: Tally<C>,
    pub(super) woken: Tally<W>,
    pub(super) unparked: Tally<U>,
}

impl<C: Ledger, W: Ledger, U: Ledger> Model for Ticket<C, W, U> {
    ghost use Rattle.lot_simulator.specs.TicketState.{TicketState};

    ghost Value = { TicketState };

    ghost view = { λ ticket. record {
      count = ticket.count.total;
      woken = ticket.woken.total;
      unparked = ticket.unparked.total;
    } };
}

impl<C: Ledger, W: Ledger, U: Ledger> Ticket<C, W, U> {
    pub(super) fn new(count: Share<C>, woken: Share<W>, unparked: Share<U>) -> Ticket<C, W, U>
        requires count { (count.parts ≡ 1) × (count.amount ≡ 0) }
        requires woken { (woken.parts ≡ 1) × (woken.amount ≡ 0) }
        requires unparked { (unparked.parts ≡ 1) × (unparked.amount ≡ 0) }
        ensures { result ≡ new_ticket }
    {
        Ticket {
            count: Tally::new(count),
            woken: Tally::new(woken),
            unparked: Tally::new(unparked),
        }
    }

    /// Returns how many of its steps were added to the journal.
    pub fn count(&self) -> usize
        ensures { result ≡ self.now.count }
    {
        self.count.total()
    }

    /// Returns how many of its steps were answered `Unparked`.
    pub fn woken(&self) -> usize
        ensures { result ≡ self.now.woken }
    {
        self.woken.total()
    }

    /// Returns how many threads its unparks unparked.
    pub fn unparked(&self) -> usize
        ensures { result ≡ self.now.unparked }
    {
        self.unparked.total()
    }
}
