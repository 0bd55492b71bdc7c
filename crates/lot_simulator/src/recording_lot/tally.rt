//! This module has one of the totals of a ticket.

ghost use Rattle.std.specs.Prelude.{◌≡◌, ◌+◌, ◌<◌, ◌^◌};

use std::sync::ledger::{Book, Ledger, Share};

// A total, and the part of a ledger on which it stands.
#[derive(Drop)]
pub(super) struct Tally<L: Ledger> {
    total: usize,
    share: Share<L>,
    ghost adds_up: { share.amount ≡ total },
    ghost one_part: { share.parts ≡ 1 },
}

impl<L: Ledger> Tally<L> {
    // Nothing yet.
    pub(super) fn new(share: Share<L>) -> Tally<L>
        requires parts { share.parts ≡ 1 }
        requires amount { share.amount ≡ 0 }
        ensures { result.total ≡ 0 }
    {
        Tally { total: 0, share }
    }

    pub(super) fn total(&self) -> usize
        ensures { result ≡ self.now.total }
    {
        self.total
    }

    // Adds this much, to the ledger's book too.
    pub(super) fn add(&mut self, book: &mut Book<L>, amount: usize)
        requires { book.old.total + amount < 2 ^ 64 }
        ensures total { self.new.total ≡ self.old.total + amount }
        ensures book { book.new.total ≡ book.old.total + amount }
    {
        book.audit(&mut self.share);
        book.add(&mut self.share, amount as u64);
        self.total += amount;
    }

    // Hands its part over.
    pub(super) fn merge_into(self, whole: &mut Share<L>)
        ensures parts { whole.new.parts ≡ whole.old.parts + 1 }
        ensures amount { whole.new.amount ≡ whole.old.amount + self.total }
    {
        let Tally { share, .. } = self;
        whole.merge(share);
    }
}
