//! The titles of a lot that are still to be dealt, behind a lock.

ghost use Rattle.std.specs.Prelude.{◌≡◌, ◌∷◌, ◌<◌, [], IfOk, IfSome};
ghost use Rattle.atomic_table.specs.Seated.{TableId};
ghost use Rattle.lot_history.specs.Witness.{id_of, limit_of};
ghost use Rattle.lot_history.specs.declared.view.Piece.TheVariants.{Undealt};
ghost use Rattle.lot_threads.specs.Cells.{Has};
ghost use Rattle.lot_threads.specs.Dealers.{IsDealer, IsDealerLock, IsDealt};

use crate::title::Title;
use lot_base::token::NoMemory;
use lot_base::word_lock::{Fits, WordLock};
use lot_history::history::{History, Part, Witness};
use std::alloc::Global;
use std::mem;

// The titles of the keys from `next` on, up to the limit, with a witness that deals them.
#[derive(Drop)]
pub(crate) struct Dealer {
    next: usize,
    part: Part,
    witness: Witness,
}

// Of which lot the titles are, and of which keys: `home` is a part of the lot's history, without a
// piece.
#[derive(Drop)]
pub(crate) struct DealerKey {
    limit: usize,
    home: Part,
}

impl Fits for Dealer {
    type Key = DealerKey;

    ghost use Rattle.lot_threads.specs.Dealers.{FitsDealer};

    ghost fits = { λ key dealer. FitsDealer key dealer };
}

// The dealer of a new lot, which deals the titles of this part, behind a lock.
pub(crate) fn new_dealer(
    alloc: Global,
    history: &History,
    limit: usize,
    part: Part,
) -> Result<WordLock<Dealer>, NoMemory>
    requires limit { limit ≡ limit_of history.now }
    requires undealt { Has (id_of history.now) (Undealt 0 limit ∷ []) part }
    ensures { IfOk result (IsDealerLock (id_of history.now) (limit_of history.now)) }
{
    let mut witness = history.witness();
    let home = history.give(&mut witness);
    let dealer = Dealer {
        next: 0,
        part,
        witness,
    };
    WordLock::new(alloc, dealer, &DealerKey { limit, home })
}

impl Dealer {
    // Deals the title of the next key for the table `home`, if one is left.
    pub(crate) fn deal(&mut self, history: &History, limit: usize) -> Option<(usize, Title)>
        ghost home: { TableId }
        requires limit { limit ≡ limit_of history.now }
        requires dealer { IsDealer (id_of history.now) (limit_of history.now) self.old }
        ensures dealer { IsDealer (id_of history.now) (limit_of history.now) self.new }
        ensures dealt { IfSome result (λ dealt. IsDealt history.now home dealt.0 dealt.1) }
    {
        let key = self.next;
        if key >= limit {
            return None;
        }
        let me = &mut self.witness;
        history.take(me, mem::replace(&mut self.part, Part::none()));
        history.deal(me, key, limit);
        let title = Title {
            part: history.give(me),
        };
        self.part = history.give(me);
        self.next = key + 1;
        Some((key, title))
    }
}
