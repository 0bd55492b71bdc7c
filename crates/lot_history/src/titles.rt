//! Titles. In a lot whose keys below a limit have titles, the title of a key tells who stands in
//! the key's list, and nobody changes the list without it.

ghost use Rattle.std.specs.Prelude.{◌≡◌, ◌+◌, ◌<◌, ◌∷◌, [], true, IfOk, List};
ghost use Rattle.atomic_table.specs.Seated.{TableId};
ghost use Rattle.lot_history.specs.Titles.{MayEnter, deal, entering, titled_pieces, with_entry};
ghost use Rattle.lot_history.specs.Views.{all_pieces, rest_of};
ghost use Rattle.lot_history.specs.Witness.{Adds, Extends, Found, IsStill, IsWitnessOf, deals_of, events_of, limit_of, max_threads_of, pieces_of, seen_by};
ghost use Rattle.lot_history.specs.declared.view.Piece.{Piece};
ghost use Rattle.lot_history.specs.declared.view.Piece.TheVariants.{Title, Undealt};

use crate::history::{History, Witness};
use crate::plays::Told;
use lot_base::token::{NoMemory, ParkToken};
use lot_machine::step::{Answer, Step};
use std::alloc::Global;
use std::marker::Brand;

impl History {
    /// Creates a history as `new` does, for a lot whose keys below the limit have titles, which are
    /// still to be dealt.
    ///
    /// # Errors
    ///
    /// Returns `NoMemory` if there is not enough memory.
    pub fn with_titles(
        alloc: Global,
        max_threads: usize,
        limit: usize,
    ) -> Result<(History, Witness), NoMemory>
        ensures threads { IfOk result (λ made. max_threads_of made.0 ≡ max_threads) }
        ensures limit { IfOk result (λ made. limit_of made.0 ≡ limit) }
        ensures witness { IfOk result (λ made. IsWitnessOf made.0 made.1) }
        ensures nothing_seen { IfOk result (λ made. seen_by made.1 ≡ []) }
        ensures nothing_added { IfOk result (λ made. events_of made.1 ≡ []) }
        ensures pieces { IfOk result (λ made. pieces_of made.1 ≡ titled_pieces limit) }
        ensures nothing_dealt { IfOk result (λ made. deals_of made.1 ≡ []) }
    {
        let (history, mut me) = History::bounded(alloc, max_threads, limit)?;
        history.entitle(&mut me, limit);
        Ok((history, me))
    }

    // Gives the keys below the limit titles. The caller has the witness of a new history.
    fn entitle(&self, me: &mut Witness, limit: usize)
        requires witness { IsWitnessOf self.now me.old }
        requires all { pieces_of me.old ≡ all_pieces }
        ensures still { IsStill self.now me.old me.new }
        ensures seen { seen_by me.new ≡ seen_by me.old }
        ensures nothing_added { events_of me.new ≡ events_of me.old }
        ensures deals { deals_of me.new ≡ deals_of me.old }
        ensures pieces { pieces_of me.new ≡ titled_pieces limit }
    {
        self.entitle_as(me, limit);
    }

    // The same, where the pieces that it leaves have a name. The call above picks them.
    fn entitle_as(&self, me: &mut Witness, limit: usize)
        ghost after: { List Piece }
        requires witness { IsWitnessOf self.now me.old }
        requires all { pieces_of me.old ≡ all_pieces }
        requires after { after ≡ titled_pieces limit }
        ensures still { IsStill self.now me.old me.new }
        ensures seen { seen_by me.new ≡ seen_by me.old }
        ensures nothing_added { events_of me.new ≡ events_of me.old }
        ensures deals { deals_of me.new ≡ deals_of me.old }
        ensures pieces { pieces_of me.new ≡ after }
    {
        self.regroup(me);
    }

    /// Deals the title of a key for the table of a lock, once and for good. The caller names the
    /// table as the ghost argument `home`. The witness has the titles that are still to be dealt
    /// before its other pieces, and the key is the first of them. It costs a load.
    pub fn deal(&self, me: &mut Witness, key: usize, limit: usize)
        ghost home: { TableId }
        requires witness { IsWitnessOf self.now me.old }
        requires undealt { pieces_of me.old ≡ Undealt key limit ∷ rest_of (pieces_of me.old) }
        requires below { key < limit }
        ensures still { IsStill self.now me.old me.new }
        ensures seen { seen_by me.new ≡ seen_by me.old }
        ensures nothing_added { events_of me.new ≡ events_of me.old }
        ensures deals { deals_of me.new ≡ deal key home ∷ deals_of me.old }
        ensures pieces { pieces_of me.new
            ≡ Title key [] ∷ Undealt (key + 1) limit ∷ rest_of (pieces_of me.old) }
    {
        self.deal_as::<Brand>(me, key, limit);
    }

    /// Adds the event that a running thread enters the list of a key that has a title. The witness
    /// has the lists of the key's place, the title, the thread's piece and its timing before its
    /// other pieces. It keeps all but the third; the title tells of the thread then, and the timing
    /// tells how it waits. It costs a load.
    pub fn enter_titled(
        &self,
        me: &mut Witness,
        number: usize,
        key: usize,
        park_token: ParkToken,
        timed: bool,
    )
        requires witness { IsWitnessOf self.now me.old }
        requires titled { MayEnter (pieces_of me.old) key number }
        ensures still { IsStill self.now me.old me.new }
        ensures extends { Extends self.now me.old
            (Step.Enter number key true park_token timed) Answer.Entered me.new }
        ensures found { Found self.now me.old me.new }
        ensures pieces { pieces_of me.new
            ≡ with_entry (entering number key park_token timed) (pieces_of me.old) }
        ensures deals { deals_of me.new ≡ deals_of me.old }
    {
        self.enter_titled_as::<Brand>(me, number, key, park_token, timed);
    }

    // The same, where the pieces that it leaves have a name. The call above picks them, and what is
    // said of the step.
    fn enter_titled_as<E: Told>(
        &self,
        me: &mut Witness,
        number: usize,
        key: usize,
        park_token: ParkToken,
        timed: bool,
    )
        ghost after: { List Piece }
        requires witness { IsWitnessOf self.now me.old }
        requires titled { MayEnter (pieces_of me.old) key number }
        requires after { after
            ≡ with_entry (entering number key park_token timed) (pieces_of me.old) }
        requires said { E.said (Step.Enter number key true park_token timed) Answer.Entered }
        ensures still { IsStill self.now me.old me.new }
        ensures adds { Adds self.now me.old E.said me.new }
        ensures found { Found self.now me.old me.new }
        ensures pieces { pieces_of me.new ≡ after }
        ensures deals { deals_of me.new ≡ deals_of me.old }
    {
        self.add::<E>(me);
    }
}
