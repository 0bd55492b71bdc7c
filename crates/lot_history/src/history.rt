//! This module has the history of a lot, its witnesses, and the parts of the machine.
//!
//! A history is one word that never changes, so each call here is a few loads of it, or none. What
//! was done is known in proofs alone.

ghost use Rattle.std.specs.Prelude.{◌≡◌, ◌<◌, ◌∷◌, ◌++◌, [], List, IfOk};
ghost use mathlib.Core.List.{IsPrefix};
ghost use Rattle.lot_history.specs.Moves.{Moves, Regroups};
ghost use Rattle.lot_history.specs.Titles.{Agree, with_deal};
ghost use Rattle.lot_history.specs.Views.{all_pieces, first_of, rest_of};
ghost use Rattle.lot_history.specs.declared.view.Piece.{Piece};
ghost use Rattle.lot_history.specs.declared.view.Piece.TheVariants.{Undealt};

use crate::bounds::Bounds;
use crate::plays::{
    Add, Arrive, DealTitle, Dealing, Giving, Look, OneHistory, Regroup, Seated, Taking, Telling,
    Told,
};
use crate::view::View;
use atomic_table::{Badge, Seat, Table};
use lot_base::token::NoMemory;
use std::alloc::Global;
use std::marker::Brand;

/// A `History` is the one list of all steps of the machine that the threads of a lot made, in one
/// order.
///
/// Threads share it by reference. It has two blocks on the heap, one of a word and one of a byte.
#[derive(Drop)]
pub struct History {
    table: Table<(), View, Bounds, OneHistory, Global>,
    ghost sized: { table.shared.table_id.words ≡ 1 },
}

/// A `Witness` knows a beginning of a history: everything that its owner has seen.
///
/// It also knows which of these events it added itself. It may have pieces of the machine, which it
/// alone may change. It takes no memory, and may be moved to another thread.
#[derive(Drop)]
pub struct Witness {
    seat: Seat<(), View>,
}

/// A `Part` has pieces of the machine, for the caller that takes it next, such as the next holder
/// of a lock.
///
/// It takes no memory, and may be put into the slot of a table.
#[derive(Drop)]
pub struct Part {
    badge: Badge<View>,
}

impl Part {
    /// Creates a part without pieces, which can stand where another was taken out.
    pub fn none() -> Part {
        Part {
            badge: Badge::blank(),
        }
    }
}

impl History {
    ghost use Rattle.lot_history.specs.Witness.{Adds, Found, IsPartOf, IsStill, IsWitnessOf, Looks, deals_in, deals_of, events_of, id_of, limit_of, max_threads_of, number_of, pieces_in, pieces_of, seen_by, view_of};

    /// Creates a history for a lot with at most `max_threads` threads, in which nothing was done,
    /// and its first witness, which has all pieces of the machine.
    ///
    /// It allocates two blocks. No other call allocates.
    ///
    /// # Errors
    ///
    /// Returns `NoMemory` if there is not enough memory.
    pub fn new(alloc: Global, max_threads: usize) -> Result<(History, Witness), NoMemory>
        ensures threads { IfOk result (λ made. max_threads_of made.0 ≡ max_threads) }
        ensures no_titles { IfOk result (λ made. limit_of made.0 ≡ 0) }
        ensures witness { IfOk result (λ made. IsWitnessOf made.0 made.1) }
        ensures nothing_seen { IfOk result (λ made. seen_by made.1 ≡ []) }
        ensures nothing_added { IfOk result (λ made. events_of made.1 ≡ []) }
        ensures pieces { IfOk result (λ made. pieces_of made.1 ≡ all_pieces) }
        ensures nothing_dealt { IfOk result (λ made. deals_of made.1 ≡ []) }
    {
        History::bounded(alloc, max_threads, 0)
    }

    // The same, where the keys below the limit are to have titles.
    pub(crate) fn bounded(
        alloc: Global,
        max_threads: usize,
        limit: usize,
    ) -> Result<(History, Witness), NoMemory>
        ensures threads { IfOk result (λ made. max_threads_of made.0 ≡ max_threads) }
        ensures limit { IfOk result (λ made. limit_of made.0 ≡ limit) }
        ensures witness { IfOk result (λ made. IsWitnessOf made.0 made.1) }
        ensures nothing_seen { IfOk result (λ made. seen_by made.1 ≡ []) }
        ensures nothing_added { IfOk result (λ made. events_of made.1 ≡ []) }
        ensures pieces { IfOk result (λ made. pieces_of made.1 ≡ all_pieces) }
        ensures nothing_dealt { IfOk result (λ made. deals_of made.1 ≡ []) }
    {
        let bounds = Bounds { max_threads, limit };
        let (table, seat) = Table::of_words(alloc, &[0], &bounds)?;
        Ok((History { table }, Witness { seat }))
    }

    /// Creates a witness that has seen nothing, has added nothing and has no piece.
    ///
    /// It costs one load.
    #[inline]
    pub fn witness(&self) -> Witness
        ensures witness { IsWitnessOf self.now result }
        ensures nothing_seen { seen_by result ≡ [] }
        ensures nothing_added { events_of result ≡ [] }
        ensures no_pieces { pieces_of result ≡ [] }
        ensures no_deals { deals_of result ≡ [] }
    {
        Witness {
            seat: self.table.shared.load_new_seat::<Arrive>(0).1,
        }
    }

    /// Creates a witness that has seen as much as this one.
    ///
    /// The new witness has added nothing and has no piece. It costs one load.
    pub fn tell(&self, me: &mut Witness) -> Witness
        requires witness { IsWitnessOf self.now me.old }
        ensures still { IsStill self.now me.old me.new }
        ensures unchanged { view_of me.new ≡ view_of me.old }
        ensures witness { IsWitnessOf self.now result }
        ensures seen { seen_by result ≡ seen_by me.old }
        ensures nothing_added { events_of result ≡ [] }
        ensures no_pieces { pieces_of result ≡ [] }
        ensures no_deals { deals_of result ≡ [] }
    {
        Witness {
            seat: self.table.shared.split_seat::<Telling>(&mut me.seat),
        }
    }

    /// Lets this witness see the history as it is, which begins with everything that the other
    /// witness has seen.
    ///
    /// What the other knows does not change. It costs three loads.
    pub fn hear(&self, me: &mut Witness, other: &mut Witness)
        requires witness { IsWitnessOf self.now me.old }
        requires other { IsWitnessOf self.now other.old }
        ensures still { IsStill self.now me.old me.new }
        ensures looks { Looks self.now me.old me.new }
        ensures heard { IsPrefix (seen_by other.old) (seen_by me.new) }
        ensures deals { deals_of me.new ≡ deals_of me.old }
        ensures other_still { IsStill self.now other.old other.new }
        ensures other_unchanged { view_of other.new ≡ view_of other.old }
    {
        let told = self.tell(other);
        self.join(me, told);
        self.look_as::<Brand>(me);
    }

    /// Lets this witness see the history as it is, and know that the machine to which it leads is
    /// as the pieces of the witness say, and that no title was dealt twice.
    ///
    /// It costs one load.
    pub fn look(&self, me: &mut Witness)
        requires { IsWitnessOf self.now me.old }
        ensures still { IsStill self.now me.old me.new }
        ensures looks { Looks self.now me.old me.new }
        ensures deals { deals_of me.new ≡ deals_of me.old }
        ensures agree { Agree (deals_of me.old) }
    {
        self.look_as::<Brand>(me);
    }

    /// Adds one step of the machine to the history, as an event of this witness.
    ///
    /// `E` says which step it is, and what its answer is. The step leaves the witness with the
    /// pieces `after`. The caller proves that such a step is possible in every machine that is as
    /// the pieces of the witness say, and that it changes nothing else. `Found` says that the
    /// machine before the step was as the pieces said.
    ///
    /// The caller picks `after`, and `E` if that is `Brand`, from what the witness knows. If they
    /// depend on more, write a function between that takes the rest as arguments and has a `ghost
    /// after` of its own, as `give_back` does. It costs one load.
    #[inline]
    pub fn add<E: Told>(&self, me: &mut Witness)
        ghost after: { List Piece }
        requires witness { IsWitnessOf self.now me.old }
        requires moves { Moves (max_threads_of self.now) E.said (pieces_of me.old) after }
        ensures still { IsStill self.now me.old me.new }
        ensures adds { Adds self.now me.old E.said me.new }
        ensures found { Found self.now me.old me.new }
        ensures pieces { pieces_of me.new ≡ after }
        ensures deals { deals_of me.new ≡ deals_of me.old }
    {
        self.add_as::<E, Brand>(me);
    }

    /// Puts the pieces of the witness together in another way, as is needed when a table grows.
    ///
    /// It adds nothing to the history. The caller picks `after`, as in `add`. It costs one load.
    #[inline]
    pub fn regroup(&self, me: &mut Witness)
        ghost after: { List Piece }
        requires witness { IsWitnessOf self.now me.old }
        requires regroups { Regroups (max_threads_of self.now) (pieces_of me.old) after }
        ensures still { IsStill self.now me.old me.new }
        ensures seen { seen_by me.new ≡ seen_by me.old }
        ensures nothing_added { events_of me.new ≡ events_of me.old }
        ensures pieces { pieces_of me.new ≡ after }
        ensures deals { deals_of me.new ≡ deals_of me.old }
    {
        self.regroup_as::<Brand>(me);
    }

    /// Gives the pieces of the part to the witness, behind its own, and what the part knows of
    /// deals.
    ///
    /// It costs one load.
    #[inline]
    pub fn take(&self, me: &mut Witness, part: Part)
        requires witness { IsWitnessOf self.now me.old }
        requires part { IsPartOf (id_of self.now) part }
        ensures still { IsStill self.now me.old me.new }
        ensures seen { seen_by me.new ≡ seen_by me.old }
        ensures nothing_added { events_of me.new ≡ events_of me.old }
        ensures pieces { pieces_of me.new ≡ pieces_of me.old ++ pieces_in part }
        ensures deals { deals_of me.new ≡ deals_of me.old ++ deals_in part }
    {
        let Part { badge } = part;
        self.join(
            me,
            Witness {
                seat: badge.into_seat(),
            },
        );
    }

    /// Takes the first piece from the witness, and returns it as a part, which knows as much of
    /// deals as the witness.
    ///
    /// It costs one load.
    #[inline]
    pub fn give(&self, me: &mut Witness) -> Part
        requires { IsWitnessOf self.now me.old }
        ensures still { IsStill self.now me.old me.new }
        ensures seen { seen_by me.new ≡ seen_by me.old }
        ensures nothing_added { events_of me.new ≡ events_of me.old }
        ensures rest { pieces_of me.new ≡ rest_of (pieces_of me.old) }
        ensures part { IsPartOf (id_of self.now) result }
        ensures first { pieces_in result ≡ first_of (pieces_of me.old) }
        ensures deals { deals_of me.new ≡ deals_of me.old }
        ensures dealt { deals_in result ≡ deals_of me.old }
    {
        Part {
            badge: self
                .table
                .shared
                .split_seat::<Giving>(&mut me.seat)
                .into_badge(),
        }
    }

    // A witness that has added nothing gives another its pieces, and tells it what it has seen.
    #[inline]
    fn join(&self, me: &mut Witness, other: Witness)
        requires witness { IsWitnessOf self.now me.old }
        requires other { IsWitnessOf self.now other }
        requires quiet { events_of other ≡ [] }
        ensures still { IsStill self.now me.old me.new }
        ensures view { view_of me.new ≡ record (view_of me.old) {
          heard = seen_by other;
          pieces = pieces_of me.old ++ pieces_of other;
          deals = deals_of me.old ++ deals_of other;
        } }
    {
        let Witness { seat } = other;
        self.table.shared.join_seat::<Taking>(&mut me.seat, seat);
    }

    fn look_as<C: Seated>(&self, me: &mut Witness)
        requires witness { IsWitnessOf self.now me.old }
        requires max_threads { C.max_threads ≡ max_threads_of self.now }
        requires number { C.number ≡ number_of me.old }
        ensures still { IsStill self.now me.old me.new }
        ensures looks { Looks self.now me.old me.new }
        ensures heard { IsPrefix (view_of me.old).heard (seen_by me.new) }
        ensures deals { deals_of me.new ≡ deals_of me.old }
        ensures agree { Agree (deals_of me.old) }
    {
        self.table.shared.load::<Look<C>>(&mut me.seat, 0);
    }

    #[inline]
    fn add_as<E: Told, C: Seated>(&self, me: &mut Witness)
        requires witness { IsWitnessOf self.now me.old }
        requires max_threads { C.max_threads ≡ max_threads_of self.now }
        requires number { C.number ≡ number_of me.old }
        requires moves { Moves (max_threads_of self.now) E.said (pieces_of me.old) C.after }
        ensures still { IsStill self.now me.old me.new }
        ensures adds { Adds self.now me.old E.said me.new }
        ensures found { Found self.now me.old me.new }
        ensures pieces { pieces_of me.new ≡ C.after }
        ensures deals { deals_of me.new ≡ deals_of me.old }
    {
        self.table.shared.load::<Add<E, C>>(&mut me.seat, 0);
    }

    #[inline]
    fn regroup_as<C: Seated>(&self, me: &mut Witness)
        requires witness { IsWitnessOf self.now me.old }
        requires regroups { Regroups (max_threads_of self.now) (pieces_of me.old) C.after }
        ensures still { IsStill self.now me.old me.new }
        ensures view { view_of me.new ≡ record (view_of me.old) { pieces = C.after } }
    {
        self.table.shared.load::<Regroup<C>>(&mut me.seat, 0);
    }

    // The title of a key is dealt, for the table that `D` says.
    pub(crate) fn deal_as<D: Dealing>(&self, me: &mut Witness, key: usize, limit: usize)
        requires witness { IsWitnessOf self.now me.old }
        requires key { D.key ≡ key }
        requires limit { D.limit ≡ limit }
        requires undealt { pieces_of me.old ≡ Undealt key limit ∷ rest_of (pieces_of me.old) }
        requires below { key < limit }
        ensures still { IsStill self.now me.old me.new }
        ensures view { view_of me.new ≡ with_deal key limit D.home (view_of me.old) }
    {
        self.table.shared.load::<DealTitle<D>>(&mut me.seat, 0);
    }
}
