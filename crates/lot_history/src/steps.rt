//! This module has the steps that concern one thread alone, or none, each as a call of its own.
//!
//! A step of a bucket is added by `History::add`, where the bucket is.

ghost use Rattle.std.specs.Prelude.{◌≡◌, ◌<◌, ◌∷◌, [], true, false, Bool, List, ℕ};
ghost use Rattle.lot_machine.specs.Records.{one_less, one_more, times_recorded};
ghost use Rattle.lot_history.specs.Pieces.{IsOneMore, has_number};
ghost use Rattle.lot_history.specs.Views.{rest_of};
ghost use Rattle.lot_history.specs.declared.view.Piece.{Piece};
ghost use Rattle.lot_history.specs.declared.view.Piece.TheVariants.{Numbers, Records, Thread, Timing};
ghost use Rattle.lot_history.specs.Witness.{Adds, Extends, IsStill, IsWitnessOf, deals_of, max_threads_of, pieces_of};

use crate::history::{History, Witness};
use crate::plays::Told;
use lot_base::token::UnparkToken;
use lot_machine::status::Status;
use lot_machine::step::{Answer, Step};
use std::marker::Brand;

impl History {
    /// Adds a trim, which changes nothing in the machine.
    ///
    /// It costs one load.
    pub fn trim(&self, me: &mut Witness)
        requires { IsWitnessOf self.now me.old }
        ensures still { IsStill self.now me.old me.new }
        ensures extends { Extends self.now me.old Step.Trim Answer.Trimmed me.new }
        ensures pieces { pieces_of me.new ≡ pieces_of me.old }
        ensures deals { deals_of me.new ≡ deals_of me.old }
    {
        self.add::<Brand>(me);
    }

    /// Adds that a thread that was taken comes back with its token.
    ///
    /// The first piece of the witness is that of the thread. The witness keeps it, with the status
    /// `Running`. It costs one load.
    pub fn give_back(&self, me: &mut Witness, number: usize, token: UnparkToken)
        requires witness { IsWitnessOf self.now me.old }
        requires taken { pieces_of me.old
            ≡ Thread number (Status.Taken token) ∷ rest_of (pieces_of me.old) }
        ensures still { IsStill self.now me.old me.new }
        ensures extends { Extends self.now me.old
            (Step.Return number) (Answer.Unparked token) me.new }
        ensures pieces { pieces_of me.new
            ≡ Thread number Status.Running ∷ rest_of (pieces_of me.old) }
        ensures deals { deals_of me.new ≡ deals_of me.old }
    {
        self.give_back_as::<Brand>(me, number, token);
    }

    // The same, where the pieces that it leaves have a name. The call above picks them, and what is
    // said of the step.
    fn give_back_as<E: Told>(&self, me: &mut Witness, number: usize, token: UnparkToken)
        ghost after: { List Piece }
        requires witness { IsWitnessOf self.now me.old }
        requires taken { pieces_of me.old
            ≡ Thread number (Status.Taken token) ∷ rest_of (pieces_of me.old) }
        requires after { after ≡ Thread number Status.Running ∷ rest_of (pieces_of me.old) }
        requires said { E.said (Step.Return number) (Answer.Unparked token) }
        ensures still { IsStill self.now me.old me.new }
        ensures adds { Adds self.now me.old E.said me.new }
        ensures pieces { pieces_of me.new ≡ after }
        ensures deals { deals_of me.new ≡ deals_of me.old }
    {
        self.add::<E>(me);
    }

    /// Adds that the least free number is registered.
    ///
    /// The first piece of the witness is that of the numbers. The witness keeps it, with this
    /// number added, and has the three pieces of the thread behind it. The caller picks the numbers
    /// `after`. It costs one load.
    pub fn register(&self, me: &mut Witness, number: usize)
        ghost after: { List Bool }
        requires witness { IsWitnessOf self.now me.old }
        requires below { number < max_threads_of self.now }
        requires free { record {
          uses : List Bool;
          pieces : pieces_of me.old ≡ Numbers uses ∷ rest_of (pieces_of me.old);
          more : IsOneMore uses number after;
          least : (k : ℕ) → k < number → has_number uses k ≡ true;
        } }
        ensures still { IsStill self.now me.old me.new }
        ensures extends { Extends self.now me.old
            Step.Register (Answer.Registered number) me.new }
        ensures pieces { pieces_of me.new
            ≡ Numbers after ∷ Thread number Status.Running ∷ Records number []
            ∷ Timing number false ∷ rest_of (pieces_of me.old) }
        ensures deals { deals_of me.new ≡ deals_of me.old }
    {
        self.register_as::<Brand>(me, number);
    }

    // The same, where the pieces that it leaves have a name, too.
    fn register_as<E: Told>(&self, me: &mut Witness, number: usize)
        ghost after: { List Bool × List Piece }
        requires witness { IsWitnessOf self.now me.old }
        requires below { number < max_threads_of self.now }
        requires free { record {
          uses : List Bool;
          pieces : pieces_of me.old ≡ Numbers uses ∷ rest_of (pieces_of me.old);
          more : IsOneMore uses number after.0;
          least : (k : ℕ) → k < number → has_number uses k ≡ true;
        } }
        requires after { after.1
            ≡ Numbers after.0 ∷ Thread number Status.Running ∷ Records number []
            ∷ Timing number false ∷ rest_of (pieces_of me.old) }
        requires said { E.said Step.Register (Answer.Registered number) }
        ensures still { IsStill self.now me.old me.new }
        ensures adds { Adds self.now me.old E.said me.new }
        ensures pieces { pieces_of me.new ≡ after.1 }
        ensures deals { deals_of me.new ≡ deals_of me.old }
    {
        self.add::<E>(me);
    }

    /// Adds that a running thread gives its number back.
    ///
    /// The first four pieces of the witness are those of the thread, of its records, of its timing
    /// and of the numbers. The witness keeps only the last of them, without this number. The caller
    /// picks the numbers `after`. It costs one load.
    pub fn retire(&self, me: &mut Witness, number: usize)
        ghost after: { List Bool }
        requires witness { IsWitnessOf self.now me.old }
        requires registered { record {
          keys : List ℕ;
          timed : Bool;
          uses : List Bool;
          pieces : pieces_of me.old ≡ Thread number Status.Running ∷ Records number keys
              ∷ Timing number timed ∷ Numbers uses
              ∷ rest_of (rest_of (rest_of (rest_of (pieces_of me.old))));
          more : IsOneMore after number uses;
        } }
        ensures still { IsStill self.now me.old me.new }
        ensures extends { Extends self.now me.old
            (Step.Retire number) Answer.Retired me.new }
        ensures pieces { pieces_of me.new
            ≡ Numbers after ∷ rest_of (rest_of (rest_of (rest_of (pieces_of me.old)))) }
        ensures deals { deals_of me.new ≡ deals_of me.old }
    {
        self.retire_as::<Brand>(me, number);
    }

    // The same, where the pieces that it leaves have a name, too.
    fn retire_as<E: Told>(&self, me: &mut Witness, number: usize)
        ghost after: { List Bool × List Piece }
        requires witness { IsWitnessOf self.now me.old }
        requires registered { record {
          keys : List ℕ;
          timed : Bool;
          uses : List Bool;
          pieces : pieces_of me.old ≡ Thread number Status.Running ∷ Records number keys
              ∷ Timing number timed ∷ Numbers uses
              ∷ rest_of (rest_of (rest_of (rest_of (pieces_of me.old))));
          more : IsOneMore after.0 number uses;
        } }
        requires after { after.1
            ≡ Numbers after.0 ∷ rest_of (rest_of (rest_of (rest_of (pieces_of me.old)))) }
        requires said { E.said (Step.Retire number) Answer.Retired }
        ensures still { IsStill self.now me.old me.new }
        ensures adds { Adds self.now me.old E.said me.new }
        ensures pieces { pieces_of me.new ≡ after.1 }
        ensures deals { deals_of me.new ≡ deals_of me.old }
    {
        self.add::<E>(me);
    }

    /// Adds that a running thread records the key once more.
    ///
    /// The first two pieces of the witness are those of the thread and of its records. The witness
    /// keeps both. The caller picks the keys `after`. It costs one load.
    pub fn acquire(&self, me: &mut Witness, number: usize, key: usize)
        ghost after: { List ℕ }
        requires witness { IsWitnessOf self.now me.old }
        requires running { record {
          keys : List ℕ;
          pieces : pieces_of me.old ≡ Thread number Status.Running ∷ Records number keys
              ∷ rest_of (rest_of (pieces_of me.old));
          more : times_recorded after ≡ one_more (times_recorded keys) key;
        } }
        ensures still { IsStill self.now me.old me.new }
        ensures extends { Extends self.now me.old
            (Step.Acquire number key) Answer.Recorded me.new }
        ensures pieces { pieces_of me.new
            ≡ Thread number Status.Running ∷ Records number after
            ∷ rest_of (rest_of (pieces_of me.old)) }
        ensures deals { deals_of me.new ≡ deals_of me.old }
    {
        self.acquire_as::<Brand>(me, number, key);
    }

    // The same, where the pieces that it leaves have a name, too.
    fn acquire_as<E: Told>(&self, me: &mut Witness, number: usize, key: usize)
        ghost after: { List ℕ × List Piece }
        requires witness { IsWitnessOf self.now me.old }
        requires running { record {
          keys : List ℕ;
          pieces : pieces_of me.old ≡ Thread number Status.Running ∷ Records number keys
              ∷ rest_of (rest_of (pieces_of me.old));
          more : times_recorded after.0 ≡ one_more (times_recorded keys) key;
        } }
        requires after { after.1
            ≡ Thread number Status.Running ∷ Records number after.0
            ∷ rest_of (rest_of (pieces_of me.old)) }
        requires said { E.said (Step.Acquire number key) Answer.Recorded }
        ensures still { IsStill self.now me.old me.new }
        ensures adds { Adds self.now me.old E.said me.new }
        ensures pieces { pieces_of me.new ≡ after.1 }
        ensures deals { deals_of me.new ≡ deals_of me.old }
    {
        self.add::<E>(me);
    }

    /// Adds that a running thread records the key once less, if it had recorded it.
    ///
    /// The first two pieces of the witness are those of the thread and of its records. The witness
    /// keeps both. The caller picks the keys `after`. It costs one load.
    pub fn release(&self, me: &mut Witness, number: usize, key: usize)
        ghost after: { List ℕ }
        requires witness { IsWitnessOf self.now me.old }
        requires running { record {
          keys : List ℕ;
          pieces : pieces_of me.old ≡ Thread number Status.Running ∷ Records number keys
              ∷ rest_of (rest_of (pieces_of me.old));
          less : times_recorded after ≡ one_less (times_recorded keys) key;
        } }
        ensures still { IsStill self.now me.old me.new }
        ensures extends { Extends self.now me.old
            (Step.Release number key) Answer.Released me.new }
        ensures pieces { pieces_of me.new
            ≡ Thread number Status.Running ∷ Records number after
            ∷ rest_of (rest_of (pieces_of me.old)) }
        ensures deals { deals_of me.new ≡ deals_of me.old }
    {
        self.release_as::<Brand>(me, number, key);
    }

    // The same, where the pieces that it leaves have a name, too.
    fn release_as<E: Told>(&self, me: &mut Witness, number: usize, key: usize)
        ghost after: { List ℕ × List Piece }
        requires witness { IsWitnessOf self.now me.old }
        requires running { record {
          keys : List ℕ;
          pieces : pieces_of me.old ≡ Thread number Status.Running ∷ Records number keys
              ∷ rest_of (rest_of (pieces_of me.old));
          less : times_recorded after.0 ≡ one_less (times_recorded keys) key;
        } }
        requires after { after.1
            ≡ Thread number Status.Running ∷ Records number after.0
            ∷ rest_of (rest_of (pieces_of me.old)) }
        requires said { E.said (Step.Release number key) Answer.Released }
        ensures still { IsStill self.now me.old me.new }
        ensures adds { Adds self.now me.old E.said me.new }
        ensures pieces { pieces_of me.new ≡ after.1 }
        ensures deals { deals_of me.new ≡ deals_of me.old }
    {
        self.add::<E>(me);
    }
}
