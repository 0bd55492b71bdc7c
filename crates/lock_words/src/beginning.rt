//! This module has the beginning of a `Once`: a word that says whether a closure has begun, and the
//! right to be that closure, of which there is one.

ghost use Rattle.std.specs.Prelude.{◌≡◌, Bool, IfSome, true};
ghost use Rattle.atomic_table.specs.Table.{State};
ghost use Rattle.lock_words.specs.OnceRule.{BeginsOnce};

use atomic_table::{Play, Seat, Table, TableRule};
use lot_word_lock::no_memory::NoMemory;
use std::alloc::Global;

// The index of the only word.
const WORD: usize = 0;

// The word while no closure has begun, and afterwards.
const IDLE: u64 = 0;

const BEGUN: u64 = 1;

/// `AtMostOne` is the rule of the word, and is for proofs alone: the word says how many callers
/// have begun, which is one at most.
pub struct AtMostOne;

impl TableRule<(), bool, ()> for AtMostOne {
    ghost use Rattle.std.specs.Prelude.{false};
    ghost use Rattle.lock_words.specs.OnceRule.{CountsBegun};

    ghost holds = { λ _ state. CountsBegun state };

    ghost first = { λ _. false };
}

struct Arrive;

impl Play<(), bool> for Arrive {
    ghost use Rattle.lock_words.specs.OnceRule.{ArriveTells};

    ghost then = { ArriveTells };
}

struct Begin;

impl Play<(), bool> for Begin {
    ghost use Rattle.lock_words.specs.OnceRule.{BeginTells};

    ghost then = { BeginTells };
}

/// A `Begun` is the right to run the closure of a `Once`. The closure gets it as its argument.
///
/// It can be neither cloned nor copied, and by `onces_begin_once` a `Once` gives one at most.
#[derive(Drop)]
pub struct Begun {
    seat: Seat<(), bool>,
    ghost begun: { seat.me.0 ≡ true },
}

/// A `Beginning` gives out one `Begun`.
#[derive(Drop)]
pub struct Beginning {
    table: Table<(), bool, (), AtMostOne, Global>,
    ghost sized: { table.shared.table_id.words ≡ 1 },
}

impl Beginning {
    ghost use Rattle.lock_words.specs.Onces.{IsBegunAt};

    /// Creates one at which nobody has begun. It allocates a block for the word.
    pub fn new(alloc: Global) -> Result<Beginning, NoMemory> {
        let (table, _seat) = Table::of_words(alloc, &[IDLE], &())?;
        Ok(Beginning { table })
    }

    /// Gives the right to run the closure to the first caller, and `None` to all others.
    pub fn begin(&self) -> Option<Begun>
        ensures { IfSome result (IsBegunAt self.now) }
    {
        let (_, mut seat) = self.table.shared.load_new_seat::<Arrive>(WORD);
        let word = self
            .table
            .shared
            .compare_exchange::<Begin>(&mut seat, WORD, IDLE, BEGUN);
        if word == IDLE {
            Some(Begun { seat })
        } else {
            None
        }
    }
}

/// States that no two callers begin at one `Once`, by the rule that the word of every `Once` keeps.
///
/// Each `Begun` is a caller that has begun, also after it was dropped.
pub fn onces_begin_once()
    ensures { (state : State (Unit {0}) Bool)
        → ⟦<AtMostOne as TableRule<(), bool, ()>>⟧.holds tt state → BeginsOnce state }
{}
