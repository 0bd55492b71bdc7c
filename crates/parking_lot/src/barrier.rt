//! This module has `Barrier` and `TitledBarrier`, points at which threads wait for one another.
//!
//! # The protocol
//!
//! Each round is a phase of `phaser`. `here` counts the threads that have come in this round.
//!
//! - A thread that arrives reads the phase, and **then** adds itself to `here`.
//! - The last thread of a round sets `here` to 0, and **then** ends the phase. It leads the round.
//! - Every other thread waits for the end of the phase.
//!
//! The head of `phaser` says why no thread is forgotten, and that of `phaser::titled` what is
//! proved of that for a `TitledBarrier`.
//!
//! No thread is counted twice in a round, by type: there are as many parties as the barrier wants,
//! and a party is borrowed while it waits. `here` is 0 before the next round can begin, because
//! nobody comes again before the phase has ended.

ghost use Rattle.std.specs.Iterator.{at_most};
ghost use Rattle.std.specs.Prelude.{◌≡◌, ◌+◌, IfNone, IfOk, IfSome};
ghost use Rattle.parking_lot.specs.Locks.{barrier_of, led, left_of, meets_at, parties_of};

use crate::lot::Lot;
use crate::phaser::titled::TitledPhaser;
use crate::phaser::{Phaser, PlainPhaser};
use crate::titled_lot::TitledLot;
use lot_threads::NoMemory;
use std::fmt;
use std::fmt::{Debug, Formatter};
use std::sync::Wait;
use std::sync::atomic::{AtomicUsize, Ordering};
use std::time::Clock;

/// A `Barrier` makes a fixed number of threads wait until all of them have come.
///
/// When all have come, all go on, and the barrier can be used again. Threads wait at it by its
/// parties: `parties` hands them out, one for each thread.
pub type Barrier<'l> = BarrierIn<PlainPhaser<'l>>;

/// A `TitledBarrier` is a `Barrier` of which it is proved that none of its threads is left in the
/// queue once their round has ended.
///
/// Its threads wait in a `TitledLot`, which deals each such barrier a key.
pub type TitledBarrier<'l> = BarrierIn<TitledPhaser<'l>>;

/// `BarrierIn` is the type behind `Barrier` and `TitledBarrier`.
///
/// Its parameter `P` says in what its threads wait.
#[derive(Drop)]
pub struct BarrierIn<P: Phaser> {
    phaser: P,
    parties: usize,
    here: AtomicUsize,
}

/// `Parties` iterates over the parties of a `Barrier` that were not handed out yet.
pub type Parties<'a, 'l> = PartiesIn<'a, PlainPhaser<'l>>;

/// `TitledParties` iterates over those of a `TitledBarrier`.
pub type TitledParties<'a, 'l> = PartiesIn<'a, TitledPhaser<'l>>;

/// `PartiesIn` is the type behind `Parties` and `TitledParties`.
#[derive(Drop)]
pub struct PartiesIn<'a, P: Phaser> {
    barrier: &'a BarrierIn<P>,
    left: usize,
}

/// A `Party` is the right of one thread to wait at a `Barrier`.
///
/// A round ends when all parties of the barrier wait. So if one is dropped, or never handed out,
/// the others wait for ever.
pub type Party<'a, 'l> = PartyIn<'a, PlainPhaser<'l>>;

/// A `TitledParty` is the right of one thread to wait at a `TitledBarrier`.
pub type TitledParty<'a, 'l> = PartyIn<'a, TitledPhaser<'l>>;

/// `PartyIn` is the type behind `Party` and `TitledParty`.
#[derive(Drop)]
pub struct PartyIn<'a, P: Phaser> {
    barrier: &'a BarrierIn<P>,
}

/// A `BarrierWaitResult` says whether a thread led the round that has ended.
#[derive(Clone, Copy, Debug, PartialEq, Eq)]
pub struct BarrierWaitResult {
    role: Role,
}

#[derive(Clone, Copy, Debug, PartialEq, Eq)]
enum Role {
    Leader,
    Follower,
}

impl<'l> Barrier<'l> {
    /// Creates a barrier for the given number of threads.
    ///
    /// With 0 parties nobody can wait at it, and with 1 nobody has to wait.
    ///
    /// # Errors
    ///
    /// Returns `NoMemory` if there is not enough memory. This version allocates nothing.
    pub fn new(lot: &'l Lot, parties: usize) -> Result<Barrier<'l>, NoMemory>
        ensures { IfOk result (λ barrier. parties_of barrier ≡ parties) }
    {
        Ok(BarrierIn {
            phaser: PlainPhaser::new(lot),
            parties,
            here: AtomicUsize::new(0),
        })
    }
}

impl<'l> TitledBarrier<'l> {
    /// Creates a barrier for the given number of threads.
    ///
    /// It takes the next key of the lot, and allocates a word and a slot for the title. No other
    /// call allocates, but for the registration of a thread that has to wait, which may make the
    /// table of the lot larger.
    ///
    /// # Errors
    ///
    /// Returns `NoMemory` if there is not enough memory.
    pub fn new<R: Wait>(
        rt: &R,
        lot: &'l TitledLot,
        parties: usize,
    ) -> Result<TitledBarrier<'l>, NoMemory>
        ensures { IfOk result (λ barrier. parties_of barrier ≡ parties) }
    {
        Ok(BarrierIn {
            phaser: TitledPhaser::new(rt, lot)?,
            parties,
            here: AtomicUsize::new(0),
        })
    }
}

impl<P: Phaser> BarrierIn<P> {
    /// Hands out the parties of the barrier, as many as it was created for.
    ///
    /// Here each thread waits once, and learns whether it led the round:
    ///
    /// ```
    /// let mut parties = Vec::new(alloc);
    /// for party in barrier.parties() {
    ///     parties.push(party)?;
    /// }
    /// thread::map_vec(rt, parties, &|mut party: Party<'_, '_>| party.wait(rt).is_leader())?;
    /// ```
    ///
    /// It borrows the barrier, so there are no other parties while one of these lives.
    pub fn parties(&mut self) -> PartiesIn<'_, P>
        ensures all { left_of result ≡ parties_of self.old }
        ensures barrier { barrier_of result ≡ self.old }
    {
        let barrier: &BarrierIn<P> = self;
        PartiesIn {
            barrier,
            left: barrier.parties,
        }
    }

    // Counts the thread, and answers what it is in its round once all have come.
    fn wait<R: Wait + Clock>(&self, rt: &R) -> Role {
        let round = self.phaser.phase();
        let before = self.here.fetch_add(1, Ordering::SeqCst);
        if before.wrapping_add(1) == self.parties {
            self.here.store(0, Ordering::SeqCst);
            self.phaser.advance(rt, round);
            Role::Leader
        } else {
            self.phaser.wait(rt, round);
            Role::Follower
        }
    }
}

impl<'a, P: Phaser> Iterator for PartiesIn<'a, P> {
    type Item = PartyIn<'a, P>;

    ghost remaining = { λ parties. at_most parties.left };

    ghost next_gives = { λ old result new.
        IfSome result (λ party. (left_of new + 1 ≡ left_of old) × (meets_at party ≡ barrier_of old))
        × IfNone result ((left_of old ≡ 0) × (left_of new ≡ 0))
        × (barrier_of new ≡ barrier_of old) };

    fn next(&mut self) -> Option<PartyIn<'a, P>> {
        self.left = self.left.checked_sub(1)?;
        Some(PartyIn {
            barrier: self.barrier,
        })
    }
}

impl<P: Phaser> PartyIn<'_, P> {
    /// Waits until all parties of the barrier wait.
    pub fn wait<R: Wait + Clock>(&mut self, rt: &R) -> BarrierWaitResult {
        BarrierWaitResult {
            role: self.barrier.wait(rt),
        }
    }
}

impl BarrierWaitResult {
    /// Returns whether this thread led the round: in each round one thread does, the one that came
    /// last.
    pub fn is_leader(&self) -> bool
        ensures { result ≡ led self.now }
    {
        match self.role {
            Role::Leader => true,
            Role::Follower => false,
        }
    }
}

impl<P: Phaser> Debug for BarrierIn<P> {
    fn fmt<W: fmt::Write>(&self, f: &mut Formatter<W>) -> fmt::Result {
        f.debug_struct("Barrier").finish_non_exhaustive()
    }
}
