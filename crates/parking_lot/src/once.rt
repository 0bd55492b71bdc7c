//! This module has `Once` and `TitledOnce`, which run one closure, for the thread that comes first.
//!
//! # The protocol
//!
//! `beginning` has one word, which is 0 until a thread changes it to 1. That thread has the right
//! to run its closure. `phaser` is in phase 0 until the closure has run.
//!
//! - The thread that has the right runs its closure and **then** ends phase 0.
//! - Every other thread waits for the end of phase 0.
//!
//! The head of `phaser` says why no thread is forgotten, and that of `phaser::titled` what is
//! proved of that for a `TitledOnce`.
//!
//! At most one closure runs, which is proved: a closure consumes a `Begun` of its `Once`, and by
//! the law `onces_begin_once` there is at most one.

ghost use Rattle.parking_lot.specs.Onces.{IsBegunOf};

use crate::lot::Lot;
use crate::phaser::titled::TitledPhaser;
use crate::phaser::{Phaser, PlainPhaser};
use crate::titled_lot::TitledLot;
use lock_words::beginning::Beginning;
pub use lock_words::beginning::{AtMostOne, Begun, onces_begin_once};
use lot_threads::NoMemory;
use std::fmt;
use std::fmt::{Debug, Formatter};
use std::sync::Wait;
use std::time::Clock;

// The phase in which no closure has run to its end.
const FIRST: u64 = 0;

/// A `Once` runs one closure, although many threads may ask for it.
///
/// ```
/// once.call_once(rt, |_begun| {
///     came.fetch_add(1, Ordering::SeqCst);
/// });
/// ```
pub type Once<'l> = OnceIn<PlainPhaser<'l>>;

/// A `TitledOnce` is a `Once` of which it is proved that no thread is left in its queue once the
/// closure has run and the word says so.
///
/// Its threads wait in a `TitledLot`, which deals each such `Once` a key.
pub type TitledOnce<'l> = OnceIn<TitledPhaser<'l>>;

/// `OnceIn` is the type behind `Once` and `TitledOnce`.
///
/// Its parameter `P` says in what its threads wait.
#[derive(Drop)]
pub struct OnceIn<P: Phaser> {
    phaser: P,
    beginning: Beginning,
}

impl<'l> Once<'l> {
    /// Creates a `Once` whose closure has not run.
    ///
    /// # Errors
    ///
    /// Returns `NoMemory` if there is not enough memory. It allocates one word.
    pub fn new(lot: &'l Lot) -> Result<Once<'l>, NoMemory> {
        Ok(OnceIn {
            phaser: PlainPhaser::new(lot),
            beginning: Beginning::new(lot.alloc())?,
        })
    }
}

impl<'l> TitledOnce<'l> {
    /// Creates a `Once` whose closure has not run.
    ///
    /// It takes the next key of the lot, and allocates two words and a slot for the title. No other
    /// call allocates, but for the registration of a thread that has to wait, which may make the
    /// table of the lot larger.
    ///
    /// # Errors
    ///
    /// Returns `NoMemory` if there is not enough memory.
    pub fn new<R: Wait>(rt: &R, lot: &'l TitledLot) -> Result<TitledOnce<'l>, NoMemory> {
        let beginning = Beginning::new(lot.alloc())?;
        Ok(OnceIn {
            phaser: TitledPhaser::new(rt, lot)?,
            beginning,
        })
    }
}

impl<P: Phaser> OnceIn<P> {
    /// Runs the closure if no other closure of this `Once` has begun; otherwise drops it and waits
    /// until the other has run.
    ///
    /// When it returns, a closure has run, and its effects are visible to the caller. If one had
    /// run before, the call costs one load.
    ///
    /// A closure that calls the same `Once` waits for ever.
    #[inline]
    pub fn call_once<R: Wait + Clock, F: FnOnce(Begun) + Drop>(&self, rt: &R, f: F)
        requires { (begun : Begun) → IsBegunOf self.now begun → F.pre f begun }
    {
        if !self.is_completed() {
            self.call(rt, f);
        }
    }

    /// Returns whether a closure has run to its end.
    #[inline]
    pub fn is_completed(&self) -> bool {
        self.phaser.phase() != FIRST
    }

    /// Waits until a closure has run.
    ///
    /// It runs none itself, so another thread has to call `call_once`.
    pub fn wait<R: Wait + Clock>(&self, rt: &R) {
        self.phaser.wait(rt, FIRST);
    }

    #[cold]
    fn call<R: Wait + Clock, F: FnOnce(Begun) + Drop>(&self, rt: &R, f: F)
        requires { (begun : Begun) → IsBegunOf self.now begun → F.pre f begun }
    {
        match self.beginning.begin() {
            Some(begun) => {
                f(begun);
                self.phaser.advance(rt, FIRST);
            }
            None => self.wait(rt),
        }
    }
}

impl<P: Phaser> Debug for OnceIn<P> {
    fn fmt<W: fmt::Write>(&self, f: &mut Formatter<W>) -> fmt::Result {
        f.debug_struct("Once").finish_non_exhaustive()
    }
}
