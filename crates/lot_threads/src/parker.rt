//! This module has the parkers of a lot's threads.
//!
//! By a parker, an unpark hands a thread its node, and with it the thread's piece of the history.

use lot_base::thread_parker::{self, ParkerT, Payload};
use lot_history::history::Part;

/// A `Letter` is handed to an unparked thread together with its node.
///
/// It has the thread's piece of the history, which says that the thread was taken with the token
/// that is in the node. It has no bytes.
#[derive(Drop)]
pub struct Letter {
    pub(crate) part: Part,
}

impl Payload for Letter {
    type Home = Part;

    ghost use Rattle.lot_threads.specs.Cells.{FitsLetter};

    ghost fits = { FitsLetter };
}

/// A `ThreadParkerT` is a parker for the threads of a lot.
pub trait ThreadParkerT: ParkerT<Payload = Letter> {}

/// A `WordParker` has one word, on which its thread sleeps.
pub type WordParker = thread_parker::WordParker<Letter>;

/// A `ThreadParker` has a mutex and a condition variable, on which its thread sleeps.
pub type ThreadParker = thread_parker::ThreadParker<Letter>;

/// A `YieldParker` does not sleep: its thread yields the processor until it was unparked.
pub type YieldParker = thread_parker::YieldParker<Letter>;

impl<P: ParkerT<Payload = Letter>> ThreadParkerT for P {}
