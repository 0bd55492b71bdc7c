//! This module has what a witness knows, and the pieces of the machine that it alone may change.
//!
//! No value of these types is ever created. Only proofs speak of them.

use crate::deal::Deal;
use crate::event::Event;
use lot_base::token::ParkToken;
use lot_machine::status::Status;
use std::collections::LinkedList;

/// A `Standing` is a thread that is in a list.
pub struct Standing {
    /// The key of the list.
    pub key: u64,

    /// The number of the thread.
    pub number: u64,

    /// The token that filters see.
    pub park_token: ParkToken,

    /// Says whether it waits with a timeout.
    pub timed: bool,

    /// Says whether its deadline has passed.
    pub late: bool,
}

/// A `Piece` is a part of the machine, as it is. Only its owner may change it.
pub enum Piece {
    /// The lists of all keys of one place in a table of this size, as one list, with the status of
    /// each thread in it. The size comes first, then the place.
    Lists(u64, u64, LinkedList<Standing>),

    /// The status of a thread that is in no list.
    Thread(u64, Status),

    /// The keys that a thread has recorded.
    Records(u64, LinkedList<u64>),

    /// Which numbers are registered, and the status and records of all numbers that are not.
    Numbers(LinkedList<bool>),

    /// As `Lists`, where each key below a limit, which comes first, has a title. The list of such a
    /// key is changed by nobody without its title.
    TitledLists(u64, u64, u64, LinkedList<Standing>),

    /// The title of a key, which was dealt, and the numbers of all threads that stand in the key's
    /// list, in order.
    Title(u64, LinkedList<u64>),

    /// The titles of all keys from the first up to but not the second, which were not dealt. Nobody
    /// stands in their lists.
    Undealt(u64, u64),

    /// Whether a thread waits with a timeout, where it waits. Nobody lets the thread enter a list
    /// without this piece.
    Timing(u64, bool),
}

/// A `View` is what a witness knows.
pub struct View {
    /// The beginning of the history that the witness has seen.
    pub seen: LinkedList<Event>,

    /// A beginning of the history that another witness has seen and told.
    pub heard: LinkedList<Event>,

    /// The events that the witness added itself.
    pub mine: LinkedList<Event>,

    /// The pieces of the machine that the witness alone may change.
    pub pieces: LinkedList<Piece>,

    /// Titles that were dealt, as far as it knows.
    pub deals: LinkedList<Deal>,
}
