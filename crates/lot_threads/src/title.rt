//! This module has the titles of keys, which tell who waits on them.

use lot_history::history::Part;

/// A `Title` tells who is in the list of a key of a `TitledLot`. No call changes the list without
/// it.
///
/// It was dealt for the table of one lock, and has no bytes. If it is dropped, the list can
/// never change again: only a lock's own contracts can say that its title is never dropped.
#[derive(Drop)]
pub struct Title {
    pub(crate) part: Part,
}
