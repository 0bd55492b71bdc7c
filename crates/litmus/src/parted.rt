//! What an unpark or a requeue tells of those who waited.

use crate::names::count_of;
use crate::note::Taken;
use lot_litmus::code::{Key, Moves, THREADS, Thread};

/// How many were unparked and how many moved, and whether others are left.
#[derive(Clone, Copy)]
pub struct Parted {
    pub unparked: u8,
    pub moved: u8,
    pub has_more: bool,
}

impl Parted {
    /// What the step tells of those who waited on the key. One that unparks alone moves nobody.
    pub fn of(taken: Taken<'_>, key: Key, moves: Moves) -> Parted {
        let unparked = unparked_by(taken);
        let rest = count_of(taken.before, key).saturating_sub(unparked);
        let moved = match moves {
            Moves::OneUnparkedRestMoved | Moves::AllMoved => rest,
            Moves::OneMoved => rest.min(1),
            Moves::Nobody | Moves::OneUnparked => 0,
        };
        Parted {
            unparked,
            moved,
            has_more: rest > moved && moves != Moves::Nobody,
        }
    }
}

// How many threads the step unparks.
fn unparked_by(taken: Taken<'_>) -> u8 {
    let mut count = 0u8;
    for number in 0..THREADS as u8 {
        if taken.unparks(Thread { number }) {
            count = count.saturating_add(1);
        }
    }
    count
}
