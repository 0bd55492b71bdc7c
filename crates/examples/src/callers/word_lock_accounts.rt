//! Two accounts that share a hundred.

ghost use Rattle.std.specs.Prelude.{◌≡◌, ◌+◌};

use lot_word_lock::no_memory::NoMemory;
use lot_word_lock::word_lock::{Fits, WordLock};
use std::alloc::Global;
use std::sync::Wait;

/// What the two accounts have.
#[derive(Drop)]
pub struct Accounts {
    first: u64,
    second: u64,
}

impl Fits for Accounts {
    type Key = ();

    ghost fits = { λ _ accounts. accounts.first + accounts.second ≡ 100 };
}

/// The accounts, of which the first has all.
pub fn new_accounts(alloc: Global) -> Result<WordLock<Accounts>, NoMemory> {
    WordLock::new(
        alloc,
        Accounts {
            first: 100,
            second: 0,
        },
        &(),
    )
}

/// Moves the amount from the first account to the second, or answers false if it is not there.
pub fn give<R: Wait>(rt: &R, lock: &WordLock<Accounts>, amount: u64) -> bool {
    let mut held = lock.lock(rt);
    let is_there = amount <= held.value.first;
    if is_there {
        held.value.first -= amount;
        held.value.second += amount;
    }
    lock.unlock(held);
    is_there
}
