//! Two accounts that share a hundred.

ghost use Rattle.std.specs.Prelude.{◌≡◌, ◌+◌, ◌≤◌};

use lot_threads::NoMemory;
use parking_lot::{Lot, Mutex};
use std::sync::Wait;
use std::time::Clock;

/// What the two accounts have.
#[derive(Drop)]
pub struct Accounts {
    first: u64,
    second: u64,
    ghost nothing_lost: { first + second ≡ 100 },
}

impl Accounts {
    // Moves the amount from the first account to the second, or answers false if it is not there.
    fn give(&mut self, amount: u64) -> bool {
        let is_there = amount <= self.first;
        if is_there {
            self.first -= amount;
            self.second += amount;
        }
        is_there
    }
}

/// The accounts, of which the first has all.
pub fn new_accounts(lot: &Lot) -> Result<Mutex<'_, Accounts>, NoMemory> {
    Mutex::new(
        lot,
        Accounts {
            first: 100,
            second: 0,
        },
    )
}

/// Moves the amount from the first account to the second, or answers false if it is not there.
pub fn give<R: Wait + Clock>(rt: &R, accounts: &Mutex<'_, Accounts>, amount: u64) -> bool {
    accounts.lock(rt).give(amount)
}

/// What the second account has.
pub fn second<R: Wait + Clock>(rt: &R, accounts: &Mutex<'_, Accounts>) -> u64
    ensures { result ≤ 100 }
{
    accounts.lock(rt).second
}
