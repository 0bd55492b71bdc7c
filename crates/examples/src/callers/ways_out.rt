//! Ways out of a block with a guard. Each lets the mutex go.

use parking_lot::Mutex;
use std::num::ParseIntError;
use std::sync::Wait;
use std::time::Clock;

/// Adds the number that the text tells. A text that tells none ends it by `?`.
pub fn add<R: Wait + Clock>(
    rt: &R,
    total: &Mutex<'_, u64>,
    text: &str,
) -> Result<(), ParseIntError> {
    let mut total = total.lock(rt);
    let number: u64 = text.parse()?;
    *total = total.wrapping_add(number);
    Ok(())
}

/// Takes a seat, and returns whether one was free.
pub fn take_seat<R: Wait + Clock>(rt: &R, free: &Mutex<'_, u32>) -> bool {
    let mut free = free.lock(rt);
    if *free == 0 {
        return false;
    }
    *free -= 1;
    true
}

/// Takes a seat in the first row that has one, and ends there by `break`. Answers in how many rows
/// it looked before.
pub fn take_seat_in_rows<R: Wait + Clock>(rt: &R, rows: &[Mutex<'_, u32>]) -> usize {
    let mut looked = 0usize;
    for row in rows {
        let mut free = row.lock(rt);
        if *free > 0 {
            *free -= 1;
            break;
        }
        looked = looked.wrapping_add(1);
    }
    looked
}

/// Adds to a total, and then to another: the first guard ends with its block.
pub fn add_to_both<R: Wait + Clock>(
    rt: &R,
    first: &Mutex<'_, u64>,
    second: &Mutex<'_, u64>,
    number: u64,
) {
    {
        let mut first = first.lock(rt);
        *first = first.wrapping_add(number);
    }
    let mut second = second.lock(rt);
    *second = second.wrapping_add(number);
}
