//! A value that many read and few write.

use parking_lot::{RwLock, RwLockWriteGuard};
use std::sync::Wait;
use std::time::Clock;

/// Notes a number, and tells the greatest so far. Others may read as soon as it is noted.
pub fn note<R: Wait + Clock>(rt: &R, greatest: &RwLock<'_, u32>, number: u32) -> u32 {
    let mut writing = greatest.write(rt);
    *writing = number.max(*writing);
    let reading = RwLockWriteGuard::downgrade(writing);
    *reading
}

/// The greatest so far.
pub fn greatest<R: Wait + Clock>(rt: &R, greatest: &RwLock<'_, u32>) -> u32 {
    *greatest.read(rt)
}
