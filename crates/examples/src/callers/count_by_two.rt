//! A count of two threads under a mutex that forgets no waiting thread.

use parking_lot::{LotError, TitledLot, TitledMutex};
use std::alloc::AllocGlobal;
use std::sync::Wait;
use std::thread;
use std::thread::Threads;

/// Lets each of two threads count to a thousand, and returns what they counted together.
pub fn count_by_two<R: Threads + Wait + AllocGlobal + Sync>(rt: &R) -> Result<u64, LotError> {
    let lot = TitledLot::new(rt.alloc(), 2)?;
    let total = TitledMutex::new(rt, &lot, 0u64)?;
    let count = || {
        for _ in 0..1000u32 {
            let mut total = total.lock(rt);
            *total = total.wrapping_add(1);
        }
    };
    thread::join(rt, &count, &count);
    let sum = *total.lock(rt);
    Ok(sum)
}
