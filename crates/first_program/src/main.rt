//! Four threads count under a mutex.
#![tactic(auto)]

use parking_lot::{Lot, Mutex};
use std::thread;

fn main(rt: HostRuntime) -> anyhow::Result<()> {
    let lot = Lot::new(rt.alloc(), 4)?;
    let total = Mutex::new(&lot, 0u64)?;
    let count = || {
        for _ in 0..1000u32 {
            let mut total = total.lock(&rt);
            *total = total.wrapping_add(1);
        }
    };
    let count_in_two = || {
        thread::join(&rt, &count, &count);
    };
    thread::join(&rt, &count_in_two, &count_in_two);
    println!(rt; "{}", *total.lock(&rt))?;
    Ok(())
}
