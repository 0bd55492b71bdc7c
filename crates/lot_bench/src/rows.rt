//! The rows: what each costs is measured and printed.

mod alone;
mod bare;
mod by_turns;
mod crowd;
mod fair;
mod gathering;
mod locks;
mod lots;
mod measure;
mod row;
mod sync;
mod thousand;
mod titled;
mod turns;
mod word_mutex;

use crate::fault::{Fault, Wrong};
use crate::rows::row::{ROWS, Row, name_of, named};
use crate::rows::thousand::thousand_threads;
use lot_threads::WordParker;
use std::alloc::Global;
use std::sync::Wait;
use std::thread::Threads;
use std::time::Clock;

/// Prints the names of all rows.
pub fn print_names<R: Print>(rt: &R) -> Result<(), Fault> {
    for line in ROWS.lines() {
        println!(rt; "{}", name_of(line))?;
    }
    Ok(())
}

/// Measures the row of this name, and prints the name and hundredths of a nanosecond.
pub fn print_cost<R: Print + Threads + Wait + Clock + Copy + Send + Sync + 'static>(
    rt: &R,
    alloc: Global,
    name: &str,
) -> Result<(), Fault> {
    let Some((subject, deed, row)) = named(name) else {
        return Err(Fault::UnknownWords);
    };
    match cost_of(rt, alloc, subject, deed, &row) {
        Some(cost) => Ok(println!(rt; "{name} {}.{:02}", cost / 100, cost % 100)?),
        None => Err(Fault::Wrong(Wrong::Row)),
    }
}

// Hundredths of a nanosecond for each operation. `None` says that memory, a thread or the clock
// could not be had, or that a wait by turns or a call did not end as it should.
fn cost_of<R: Threads + Wait + Clock + Copy + Send + Sync + 'static>(
    rt: &R,
    alloc: Global,
    subject: &str,
    deed: &str,
    row: &Row,
) -> Option<u64> {
    let time = match subject {
        "bare" => bare::time_of(rt, alloc, deed, row)?,
        "sync" => sync::time_of(rt, alloc, deed, row)?,
        "titled" => titled::time_of(rt, alloc, deed, row)?,
        "new" => thousand_threads::<WordParker, R>(rt, alloc, row.threads)?,
        "crowd" => crowd::time_of::<WordParker, R>(rt, alloc, deed, row)?,
        _ => lots::time_of::<WordParker, R>(rt, alloc, deed, row)?,
    };
    time.checked_mul(100)?.checked_div(row.operations as u64)
}
