//! The program: `lot_bench ROW` measures one row, and `lot_bench` alone prints the rows' names.
//!
//! `lot_bench stress memory SCENARIO PARKER` does one scenario whose requests for memory are
//! counted and refused from outside, `lot_bench stress parks COUNT` parks many times in one thread,
//! `lot_bench stress cost` makes calls that are to cost little, `lot_bench stress rest
//! MILLISECONDS` lets threads sleep, `lot_bench stress race SECONDS SEED` lets them race,
//! `lot_bench stress locks ROUNDS SEED` lets them share locks, and `lot_bench stress nested SEED`
//! and `lot_bench stress deep SEED` compare the lot of threads with the exclusive one, call by
//! call.
#![tactic(auto)]

mod calls;
mod fault;
mod program;
mod queue;
mod rows;
mod stress;
mod threads;

use std::process::ExitCode;

fn main(rt: HostRuntime) -> ExitCode {
    program::run(&rt)
}
