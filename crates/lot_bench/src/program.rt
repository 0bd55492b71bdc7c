//! The commands of the program.

use crate::fault::Fault;
use crate::{rows, stress};
use std::alloc::Global;
use std::env;
use std::process::ExitCode;
use std::rt::Env;
use std::sync::Wait;
use std::thread::Threads;
use std::time::Clock;

const USAGE: &str = "usage: lot_bench [ROW]
       lot_bench stress memory [SCENARIO word|thread|yield]
       lot_bench stress cost
       lot_bench stress parks COUNT
       lot_bench stress rest MILLISECONDS
       lot_bench stress race SECONDS SEED
       lot_bench stress locks ROUNDS SEED
       lot_bench stress nested SEED
       lot_bench stress deep SEED";

const USAGE_STATUS: u8 = 2;

/// Follows the arguments. A failure is told on the error output, with the status 1; words that name
/// no command are answered by the usage lines there, with the status 2.
pub fn run<
    R: Env + Print + Eprint + AllocGlobal + Threads + Wait + Clock + Copy + Send + Sync + 'static,
>(rt: &R) -> ExitCode {
    match follow_words(rt) {
        Ok(()) => ExitCode::SUCCESS,
        Err(fault) => tell(rt, fault),
    }
}

fn tell<R: Eprint>(rt: &R, fault: Fault) -> ExitCode {
    let (what, status) = match fault {
        Fault::UnknownWords => (USAGE, ExitCode::from(USAGE_STATUS)),
        Fault::NoMemory => ("NoMemory", ExitCode::FAILURE),
        Fault::Wrong(wrong) => (wrong.text(), ExitCode::FAILURE),
    };
    let _ = eprintln!(rt; "{what}");
    status
}

fn follow_words<
    R: Env + Print + Eprint + AllocGlobal + Threads + Wait + Clock + Copy + Send + Sync + 'static,
>(rt: &R) -> Result<(), Fault> {
    let Ok(words) = env::args(rt) else {
        return Err(Fault::UnknownWords);
    };
    let mut words = words.skip(1);
    let (first, second) = (words.next(), words.next());
    let (third, fourth) = (words.next(), words.next());
    let last = (text(&third), text(&fourth));
    follow(rt, rt.alloc(), text(&first), text(&second), last)
}

// There is none behind the last word.
fn text(word: &Option<String>) -> &str {
    match word {
        Some(word) => word.as_str(),
        None => "",
    }
}

// Follows the first word, the second, and those behind them.
fn follow<R: Print + Eprint + Threads + Wait + Clock + Copy + Send + Sync + 'static>(
    rt: &R,
    alloc: Global,
    first: &str,
    second: &str,
    last: (&str, &str),
) -> Result<(), Fault> {
    if first == "stress" {
        stress::run(rt, alloc, second, last.0, last.1)
    } else if !second.is_empty() {
        Err(Fault::UnknownWords)
    } else if first.is_empty() {
        rows::print_names(rt)
    } else {
        rows::print_cost(rt, alloc, first)
    }
}
