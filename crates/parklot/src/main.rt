//! The program: `parklot run` answers the steps that it reads, one a line, and `parklot threads`
//! parks and unparks threads on a lot, and prints what it saw.
#![tactic(auto)]

mod program;
mod session;
mod threads;

use std::process::ExitCode;

fn main(rt: HostRuntime) -> ExitCode {
    program::run(&rt)
}
