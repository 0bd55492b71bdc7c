//! The program: protocols of locks as texts, looked at on every schedule of their threads.
#![tactic(auto)]

mod aftermath;
mod case;
mod cell;
mod check;
mod closing;
mod expected;
mod files;
mod frame;
mod grade;
mod layout;
mod names;
mod note;
mod parted;
mod picture;
mod program;
mod real;
mod request;
mod round;
mod scene;
mod script;
mod show;
mod sizes;
mod style;
mod summary;
mod text;
mod ticker;
mod trial;
mod walk;

use std::process::ExitCode;

fn main(rt: HostRuntime) -> ExitCode {
    program::run(&rt)
}
