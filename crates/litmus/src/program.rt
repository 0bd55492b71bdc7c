//! What the arguments ask for.

use crate::check::check;
use crate::files::files_of;
use crate::grade::Grade;
use crate::real;
use crate::request::{Command, Misuse, Request};
use crate::show::show;
use crate::sizes::sizes;
use crate::style::Style;
use std::env;
use std::process::ExitCode;
use std::rt::{Env, Files};
use std::sync::Wait;
use std::thread::Threads;
use std::time::Clock;

const USAGE: &str = "\
usage: litmus check FILE.. [NAME=NUMBER ..]
       litmus show | script | answers FILE [NAME=NUMBER ..]
       litmus sizes FILE.. [NAME=NUMBER ..]
       litmus run FILE ROUNDS [NAME=NUMBER ..]
options: --plain, --times, --reduced, --states NUMBER";

const UNUSABLE: u8 = 2;

// How wide a picture is where the terminal does not say.
const WIDTH: usize = 100;

/// Does what the arguments ask for.
///
/// If they name no command, or are wrong, the program says why and prints its usage on the error
/// output, and ends with status 2.
pub fn run<R>(rt: &R) -> ExitCode
where
    R: Env + Files + Print + Eprint + Threads + Wait + Clock + AllocGlobal + Copy + Send + 'static,
{
    let request = match requested(rt) {
        Ok(request) => request,
        Err(misuse) => {
            let _ = eprintln!(rt; "litmus: {misuse}\n{USAGE}");
            return ExitCode::from(UNUSABLE);
        }
    };
    match run_request(rt, request) {
        Ok(grade) => ExitCode::from(grade.status()),
        Err(error) => {
            let _ = eprintln!(rt; "litmus: {error}");
            ExitCode::from(UNUSABLE)
        }
    }
}

fn requested<R: Env + AllocGlobal>(rt: &R) -> Result<Request, Misuse> {
    let Ok(arguments) = env::args(rt) else {
        return Err(Misuse::NoMemory);
    };
    let mut words = Vec::new(rt.alloc());
    for word in arguments.skip(1) {
        words.push(word)?;
    }
    Request::of(rt.alloc(), words)
}

fn run_request<R>(rt: &R, mut request: Request) -> anyhow::Result<Grade>
where
    R: Env + Files + Print + Eprint + Threads + Wait + Clock + AllocGlobal + Copy + Send + 'static,
{
    if request.command.takes_several() {
        request.files = files_of(rt, request.files.as_slice())?;
    }
    let style = Style {
        look: request.look,
        width: width(rt),
    };
    match request.command {
        Command::Check => check(rt, &request, style),
        Command::Show | Command::Script | Command::Answers => show(rt, &request, style),
        Command::Sizes => sizes(rt, &request),
        Command::Run => real::run(rt, &request),
    }
}

fn width<R: Env + AllocGlobal>(rt: &R) -> usize {
    match env::var(rt, "COLUMNS") {
        Ok(columns) => columns.as_str().parse::<usize>().unwrap_or(WIDTH),
        Err(_) => WIDTH,
    }
}
