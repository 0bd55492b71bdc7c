//! Whether what came is what was expected.

use crate::grade::Grade;
use crate::names::{is_looker, line_at};
use crate::trial::{Outcome, Trial};
use crate::walk::{Ending, Walk};
use lot_litmus::code::{THREADS, Thread};
use lot_litmus::parse::{Parsed, Sleeper, Verdict};

impl Trial {
    /// How it went where nothing was expected.
    pub fn grade(&self) -> Grade {
        match self.outcome {
            Outcome::Unknown => Grade::Unexpected,
            _ => Grade::Expected,
        }
    }

    /// Whether what came is as the verdict says.
    pub fn is_as(&self, verdict: &Verdict) -> bool {
        match verdict {
            Verdict::Safe => matches!(self.outcome, Outcome::Safe { .. }),
            Verdict::Stuck(sleeper) => match &self.outcome {
                Outcome::Wrong(walk) => is_stuck_as(&self.parsed, walk, sleeper.as_ref()),
                _ => false,
            },
            Verdict::Fails(line) => match (self.failing_line(), line) {
                (Some(found), Some(line)) => found == *line,
                (found, None) => found.is_some(),
                (None, Some(_)) => false,
            },
        }
    }

    /// The line at which there is a fault.
    pub fn failing_line(&self) -> Option<usize> {
        match &self.outcome {
            Outcome::Wrong(walk) => match walk.ending {
                Ending::Fault { progress, .. } => {
                    Some(line_at(&self.parsed, walk.last_thread(), progress.at))
                }
                _ => None,
            },
            Outcome::Unmet { statement } => Some(self.parsed.statements.get(*statement)?.line),
            _ => None,
        }
    }
}

// Whether the walk shows no fault, and at its end somebody waits as the text says, if it says so.
fn is_stuck_as(parsed: &Parsed, walk: &Walk, sleeper: Option<&Sleeper>) -> bool {
    if let Ending::Fault { .. } = walk.ending {
        return false;
    }
    match sleeper {
        Some(sleeper) => is_asleep(parsed, walk, sleeper),
        None => true,
    }
}

fn is_asleep(parsed: &Parsed, walk: &Walk, sleeper: &Sleeper) -> bool {
    let Some(state) = walk.last() else {
        return false;
    };
    for number in 0..THREADS as u8 {
        let thread = Thread { number };
        if !is_looker(thread)
            && is_named(parsed, thread, sleeper.thread.as_str())
            && state.queues[sleeper.key.index()].has(thread)
        {
            return true;
        }
    }
    false
}

fn is_named(parsed: &Parsed, thread: Thread, name: &str) -> bool {
    match parsed.threads.get(thread.index()) {
        Some(text) => text.name.as_str() == name,
        None => false,
    }
}
