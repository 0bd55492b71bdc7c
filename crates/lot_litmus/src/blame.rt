//! Where a step shows a fault.

use crate::code::{Code, Thread};
use crate::local::Locally;
use crate::perform::Performed;
use crate::reached::Reached;
use crate::state::{Progress, State};
use crate::test::Test;

// How many local instructions a thread does at once, at most.
const MOST_LOCAL: usize = 256;

impl State {
    // How far the thread comes by local instructions, up to one that is a step or shows a fault.
    fn local_end(&self, code: &Code, thread: Thread, progress: Progress) -> Progress {
        let mut progress = progress;
        for _ in 0..MOST_LOCAL {
            match self.go_locally(code, thread, &mut progress) {
                Locally::Advances => (),
                Locally::Rests | Locally::Errs(_) => return progress,
            }
        }
        progress
    }
}

impl Test {
    /// Returns how far the thread comes by a step that shows a fault: up to the instruction that
    /// shows it.
    pub fn progress_at_fault(&self, from: &Reached, thread: Thread) -> Progress {
        let mut state = *from.state();
        let progress = state.threads[thread.index()];
        let code = &self.codes[thread.index()];
        let Some(instruction) = code.at(progress.at) else {
            return progress;
        };
        match state.perform(self, thread, progress, instruction) {
            Performed::Does(progress) => state.local_end(code, thread, progress),
            Performed::Cannot | Performed::Mistakes(_) => progress,
        }
    }
}
