//! Threads that go round for ever.

use crate::walk::{Ending, Walk};
use lot_litmus::code::{THREADS, Thread};
use lot_litmus::test::Test;
use std::alloc::AllocError;

// How many steps are looked at for a round.
const MOST_STEPS: usize = 400;

/// Lets the threads go on in turn, until all is as it was before. Where that is not soon, the walk
/// stays as it was.
pub fn go_round(test: &Test, walk: &mut Walk) -> Result<Ending, AllocError> {
    let from = walk.steps.len();
    for _ in 0..MOST_STEPS {
        if !take_turn(test, walk)? {
            return Ok(Ending::Asleep);
        }
        if let Some(first) = walk.as_before(from) {
            return Ok(Ending::Round { first });
        }
    }
    walk.cut(from);
    Ok(Ending::Open)
}

// Lets the next thread do a step that can do one. Says whether there is one.
fn take_turn(test: &Test, walk: &mut Walk) -> Result<bool, AllocError> {
    let last = walk.last_thread();
    for ahead in 1..=THREADS as u8 {
        let thread = behind(last, ahead);
        if walk.step(test, thread)? {
            return Ok(true);
        }
    }
    Ok(false)
}

// The thread that comes so many behind this one.
fn behind(thread: Thread, ahead: u8) -> Thread {
    Thread {
        number: thread.number.wrapping_add(ahead) % THREADS as u8,
    }
}

impl Walk {
    // The first step, from this one on, before which all was as it is now.
    fn as_before(&self, from: usize) -> Option<usize> {
        let now = self.last()?;
        for index in from..self.steps.len() {
            let state = self.state(index)?;
            if self.was_turn_of(index, self.last_thread()) && state.is_same(now) {
                return Some(index);
            }
        }
        None
    }

    // Whether the thread did the step before this one.
    fn was_turn_of(&self, index: usize, thread: Thread) -> bool {
        let Some(before) = index.checked_sub(1) else {
            return false;
        };
        match self.steps.get(before) {
            Some(last) => last.number == thread.number,
            None => false,
        }
    }
}
