//! Steps of a thread that are done at once with those before them.
//!
//! A step that could as well come later, past the steps of others, need not be seen by itself, and
//! the thread goes on from there. Nor need one that could as well come earlier.

use crate::code::{Instruction, Key, Thread, Validation};
use crate::reached::Reached;
use crate::state::{Progress, Standing, State};
use crate::step::Next;
use crate::test::Test;

// How many steps a thread does at once, at most.
const MOST_STEPS: usize = 64;

// Whether a step could as well come at another time, past the steps of others.
#[derive(Clone, Copy, PartialEq, Eq)]
enum Mover {
    Later,
    Earlier,
    Either,
    Neither,
}

/// Steps of a thread that are done at once.
#[derive(Drop)]
pub(crate) struct Round {
    /// What the last of them comes to.
    pub next: Next,

    /// How many they are.
    pub steps: usize,
}

impl Test {
    /// Lets the thread take steps as long as the others need not see what is between.
    pub(crate) fn round(&self, from: &Reached, thread: Thread) -> Round {
        let mut is_fixed = !self.can_move_later(from.state(), thread);
        let mut at = match self.step(from, thread) {
            Next::Goes(next) => next,
            next => return Round { next, steps: 1 },
        };
        for steps in 1..MOST_STEPS {
            is_fixed |= has_entered(from.state(), at.state(), thread);
            if is_fixed && !self.can_move_earlier(at.state(), thread) {
                return Round {
                    next: Next::Goes(at),
                    steps,
                };
            }
            is_fixed |= !self.can_move_later(at.state(), thread);
            match self.step(&at, thread) {
                Next::Blocked => {
                    return Round {
                        next: Next::Goes(at),
                        steps,
                    };
                }
                Next::Goes(next) => at = next,
                Next::Fails(fault) => {
                    return Round {
                        next: Next::Fails(fault),
                        steps: steps + 1,
                    };
                }
            }
        }
        Round {
            next: Next::Goes(at),
            steps: MOST_STEPS,
        }
    }

    fn can_move_later(&self, state: &State, thread: Thread) -> bool {
        matches!(self.mover(state, thread), Mover::Later | Mover::Either)
    }

    fn can_move_earlier(&self, state: &State, thread: Thread) -> bool {
        matches!(self.mover(state, thread), Mover::Earlier | Mover::Either)
    }

    // What becomes of the thread's next step if it is moved. Whoever has locked a bucket is alone
    // there; and who was unparked goes on whenever it likes.
    fn mover(&self, state: &State, thread: Thread) -> Mover {
        let progress = &state.threads[thread.index()];
        let has_locked = |key: Key| progress.locked[self.bucket(key).index()];
        match self.codes[thread.index()].at(progress.at) {
            Some(Instruction::Sleep { .. }) => match state.standing(thread) {
                Standing::Taken(_) => Mover::Either,
                _ => Mover::Later,
            },
            Some(Instruction::Lock { .. } | Instruction::Leave) => Mover::Later,
            Some(Instruction::Unlock | Instruction::GiveUp) => Mover::Earlier,
            Some(
                Instruction::UnparkOne { key, .. }
                | Instruction::UnparkAll { key, .. }
                | Instruction::UnparkFilter { key, .. },
            ) if has_locked(key) => Mover::Earlier,
            Some(Instruction::Requeue { key, other, .. }) if has_locked(key) && has_locked(other) =>
                { Mover::Earlier }
            Some(
                Instruction::Park {
                    key,
                    validation: Validation::Given(_),
                    ..
                },
            ) if has_locked(key) => Mover::Earlier,
            _ => Mover::Neither,
        }
    }
}

// Whether the thread came into the critical section, which others may see.
fn has_entered(before: &State, after: &State, thread: Thread) -> bool {
    let was_inside = before.threads[thread.index()].inside.is_some();
    let is_inside = after.threads[thread.index()].inside.is_some();
    is_inside && !was_inside
}
