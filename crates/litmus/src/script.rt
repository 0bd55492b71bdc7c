//! A walk as a script for a lot: its steps in the lot alone, and what the lot is to answer.

use crate::names::{count_of, is_looker, workers};
use crate::note::Taken;
use crate::parted::Parted;
use crate::scene::Scene;
use lot_litmus::code::{Instruction, Key, Moves, Operand, Timing};
use lot_litmus::queue::Queue;
use lot_litmus::state::Standing;
use std::alloc::{AllocError, Global};

/// Lines for a lot, and its answers to them.
#[derive(Drop)]
pub struct Script {
    pub lines: String,
    pub answers: String,
}

impl Script {
    /// The walk as a script. At its end it asks who waits on each key.
    pub fn of(alloc: Global, scene: Scene<'_>) -> Result<Script, AllocError> {
        let mut script = Script {
            lines: String::new(alloc),
            answers: String::new(alloc),
        };
        script.push_registrations(workers(scene.parsed))?;
        for index in 0..scene.walk.steps.len() {
            match scene.taken(index) {
                Some(taken) if !is_looker(taken.thread) => script.push_step(taken)?,
                _ => {}
            }
        }
        script.push_lists(scene)?;
        Ok(script)
    }

    fn push_registrations(&mut self, threads: u8) -> Result<(), AllocError> {
        writeln!(self.lines, "lot {threads}")?;
        self.answers.push_str("ok\n")?;
        for number in 0..threads {
            self.lines.push_str("register\n")?;
            writeln!(self.answers, "number {number}")?;
        }
        Ok(())
    }

    fn push_lists(&mut self, scene: Scene<'_>) -> Result<(), AllocError> {
        let Some(state) = scene.walk.last() else {
            return Ok(());
        };
        for (number, _) in scene.parsed.keys.iter().enumerate() {
            writeln!(self.lines, "list {number}")?;
            self.answers.push_str("waiters")?;
            if let Some(queue) = state.queues.get(number) {
                push_waiters(&mut self.answers, queue)?;
            }
            self.answers.push_str("\n")?;
        }
        Ok(())
    }

    // Adds what the step does in the lot, if it does something there.
    fn push_step(&mut self, taken: Taken<'_>) -> Result<(), AllocError> {
        match taken.instruction() {
            Some(
                Instruction::Park {
                    key,
                    token,
                    timing,
                    ..
                },
            ) => self.push_park(taken, key, (token, timing)),
            Some(Instruction::Sleep { .. }) => self.push_sleep(taken),
            Some(Instruction::GiveUp) => self.push_give_up(taken),
            Some(Instruction::UnparkOne { key, token }) => {
                let token = taken.progress().value(token);
                writeln!(self.lines, "one {} {token}", key.number)?;
                self.push_parted(Parted::of(taken, key, Moves::OneUnparked))
            }
            Some(Instruction::UnparkAll { key, token }) => {
                let token = taken.progress().value(token);
                writeln!(self.lines, "all {} {token}", key.number)?;
                let count = count_of(taken.before, key);
                writeln!(self.answers, "count {count}")
            }
            Some(Instruction::UnparkFilter { key, chosen, token }) => {
                self.push_filter(taken, key, (chosen, token))
            }
            Some(
                Instruction::Requeue {
                    key,
                    other,
                    moves,
                    token,
                },
            ) => self.push_requeue(taken, (key, other), (moves, token)),
            _ => Ok(()),
        }
    }

    fn push_park(
        &mut self,
        taken: Taken<'_>,
        key: Key,
        (token, timing): (Operand, Timing),
    ) -> Result<(), AllocError> {
        let thread = taken.thread.index();
        let token = taken.progress().value(token);
        let timing = match timing {
            Timing::Timed => "timed",
            Timing::Endless => "untimed",
        };
        let (valid, answer) = match taken.standing_behind() {
            Some(Standing::Waiting(_)) => ("yes", "entered"),
            _ => ("no", "invalid"),
        };
        writeln!(
            self.lines,
            "enter {thread} {} {valid} {token} {timing}",
            key.number
        )?;
        writeln!(self.answers, "{answer}")
    }

    fn push_sleep(&mut self, taken: Taken<'_>) -> Result<(), AllocError> {
        let thread = taken.thread.index();
        match taken.before.standings[thread] {
            Standing::Taken(token) => {
                writeln!(self.lines, "return {thread}")?;
                writeln!(self.answers, "unparked {token}")
            }
            Standing::Waiting(_) => {
                writeln!(self.lines, "deadline {thread}")?;
                self.answers.push_str("late\n")
            }
            Standing::Late | Standing::Running => Ok(()),
        }
    }

    fn push_give_up(&mut self, taken: Taken<'_>) -> Result<(), AllocError> {
        let thread = taken.thread;
        for (number, queue) in taken.before.queues.iter().enumerate() {
            if queue.has(thread) {
                let is_last = queue.len() == 1;
                writeln!(self.lines, "resolve {}", thread.index())?;
                writeln!(self.answers, "timed out {number} {is_last}")?;
            }
        }
        Ok(())
    }

    fn push_filter(
        &mut self,
        taken: Taken<'_>,
        key: Key,
        (chosen, token): (Operand, Operand),
    ) -> Result<(), AllocError> {
        let chosen = taken.progress().value(chosen);
        let token = taken.progress().value(token);
        write!(self.lines, "filter {} ", key.number)?;
        push_decisions(&mut self.lines, count_of(taken.before, key), chosen)?;
        writeln!(self.lines, " {token}")?;
        self.push_parted(Parted::of(taken, key, Moves::OneUnparked))
    }

    fn push_requeue(
        &mut self,
        taken: Taken<'_>,
        (key, other): (Key, Key),
        (moves, token): (Moves, Operand),
    ) -> Result<(), AllocError> {
        let token = taken.progress().value(token);
        let way = way_of(moves);
        writeln!(
            self.lines,
            "requeue {} {} {way} {token}",
            key.number, other.number
        )?;
        self.push_parted(Parted::of(taken, key, moves))
    }

    fn push_parted(&mut self, parted: Parted) -> Result<(), AllocError> {
        let Parted {
            unparked,
            moved,
            has_more,
        } = parted;
        writeln!(
            self.answers,
            "unparked {unparked} requeued {moved} more {has_more}"
        )
    }
}

// Adds who waits, in order.
fn push_waiters(answers: &mut String, queue: &Queue) -> Result<(), AllocError> {
    for index in 0..queue.len() {
        write!(answers, " {}", queue.entry(index).thread.index())?;
    }
    Ok(())
}

// Adds a letter for each of so many waiters: the first is unparked if the lowest bit is set.
fn push_decisions(lines: &mut String, count: u8, chosen: u8) -> Result<(), AllocError> {
    if count == 0 {
        return lines.push_str("-");
    }
    let mut rest = chosen;
    for _ in 0..count {
        lines.push_str(if rest % 2 == 1 { "U" } else { "S" })?;
        rest /= 2;
    }
    Ok(())
}

// The word of a script for a way to requeue.
fn way_of(moves: Moves) -> &'static str {
    match moves {
        Moves::Nobody => "abort",
        Moves::OneUnparkedRestMoved => "one-rest",
        Moves::AllMoved => "all",
        Moves::OneUnparked => "one",
        Moves::OneMoved => "requeue-one",
    }
}
