//! The exclusive lot, in which a walk does each step too, and what was compared.

use crate::calls::{Ended, Entry};
use crate::fault::{Fault, Wrong};
use crate::stress::draws::{draw, draw_below, mixed};
use lot_simulator::lot::{Lot, Status};
use lot_simulator::schedule::{Answer, Step};
use lot_threads::{ParkResult, ParkToken};
use std::alloc::Global;
use std::time::Instant;

/// How large a walk is: how many threads there can be, how many keys there are, how many parks
/// there are at most, and that calls are made beside one in so many of the waiting threads.
pub(super) type Shape = (usize, usize, usize, usize);

// Added to a key it gives one that has the same place in nearly every table.
const NEIGHBOR: usize = 75_025;

// A thread that waits sees others park twice in one of so many cases.
const SELDOM: usize = 6;

/// The exclusive lot, and what is drawn and counted in a walk.
#[derive(Drop)]
pub(super) struct Twin {
    pub(super) machine: Lot,
    pub(super) draws: u64,
    pub(super) shape: Shape,
    pub(super) parks_left: usize,
    past: Instant,
    // How many parks were refused, unparked and late.
    ends: (usize, usize, usize),
    /// Whether both lots answered each call the same.
    pub(super) are_alike: bool,
}

/// The key of this index. The first three have one place in a table of 16 buckets, and the first
/// two in every table; then come the greatest and some that differ in one bit, and then others that
/// look random, three by three with one place.
pub(super) fn key_at(index: usize) -> usize {
    match index {
        0 => 0,
        1 => NEIGHBOR,
        2 => 13,
        3 => usize::MAX,
        4 => 0x1_0000_0000,
        5 => 0x8000_0000_0000_0000,
        _ => {
            let first = mixed((index / 3) as u64) as usize;
            first.wrapping_add((index % 3).wrapping_mul(NEIGHBOR))
        }
    }
}

impl Twin {
    /// Begins a walk of this shape.
    pub(super) fn new(
        alloc: Global,
        shape: Shape,
        seed: u64,
        past: Instant,
    ) -> Result<Twin, Fault> {
        Ok(Twin {
            machine: Lot::new(alloc, shape.0)?,
            draws: seed,
            shape,
            parks_left: shape.2,
            past,
            ends: (0, 0, 0),
            are_alike: true,
        })
    }

    /// Fails if the two lots answered a call differently, or no park ended in one of the ways.
    pub(super) fn judge(&self) -> Result<(), Fault> {
        let (refused, unparked, late) = self.ends;
        if !self.are_alike {
            Err(Fault::Wrong(Wrong::OtherAnswer))
        } else if refused > 0 && unparked > 0 && late > 0 {
            Ok(())
        } else {
            Err(Fault::Wrong(Wrong::NestedParks))
        }
    }

    /// Notes whether a call was answered alike.
    pub(super) fn note(&mut self, is_alike: bool) {
        self.are_alike = self.are_alike && is_alike;
    }

    /// Does the step in the exclusive lot, which should answer the same.
    pub(super) fn expect(&mut self, step: Step, answer: Answer) {
        let expected = self.machine.apply(&step);
        self.note(answer == expected);
    }

    pub(super) fn draw_key(&mut self) -> usize {
        key_at(draw_below(&mut self.draws, self.shape.1))
    }

    /// Draws how the thread comes to park and whether that is valid, and lets it enter so.
    pub(super) fn enter(&mut self, thread: usize) -> (Entry, bool) {
        let is_timed = draw_below(&mut self.draws, 3) != 0;
        let valid = draw_below(&mut self.draws, 16) != 0;
        let (key, park_token) = (self.draw_key(), ParkToken(draw(&mut self.draws) as usize));
        let answer = if valid {
            Answer::Entered
        } else {
            Answer::Invalid
        };
        let step = Step::Enter {
            thread,
            key,
            valid,
            park_token,
            timed: is_timed,
        };
        self.expect(step, answer);
        ((key, park_token, is_timed.then_some(self.past)), valid)
    }

    /// Whether there is another park, which begins now.
    pub(super) fn starts_park(&mut self) -> bool {
        let is_left = self.parks_left > 0;
        self.parks_left = self.parks_left.saturating_sub(1);
        is_left
    }

    /// Whether others park once more beside a thread that waits.
    pub(super) fn goes_again(&mut self) -> bool {
        self.parks_left > 0 && draw_below(&mut self.draws, SELDOM) == 0
    }

    /// Compares how a park ended with how it ends in the exclusive lot.
    pub(super) fn end(&mut self, thread: usize, ended: Ended) {
        match ended {
            (ParkResult::Unparked(token), None) => {
                self.expect(Step::Return { thread }, Answer::Unparked(token));
                self.ends.1 = self.ends.1.wrapping_add(1);
            }
            (ParkResult::TimedOut, Some((key, last))) => {
                self.expect(Step::Deadline { thread }, Answer::Late);
                let answer = Answer::TimedOut { key, last };
                self.expect(Step::Resolve { thread }, answer);
                self.ends.2 = self.ends.2.wrapping_add(1);
            }
            (ParkResult::Invalid, None) => {
                let is_running = matches!(self.machine.status(thread), Status::Running);
                self.note(is_running);
                self.ends.0 = self.ends.0.wrapping_add(1);
            }
            _ => self.are_alike = false,
        }
    }

    /// Whether the thread waits, as the exclusive lot has it.
    pub(super) fn is_waiting(&self, thread: usize) -> bool {
        matches!(self.machine.status(thread), Status::Waiting { .. })
    }
}
