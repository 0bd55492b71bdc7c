//! Numbers that look random, and are the same again for the same seed.

use std::cell::Cell;

// How often a bound is halved, at most.
const HALVES: u64 = 16;

const STRIDE: u64 = 0x9E37_79B9_7F4A_7C15;

/// A sequence of numbers.
#[derive(Drop)]
pub struct Draws {
    last: Cell<u64>,
}

impl Draws {
    pub fn new(seed: u64) -> Draws {
        Draws {
            last: Cell::new(seed.wrapping_mul(STRIDE)),
        }
    }

    /// The next number.
    pub fn draw(&self) -> u64 {
        let next = self.last.get().wrapping_add(STRIDE);
        self.last.set(next);
        let number = (next ^ (next >> 30)).wrapping_mul(0xBF58_476D_1CE4_E5B9);
        let number = (number ^ (number >> 27)).wrapping_mul(0x94D0_49BB_1331_11EB);
        number ^ (number >> 31)
    }

    /// A number below the greatest, or below half of that, and so on: mostly far below, but now and
    /// then not.
    pub fn low(&self, greatest: u64) -> u64 {
        let bound = greatest >> (self.draw() % HALVES);
        if bound == 0 { 0 } else { self.draw() % bound }
    }
}
