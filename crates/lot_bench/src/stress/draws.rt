//! Numbers that look random, and are the same again for the same seed.

use crate::calls::Sieve;
use lot_threads::RequeueOp;

const STRIDE: u64 = 0x9E37_79B9_7F4A_7C15;

/// The next number of a sequence, which begins with its seed.
pub fn draw(sequence: &mut u64) -> u64 {
    *sequence = sequence.wrapping_add(STRIDE);
    mixed(*sequence)
}

/// The number with all its bits mixed.
pub fn mixed(number: u64) -> u64 {
    let number = (number ^ (number >> 30)).wrapping_mul(0xBF58_476D_1CE4_E5B9);
    let number = (number ^ (number >> 27)).wrapping_mul(0x94D0_49BB_1331_11EB);
    number ^ (number >> 31)
}

/// A number below the bound, or 0 where there is none.
pub fn draw_below(sequence: &mut u64, bound: usize) -> usize {
    let number = draw(sequence) as usize;
    if bound == 0 { 0 } else { number % bound }
}

pub fn draw_op(sequence: &mut u64) -> RequeueOp {
    match draw_below(sequence, 5) {
        0 => RequeueOp::Abort,
        1 => RequeueOp::UnparkOneRequeueRest,
        2 => RequeueOp::RequeueAll,
        3 => RequeueOp::UnparkOne,
        _ => RequeueOp::RequeueOne,
    }
}

/// Of threads with tokens that are drawn it lets most through, and stops at about one in eight.
pub fn draw_sieve(sequence: &mut u64) -> Sieve {
    let unparks = (draw(sequence) & draw(sequence)) as usize;
    let stops = (draw(sequence) & draw(sequence)) as usize;
    (None, unparks & 0xFF, stops & 0xF_FF00)
}
