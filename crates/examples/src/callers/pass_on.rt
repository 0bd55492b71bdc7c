//! A wait for a turn, and a notify of all.

use parking_lot::{Condvar, Mutex};
use std::sync::Wait;
use std::time::Clock;

/// Waits until it is this thread's turn, and passes it on to the next.
pub fn pass_on<R: Wait + Clock>(rt: &R, turn: &Mutex<'_, u32>, changed: &Condvar<'_>, own: u32) {
    let turn = turn.lock(rt);
    let mut turn = changed.wait_while(turn, |turn: &mut u32| *turn != own);
    *turn = turn.wrapping_add(1);
    changed.notify_all_held(&turn);
}
