//! What threads do with guards of every kind.
//!
//! Of any: `value`, `still` (whether the value is as the thread saw or left it), `is_locked` (asked
//! of the guard's lock), `bump`, `unlocked` (whether somebody else could have had the lock
//! meanwhile), `unlock_fair`, `unlock`. Of one that writes: `set N`, `add N`, `take N`, `slowly`
//! (adds 1 in two writes, and lets others run between).

use crate::stage::{BETWEEN, let_go};
use std::ops::{Deref, DerefMut};
use std::sync::Wait;
use std::thread;
use test_support::words::Words;

/// A call that takes a guard.
#[derive(Clone, Copy)]
pub enum GuardCall {
    // It asks the lock, and the guard comes back at once.
    IsLocked,
    Bump,
    Unlocked,
    UnlockFair,
}

/// The calls that guards of each kind have.
pub trait Held: Sized + Deref<Target = usize> + Drop {
    /// Does the call. It answers the guard, if that is left, and what comes out: whether the lock
    /// of the guard is locked, as its guard has it, or whether a try got the lock meanwhile.
    fn pass<R: Wait>(self, rt: &R, call: GuardCall) -> (Option<Self>, bool);
}

/// What comes out of a call of a guard that a thread may hold.
pub fn use_held<G: Held, R: Wait>(
    rt: &R,
    held: &mut Option<G>,
    last: &mut usize,
    call: &str,
) -> Option<usize> {
    match call {
        "value" => {
            *last = **held.as_ref()?;
            Some(*last)
        }
        "still" => Some(usize::from(**held.as_ref()? == *last)),
        "unlock" => Some(usize::from(let_go(held))),
        "unlock_fair" => Some(usize::from(pass(rt, held, GuardCall::UnlockFair) == Some(true))),
        "is_locked" => Some(usize::from(pass(rt, held, GuardCall::IsLocked)?)),
        "bump" => Some(usize::from(pass(rt, held, GuardCall::Bump)?)),
        "unlocked" => Some(usize::from(pass(rt, held, GuardCall::Unlocked)?)),
        _ => None,
    }
}

// Does the call with what the thread holds, if it holds it.
fn pass<G: Held, R: Wait>(rt: &R, held: &mut Option<G>, call: GuardCall) -> Option<bool> {
    let (guard, found) = held.take()?.pass(rt, call);
    *held = guard;
    Some(found)
}

/// The same of a guard that writes.
pub fn use_writing<G: Held + DerefMut, R: Wait>(
    rt: &R,
    held: &mut Option<G>,
    last: &mut usize,
    call: &str,
    words: &mut Words<'_>,
) -> Option<usize> {
    match call {
        "set" | "add" | "take" | "slowly" => {
            let number = if call == "slowly" { 1 } else { words.number()? };
            let value: &mut usize = &mut **held.as_mut()?;
            change(value, call, number);
            *last = *value;
            Some(1)
        }
        _ => use_held(rt, held, last, call),
    }
}

fn change(value: &mut usize, call: &str, number: usize) {
    match call {
        "set" => *value = number,
        "take" => *value = value.wrapping_sub(number),
        "slowly" => add_slowly(value, number),
        _ => *value = value.wrapping_add(number),
    }
}

fn add_slowly(value: &mut usize, number: usize) {
    let old = *value;
    *value = BETWEEN;
    thread::yield_now();
    *value = old.wrapping_add(number);
}
