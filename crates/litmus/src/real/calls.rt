//! The calls of the lot that a thread of a test makes. What the test does in a section is done by
//! the first closure that the lot calls in that section.

use crate::real::actor::{Actor, Call, advanced};
use crate::real::board::Trouble;
use crate::real::keys::LotKeys;
use lot_litmus::code::{Instruction, Key, Moves, Operand, Timing};
use lot_litmus::queue::{Chosen, Entry, Parts};
use lot_threads::{
    FilterOp, Member, ParkResult, ParkToken, ParkingLot, RequeueOp, ThreadParkerT, UnparkResult,
    UnparkToken, unpark_chosen, unpark_one, unpark_requeue,
};
use std::cell::Cell;
use std::sync::Wait;
use std::time::{Clock, Duration, Instant};

// A deadline passes within so many nanoseconds.
const LONGEST: u64 = 65_536;

// What a thread is handed that is to give up.
const NO_TOKEN: UnparkToken = UnparkToken(0);

/// A thread of a test on a lot.
#[derive(Drop)]
pub struct Caller<'a, P: ThreadParkerT> {
    pub actor: Actor<'a>,
    pub keys: &'a LotKeys,
    pub lot: &'a ParkingLot<P>,

    /// An instant that has passed.
    pub past: Instant,
}

impl<P: ThreadParkerT> Caller<'_, P> {
    /// Does all that the thread does in a round.
    pub fn play<R: Wait + Clock>(&self, rt: &R, member: &mut Member<'_, P>) {
        for _ in rt.forever() {
            match self.go(rt) {
                Some(Call::Park(key, timing)) => self.park(rt, member, key, timing),
                _ => break,
            }
        }
    }

    // Goes on up to the next park or sleep.
    fn go<R: Wait>(&self, rt: &R) -> Option<Call> {
        for _ in rt.forever() {
            let call = self.actor.next_call(rt)?;
            match call {
                Call::Park(..) | Call::Sleep => return Some(call),
                Call::UnparkOne(key) => self.unpark_one(rt, key),
                Call::UnparkThose(key) | Call::Look(key) => self.unpark_those(rt, key),
                Call::Requeue(key, other) => self.requeue(rt, key, other),
            }
        }
        unreachable!()
    }

    fn park<R: Wait + Clock>(&self, rt: &R, member: &mut Member<'_, P>, key: Key, timing: Timing) {
        let deadline = match timing {
            Timing::Endless => None,
            Timing::Timed => Some(self.deadline(rt)),
        };
        let result = member.park(
            rt,
            self.keys.number(key),
            || self.actor.enters(rt),
            || self.get_ready(rt, timing),
            |left, is_last| self.actor.gives_up(rt, self.keys.key(left), is_last),
            ParkToken(self.actor.thread.index()),
            deadline,
        );
        if let ParkResult::Unparked(token) = result {
            self.actor.wakes(token);
        }
    }

    // An instant that comes soon.
    fn deadline<R: Clock>(&self, rt: &R) -> Instant {
        let soon = Duration::from_nanos(self.actor.draw_low(LONGEST));
        let now = Instant::now(rt).unwrap_or(self.past);
        now.checked_add(soon).unwrap_or(self.past)
    }

    // Does what comes before the sleep.
    fn get_ready<R: Wait>(&self, rt: &R, timing: Timing) {
        self.go(rt);
        if timing == Timing::Endless {
            self.actor.board.fall_asleep();
        }
    }

    fn unpark_one<R: Wait>(&self, rt: &R, key: Key) {
        let key = self.keys.number(key);
        unpark_one(rt, self.lot, key, |found| self.actor.unparks_one(rt, found));
    }

    fn unpark_those<R: Wait>(&self, rt: &R, key: Key) {
        let asked = Cell::new(0u8);
        unpark_chosen(
            rt,
            self.lot,
            self.keys.number(key),
            |token| self.actor.decides(rt, key, &asked, token),
            |found| self.actor.unparks_those(rt, key, found),
        );
    }

    fn requeue<R: Wait>(&self, rt: &R, key: Key, other: Key) {
        unpark_requeue(
            rt,
            self.lot,
            self.keys.number(key),
            self.keys.number(other),
            || self.actor.chooses(rt),
            |_, found| self.actor.requeues(rt, found),
        );
    }
}

impl Actor<'_> {
    // What a park validates.
    fn enters<R: Wait>(&self, rt: &R) -> bool {
        let Some(
            Instruction::Park {
                key,
                validation,
                token,
                timing,
                target,
            },
        ) = self.go_in_section(rt)
        else {
            return false;
        };
        let progress = self.progress();
        if !self.is_valid(validation) {
            self.come(progress.at_target(target));
            return false;
        }
        let entry = Entry {
            thread: self.thread,
            token: progress.value(token),
            timing,
        };
        self.come(advanced(progress));
        self.expect(
            rt,
            self.board.lists.enter(rt, key, entry),
            "that a list has no room",
        );
        true
    }

    // What a park does at its end, if the thread was unparked.
    fn wakes(&self, token: UnparkToken) {
        let progress = self.progress();
        if let Some(Instruction::Sleep { to, .. }) = self.here() {
            let token = u8::try_from(token.0).unwrap_or(u8::MAX);
            self.come(advanced(progress.with_local(to, token)));
        }
    }

    // What a park does in the section in which the thread is late.
    fn gives_up<R: Wait>(&self, rt: &R, key: Option<Key>, is_last: bool) {
        let Some(Instruction::Sleep { last, target, .. }) = self.here() else {
            return;
        };
        let Some(key) = key else {
            return self.expect(rt, false, "on which key a late thread stood");
        };
        let progress = self.progress();
        self.come(
            progress
                .at_target(target)
                .with_local(last, u8::from(is_last)),
        );
        let others = self.board.lists.get(rt, key).without(self.thread);
        if let Some(Instruction::GiveUp) = self.go(rt) {
            let was_there = self.board.lists.leave(rt, key, self.thread);
            self.expect(rt, was_there, "that a late thread stood in a list");
            self.expect(
                rt,
                is_last == (others.len() == 0),
                "whether a late thread was the last",
            );
            self.come(advanced(self.progress()));
        }
    }
}

impl Actor<'_> {
    // The callback of an unpark of one.
    fn unparks_one<R: Wait>(&self, rt: &R, found: UnparkResult) -> UnparkToken {
        match self.go_in_section(rt) {
            Some(Instruction::UnparkOne { key, token }) => {
                let chosen = Chosen { taken: 1, moved: 0 };
                let parts = self.board.lists.part(rt, key, key, chosen);
                self.wake(rt, parts, found, token)
            }
            _ => NO_TOKEN,
        }
    }

    // What a filter decides on the waiter that it is asked for next.
    fn decides<R: Wait>(&self, rt: &R, key: Key, asked: &Cell<u8>, token: ParkToken) -> FilterOp {
        let index = asked.get();
        asked.set(index.saturating_add(1));
        let chosen = match self.go_in_section(rt) {
            Some(Instruction::UnparkAll { .. }) => u8::MAX,
            Some(Instruction::UnparkFilter { chosen, .. }) => self.progress().value(chosen),
            _ => return FilterOp::Stop,
        };
        let waiter = self.board.lists.get(rt, key).get(index as usize);
        let is_next = waiter.is_some_and(|waiter| waiter.thread.index() == token.0);
        self.expect(rt, is_next, "who waits, to a filter");
        if chosen.checked_shr(index as u32).unwrap_or(0) % 2 == 1 {
            FilterOp::Unpark
        } else {
            FilterOp::Skip
        }
    }

    // The callback of a filter, of an unpark of all, or of a section that does neither.
    fn unparks_those<R: Wait>(&self, rt: &R, key: Key, found: UnparkResult) -> UnparkToken {
        let (chosen, token) = match self.go_in_section(rt) {
            Some(Instruction::UnparkAll { token, .. }) => (u8::MAX, token),
            Some(Instruction::UnparkFilter { chosen, token, .. }) => {
                (self.progress().value(chosen), token)
            }
            Some(Instruction::Unlock) => (0, Operand::Constant(0)),
            _ => return NO_TOKEN,
        };
        let chosen = Chosen {
            taken: chosen,
            moved: 0,
        };
        let parts = self.board.lists.part(rt, key, key, chosen);
        self.wake(rt, parts, found, token)
    }

    // What a requeue validates.
    fn chooses<R: Wait>(&self, rt: &R) -> RequeueOp {
        let Some(Instruction::Requeue { moves, .. }) = self.go_in_section(rt) else {
            return RequeueOp::Abort;
        };
        match moves {
            Moves::Nobody => {
                self.come(advanced(self.progress()));
                RequeueOp::Abort
            }
            Moves::OneUnparkedRestMoved => RequeueOp::UnparkOneRequeueRest,
            Moves::AllMoved => RequeueOp::RequeueAll,
            Moves::OneUnparked => RequeueOp::UnparkOne,
            Moves::OneMoved => RequeueOp::RequeueOne,
        }
    }

    // The callback of a requeue.
    fn requeues<R: Wait>(&self, rt: &R, found: UnparkResult) -> UnparkToken {
        let Some(
            Instruction::Requeue {
                key,
                other,
                moves,
                token,
            },
        ) = self.here()
        else {
            return NO_TOKEN;
        };
        let parts = self.board.lists.part(rt, key, other, chosen_by(moves));
        self.wake(rt, parts, found, token)
    }

    // Those who were taken are woken with the token; what the lot found is what became of the list.
    fn wake<R: Wait>(
        &self,
        rt: &R,
        parts: Parts,
        found: UnparkResult,
        token: Operand,
    ) -> UnparkToken {
        let told = UnparkResult {
            unparked_threads: parts.taken.len() as usize,
            requeued_threads: parts.moved.len() as usize,
            have_more_threads: parts.left.len() > 0,
        };
        self.expect(rt, found == told, "how many it unparks, moves and leaves");
        let mut endless = 0u64;
        for index in 0..parts.taken.len() {
            if parts.taken.entry(index).timing == Timing::Endless {
                endless = endless.saturating_add(1);
            }
        }
        self.board.wake(endless);
        let progress = self.progress();
        self.come(advanced(progress));
        UnparkToken(progress.value(token) as usize)
    }

    // Ends the round unless the lot is right in what it says.
    fn expect<R: Wait>(&self, rt: &R, is_right: bool, what: &'static str) {
        if !is_right {
            self.board.note(rt, Trouble::Disagrees(what));
        }
    }
}

// Whom a requeue takes, and whom it moves.
fn chosen_by(moves: Moves) -> Chosen {
    match moves {
        Moves::Nobody => Chosen { taken: 0, moved: 0 },
        Moves::OneUnparkedRestMoved => Chosen {
            taken: 1,
            moved: u8::MAX,
        },
        Moves::AllMoved => Chosen {
            taken: 0,
            moved: u8::MAX,
        },
        Moves::OneUnparked => Chosen { taken: 1, moved: 0 },
        Moves::OneMoved => Chosen { taken: 0, moved: 1 },
    }
}
