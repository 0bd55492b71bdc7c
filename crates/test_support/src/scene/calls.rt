//! This module does the calls of a scene's threads, and what their closures do.

use super::Stage;
use super::outcomes::{
    count_answered, deadline_of, decision_of, park_ended, requeue_op_of, unpark_answered,
};
use crate::calls::PARK_TOKEN;
use crate::faults::faults_of;
use crate::waits::TURNS;
use crate::words::Words;
use lot_threads::{
    LotError, Member, ParkToken, RequeueOp, ThreadParkerT, UnparkResult, UnparkToken,
    unpark_chosen, unpark_one, unpark_requeue,
};
use std::alloc::Global;
use std::sync::Wait;
use std::sync::atomic::Ordering;
use std::thread;
use std::time::Clock;

/// A `Call` says where a call is in its scene.
#[derive(Copy, Clone)]
pub(super) struct Call {
    // The place of the first line that may be about its closures.
    pub(super) first: usize,

    // The number of its own line.
    pub(super) line: usize,
}

// Lets the thread hold a key or let it go, or asks how often it is in the thread's records.
fn record<P: ThreadParkerT>(
    member: &mut Member<'_, P>,
    action: &str,
    words: &mut Words<'_>,
) -> Option<bool> {
    let key = words.number()?;
    match action {
        "acquire" => words.end(member.acquire_resource(key).is_ok()),
        "release" => {
            member.release_resource(key);
            words.end(true)
        }
        "records" => count_answered(words, member.records(key)),
        _ => None,
    }
}

impl<P: ThreadParkerT> Stage<'_, P> {
    // Does what a closure is to do, and notes the call's line if that goes otherwise.
    fn do_deeds<R: Wait + Clock>(&self, rt: &R, alloc: Global, call: usize, deeds: &str) {
        for deed in deeds.split(';') {
            let mut words = Words::of(deed, self.values, 0);
            let head = words.word().unwrap_or("");
            if !head.is_empty() && self.do_deed(rt, alloc, head, &mut words) != Some(true) {
                self.note(call);
            }
        }
    }

    // Does what the lines above a call say of this closure, as far as the next one above that is no
    // closure's.
    fn call_back<R: Wait + Clock>(&self, rt: &R, alloc: Global, call: Call, closure: &str) {
        let Call { first, line } = call;
        for (index, text) in self.text.lines().enumerate() {
            if first <= index
                && index < line
                && let Some((name, deeds)) = text.split_once(':')
                && name.trim() == closure
            {
                self.do_deeds(rt, alloc, line, deeds);
            }
        }
    }

    // Parks. `validate` answers this.
    fn park<R: Wait + Clock>(
        &self,
        rt: &R,
        alloc: Global,
        member: &mut Member<'_, P>,
        call: Call,
        is_valid: bool,
        words: &mut Words<'_>,
    ) -> Option<bool> {
        let key = words.number()?;
        let deadline = deadline_of(rt, words.word()?)?;
        let mut told = None;
        let ended = member.park(
            rt,
            key,
            || {
                self.call_back(rt, alloc, call, "validate");
                is_valid
            },
            || self.call_back(rt, alloc, call, "before_sleep"),
            |key, last| {
                told = Some((key, last));
                self.call_back(rt, alloc, call, "timed_out");
            },
            PARK_TOKEN,
            deadline,
        );
        if ended.is_unparked() {
            self.received.fetch_add(1, Ordering::SeqCst);
        }
        park_ended(words, ended, told)
    }

    // Counts what an unpark answered, and tells whether it is as the words say.
    fn note_answer(&self, words: &mut Words<'_>, answer: UnparkResult) -> Option<bool> {
        self.answered
            .fetch_add(answer.unparked_threads, Ordering::SeqCst);
        unpark_answered(words, answer)
    }

    fn unpark_one<R: Wait + Clock>(
        &self,
        rt: &R,
        alloc: Global,
        call: Call,
        words: &mut Words<'_>,
    ) -> Option<bool> {
        let key = words.number()?;
        let token = UnparkToken(words.number()?);
        let mut told = None;
        let answer = unpark_one(rt, &self.lot, key, |answer| {
            told = Some(answer);
            self.call_back(rt, alloc, call, "callback");
            token
        });
        Some(self.note_answer(words, answer)? && told == Some(answer))
    }

    fn unpark_chosen<R: Wait + Clock>(
        &self,
        rt: &R,
        alloc: Global,
        call: Call,
        words: &mut Words<'_>,
    ) -> Option<bool> {
        let key = words.number()?;
        let letters = words.word()?;
        let token = UnparkToken(words.number()?);
        let (mut place, mut told) = (0_usize, None);
        let filter = |shown: ParkToken| {
            if shown != PARK_TOKEN {
                self.note(call.line);
            }
            self.call_back(rt, alloc, call, "filter");
            let decision = decision_of(letters, place);
            place = place.wrapping_add(1);
            decision
        };
        let answer = unpark_chosen(rt, &self.lot, key, filter, |answer| {
            told = Some(answer);
            self.call_back(rt, alloc, call, "callback");
            token
        });
        Some(self.note_answer(words, answer)? && told == Some(answer))
    }

    fn requeue<R: Wait + Clock>(
        &self,
        rt: &R,
        alloc: Global,
        call: Call,
        words: &mut Words<'_>,
    ) -> Option<bool> {
        let from = words.number()?;
        let to = words.number()?;
        let op = requeue_op_of(words.word()?)?;
        let token = UnparkToken(words.number()?);
        let mut told = None;
        let validate = || {
            self.call_back(rt, alloc, call, "validate");
            op
        };
        let answer = unpark_requeue(rt, &self.lot, from, to, validate, |op, answer| {
            told = Some((op, answer));
            self.call_back(rt, alloc, call, "callback");
            token
        });
        let expected = (op != RequeueOp::Abort).then_some((op, answer));
        Some(self.note_answer(words, answer)? && told == expected)
    }

    // Has the number of the thread alone, or lets it go. Nobody else has it meanwhile.
    fn has_alone(&self, number: usize, has_it: bool) -> Option<bool> {
        let users = self.counts.get(number)?;
        let before = usize::from(!has_it);
        Some(users.swap(usize::from(has_it), Ordering::SeqCst) == before)
    }

    // Registers the thread as soon as a number is free.
    fn come_by_turns<R: Wait>(&self, rt: &R, alloc: Global) -> Option<Member<'_, P>> {
        for _ in 0..TURNS {
            match Member::register(rt, alloc, &self.lot) {
                Err(LotError::Full) => thread::yield_now(),
                registered => return registered.ok(),
            }
        }
        None
    }

    // Does what a line says of a member. `None` says that it has no form.
    fn act_as<R: Wait + Clock>(
        &self,
        rt: &R,
        alloc: Global,
        member: &mut Member<'_, P>,
        call: Call,
        action: &str,
        words: &mut Words<'_>,
    ) -> Option<bool> {
        match action {
            "park" => self.park(rt, alloc, member, call, true, words),
            "park_in_vain" => self.park(rt, alloc, member, call, false, words),
            "no_faults" => words.end(faults_of(rt, member) == Some(0)),
            "have_alone" => self.has_alone(member.number(), true),
            "let_go" => self.has_alone(member.number(), false),
            _ => record(member, action, words),
        }
    }

    // Does what a line says. `None` says that it has no form.
    pub(super) fn act<'s, R: Wait + Clock>(
        &'s self,
        rt: &R,
        alloc: Global,
        member: &mut Option<Member<'s, P>>,
        call: Call,
        words: &mut Words<'_>,
    ) -> Option<bool> {
        match words.word()? {
            "come" => *member = self.come_by_turns(rt, alloc),
            "retire" => drop(member.take()?.retire(rt)),
            "unpark_one" => return self.unpark_one(rt, alloc, call, words),
            "unpark_chosen" => return self.unpark_chosen(rt, alloc, call, words),
            "requeue" => return self.requeue(rt, alloc, call, words),
            action => {
                return match self.do_deed(rt, alloc, action, words) {
                    None => self.act_as(rt, alloc, member.as_mut()?, call, action, words),
                    done => done,
                };
            }
        }
        words.end(true)
    }
}
