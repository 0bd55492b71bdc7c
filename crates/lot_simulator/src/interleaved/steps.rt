//! This module has the steps of an interleaved lot. Each does what the rule of the interleaved
//! machine says.

ghost use Rattle.std.specs.Prelude.{ℕ, ◌≡◌, false, true, Some, None};
ghost use Rattle.std.specs.List.{list_any};
ghost use Rattle.std.specs.Option.{option_to_list};
ghost use Rattle.lot_simulator.specs.Copies.{AreCopies};
ghost use Rattle.lot_simulator.specs.FineLot.{fine_state};
ghost use Rattle.lot_simulator.specs.InterleavedView.{sequential_step, steps_of};
ghost use Rattle.lot_simulator.specs.Private.FineCopies.{IsCopyIn};
ghost use Rattle.lot_simulator.specs.Private.FineAnswers.{answer_for};
ghost use Rattle.lot_simulator.specs.InterleavedSteps.{IsFineStep, can_begin, keys_of, is_held, is_any_open, is_full, is_growth_blocked};

use super::caller::{Caller, Held};
use super::sections::unpark;
use super::{FineAnswer, FineLot, FineStep};
use crate::lot::Status;
use crate::schedule::{Answer, Op, Step};
use lot_base::bucket::place;
use lot_base::queue::Node;
use lot_base::token::{Misfit, NoMemory, ParkToken, StepError};

impl FineLot {
    // Does the step, and tells the sequential step to which it amounts. `op` is the copy of its
    // operation.
    pub(super) fn step(&mut self, step: &FineStep, op: Option<Op>) -> (FineAnswer, Option<Step>)
        requires { IsCopyIn step.now op }
        ensures does { IsFineStep (fine_state self.old) step.now result.0 (fine_state self.new) }
        ensures tells { AreCopies
            (steps_of (sequential_step (fine_state self.old) step.now result.0))
            (option_to_list result.1) }
    {
        let given = self.apply(step);
        let told = self.sequential_step(step, op, given);
        (given, told)
    }

    // Does the step, with closures that answer as the step says, and answers what it gave.
    pub(super) fn apply(&mut self, step: &FineStep) -> FineAnswer
        ensures { IsFineStep (fine_state self.old) step.now result (fine_state self.new) }
    {
        self.try_step(step)
            .unwrap_or(FineAnswer::Answer(Answer::Misfit))
    }

    // Does the step if it fits.
    fn try_step(&mut self, step: &FineStep) -> Result<FineAnswer, Misfit>
        ensures { IsFineStep (fine_state self.old) step.now (answer_for result)
            (fine_state self.new) }
    {
        match step {
            FineStep::Begin { caller, op } => self.begin(*caller, op),
            FineStep::Commit { caller } => self.commit(*caller),
            FineStep::End { caller } => self.end(*caller),
            FineStep::Wake { caller } => self.wake(*caller),
            FineStep::Deadline { thread } => self.deadline(*thread),
            FineStep::ReadKey { thread } => self.read_key(*thread),
            FineStep::Look { thread } => self.look(*thread),
            FineStep::Enter {
                thread,
                key,
                valid,
                park_token,
                timed,
            } => self.enter(*thread, *key, *valid, *park_token, *timed),
            FineStep::Return { thread } => self.give_back(*thread),
            FineStep::Register => Ok(self.register()),
            FineStep::Retire { thread } => self.retire(*thread),
            FineStep::Acquire { thread, key } => self.acquire(*thread, *key),
            FineStep::Release { thread, key } => self.release(*thread, *key),
            FineStep::Trim => Ok(self.trim()),
        }
    }

    fn begin(&mut self, caller: usize, op: &Op) -> Result<FineAnswer, Misfit>
        ensures { IsFineStep (fine_state self.old) (FineStep.Begin caller op.now)
            (answer_for result) (fine_state self.new) }
    {
        let unparking = self.callers.get(caller).ok_or(Misfit)?;
        if !unparking.is_idle() {
            return Err(Misfit);
        }
        if self.is_any_held(op) {
            return Ok(FineAnswer::Blocked);
        }
        Ok(self.open_section(caller, op))
    }

    // Opens a section of a caller that may begin one, on buckets that no section holds.
    fn open_section(&mut self, caller: usize, op: &Op) -> FineAnswer
        requires can { can_begin (fine_state self.old) caller ≡ true }
        requires free { list_any (is_held (fine_state self.old)) (keys_of op.now) ≡ false }
        ensures { IsFineStep (fine_state self.old) (FineStep.Begin caller op.now) result
            (fine_state self.new) }
    {
        let (answer, taken) = unpark(&mut self.table, &mut self.threads, op);
        let held = Held::of(op, self.table.size());
        self.callers[caller] = Caller::in_section(held, taken);
        FineAnswer::Answer(answer)
    }

    fn deadline(&mut self, thread: usize) -> Result<FineAnswer, Misfit>
        ensures { IsFineStep (fine_state self.old) (FineStep.Deadline thread) (answer_for result)
            (fine_state self.new) }
    {
        self.threads.get_mut(thread).ok_or(Misfit)?.deadline()?;
        Ok(FineAnswer::Late)
    }

    fn read_key(&mut self, thread: usize) -> Result<FineAnswer, Misfit>
        ensures { IsFineStep (fine_state self.old) (FineStep.ReadKey thread) (answer_for result)
            (fine_state self.new) }
    {
        let key = self.threads.get_mut(thread).ok_or(Misfit)?.read_key()?;
        Ok(FineAnswer::Read(key))
    }

    fn give_back(&mut self, thread: usize) -> Result<FineAnswer, Misfit>
        ensures { IsFineStep (fine_state self.old) (FineStep.Return thread) (answer_for result)
            (fine_state self.new) }
    {
        let token = self.threads.get_mut(thread).ok_or(Misfit)?.give_back()?;
        Ok(FineAnswer::Answer(Answer::Unparked(token)))
    }

    fn retire(&mut self, thread: usize) -> Result<FineAnswer, Misfit>
        ensures { IsFineStep (fine_state self.old) (FineStep.Retire thread) (answer_for result)
            (fine_state self.new) }
    {
        self.threads.get_mut(thread).ok_or(Misfit)?.retire()?;
        self.table.release(thread);
        Ok(FineAnswer::Answer(Answer::Retired))
    }

    fn acquire(&mut self, thread: usize, key: usize) -> Result<FineAnswer, Misfit>
        ensures { IsFineStep (fine_state self.old) (FineStep.Acquire thread key) (answer_for result)
            (fine_state self.new) }
    {
        let running = self.threads.get_mut(thread).ok_or(Misfit)?;
        match running.acquire(key) {
            Ok(()) => {}
            Err(StepError::NoMemory) => return Ok(FineAnswer::Answer(Answer::NoMemory)),
            Err(StepError::Misfit) => return Err(Misfit),
        }
        Ok(FineAnswer::Answer(Answer::Recorded))
    }

    fn release(&mut self, thread: usize, key: usize) -> Result<FineAnswer, Misfit>
        ensures { IsFineStep (fine_state self.old) (FineStep.Release thread key) (answer_for result)
            (fine_state self.new) }
    {
        self.threads.get_mut(thread).ok_or(Misfit)?.release(key)?;
        Ok(FineAnswer::Answer(Answer::Released))
    }

    fn commit(&mut self, caller: usize) -> Result<FineAnswer, Misfit>
        ensures { IsFineStep (fine_state self.old) (FineStep.Commit caller) (answer_for result)
            (fine_state self.new) }
    {
        let unparking = self.callers.get_mut(caller).ok_or(Misfit)?;
        let node = unparking.hand_on().ok_or(Misfit)?;
        let number = node.number;
        self.threads[number].unpark(node);
        Ok(FineAnswer::Committed(number))
    }

    fn end(&mut self, caller: usize) -> Result<FineAnswer, Misfit>
        ensures { IsFineStep (fine_state self.old) (FineStep.End caller) (answer_for result)
            (fine_state self.new) }
    {
        self.callers.get_mut(caller).ok_or(Misfit)?.end()?;
        Ok(FineAnswer::Ended)
    }

    fn wake(&mut self, caller: usize) -> Result<FineAnswer, Misfit>
        ensures { IsFineStep (fine_state self.old) (FineStep.Wake caller) (answer_for result)
            (fine_state self.new) }
    {
        self.callers.get_mut(caller).ok_or(Misfit)?.wake()?;
        Ok(FineAnswer::Woken)
    }

    fn look(&mut self, thread: usize) -> Result<FineAnswer, Misfit>
        ensures { IsFineStep (fine_state self.old) (FineStep.Look thread) (answer_for result)
            (fine_state self.new) }
    {
        let late = self.threads.get(thread).ok_or(Misfit)?;
        let key = late.key_read().ok_or(Misfit)?;
        if self.is_held(key) {
            return Ok(FineAnswer::Blocked);
        }
        Ok(self.look_in(thread, key))
    }

    // Looks by a key that a thread has read and whose bucket no section holds.
    fn look_in(&mut self, thread: usize, key: usize) -> FineAnswer
        requires read { (fine_state self.old).keys_read thread ≡ Some key }
        requires free { is_held (fine_state self.old) key ≡ false }
        ensures { IsFineStep (fine_state self.old) (FineStep.Look thread) result
            (fine_state self.new) }
    {
        let late = &mut self.threads[thread];
        if late.key_word() != key {
            late.forget_key();
            return FineAnswer::Retry;
        }
        match late.take_node() {
            Some(token) => FineAnswer::Answer(Answer::Unparked(token)),
            None => self.time_out(thread, key),
        }
    }

    // Takes a late thread, which nobody has unparked, out of the list of its key word, and lets it
    // run.
    fn time_out(&mut self, thread: usize, key: usize) -> FineAnswer
        requires read { (fine_state self.old).keys_read thread ≡ Some key }
        requires free { is_held (fine_state self.old) key ≡ false }
        requires same { (fine_state self.old).key_words thread ≡ key }
        requires empty { (fine_state self.old).slots thread ≡ None }
        ensures { IsFineStep (fine_state self.old) (FineStep.Look thread) result
            (fine_state self.new) }
    {
        // Nobody has unparked the thread and no section holds the bucket, so its node is there.
        let (node, last) = self.table.remove(thread, key, |_, last| last).unwrap();
        self.threads[thread].stop_waiting(node);
        FineAnswer::Answer(Answer::TimedOut { key, last })
    }

    fn enter(
        &mut self,
        thread: usize,
        key: usize,
        valid: bool,
        park_token: ParkToken,
        timed: bool,
    ) -> Result<FineAnswer, Misfit>
        ensures { IsFineStep (fine_state self.old)
            (FineStep.Enter thread key valid park_token timed) (answer_for result)
            (fine_state self.new) }
    {
        let running = self.threads.get(thread).ok_or(Misfit)?;
        if !running.is_running() {
            return Err(Misfit);
        }
        if self.is_held(key) {
            return Ok(FineAnswer::Blocked);
        }
        Ok(self.enter_list(thread, key, valid, park_token, timed))
    }

    // Puts a running thread last in the list of a key whose bucket no section holds, if it is
    // valid.
    fn enter_list(
        &mut self,
        thread: usize,
        key: usize,
        valid: bool,
        park_token: ParkToken,
        timed: bool,
    ) -> FineAnswer
        requires runs { (fine_state self.old).threads_view.status thread ≡ Status.Running }
        requires free { is_held (fine_state self.old) key ≡ false }
        ensures { IsFineStep (fine_state self.old)
            (FineStep.Enter thread key valid park_token timed) result (fine_state self.new) }
    {
        // The thread runs, as `enter` has seen.
        let mut node = self.threads[thread].start_waiting(timed).unwrap();
        node.prepare(key, park_token, timed);
        match self.table.enter(node, || valid) {
            Ok(()) => {
                self.threads[thread].set_key_word(key);
                FineAnswer::Answer(Answer::Entered)
            }
            Err(node) => {
                self.threads[thread].stop_waiting(node);
                FineAnswer::Answer(Answer::Invalid)
            }
        }
    }

    fn register(&mut self) -> FineAnswer
        ensures { IsFineStep (fine_state self.old) FineStep.Register result
            (fine_state self.new) }
    {
        if self.table.registered() == self.threads.len() {
            return FineAnswer::Answer(Answer::Full);
        }
        if self.is_growth_blocked() {
            return FineAnswer::Blocked;
        }
        self.add_thread()
    }

    // Registers a thread under the least free number, of which there is one, in a table that grows
    // if it has to and may.
    fn add_thread(&mut self) -> FineAnswer
        requires not_full { is_full (fine_state self.old) ≡ false }
        requires not_blocked { is_growth_blocked (fine_state self.old) ≡ false }
        ensures { IsFineStep (fine_state self.old) FineStep.Register result
            (fine_state self.new) }
    {
        // Its number is not known yet.
        let Ok(mut node) = Node::new(*self.threads.allocator(), 0) else {
            return FineAnswer::Answer(Answer::NoMemory);
        };
        let Ok(number) = self.table.register() else {
            return FineAnswer::Answer(Answer::NoMemory);
        };
        node.number = number;
        self.threads[number].register(node);
        FineAnswer::Answer(Answer::Registered(number))
    }

    fn trim(&mut self) -> FineAnswer
        ensures { IsFineStep (fine_state self.old) FineStep.Trim result (fine_state self.new) }
    {
        if self.table.is_too_large() && self.is_any_open() {
            return FineAnswer::Blocked;
        }
        match self.table.trim() {
            Ok(()) => FineAnswer::Answer(Answer::Trimmed),
            Err(NoMemory) => FineAnswer::Answer(Answer::NoMemory),
        }
    }

    // Whether an open section holds a bucket of the operation's keys.
    fn is_any_held(&self, op: &Op) -> bool
        ensures { result ≡ list_any (is_held (fine_state self.now)) (keys_of op.now) }
    {
        match op {
            Op::One { key, .. } | Op::All { key, .. } | Op::Filter { key, .. } => {
                self.is_held(*key)
            }
            Op::Requeue { from, to, .. } => self.is_held(*from) || self.is_held(*to),
        }
    }

    // Whether an open section holds the bucket of the key.
    fn is_held(&self, key: usize) -> bool
        ensures { result ≡ is_held (fine_state self.now) key }
    {
        let place = place(key, self.table.size());
        self.callers.iter().any(|caller| caller.holds(place))
    }

    // Whether one registration more would make the table grow while a section is open.
    fn is_growth_blocked(&self) -> bool
        ensures { result ≡ is_growth_blocked (fine_state self.now) }
    {
        self.table.is_too_small_for_one_more() && self.is_any_open()
    }

    fn is_any_open(&self) -> bool
        ensures { result ≡ is_any_open (fine_state self.now) }
    {
        self.callers.iter().any(|caller| caller.is_open())
    }
}
