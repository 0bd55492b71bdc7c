//! What a thread does with the instruction at which it is.

ghost use Rattle.std.specs.Prelude.{◌≡◌, ◌&&◌, ◌<◌, slice_set, Option, Some, None};
ghost use Rattle.lot_litmus.specs.Steps.{advanced, unended, unlocked, locking, is_free, is_valid, where_free};
ghost use Rattle.lot_machine.specs.Machine.{is_last};
ghost use Rattle.lot_litmus.specs.View.{configuration_of, machine_of};
ghost use Rattle.lot_litmus.specs.Performing.{performed_of};

use crate::code::{Instruction, Key, Local, THREADS, Thread, Validation, Word};
use crate::parking::{Park, Sleep};
use crate::state::{Progress, State};
use crate::test::{Fault, Test};

/// What a thread does with an instruction.
#[derive(Clone, Copy)]
pub(crate) enum Performed {
    /// It cannot do it now.
    Cannot,

    /// It has come so far, and the others see the state as it is then.
    Does(Progress),

    /// It shows a fault.
    Mistakes(Fault),
}

impl Performed {
    // What was performed, if it could be.
    fn only_if(self, is_free: bool) -> Performed
        ensures { (s : State) → performed_of result s ≡ where_free is_free (performed_of self s) }
    {
        if is_free { self } else { Performed::Cannot }
    }
}

impl Test {
    /// Returns how many threads have not ended.
    pub fn unended(&self, state: &State) -> usize
        ensures { result ≡ unended self.now.codes state.now.threads }
    {
        let mut count = 0;
        for index in 0..THREADS {
            let instruction = self.codes[index].at(state.threads[index].at);
            if instruction.is_some() {
                count += 1;
            }
        }
        count
    }
}

impl State {
    // Whether the validation says that the thread is to wait.
    fn is_valid(&self, progress: Progress, validation: Validation) -> bool
        ensures { result ≡ is_valid (configuration_of self.now) progress validation }
    {
        match validation {
            Validation::Given(operand) => progress.value(operand) != 0,
            Validation::Seen {
                word,
                operation,
                operand,
            } => operation.holds(self.words[word.index()], progress.value(operand)),
        }
    }

    fn set_word(&mut self, word: Word, number: u8)
        ensures { self.new
            ≡ record self.old { words = slice_set self.old.words word.number number } }
    {
        self.words[word.index()] = number;
    }
}

impl State {
    ghost use Rattle.lot_litmus.specs.Steps.{updated, Does};

    // What the word was goes to the local, and what was made to the word.
    fn update(&mut self, progress: Progress, to: Local, word: Word, made: Option<u8>) -> Performed
        requires { progress.at < 65535 }
        ensures { performed_of result self.new
            ≡ updated (configuration_of self.old) progress to word made }
    {
        match made {
            Some(number) => {
                let old = self.words[word.index()];
                self.set_word(word, number);
                Performed::Does(progress.advanced_with(to, old))
            }
            None => Performed::Mistakes(Fault::Overflow),
        }
    }
}

impl State {
    ghost use Rattle.lot_machine.specs.Machine.{IsConsistent};
    ghost use Rattle.lot_litmus.specs.Steps.{performed};

    // What the thread does with the instruction at which it is.
    pub(crate) fn perform(
        &mut self,
        test: &Test,
        thread: Thread,
        progress: Progress,
        instruction: Instruction,
    ) -> Performed
        requires at { progress.at < 65535 }
        requires consistent { IsConsistent (machine_of self.old.queues self.old.standings) }
        ensures { performed_of result self.new ≡ performed test.now (configuration_of self.old)
            thread.number progress (Some instruction) }
    {
        match instruction {
            Instruction::Pass => Performed::Does(progress.advanced()),
            Instruction::Leave => Performed::Does(progress.outside().advanced()),
            Instruction::Read { to, word } => {
                Performed::Does(progress.advanced_with(to, self.words[word.index()]))
            }
            Instruction::Write { word, operand } => {
                self.set_word(word, progress.value(operand));
                Performed::Does(progress.advanced())
            }
            Instruction::Update {
                to,
                word,
                operation,
                operand,
            } => {
                let made = operation.make(self.words[word.index()], progress.value(operand));
                self.update(progress, to, word, made)
            }
            Instruction::CompareExchange {
                to,
                word,
                expected,
                new,
            } => {
                let old = self.words[word.index()];
                let is_met = old == progress.value(expected);
                let made = if is_met { progress.value(new) } else { old };
                self.update(progress, to, word, Some(made))
            }
            Instruction::Await {
                word,
                operation,
                operand,
            } => {
                let holds = operation.holds(self.words[word.index()], progress.value(operand));
                Performed::Does(progress.advanced()).only_if(holds)
            }
            Instruction::AwaitOthers => {
                let is_last = test.unended(self) == 1;
                Performed::Does(progress.advanced()).only_if(is_last)
            }
            Instruction::Lock { key, other } => {
                let locking = progress.locking(test, key).locking(test, other).advanced();
                let are_free = self.is_free(test, thread, progress, key)
                    && self.is_free(test, thread, progress, other);
                Performed::Does(locking).only_if(are_free)
            }
            Instruction::Unlock => { Performed::Does(progress.unlocked().advanced()) }
            Instruction::Park {
                key,
                validation,
                token,
                timing,
                target,
            } => {
                let token = progress.value(token);
                let park = Park {
                    key,
                    token,
                    timing,
                    target,
                };
                let is_valid = self.is_valid(progress, validation);
                self.come_to_park(test, thread, progress, park, is_valid)
            }
            Instruction::UnparkOne { key, token } => {
                let is_free = self.is_free(test, thread, progress, key);
                self.unpark_one(progress, key, progress.value(token))
                    .only_if(is_free)
            }
            Instruction::UnparkAll { key, token } => {
                let is_free = self.is_free(test, thread, progress, key);
                self.unpark_all(progress, key, progress.value(token))
                    .only_if(is_free)
            }
            Instruction::UnparkFilter { key, chosen, token } => {
                let is_free = self.is_free(test, thread, progress, key);
                let chosen = progress.value(chosen);
                self.unpark_filter(progress, key, chosen, progress.value(token))
                    .only_if(is_free)
            }
            Instruction::Requeue {
                key,
                other,
                moves,
                token,
            } => {
                let are_free = self.is_free(test, thread, progress, key)
                    && self.is_free(test, thread, progress, other);
                self.requeue(progress, key, other, moves, progress.value(token))
                    .only_if(are_free)
            }
            Instruction::Sleep { to, last, target } => {
                let sleep = Sleep { to, last, target };
                self.sleep(test, thread, progress, sleep, self.standing(thread))
            }
            Instruction::GiveUp => self.give_up(thread, progress),
            _ => Performed::Does(progress),
        }
    }
}
