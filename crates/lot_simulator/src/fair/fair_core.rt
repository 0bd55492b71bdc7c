//! This module has the fair mutex and its condition variable, on an exclusive lot.

ghost use Rattle.std.specs.Prelude.{◌≡◌, ◌≢◌, ◌↔◌, ℕ, ◌<◌, [], Err, IsTrue, IsFalse, IsErrOf, IfOk, OnErr};
ghost use Rattle.lot_machine.specs.declared.numbers.TheConstants.{MAX_THREADS};
ghost use Rattle.lot_simulator.specs.FairMachine.{new_fair_state, IsLocked, IsUnlocked, IsFairConsistent};
ghost use Rattle.lot_simulator.specs.FairSteps.{IsFairStep, IsRelease, IsNotifyBy, FitsNotify};
ghost use Rattle.lot_simulator.specs.FairCore.{fair_state};

use super::schedule::{FairAnswer, FairStep};
use crate::lot::{Lot, Status};
use lot_base::token::{DEFAULT_PARK_TOKEN, DEFAULT_UNPARK_TOKEN, LotError, NoMemory, RequeueOp};
use std::alloc::Global;
use std::marker::Model;

/// The key on which threads wait for the mutex.
const MUTEX_KEY: usize = 0;

/// The key on which threads wait for the condition variable.
const CONDVAR_KEY: usize = 1;

/// A `FairStatus` says what a thread number is doing.
#[derive(Copy, Clone, Eq, PartialEq, Debug)]
pub enum FairStatus {
    /// The number is not registered. No step of that number is allowed.
    Free,

    /// The thread neither holds the mutex nor waits.
    Idle,

    /// The thread holds the mutex.
    Holding,

    /// The thread waits for the mutex or on the condition variable.
    Queued,

    /// The thread is in the list of the condition variable, and still holds the mutex.
    Leaving,

    /// The thread was handed the mutex, and has not gone on yet.
    Handed,
}

// Who holds the mutex.
#[derive(Copy, Clone, Eq, PartialEq, Debug)]
enum Holder {
    // Nobody.
    Nobody,

    // The one thread that the lot took and that has not returned.
    Taken,

    // This thread, which runs, or waits and has still to leave.
    Thread(usize),
}

/// A `FairCore` is a fair mutex and a condition variable for one caller at a time, which takes
/// every step of every thread.
///
/// It is for simulators and schedulers. Threads are named by their numbers. What a step does is
/// said by a small machine. Its state, `fair_state` of the core, has the threads that wait for the
/// mutex and those that sleep on the condition variable, each in order of arrival, and what each
/// thread is doing. A step that is not allowed is answered `Misfit` and changes nothing.
///
/// Only `new`, a registration and the lists allocate. No call takes a lock.
#[derive(Drop)]
pub struct FairCore {
    lot: Lot,
    holder: Holder,
}

impl Model for FairCore {
    ghost use Rattle.lot_simulator.specs.FairCoreState.{FairCoreState};

    ghost Value = { FairCoreState };

    ghost use Rattle.lot_simulator.specs.FairCore.{IsFairCore};

    ghost view = { λ core. record { lot = core.lot; holder = core.holder } };

    ghost invariant = { λ core. IsFairCore (record { lot = core.lot; holder = core.holder }) };
}

impl FairCore {
    /// Creates a mutex that nobody holds and a condition variable on which nobody sleeps, for at
    /// most `max_threads` threads, none of which is registered.
    ///
    /// It costs what `Lot::new` costs.
    ///
    /// # Errors
    ///
    /// Returns `TooManyThreads` if and only if `max_threads` is above `MAX_THREADS`. Otherwise
    /// returns `NoMemory` if there is not enough memory.
    pub fn new(alloc: Global, max_threads: usize) -> Result<FairCore, LotError>
        ensures too_many { IsErrOf result LotError.TooManyThreads ↔ (MAX_THREADS < max_threads) }
        ensures not_full { result ≢ Err LotError.Full }
        ensures ok { IfOk result (λ core. fair_state core ≡ new_fair_state max_threads) }
    {
        let lot = Lot::new(alloc, max_threads)?;
        Ok(FairCore {
            lot,
            holder: Holder::Nobody,
        })
    }

    /// Returns the numbers of the threads that wait for the mutex, in order. It costs one
    /// `Lot::list`.
    ///
    /// # Errors
    ///
    /// Returns `NoMemory` if there is not enough memory for the list. An empty list needs none.
    pub fn waiters(&self) -> Result<Vec<usize>, NoMemory>
        ensures refused { OnErr result ((fair_state self.now).waiters ≢ []) }
        ensures numbers { IfOk result (λ numbers. numbers.items ≡ (fair_state self.now).waiters) }
    {
        self.lot.list(MUTEX_KEY)
    }

    /// Returns the numbers of the threads that sleep on the condition variable, in order. It costs
    /// one `Lot::list`.
    ///
    /// # Errors
    ///
    /// Returns `NoMemory` if there is not enough memory for the list. An empty list needs none.
    pub fn sleepers(&self) -> Result<Vec<usize>, NoMemory>
        ensures refused { OnErr result ((fair_state self.now).sleepers ≢ []) }
        ensures numbers { IfOk result (λ numbers. numbers.items ≡ (fair_state self.now).sleepers) }
    {
        self.lot.list(CONDVAR_KEY)
    }

    /// Returns whether a thread holds the mutex: whether one is `Holding`, `Leaving` or `Handed`.
    pub fn is_locked(&self) -> bool
        ensures locked { IsTrue result ↔ IsLocked (fair_state self.now) }
        ensures unlocked { IsFalse result ↔ IsUnlocked (fair_state self.now) }
    {
        self.holder != Holder::Nobody
    }

    /// Returns what the number is doing.
    ///
    /// A number that is not below the greatest number of threads is `Free`.
    pub fn status(&self, number: usize) -> FairStatus
        ensures { result ≡ (fair_state self.now).status number }
    {
        let is_noted = self.holder == Holder::Thread(number);
        match self.lot.status(number) {
            Status::Free => FairStatus::Free,
            Status::Running if is_noted => FairStatus::Holding,
            Status::Running => FairStatus::Idle,
            Status::Waiting { .. } | Status::Late if is_noted => FairStatus::Leaving,
            Status::Waiting { .. } | Status::Late => FairStatus::Queued,
            Status::Taken(_) => FairStatus::Handed,
        }
    }

    /// Does nothing, and states what always holds of a core.
    ///
    /// At most one thread holds the mutex. Nobody waits for it while nobody holds it. Each thread
    /// that is `Queued` or `Leaving` is in exactly one of the two lists, once, and any other thread
    /// is in none.
    pub fn consistency(&self)
        ensures { IsFairConsistent (fair_state self.now) }
    {
        // A use of a field opens what the type keeps.
        let _ = &self.holder;
    }

    /// Does the step, and returns its answer.
    ///
    /// It costs what one call of the lot costs: `register`, `retire`, `enter` for `Lock` and
    /// `Wait`, `unpark_one` for `Unlock` and `Leave`, `give_back` for `Return`, and
    /// `unpark_requeue` for a notify.
    pub fn apply(&mut self, step: &FairStep) -> FairAnswer
        ensures { IsFairStep (fair_state self.old) step.now result (fair_state self.new) }
    {
        match step {
            FairStep::Register => self.register(),
            FairStep::Retire { thread } => self.retire(*thread),
            FairStep::Lock { thread } => self.lock(*thread),
            FairStep::Unlock { thread } => self.unlock(*thread),
            FairStep::Return { thread } => self.give_back(*thread),
            FairStep::Wait { thread } => self.wait(*thread),
            FairStep::Leave { thread } => self.leave(*thread),
            FairStep::NotifyOne => self.notify_one(),
            FairStep::NotifyAll => self.notify_all(),
        }
    }

    fn register(&mut self) -> FairAnswer
        ensures { IsFairStep (fair_state self.old) FairStep.Register result (fair_state self.new) }
    {
        match self.lot.register() {
            Ok(number) => FairAnswer::Registered(number),
            Err(LotError::Full) => FairAnswer::Full,
            Err(_) => FairAnswer::NoMemory,
        }
    }

    fn retire(&mut self, thread: usize) -> FairAnswer
        ensures { IsFairStep (fair_state self.old) (FairStep.Retire thread) result
            (fair_state self.new) }
    {
        if self.status(thread) != FairStatus::Idle {
            return FairAnswer::Misfit;
        }
        // An idle thread runs.
        self.lot.retire(thread).unwrap();
        FairAnswer::Retired
    }

    fn lock(&mut self, thread: usize) -> FairAnswer
        ensures { IsFairStep (fair_state self.old) (FairStep.Lock thread) result
            (fair_state self.new) }
    {
        if self.status(thread) != FairStatus::Idle {
            return FairAnswer::Misfit;
        }
        if !self.is_locked() {
            self.holder = Holder::Thread(thread);
            return FairAnswer::Locked;
        }
        // An idle thread runs.
        self.lot
            .enter(thread, MUTEX_KEY, || true, DEFAULT_PARK_TOKEN, false)
            .unwrap();
        FairAnswer::Queued
    }

    fn unlock(&mut self, thread: usize) -> FairAnswer
        ensures { IsFairStep (fair_state self.old) (FairStep.Unlock thread) result
            (fair_state self.new) }
    {
        if self.status(thread) != FairStatus::Holding {
            return FairAnswer::Misfit;
        }
        self.release(thread)
    }

    fn leave(&mut self, thread: usize) -> FairAnswer
        ensures { IsFairStep (fair_state self.old) (FairStep.Leave thread) result
            (fair_state self.new) }
    {
        if self.status(thread) != FairStatus::Leaving {
            return FairAnswer::Misfit;
        }
        self.release(thread)
    }

    // Takes the mutex from this thread, and hands it to the first that waits.
    fn release(&mut self, thread: usize) -> FairAnswer
        requires { self.old.holder ≡ Holder.Thread thread }
        ensures { IsRelease (fair_state self.old) thread result (fair_state self.new) }
    {
        let result = self.lot.unpark_one(MUTEX_KEY, |_| DEFAULT_UNPARK_TOKEN);
        if result.unparked_threads > 0 {
            self.holder = Holder::Taken;
            FairAnswer::Unlocked { handed: true }
        } else {
            self.holder = Holder::Nobody;
            FairAnswer::Unlocked { handed: false }
        }
    }

    fn give_back(&mut self, thread: usize) -> FairAnswer
        ensures { IsFairStep (fair_state self.old) (FairStep.Return thread) result
            (fair_state self.new) }
    {
        if self.status(thread) != FairStatus::Handed {
            return FairAnswer::Misfit;
        }
        // A thread that was handed the mutex was taken by the lot.
        self.lot.give_back(thread).unwrap();
        self.holder = Holder::Thread(thread);
        FairAnswer::Locked
    }

    fn wait(&mut self, thread: usize) -> FairAnswer
        ensures { IsFairStep (fair_state self.old) (FairStep.Wait thread) result
            (fair_state self.new) }
    {
        if self.status(thread) != FairStatus::Holding {
            return FairAnswer::Misfit;
        }
        // A holding thread runs.
        self.lot
            .enter(thread, CONDVAR_KEY, || true, DEFAULT_PARK_TOKEN, false)
            .unwrap();
        FairAnswer::Waiting
    }

    fn notify_one(&mut self) -> FairAnswer
        ensures { IsFairStep (fair_state self.old) FairStep.NotifyOne result (fair_state self.new) }
    {
        if self.is_locked() {
            self.notify(RequeueOp::RequeueOne)
        } else {
            self.notify(RequeueOp::UnparkOne)
        }
    }

    fn notify_all(&mut self) -> FairAnswer
        ensures { IsFairStep (fair_state self.old) FairStep.NotifyAll result (fair_state self.new) }
    {
        if self.is_locked() {
            self.notify(RequeueOp::RequeueAll)
        } else {
            self.notify(RequeueOp::UnparkOneRequeueRest)
        }
    }

    // Moves threads from the condition variable to the mutex.
    fn notify(&mut self, op: RequeueOp) -> FairAnswer
        requires { FitsNotify (fair_state self.old) op }
        ensures { IsNotifyBy (fair_state self.old) op result (fair_state self.new) }
    {
        let result = self
            .lot
            .unpark_requeue(CONDVAR_KEY, MUTEX_KEY, || op, |_, _| DEFAULT_UNPARK_TOKEN);
        if result.unparked_threads > 0 {
            self.holder = Holder::Taken;
        }
        FairAnswer::Notified(result)
    }
}
