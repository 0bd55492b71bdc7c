//! This module has what a lot keeps for each thread number, and where the thread's node is.

ghost use Rattle.std.specs.Prelude.{◌≡◌, ◌≢◌, ◌↔◌, true, [], Err, IsTrue, IsOk, IfOk, OnOk, OnErr, map, slice_set};
ghost use Rattle.std.specs.List.{range_with_len};
ghost use Rattle.lot_base.specs.Node.{fields};
ghost use Rattle.lot_simulator.specs.Lot.{statuses, thread_at, free_thread};
ghost use Rattle.lot_machine.specs.Records.{times_recorded, one_more, one_less};
ghost use Rattle.lot_machine.specs.Status.{is_queued, is_taken};
ghost use Rattle.lot_simulator.specs.Private.Commit.{threads_with_key, threads_after_commit, CanCommit};

use super::Status;
use lot_base::queue::{Node, Queue};
use lot_base::token::{Misfit, NoMemory, StepError, UnparkToken};
use lot_machine::records::Records;
use std::alloc::Global;
use std::marker::Model;
use std::mem;

// What a thread number is doing, with the thread's node while that is with the thread: a taken one
// has the token in it.
#[derive(Drop)]
enum State {
    Free,
    Running(Box<Node>),
    Waiting { timed: bool },
    Late,
    Taken(Box<Node>),
}

/// A `Thread` is what a lot keeps for one thread number.
///
/// It has the status of the thread, the key on which the thread waits or last waited, the records
/// of what the thread holds, and the thread's node while the thread runs or is taken. Both lots
/// without threads have one for each number. In the interleaved lot no `Thread` is ever taken,
/// because a slot beside it has the node then.
#[derive(Drop)]
pub struct Thread {
    number: usize,
    key: usize,
    state: State,
    records: Records,
}

impl Model for Thread {
    ghost use Rattle.lot_simulator.specs.LotState.{ThreadState};

    ghost Value = { ThreadState };

    ghost use Rattle.lot_simulator.specs.Private.Thread.{status_of, HasOwnNode};

    ghost view = { λ thread. record {
      number = thread.number;
      key = thread.key;
      status = status_of thread.state;
      records = thread.records;
    } };

    ghost invariant = { λ thread. HasOwnNode thread.number thread.state };
}

impl Thread {
    /// Creates a free number, with key 0 and no records. It allocates nothing.
    pub fn new(alloc: Global, number: usize) -> Thread
        ensures { result ≡ free_thread number }
    {
        Thread {
            number,
            key: 0,
            state: State::Free,
            records: Records::new(alloc),
        }
    }

    /// Returns the key that was set last.
    pub fn key(&self) -> usize
        ensures { result ≡ self.now.key }
    {
        self.key
    }

    /// Sets the key, which is that of the list in which a waiting thread is.
    pub fn set_key(&mut self, key: usize)
        ensures { self.new ≡ record self.old { key = key } }
    {
        self.key = key;
    }

    /// Returns the status of the thread.
    pub fn status(&self) -> Status
        ensures { result ≡ self.now.status }
    {
        match &self.state {
            State::Free => Status::Free,
            State::Running(_) => Status::Running,
            State::Waiting { timed } => Status::Waiting { timed: *timed },
            State::Late => Status::Late,
            State::Taken(node) => Status::Taken(node.unpark_token),
        }
    }

    /// Gives a free number its node, and lets its thread run.
    pub fn register(&mut self, node: Box<Node>)
        requires number { (fields node.value).number ≡ self.old.number }
        requires free { self.old.status ≡ Status.Free }
        ensures { self.new ≡ record self.old { status = Status.Running } }
    {
        self.state = State::Running(node);
    }

    /// Drops the node and the records of a running thread, whose number is then free.
    ///
    /// # Errors
    ///
    /// Returns `Misfit` if and only if the thread is not running. Nothing was changed then.
    pub fn retire(&mut self) -> Result<(), Misfit>
        ensures fits { IsOk result ↔ (self.old.status ≡ Status.Running) }
        ensures ok { OnOk result (self.new
            ≡ record self.old { status = Status.Free; records = [] }) }
        ensures err { OnErr result (self.new ≡ self.old) }
    {
        match mem::replace(&mut self.state, State::Free) {
            State::Running(_) => {
                self.records.clear();
                Ok(())
            }
            state => {
                self.state = state;
                Err(Misfit)
            }
        }
    }

    /// Takes the node of a running thread, which waits from then on. Its key stays as it is.
    ///
    /// # Errors
    ///
    /// Returns `Misfit` if and only if the thread is not running. Nothing was changed then.
    pub fn start_waiting(&mut self, timed: bool) -> Result<Box<Node>, Misfit>
        ensures fits { IsOk result ↔ (self.old.status ≡ Status.Running) }
        ensures ok { IfOk result (λ node. ((fields node.value).number ≡ self.old.number)
            × (self.new ≡ record self.old { status = Status.Waiting timed })) }
        ensures err { OnErr result (self.new ≡ self.old) }
    {
        match mem::replace(&mut self.state, State::Waiting { timed }) {
            State::Running(node) => Ok(node),
            state => {
                self.state = state;
                Err(Misfit)
            }
        }
    }

    /// Gives its node back to a thread that is no longer in a list, and lets the thread run.
    pub fn stop_waiting(&mut self, node: Box<Node>)
        requires number { (fields node.value).number ≡ self.old.number }
        requires queued { IsTrue (is_queued self.old.status) }
        ensures { self.new ≡ record self.old { status = Status.Running } }
    {
        self.state = State::Running(node);
    }

    // Hands a waiting thread its node: this is the commit of an unpark.
    fn unpark(&mut self, node: Box<Node>)
        requires number { (fields node.value).number ≡ self.old.number }
        requires queued { IsTrue (is_queued self.old.status) }
        ensures { self.new ≡ record self.old {
          status = Status.Taken
              (fields node.value).unpark_token;
        } }
    {
        self.state = State::Taken(node);
    }

    /// Lets the deadline pass of a thread that waits with a timeout.
    ///
    /// # Errors
    ///
    /// Returns `Misfit` if and only if the thread does not wait with a timeout, or its deadline has
    /// already passed. Nothing was changed then.
    pub fn deadline(&mut self) -> Result<(), Misfit>
        ensures fits { IsOk result ↔ (self.old.status ≡ Status.Waiting true) }
        ensures ok { OnOk result (self.new ≡ record self.old { status = Status.Late }) }
        ensures err { OnErr result (self.new ≡ self.old) }
    {
        let State::Waiting { timed: true } = self.state else {
            return Err(Misfit);
        };
        self.state = State::Late;
        Ok(())
    }

    // How often the key is recorded.
    pub(super) fn records(&self, key: usize) -> usize
        ensures { result ≡ times_recorded self.now.records key }
    {
        self.records.times(key)
    }

    /// Records the key once more for a running thread. It may allocate.
    ///
    /// # Errors
    ///
    /// Returns `Misfit` if and only if the thread is not running. Otherwise returns `NoMemory` if
    /// there is not enough memory. Nothing was changed then.
    pub fn acquire(&mut self, key: usize) -> Result<(), StepError>
        ensures fits { result ≢ Err StepError.Misfit ↔ (self.old.status ≡ Status.Running) }
        ensures kept { self.new ≡ record self.old { records = self.new.records } }
        ensures ok { OnOk result (times_recorded self.new.records
            ≡ one_more (times_recorded self.old.records) key) }
        ensures err { OnErr result (self.new ≡ self.old) }
    {
        let State::Running(_) = &self.state else {
            return Err(StepError::Misfit);
        };
        match self.records.acquire(key) {
            Ok(()) => Ok(()),
            Err(NoMemory) => Err(StepError::NoMemory),
        }
    }

    /// Records the key once less for a running thread, if it was recorded.
    ///
    /// # Errors
    ///
    /// Returns `Misfit` if and only if the thread is not running. Nothing was changed then.
    pub fn release(&mut self, key: usize) -> Result<(), Misfit>
        ensures fits { IsOk result ↔ (self.old.status ≡ Status.Running) }
        ensures kept { self.new ≡ record self.old { records = self.new.records } }
        ensures ok { OnOk result (times_recorded self.new.records
            ≡ one_less (times_recorded self.old.records) key) }
        ensures err { OnErr result (self.new ≡ self.old) }
    {
        let State::Running(_) = &self.state else {
            return Err(Misfit);
        };
        self.records.release(key);
        Ok(())
    }

    // Lets a thread run that was handed its node, and answers the token in it.
    pub(super) fn give_back(&mut self) -> Result<UnparkToken, Misfit>
        ensures fits { IsOk result ↔ IsTrue (is_taken self.old.status) }
        ensures ok { IfOk result (λ token. (self.old.status ≡ Status.Taken token)
            × (self.new ≡ record self.old { status = Status.Running })) }
        ensures err { OnErr result (self.new ≡ self.old) }
    {
        match mem::replace(&mut self.state, State::Free) {
            State::Taken(node) => {
                let token = node.unpark_token;
                self.state = State::Running(node);
                Ok(token)
            }
            state => {
                self.state = state;
                Err(Misfit)
            }
        }
    }
}

// So many numbers, all of them free.
pub(super) fn free_threads(alloc: Global, max_threads: usize) -> Result<Vec<Thread>, NoMemory>
    ensures { IfOk result (λ threads. threads.items
        ≡ map free_thread (range_with_len 0 max_threads)) }
{
    let mut threads = Vec::with_capacity(alloc, max_threads)?;
    for number in 0..max_threads {
        threads.push(Thread::new(alloc, number))?;
    }
    Ok(threads)
}

// Takes the node of a running thread, which waits on the key from then on.
pub(super) fn start_waiting(
    threads: &mut Vec<Thread>,
    number: usize,
    key: usize,
    timed: bool,
) -> Result<Box<Node>, Misfit>
    requires { (thread_at threads.old.items number).number ≡ number }
    ensures fits { IsOk result ↔ (statuses threads.old.items number ≡ Status.Running) }
    ensures node { IfOk result (λ node. (fields node.value).number ≡ number) }
    ensures ok { OnOk result (threads.new.items
        ≡ slice_set threads.old.items number (record (thread_at threads.old.items number) {
          key = key;
          status = Status.Waiting timed;
        })) }
    ensures err { OnErr result (threads.new.items ≡ threads.old.items) }
{
    let thread = threads.get_mut(number).ok_or(Misfit)?;
    let node = thread.start_waiting(timed)?;
    thread.set_key(key);
    Ok(node)
}

// Lets a waiting thread know that it waits on another key.
pub(super) fn set_key(threads: &mut Vec<Thread>, number: usize, key: usize)
    ensures { threads.new.items ≡ threads_with_key threads.old.items number key }
{
    if let Some(thread) = threads.get_mut(number) {
        thread.set_key(key);
    }
}

// Hands each of the nodes to its thread.
pub(super) fn commit(threads: &mut Vec<Thread>, taken: Queue)
    requires { CanCommit taken threads.old.items }
    ensures { threads.new.items ≡ threads_after_commit taken threads.old.items }
{
    let mut rest = taken;
    while let Some(node) = rest.pop_front() {
        let number = node.number;
        threads[number].unpark(node);
    }
}
