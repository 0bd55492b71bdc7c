//! This module has what an interleaved lot keeps for each thread number, and where the thread's
//! node is.

ghost use Rattle.std.specs.Prelude.{◌≡◌, ◌≢◌, ◌↔◌, [], Bool, true, Some, None, Err, IsTrue, IsOk, IfOk, OnOk, OnErr, IfSome, IfNone, map};
ghost use Rattle.std.specs.List.{range_with_len};
ghost use Rattle.lot_base.specs.Node.{fields};
ghost use Rattle.lot_simulator.specs.FineLot.{free_fine_thread};
ghost use Rattle.lot_simulator.specs.Private.FineThread.{with_state, with_recorded, with_empty_slot};
ghost use Rattle.lot_simulator.specs.Private.FineSection.{fine_threads_with_key};
ghost use Rattle.lot_machine.specs.Records.{times_recorded, one_more, one_less};
ghost use Rattle.lot_machine.specs.Status.{is_running, is_queued};

use crate::lot::Status;
use crate::lot::thread::Thread;
use lot_base::queue::Node;
use lot_base::thread_parker::Slot;
use lot_base::token::{Misfit, NoMemory, StepError, UnparkToken};
use std::alloc::Global;
use std::marker::Model;

// What the lot keeps for a thread number. Its thread tells what it is doing to its own knowledge,
// and its key is the key word. The node of a registered thread is with it while it runs, in a
// bucket while it waits, with a section that took it until the commit, and in the slot from then
// on. A late thread may have read its key word.
#[derive(Drop)]
pub(super) struct FineThread {
    thread: Thread,
    key_read: Option<usize>,
    slot: Slot,
}

impl Model for FineThread {
    ghost use Rattle.lot_simulator.specs.FineLotState.{FineThreadState};

    ghost Value = { FineThreadState };

    ghost use Rattle.lot_simulator.specs.Private.FineThread.{first_token, MayHaveItsNode};

    ghost view = { λ t. record {
      thread = t.thread;
      key_read = t.key_read;
      slot = first_token t.slot.nodes;
    } };

    ghost invariant = { λ t. MayHaveItsNode t.thread t.key_read t.slot };
}

impl FineThread {
    fn new(alloc: Global, number: usize) -> FineThread
        ensures { result ≡ free_fine_thread number }
    {
        FineThread {
            thread: Thread::new(alloc, number),
            key_read: None,
            slot: Slot::new(number),
        }
    }

    pub(super) fn key_word(&self) -> usize
        ensures { result ≡ self.now.thread.key }
    {
        self.thread.key()
    }

    pub(super) fn set_key_word(&mut self, key: usize)
        ensures { self.new ≡ record self.old { thread = record self.old.thread { key = key } } }
    {
        self.thread.set_key(key);
    }

    // The key that the thread has read, if it is late and has read one.
    pub(super) fn key_read(&self) -> Option<usize>
        ensures { result ≡ self.now.key_read }
    {
        self.key_read
    }

    pub(super) fn is_running(&self) -> bool
        ensures { result ≡ is_running self.now.thread.status }
    {
        matches!(self.thread.status(), Status::Running)
    }

    // Gives the thread of a free number its node, and lets it run.
    pub(super) fn register(&mut self, node: Box<Node>)
        requires number { (fields node.value).number ≡ self.old.thread.number }
        requires free { self.old.thread.status ≡ Status.Free }
        ensures { self.new ≡ with_state self.old Status.Running None }
    {
        self.thread.register(node);
    }

    // Drops the node and the records of a running thread.
    pub(super) fn retire(&mut self) -> Result<(), Misfit>
        ensures fits { IsOk result ↔ (self.old.thread.status ≡ Status.Running) }
        ensures ok { OnOk result (self.new
            ≡ with_recorded (with_state self.old Status.Free None) []) }
        ensures err { OnErr result (self.new ≡ self.old) }
    {
        self.thread.retire()
    }

    // Takes the node of a running thread, which waits from then on.
    pub(super) fn start_waiting(&mut self, timed: bool) -> Result<Box<Node>, Misfit>
        ensures fits { IsOk result ↔ (self.old.thread.status ≡ Status.Running) }
        ensures ok { IfOk result (λ node. ((fields node.value).number ≡ self.old.thread.number)
            × (self.old.slot ≡ None)
            × (self.new ≡ with_state self.old (Status.Waiting timed) None)) }
        ensures err { OnErr result (self.new ≡ self.old) }
    {
        self.thread.start_waiting(timed)
    }

    // Gives its node back to a thread that waits in no list any more, and lets it run.
    pub(super) fn stop_waiting(&mut self, node: Box<Node>)
        requires number { (fields node.value).number ≡ self.old.thread.number }
        requires queued { IsTrue (is_queued self.old.thread.status) }
        requires empty { self.old.slot ≡ None }
        ensures { self.new ≡ with_state self.old Status.Running None }
    {
        self.key_read = None;
        self.thread.stop_waiting(node);
    }

    // Puts the node of a thread that waits or is late into its slot: this is the commit of an
    // unpark.
    pub(super) fn unpark(&mut self, node: Box<Node>)
        requires number { (fields node.value).number ≡ self.old.thread.number }
        requires queued { IsTrue (is_queued self.old.thread.status) }
        requires empty { self.old.slot ≡ None }
        ensures { self.new ≡ record self.old { slot = Some (fields node.value).unpark_token } }
    {
        self.slot.put(node);
    }

    // Lets the deadline of a thread pass that waits with a timeout and whose slot is empty.
    pub(super) fn deadline(&mut self) -> Result<(), Misfit>
        ensures fits { IsOk result
            ↔ ((self.old.thread.status ≡ Status.Waiting true) × (self.old.slot ≡ None)) }
        ensures ok { OnOk result (self.new ≡ with_state self.old Status.Late None) }
        ensures err { OnErr result (self.new ≡ self.old) }
    {
        if !self.slot.is_empty() {
            return Err(Misfit);
        }
        self.thread.deadline()
    }

    // Reads the key word of a late thread, which is to look by it.
    pub(super) fn read_key(&mut self) -> Result<usize, Misfit>
        ensures fits { IsOk result ↔ (self.old.thread.status ≡ Status.Late) }
        ensures ok { IfOk result (λ key. (key ≡ self.old.thread.key)
            × (self.new ≡ record self.old { key_read = Some key })) }
        ensures err { OnErr result (self.new ≡ self.old) }
    {
        let Status::Late = self.thread.status() else {
            return Err(Misfit);
        };
        let key = self.thread.key();
        self.key_read = Some(key);
        Ok(key)
    }

    // Lets a late thread forget the key that it has read.
    pub(super) fn forget_key(&mut self)
        requires { self.old.thread.status ≡ Status.Late }
        ensures { self.new ≡ record self.old { key_read = None } }
    {
        self.key_read = None;
    }

    // Gives a thread that waits or is late its node, if that is in its slot, and lets it run.
    pub(super) fn take_node(&mut self) -> Option<UnparkToken>
        requires { IsTrue (is_queued self.old.thread.status) }
        ensures token { result ≡ self.old.slot }
        ensures some { IfSome result (λ _. self.new
            ≡ with_empty_slot (with_state self.old Status.Running None)) }
        ensures none { IfNone result (self.new ≡ self.old) }
    {
        let node = self.slot.take()?;
        let token = node.unpark_token;
        self.key_read = None;
        self.thread.stop_waiting(node);
        Some(token)
    }

    // Gives a thread that waits, and is not late, its node, if that is in its slot.
    pub(super) fn give_back(&mut self) -> Result<UnparkToken, Misfit>
        ensures ok { IfOk result (λ token. (timed : Bool)
            × (self.old.thread.status ≡ Status.Waiting timed) × (self.old.slot ≡ Some token)
            × (self.new ≡ with_empty_slot (with_state self.old Status.Running None))) }
        ensures err { OnErr result ((self.new ≡ self.old) × ((timed : Bool)
            → self.old.thread.status ≡ Status.Waiting timed → self.old.slot ≡ None)) }
    {
        let Status::Waiting { .. } = self.thread.status() else {
            return Err(Misfit);
        };
        self.take_node().ok_or(Misfit)
    }

    // Records the key once more for a running thread.
    pub(super) fn acquire(&mut self, key: usize) -> Result<(), StepError>
        ensures fits { result ≢ Err StepError.Misfit
            ↔ (self.old.thread.status ≡ Status.Running) }
        ensures kept { self.new ≡ with_recorded self.old self.new.thread.records }
        ensures ok { OnOk result (times_recorded self.new.thread.records
            ≡ one_more (times_recorded self.old.thread.records) key) }
        ensures err { OnErr result (self.new ≡ self.old) }
    {
        self.thread.acquire(key)
    }

    // Records the key once less for a running thread, if it was recorded.
    pub(super) fn release(&mut self, key: usize) -> Result<(), Misfit>
        ensures fits { IsOk result ↔ (self.old.thread.status ≡ Status.Running) }
        ensures kept { self.new ≡ with_recorded self.old self.new.thread.records }
        ensures ok { OnOk result (times_recorded self.new.thread.records
            ≡ one_less (times_recorded self.old.thread.records) key) }
        ensures err { OnErr result (self.new ≡ self.old) }
    {
        self.thread.release(key)
    }
}

// So many numbers, all of them free.
pub(super) fn free_threads(alloc: Global, max_threads: usize) -> Result<Vec<FineThread>, NoMemory>
    ensures { IfOk result (λ threads. threads.items
        ≡ map free_fine_thread (range_with_len 0 max_threads)) }
{
    let mut threads = Vec::with_capacity(alloc, max_threads)?;
    for number in 0..max_threads {
        threads.push(FineThread::new(alloc, number))?;
    }
    Ok(threads)
}

// Lets a waiting thread know that it waits on another key.
pub(super) fn set_key_word(threads: &mut Vec<FineThread>, number: usize, key: usize)
    ensures { threads.new.items ≡ fine_threads_with_key threads.old.items number key }
{
    if let Some(thread) = threads.get_mut(number) {
        thread.set_key_word(key);
    }
}
