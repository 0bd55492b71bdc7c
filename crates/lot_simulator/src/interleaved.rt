//! This module has interleaved schedules: the calls of the threaded lot, cut into the steps between
//! which other callers and threads can act.

ghost use Rattle.std.specs.Prelude.{◌≡◌, ◌≢◌, ◌↔◌, ◌⊎◌, ℕ, ◌+◌, ◌<◌, ◌++◌, List, Err, IsTrue, IsErrOf, IfOk, OnOk, OnErr, is_some, length, map};
ghost use Rattle.lot_base.specs.Waiting.{has_any};
ghost use Rattle.lot_simulator.specs.FineLot.{fine_state};
ghost use Rattle.lot_simulator.specs.InterleavedState.{new_fine_state};
ghost use Rattle.lot_simulator.specs.InterleavedRun.{AmountsTo};
ghost use Rattle.lot_simulator.specs.InterleavedView.{IsFineConsistent, once_if, taken_of, times_taken};
ghost use Rattle.lot_machine.specs.Machine.{threads_of, times_in};
ghost use Rattle.lot_machine.specs.Status.{is_registered, is_running};
ghost use Rattle.lot_simulator.specs.declared.interleaved.FineAnswer.{FineAnswer};
ghost use Rattle.lot_machine.specs.declared.step.Step.{Step};

mod caller;
pub mod laws;
mod sections;
mod steps;
mod thread;
mod told;

use crate::schedule::{Answer, Op, Step};
use crate::table::{MAX_THREADS, Table};
use caller::{Caller, idle_callers};
use lot_base::token::{LotError, NoMemory, ParkToken};
use std::alloc::Global;
use std::marker::Model;
use thread::{FineThread, free_threads};
use told::{copied_ops, push_if_any};

/// A `FineStep` is what one caller or one thread does without another in between.
///
/// An unpark of the threaded lot is `Begin`, a `Commit` for each thread that it took, `End`, and a
/// `Wake` for each of them, which may come before `End`. A park is `Enter`, and after the sleep
/// `Return`. If its deadline passes first, it is `Enter`, `Deadline`, and then `ReadKey` and
/// `Look`, until a `Look` says how the park ended.
///
/// Callers and threads are named by their numbers. In the threaded lot a caller is a thread that is
/// inside an unpark. No contract says that the code of the threaded lot consists of these steps;
/// that is read in its code.
#[derive(Debug, Drop)]
pub enum FineStep {
    /// A caller locks the buckets of the operation's keys, and does to their lists what the
    /// operation says.
    ///
    /// The caller must have no open section and nobody left to wake. It also changes the key words
    /// of the threads that it requeues. It keeps the nodes that it took.
    Begin {
        /// The number of the caller.
        caller: usize,
        /// The unpark, with what its closures return.
        op: Op,
    },

    /// A caller hands the first of the nodes that its section still has to its thread, through the
    /// thread's slot.
    Commit {
        /// The number of the caller.
        caller: usize,
    },

    /// A caller whose section has handed on all that it took unlocks its buckets.
    End {
        /// The number of the caller.
        caller: usize,
    },

    /// A caller wakes a thread to which it has handed its node. This changes no thread and no slot.
    Wake {
        /// The number of the caller.
        caller: usize,
    },

    /// A thread that waits with a timeout, and whose slot is empty, finds that its deadline has
    /// passed.
    Deadline {
        /// The number of the thread.
        thread: usize,
    },

    /// A late thread reads its key word, which another caller may have changed by a requeue.
    ReadKey {
        /// The number of the thread.
        thread: usize,
    },

    /// A late thread that has read its key locks the bucket of that key, and looks whether it still
    /// waits there.
    ///
    /// This is its second look, because it has already looked when its sleep ended.
    Look {
        /// The number of the thread.
        thread: usize,
    },

    /// A running thread locks the bucket of the key, and enters its list if `valid` is true.
    Enter {
        /// The number of the thread.
        thread: usize,
        /// The key on which it parks.
        key: usize,
        /// What `validate` returns.
        valid: bool,
        /// The token that filters see.
        park_token: ParkToken,
        /// Says whether it waits with a timeout, so that its deadline may pass.
        timed: bool,
    },

    /// A thread that waits, and is not late, finds its node in its slot.
    Return {
        /// The number of the thread.
        thread: usize,
    },

    /// A thread registers. If the table has to grow, this needs every bucket.
    Register,

    /// A running thread gives its number back.
    Retire {
        /// The number of the thread.
        thread: usize,
    },

    /// A running thread records the key once more.
    Acquire {
        /// The number of the thread.
        thread: usize,
        /// The key that it records.
        key: usize,
    },

    /// A running thread records the key once less, if it has recorded it.
    Release {
        /// The number of the thread.
        thread: usize,
        /// The key of the record.
        key: usize,
    },

    /// The table becomes smaller, if it is too large for the registered threads. If it is, this
    /// needs every bucket.
    Trim,
}

/// A `FineAnswer` is what an interleaved step tells its caller.
#[derive(Copy, Clone, Eq, PartialEq, Debug)]
pub enum FineAnswer {
    /// This is an answer that a step of a lot gives too.
    ///
    /// A `Begin` gives that of its unpark, and `Look` and `Return` give the outcome of the park.
    /// `Enter`, `Register`, `Retire`, `Acquire`, `Release` and `Trim` give that of a lot. A step
    /// that is not allowed gives `Misfit`. A deadline gives `FineAnswer::Late` instead.
    Answer(Answer),

    /// The node of the thread with this number is in its slot.
    Committed(usize),

    /// The buckets of the caller are free.
    Ended,

    /// A thread was woken.
    Woken,

    /// The deadline of the thread has passed.
    Late,

    /// This is the thread's key word.
    Read(usize),

    /// The thread's key word is another key than the one that it read, so it has to read again.
    Retry,

    /// A section holds a bucket that the step needs. Nothing was changed.
    Blocked,
}

/// A `FineLot` is a lot on which one caller takes every interleaved step of every thread and every
/// caller, in any order.
///
/// Its contracts say what a step does to the interleaved state that the lot means. Threads and
/// callers are named by their numbers. No call takes a lock: that a section holds a bucket is only
/// noted.
#[derive(Drop)]
pub struct FineLot {
    table: Table,
    threads: Vec<FineThread>,
    callers: Vec<Caller>,
}

impl Model for FineLot {
    ghost use Rattle.std.specs.Prelude.{◌≡◌};
    ghost use Rattle.lot_simulator.specs.FineLotState.{FineLotState};

    ghost Value = { FineLotState };

    ghost use Rattle.lot_simulator.specs.FineLot.{IsFineLot, plain_threads};
    ghost use Rattle.lot_simulator.specs.Lot.{uses};

    ghost view = { λ lot. record {
      buckets = lot.table.cells;
      threads = lot.threads.items;
      callers = lot.callers.items;
    } };

    ghost invariant = { λ lot.
        IsFineLot (record {
          buckets = lot.table.cells;
          threads = lot.threads.items;
          callers = lot.callers.items;
        })
        × (lot.table.numbers ≡ uses (plain_threads lot.threads.items)) };
}

impl FineLot {
    /// Creates a lot for at most `max_threads` threads, none of which is registered, and for
    /// `callers` callers, none of which has an open section.
    ///
    /// It allocates the table, which has 16 buckets, and room for what it keeps of each number.
    ///
    /// # Errors
    ///
    /// Returns `TooManyThreads` if and only if `max_threads` or `callers` is above `MAX_THREADS`.
    /// Otherwise returns `NoMemory` if there is not enough memory.
    pub fn new(alloc: Global, max_threads: usize, callers: usize) -> Result<FineLot, LotError>
        ensures too_many { IsErrOf result LotError.TooManyThreads
            ↔ ((MAX_THREADS < max_threads) ⊎ (MAX_THREADS < callers)) }
        ensures not_full { result ≢ Err LotError.Full }
        ensures ok { IfOk result (λ lot. fine_state lot ≡ new_fine_state max_threads callers) }
    {
        if MAX_THREADS < callers {
            return Err(LotError::TooManyThreads);
        }
        let table = Table::new(alloc, max_threads)?;
        let threads = free_threads(alloc, max_threads)?;
        let callers = idle_callers(alloc, callers)?;
        Ok(FineLot {
            table,
            threads,
            callers,
        })
    }

    /// Returns the numbers of the threads that are in the list of the key, in order.
    ///
    /// It does not look whether a section holds the bucket. It costs one `Bucket::list`.
    ///
    /// # Errors
    ///
    /// Returns `NoMemory` if there is not enough memory for the list. An empty list needs none.
    pub fn list(&self, key: usize) -> Result<Vec<usize>, NoMemory>
        ensures refused { OnErr result
            (IsTrue (has_any ((fine_state self.now).threads_view.lists key))) }
        ensures numbers { IfOk result (λ numbers. numbers.items
            ≡ map (λ waiter. waiter.number) ((fine_state self.now).threads_view.lists key)) }
    {
        self.table.list(*self.threads.allocator(), key)
    }

    /// Returns how many threads are registered.
    pub fn registered(&self) -> usize
        ensures { result ≡ threads_of ((fine_state self.now).threads_view) }
    {
        self.table.registered()
    }

    /// Returns how many buckets the table has.
    pub fn size(&self) -> usize
        ensures { result ≡ (fine_state self.now).size }
    {
        self.table.size()
    }

    /// Does nothing, and states what always holds of such a lot: the state that it means is
    /// consistent.
    ///
    /// So the node of each registered thread is in exactly one of four places: with the thread, in
    /// the list of its key word, among those that open sections took, or in its slot. It is in no
    /// other list. No bucket is held by two open sections.
    pub fn consistency(&self)
        ensures consistent { IsFineConsistent (fine_state self.now) }
        ensures one_place { let s = fine_state self.now in (number : ℕ)
            → once_if (is_running (s.threads_view.status number))
            + times_in number (s.threads_view.lists (s.key_words number))
            + times_taken number (taken_of s) + once_if (is_some (s.slots number))
            ≡ once_if (is_registered (s.threads_view.status number)) }
        ensures no_other_list { let s = fine_state self.now in (number key : ℕ)
            → key ≢ s.key_words number → times_in number (s.threads_view.lists key) ≡ 0 }
    {
        // A use of a field opens what the type keeps.
        let _ = &self.threads;
    }
}

/// Does the interleaved steps one after another, and appends one answer for each, and the
/// sequential steps to which the run amounts.
///
/// The answers are those of a run of the interleaved machine, from the state that the lot meant
/// before to the one that it means after. Four answers say that a step was not done and changed
/// nothing. The first that applies is given:
///
/// - `Misfit`, if the step is not allowed;
/// - `Full`, if it is a registration and no number is free;
/// - `Blocked`, if it needs a bucket that an open section holds;
/// - `NoMemory`, if it is a registration, an acquire or a trim for which there is not enough
///   memory.
///
/// The sequential steps, with their answers, are a run of the machine with one list of waiters for
/// each key, between the sequential views of the two states. Their lists of decisions are copies.
/// In the interleaved answers the parks and outcomes of each thread take turns, so no park has two
/// outcomes. The threads that they count as unparked come back, or are left at the end.
///
/// It first allocates room for all answers and sequential steps, and for the copies of all
/// decisions. Then it costs what the steps cost.
///
/// # Errors
///
/// Returns `NoMemory` if there is not enough memory for that room, and never if there are no steps.
/// The lot and the items of both lists are then as before, and the lists may have more room.
pub fn run_fine(
    lot: &mut FineLot,
    steps: &[FineStep],
    answers: &mut Vec<FineAnswer>,
    sequential: &mut Vec<Step>,
) -> Result<(), NoMemory>
    ensures ran { OnOk result (record {
      given : List FineAnswer;
      appended : answers.new.items ≡ answers.old.items ++ given;
      told : List Step;
      also_appended : sequential.new.items ≡ sequential.old.items ++ told;
      amounts : AmountsTo (fine_state lot.old) (fine_state lot.new) steps.now given told;
    }) }
    ensures refused { OnErr result (0 < length steps.now) }
    ensures err { OnErr result ((lot.new ≡ lot.old) × (answers.new.items ≡ answers.old.items)
        × (sequential.new.items ≡ sequential.old.items)) }
{
    lot.consistency();
    answers.reserve(steps.len())?;
    sequential.reserve(steps.len())?;
    let mut copies = copied_ops(*lot.threads.allocator(), steps)?;
    for step in steps {
        let (given, told) = lot.step(step, copies.pop_front().flatten());
        answers.push_reserved(given);
        push_if_any(sequential, told);
    }
    Ok(())
}
