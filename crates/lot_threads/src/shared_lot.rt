//! This module has the lot, which threads share by reference. It has the lot's buckets, and a
//! parker for each thread.

ghost use Rattle.std.specs.Prelude.{◌≡◌, ◌∷◌, ◌+◌, ◌<◌, ◌≤◌, ◌^◌, [], length, replicate, IfOk, IfSome, IsOkAnd, None};
ghost use Rattle.lot_base.specs.Node.{fields};
ghost use Rattle.lot_machine.specs.Numbers.{count_registered};
ghost use Rattle.lot_machine.specs.declared.step.Answer.{Answer};
ghost use Rattle.lot_machine.specs.declared.step.Step.{Step};
ghost use Rattle.lot_history.specs.Witness.{id_of, limit_of, max_threads_of, Extends, IsPartOf, IsStill};
ghost use Rattle.lot_history.specs.declared.view.Piece.TheVariants.{Thread, Undealt};
ghost use Rattle.lot_threads.specs.Cells.{Has, HasRecords, HasTiming, IsBelow, IsLockAt, IsLockFor, IsRegistry, IsRow, IsSlotAt, home_of};
ghost use Rattle.lot_threads.specs.Idle.{IsIdle};
ghost use Rattle.lot_threads.specs.Members.{IsRegistered, number_in};
ghost use Rattle.lot_threads.specs.Rows.{EachAt};

mod growth;
pub(crate) mod handles;
mod park;
mod requeue;
mod titled;
mod unpark;

use crate::cell::{MOST_ROWS, MadeRow, RowSlot, Slot, new_rows};
use crate::numbered_nodes::NumberedNodes;
use crate::parker::ThreadParkerT;
use crate::registry::{Registry, new_registry};
use crate::told::cut_up;
use lot_base::bucket::place_by_bits;
use lot_base::queue::Node;
use lot_base::thread_parker::ParkerKey;
use lot_base::token::NoMemory;
use lot_base::word_lock::WordLock;
use lot_history::history::{History, Part, Witness};
use lot_machine::numbers::{MAX_THREADS, Use};
use lot_machine::size::INITIAL_BUCKETS;
use lot_machine::status::Status;
use lot_machine::step::{Answer, Step};
use std::alloc::Global;
use std::marker::Model;
use std::sync::Wait;
use std::sync::atomic::{AtomicUsize, Ordering};

// What the lot keeps for one thread number from the first: its parker, and the key on which its
// thread last waited with a timeout, after all moves.
#[derive(Drop)]
struct PerThread<P: ThreadParkerT> {
    parker: P,
    key: AtomicUsize,
}

// What each parking lot is, with titles or without: the history of its calls, its buckets and its
// threads.
#[derive(Drop)]
pub(crate) struct SharedLot<P: ThreadParkerT> {
    history: History,
    rows: Vec<RowSlot>,
    // Shows that the first row is made.
    first: MadeRow,
    // The index of the row in use. It may be out of date where it is read, and then the bucket is
    // not there.
    current: AtomicUsize,
    threads: Vec<PerThread<P>>,
    registry: WordLock<Registry>,
    // The keys below it have titles.
    limit: usize,
}

impl<P: ThreadParkerT> Model for SharedLot<P> {
    ghost use Rattle.lot_history.specs.declared.history.History.{History};

    ghost Value = { History };

    ghost use Rattle.std.specs.Prelude.{◌≡◌, ◌≤◌, length};
    ghost use Rattle.lot_machine.specs.declared.numbers.TheConstants.{MAX_THREADS};
    ghost use Rattle.lot_history.specs.Witness.{id_of, limit_of, max_threads_of};
    ghost use Rattle.lot_threads.specs.Cells.{AreRows, IsFirst, IsRegistryLock, home_of};
    ghost use Rattle.lot_threads.specs.Rows.{EachAt};

    ghost view = { λ lot. lot.history };

    ghost invariant = { λ lot.
        AreRows (id_of lot.history) (max_threads_of lot.history)
        (limit_of lot.history) lot.rows.items
        × (length lot.threads.items ≡ max_threads_of lot.history)
        × EachAt (λ number thread. (P.owner thread.parker ≡ number)
        × (home_of (P.home thread.parker) ≡ id_of lot.history)) 0 lot.threads.items
        × IsRegistryLock (id_of lot.history) (max_threads_of lot.history) lot.registry
        × (max_threads_of lot.history ≤ MAX_THREADS)
        × (lot.limit ≡ limit_of lot.history)
        × IsFirst lot.first.of lot.rows.items };
}

impl<P: ThreadParkerT> SharedLot<P> {
    // A lot for at most this many threads with these numbers, where the keys below the limit have
    // titles. The part has the titles, which are still to be dealt.
    pub(crate) fn for_threads(
        alloc: Global,
        max_threads: usize,
        limit: usize,
        numbers: NumberedNodes,
    ) -> Result<(SharedLot<P>, Part), NoMemory>
        requires few { max_threads ≤ MAX_THREADS }
        requires numbers { numbers ≡ replicate max_threads Use.Free }
        ensures threads { IfOk result (λ made. max_threads_of made.0 ≡ max_threads) }
        ensures limit { IfOk result (λ made. limit_of made.0 ≡ limit) }
        ensures undealt { IfOk result (λ made. Has (id_of made.0) (Undealt 0 limit ∷ []) made.1) }
    {
        let (history, mut me) = History::with_titles(alloc, max_threads, limit)?;
        cut_up(&history, &mut me, max_threads, limit, INITIAL_BUCKETS);
        let mut other = history.tell(&mut me);
        let (rows, first) = new_rows(alloc, &history, &mut me, &mut other, max_threads, limit)?;
        let undealt = history.give(&mut me);
        let home = history.give(&mut other);
        let threads = new_threads(alloc, &history, max_threads, home)?;
        let home = history.give(&mut other);
        let registry = new_registry(alloc, &history, me, max_threads, numbers, home)?;
        let lot = SharedLot {
            history,
            rows,
            first,
            current: AtomicUsize::new(0),
            threads,
            registry,
            limit,
        };
        Ok((lot, undealt))
    }

    // The greatest number of threads. Every number is below it.
    pub(crate) fn max_threads(&self) -> usize
        ensures { result ≡ max_threads_of self.now }
    {
        self.threads.len()
    }

    // The keys below it have titles.
    pub(crate) fn limit(&self) -> usize
        ensures { result ≡ limit_of self.now }
    {
        self.limit
    }

    // The history of the lot's calls.
    pub(crate) fn history(&self) -> &History
        ensures history { result.now ≡ self.now }
        ensures few { max_threads_of self.now < 2 ^ 63 }
    {
        &self.history
    }

    // The parker of the thread of this number.
    pub(crate) fn parker(&self, number: usize) -> &P
        requires { number < max_threads_of self.now }
        ensures owner { P.owner result.now ≡ number }
        ensures home { home_of (P.home result.now) ≡ id_of self.now }
    {
        &self.threads[number].parker
    }

    // The key on which the thread of this number last waited with a timeout, after all moves.
    fn key(&self, number: usize) -> usize
        requires { number < max_threads_of self.now }
    {
        self.threads[number].key.load(Ordering::SeqCst)
    }

    // Notes in which list a thread stands that has a timeout: only after its deadline does a thread
    // look where it stands. It writes no key that is noted already, since a load costs less.
    pub(crate) fn note_key(&self, number: usize, timed: bool, key: usize) {
        if timed
            && let Some(thread) = self.threads.get(number)
            && thread.key.load(Ordering::SeqCst) != key
        {
            thread.key.store(key, Ordering::SeqCst);
        }
    }

    // The place of the row of this index.
    #[inline]
    pub(super) fn row_slot(&self, index: usize) -> &RowSlot
        requires { index < 13 }
        ensures { IsSlotAt (id_of self.now) (max_threads_of self.now)
            (limit_of self.now) index result.now }
    {
        &self.rows[index]
    }

    // The row of this index, if it was made.
    #[inline]
    pub(super) fn row(&self, index: usize) -> Option<&Vec<WordLock<Slot>>>
        requires { index < 13 }
        ensures { IfSome result (λ row. IsRow (id_of self.now) (max_threads_of self.now)
            (limit_of self.now)
            (2 ^ (index + 4)) row.now.items) }
    {
        self.row_slot(index).get()
    }

    // The first row, which is made with the lot.
    #[cold]
    #[inline(never)]
    fn first_row(&self) -> &Vec<WordLock<Slot>>
        ensures { IsRow (id_of self.now) (max_threads_of self.now) (limit_of self.now) 16
            result.now.items }
    {
        self.rows[0].value(&self.first)
    }

    // The row that is in use, or was as `current` was read, and its index.
    #[inline]
    pub(super) fn row_in_use(&self) -> (usize, &Vec<WordLock<Slot>>)
        ensures below { result.0 < 13 }
        ensures row { IsRow (id_of self.now) (max_threads_of self.now) (limit_of self.now)
            (2 ^ (result.0 + 4)) result.1.now.items }
    {
        let index = self.current.load(Ordering::SeqCst);
        if index < MOST_ROWS
            && let Some(row) = self.row_slot(index).get()
        {
            return (index, row);
        }
        (0, self.first_row())
    }

    // The lock of the key's place in the row in use. The place comes from the row's index, since a
    // load of its length would have to come first.
    #[inline]
    pub(crate) fn lock_of(&self, key: usize) -> &WordLock<Slot>
        ensures { IsLockFor self.now key result.now }
    {
        let (index, row) = self.row_in_use();
        &row[place_by_bits(key, index + 4)]
    }

    // Waits until the thread that changes the row is done, which has the numbers locked meanwhile.
    #[cold]
    #[inline(never)]
    pub(crate) fn wait_for_change<R: Wait>(&self, rt: &R) {
        let held = self.registry.lock(rt);
        self.registry.unlock(held);
    }

    // Registers the least free number, if there is one, and answers a new witness that told so, and
    // the number's node. The table may grow first.
    pub(crate) fn register<R: Wait>(
        &self,
        rt: &R,
        alloc: Global,
    ) -> Result<(Witness, Option<Box<Node>>), NoMemory>
        ensures registered { IfOk result (λ told.
            IsRegistered self.now (number_in told.1) told.0) }
        ensures below { IfOk result (λ told. IfSome told.1 (λ node.
            IsBelow (max_threads_of self.now) (fields node.value))) }
    {
        let mut held = self.registry.lock(rt);
        let registered = self.register_in(rt, alloc, &mut held.value);
        self.registry.unlock(held);
        registered
    }

    // The same, where the registry is locked. Where no number is free, the table does not grow.
    fn register_in<R: Wait>(
        &self,
        rt: &R,
        alloc: Global,
        registry: &mut Registry,
    ) -> Result<(Witness, Option<Box<Node>>), NoMemory>
        requires { IsRegistry (id_of self.now) (max_threads_of self.now) registry.old }
        ensures registry { IsRegistry (id_of self.now) (max_threads_of self.now) registry.new }
        ensures registered { IfOk result (λ told.
            IsRegistered self.now (number_in told.1) told.0) }
        ensures below { IfOk result (λ told. IfSome told.1 (λ node.
            IsBelow (max_threads_of self.now) (fields node.value))) }
        ensures full { count_registered registry.old.numbers ≡ length registry.old.numbers
            → IsOkAnd result (λ told. told.1 ≡ None) }
    {
        let Some(number) = registry.least_free() else {
            return Ok((registry.refuse(&self.history), None));
        };
        self.make_room(rt, alloc, registry)?;
        let (witness, node) = registry.register(&self.history, number);
        Ok((witness, Some(node)))
    }

    // Ends the registration of a running thread, whose node this is and whose pieces these parts
    // have, and tells so.
    pub(crate) fn release<R: Wait>(
        &self,
        rt: &R,
        me: &mut Witness,
        node: Box<Node>,
        thread: Part,
        records: Part,
        timing: Part,
    )
        requires idle { IsIdle self.now me.old }
        requires below { IsBelow (max_threads_of self.now) (fields node.value) }
        requires thread { Has (id_of self.now)
            (Thread (fields node.value).number Status.Running ∷ []) thread }
        requires records { HasRecords (id_of self.now) (fields node.value).number records }
        requires timing { HasTiming (id_of self.now) (fields node.value).number timing }
        ensures still { IsStill self.now me.old me.new }
        ensures extends { Extends self.now me.old (Step.Retire (fields node.value).number)
            Answer.Retired me.new }
    {
        let mut held = self.registry.lock(rt);
        held.value
            .retire(&self.history, me, node, thread, records, timing);
        self.registry.unlock(held);
    }
}

// The lock at this place of a row.
pub(crate) fn lock_at(row: &[WordLock<Slot>], place: usize) -> &WordLock<Slot>
    requires { place < length row.now }
    ensures { IsLockAt place row.now result.now }
{
    &row[place]
}

// A parker and a key word for each number below `max_threads`.
fn new_threads<P: ThreadParkerT>(
    alloc: Global,
    history: &History,
    max_threads: usize,
    home: Part,
) -> Result<Vec<PerThread<P>>, NoMemory>
    requires home { IsPartOf (id_of history.now) home }
    ensures count { IfOk result (λ threads. length threads.items ≡ max_threads) }
    ensures threads { IfOk result (λ threads. EachAt (λ number thread.
        (P.owner thread.parker ≡ number)
        × (home_of (P.home thread.parker) ≡ id_of history.now)) 0 threads.items) }
{
    let mut key = ParkerKey { number: 0, home };
    let mut threads = Vec::with_capacity(alloc, max_threads)?;
    for number in 0..max_threads {
        key.number = number;
        threads.push(PerThread {
            parker: P::new(alloc, &key)?,
            key: AtomicUsize::new(0),
        })?;
    }
    Ok(threads)
}
