//! This module has the buckets of the hash table, with the steps of parking and unparking.
//!
//! A bucket has the waiters of several keys in one queue. The list of a key is made of the waiters
//! of that key, in their order.

ghost use Rattle.std.specs.Prelude.{◌≡◌, true, false, ℕ, [], ◌∷◌, ◌++◌, ◌<◌, map, IfErr, IfSome, OnOk, IfOk, IsOkAnd, OnErr, is_ok, IsTrue, length, List, ◌≢◌, ◌↔◌, find, not, None, Some, IsNone, MatchOption, ◌≤◌, ◌^◌};
ghost use Rattle.lot_base.specs.Filter.{IsFilterCallable, IsFiltered, park_tokens};
ghost use Rattle.lot_base.specs.Node.{fields, option_nodes};
ghost use Rattle.lot_base.specs.Place.{IsTableSize, place_of};
ghost use Rattle.lot_base.specs.BucketState.{KeepsPlace};
ghost use Rattle.lot_base.specs.Requeue.{numbers, AreCallable, AreCalled};
ghost use Rattle.lot_base.specs.Waiting.{split_first, split_all, split_filter, split_by, lists_after_requeue, has_any, result_of, without_first};
ghost use Rattle.lot_base.specs.NodeLists.{lists_of, ChangesOnly, saturated, with_saturated_counts, with_token, split_to, has_number, is_timed};
ghost use Rattle.lot_base.specs.declared.token.FilterOp.{FilterOp};
ghost use Rattle.lot_base.specs.declared.token.RequeueOp.{RequeueOp};

mod passing;
mod requeue;

use crate::queue::{Node, Queue};
use crate::token::{FilterOp, NoMemory, ParkToken, RequeueOp, UnparkResult, UnparkToken};
use lot_word_lock::word_lock::Fits;
use passing::{
    queue_of, take_chosen, take_every, take_first, take_numbered, waits_timed, with_unpark_token,
    write_token,
};
use requeue::requeue_from;
use std::alloc::Global;
use std::marker::Model;

const MULTIPLIER: usize = 0x9E37_79B9_7F4A_7C15;

/// Returns the place of a key in a table of `size` buckets, which is below `size`.
///
/// The size has to be a power of two from 16 to 65,536.
pub fn place(key: usize, size: usize) -> usize
    requires { IsTableSize size }
    ensures value { result ≡ place_of key size }
    ensures below { result < size }
{
    place_by_bits(key, size.ilog2() as usize)
}

/// Returns the place of a key in a table of 2 ^ `bits` buckets, as `place` does.
///
/// `bits` has to be from 4 to 16.
#[inline]
pub fn place_by_bits(key: usize, bits: usize) -> usize
    requires least { 4 ≤ bits }
    requires most { bits ≤ 16 }
    ensures value { result ≡ place_of key (2 ^ bits) }
    ensures below { result < 2 ^ bits }
{
    key.wrapping_mul(MULTIPLIER) >> (64 - bits)
}

/// A `Bucket` is a queue of nodes, whose keys all have the same place in the table.
///
/// To share one between threads, put a lock around it: whoever has a mutable reference to it does
/// the steps. A step that takes waiters returns a queue of them. No step except `list` allocates,
/// and none but `list` and `enter` returns an error.
///
/// A step that looks for waiters takes the nodes that it passes off the queue, one by one, and puts
/// them back in their order. Each of these moves takes the same time, however long the queue is.
#[derive(Drop)]
pub struct Bucket {
    place: usize,
    size: usize,
    queue: Queue,
}

impl Model for Bucket {
    ghost use Rattle.lot_base.specs.BucketState.{BucketState};

    ghost Value = { BucketState };

    ghost use Rattle.lot_base.specs.BucketState.{IsInPlace};

    ghost view = { λ bucket.
        record { place = bucket.place; size = bucket.size; nodes = bucket.queue } };

    ghost invariant = { λ bucket.
        IsInPlace (record { place = bucket.place; size = bucket.size; nodes = bucket.queue }) };
}

/// A `BucketPlace` says which bucket a lock is around; it is the key of the bucket's `WordLock`.
#[derive(Copy, Clone)]
pub struct BucketPlace {
    /// The place of the bucket in its table.
    pub place: usize,

    /// The number of buckets of the table.
    pub size: usize,
}

impl Fits for Bucket {
    type Key = BucketPlace;

    ghost use Rattle.lot_base.specs.BucketState.{IsBucketAt};

    ghost fits = { λ key bucket. IsBucketAt key.place key.size bucket };
}

impl Bucket {
    /// Creates an empty bucket for a place of a table of `size` buckets.
    ///
    /// The size has to be a power of two from 16 to 65,536, and the place has to be below it.
    pub fn new(place: usize, size: usize) -> Bucket
        requires size { IsTableSize size }
        requires place { place < size }
        ensures { result ≡ record { place = place; size = size; nodes = [] } }
    {
        Bucket {
            place,
            size,
            queue: Queue::new(),
        }
    }

    /// Returns the place of the bucket in its table.
    pub fn place(&self) -> usize
        ensures value { result ≡ self.now.place }
        ensures below { result < self.now.size }
    {
        self.place
    }

    /// Returns the number of buckets of its table.
    pub fn size(&self) -> usize
        ensures value { result ≡ self.now.size }
        ensures table { IsTableSize result }
    {
        self.size
    }

    /// Calls `validate` once, and puts the node behind all others if it returns true.
    ///
    /// The key of the node has to have the place of this bucket. It costs one `push_back`.
    ///
    /// # Errors
    ///
    /// Returns the node itself if `validate` returns false. Nothing was changed then.
    pub fn enter<V: FnOnce() -> bool>(
        &mut self,
        node: Box<Node>,
        validate: V,
    ) -> Result<(), Box<Node>>
        requires place { place_of (fields node.value).key self.old.size ≡ self.old.place }
        requires callable { V.pre validate }

        ensures asked { V.post validate (is_ok result) }
        ensures entered { OnOk result
            (self.new ≡ record self.old { nodes = self.old.nodes ++ fields node.value ∷ [] }) }
        ensures refused { OnErr result (self.new ≡ self.old) }
        ensures returned { IfErr result (λ back. back.value ≡ node.value) }
    {
        if !validate() {
            return Err(node);
        }
        self.queue.push_back(node);
        Ok(())
    }

    /// Takes the first waiter of the key, and writes the token that `callback` returns into its
    /// node.
    ///
    /// `callback` is called once, with the result that is also returned: `(1, 0, more)`, where
    /// `more` says whether the key has another waiter, or `(0, 0, false)` if nobody waits. In that
    /// case its token is not used.
    ///
    /// It visits the nodes up to the second waiter of the key.
    pub fn take_one<F: FnOnce(UnparkResult) -> UnparkToken>(
        &mut self,
        key: usize,
        callback: F,
    ) -> (UnparkResult, Queue)
        requires { F.pre callback (result_of (split_first (lists_of self.old.nodes key))) }

        ensures place { KeepsPlace self.old self.new }
        ensures lists { ChangesOnly self.old.nodes self.new.nodes key
            (split_first (lists_of self.old.nodes key)).left }
        ensures answer { result.0 ≡ result_of (split_first (lists_of self.old.nodes key)) }
        ensures taken { (token : _) × F.post callback result.0 token
            × (result.1 ≡ map (with_token token)
            (split_first (lists_of self.old.nodes key)).taken) }
    {
        let (first, have_more_threads) = take_first(&mut self.queue, key);
        let result = UnparkResult {
            unparked_threads: if first.is_some() { 1 } else { 0 },
            requeued_threads: 0,
            have_more_threads,
        };
        let token = callback(result);
        let taken = queue_of(first.map(|node| with_unpark_token(node, token)));
        (result, taken)
    }

    /// Takes every waiter of the key, in order, writes the token into each, and returns how many
    /// there were.
    ///
    /// The count is `usize::MAX` if no `usize` can hold it. Each node of the bucket is visited
    /// once.
    pub fn take_all(&mut self, key: usize, token: UnparkToken) -> (usize, Queue)
        ensures place { KeepsPlace self.old self.new }
        ensures lists { ChangesOnly self.old.nodes self.new.nodes key
            (split_all (lists_of self.old.nodes key)).left }
        ensures answer { result.0 ≡ saturated (length (lists_of self.old.nodes key)) }
        ensures taken { result.1 ≡ map (with_token token)
            (split_all (lists_of self.old.nodes key)).taken }
    {
        take_every(&mut self.queue, key, token)
    }

    /// Takes the waiters of the key for which the filter returns `Unpark`, and leaves the others,
    /// both in order.
    ///
    /// The filter is called with the park tokens of the key's waiters, in order. When it returns
    /// `Stop`, that waiter and all behind it are left. Then `callback` is called once with the
    /// result, even if nobody waits. The token that it returns is written into each node that was
    /// taken. The result is also returned; a count is `usize::MAX` if no `usize` can hold it.
    ///
    /// The nodes of the bucket are visited once, up to the one at which the filter stops. Those
    /// that were taken are visited once more, because their token is known only then.
    pub fn take_filter<F: FnMut(ParkToken) -> FilterOp, C: FnOnce(UnparkResult) -> UnparkToken>(
        &mut self,
        key: usize,
        filter: F,
        callback: C,
    ) -> (UnparkResult, Queue)
        requires filter { IsFilterCallable F.FnMut filter
            (park_tokens (lists_of self.old.nodes key)) }
        requires callback { (decisions : _)
            → IsFiltered F.FnMut filter (park_tokens (lists_of self.old.nodes key)) decisions
            → C.pre callback (with_saturated_counts
            (result_of (split_filter decisions (lists_of self.old.nodes key)))) }

        ensures place { KeepsPlace self.old self.new }
        ensures filtered { let waiters = lists_of self.old.nodes key in record {
          decisions : List FilterOp;
          decided : IsFiltered F.FnMut filter (park_tokens waiters) decisions;
          lists : ChangesOnly self.old.nodes self.new.nodes key
              (split_filter decisions waiters).left;
          answer : result.0 ≡ with_saturated_counts (result_of (split_filter decisions waiters));
          taken : (token : _) × C.post callback result.0 token
              × (result.1 ≡ map (with_token token) (split_filter decisions waiters).taken);
        } }
    {
        let (result, chosen) = take_chosen(&mut self.queue, key, filter);
        let token = callback(result);
        (result, write_token(chosen, token))
    }

    /// Unparks waiters of the key `from`, or moves them to the key `to`, as `validate` chooses.
    ///
    /// Both keys have to have the place of this bucket, and they may be equal.
    ///
    /// `validate` is called first, once. If it returns `Abort`, no list changes, no other closure
    /// is called, and the default result and an empty queue are returned. Otherwise `moved` is
    /// called for each thread that is moved, in order, with its number and whether it waits with a
    /// timeout. After that `callback` is called once, with the operation and the result, even if no
    /// thread waited. The result is also returned; a count is `usize::MAX` if no `usize` can hold
    /// it. The nodes that were moved are behind the waiters of `to`, in order. The queue that is
    /// returned has the node that was taken, with the token from `callback`.
    ///
    /// An operation on one thread visits the nodes up to the second waiter of `from`, and every
    /// other operation visits each node of the bucket once.
    pub fn requeue_one<
        V: FnOnce() -> RequeueOp,
        C: FnOnce(RequeueOp, UnparkResult) -> UnparkToken,
        M: FnMut(usize, bool),
    >(
        &mut self,
        from: usize,
        to: usize,
        validate: V,
        callback: C,
        moved: &mut M,
    ) -> (UnparkResult, Queue)
        requires from { place_of from self.old.size ≡ self.old.place }
        requires to { place_of to self.old.size ≡ self.old.place }
        requires validate { V.pre validate }
        requires callable { (op : _) → V.post validate op
            → AreCallable C.FnOnce M.FnMut op (lists_of self.old.nodes from) callback moved.old }

        ensures place { KeepsPlace self.old self.new }
        ensures requeued { let waiters = lists_of self.old.nodes from in record {
          op : RequeueOp;
          chosen : V.post validate op;
          lists : (k : ℕ) → lists_of self.new.nodes k
              ≡ lists_after_requeue (lists_of self.old.nodes) from to
              (split_to to (split_by op waiters)) k;
          called : AreCalled C.FnOnce M.FnMut op waiters callback moved.old moved.new
              result.0 result.1;
        } }
    {
        let op = validate();
        let Some(mut done) = requeue_from(&mut self.queue, from, to, op, callback, moved) else {
            return (UnparkResult::default(), Queue::new());
        };
        self.queue.append(&mut done.moved);
        (done.result, done.taken)
    }

    /// Does what `requeue_one` does, if `to` has the place of another bucket of the same table,
    /// `target`.
    ///
    /// The nodes that are moved are put into `target`, behind the waiters of `to`. After an abort
    /// no list of either bucket has changed. It costs as much as `requeue_one`.
    pub fn requeue_two<
        V: FnOnce() -> RequeueOp,
        C: FnOnce(RequeueOp, UnparkResult) -> UnparkToken,
        M: FnMut(usize, bool),
    >(
        &mut self,
        target: &mut Bucket,
        from: usize,
        to: usize,
        validate: V,
        callback: C,
        moved: &mut M,
    ) -> (UnparkResult, Queue)
        requires size { target.old.size ≡ self.old.size }
        requires places { target.old.place ≢ self.old.place }
        requires from { place_of from self.old.size ≡ self.old.place }
        requires to { place_of to target.old.size ≡ target.old.place }
        requires validate { V.pre validate }
        requires callable { (op : _) → V.post validate op
            → AreCallable C.FnOnce M.FnMut op (lists_of self.old.nodes from) callback moved.old }

        ensures place { KeepsPlace self.old self.new × KeepsPlace target.old target.new }
        ensures requeued { let waiters = lists_of self.old.nodes from in record {
          op : RequeueOp;
          chosen : V.post validate op;
          lists : ChangesOnly self.old.nodes self.new.nodes from (split_by op waiters).left;
          targets : ChangesOnly target.old.nodes target.new.nodes to
              (lists_of target.old.nodes to ++ (split_to to (split_by op waiters)).moved);
          called : AreCalled C.FnOnce M.FnMut op waiters callback moved.old moved.new
              result.0 result.1;
        } }
    {
        let op = validate();
        let Some(mut done) = requeue_from(&mut self.queue, from, to, op, callback, moved) else {
            return (UnparkResult::default(), Queue::new());
        };
        target.queue.append(&mut done.moved);
        (done.result, done.taken)
    }

    /// Takes the first node with this number and key, unchanged, and calls `timed_out` once.
    ///
    /// `timed_out` is given the key, and whether the key has no waiter left. If there is no such
    /// node, nothing is called or changed.
    ///
    /// It visits the nodes up to the one that it takes, and then on to the next node of the key,
    /// unless it has already passed an earlier one.
    pub fn remove<R, T: FnOnce(usize, bool) -> R>(
        &mut self,
        number: usize,
        key: usize,
        timed_out: T,
    ) -> Option<(Box<Node>, R)>
        requires { let waiters = lists_of self.old.nodes key in
            IfSome (find (has_number number) waiters) (λ _.
            T.pre timed_out key (not (has_any (without_first (has_number number) waiters)))) }

        ensures place { KeepsPlace self.old self.new }
        ensures lists { ChangesOnly self.old.nodes self.new.nodes key
            (without_first (has_number number) (lists_of self.old.nodes key)) }
        ensures removed { let waiters = lists_of self.old.nodes key in
            MatchOption result
            ((find (has_number number) waiters ≡ None) × (self.new ≡ self.old))
            (λ (node, answer). (find (has_number number) waiters ≡ Some (fields node.value))
            × T.post timed_out key
            (not (has_any (without_first (has_number number) waiters))) answer) }
    {
        let (node, last) = take_numbered(&mut self.queue, number, key)?;
        let answer = timed_out(key, last);
        Some((node, answer))
    }

    /// Takes the waiter of the key with this number, if it waits with a timeout, and returns
    /// whether the key has no other waiter.
    ///
    /// If the key has no such waiter, it returns `None` and changes nothing.
    ///
    /// It visits the nodes up to the waiter twice, and those from there up to the next one of the
    /// key once.
    pub fn remove_timed(&mut self, number: usize, key: usize) -> Option<(Box<Node>, bool)>
        ensures place { KeepsPlace self.old self.new }
        ensures removed { let waiters = lists_of self.old.nodes key in
            MatchOption result
            ((is_timed (find (has_number number) waiters) ≡ false) × (self.new ≡ self.old))
            (λ (node, last). (find (has_number number) waiters ≡ Some (fields node.value))
            × ((fields node.value).timed ≡ true)
            × (last ≡ not (has_any (without_first (has_number number) waiters)))
            × ChangesOnly self.old.nodes self.new.nodes key
            (without_first (has_number number) waiters)) }
    {
        if !waits_timed(&mut self.queue, number, key) {
            return None;
        }
        let (node, last) = take_numbered(&mut self.queue, number, key)?;
        Some((node, last))
    }

    /// Takes the first node of the bucket, whatever its key, or returns `None` if and only if the
    /// bucket is empty.
    ///
    /// The other nodes keep their order. It visits one node.
    pub fn pop(&mut self) -> Option<Box<Node>>
        ensures place { KeepsPlace self.old self.new }
        ensures nodes { self.old.nodes ≡ option_nodes result ++ self.new.nodes }
        ensures none { IsNone result ↔ (self.old.nodes ≡ []) }
        ensures in_place { IfSome result (λ node.
            place_of (fields node.value).key self.old.size ≡ self.old.place) }
    {
        self.queue.pop_front()
    }

    /// Returns the numbers of the threads that wait on the key, in order.
    ///
    /// It visits each node of the bucket once. It allocates the list, again whenever that has to
    /// grow.
    ///
    /// # Errors
    ///
    /// Returns `NoMemory` if there is not enough memory for the list. An empty list needs none.
    pub fn list(&self, alloc: Global, key: usize) -> Result<Vec<usize>, NoMemory>
        ensures refused { OnErr result (IsTrue (has_any (lists_of self.now.nodes key))) }
        ensures numbers { IfOk result (λ numbers.
            numbers.items ≡ map (λ node. node.number) (lists_of self.now.nodes key)) }
    {
        self.queue.fold(Ok(Vec::new(alloc)), |numbers, node| {
            push_if_waiting(numbers, node, key)
        })
    }
}

// The numbers, and behind them that of the node if it waits on the key.
fn push_if_waiting(
    numbers: Result<Vec<usize>, NoMemory>,
    node: &Node,
    key: usize,
) -> Result<Vec<usize>, NoMemory>
    ensures refused { OnErr result (OnOk numbers ((fields node.now).key ≡ key)) }
    ensures numbers { IfOk result (λ new. IsOkAnd numbers (λ old.
        new.items ≡ old.items
        ++ map (λ waiter. waiter.number) (lists_of (fields node.now ∷ []) key))) }
{
    let mut numbers = numbers?;
    if node.key == key {
        numbers.push(node.number)?;
    }
    Ok(numbers)
}
