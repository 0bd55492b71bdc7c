//! This module has the steps of parking on a table.
//!
//! Each step is done by the bucket of its key, or by those of its two keys. The contract says what
//! becomes of the lists of all keys.

ghost use Rattle.std.specs.Prelude.{◌≡◌, List, IsTrue, IfErr, IfOk, IfSome, OnOk, OnErr, MatchOption, Some, None, is_ok, length, not};
ghost use Rattle.std.specs.List.{find};
ghost use Rattle.lot_base.specs.Filter.{IsFilterCallable, IsFiltered, park_tokens};
ghost use Rattle.lot_base.specs.Node.{fields};
ghost use Rattle.lot_base.specs.NodeLists.{has_number, saturated, split_to, with_saturated_counts};
ghost use Rattle.lot_base.specs.Place.{IsTableSize};
ghost use Rattle.lot_base.specs.Requeue.{AreCallable, AreCalled, numbers};
ghost use Rattle.lot_base.specs.Waiting.{has_any, lists_after_requeue, result_of, split_all, split_by, split_filter, split_first, with_value, without_first};
ghost use Rattle.lot_base.specs.declared.token.FilterOp.{FilterOp};
ghost use Rattle.lot_base.specs.declared.token.RequeueOp.{RequeueOp};
ghost use Rattle.lot_simulator.specs.Represents.{Represents, nodes_in, waiters_in, with_node};
ghost use Rattle.lot_simulator.specs.Table.{IsRowStep, IsTakenFrom};

use super::Table;
use lot_base::bucket::place;
use lot_base::queue::{Node, Queue};
use lot_base::token::{FilterOp, NoMemory, ParkToken, RequeueOp, UnparkResult, UnparkToken};
use std::alloc::Global;

impl Table {
    /// Calls `validate` once, and puts the node last in the list of its key if it returns true.
    ///
    /// It costs one `Bucket::enter`.
    ///
    /// # Errors
    ///
    /// Returns the node itself if `validate` returns false. Nothing was changed then.
    pub fn enter<V: FnOnce() -> bool>(
        &mut self,
        node: Box<Node>,
        validate: V,
    ) -> Result<(), Box<Node>>
        requires callable { V.pre validate }

        ensures asked { V.post validate (is_ok result) }
        ensures table { IsTableSize (length self.old.cells) }
        ensures numbers { self.new.numbers ≡ self.old.numbers }
        ensures entered { OnOk result (self.new.cells
            ≡ with_node self.old.cells (fields node.value)) }
        ensures refused { OnErr result (self.new.cells ≡ self.old.cells) }
        ensures returned { IfErr result (λ back. back.value ≡ node.value) }
    {
        let mut bucket = self.take(node.key);
        let entered = bucket.enter(node, validate);
        self.put(bucket);
        entered
    }

    /// Takes the first waiter of the key, with the token that `callback` returns.
    ///
    /// It calls `callback` and returns as `Bucket::take_one` does, and costs one call of it.
    pub fn take_one<C: FnOnce(UnparkResult) -> UnparkToken>(
        &mut self,
        key: usize,
        callback: C,
    ) -> (UnparkResult, Queue)
        requires represents { Represents self.old.cells (waiters_in self.old.cells) }
        requires callback { C.pre callback (result_of (split_first (nodes_in self.old.cells key))) }

        ensures numbers { self.new.numbers ≡ self.old.numbers }
        ensures answer { result.0 ≡ result_of (split_first (nodes_in self.old.cells key)) }
        ensures taken { (token : _) × C.post callback result.0 token
            × IsTakenFrom self.old.cells self.new.cells key
            (split_first (nodes_in self.old.cells key)) token result.1 }
    {
        let mut bucket = self.take(key);
        let done = bucket.take_one(key, callback);
        self.put(bucket);
        done
    }

    /// Takes all waiters of the key, in order, with the token, and returns how many there were.
    ///
    /// The count is `usize::MAX` if no `usize` can hold it. It costs one `Bucket::take_all`.
    pub fn take_all(&mut self, key: usize, token: UnparkToken) -> (usize, Queue)
        requires { Represents self.old.cells (waiters_in self.old.cells) }

        ensures numbers { self.new.numbers ≡ self.old.numbers }
        ensures answer { result.0 ≡ saturated (length (nodes_in self.old.cells key)) }
        ensures taken { IsTakenFrom self.old.cells self.new.cells key
            (split_all (nodes_in self.old.cells key)) token result.1 }
    {
        let mut bucket = self.take(key);
        let done = bucket.take_all(key, token);
        self.put(bucket);
        done
    }

    /// Takes the waiters of the key for which the filter returns `Unpark`, in order, with the token
    /// that `callback` returns.
    ///
    /// It calls the closures as `Bucket::take_filter` does, and costs one call of it.
    pub fn take_filter<F: FnMut(ParkToken) -> FilterOp, C: FnOnce(UnparkResult) -> UnparkToken>(
        &mut self,
        key: usize,
        filter: F,
        callback: C,
    ) -> (UnparkResult, Queue)
        requires represents { Represents self.old.cells (waiters_in self.old.cells) }
        requires filter { IsFilterCallable F.FnMut filter
            (park_tokens (nodes_in self.old.cells key)) }
        requires callback { (decisions : _)
            → IsFiltered F.FnMut filter (park_tokens (nodes_in self.old.cells key)) decisions
            → C.pre callback (with_saturated_counts
            (result_of (split_filter decisions (nodes_in self.old.cells key)))) }

        ensures numbers { self.new.numbers ≡ self.old.numbers }
        ensures filtered { let waiters = nodes_in self.old.cells key in record {
          decisions : List FilterOp;
          decided : IsFiltered F.FnMut filter (park_tokens waiters) decisions;
          answer : result.0 ≡ with_saturated_counts (result_of (split_filter decisions waiters));
          taken : (token : _) × C.post callback result.0 token
              × IsTakenFrom self.old.cells self.new.cells key (split_filter decisions waiters) token
              result.1;
        } }
    {
        let mut bucket = self.take(key);
        let done = bucket.take_filter(key, filter, callback);
        self.put(bucket);
        done
    }

    /// Unparks waiters of the key `from`, or moves them to the key `to`, as `validate` chooses.
    ///
    /// `moved` is called for each thread that is moved, in order, with its number and whether it
    /// waits with a timeout, before `callback` is called. It costs one `Bucket::requeue_one`, or
    /// one `requeue_two` if the keys have different places.
    pub fn requeue<
        V: FnOnce() -> RequeueOp,
        C: FnOnce(RequeueOp, UnparkResult) -> UnparkToken,
        M: FnMut(usize, bool),
    >(
        &mut self,
        from: usize,
        to: usize,
        validate: V,
        callback: C,
        moved: &mut M,
    ) -> (UnparkResult, Queue)
        requires represents { Represents self.old.cells (waiters_in self.old.cells) }
        requires validate { V.pre validate }
        requires callable { (op : _) → V.post validate op
            → AreCallable C.FnOnce M.FnMut op (nodes_in self.old.cells from) callback moved.old }

        ensures numbers { self.new.numbers ≡ self.old.numbers }
        ensures requeued { let waiters = nodes_in self.old.cells from in record {
          op : RequeueOp;
          chosen : V.post validate op;
          lists : IsRowStep self.old.cells self.new.cells
              (lists_after_requeue (nodes_in self.old.cells) from to
              (split_to to (split_by op waiters)));
          called : AreCalled C.FnOnce M.FnMut op waiters callback moved.old moved.new
              result.0 result.1;
        } }
    {
        let mut source = self.take(from);
        if place(to, source.size()) == source.place() {
            let done = source.requeue_one(from, to, validate, callback, moved);
            self.put(source);
            return done;
        }
        let mut target = self.take(to);
        let done = source.requeue_two(&mut target, from, to, validate, callback, moved);
        self.put(target);
        self.put(source);
        done
    }

    /// Takes the waiter with this number out of the list of the key, if it is there, and returns
    /// its node and what `timed_out` returned.
    ///
    /// `timed_out` is called with the key, and with whether nobody else is in its list. It costs
    /// one `Bucket::remove`.
    pub fn remove<A, T: FnOnce(usize, bool) -> A>(
        &mut self,
        number: usize,
        key: usize,
        timed_out: T,
    ) -> Option<(Box<Node>, A)>
        requires represents { Represents self.old.cells (waiters_in self.old.cells) }
        requires timed_out { let waiters = nodes_in self.old.cells key in
            IfSome (find (has_number number) waiters) (λ _.
            T.pre timed_out key (not (has_any (without_first (has_number number) waiters)))) }

        ensures numbers { self.new.numbers ≡ self.old.numbers }
        ensures lists { IsRowStep self.old.cells self.new.cells (with_value
            (nodes_in self.old.cells) key
            (without_first (has_number number) (nodes_in self.old.cells key))) }
        ensures removed { let waiters = nodes_in self.old.cells key in
            MatchOption result
            ((find (has_number number) waiters ≡ None)
            × (self.new.cells ≡ self.old.cells))
            (λ (node, answer). (find (has_number number) waiters ≡ Some (fields node.value))
            × T.post timed_out key
            (not (has_any (without_first (has_number number) waiters))) answer) }
    {
        let mut bucket = self.take(key);
        let removed = bucket.remove(number, key, timed_out);
        self.put(bucket);
        removed
    }

    /// Returns the numbers of the waiters of the key, in order. It costs one `Bucket::list`.
    ///
    /// # Errors
    ///
    /// Returns `NoMemory` if there is not enough memory for the list. An empty list needs none.
    pub fn list(&self, alloc: Global, key: usize) -> Result<Vec<usize>, NoMemory>
        ensures refused { OnErr result (IsTrue (has_any (nodes_in self.now.cells key))) }
        ensures told { IfOk result (λ list. list.items ≡ numbers (nodes_in self.now.cells key)) }
    {
        self.bucket(key).list(alloc, key)
    }
}
