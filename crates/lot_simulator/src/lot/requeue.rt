//! This module does a requeue on the table of an exclusive lot, within one bucket or from one
//! bucket to another.

ghost use Rattle.std.specs.Prelude.{◌≡◌, ◌≢◌, map};
ghost use Rattle.lot_base.specs.Requeue.{numbers};
ghost use Rattle.lot_base.specs.Waiting.{lists_after_requeue, split_by, requeue_result};
ghost use Rattle.lot_base.specs.NodeLists.{split_to, with_saturated_counts, with_token};
ghost use Rattle.lot_base.specs.declared.token.RequeueOp.{RequeueOp};
ghost use Rattle.lot_simulator.specs.Represents.{waiters_in, Represents};
ghost use Rattle.lot_simulator.specs.Table.{IsRowStep};
ghost use Rattle.lot_simulator.specs.Represents.{nodes_in};
ghost use Rattle.lot_simulator.specs.Private.Commit.{threads_with_key, threads_with_keys};

use super::thread::{Thread, set_key};
use crate::table::Table;
use lot_base::queue::Queue;
use lot_base::token::{RequeueOp, UnparkResult, UnparkToken};

// Requeues waiters of the key `from` onto the key `to`, and writes the new key to the threads that
// move.
pub(super) fn requeue_waiters<
    V: FnOnce() -> RequeueOp,
    C: FnOnce(RequeueOp, UnparkResult) -> UnparkToken,
>(
    table: &mut Table,
    threads: &mut Vec<Thread>,
    from: usize,
    to: usize,
    validate: V,
    callback: C,
) -> (UnparkResult, Queue)
    requires represents { Represents table.old.cells (waiters_in table.old.cells) }
    requires validate { V.pre validate }
    requires callback { (op : _) → V.post validate op → op ≢ RequeueOp.Abort
        → C.pre callback op (with_saturated_counts
        (requeue_result op (split_by op (nodes_in table.old.cells from)))) }

    ensures numbers { table.new.numbers ≡ table.old.numbers }
    ensures requeued { let waiters = nodes_in table.old.cells from in record {
      op : RequeueOp;
      chosen : V.post validate op;
      lists : IsRowStep table.old.cells table.new.cells
          (lists_after_requeue (nodes_in table.old.cells) from to
          (split_to to (split_by op waiters)));
      answer : result.0 ≡ with_saturated_counts (requeue_result op (split_by op waiters));
      threads : threads.new.items
          ≡ threads_with_keys to (numbers (split_by op waiters).moved) threads.old.items;
      taken : (token : _) × (op ≢ RequeueOp.Abort → C.post callback op result.0 token)
          × (result.1 ≡ map (with_token token) (split_by op waiters).taken);
    } }
{
    let mut moved = |number: usize, _: bool|
        ensures same_threads { threads.exit.ghost_name ≡ threads.entry.ghost_name }
        ensures moved { threads.exit.now.items
            ≡ threads_with_key threads.entry.now.items number to }
    {
        set_key(threads, number, to);
    };
    table.requeue(from, to, validate, callback, &mut moved)
}
