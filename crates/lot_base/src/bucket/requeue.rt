//! This module does what a requeue does to the list of its first key.

ghost use Rattle.std.specs.Prelude.{◌≡◌, ◌≢◌, [], map, IfNone, IfSome, length};
ghost use Rattle.lot_base.specs.Node.{fields, option_nodes};
ghost use Rattle.lot_base.specs.Requeue.{moves_of, IsCallableAtEach, IsCalledAtEach, AreCallable, AreCalled};
ghost use Rattle.lot_base.specs.Waiting.{split_by, has_any};
ghost use Rattle.lot_base.specs.NodeLists.{lists_of, ChangesOnly, saturated, with_new_key, split_to};
ghost use Rattle.lot_base.specs.declared.token.RequeueOp.{RequeueOp};

use super::passing::{queue_of, take_first, take_next, with_unpark_token};
use crate::queue::{Node, Queue};
use crate::token::{RequeueOp, UnparkResult, UnparkToken};
use std::mem;

// What a requeue gives, with the nodes that are still to be put behind those of their new key.
#[derive(Drop)]
pub(super) struct Requeued {
    pub(super) result: UnparkResult,
    pub(super) taken: Queue,
    pub(super) moved: Queue,
}

// Does what a requeue does to the list of its first key and calls its closures, or nothing if it
// is to abort.
pub(super) fn requeue_from<
    C: FnOnce(RequeueOp, UnparkResult) -> UnparkToken,
    M: FnMut(usize, bool),
>(
    queue: &mut Queue,
    from: usize,
    to: usize,
    op: RequeueOp,
    callback: C,
    moved: &mut M,
) -> Option<Requeued>
    requires { AreCallable C.FnOnce M.FnMut op (lists_of queue.old from) callback moved.old }
    ensures aborted { IfNone result
        ((op ≡ RequeueOp.Abort) × (queue.new ≡ queue.old) × (moved.new ≡ moved.old)) }
    ensures chosen { IfSome result (λ _. op ≢ RequeueOp.Abort) }
    ensures called { IfSome result (λ done.
        AreCalled C.FnOnce M.FnMut op (lists_of queue.old from) callback moved.old moved.new
        done.result done.taken) }
    ensures moved { IfSome result (λ done.
        done.moved ≡ (split_to to (split_by op (lists_of queue.old from))).moved) }
    ensures lists { IfSome result (λ _.
        ChangesOnly queue.old queue.new from (split_by op (lists_of queue.old from)).left) }
{
    // An abort ends here.
    let picked = pick(queue, from, to, op, moved)?;

    let result = UnparkResult {
        unparked_threads: if picked.taken.is_some() { 1 } else { 0 },
        requeued_threads: picked.requeued_threads,
        have_more_threads: picked.have_more_threads,
    };

    let token = callback(op, result);
    Some(Requeued {
        result,
        taken: queue_of(picked.taken.map(|node| with_unpark_token(node, token))),
        moved: picked.moved,
    })
}

// What a requeue picks of the nodes of a key: the one that it takes, and those that it moves, which
// have their new key; and whether it leaves any.
#[derive(Drop)]
struct Picked {
    taken: Option<Box<Node>>,
    moved: Queue,
    requeued_threads: usize,
    have_more_threads: bool,
}

// Picks what the operation asks for from the nodes of the key `from`, or nothing if it is to abort.
// Those that it moves get the key `to`, and `moved` is called for each.
fn pick<M: FnMut(usize, bool)>(
    queue: &mut Queue,
    from: usize,
    to: usize,
    op: RequeueOp,
    moved: &mut M,
) -> Option<Picked>
    requires { op ≢ RequeueOp.Abort → IsCallableAtEach M.FnMut moved.old
        (moves_of (split_by op (lists_of queue.old from)).moved) }
    ensures aborted { IfNone result
        ((op ≡ RequeueOp.Abort) × (queue.new ≡ queue.old) × (moved.new ≡ moved.old)) }
    ensures chosen { IfSome result (λ _. op ≢ RequeueOp.Abort) }
    ensures taken { IfSome result (λ picked.
        option_nodes picked.taken ≡ (split_by op (lists_of queue.old from)).taken) }
    ensures moved { IfSome result (λ picked.
        picked.moved ≡ (split_to to (split_by op (lists_of queue.old from))).moved) }
    ensures count { IfSome result (λ picked. picked.requeued_threads
        ≡ saturated (length (split_by op (lists_of queue.old from)).moved)) }
    ensures told { IfSome result (λ _. IsCalledAtEach M.FnMut moved.old
        (moves_of (split_by op (lists_of queue.old from)).moved) moved.new) }
    ensures more { IfSome result (λ picked.
        picked.have_more_threads ≡ has_any (split_by op (lists_of queue.old from)).left) }
    ensures lists { IfSome result (λ _.
        ChangesOnly queue.old queue.new from (split_by op (lists_of queue.old from)).left) }
{
    match op {
        RequeueOp::Abort => None,
        RequeueOp::UnparkOne => {
            let (first, have_more_threads) = take_first(queue, from);
            Some(Picked {
                taken: first,
                moved: Queue::new(),
                requeued_threads: 0,
                have_more_threads,
            })
        }
        RequeueOp::RequeueOne => {
            let (first, have_more_threads) = take_first(queue, from);
            let (moved, requeued_threads) = rekey_every(&mut queue_of(first), from, to, moved);
            Some(Picked {
                taken: None,
                moved,
                requeued_threads,
                have_more_threads,
            })
        }
        RequeueOp::RequeueAll => {
            let (moved, requeued_threads) = rekey_every(queue, from, to, moved);
            Some(Picked {
                taken: None,
                moved,
                requeued_threads,
                have_more_threads: false,
            })
        }
        RequeueOp::UnparkOneRequeueRest => {
            let mut passed = Queue::new();
            let first = take_next(queue, &mut passed, from);
            let (moved, requeued_threads) = rekey_every(queue, from, to, moved);
            passed.append(queue);
            *queue = passed;
            Some(Picked {
                taken: first,
                moved,
                requeued_threads,
                have_more_threads: false,
            })
        }
    }
}

// Takes all nodes of the key `from` from the queue, gives each the key `to`, calls `moved` for it,
// and tells how many they are.
fn rekey_every<M: FnMut(usize, bool)>(
    queue: &mut Queue,
    from: usize,
    to: usize,
    moved: &mut M,
) -> (Queue, usize)
    requires { IsCallableAtEach M.FnMut moved.old (moves_of (lists_of queue.old from)) }
    ensures nodes { result.0 ≡ map (with_new_key to) (lists_of queue.old from) }
    ensures count { result.1 ≡ saturated (length (lists_of queue.old from)) }
    ensures moved { IsCalledAtEach M.FnMut moved.old (moves_of (lists_of queue.old from))
        moved.new }
    ensures lists { ChangesOnly queue.old queue.new from [] }
{
    // A queue of its own has its ends in registers while it is walked.
    let mut nodes = mem::replace(queue, Queue::new());
    let mut rekeyed = Queue::new();
    let mut others = Queue::new();
    let mut count: usize = 0;
    while let Some(node) = nodes.pop_front() {
        if node.key == from {
            moved(node.number, node.timed);
            rekeyed.push_back(with_key(node, to));
            count = count.saturating_add(1);
        } else {
            others.push_back(node);
        }
    }
    *queue = others;
    (rekeyed, count)
}

// The node with another key.
fn with_key(mut node: Box<Node>, key: usize) -> Box<Node>
    ensures { fields result.value ≡ with_new_key key (fields node.value) }
{
    node.key = key;
    node
}
