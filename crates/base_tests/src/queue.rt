//! Tests of queues of nodes. What each call does to the list of the nodes its clauses say.

use crate::expect;
use crate::nodes::{digits, node};
use lot_base::queue::Queue;
use std::alloc::Global;
use std::process::Abort;

// Puts nodes of the numbers from 1 on behind those of the queue.
fn push_all(rt: &impl Abort, alloc: Global, queue: &mut Queue, nodes: usize) {
    for index in 0..nodes {
        queue.push_back(node(rt, alloc, index.wrapping_add(1), 0, 0));
    }
}

// No clause refuses a `Node::new` that always answers `NoMemory`: this does.
#[test]
fn nodes_leave_in_the_order_in_which_they_came(rt: HostRuntime) {
    let (mut queue, mut other) = (Queue::new(), Queue::new());
    push_all(&rt, rt.alloc(), &mut queue, 2);
    push_all(&rt, rt.alloc(), &mut other, 3);
    queue.append(&mut other);
    expect(&rt, other.front().is_none(), "the other's nodes are away");
    drop(queue.pop_front());
    let are_left = digits(&queue, 0) == 2_123 && queue.front().is_some();
    expect(&rt, are_left, "all but the first are left");
}

// A derived end would free no node, and one by boxes would call itself once for each and run out
// of stack.
#[test]
fn a_long_queue_is_freed_by_a_loop(rt: HostRuntime) {
    let mut queue = Queue::new();
    push_all(&rt, rt.alloc(), &mut queue, 100_000);
    expect(&rt, queue.front().is_some(), "there are nodes");
    drop(queue);
}
