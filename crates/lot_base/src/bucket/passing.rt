//! This module takes nodes off the queue of a bucket, and puts back those that it passes.

ghost use Rattle.std.specs.Prelude.{◌≡◌, [], ◌++◌, map, take, drop, IfNone, IfSome, length, List, find, option_map, not, None, Some, MatchOption};
ghost use Rattle.lot_base.specs.Filter.{IsFilterCallable, IsFiltered, park_tokens};
ghost use Rattle.lot_base.specs.Node.{fields, option_nodes};
ghost use Rattle.lot_base.specs.Waiting.{split_filter, has_any, result_of, without_first};
ghost use Rattle.lot_base.specs.NodeLists.{lists_of, ChangesOnly, saturated, with_saturated_counts, with_token, has_number, is_timed};
ghost use Rattle.lot_base.specs.declared.token.FilterOp.{FilterOp};

use crate::queue::{Node, Queue};
use crate::token::{FilterOp, ParkToken, UnparkResult, UnparkToken};
use std::mem;

// Takes the first node of the key from the queue, and tells whether another one is left.
pub(super) fn take_first(queue: &mut Queue, key: usize) -> (Option<Box<Node>>, bool)
    ensures first { option_nodes result.0 ≡ take 1 (lists_of queue.old key) }
    ensures more { result.1 ≡ has_any (drop 1 (lists_of queue.old key)) }
    ensures lists { ChangesOnly queue.old queue.new key (drop 1 (lists_of queue.old key)) }
{
    // An unpark that finds nobody is the usual one, and most buckets are empty.
    if queue.front().is_none() {
        return (None, false);
    }
    let mut passed = Queue::new();
    let first = take_next(queue, &mut passed, key);
    let have_more_threads = pass_to_next(queue, &mut passed, key);
    passed.append(queue);
    *queue = passed;
    (first, have_more_threads)
}

// Looks for a node of the key in the queue; it and those before it go behind `passed`.
fn pass_to_next(queue: &mut Queue, passed: &mut Queue, key: usize) -> bool
    ensures nodes { passed.new ++ queue.new ≡ passed.old ++ queue.old }
    ensures found { result ≡ has_any (lists_of queue.old key) }
{
    match take_next(queue, passed, key) {
        Some(node) => {
            passed.push_back(node);
            true
        }
        None => false,
    }
}

// Takes the first node of the key from the queue; those before it go behind `passed`.
pub(super) fn take_next(queue: &mut Queue, passed: &mut Queue, key: usize) -> Option<Box<Node>>
    ensures nodes { passed.new ++ option_nodes result ++ queue.new ≡ passed.old ++ queue.old }
    ensures passed { lists_of passed.new key ≡ lists_of passed.old key }
    ensures waiters { lists_of queue.old key ≡ option_nodes result ++ lists_of queue.new key }
    ensures found { IfSome result (λ node. (fields node.value).key ≡ key) }
    ensures none { IfNone result (queue.new ≡ []) }
{
    while let Some(node) = queue.pop_front() {
        if node.key == key {
            return Some(node);
        }
        passed.push_back(node);
    }
    None
}

// Takes all nodes of the key from the queue, writes the token into each, and tells how many they
// are.
pub(super) fn take_every(queue: &mut Queue, key: usize, token: UnparkToken) -> (usize, Queue)
    ensures count { result.0 ≡ saturated (length (lists_of queue.old key)) }
    ensures taken { result.1 ≡ map (with_token token) (lists_of queue.old key) }
    ensures lists { ChangesOnly queue.old queue.new key [] }
{
    // A queue of its own has its ends in registers while it is walked.
    let mut nodes = mem::replace(queue, Queue::new());
    let mut taken = Queue::new();
    let mut others = Queue::new();
    let mut count: usize = 0;
    while let Some(node) = nodes.pop_front() {
        if node.key == key {
            taken.push_back(with_unpark_token(node, token));
            count = count.saturating_add(1);
        } else {
            others.push_back(node);
        }
    }
    *queue = others;
    (count, taken)
}

// Takes from the queue the nodes of the key that the filter unparks; the others of the key stay, in
// order.
pub(super) fn take_chosen<F: FnMut(ParkToken) -> FilterOp>(
    queue: &mut Queue,
    key: usize,
    mut filter: F,
) -> (UnparkResult, Queue)
    requires { IsFilterCallable F.FnMut filter (park_tokens (lists_of queue.old key)) }
    ensures { let waiters = lists_of queue.old key in record {
      decisions : List FilterOp;
      decided : IsFiltered F.FnMut filter (park_tokens waiters) decisions;
      lists : ChangesOnly queue.old queue.new key (split_filter decisions waiters).left;
      answer : result.0 ≡ with_saturated_counts (result_of (split_filter decisions waiters));
      taken : result.1 ≡ (split_filter decisions waiters).taken;
    } }
{
    let mut passed = Queue::new();
    let mut taken = Queue::new();
    let mut result = UnparkResult::default();
    while let Some(node) = take_next(queue, &mut passed, key) {
        match filter(node.park_token) {
            FilterOp::Unpark => {
                result.unparked_threads = result.unparked_threads.saturating_add(1);
                taken.push_back(node);
            }
            FilterOp::Skip => {
                result.have_more_threads = true;
                passed.push_back(node);
            }
            FilterOp::Stop => {
                result.have_more_threads = true;
                passed.push_back(node);
                break;
            }
        }
    }
    passed.append(queue);
    *queue = passed;
    (result, taken)
}

// The nodes with the token written into each.
pub(super) fn write_token(mut nodes: Queue, token: UnparkToken) -> Queue
    ensures { result ≡ map (with_token token) nodes }
{
    let mut written = Queue::new();
    while let Some(node) = nodes.pop_front() {
        written.push_back(with_unpark_token(node, token));
    }
    written
}

// Takes the key's first node of this number from the queue, and tells whether the key has none
// left.
pub(super) fn take_numbered(
    queue: &mut Queue,
    number: usize,
    key: usize,
) -> Option<(Box<Node>, bool)>
    ensures lists { ChangesOnly queue.old queue.new key
        (without_first (has_number number) (lists_of queue.old key)) }
    ensures found { let waiters = lists_of queue.old key in
        MatchOption result
        ((find (has_number number) waiters ≡ None) × (queue.new ≡ queue.old))
        (λ (node, last). (find (has_number number) waiters ≡ Some (fields node.value))
        × (last ≡ not (has_any (without_first (has_number number) waiters)))) }
{
    let mut passed = Queue::new();
    let found = take_numbered_and_look(queue, &mut passed, number, key);
    passed.append(queue);
    *queue = passed;
    found
}

// Takes the key's first node of this number from the queue; those before it go behind `passed`. It
// also tells whether no other node of the key was passed here or comes later.
fn take_numbered_and_look(
    queue: &mut Queue,
    passed: &mut Queue,
    number: usize,
    key: usize,
) -> Option<(Box<Node>, bool)>
    ensures lists { ChangesOnly (passed.old ++ queue.old) (passed.new ++ queue.new) key
        (lists_of passed.old key ++ without_first (has_number number) (lists_of queue.old key)) }
    ensures found { let waiters = lists_of queue.old key in
        MatchOption result
        ((find (has_number number) waiters ≡ None)
        × (passed.new ++ queue.new ≡ passed.old ++ queue.old))
        (λ (node, last). (find (has_number number) waiters ≡ Some (fields node.value))
        × (last ≡ not (has_any (without_first (has_number number) waiters)))) }
{
    let first = take_next(queue, passed, key)?;
    if first.number == number {
        let last = !pass_to_next(queue, passed, key);
        return Some((first, last));
    }
    passed.push_back(first);
    let node = take_next_numbered(queue, passed, number, key)?;
    Some((node, false))
}

// Takes the key's first node of this number from the queue; those before it go behind `passed`.
fn take_next_numbered(
    queue: &mut Queue,
    passed: &mut Queue,
    number: usize,
    key: usize,
) -> Option<Box<Node>>
    ensures nodes { passed.new ++ option_nodes result ++ queue.new ≡ passed.old ++ queue.old }
    ensures left { lists_of (passed.new ++ queue.new) key
        ≡ lists_of passed.old key ++ without_first (has_number number) (lists_of queue.old key) }
    ensures key { IfSome result (λ node. (fields node.value).key ≡ key) }
    ensures found { find (has_number number) (lists_of queue.old key)
        ≡ option_map (λ node. fields node.value) result }
{
    while let Some(node) = queue.pop_front() {
        if node.key == key && node.number == number {
            return Some(node);
        }
        passed.push_back(node);
    }
    None
}

// Whether the key's first node of this number is one of a thread that waits with a timeout.
pub(super) fn waits_timed(queue: &mut Queue, number: usize, key: usize) -> bool
    ensures nodes { queue.new ≡ queue.old }
    ensures timed { result ≡ is_timed (find (has_number number) (lists_of queue.old key)) }
{
    let mut passed = Queue::new();
    let timed = pass_to_numbered(queue, &mut passed, number, key);
    passed.append(queue);
    *queue = passed;
    timed
}

// Looks whether the key's first node of this number waits with a timeout; it and those before it go
// behind `passed`.
fn pass_to_numbered(queue: &mut Queue, passed: &mut Queue, number: usize, key: usize) -> bool
    ensures nodes { passed.new ++ queue.new ≡ passed.old ++ queue.old }
    ensures timed { result ≡ is_timed (find (has_number number) (lists_of queue.old key)) }
{
    match take_next_numbered(queue, passed, number, key) {
        Some(node) => {
            let timed = node.timed;
            passed.push_back(node);
            timed
        }
        None => false,
    }
}

// The node with the token that its thread is handed.
pub(super) fn with_unpark_token(mut node: Box<Node>, token: UnparkToken) -> Box<Node>
    ensures { fields result.value ≡ with_token token (fields node.value) }
{
    node.unpark_token = token;
    node
}

// The queue of the node, if there is one.
pub(super) fn queue_of(node: Option<Box<Node>>) -> Queue
    ensures { result ≡ option_nodes node }
{
    let mut nodes = Queue::new();
    if let Some(node) = node {
        nodes.push_back(node);
    }
    nodes
}
