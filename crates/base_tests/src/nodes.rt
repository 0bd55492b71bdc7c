//! Nodes, and the numbers of those in a queue.

ghost use Rattle.std.specs.Prelude.{◌≡◌};
ghost use Rattle.lot_base.specs.Node.{fields};

use crate::words::with_digit;
use lot_base::queue::{Node, Queue};
use lot_base::token::ParkToken;
use std::alloc::Global;
use std::process::Abort;

/// The node of a thread that is about to wait on the key with this park token.
pub fn node(rt: &impl Abort, alloc: Global, number: usize, key: usize, token: usize) -> Box<Node>
    ensures number { (fields result.value).number ≡ number }
    ensures key { (fields result.value).key ≡ key }
{
    let mut node = Node::new(alloc, number).expect(rt, "memory");
    node.prepare(key, ParkToken(token), false);
    node
}

/// The numbers of the nodes as digits, with 9 for one that has another unpark token.
pub fn digits(nodes: &Queue, token: usize) -> usize {
    nodes.fold(0_usize, |digits, node| {
        let has_token = node.unpark_token.0 == token;
        with_digit(digits, if has_token { node.number } else { 9 })
    })
}
