//! Thread numbers with a node for each, for lots of threads, which hand a node out with its number.

ghost use Rattle.std.specs.Prelude.{◌≡◌, ◌≢◌, ◌↔◌, ◌+◌, ◌<◌, ◌≤◌, Some, Err, IfSome, IfNone, IsErrOf, IfOk, length, replicate, slice_get, slice_set, true, false};
ghost use Rattle.lot_base.specs.Node.{fields};
ghost use Rattle.lot_machine.specs.Numbers.{count_registered, IsLeastUnregistered};

use crate::cell::LINE;
use lot_base::queue::Node;
use lot_base::token::{LotError, NoMemory};
use lot_machine::numbers::{MAX_THREADS, Numbers, Use};
use std::alloc::Global;
use std::marker::Model;

/// The use of each thread number, of which there are at most `MAX_THREADS`, and a node for each,
/// which lies here while its number is free.
///
/// The nodes are made with the lot, so a registration asks for none. Between two of them lies a
/// cache line that nobody reads. So a thread that writes its own node, as each park does, does not
/// slow the others.
#[derive(Drop)]
pub struct NumberedNodes {
    numbers: Numbers,
    places: Places,
}

impl Model for NumberedNodes {
    ghost use Rattle.std.specs.Prelude.{◌≡◌, List, map};
    ghost use Rattle.lot_machine.specs.declared.numbers.Use.{Use};
    ghost use Rattle.lot_machine.specs.Numbers.{is_free};

    ghost Value = { List Use };

    ghost view = { λ nodes. nodes.numbers };

    ghost invariant = { λ nodes. nodes.places ≡ map is_free nodes.numbers };
}

impl NumberedNodes {
    /// So many numbers, none of them registered, and a node for each. It allocates the room for
    /// all of them, each node, and a block behind it.
    ///
    /// # Errors
    ///
    /// `TooManyThreads` exactly if `max` is above `MAX_THREADS`, and else `NoMemory` if memory
    /// cannot be had.
    pub fn new(alloc: Global, max: usize) -> Result<NumberedNodes, LotError>
        ensures too_many { IsErrOf result LotError.TooManyThreads ↔ (MAX_THREADS < max) }
        ensures not_full { result ≢ Err LotError.Full }
        ensures free { IfOk result (λ nodes. nodes ≡ replicate max Use.Free) }
    {
        Ok(NumberedNodes {
            numbers: Numbers::new(alloc, max)?,
            places: Places::new(alloc, max)?,
        })
    }

    /// How many numbers are registered.
    pub fn registered(&self) -> usize
        ensures { result ≡ count_registered self.now }
    {
        self.numbers.registered()
    }

    /// The least number that is not registered, if there is one, which is found as
    /// `Numbers::least_free` finds it.
    pub fn least_free(&self) -> Option<usize>
        ensures some { IfSome result (IsLeastUnregistered self.now) }
        ensures few { IfSome result (λ _. count_registered self.now < MAX_THREADS) }
        ensures none { IfNone result (count_registered self.now ≡ length self.now) }
    {
        self.numbers.least_free()
    }

    /// Registers the least free number, and answers its node. It allocates nothing.
    pub fn register(&mut self, number: usize) -> Box<Node>
        requires { IsLeastUnregistered self.old number }
        ensures registered { self.new ≡ slice_set self.old number Use.Registered }
        ensures count { count_registered self.new ≡ count_registered self.old + 1 }
        ensures node { (fields result.value).number ≡ number }
    {
        self.numbers.register(number);
        self.places.take(number)
    }

    /// Frees the number of the node, and keeps the node for whoever registers it next. A node whose
    /// number is none of these is dropped. It allocates nothing.
    pub fn release(&mut self, node: Box<Node>)
        ensures freed { self.new ≡ slice_set self.old (fields node.value).number Use.Free }
        ensures count { count_registered self.new ≤ count_registered self.old }
    {
        self.numbers.release(node.number);
        self.places.put(node);
    }
}

// A place for the node of each thread number.
#[derive(Drop)]
struct Places {
    nodes: Vec<Option<Box<Node>>>,

    // A block behind each node on the heap.
    between: Vec<Box<[u64; LINE]>>,
}

impl Model for Places {
    ghost use Rattle.std.specs.Prelude.{Bool, List, map};
    ghost use Rattle.std.specs.Option.{is_some};

    // Which numbers have their node here.
    ghost Value = { List Bool };

    ghost view = { λ places. map is_some places.nodes.items };
}

impl Places {
    // A node for each of so many numbers.
    fn new(alloc: Global, numbers: usize) -> Result<Places, NoMemory>
        ensures { IfOk result (λ places. places ≡ replicate numbers true) }
    {
        let mut nodes = Vec::with_capacity(alloc, numbers)?;
        let mut between = Vec::with_capacity(alloc, numbers)?;
        for number in 0..numbers {
            nodes.push(Some(Node::new(alloc, number)?))?;
            between.push(Box::new(alloc, [0; LINE])?)?;
        }
        Ok(Places { nodes, between })
    }

    // Takes the node of the number, which is here.
    fn take(&mut self, number: usize) -> Box<Node>
        requires { slice_get self.old number ≡ Some true }
        ensures nodes { self.new ≡ slice_set self.old number false }
        ensures number { (fields result.value).number ≡ number }
    {
        let mut node = self.nodes[number].take().unwrap();
        // It has that number already, and a proof need not know why.
        node.number = number;
        node
    }

    // Puts the node back to its number. One whose number is none of these is dropped.
    fn put(&mut self, node: Box<Node>)
        ensures { self.new ≡ slice_set self.old (fields node.value).number true }
    {
        let number = node.number;
        if number >= self.nodes.len() {
            return;
        }
        self.nodes[number] = Some(node);
    }
}
