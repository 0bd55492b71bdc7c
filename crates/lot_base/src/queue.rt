//! This module has a queue of nodes, one node for each waiting thread, which are linked by fields
//! of their own.

ghost use Rattle.std.specs.Prelude.{◌≡◌, List, [], ◌∷◌, ◌++◌, ◌↔◌, IsNone, IfOk, MatchOption, drop};
ghost use Rattle.std.specs.Coded.{prop_coded};
ghost use denote.RawPtr.{null_ptr};
ghost use Rattle.lot_base.specs.Chain.{Placed, all_fields, LeadsTo, LeadsTo-prop, IsChain, IsChain-prop, nodes_lent};
ghost use Rattle.lot_base.specs.Fold.{CanFold, Folds};
ghost use Rattle.lot_base.specs.Node.{fields, new_node, option_nodes};

use crate::token::{DEFAULT_PARK_TOKEN, DEFAULT_UNPARK_TOKEN, NoMemory, ParkToken, UnparkToken};
use std::alloc::Global;
use std::marker::{Model, PhantomData, Send, Sync};
use std::ptr;

/// A `Node` belongs to a registered thread, and is in a queue while that thread waits.
///
/// Whoever has the box may write the public fields.
#[derive(Drop)]
pub struct Node {
    /// The number of the thread.
    pub number: usize,

    /// The key on which the thread waits. While it does not wait, this is the key on which it last
    /// waited or tried to wait, and 0 before that.
    pub key: usize,

    /// The token that filters see while the thread waits.
    pub park_token: ParkToken,

    /// The token that the thread was given when it was last unparked.
    pub unpark_token: UnparkToken,

    /// Says whether the thread waits with a timeout.
    pub timed: bool,

    // The node behind it in a queue, or null. Outside of a queue it means nothing.
    link: *mut Node,

    // What frees its box.
    alloc: Global,
}

// Only a queue follows the link, and it owns the nodes that it follows it to.
unsafe impl Send for Node {}

unsafe impl Sync for Node {}

impl Node {
    /// Creates a node of the thread with this number, with key 0, both default tokens and no
    /// timeout.
    ///
    /// A node allocates only here.
    ///
    /// # Errors
    ///
    /// Returns `NoMemory` if there is not enough memory for the box.
    pub fn new(alloc: Global, number: usize) -> Result<Box<Node>, NoMemory>
        ensures { IfOk result (λ node. fields node.value ≡ new_node number) }
    {
        let node = Node {
            number,
            key: 0,
            park_token: DEFAULT_PARK_TOKEN,
            unpark_token: DEFAULT_UNPARK_TOKEN,
            timed: false,
            link: ptr::null_mut(),
            alloc,
        };
        Ok(Box::new(alloc, node)?)
    }

    /// Writes the key, the park token and the timeout mark with which the thread is about to wait.
    ///
    /// The number and the unpark token stay as they are.
    pub fn prepare(&mut self, key: usize, park_token: ParkToken, timed: bool)
        ensures { fields self.new ≡ record (fields self.old) {
          key = key;
          park_token = park_token;
          timed = timed;
        } }
    {
        self.key = key;
        self.park_token = park_token;
        self.timed = timed;
    }
}

/// A `Queue` is a list of nodes, first in, first out.
///
/// It is a chain of the nodes themselves, of which it keeps the first and the last. No call
/// allocates, and none can fail. A queue that is dropped frees its nodes one after another, however
/// many there are.
pub struct Queue {
    // Both are null if there is no node.
    head: *mut Node,
    tail: *mut Node,
    ghost nodes: { List Placed },
    ghost linked: { IsChain head tail nodes } by { prop_coded (IsChain-prop head tail nodes) },
}

impl Model for Queue {
    ghost use Rattle.std.specs.Prelude.{List};
    ghost use Rattle.lot_base.specs.NodeFields.{NodeFields};

    ghost Value = { List NodeFields };

    ghost use denote.RawPtr.{null_ptr};
    ghost use Rattle.lot_base.specs.Chain.{all_fields, nodes_own, nodes_lent};

    ghost view = { λ queue. all_fields queue.nodes };

    ghost also_owns = { λ queue. nodes_own queue.nodes null_ptr };

    ghost also_shares = { λ queue _ κ. nodes_lent queue.nodes null_ptr κ };
}

unsafe impl Send for Queue {}

unsafe impl Sync for Queue {}

impl Queue {
    /// Creates an empty queue.
    pub fn new() -> Queue
        ensures { result ≡ [] }
    {
        Queue {
            head: ptr::null_mut(),
            tail: ptr::null_mut(),
        }
    }

    // The queue of one node.
    fn of(node: Box<Node>) -> Queue
        ensures { result ≡ fields node.value ∷ [] }
    {
        let only = Box::into_raw(node);
        unsafe { (*only).link = ptr::null_mut() };
        Queue {
            head: only,
            tail: only,
        }
    }

    /// Puts the node behind all others.
    ///
    /// It takes the same time however many nodes there are, because it visits only the last of
    /// them.
    pub fn push_back(&mut self, node: Box<Node>)
        ensures { self.new ≡ self.old ++ fields node.value ∷ [] }
    {
        self.append(&mut Queue::of(node));
    }

    /// Moves all nodes of the other queue behind those of this one, and leaves the other empty.
    ///
    /// It takes the same time however many nodes there are, because it visits only the last one of
    /// this queue.
    pub fn append(&mut self, other: &mut Queue)
        ensures nodes { self.new ≡ self.old ++ other.old }
        ensures emptied { other.new ≡ [] }
    {
        if other.head.is_null() {
            return;
        }
        if self.tail.is_null() {
            self.head = other.head;
        } else {
            unsafe { (*self.tail).link = other.head };
        }
        self.tail = other.tail;
        other.head = ptr::null_mut();
        other.tail = ptr::null_mut();
    }

    /// Takes the first node, or returns `None` if and only if the queue is empty.
    ///
    /// It visits one node.
    pub fn pop_front(&mut self) -> Option<Box<Node>>
        ensures nodes { self.old ≡ option_nodes result ++ self.new }
        ensures none { IsNone result ↔ (self.old ≡ []) }
    {
        let first = self.head;
        if first.is_null() {
            return None;
        }
        self.head = unsafe { (*first).link };
        if self.head.is_null() {
            self.tail = ptr::null_mut();
        }
        Some(unsafe { Box::from_raw((*first).alloc, first) })
    }

    // The end of a queue that owns no node any more.
    fn end(self)
        requires { self ≡ [] }
    {
        let Queue { head: _, tail: _ } = self;
    }

    // The nodes, first to last.
    fn nodes(&self) -> Nodes<'_>
        ensures { all_fields result.nodes ≡ self.now }
    {
        Nodes {
            first: self.head,
            lent: PhantomData,
        }
    }

    /// Returns the first node, or `None` if and only if the queue is empty.
    ///
    /// It visits one node.
    pub fn front(&self) -> Option<&Node>
        ensures { MatchOption result (self.now ≡ [])
            (λ node. self.now ≡ fields node.now ∷ drop 1 self.now) }
    {
        self.nodes().next()
    }

    /// Calls `f` once for each node, in order, and returns what the last call returned.
    ///
    /// Each call is given what the call before returned, the first one `start`. If the queue is
    /// empty, the result is `start`. Each node is visited once.
    pub fn fold<B, F: FnMut(B, &Node) -> B>(&self, start: B, mut f: F) -> B
        requires { CanFold F.FnMut f start self.now }
        ensures { (last : F) × Folds F.FnMut f start self.now last result }
    {
        let mut answer = start;
        let mut nodes = self.nodes();
        while let Some(node) = nodes.next() {
            answer = f(answer, node);
        }
        answer
    }
}

impl Drop for Queue {
    // A derived end would free none of the nodes.
    fn drop(mut self) {
        while let Some(node) = self.pop_front() {
            drop(node);
        }
        self.end();
    }
}

// The nodes of a queue from one of them on. At the end `first` is null.
#[derive(Drop)]
struct Nodes<'a> {
    first: *const Node,
    lent: PhantomData<&'a Node>,
    ghost nodes: { List Placed },
    ghost leads: { LeadsTo first nodes } by { prop_coded (LeadsTo-prop first nodes) },
}

impl<'a> Model for Nodes<'a> {
    ghost also_owns = { λ rest. nodes_lent rest.nodes null_ptr 'a };
}

impl<'a> Nodes<'a> {
    // The first of the nodes, which are from then on those behind it.
    fn next(&mut self) -> Option<&'a Node>
        ensures { MatchOption result
            ((self.old.nodes ≡ []) × (self.new.nodes ≡ []))
            (λ node. all_fields self.old.nodes ≡ fields node.now ∷ all_fields self.new.nodes) }
    {
        if self.first.is_null() {
            return None;
        }
        let node = unsafe { &*self.first };
        self.first = node.link;
        Some(node)
    }
}
