//! This module has parkers: a parker puts its thread to sleep until another thread hands it its
//! node.
//!
//! The node goes through a slot, and a payload may go beside it. It is proved whose node comes
//! back, that the payload was handed over with it, and at whose parker a handle wakes. That the
//! thread is woken, and that a node which was put into a slot comes out, is tested.

ghost use Rattle.std.specs.Prelude.{◌≡◌, [], ◌∷◌, ◌++◌, ◌↔◌, ℕ, IsNone, IsTrue, IfNone, IfSome, IfOk, None, Some};
ghost use Rattle.lot_word_lock.specs.WordLock.{key_of};
ghost use Rattle.lot_base.specs.Node.{fields, option_nodes};
ghost use Rattle.lot_base.specs.NodeFields.{NodeFields};
ghost use Rattle.lot_base.specs.Loaded.{HasNoNode, IsUnparked, IsSlotFor};

mod generic;
mod mutex;
mod word;

use crate::queue::{Node, Queue};
use crate::token::NoMemory;
pub use generic::{YieldHandle, YieldParker};
use lot_word_lock::word_lock::{Fits, WordLock};
pub use mutex::{ThreadParker, UnparkHandle};
use std::alloc::Global;
use std::marker::Model;
use std::sync::Wait;
use std::thread;
use std::time::{Clock, Duration, Instant};
pub use word::{WordHandle, WordParker};

/// A `Payload` is what goes beside a node, from the thread that unparks to the thread that is
/// unparked.
///
/// It is `()` if nothing does.
pub trait Payload: Drop {
    /// Tells the payloads of one lot from those of another, in proofs.
    type Home;

    /// Says what a payload that goes beside this node satisfies.
    ghost fits: { Self.Home → NodeFields → Self → Type 0 };
}

/// With `()`, nothing goes beside a node.
impl Payload for () {
    type Home = ();

    ghost fits = { λ _ _ _. Unit {0} };
}

/// A `ParkerKey` says to which thread of which lot a parker belongs.
///
/// The home is for proofs alone. No parker keeps a byte of it.
#[derive(Drop)]
pub struct ParkerKey<H> {
    /// The number of the thread.
    pub number: usize,

    /// What the payloads of the thread fit.
    pub home: H,
}

/// A parker puts one thread to sleep until another thread hands it its node, and a payload beside
/// it.
///
/// A parker belongs to one thread, its owner, and has a slot for the owner's node. While the slot
/// is empty, the owner is parked or may park. A node in the slot means that an unpark of the owner
/// was committed, and the owner may take the node and go on.
///
/// The contract of each call keeps the law of the trait: a node that comes back has the number of
/// the owner, and a payload that comes with it fits it.
///
/// `timed_out`, `park`, `park_until` and `unpark_lock` take the locks of the parker itself, or what
/// it has in place of them, and no others. In the order of locks these come after those of a table
/// and of a bucket, which the caller may hold, and each call releases them before it returns. No
/// call except `new` allocates.
pub trait ParkerT: Sized + Drop {
    /// The type of what goes beside a node.
    type Payload: Payload;

    /// The type of the handle, which stands for what is left to do for a thread whose unpark was
    /// committed.
    ///
    /// It is `Send` and `Sync`, because a closure that goes to another thread may contain one.
    type UnparkHandle: UnparkHandleT<Self> + Send + Sync;

    /// Says whether a parker costs little to create. Nothing here depends on it.
    const IS_CHEAP_TO_CONSTRUCT: bool;

    /// The number of the thread to which the parker belongs.
    ghost owner: { Self → ℕ };

    /// What the payloads of the owner fit.
    ghost home: { Self → Self.Payload.Home };

    /// Creates a parker for the thread of this key, with an empty slot.
    ///
    /// It may allocate.
    ///
    /// # Errors
    ///
    /// Returns `NoMemory` if there is not enough memory.
    fn new(
        alloc: Global,
        key: &ParkerKey<<Self::Payload as Payload>::Home>,
    ) -> Result<Self, NoMemory>
        ensures owner { IfOk result (λ parker. owner parker ≡ key.now.number) }
        ensures home { IfOk result (λ parker. home parker ≡ key.now.home) };

    /// Prepares a park; the owner calls it before its node enters a queue.
    ///
    /// It takes no lock, does not wait, and leaves the slot as it is.
    fn prepare_park(&self);

    /// Returns whether the slot is empty, so that no unpark was committed.
    ///
    /// The owner calls it after its deadline, with the bucket locked in which it waits. The answer
    /// holds for a moment at which no other thread worked on the slot. It waits for the locks of
    /// the parker alone.
    fn timed_out<R: Wait>(&self, rt: &R) -> bool;

    /// Waits until there is a node in the slot, and takes the node and the payload beside it.
    ///
    /// The owner calls it when its node is in a queue, and with no lock held. It holds no lock
    /// while it sleeps.
    fn park<R: Wait>(&self, rt: &R) -> (Box<Node>, Self::Payload)
        ensures node { (fields result.0.value).number ≡ owner self.now }
        ensures payload { Self.Payload.fits (home self.now) (fields result.0.value) result.1 };

    /// Waits as `park` does, but returns `None` if the slot is still empty after the deadline.
    ///
    /// A node may come later in that case. A clock that cannot be read counts as past the deadline.
    /// The owner calls it in place of `park`. It holds no lock while it sleeps.
    fn park_until<R: Wait + Clock>(
        &self,
        rt: &R,
        timeout: Instant,
    ) -> Option<(Box<Node>, Self::Payload)>
        ensures node { IfSome result (λ back. (fields back.0.value).number ≡ owner self.now) }
        ensures payload { IfSome result (λ back.
            Self.Payload.fits (home self.now) (fields back.0.value) back.1) };

    /// Puts a node of the owner into the slot, and a payload beside it: this commits the unpark.
    ///
    /// From here on the owner may take its node and go on at any moment, whether it is woken or
    /// not. A thread that took the node out of a queue calls this, and may still have that bucket
    /// locked. It waits for the locks of the parker alone.
    ///
    /// A slot has room for one node, and each thread has one. If there is a node in the slot
    /// already, its owner is unparked already: that node stays, and the new one is dropped.
    fn unpark_lock<R: Wait>(
        &self,
        rt: &R,
        node: Box<Node>,
        payload: Self::Payload,
    ) -> Self::UnparkHandle
        requires node { (fields node.value).number ≡ owner self.now }
        requires payload { Self.Payload.fits (home self.now) (fields node.value) payload }
        ensures { Self.UnparkHandle.number result ≡ (fields node.value).number };
}

/// A `ThreadParkerT` is a parker through which nothing goes beside the node.
///
/// This is enough for a lot that keeps no history.
pub trait ThreadParkerT: ParkerT<Payload = ()> {}

impl<P: ParkerT<Payload = ()>> ThreadParkerT for P {}

/// A handle stands for what is left to do for a thread whose unpark was committed: to wake it.
///
/// A handle that is dropped wakes nobody.
pub trait UnparkHandleT<P: ParkerT>: Drop {
    /// The number of the node that was committed.
    ghost number: { Self → ℕ };

    /// Returns the number of the thread to wake, which is that of the node that was committed.
    fn number(&self) -> usize
        ensures { result ≡ number self.now };

    /// Wakes the thread if it sleeps on this parker.
    ///
    /// The contract requires that the parker belongs to the thread of the handle. So call it with
    /// the parker that gave the handle, best after the bucket was unlocked. It takes no lock, does
    /// not wait, and leaves the slot as it is. A thread that is woken although its slot is empty
    /// looks again.
    fn unpark(self, parker: &P)
        requires { P.owner parker.now ≡ number self };
}

/// Yields the processor, so that another thread may run. It takes no lock.
pub fn thread_yield() {
    thread::yield_now();
}

/// A `Slot` is the place where a thread finds its node after it was unparked.
///
/// Every node in it has the number of the owner. No call allocates, and none can fail.
#[derive(Drop)]
pub struct Slot {
    owner: usize,
    nodes: Queue,
}

impl Model for Slot {
    ghost use Rattle.std.specs.Prelude.{◌≡◌, All};
    ghost use Rattle.lot_base.specs.SlotState.{SlotState};

    ghost Value = { SlotState };

    ghost view = { λ slot. record { owner = slot.owner; nodes = slot.nodes } };

    ghost invariant = { λ slot. All (λ node. node.number ≡ slot.owner) slot.nodes };
}

impl Slot {
    /// Creates an empty slot for the thread with this number.
    pub fn new(owner: usize) -> Slot
        ensures { result ≡ record { owner = owner; nodes = [] } }
    {
        Slot {
            owner,
            nodes: Queue::new(),
        }
    }

    /// Returns the number of the thread to which the slot belongs.
    pub fn owner(&self) -> usize
        ensures { result ≡ self.now.owner }
    {
        self.owner
    }

    /// Returns whether there is no node in the slot.
    pub fn is_empty(&self) -> bool
        ensures { IsTrue result ↔ (self.now.nodes ≡ []) }
    {
        self.nodes.front().is_none()
    }

    /// Puts a node of the owner behind those in the slot. It costs one `push_back`.
    pub fn put(&mut self, node: Box<Node>)
        requires { (fields node.value).number ≡ self.old.owner }
        ensures { self.new ≡ record self.old { nodes = self.old.nodes ++ fields node.value ∷ [] } }
    {
        self.nodes.push_back(node);
    }

    /// Takes the first node, or returns `None` if and only if the slot is empty.
    ///
    /// It visits one node.
    pub fn take(&mut self) -> Option<Box<Node>>
        ensures owner { self.new.owner ≡ self.old.owner }
        ensures nodes { self.old.nodes ≡ option_nodes result ++ self.new.nodes }
        ensures none { IsNone result ↔ (self.old.nodes ≡ []) }
        ensures number { IfSome result (λ node. (fields node.value).number ≡ self.old.owner) }
    {
        self.nodes.pop_front()
    }
}

// The time until the deadline. `None` says that it has come, or that the clock cannot be read.
fn time_left<R: Clock>(rt: &R, deadline: Instant) -> Option<Duration> {
    let now = Instant::now(rt).ok()?;
    deadline
        .checked_duration_since(now)
        .filter(|left| !left.is_zero())
}

// Where a parker's owner finds its node when it was unparked, and the payload beside it.
#[derive(Drop)]
struct LoadedSlot<L: Payload> {
    owner: usize,
    unparked: Option<(Box<Node>, L)>,
}

impl<L: Payload> LoadedSlot<L> {
    // An empty slot of the thread of this number.
    fn new(number: usize) -> LoadedSlot<L>
        ensures { result ≡ record { owner = number; unparked = None } }
    {
        LoadedSlot {
            owner: number,
            unparked: None,
        }
    }

    // Whether the slot holds no node.
    #[inline]
    fn is_empty(&self) -> bool
        ensures { IsTrue result ↔ HasNoNode self.now }
    {
        self.unparked.is_none()
    }

    // Puts a node of the owner into the slot, and its payload beside it, unless one is there.
    #[inline]
    fn put(&mut self, node: Box<Node>, payload: L)
        ensures owner { self.new.owner ≡ self.old.owner }
        ensures empty { HasNoNode self.old → self.new.unparked ≡ Some (node, payload) }
        ensures full { (HasNoNode self.old → ⊥) → self.new.unparked ≡ self.old.unparked }
    {
        if self.is_empty() {
            self.unparked = Some((node, payload));
        }
    }

    // Takes what the slot holds.
    #[inline]
    fn take(&mut self) -> Option<(Box<Node>, L)>
        ensures owner { self.new.owner ≡ self.old.owner }
        ensures taken { result ≡ self.old.unparked }
        ensures empty { HasNoNode self.new }
    {
        self.unparked.take()
    }
}

impl<L: Payload> Fits for LoadedSlot<L> {
    type Key = ParkerKey<L::Home>;

    ghost use Rattle.lot_base.specs.Loaded.{IsSlotFor};

    ghost fits = { λ key slot. IsSlotFor (L.fits key.home) key.number slot };
}

// A slot under a lock, for parkers that have no word of their own.
#[derive(Drop)]
struct LockedSlot<L: Payload> {
    lock: WordLock<LoadedSlot<L>>,
}

impl<L: Payload> LockedSlot<L> {
    // An empty slot of this key's thread.
    fn new(alloc: Global, key: &ParkerKey<L::Home>) -> Result<LockedSlot<L>, NoMemory>
        ensures { IfOk result (λ slot. key_of slot.lock ≡ key.now) }
    {
        Ok(LockedSlot {
            lock: WordLock::new(alloc, LoadedSlot::new(key.number), key)?,
        })
    }

    // Whether the slot held no node while it was locked.
    fn is_empty<R: Wait>(&self, rt: &R) -> bool {
        let held = self.lock.lock(rt);
        let is_empty = held.value.is_empty();
        self.lock.unlock(held);
        is_empty
    }

    // Puts a node of the owner into the slot, and its payload beside it, unless one is there.
    fn put<R: Wait>(&self, rt: &R, node: Box<Node>, payload: L)
        requires node { (fields node.value).number ≡ (key_of self.now.lock).number }
        requires payload { L.fits (key_of self.now.lock).home (fields node.value) payload }
    {
        let mut held = self.lock.lock(rt);
        held.value.put(node, payload);
        self.lock.unlock(held);
    }

    // Takes what the slot holds.
    fn take<R: Wait>(&self, rt: &R) -> Option<(Box<Node>, L)>
        ensures { IfSome result (IsUnparked
            (L.fits (key_of self.now.lock).home) (key_of self.now.lock).number) }
    {
        let mut held = self.lock.lock(rt);
        let unparked = held.value.take();
        self.lock.unlock(held);
        unparked
    }
}
