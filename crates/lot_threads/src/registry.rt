//! The numbers of a lot's threads, behind a lock.

ghost use Rattle.std.specs.Prelude.{◌≡◌, ◌∷◌, ◌+◌, ◌*◌, ◌<◌, ◌≤◌, [], length, replicate, IfNone, IfOk, IfSome, None, Some};
ghost use Rattle.lot_base.specs.Node.{fields};
ghost use Rattle.lot_machine.specs.Numbers.{IsLeastUnregistered, count_registered};
ghost use Rattle.lot_history.specs.Witness.{Extends, IsPartOf, IsStill, IsWitnessOf, id_of, max_threads_of, pieces_of};
ghost use Rattle.lot_history.specs.declared.view.Piece.TheVariants.{Thread};
ghost use Rattle.lot_threads.specs.Cells.{Has, HasRecords, HasTiming, IsBelow, IsRegistry, IsRegistryLock, numbers_in, size_in};
ghost use Rattle.lot_threads.specs.Idle.{IsIdle, StaysIdle};
ghost use Rattle.lot_threads.specs.Members.{IsRegistered, pieces_for};
ghost use Rattle.lot_threads.specs.Rows.{free_numbers};

use crate::numbered_nodes::NumberedNodes;
use crate::told::{add_full, add_registered, add_retired};
use lot_base::queue::Node;
use lot_base::token::NoMemory;
use lot_base::word_lock::{Fits, WordLock};
use lot_history::history::{History, Part, Witness};
use lot_machine::numbers::{MAX_THREADS, Use};
use lot_machine::status::Status;
use lot_machine::step::{Answer, Step};
use std::alloc::Global;
use std::mem;

// Which numbers are registered, and the nodes of those that are not; beside that the piece of the
// machine which tells it; a witness, of which each registered thread is told its own; and the index
// of the row in use, which has three buckets for each registered thread.
#[derive(Drop)]
pub(crate) struct Registry {
    numbers: NumberedNodes,
    part: Part,
    pub(crate) witness: Witness,
    pub(crate) row: usize,
}

// For how many threads a registry is, and of which lot: `home` is a part of the lot's history,
// without a piece.
#[derive(Drop)]
pub(crate) struct RegistryKey {
    pub(crate) max_threads: usize,
    pub(crate) home: Part,
}

impl Fits for Registry {
    type Key = RegistryKey;

    ghost use Rattle.lot_threads.specs.Cells.{FitsRegistry};

    ghost fits = { λ key registry. FitsRegistry key registry };
}

// The registry of a new lot, with these numbers and the witness that has their piece, behind a
// lock.
pub(crate) fn new_registry(
    alloc: Global,
    history: &History,
    me: Witness,
    max_threads: usize,
    numbers: NumberedNodes,
    home: Part,
) -> Result<WordLock<Registry>, NoMemory>
    requires witness { IsWitnessOf history.now me }
    requires max_threads { max_threads ≡ max_threads_of history.now }
    requires few { max_threads ≤ MAX_THREADS }
    requires numbers { numbers ≡ replicate max_threads Use.Free }
    requires home { IsPartOf (id_of history.now) home }
    requires piece { pieces_of me ≡ free_numbers max_threads ∷ [] }
    ensures { IfOk result (IsRegistryLock (id_of history.now) max_threads) }
{
    let mut me = me;
    let part = history.give(&mut me);
    let registry = Registry {
        numbers,
        part,
        witness: history.tell(&mut me),
        row: 0,
    };
    let key = RegistryKey { max_threads, home };
    WordLock::new(alloc, registry, &key)
}

impl Registry {
    // How many numbers are registered.
    pub(crate) fn threads(&self) -> usize
        ensures count { result ≡ count_registered self.now.numbers }
        ensures few { result ≤ length self.now.numbers }
    {
        self.numbers.registered()
    }

    // The least number that is not registered, if there is one.
    pub(crate) fn least_free(&self) -> Option<usize>
        ensures some { IfSome result (IsLeastUnregistered self.now.numbers) }
        ensures none { IfNone result
            (count_registered self.now.numbers ≡ length self.now.numbers) }
    {
        self.numbers.least_free()
    }

    // Registers this number, the least that is free, and answers a new witness that told so, which
    // has the pieces of the thread, and the thread's node. The row in use is large enough for one
    // more.
    pub(crate) fn register(&mut self, history: &History, number: usize) -> (Witness, Box<Node>)
        requires registry { IsRegistry (id_of history.now) (max_threads_of history.now) self.old }
        requires least { IsLeastUnregistered self.old.numbers number }
        requires room { 3 * (count_registered self.old.numbers + 1) ≤ size_in self.old }
        ensures registry { IsRegistry (id_of history.now) (max_threads_of history.now) self.new }
        ensures registered { IsRegistered history.now (Some number) result.0 }
        ensures below { number < max_threads_of history.now }
        ensures node { (fields result.1.value).number ≡ number }
    {
        let mut me = history.tell(&mut self.witness);
        let part = mem::replace(&mut self.part, Part::none());
        history.take(&mut me, part);
        let node = register_in(history, &mut me, &mut self.numbers, number);
        self.part = history.give(&mut me);
        (me, node)
    }

    // Answers a new witness that told that no number is free.
    pub(crate) fn refuse(&mut self, history: &History) -> Witness
        requires registry { IsRegistry (id_of history.now) (max_threads_of history.now) self.old }
        requires full { count_registered self.old.numbers ≡ length self.old.numbers }
        ensures registry { IsRegistry (id_of history.now) (max_threads_of history.now) self.new }
        ensures refused { IsRegistered history.now None result }
    {
        let mut me = history.tell(&mut self.witness);
        let part = mem::replace(&mut self.part, Part::none());
        history.take(&mut me, part);
        refuse_in(history, &mut me, &self.numbers);
        self.part = history.give(&mut me);
        me
    }

    // Ends the registration of a running thread, whose node this is and whose pieces these parts
    // have, and tells so.
    pub(crate) fn retire(
        &mut self,
        history: &History,
        me: &mut Witness,
        node: Box<Node>,
        thread: Part,
        records: Part,
        timing: Part,
    )
        requires registry { IsRegistry (id_of history.now) (max_threads_of history.now) self.old }
        requires idle { IsIdle history.now me.old }
        requires below { IsBelow (max_threads_of history.now) (fields node.value) }
        requires thread { Has (id_of history.now)
            (Thread (fields node.value).number Status.Running ∷ []) thread }
        requires records { HasRecords (id_of history.now) (fields node.value).number records }
        requires timing { HasTiming (id_of history.now) (fields node.value).number timing }
        ensures registry { IsRegistry (id_of history.now) (max_threads_of history.now) self.new }
        ensures idle { StaysIdle history.now me.old me.new }
        ensures extends { Extends history.now me.old
            (Step.Retire (fields node.value).number) Answer.Retired me.new }
    {
        let number = node.number;
        history.take(me, thread);
        history.take(me, records);
        history.take(me, timing);
        let part = mem::replace(&mut self.part, Part::none());
        history.take(me, part);
        // It learns that the number is registered, since the thread runs.
        history.look(me);
        self.numbers.release(node);
        add_retired(history, me, number, &self.numbers);
        self.part = history.give(me);
    }
}

// Registers this one of these numbers, the least that is free, tells so, and answers its node.
fn register_in(
    history: &History,
    me: &mut Witness,
    numbers: &mut NumberedNodes,
    number: usize,
) -> Box<Node>
    requires witness { IsWitnessOf history.now me.old }
    requires count { length numbers.old ≡ max_threads_of history.now }
    requires least { IsLeastUnregistered numbers.old number }
    requires piece { pieces_of me.old ≡ numbers_in numbers.old ∷ [] }
    ensures still { IsStill history.now me.old me.new }
    ensures extends { Extends history.now me.old Step.Register (Answer.Registered number) me.new }
    ensures pieces { pieces_of me.new ≡ numbers_in numbers.new ∷ pieces_for (Some number) }
    ensures count { length numbers.new ≡ max_threads_of history.now }
    ensures registered { count_registered numbers.new ≡ count_registered numbers.old + 1 }
    ensures below { number < max_threads_of history.now }
    ensures node { (fields result.value).number ≡ number }
{
    let node = numbers.register(number);
    add_registered(history, me, number, numbers);
    node
}

// Tells that none of these numbers is free.
fn refuse_in(history: &History, me: &mut Witness, numbers: &NumberedNodes)
    requires witness { IsWitnessOf history.now me.old }
    requires count { length numbers.now ≡ max_threads_of history.now }
    requires full { count_registered numbers.now ≡ length numbers.now }
    requires piece { pieces_of me.old ≡ numbers_in numbers.now ∷ [] }
    ensures still { IsStill history.now me.old me.new }
    ensures extends { Extends history.now me.old Step.Register Answer.Full me.new }
    ensures pieces { pieces_of me.new ≡ numbers_in numbers.now ∷ [] }
{
    add_full(history, me);
}
