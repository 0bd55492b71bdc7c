//! What each call does to a bucket and its part, while it has them: the step, and what it tells the
//! history.

ghost use denote.Ref.{Bor};
ghost use Rattle.std.specs.Prelude.{◌≡◌, ◌∷◌, ◌<◌, ◌≤◌, ◌^◌, ℕ, [], length, Bool, All, IfErr, IfNone, IfSome, OnErr, OnOk, None, true, find};
ghost use Rattle.lot_base.specs.BucketState.{KeepsPlace};
ghost use Rattle.lot_base.specs.Filter.{IsFilterCallable, IsFiltered, park_tokens};
ghost use Rattle.lot_base.specs.Node.{fields};
ghost use Rattle.lot_base.specs.NodeLists.{has_number, lists_of, with_saturated_counts};
ghost use Rattle.lot_base.specs.Place.{place_of};
ghost use Rattle.lot_base.specs.Waiting.{result_of, split_filter, split_first};
ghost use Rattle.lot_machine.specs.declared.step.Answer.{Answer};
ghost use Rattle.lot_machine.specs.declared.step.Step.{Step};
ghost use Rattle.lot_base.specs.declared.token.UnparkResult.{UnparkResult};
ghost use Rattle.lot_history.specs.Witness.{events_of, id_of, limit_of, max_threads_of, pieces_of, seen_by, Adds, Found, IsStill, IsWitnessOf};
ghost use Rattle.lot_history.specs.declared.view.Piece.TheVariants.{Thread, Timing};
ghost use Rattle.lot_threads.specs.Cells.{Has, HasTiming, IsBelow, IsCell, IsCellFor, TakesFrom, lists_in};
ghost use Rattle.lot_threads.specs.Idle.{IsIdle, StaysIdle};
ghost use Rattle.lot_threads.specs.Members.{IsListed, entry_of};
ghost use Rattle.lot_threads.specs.Within.{Enters, FindsPieces, IsUnparkWithin, MayFilterWithin, MayTellTimeout, MayValidate, Refuses, TellsTimeout, UnparksWithin};

use crate::cell::Cell;
use crate::critical_section::CriticalSection;
use crate::section::Licence;
use crate::told::{Entry, add_entered, add_invalid, add_taken, add_taking, add_timeout};
use lot_base::queue::{Node, Queue};
use lot_base::token::{FilterOp, NoMemory, ParkToken, UnparkResult, UnparkToken};
use lot_history::history::{History, Part, Witness};
use lot_history::plays::Told;
use lot_machine::status::Status;
use lot_machine::step::{Answer, Op, Step};
use std::alloc::Global;
use std::marker::Brand;
use std::mem;

// Takes the first waiter of the key out of its bucket, in a critical section that has the bucket's
// part, and tells so. The witness has the pieces of those that were taken, one at most.
#[inline]
pub(crate) fn take_one_of<E: Told, C: FnOnce(&CriticalSection, UnparkResult) -> UnparkToken>(
    history: &History,
    me: &mut Witness,
    licence: Licence,
    cell: &mut Cell,
    key: usize,
    callback: C,
) -> (UnparkResult, Queue)
    requires idle { IsIdle history.now me.old }
    requires cell { IsCellFor history.now key cell.old }
    requires above { limit_of history.now ≤ key }
    requires callable { (section : Bor CriticalSection)
        → Has (id_of history.now) (lists_in (limit_of history.now) cell.old.bucket ∷ [])
        section.now.part
        → C.pre callback section (result_of (split_first (lists_of cell.old.bucket.nodes key))) }
    requires said { (section : Bor CriticalSection) (answer : UnparkResult) (token : UnparkToken)
        → Has (id_of history.now) (lists_in (limit_of history.now) cell.old.bucket ∷ [])
        section.now.part
        → C.post callback section answer token
        → E.said (Step.Unpark (Op.One key token)) (Answer.Unpark answer) }

    ensures still { IsStill history.now me.old me.new }
    ensures adds { Adds history.now me.old
        (λ s a. E.said s a × (a ≡ Answer.Unpark result.0)) me.new }
    ensures found { FindsPieces history.now (lists_in (limit_of history.now) cell.old.bucket ∷ [])
        me.old me.new }
    ensures taken { TakesFrom history.now cell.old cell.new result.1 me.new }
    ensures one { length result.1 ≤ 1 }
{
    let part = mem::replace(&mut cell.part, Part::none());
    let section = CriticalSection { part };
    let (result, taken) = cell.bucket.take_one(
        key,
        |found|
            requires { (lent : Bor CriticalSection) → lent.now ≡ section
                → C.pre callback lent found }
            ensures { (lent : Bor CriticalSection) × (lent.now ≡ section)
                × C.post callback lent found result }
        { callback(&section, found) },
    );
    let CriticalSection { part } = section;
    history.take(me, part);
    add_taken::<E>(history, me, licence, cell, &taken, Answer::Unpark(result));
    (result, taken)
}

// Takes all waiters of the key out of their bucket, and tells so. The witness has the pieces of
// those that were taken.
pub(crate) fn take_all_of<E: Told>(
    history: &History,
    me: &mut Witness,
    licence: Licence,
    cell: &mut Cell,
    key: usize,
    token: UnparkToken,
) -> (usize, Queue)
    requires idle { IsIdle history.now me.old }
    requires cell { IsCellFor history.now key cell.old }
    requires above { limit_of history.now ≤ key }
    requires said { (count : ℕ)
        → E.said (Step.Unpark (Op.All key token)) (Answer.Count count) }

    ensures still { IsStill history.now me.old me.new }
    ensures adds { Adds history.now me.old
        (λ s a. E.said s a × (a ≡ Answer.Count result.0)) me.new }
    ensures taken { TakesFrom history.now cell.old cell.new result.1 me.new }
{
    let (count, taken) = cell.bucket.take_all(key, token);
    add_taking::<E>(history, me, licence, cell, &taken, Answer::Count(count));
    (count, taken)
}

// Takes those waiters of the key that the filter unparks out of their bucket, and tells so. The
// witness has the pieces of those that were taken.
pub(crate) fn take_filter_of<
    F: FnMut(ParkToken) -> FilterOp,
    C: FnOnce(&CriticalSection, UnparkResult) -> UnparkToken,
>(
    history: &History,
    me: &mut Witness,
    licence: Licence,
    cell: &mut Cell,
    key: usize,
    filter: F,
    callback: C,
) -> (UnparkResult, Queue)
    requires idle { IsIdle history.now me.old }
    requires few { max_threads_of history.now < 2 ^ 63 }
    requires cell { IsCellFor history.now key cell.old }
    requires above { limit_of history.now ≤ key }
    requires callable { MayFilterWithin F.FnMut C.FnOnce filter callback key history.now me.old }

    ensures still { IsStill history.now me.old me.new }
    ensures unparked { UnparksWithin F.FnMut C.FnOnce filter callback key history.now me.old
        result.0 me.new }
    ensures taken { TakesFrom history.now cell.old cell.new result.1 me.new }
{
    let part = mem::replace(&mut cell.part, Part::none());
    history.take(me, part);
    history.look(me);
    take_filter_with::<Brand, F, C>(history, me, licence, cell, key, filter, callback)
}

// Takes those waiters of the key that the filter unparks out of their bucket, whose piece the
// witness has, and tells so.
fn take_filter_with<
    E: Told,
    F: FnMut(ParkToken) -> FilterOp,
    C: FnOnce(&CriticalSection, UnparkResult) -> UnparkToken,
>(
    history: &History,
    me: &mut Witness,
    licence: Licence,
    cell: &mut Cell,
    key: usize,
    filter: F,
    callback: C,
) -> (UnparkResult, Queue)
    requires witness { IsWitnessOf history.now me.old }
    requires piece { pieces_of me.old ≡ lists_in (limit_of history.now) cell.old.bucket ∷ [] }
    requires few { max_threads_of history.now < 2 ^ 63 }
    requires below { All (IsBelow (max_threads_of history.now)) cell.old.bucket.nodes }
    requires place { place_of key cell.old.bucket.size ≡ cell.old.bucket.place }
    requires above { limit_of history.now ≤ key }
    requires filter { IsFilterCallable F.FnMut filter
        (park_tokens (lists_of cell.old.bucket.nodes key)) }
    requires callback { (decisions : _)
        → IsFiltered F.FnMut filter (park_tokens (lists_of cell.old.bucket.nodes key)) decisions
        → (section : Bor CriticalSection)
        → Has (id_of history.now) (lists_in (limit_of history.now) cell.old.bucket ∷ [])
        section.now.part
        → C.pre callback section (with_saturated_counts
        (result_of (split_filter decisions (lists_of cell.old.bucket.nodes key)))) }
    requires said { (answer : UnparkResult) (s : Step) (a : Answer)
        → IsUnparkWithin F.FnMut C.FnOnce filter callback history.now cell.old.bucket key answer
        s a → E.said s a }

    ensures still { IsStill history.now me.old me.new }
    ensures adds { Adds history.now me.old
        (λ s a. E.said s a × (a ≡ Answer.Unpark result.0)) me.new }
    ensures found { Found history.now me.old me.new }
    ensures taken { TakesFrom history.now cell.old cell.new result.1 me.new }
{
    let section = CriticalSection {
        part: history.give(me),
    };
    let (result, taken) = cell.bucket.take_filter(
        key,
        filter,
        |found|
            requires { (lent : Bor CriticalSection) → lent.now ≡ section
                → C.pre callback lent found }
            ensures { (lent : Bor CriticalSection) × (lent.now ≡ section)
                × C.post callback lent found result }
        { callback(&section, found) },
    );
    let CriticalSection { part } = section;
    history.take(me, part);
    add_taken::<E>(history, me, licence, cell, &taken, Answer::Unpark(result));
    (result, taken)
}

// Puts a thread last in the list of its key, if `validate` answers true, and tells so; or gives
// back its piece and its node. Once it is in the list, `timing` says how it waits.
pub(crate) fn enter_in<V: FnOnce(&CriticalSection) -> bool>(
    history: &History,
    me: &mut Witness,
    licence: Licence,
    cell: &mut Cell,
    thread: Part,
    timing: &mut Part,
    node: Box<Node>,
    validate: V,
) -> Result<(), (Part, Box<Node>)>
    requires idle { IsIdle history.now me.old }
    requires cell { IsCellFor history.now (fields node.value).key cell.old }
    requires above { limit_of history.now ≤ (fields node.value).key }
    requires below { IsBelow (max_threads_of history.now) (fields node.value) }
    requires thread { Has (id_of history.now)
        (Thread (fields node.value).number Status.Running ∷ []) thread }
    requires timing { HasTiming (id_of history.now) (fields node.value).number timing.old }
    requires callable { MayValidate V.FnOnce validate history.now (fields node.value).key }

    ensures idle { StaysIdle history.now me.old me.new }
    ensures cell { IsCell (id_of history.now) (max_threads_of history.now)
        (limit_of history.now) cell.new }
    ensures place { KeepsPlace cell.old.bucket cell.new.bucket }
    ensures entered { OnOk result (Enters V.FnOnce validate history.now
        (entry_of (fields node.value)) me.old me.new) }
    ensures refused { IfErr result (λ back. Refuses V.FnOnce validate history.now
        (entry_of (fields node.value)) me.old me.new) }
    ensures returned { IfErr result (λ back. (back.1.value ≡ node.value)
        × Has (id_of history.now)
        (Thread (fields node.value).number Status.Running ∷ []) back.0) }
    ensures timing { OnOk result (Has (id_of history.now)
        (Timing (fields node.value).number (fields node.value).timed ∷ []) timing.new) }
    ensures same_timing { OnErr result (timing.new ≡ timing.old) }
{
    let entry = entry_for(&node);
    let part = mem::replace(&mut cell.part, Part::none());
    let section = CriticalSection { part };
    let entered = cell.bucket.enter(
        node,
        ||
            requires { (lent : Bor CriticalSection) → lent.now ≡ section → V.pre validate lent }
            ensures { (lent : Bor CriticalSection) × (lent.now ≡ section)
                × V.post validate lent result }
        { validate(&section) },
    );
    let CriticalSection { part } = section;
    cell.part = part;
    match entered {
        Ok(()) => {
            add_entered(history, me, licence, cell, thread, timing, entry);
            Ok(())
        }
        Err(node) => Err((add_invalid(history, me, licence, thread, entry), node)),
    }
}

// Takes the node of a thread whose deadline has passed out of the bucket of its key, calls
// `timed_out` and tells so; or answers `None` if the node is not there, since an unpark took it.
// Nobody else lets the thread enter a list while `timing` is here, so the node says what it says:
// that the thread waits with a timeout.
pub(crate) fn leave_in<T: FnOnce(&CriticalSection, usize, bool)>(
    history: &History,
    me: &mut Witness,
    licence: Licence,
    cell: &mut Cell,
    timing: &mut Part,
    number: usize,
    key: usize,
    timed_out: T,
) -> Option<(Part, Box<Node>)>
    requires idle { IsIdle history.now me.old }
    requires cell { IsCellFor history.now key cell.old }
    requires above { limit_of history.now ≤ key }
    requires timing { Has (id_of history.now) (Timing number true ∷ []) timing.old }
    requires callable { MayTellTimeout T.FnOnce timed_out history.now }

    ensures idle { StaysIdle history.now me.old me.new }
    ensures cell { IsCell (id_of history.now) (max_threads_of history.now)
        (limit_of history.now) cell.new }
    ensures place { KeepsPlace cell.old.bucket cell.new.bucket }
    ensures left { IfSome result (λ back. (last : Bool)
        × TellsTimeout T.FnOnce timed_out history.now number key last me.old me.new) }
    ensures returned { IfSome result (λ back. ((fields back.1.value).number ≡ number)
        × Has (id_of history.now) (Thread number Status.Running ∷ []) back.0) }
    ensures timing { Has (id_of history.now) (Timing number true ∷ []) timing.new }
    ensures gone { IfNone result
        (find (has_number number) (lists_of cell.old.bucket.nodes key) ≡ None) }
    ensures unchanged { IfNone result ((seen_by me.new ≡ seen_by me.old)
        × (events_of me.new ≡ events_of me.old)) }
{
    let Some((node, last)) = cell.bucket.remove(
        number,
        key,
        |_key, last| -> bool
            ensures { result ≡ last }
        { last },
    )
    else {
        licence.spend();
        return None;
    };
    let part = mem::replace(&mut cell.part, Part::none());
    let section = CriticalSection { part };
    timed_out(&section, key, last);
    let CriticalSection { part } = section;
    cell.part = part;
    let thread = add_timeout(history, me, licence, cell, timing, number, key, last);
    Some((thread, node))
}

// Sees the history with the bucket's part, and lists the threads of the key.
pub(crate) fn list_in(
    history: &History,
    me: &mut Witness,
    cell: &mut Cell,
    alloc: Global,
    key: usize,
) -> Result<Vec<usize>, NoMemory>
    requires idle { IsIdle history.now me.old }
    requires cell { IsCellFor history.now key cell.old }

    ensures idle { StaysIdle history.now me.old me.new }
    ensures cell { IsCell (id_of history.now) (max_threads_of history.now)
        (limit_of history.now) cell.new }
    ensures place { KeepsPlace cell.old.bucket cell.new.bucket }
    ensures listed { IsListed history.now key me.old me.new result }
{
    let part = mem::replace(&mut cell.part, Part::none());
    history.take(me, part);
    history.look(me);
    cell.part = history.give(me);
    cell.bucket.list(alloc, key)
}

// What the thread of a node enters with.
pub(crate) fn entry_for(node: &Node) -> Entry
    ensures { result ≡ entry_of (fields node.now) }
{
    Entry {
        number: node.number,
        key: node.key,
        park_token: node.park_token,
        timed: node.timed,
    }
}
