//! What calls do to a bucket and its part where the key has a title: each step takes the title and
//! gives it back, and then it tells who stands in the key's list.

ghost use Rattle.std.specs.Prelude.{◌≡◌, ◌∷◌, ◌++◌, ◌≤◌, [], length, not, true, Contains, List, IfErr, IfOk};
ghost use Rattle.lot_base.specs.BucketState.{KeepsPlace};
ghost use Rattle.lot_base.specs.Node.{fields};
ghost use Rattle.lot_base.specs.NodeLists.{saturated};
ghost use Rattle.lot_base.specs.Waiting.{has_any, result_of, split_first};
ghost use Rattle.lot_history.specs.Moves.{Moves};
ghost use Rattle.lot_history.specs.Witness.{Adds, Extends, Found, IsStill, IsWitnessOf, deals_in, deals_of, events_of, id_of, limit_of, max_threads_of, pieces_of, seen_by};
ghost use Rattle.lot_history.specs.declared.view.Piece.{Piece};
ghost use Rattle.lot_history.specs.declared.view.Piece.TheVariants.{Thread, Timing};
ghost use Rattle.lot_threads.specs.Cells.{Has, HasTiming, IsBelow, IsCell, IsCellFor, TakesFrom, lists_in, threads_in};
ghost use Rattle.lot_threads.specs.Idle.{IsIdle, StaysIdle};
ghost use Rattle.lot_machine.specs.declared.step.Answer.{Answer};
ghost use Rattle.lot_machine.specs.declared.step.Step.{Step};
ghost use Rattle.lot_threads.specs.Members.{Is, Leaves, entry_of, entry_step};
ghost use Rattle.lot_threads.specs.Titled.{IsTitle, Retells, title_in, told_by, without_next, without_one};

use crate::cell::Cell;
use crate::cell_steps::entry_for;
use crate::halves::put_last;
use crate::section::Licence;
use crate::title::Title;
use crate::told::{Entry, add_late, add_with};
use lot_base::bucket::Bucket;
use lot_base::queue::{Node, Queue};
use lot_base::token::{UnparkResult, UnparkToken};
use lot_history::history::{History, Part, Witness};
use lot_history::plays::Told;
use lot_machine::status::Status;
use lot_machine::step::{Answer, Op, Step};
use std::marker::Brand;
use std::mem;

// Adds a step of a key, where the bucket is as the step left it, and the witness has its piece, the
// key's title and the step's other pieces. The part has the bucket's piece then, and the witness
// the pieces `rest`, which the caller picks by the values.
pub(crate) fn add_titled<E: Told, V>(
    history: &History,
    me: &mut Witness,
    licence: Licence,
    cell: &mut Cell,
    key: usize,
    _values: &V,
) -> Title
    ghost rest: { List Piece }
    requires witness { IsWitnessOf history.now me.old }
    requires moves { Moves (max_threads_of history.now) E.said (pieces_of me.old)
        (lists_in (limit_of history.now) cell.old.bucket ∷ title_in key cell.old.bucket ∷ rest) }
    ensures still { IsStill history.now me.old me.new }
    ensures adds { Adds history.now me.old E.said me.new }
    ensures found { Found history.now me.old me.new }
    ensures pieces { pieces_of me.new ≡ rest }
    ensures bucket { cell.new.bucket ≡ cell.old.bucket }
    ensures part { Has (id_of history.now) (lists_in (limit_of history.now) cell.old.bucket ∷ [])
        cell.new.part }
    ensures title { Has (id_of history.now) (title_in key cell.old.bucket ∷ []) result.part }
    ensures deals { deals_in result.part ≡ deals_of me.old }
{
    licence.spend();
    add_with::<E, (&Bucket, usize)>(history, me, &(&cell.bucket, key));
    cell.part = history.give(me);
    Title {
        part: history.give(me),
    }
}

// Adds an unpark of one of the key with its title, where the bucket is as the unpark left it. The
// witness has the pieces of those that were taken then.
fn add_taken_titled(
    history: &History,
    me: &mut Witness,
    licence: Licence,
    cell: &mut Cell,
    key: usize,
    token: UnparkToken,
    taken: &Queue,
    answer: UnparkResult,
) -> Title
    requires witness { IsWitnessOf history.now me.old }
    requires moves { Moves (max_threads_of history.now)
        (Is (Step.Unpark (Op.One key token)) (Answer.Unpark answer)) (pieces_of me.old)
        (lists_in (limit_of history.now) cell.old.bucket ∷ title_in key cell.old.bucket
        ∷ threads_in taken.now) }
    ensures still { IsStill history.now me.old me.new }
    ensures extends { Extends history.now me.old (Step.Unpark (Op.One key token))
        (Answer.Unpark answer) me.new }
    ensures found { Found history.now me.old me.new }
    ensures pieces { pieces_of me.new ≡ threads_in taken.now }
    ensures bucket { cell.new.bucket ≡ cell.old.bucket }
    ensures part { Has (id_of history.now) (lists_in (limit_of history.now) cell.old.bucket ∷ [])
        cell.new.part }
    ensures title { Has (id_of history.now) (title_in key cell.old.bucket ∷ []) result.part }
    ensures deals { deals_in result.part ≡ deals_of me.old }
{
    let values = (taken, key, token, answer);
    add_titled::<Brand, (&Queue, usize, UnparkToken, UnparkResult)>(
        history, me, licence, cell, key, &values,
    )
}

// Adds an unpark of all of the key with its title, where the bucket is as the unpark left it. The
// witness has the pieces of those that were taken then.
fn add_all_titled(
    history: &History,
    me: &mut Witness,
    licence: Licence,
    cell: &mut Cell,
    key: usize,
    token: UnparkToken,
    taken: &Queue,
    count: usize,
) -> Title
    requires witness { IsWitnessOf history.now me.old }
    requires moves { Moves (max_threads_of history.now)
        (Is (Step.Unpark (Op.All key token)) (Answer.Count count)) (pieces_of me.old)
        (lists_in (limit_of history.now) cell.old.bucket ∷ title_in key cell.old.bucket
        ∷ threads_in taken.now) }
    ensures still { IsStill history.now me.old me.new }
    ensures extends { Extends history.now me.old (Step.Unpark (Op.All key token))
        (Answer.Count count) me.new }
    ensures found { Found history.now me.old me.new }
    ensures pieces { pieces_of me.new ≡ threads_in taken.now }
    ensures bucket { cell.new.bucket ≡ cell.old.bucket }
    ensures part { Has (id_of history.now) (lists_in (limit_of history.now) cell.old.bucket ∷ [])
        cell.new.part }
    ensures title { Has (id_of history.now) (title_in key cell.old.bucket ∷ []) result.part }
    ensures deals { deals_in result.part ≡ deals_of me.old }
{
    let values = (taken, key, token, count);
    add_titled::<Brand, (&Queue, usize, UnparkToken, usize)>(
        history, me, licence, cell, key, &values,
    )
}

// Adds that a thread entered the list of its key with the key's title, where the bucket is as it is
// with the thread. The witness has the piece then that says how the thread waits.
fn add_entered_titled(
    history: &History,
    me: &mut Witness,
    licence: Licence,
    cell: &mut Cell,
    entry: Entry,
) -> Title
    requires witness { IsWitnessOf history.now me.old }
    requires moves { Moves (max_threads_of history.now)
        (Is (entry_step entry true) Answer.Entered) (pieces_of me.old)
        (lists_in (limit_of history.now) cell.old.bucket ∷ title_in entry.key cell.old.bucket
        ∷ Timing entry.number entry.timed ∷ []) }
    ensures still { IsStill history.now me.old me.new }
    ensures extends { Extends history.now me.old (entry_step entry true) Answer.Entered me.new }
    ensures found { Found history.now me.old me.new }
    ensures pieces { pieces_of me.new ≡ Timing entry.number entry.timed ∷ [] }
    ensures bucket { cell.new.bucket ≡ cell.old.bucket }
    ensures part { Has (id_of history.now) (lists_in (limit_of history.now) cell.old.bucket ∷ [])
        cell.new.part }
    ensures title { Has (id_of history.now) (title_in entry.key cell.old.bucket ∷ [])
        result.part }
    ensures deals { deals_in result.part ≡ deals_of me.old }
{
    add_titled::<Brand, Entry>(history, me, licence, cell, entry.key, &entry)
}

// Adds that a thread whose deadline has passed left the list of the key with the key's title, where
// the bucket is as it is without the thread. The witness has the thread's piece then.
fn add_left_titled(
    history: &History,
    me: &mut Witness,
    licence: Licence,
    cell: &mut Cell,
    number: usize,
    key: usize,
    last: bool,
) -> Title
    requires witness { IsWitnessOf history.now me.old }
    requires moves { Moves (max_threads_of history.now)
        (Is (Step.Resolve number) (Answer.TimedOut key last)) (pieces_of me.old)
        (lists_in (limit_of history.now) cell.old.bucket ∷ title_in key cell.old.bucket
        ∷ Thread number Status.Running ∷ []) }
    ensures still { IsStill history.now me.old me.new }
    ensures extends { Extends history.now me.old (Step.Resolve number)
        (Answer.TimedOut key last) me.new }
    ensures found { Found history.now me.old me.new }
    ensures pieces { pieces_of me.new ≡ Thread number Status.Running ∷ [] }
    ensures bucket { cell.new.bucket ≡ cell.old.bucket }
    ensures part { Has (id_of history.now) (lists_in (limit_of history.now) cell.old.bucket ∷ [])
        cell.new.part }
    ensures title { Has (id_of history.now) (title_in key cell.old.bucket ∷ []) result.part }
    ensures deals { deals_in result.part ≡ deals_of me.old }
{
    let values = (number, key, last);
    add_titled::<Brand, (usize, usize, bool)>(history, me, licence, cell, key, &values)
}

// Takes the first waiter of the key out of its bucket, and tells so. The witness has the pieces of
// those that were taken, one at most.
pub(crate) fn take_one_titled_of(
    history: &History,
    me: &mut Witness,
    licence: Licence,
    cell: &mut Cell,
    key: usize,
    title: Title,
    token: UnparkToken,
) -> (UnparkResult, Queue, Title)
    requires idle { IsIdle history.now me.old }
    requires cell { IsCellFor history.now key cell.old }
    requires title { IsTitle history.now key title }

    ensures still { IsStill history.now me.old me.new }
    ensures extends { Extends history.now me.old (Step.Unpark (Op.One key token))
        (Answer.Unpark result.0) me.new }
    ensures taken { TakesFrom history.now cell.old cell.new result.1 me.new }
    ensures one { length result.1 ≤ 1 }
    ensures told { result.0 ≡ result_of (split_first (told_by title)) }
    ensures title { Retells history.now key title (without_next (told_by title)) result.2 }
{
    let (result, taken) = cell.bucket.take_one(
        key,
        |_found| -> UnparkToken
            ensures { result ≡ token }
        { token },
    );
    let part = mem::replace(&mut cell.part, Part::none());
    history.take(me, part);
    let Title { part } = title;
    history.take(me, part);
    let title = add_taken_titled(history, me, licence, cell, key, token, &taken, result);
    (result, taken, title)
}

// Takes all waiters of the key out of their bucket, and tells so. The witness has the pieces of
// those that were taken.
pub(crate) fn take_all_titled_of(
    history: &History,
    me: &mut Witness,
    licence: Licence,
    cell: &mut Cell,
    key: usize,
    title: Title,
    token: UnparkToken,
) -> (usize, Queue, Title)
    requires idle { IsIdle history.now me.old }
    requires cell { IsCellFor history.now key cell.old }
    requires title { IsTitle history.now key title }

    ensures still { IsStill history.now me.old me.new }
    ensures extends { Extends history.now me.old (Step.Unpark (Op.All key token))
        (Answer.Count result.0) me.new }
    ensures taken { TakesFrom history.now cell.old cell.new result.1 me.new }
    ensures told { result.0 ≡ saturated (length (told_by title)) }
    ensures title { Retells history.now key title [] result.2 }
{
    let (count, taken) = cell.bucket.take_all(key, token);
    let part = mem::replace(&mut cell.part, Part::none());
    history.take(me, part);
    let Title { part } = title;
    history.take(me, part);
    let title = add_all_titled(history, me, licence, cell, key, token, &taken, count);
    (count, taken, title)
}

// Puts a thread last in the list of its key, and tells so. `timing` says then how it waits.
pub(crate) fn enter_titled_in(
    history: &History,
    me: &mut Witness,
    licence: Licence,
    cell: &mut Cell,
    thread: Part,
    timing: &mut Part,
    node: Box<Node>,
    title: Title,
) -> Title
    requires idle { IsIdle history.now me.old }
    requires cell { IsCellFor history.now (fields node.value).key cell.old }
    requires below { IsBelow (max_threads_of history.now) (fields node.value) }
    requires thread { Has (id_of history.now)
        (Thread (fields node.value).number Status.Running ∷ []) thread }
    requires timing { HasTiming (id_of history.now) (fields node.value).number timing.old }
    requires title { IsTitle history.now (fields node.value).key title }

    ensures idle { StaysIdle history.now me.old me.new }
    ensures cell { IsCell (id_of history.now) (max_threads_of history.now)
        (limit_of history.now) cell.new }
    ensures place { KeepsPlace cell.old.bucket cell.new.bucket }
    ensures extends { Extends history.now me.old
        (entry_step (entry_of (fields node.value)) true) Answer.Entered me.new }
    ensures title { Retells history.now (fields node.value).key title
        (told_by title ++ (fields node.value).number ∷ []) result }
    ensures timing { Has (id_of history.now)
        (Timing (fields node.value).number (fields node.value).timed ∷ []) timing.new }
{
    let entry = entry_for(&node);
    put_last(&mut cell.bucket, node);
    let part = mem::replace(&mut cell.part, Part::none());
    history.take(me, part);
    let Title { part } = title;
    history.take(me, part);
    history.take(me, thread);
    let part = mem::replace(timing, Part::none());
    history.take(me, part);
    let title = add_entered_titled(history, me, licence, cell, entry);
    *timing = history.give(me);
    title
}

// Takes the node of a thread whose deadline has passed out of the bucket of its key, and tells so;
// or gives the title back if the node is not there, since an unpark took it. It answers whether the
// thread was the last in the list.
pub(crate) fn leave_titled_in(
    history: &History,
    me: &mut Witness,
    licence: Licence,
    cell: &mut Cell,
    number: usize,
    key: usize,
    title: Title,
) -> Result<(Part, Box<Node>, bool, Title), Title>
    requires idle { IsIdle history.now me.old }
    requires cell { IsCellFor history.now key cell.old }
    requires title { IsTitle history.now key title }

    ensures idle { StaysIdle history.now me.old me.new }
    ensures cell { IsCell (id_of history.now) (max_threads_of history.now)
        (limit_of history.now) cell.new }
    ensures place { KeepsPlace cell.old.bucket cell.new.bucket }
    ensures left { IfOk result (λ back.
        Leaves history.now number key back.2 me.old me.new) }
    ensures title { IfOk result (λ back.
        Retells history.now key title (without_one number (told_by title)) back.3) }
    ensures last { IfOk result (λ back.
        back.2 ≡ not (has_any (without_one number (told_by title)))) }
    ensures returned { IfOk result (λ back. ((fields back.1.value).number ≡ number)
        × Has (id_of history.now) (Thread number Status.Running ∷ []) back.0) }
    ensures unchanged { IfErr result (λ back. (back ≡ title)
        × (seen_by me.new ≡ seen_by me.old) × (events_of me.new ≡ events_of me.old)) }
{
    let Some((node, last)) = cell.bucket.remove_timed(number, key) else {
        licence.spend();
        return Err(title);
    };
    let part = mem::replace(&mut cell.part, Part::none());
    history.take(me, part);
    add_late(history, me, number);
    let Title { part } = title;
    history.take(me, part);
    let title = add_left_titled(history, me, licence, cell, number, key, last);
    Ok((history.give(me), node, last, title))
}

// Gives the piece of a running thread and the title of a key back, once it is known that the thread
// is not in the list of the key.
pub(crate) fn confirm_out(
    history: &History,
    me: &mut Witness,
    number: usize,
    key: usize,
    thread: Part,
    title: Title,
) -> (Part, Title)
    requires idle { IsIdle history.now me.old }
    requires thread { Has (id_of history.now) (Thread number Status.Running ∷ []) thread }
    requires title { IsTitle history.now key title }
    ensures idle { StaysIdle history.now me.old me.new }
    ensures nothing_added { events_of me.new ≡ events_of me.old }
    ensures thread { Has (id_of history.now) (Thread number Status.Running ∷ []) result.0 }
    ensures title { Retells history.now key title (told_by title) result.1 }
    ensures out { ¬ Contains (told_by title) number }
{
    history.take(me, thread);
    let Title { part } = title;
    history.take(me, part);
    history.look(me);
    let thread = history.give(me);
    let title = Title {
        part: history.give(me),
    };
    (thread, title)
}
