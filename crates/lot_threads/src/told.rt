//! What sections tell the history: each adds a step, and leaves the pieces where they belong.

ghost use Rattle.std.specs.Prelude.{◌≡◌, ◌∷◌, ◌++◌, List, [], true, false};
ghost use Rattle.lot_base.specs.BucketState.{IsBucketAt};
ghost use Rattle.lot_history.specs.Moves.{Moves, Regroups};
ghost use Rattle.lot_history.specs.Witness.{events_of, id_of, limit_of, max_threads_of, pieces_in, pieces_of, Adds, Extends, Found, IsPartOf, IsStill, IsWitnessOf, deals_of};
ghost use Rattle.lot_history.specs.declared.view.Piece.{Piece};
ghost use Rattle.lot_history.specs.declared.view.Piece.TheVariants.{Records, Thread, Timing};
ghost use Rattle.lot_threads.specs.Cells.{Has, IsCell, lists_in, numbers_in, threads_in};
ghost use Rattle.lot_threads.specs.Idle.{IsIdle, StaysIdle};
ghost use Rattle.lot_threads.specs.Late.{late_pieces};
ghost use Rattle.lot_threads.specs.Members.{Is, entry_step};
ghost use Rattle.lot_threads.specs.Rows.{empty_lists, other_pieces};
ghost use Rattle.lot_threads.specs.Within.{FindsPieces, LeavesFrom};

use crate::cell::Cell;
use crate::numbered_nodes::NumberedNodes;
use crate::section::Licence;
use lot_base::bucket::Bucket;
use lot_base::queue::Queue;
use lot_base::token::ParkToken;
use lot_history::history::{History, Part, Witness};
use lot_history::plays::Told;
use lot_machine::records;
use lot_machine::status::Status;
use lot_machine::step::{Answer, Step};
use std::marker::Brand;
use std::mem;

// What a thread enters a list with.
#[derive(Copy, Clone)]
pub(crate) struct Entry {
    pub(crate) number: usize,
    pub(crate) key: usize,
    pub(crate) park_token: ParkToken,
    pub(crate) timed: bool,
}

// What a requeue across two buckets leaves: both, and those that were taken, with its answer.
#[derive(Drop)]
struct Requeued<'a> {
    source: &'a Bucket,
    target: &'a Bucket,
    taken: &'a Queue,
    answer: Answer,
}

// Makes a step that leaves the pieces `after`. The caller picks these, and what is said of the
// step, by the values.
#[inline]
pub(crate) fn add_with<E: Told, V>(history: &History, me: &mut Witness, _values: &V)
    ghost after: { List Piece }
    requires witness { IsWitnessOf history.now me.old }
    requires moves { Moves (max_threads_of history.now) E.said (pieces_of me.old) after }
    ensures still { IsStill history.now me.old me.new }
    ensures adds { Adds history.now me.old E.said me.new }
    ensures found { Found history.now me.old me.new }
    ensures pieces { pieces_of me.new ≡ after }
    ensures deals { deals_of me.new ≡ deals_of me.old }
{
    history.add::<E>(me);
}

// Cuts the pieces of a new machine up for a row of buckets and so many numbers.
pub(crate) fn cut_up(
    history: &History,
    me: &mut Witness,
    max_threads: usize,
    limit: usize,
    size: usize,
)
    requires witness { IsWitnessOf history.now me.old }
    requires regroups { Regroups (max_threads_of history.now) (pieces_of me.old)
        (empty_lists limit size 0 size (other_pieces max_threads limit)) }
    ensures still { IsStill history.now me.old me.new }
    ensures pieces { pieces_of me.new
        ≡ empty_lists limit size 0 size (other_pieces max_threads limit) }
{
    regroup_with(history, me, &(max_threads, limit, size));
}

// Puts the pieces together otherwise. The caller picks `after` by the values.
fn regroup_with<V>(history: &History, me: &mut Witness, _values: &V)
    ghost after: { List Piece }
    requires witness { IsWitnessOf history.now me.old }
    requires regroups { Regroups (max_threads_of history.now) (pieces_of me.old) after }
    ensures still { IsStill history.now me.old me.new }
    ensures nothing_added { events_of me.new ≡ events_of me.old }
    ensures pieces { pieces_of me.new ≡ after }
{
    history.regroup(me);
}

// Cuts the lists of a bucket in two, those of these buckets.
pub(crate) fn regroup_split(history: &History, me: &mut Witness, low: &Bucket, high: &Bucket)
    requires witness { IsWitnessOf history.now me.old }
    requires regroups { Regroups (max_threads_of history.now) (pieces_of me.old)
        (lists_in (limit_of history.now) low.now ∷ lists_in (limit_of history.now) high.now ∷ []) }
    ensures still { IsStill history.now me.old me.new }
    ensures nothing_added { events_of me.new ≡ events_of me.old }
    ensures pieces { pieces_of me.new ≡ lists_in (limit_of history.now) low.now
        ∷ lists_in (limit_of history.now) high.now ∷ [] }
{
    regroup_with::<(&Bucket, &Bucket)>(history, me, &(low, high));
}

// Puts the lists of two buckets together, to those of this bucket.
pub(crate) fn regroup_joined(history: &History, me: &mut Witness, bucket: &Bucket)
    requires witness { IsWitnessOf history.now me.old }
    requires regroups { Regroups (max_threads_of history.now) (pieces_of me.old)
        (lists_in (limit_of history.now) bucket.now ∷ []) }
    ensures still { IsStill history.now me.old me.new }
    ensures nothing_added { events_of me.new ≡ events_of me.old }
    ensures pieces { pieces_of me.new ≡ lists_in (limit_of history.now) bucket.now ∷ [] }
{
    regroup_with::<&Bucket>(history, me, &bucket);
}

// Two buckets of one place cannot be, since each has the piece of its lists, and no piece is there
// twice. So the code does not come here.
#[cold]
#[inline(never)]
pub(crate) fn refuse_two(history: &History, me: &mut Witness, one: Cell, other: Cell) -> !
    requires idle { IsIdle history.now me.old }
    requires one { IsCell (id_of history.now) (max_threads_of history.now)
        (limit_of history.now) one }
    requires other { IsCell (id_of history.now) (max_threads_of history.now)
        (limit_of history.now) other }
    requires same_place { IsBucketAt one.bucket.place one.bucket.size other.bucket }
{
    let _place = one.bucket.place();
    let _size = one.bucket.size();
    history.take(me, one.part);
    history.take(me, other.part);
    find_two(history, me, &one.bucket, &other.bucket)
}

// No machine is as the pieces of the witness say, those of two buckets.
fn find_two(history: &History, me: &mut Witness, one: &Bucket, other: &Bucket) -> !
    requires witness { IsWitnessOf history.now me.old }
    requires moves { Moves (max_threads_of history.now) (λ s a. ⊥) (pieces_of me.old)
        (lists_in (limit_of history.now) one.now ∷ lists_in (limit_of history.now) other.now ∷ []) }
{
    add_with::<Brand, (&Bucket, &Bucket)>(history, me, &(one, other));
    unreachable!()
}

// Adds that a thread was registered, which leaves these numbers so.
pub(crate) fn add_registered(
    history: &History,
    me: &mut Witness,
    number: usize,
    numbers: &NumberedNodes,
)
    requires witness { IsWitnessOf history.now me.old }
    requires moves { Moves (max_threads_of history.now)
        (Is Step.Register (Answer.Registered number)) (pieces_of me.old)
        (numbers_in numbers.now ∷ Thread number Status.Running ∷ Records number []
        ∷ Timing number false ∷ []) }
    ensures still { IsStill history.now me.old me.new }
    ensures extends { Extends history.now me.old Step.Register (Answer.Registered number) me.new }
    ensures pieces { pieces_of me.new
        ≡ numbers_in numbers.now ∷ Thread number Status.Running ∷ Records number []
        ∷ Timing number false ∷ [] }
{
    add_with::<Brand, (usize, &NumberedNodes)>(history, me, &(number, numbers));
}

// Adds that a running thread ended its registration, which leaves these numbers registered.
pub(crate) fn add_retired(
    history: &History,
    me: &mut Witness,
    number: usize,
    numbers: &NumberedNodes,
)
    requires witness { IsWitnessOf history.now me.old }
    requires moves { Moves (max_threads_of history.now)
        (Is (Step.Retire number) Answer.Retired) (pieces_of me.old)
        (numbers_in numbers.now ∷ []) }
    ensures still { IsStill history.now me.old me.new }
    ensures extends { Extends history.now me.old (Step.Retire number) Answer.Retired me.new }
    ensures pieces { pieces_of me.new ≡ numbers_in numbers.now ∷ [] }
{
    add_with::<Brand, (usize, &NumberedNodes)>(history, me, &(number, numbers));
}

// Adds a step of a running thread, which has recorded these keys then.
pub(crate) fn add_recording(
    history: &History,
    me: &mut Witness,
    thread: &mut Part,
    records: &mut Part,
    step: Step,
    answer: Answer,
    number: usize,
    keys: &records::Records,
)
    requires idle { IsIdle history.now me.old }
    requires thread { Has (id_of history.now) (Thread number Status.Running ∷ []) thread.old }
    requires records { IsPartOf (id_of history.now) records.old }
    requires moves { Moves (max_threads_of history.now) (Is step answer)
        (Thread number Status.Running ∷ pieces_in records.old)
        (Thread number Status.Running ∷ Records number keys.now ∷ []) }
    ensures idle { StaysIdle history.now me.old me.new }
    ensures extends { Extends history.now me.old step answer me.new }
    ensures thread { Has (id_of history.now) (Thread number Status.Running ∷ []) thread.new }
    ensures records { Has (id_of history.now) (Records number keys.now ∷ []) records.new }
{
    let part = mem::replace(thread, Part::none());
    history.take(me, part);
    let part = mem::replace(records, Part::none());
    history.take(me, part);
    add_with::<Brand, (Step, Answer, usize, &records::Records)>(
        history,
        me,
        &(step, answer, number, keys),
    );
    *thread = history.give(me);
    *records = history.give(me);
}

// Adds that all numbers are registered.
pub(crate) fn add_full(history: &History, me: &mut Witness)
    requires witness { IsWitnessOf history.now me.old }
    requires moves { Moves (max_threads_of history.now) (Is Step.Register Answer.Full)
        (pieces_of me.old) (pieces_of me.old) }
    ensures still { IsStill history.now me.old me.new }
    ensures extends { Extends history.now me.old Step.Register Answer.Full me.new }
    ensures pieces { pieces_of me.new ≡ pieces_of me.old }
{
    history.add::<Brand>(me);
}

// Adds an unpark, where the bucket beside the part is as the unpark left it. The witness has the
// pieces of those that were taken then.
pub(crate) fn add_taking<E: Told>(
    history: &History,
    me: &mut Witness,
    licence: Licence,
    cell: &mut Cell,
    taken: &Queue,
    answer: Answer,
)
    requires idle { IsIdle history.now me.old }
    requires part { IsPartOf (id_of history.now) cell.old.part }
    requires moves { Moves (max_threads_of history.now) (λ s a. E.said s a × (a ≡ answer))
        (pieces_in cell.old.part)
        (lists_in (limit_of history.now) cell.old.bucket ∷ threads_in taken.now) }
    ensures still { IsStill history.now me.old me.new }
    ensures adds { Adds history.now me.old (λ s a. E.said s a × (a ≡ answer)) me.new }
    ensures pieces { pieces_of me.new ≡ threads_in taken.now }
    ensures bucket { cell.new.bucket ≡ cell.old.bucket }
    ensures part { Has (id_of history.now) (lists_in (limit_of history.now) cell.old.bucket ∷ [])
        cell.new.part }
{
    let part = mem::replace(&mut cell.part, Part::none());
    history.take(me, part);
    add_taken::<E>(history, me, licence, cell, taken, answer);
}

// Adds an unpark, where the witness has the bucket's piece and the bucket is as the unpark left it.
// The part has the piece then, and the witness the pieces of those that were taken.
pub(crate) fn add_taken<E: Told>(
    history: &History,
    me: &mut Witness,
    licence: Licence,
    cell: &mut Cell,
    taken: &Queue,
    answer: Answer,
)
    requires witness { IsWitnessOf history.now me.old }
    requires moves { Moves (max_threads_of history.now) (λ s a. E.said s a × (a ≡ answer))
        (pieces_of me.old)
        (lists_in (limit_of history.now) cell.old.bucket ∷ threads_in taken.now) }
    ensures still { IsStill history.now me.old me.new }
    ensures adds { Adds history.now me.old (λ s a. E.said s a × (a ≡ answer)) me.new }
    ensures found { Found history.now me.old me.new }
    ensures pieces { pieces_of me.new ≡ threads_in taken.now }
    ensures bucket { cell.new.bucket ≡ cell.old.bucket }
    ensures part { Has (id_of history.now) (lists_in (limit_of history.now) cell.old.bucket ∷ [])
        cell.new.part }
{
    licence.spend();
    add_with::<Brand, (&Bucket, &Queue, Answer)>(history, me, &(&cell.bucket, taken, answer));
    cell.part = history.give(me);
}

// Adds a requeue from the list of one bucket to that of another, where the buckets beside the parts
// are as it left them. The witness has the pieces of those that were taken then.
pub(crate) fn add_requeue<E: Told>(
    history: &History,
    me: &mut Witness,
    licence: Licence,
    source: &mut Cell,
    target: &mut Cell,
    taken: &Queue,
    answer: Answer,
)
    requires idle { IsIdle history.now me.old }
    requires source { IsPartOf (id_of history.now) source.old.part }
    requires target { IsPartOf (id_of history.now) target.old.part }
    requires moves { Moves (max_threads_of history.now) (λ s a. E.said s a × (a ≡ answer))
        (pieces_in source.old.part ++ pieces_in target.old.part)
        (lists_in (limit_of history.now) source.old.bucket
        ∷ lists_in (limit_of history.now) target.old.bucket ∷ threads_in taken.now) }
    ensures still { IsStill history.now me.old me.new }
    ensures adds { Adds history.now me.old (λ s a. E.said s a × (a ≡ answer)) me.new }
    ensures found { FindsPieces history.now
        (pieces_in source.old.part ++ pieces_in target.old.part) me.old me.new }
    ensures pieces { pieces_of me.new ≡ threads_in taken.now }
    ensures buckets { (source.new.bucket ≡ source.old.bucket)
        × (target.new.bucket ≡ target.old.bucket) }
    ensures source { Has (id_of history.now)
        (lists_in (limit_of history.now) source.old.bucket ∷ []) source.new.part }
    ensures target { Has (id_of history.now)
        (lists_in (limit_of history.now) target.old.bucket ∷ []) target.new.part }
{
    licence.spend();
    let part = mem::replace(&mut source.part, Part::none());
    history.take(me, part);
    let other = mem::replace(&mut target.part, Part::none());
    history.take(me, other);
    let left = Requeued {
        source: &source.bucket,
        target: &target.bucket,
        taken,
        answer,
    };
    add_requeued::<E>(history, me, &left);
    source.part = history.give(me);
    target.part = history.give(me);
}

// Adds a requeue that leaves this.
fn add_requeued<E: Told>(history: &History, me: &mut Witness, left: &Requeued<'_>)
    requires witness { IsWitnessOf history.now me.old }
    requires moves { Moves (max_threads_of history.now)
        (λ s a. E.said s a × (a ≡ left.now.answer)) (pieces_of me.old)
        (lists_in (limit_of history.now) left.now.source.now
        ∷ lists_in (limit_of history.now) left.now.target.now
        ∷ threads_in left.now.taken.now) }
    ensures still { IsStill history.now me.old me.new }
    ensures adds { Adds history.now me.old
        (λ s a. E.said s a × (a ≡ left.now.answer)) me.new }
    ensures found { Found history.now me.old me.new }
    ensures pieces { pieces_of me.new
        ≡ lists_in (limit_of history.now) left.now.source.now
        ∷ lists_in (limit_of history.now) left.now.target.now
        ∷ threads_in left.now.taken.now }
{
    add_with::<Brand, Requeued<'_>>(history, me, left);
}

// Adds that a thread entered, where the bucket beside the part is as it is with the thread. It has
// the thread's piece from then on, and `timing` says how the thread waits.
pub(crate) fn add_entered(
    history: &History,
    me: &mut Witness,
    licence: Licence,
    cell: &mut Cell,
    thread: Part,
    timing: &mut Part,
    entry: Entry,
)
    requires witness { IsWitnessOf history.now me.old }
    requires none { pieces_of me.old ≡ [] }
    requires part { IsPartOf (id_of history.now) cell.old.part }
    requires thread { Has (id_of history.now) (Thread entry.number Status.Running ∷ []) thread }
    requires timing { IsPartOf (id_of history.now) timing.old }
    requires moves { Moves (max_threads_of history.now)
        (Is (entry_step entry true) Answer.Entered)
        ((pieces_in cell.old.part ++ Thread entry.number Status.Running ∷ [])
        ++ pieces_in timing.old)
        (lists_in (limit_of history.now) cell.old.bucket ∷ Timing entry.number entry.timed ∷ []) }
    ensures idle { StaysIdle history.now me.old me.new }
    ensures extends { Extends history.now me.old (entry_step entry true) Answer.Entered me.new }
    ensures found { FindsPieces history.now
        ((pieces_in cell.old.part ++ Thread entry.number Status.Running ∷ [])
        ++ pieces_in timing.old) me.old me.new }
    ensures bucket { cell.new.bucket ≡ cell.old.bucket }
    ensures part { Has (id_of history.now) (lists_in (limit_of history.now) cell.old.bucket ∷ [])
        cell.new.part }
    ensures timing { Has (id_of history.now) (Timing entry.number entry.timed ∷ []) timing.new }
{
    let part = mem::replace(&mut cell.part, Part::none());
    history.take(me, part);
    history.take(me, thread);
    let part = mem::replace(timing, Part::none());
    history.take(me, part);
    licence.spend();
    add_with::<Brand, (&Bucket, Entry)>(history, me, &(&cell.bucket, entry));
    cell.part = history.give(me);
    *timing = history.give(me);
}

// Adds that a thread was not let in, and gives its piece back.
pub(crate) fn add_invalid(
    history: &History,
    me: &mut Witness,
    licence: Licence,
    thread: Part,
    entry: Entry,
) -> Part
    requires idle { IsIdle history.now me.old }
    requires thread { Has (id_of history.now) (Thread entry.number Status.Running ∷ []) thread }
    requires moves { Moves (max_threads_of history.now)
        (Is (entry_step entry false) Answer.Invalid)
        (Thread entry.number Status.Running ∷ []) (Thread entry.number Status.Running ∷ []) }
    ensures idle { StaysIdle history.now me.old me.new }
    ensures extends { Extends history.now me.old (entry_step entry false) Answer.Invalid me.new }
    ensures thread { Has (id_of history.now) (Thread entry.number Status.Running ∷ []) result }
{
    history.take(me, thread);
    licence.spend();
    add_with::<Brand, Entry>(history, me, &entry);
    history.give(me)
}

// Adds that the deadline of a thread passed, and that it left the list of the key, where the bucket
// beside the part is as it is without the thread, and `timing` says that it waits with a timeout.
// Gives the thread's piece.
pub(crate) fn add_timeout(
    history: &History,
    me: &mut Witness,
    licence: Licence,
    cell: &mut Cell,
    timing: &mut Part,
    number: usize,
    key: usize,
    last: bool,
) -> Part
    requires idle { IsIdle history.now me.old }
    requires part { IsPartOf (id_of history.now) cell.old.part }
    requires timing { IsPartOf (id_of history.now) timing.old }
    requires deadline { Moves (max_threads_of history.now)
        (Is (Step.Deadline number) Answer.Late)
        (pieces_in cell.old.part ++ pieces_in timing.old)
        (late_pieces number (pieces_in cell.old.part ++ pieces_in timing.old)) }
    requires resolve { Moves (max_threads_of history.now)
        (Is (Step.Resolve number) (Answer.TimedOut key last))
        (late_pieces number (pieces_in cell.old.part ++ pieces_in timing.old))
        (lists_in (limit_of history.now) cell.old.bucket ∷ Thread number Status.Running
        ∷ Timing number true ∷ []) }
    ensures idle { StaysIdle history.now me.old me.new }
    ensures leaves { LeavesFrom history.now (pieces_in cell.old.part ++ pieces_in timing.old)
        number key last me.old me.new }
    ensures bucket { cell.new.bucket ≡ cell.old.bucket }
    ensures part { Has (id_of history.now) (lists_in (limit_of history.now) cell.old.bucket ∷ [])
        cell.new.part }
    ensures thread { Has (id_of history.now) (Thread number Status.Running ∷ []) result }
    ensures timing { Has (id_of history.now) (Timing number true ∷ []) timing.new }
{
    let part = mem::replace(&mut cell.part, Part::none());
    history.take(me, part);
    let part = mem::replace(timing, Part::none());
    history.take(me, part);
    licence.spend();
    add_late(history, me, number);
    add_resolved(history, me, &cell.bucket, number, key, last);
    cell.part = history.give(me);
    let thread = history.give(me);
    *timing = history.give(me);
    thread
}

// Adds that the deadline of a thread passed.
pub(crate) fn add_late(history: &History, me: &mut Witness, number: usize)
    requires witness { IsWitnessOf history.now me.old }
    requires moves { Moves (max_threads_of history.now) (Is (Step.Deadline number) Answer.Late)
        (pieces_of me.old) (late_pieces number (pieces_of me.old)) }
    ensures still { IsStill history.now me.old me.new }
    ensures extends { Extends history.now me.old (Step.Deadline number) Answer.Late me.new }
    ensures pieces { pieces_of me.new ≡ late_pieces number (pieces_of me.old) }
{
    add_with::<Brand, usize>(history, me, &number);
}

// Adds that a thread whose deadline has passed left the list of the key, and then the bucket.
fn add_resolved(
    history: &History,
    me: &mut Witness,
    bucket: &Bucket,
    number: usize,
    key: usize,
    last: bool,
)
    requires witness { IsWitnessOf history.now me.old }
    requires moves { Moves (max_threads_of history.now)
        (Is (Step.Resolve number) (Answer.TimedOut key last)) (pieces_of me.old)
        (lists_in (limit_of history.now) bucket.now ∷ Thread number Status.Running
        ∷ Timing number true ∷ []) }
    ensures still { IsStill history.now me.old me.new }
    ensures extends { Extends history.now me.old (Step.Resolve number)
        (Answer.TimedOut key last) me.new }
    ensures found { Found history.now me.old me.new }
    ensures pieces { pieces_of me.new
        ≡ lists_in (limit_of history.now) bucket.now ∷ Thread number Status.Running
        ∷ Timing number true ∷ [] }
{
    add_with::<Brand, (&Bucket, usize, usize, bool)>(history, me, &(bucket, number, key, last));
}
