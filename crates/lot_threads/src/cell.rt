//! The buckets of a lot, each with its part of the history, behind a lock.

ghost use Rattle.std.specs.Prelude.{◌≡◌, ◌∷◌, ◌+◌, ◌<◌, ◌^◌, [], length, IfOk, IfSome};
ghost use Rattle.lot_base.specs.Place.{IsTableSize};
ghost use Rattle.lot_history.specs.Views.{rest_of};
ghost use Rattle.lot_history.specs.Witness.{IsPartOf, IsStill, IsWitnessOf, events_of, id_of, max_threads_of, pieces_of, limit_of};
ghost use Rattle.lot_history.specs.declared.view.Piece.TheVariants.{TitledLists};
ghost use Rattle.lot_word_lock.specs.WordLock.{key_of};
ghost use Rattle.lot_threads.specs.Rows.{EachAt, empty_lists, other_pieces};
ghost use Rattle.lot_threads.specs.Idle.{IsIdle, StaysIdle};
ghost use Rattle.lot_threads.specs.Cells.{AreRows, FitsCell, IsCellLock, IsFirst, IsRow, home_of};

use crate::told::refuse_two;
use boxcar::slot::{OnceSlot, SlotRule, Written};
use boxcar::tag::{Names, Tag};
use lot_base::bucket::Bucket;
use lot_base::token::NoMemory;
use lot_base::word_lock::{Fits, WordLock};
use lot_history::history::{History, Part, Witness};
use lot_machine::size::INITIAL_BUCKETS;
use std::alloc::Global;
use std::sync::Wait;

// A bucket, and beside it its piece of the machine: the lists of all keys of its place.
#[derive(Drop)]
pub(crate) struct Cell {
    pub(crate) bucket: Bucket,
    pub(crate) part: Part,
}

// The place of a bucket in a row. The bucket is there while the row is in use.
#[derive(Drop)]
pub(crate) struct Slot {
    pub(crate) cell: Option<Cell>,

    // Nobody reads it. The words of the next place's lock lie behind it on the heap, so it keeps
    // the bucket out of the cache line that callers of the next bucket write.
    apart: [u64; LINE],
}

// So many words are a cache line of 64 bytes.
pub(crate) const LINE: usize = 8;

impl Slot {
    // The place with this bucket, or without one.
    fn new(cell: Option<Cell>) -> Slot
        ensures { result.cell ≡ cell }
    {
        Slot {
            cell,
            apart: [0; LINE],
        }
    }
}

// Which bucket a lock is around, in a row of how many, and of which lot: keys below the limit have
// titles, and `home` is a part of the lot's history, without a piece.
#[derive(Drop)]
pub(crate) struct CellKey {
    pub(crate) place: usize,
    pub(crate) size: usize,
    pub(crate) max_threads: usize,
    pub(crate) limit: usize,
    pub(crate) home: Part,
}

impl Fits for Slot {
    type Key = CellKey;

    ghost use Rattle.lot_threads.specs.Cells.{FitsSlot};

    ghost fits = { λ key slot. FitsSlot key slot };
}

// Takes the bucket of this place away, or answers `None` where it is away, since its row is not in
// use.
pub(crate) fn take_away<R: Wait>(rt: &R, lock: &WordLock<Slot>) -> Option<Cell>
    ensures { IfSome result (FitsCell (key_of lock.now)) }
{
    let mut held = lock.lock(rt);
    let cell = held.value.cell.take();
    lock.unlock(held);
    cell
}

// Puts a bucket to its place, in a row that is not in use there: another bucket of this place
// cannot be.
pub(crate) fn put<R: Wait>(
    rt: &R,
    history: &History,
    me: &mut Witness,
    lock: &WordLock<Slot>,
    cell: Cell,
)
    requires idle { IsIdle history.now me.old }
    requires for_threads { (key_of lock.now).max_threads ≡ max_threads_of history.now }
    requires for_limit { (key_of lock.now).limit ≡ limit_of history.now }
    requires of_lot { home_of (key_of lock.now).home ≡ id_of history.now }
    requires fits { FitsCell (key_of lock.now) cell }
    ensures idle { StaysIdle history.now me.old me.new }
    ensures nothing_added { events_of me.new ≡ events_of me.old }
{
    let mut held = lock.lock(rt);
    if let Some(other) = held.value.cell.take() {
        refuse_two(history, me, cell, other);
    }
    held.value.cell = Some(cell);
    lock.unlock(held);
}

// How many rows there may be: of 16 to 65,536 buckets.
pub(crate) const MOST_ROWS: usize = 13;

// How many buckets the row of this index has.
pub(crate) fn row_size(index: usize) -> usize
    requires { index < 13 }
    ensures { result ≡ 2 ^ (index + 4) }
{
    1 << (index + 4)
}

// What the slot of a row keeps: the row is of the lot and of the size that its tag tells.
pub(crate) struct OfTag;

impl SlotRule<Vec<WordLock<Slot>>> for OfTag {
    ghost use Rattle.lot_threads.specs.Cells.{FitsTag};

    ghost holds = { λ tag row. FitsTag tag row.items };
}

// The tag of a row, as the keys of its locks tell it.
struct RowTag;

impl Names<CellKey> for RowTag {
    ghost use Rattle.lot_threads.specs.Cells.{home_of, row_tag};

    ghost numbers = { λ key. row_tag (home_of key.home) key.max_threads key.limit key.size };
}

// The place of a row, which is made where it is first needed, and kept to the lot's end.
pub(crate) type RowSlot = OnceSlot<Vec<WordLock<Slot>>, OfTag>;

// What shows that a row is made. It has no bytes.
pub(crate) type MadeRow = Written<Vec<WordLock<Slot>>>;

// The places of a new lot's rows, of 16 buckets and of each larger size, and what shows that the
// first is made. It is in use: each of its buckets has its piece, which the witness gives away.
// `other` is one that has no piece.
pub(crate) fn new_rows(
    alloc: Global,
    history: &History,
    me: &mut Witness,
    other: &mut Witness,
    max_threads: usize,
    limit: usize,
) -> Result<(Vec<RowSlot>, MadeRow), NoMemory>
    requires witness { IsWitnessOf history.now me.old }
    requires other { IsWitnessOf history.now other.old }
    requires max_threads { max_threads ≡ max_threads_of history.now }
    requires limit { limit ≡ limit_of history.now }
    requires pieces { pieces_of me.old
        ≡ empty_lists limit 16 0 16 (other_pieces max_threads limit) }
    ensures still { IsStill history.now me.old me.new }
    ensures other { IsStill history.now other.old other.new }
    ensures pieces { IfOk result (λ _. pieces_of me.new ≡ other_pieces max_threads limit) }
    ensures rows { IfOk result (λ made.
        AreRows (id_of history.now) max_threads limit made.0.items) }
    ensures first { IfOk result (λ made. IsFirst made.1.of made.0.items) }
{
    let home = history.give(other);
    let size = INITIAL_BUCKETS;
    let first = new_cells(alloc, history, me, size, max_threads, limit, home)?;
    let home = history.give(other);
    let rows = new_slots(alloc, max_threads, limit, home)?;
    // The slot is new, so it takes the row.
    let Ok(made) = rows[0].set_written(first) else {
        return Err(NoMemory);
    };
    Ok((rows, made))
}

// The places of rows of all sizes, of which none is made.
fn new_slots(
    alloc: Global,
    max_threads: usize,
    limit: usize,
    home: Part,
) -> Result<Vec<RowSlot>, NoMemory>
    ensures { IfOk result (λ rows. AreRows (home_of home) max_threads limit rows.items) }
{
    let mut key = CellKey {
        place: 0,
        size: INITIAL_BUCKETS,
        max_threads,
        limit,
        home,
    };
    let mut rows = Vec::with_capacity(alloc, MOST_ROWS)?;
    for _index in 0..MOST_ROWS {
        rows.push(OnceSlot::new(&Tag::of::<CellKey, RowTag>(&key)))?;
        key.size *= 2;
    }
    Ok(rows)
}

// A row that is not in use, of which no place has its bucket.
pub(crate) fn new_row(
    alloc: Global,
    size: usize,
    max_threads: usize,
    limit: usize,
    home: Part,
) -> Result<Vec<WordLock<Slot>>, NoMemory>
    requires { IsTableSize size }
    ensures { IfOk result (λ row. IsRow (home_of home) max_threads limit size row.items) }
{
    let mut key = CellKey {
        place: 0,
        size,
        max_threads,
        limit,
        home,
    };
    let mut row = Vec::with_capacity(alloc, size)?;
    for place in 0..size {
        key.place = place;
        row.push(WordLock::new(alloc, Slot::new(None), &key)?)?;
    }
    Ok(row)
}

// The row of 16 buckets of a new lot, each with its piece, which the witness gives away.
fn new_cells(
    alloc: Global,
    history: &History,
    me: &mut Witness,
    size: usize,
    max_threads: usize,
    limit: usize,
    home: Part,
) -> Result<Vec<WordLock<Slot>>, NoMemory>
    requires witness { IsWitnessOf history.now me.old }
    requires size { IsTableSize size }
    requires max_threads { max_threads ≡ max_threads_of history.now }
    requires limit { limit ≡ limit_of history.now }
    requires home { IsPartOf (id_of history.now) home }
    requires pieces { pieces_of me.old
        ≡ empty_lists limit size 0 size (other_pieces max_threads limit) }
    ensures still { IsStill history.now me.old me.new }
    ensures pieces { IfOk result (λ _. pieces_of me.new ≡ other_pieces max_threads limit) }
    ensures count { IfOk result (λ cells. length cells.items ≡ size) }
    ensures cells { IfOk result (λ cells.
        EachAt (IsCellLock (id_of history.now) max_threads limit size) 0 cells.items) }
{
    let mut key = CellKey {
        place: 0,
        size,
        max_threads,
        limit,
        home,
    };
    let mut cells = Vec::with_capacity(alloc, size)?;
    for place in 0..size {
        key.place = place;
        cells.push(new_cell(alloc, history, me, &key)?)?;
    }
    Ok(cells)
}

// An empty bucket with its piece, the witness's first, behind a lock of this key.
fn new_cell(
    alloc: Global,
    history: &History,
    me: &mut Witness,
    key: &CellKey,
) -> Result<WordLock<Slot>, NoMemory>
    requires witness { IsWitnessOf history.now me.old }
    requires size { IsTableSize key.now.size }
    requires place { key.now.place < key.now.size }
    requires home { IsPartOf (id_of history.now) key.now.home }
    requires piece { pieces_of me.old
        ≡ TitledLists key.now.limit key.now.size key.now.place [] ∷ rest_of (pieces_of me.old) }
    ensures still { IsStill history.now me.old me.new }
    ensures pieces { pieces_of me.new ≡ rest_of (pieces_of me.old) }
    ensures key { IfOk result (λ lock. key_of lock ≡ key.now) }
{
    let bucket = Bucket::new(key.place, key.size);
    let part = history.give(me);
    let cell = Some(Cell { bucket, part });
    WordLock::new(alloc, Slot::new(cell), key)
}
