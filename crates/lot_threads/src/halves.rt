//! How a bucket with its part is cut in two where the table grows, and how two are put together
//! where it is trimmed.

ghost use Rattle.std.specs.Prelude.{◌≡◌, ◌+◌, ◌*◌, ◌/◌, ◌<◌, ◌++◌, ◌∷◌, [], ℕ, All};
ghost use Rattle.lot_base.specs.BucketState.{IsBucketAt, KeepsPlace};
ghost use Rattle.lot_base.specs.Node.{fields};
ghost use Rattle.lot_base.specs.Place.{place_of};
ghost use Rattle.lot_history.specs.Witness.{events_of, id_of, limit_of, max_threads_of};
ghost use Rattle.lot_threads.specs.Cells.{IsBelow, IsCell};
ghost use Rattle.lot_threads.specs.Halves.{AreHalves, IsHalfSize};
ghost use Rattle.lot_threads.specs.Idle.{IsIdle, StaysIdle};

use crate::cell::Cell;
use crate::told::{regroup_joined, regroup_split};
use lot_base::bucket::{Bucket, place};
use lot_base::queue::Node;
use lot_history::history::{History, Witness};

// Cuts a bucket in two, those of its two places in a table of twice the size. Each takes the nodes
// of its own keys, in order, and the piece that says so; to the history nothing is added.
pub(crate) fn split(history: &History, me: &mut Witness, cell: Cell) -> (Cell, Cell)
    requires idle { IsIdle history.now me.old }
    requires size { IsHalfSize cell.bucket.size }
    requires cell { IsCell (id_of history.now) (max_threads_of history.now)
        (limit_of history.now) cell }
    ensures idle { StaysIdle history.now me.old me.new }
    ensures nothing_added { events_of me.new ≡ events_of me.old }
    ensures low_place { IsBucketAt (2 * cell.bucket.place) (2 * cell.bucket.size)
        result.0.bucket }
    ensures high_place { IsBucketAt (2 * cell.bucket.place + 1) (2 * cell.bucket.size)
        result.1.bucket }
    ensures low { IsCell (id_of history.now) (max_threads_of history.now)
        (limit_of history.now) result.0 }
    ensures high { IsCell (id_of history.now) (max_threads_of history.now)
        (limit_of history.now) result.1 }
{
    let Cell { mut bucket, part } = cell;
    let size = 2 * bucket.size();
    let first = 2 * bucket.place();
    let mut low = Bucket::new(first, size);
    let mut high = Bucket::new(first + 1, size);
    spread(&mut bucket, &mut low, &mut high);
    history.take(me, part);
    regroup_split(history, me, &low, &high);
    let low_part = history.give(me);
    let high_part = history.give(me);
    let low = Cell {
        bucket: low,
        part: low_part,
    };
    let high = Cell {
        bucket: high,
        part: high_part,
    };
    (low, high)
}

// Puts two buckets together, to that of this place in a table of half the size. It takes the nodes
// of both and their pieces; to the history nothing is added.
pub(crate) fn join(
    history: &History,
    me: &mut Witness,
    place: usize,
    size: usize,
    low: Cell,
    high: Cell,
) -> Cell
    requires idle { IsIdle history.now me.old }
    requires size { IsHalfSize size }
    requires place { place < size }
    requires low_place { IsBucketAt (2 * place) (2 * size) low.bucket }
    requires high_place { IsBucketAt (2 * place + 1) (2 * size) high.bucket }
    requires low { IsCell (id_of history.now) (max_threads_of history.now)
        (limit_of history.now) low }
    requires high { IsCell (id_of history.now) (max_threads_of history.now)
        (limit_of history.now) high }
    ensures idle { StaysIdle history.now me.old me.new }
    ensures nothing_added { events_of me.new ≡ events_of me.old }
    ensures place { IsBucketAt place size result.bucket }
    ensures cell { IsCell (id_of history.now) (max_threads_of history.now)
        (limit_of history.now) result }
{
    let Cell {
        bucket: mut low,
        part: low_part,
    } = low;
    let Cell {
        bucket: mut high,
        part: high_part,
    } = high;
    let mut bucket = Bucket::new(place, size);
    pour(&mut low, &mut bucket);
    pour(&mut high, &mut bucket);
    history.take(me, low_part);
    history.take(me, high_part);
    regroup_joined(history, me, &bucket);
    let part = history.give(me);
    Cell { bucket, part }
}

// Moves the nodes of a bucket into those of its two places in a table of twice the size.
fn spread(bucket: &mut Bucket, low: &mut Bucket, high: &mut Bucket)
    requires size { IsHalfSize bucket.old.size }
    requires low { IsBucketAt (2 * bucket.old.place) (2 * bucket.old.size) low.old }
    requires high { IsBucketAt (2 * bucket.old.place + 1) (2 * bucket.old.size) high.old }
    requires empty { (low.old.nodes ≡ []) × (high.old.nodes ≡ []) }
    ensures low { KeepsPlace low.old low.new }
    ensures high { KeepsPlace high.old high.new }
    ensures halves { AreHalves bucket.old.size bucket.old.place bucket.old.nodes low.new.nodes
        high.new.nodes }
    ensures below { (bound : ℕ) → All (IsBelow bound) bucket.old.nodes
        → All (IsBelow bound) low.new.nodes × All (IsBelow bound) high.new.nodes }
{
    while let Some(node) = bucket.pop() {
        if place(node.key, low.size()) == low.place() {
            put_last(low, node);
        } else {
            put_last(high, node);
        }
    }
}

// Moves the nodes of a bucket behind those of the bucket of its place in a table of half the size.
fn pour(from: &mut Bucket, into: &mut Bucket)
    requires size { IsHalfSize into.old.size }
    requires sizes { from.old.size ≡ 2 * into.old.size }
    requires places { from.old.place / 2 ≡ into.old.place }
    ensures place { KeepsPlace into.old into.new }
    ensures nodes { into.new.nodes ≡ into.old.nodes ++ from.old.nodes }
    ensures in_place { All (λ node. place_of node.key from.old.size ≡ from.old.place)
        from.old.nodes }
{
    while let Some(node) = from.pop() {
        put_last(into, node);
    }
}

// Puts the node last into the bucket, which is that of its key.
pub(crate) fn put_last(bucket: &mut Bucket, node: Box<Node>)
    requires { place_of (fields node.value).key bucket.old.size ≡ bucket.old.place }
    ensures { bucket.new
        ≡ record bucket.old { nodes = bucket.old.nodes ++ fields node.value ∷ [] } }
{
    let _ = bucket.enter(node, || true);
}
