//! This module moves nodes into the buckets of a larger or smaller table.

ghost use Rattle.std.specs.Prelude.{◌≡◌, ◌≢◌, ◌*◌, ◌≤◌, ◌++◌, ◌∷◌, [], ℕ, IfOk, OnOk, OnErr, All, length};
ghost use Rattle.lot_base.specs.BucketState.{KeepsPlace};
ghost use Rattle.lot_base.specs.Node.{fields};
ghost use Rattle.lot_base.specs.NodeLists.{lists_of};
ghost use Rattle.lot_base.specs.Place.{IsTableSize, place_of};
ghost use Rattle.lot_simulator.specs.Represents.{nodes_in, waiters_in, Represents};
ghost use Rattle.lot_machine.specs.Size.{IsSizeFor, IsTrimmedSize};
ghost use Rattle.lot_simulator.specs.Table.{IsRowOf, AreEmpty, KeepsLists};

use lot_base::bucket::{Bucket, place};
use lot_base::queue::Node;
use lot_base::token::NoMemory;
use std::alloc::Global;

/// Creates an empty bucket for each place of a table of `size` buckets. It allocates the row alone.
///
/// # Errors
///
/// Returns `NoMemory` if there is not enough memory.
pub(super) fn empty_buckets(alloc: Global, size: usize) -> Result<Vec<Bucket>, NoMemory>
    requires { IsTableSize size }
    ensures count { IfOk result (λ row. length row.items ≡ size) }
    ensures empty { IfOk result (λ row. AreEmpty size row.items) }
{
    let mut row = Vec::with_capacity(alloc, size)?;
    for place in 0..size {
        row.push(Bucket::new(place, size))?;
    }
    Ok(row)
}

/// Moves the nodes of the bucket into the buckets of their keys, in order. It takes each node once.
fn rehash_bucket(bucket: &mut Bucket, row: &mut Vec<Bucket>)
    requires size { IsTableSize (length row.old.items) }
    requires row { IsRowOf (length row.old.items) row.old.items }
    requires represents { Represents row.old.items (waiters_in row.old.items) }
    ensures place { KeepsPlace bucket.old bucket.new }
    ensures in_place { All (λ node. place_of node.key bucket.old.size
        ≡ bucket.old.place) bucket.old.nodes }
    ensures row { IsRowOf (length row.old.items) row.new.items }
    ensures represents { Represents row.new.items (waiters_in row.new.items) }
    ensures nodes { (key : ℕ) → nodes_in row.new.items key
        ≡ nodes_in row.old.items key ++ lists_of bucket.old.nodes key }
{
    while let Some(node) = bucket.pop() {
        let target = place(node.key, row.len());
        put_last(&mut row[target], node);
    }
}

// Puts the node last into the bucket, which is that of its key.
fn put_last(bucket: &mut Bucket, node: Box<Node>)
    requires { place_of (fields node.value).key bucket.old.size ≡ bucket.old.place }
    ensures { bucket.new
        ≡ record bucket.old { nodes = bucket.old.nodes ++ fields node.value ∷ [] } }
{
    let _ = bucket.enter(node, || true);
}

// Gives the table so many buckets, more or fewer than it has, and keeps each key's list. It asks
// for the new row alone, before it changes anything, and for none where the size is its own.
pub(super) fn resize(cells: &mut Vec<Bucket>, size: usize) -> Result<(), NoMemory>
    requires old_size { IsTableSize (length cells.old.items) }
    requires size { IsTableSize size }
    requires row { IsRowOf (length cells.old.items) cells.old.items }
    ensures size { OnOk result (length cells.new.items ≡ size) }
    ensures row { OnOk result (IsRowOf size cells.new.items) }
    ensures lists { OnOk result (KeepsLists cells.old.items cells.new.items) }
    ensures refused { OnErr result (size ≢ length cells.old.items) }
    ensures err { OnErr result (cells.new.items ≡ cells.old.items) }
{
    if size == cells.len() {
        return Ok(());
    }
    let mut row = empty_buckets(*cells.allocator(), size)?;
    rehash(cells, &mut row);
    *cells = row;
    Ok(())
}

// Moves the nodes of all buckets into the buckets of their keys, bucket by bucket.
fn rehash(cells: &mut Vec<Bucket>, row: &mut Vec<Bucket>)
    requires old_size { IsTableSize (length cells.old.items) }
    requires old_row { IsRowOf (length cells.old.items) cells.old.items }
    requires size { IsTableSize (length row.old.items) }
    requires row { IsRowOf (length row.old.items) row.old.items }
    requires represents { Represents row.old.items (waiters_in row.old.items) }
    ensures row { IsRowOf (length row.old.items) row.new.items }
    ensures represents { Represents row.new.items (waiters_in row.new.items) }
    ensures nodes { (key : ℕ) → nodes_in row.new.items key
        ≡ nodes_in row.old.items key ++ nodes_in cells.old.items key }
{
    for place in 0..cells.len() {
        rehash_bucket(&mut cells[place], row);
    }
}
