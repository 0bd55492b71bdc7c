//! This module has the hash table of an exclusive lot: its thread numbers and its buckets.
//!
//! The table grows with the number of registered threads, and a trim makes it smaller again.

ghost use Rattle.std.specs.Prelude.{◌≡◌, ◌≢◌, ◌↔◌, ◌+◌, ◌*◌, ◌<◌, ◌≤◌, [], Some, IsTrue, IsErrOf, IfOk, OnOk, OnErr, length, nat_lt, replicate, slice_set, slice_get};
ghost use Rattle.lot_base.specs.Place.{IsTableSize, place_of};
ghost use Rattle.lot_simulator.specs.Represents.{bucket_at};
ghost use Rattle.lot_machine.specs.Size.{IsSizeFor, IsTrimmedSize, IsTooLarge};
ghost use Rattle.lot_machine.specs.Numbers.{count_registered, IsLeastUnregistered};
ghost use Rattle.lot_simulator.specs.Table.{AreEmpty, KeepsLists};

mod growth;
mod steps;

use growth::{empty_buckets, resize};
use lot_base::bucket::{Bucket, place};
use lot_base::token::{LotError, NoMemory};
use lot_machine::numbers::Numbers;
pub use lot_machine::numbers::{MAX_THREADS, Use};
use lot_machine::size::{BUCKETS_PER_THREAD, INITIAL_BUCKETS, size_for, trimmed_size};
use std::alloc::Global;
use std::marker::Model;
use std::mem;

/// A `Table` has the numbers under which threads register, and a row of buckets.
///
/// A key's bucket is at the place that `place` returns for the key. The number of buckets is always
/// a power of two, at least 16, and at least 3 for each registered thread. Each bucket knows its
/// place and the size of the table.
#[derive(Drop)]
pub struct Table {
    cells: Vec<Bucket>,
    numbers: Numbers,
}

impl Model for Table {
    ghost use Rattle.lot_simulator.specs.TableState.{TableState};

    ghost Value = { TableState };

    ghost use Rattle.lot_simulator.specs.Table.{IsTable};

    ghost view = { λ table. record { cells = table.cells.items; numbers = table.numbers } };

    ghost invariant = { λ table. IsTable (record {
      cells = table.cells.items;
      numbers = table.numbers;
    }) };
}

impl Table {
    /// Creates a table of 16 empty buckets for at most `max` threads, none of which is registered.
    ///
    /// It allocates the room for all numbers and for the buckets.
    ///
    /// # Errors
    ///
    /// Returns `TooManyThreads` if and only if `max` is above `MAX_THREADS`. Otherwise returns
    /// `NoMemory` if there is not enough memory.
    pub fn new(alloc: Global, max: usize) -> Result<Table, LotError>
        ensures too_many { IsErrOf result LotError.TooManyThreads ↔ (MAX_THREADS < max) }
        ensures not_full { result ≢ Err LotError.Full }
        ensures numbers { IfOk result (λ table. table.numbers ≡ replicate max Use.Free) }
        ensures size { IfOk result (λ table. length table.cells ≡ 16) }
        ensures empty { IfOk result (λ table. AreEmpty 16 table.cells) }
    {
        let numbers = Numbers::new(alloc, max)?;
        let cells = empty_buckets(alloc, INITIAL_BUCKETS)?;
        Ok(Table { cells, numbers })
    }

    /// Returns how many numbers are registered.
    pub fn registered(&self) -> usize
        ensures { result ≡ count_registered self.now.numbers }
    {
        self.numbers.registered()
    }

    /// Returns how many buckets there are.
    pub fn size(&self) -> usize
        ensures value { result ≡ length self.now.cells }
        ensures table { IsTableSize result }
        ensures room { 3 * count_registered self.now.numbers ≤ result }
    {
        self.cells.len()
    }

    /// Returns whether one more registration makes the table grow.
    pub fn is_too_small_for_one_more(&self) -> bool
        ensures { result
            ≡ nat_lt (length self.now.cells) (3 * (count_registered self.now.numbers + 1)) }
    {
        self.cells.len() < BUCKETS_PER_THREAD * (self.numbers.registered() + 1)
    }

    /// Returns whether a trim makes the table smaller.
    pub fn is_too_large(&self) -> bool
        ensures { IsTrue result
            ↔ IsTooLarge (count_registered self.now.numbers) (length self.now.cells) }
    {
        trimmed_size(self.numbers.registered(), self.cells.len()) < self.cells.len()
    }

    /// Returns the bucket of the key.
    pub fn bucket(&self, key: usize) -> &Bucket
        ensures bucket { slice_get self.now.cells (place_of key (length self.now.cells))
            ≡ Some result.now }
        ensures place { result.now.place ≡ place_of key (length self.now.cells) }
        ensures size { result.now.size ≡ length self.now.cells }
    {
        &self.cells[place(key, self.cells.len())]
    }

    /// Registers the least free number, and returns it.
    ///
    /// If the table would have fewer than 3 buckets for each thread, it grows to the least power of
    /// two that is enough. The list of every key stays as it was.
    ///
    /// It looks at the numbers that may be free, up to the one that it returns
    /// (`Numbers::least_free`), and allocates nothing unless the table grows. To grow, it allocates
    /// the buckets of the new table before it changes anything. Then it takes each waiting node
    /// once, and puts it last into the new bucket of its key, by one `push_back`.
    ///
    /// # Errors
    ///
    /// Returns `Full` if and only if the greatest number of threads is already registered.
    /// Otherwise returns `NoMemory` if there is not enough memory for a larger table. Nothing was
    /// changed then.
    pub fn register(&mut self) -> Result<usize, LotError>
        ensures full { IsErrOf result LotError.Full
            ↔ (count_registered self.old.numbers ≡ length self.old.numbers) }
        ensures not_too_many { result ≢ Err LotError.TooManyThreads }
        ensures number { IfOk result (λ number. IsLeastUnregistered self.old.numbers number
            × (self.new.numbers ≡ slice_set self.old.numbers number Use.Registered)) }
        ensures threads { OnOk result (count_registered self.new.numbers
            ≡ count_registered self.old.numbers + 1) }
        ensures size { OnOk result (IsSizeFor (count_registered self.new.numbers)
            (length self.old.cells) (length self.new.cells)) }
        ensures lists { KeepsLists self.old.cells self.new.cells }
        ensures err { OnErr result (self.new ≡ self.old) }
    {
        let Some(number) = self.numbers.least_free() else {
            return Err(LotError::Full);
        };
        let threads = self.numbers.registered() + 1;
        let size = size_for(threads, self.cells.len());
        resize(&mut self.cells, size)?;
        self.numbers.register(number);
        Ok(number)
    }

    /// Makes the table smaller, if it has more buckets than it needs.
    ///
    /// It needs the least power of two that is at least 3 buckets for each registered thread, where
    /// fewer than 3 threads count as 3. The list of every key stays as it was.
    ///
    /// If the table is not too large, this costs nothing. Otherwise it allocates the smaller row of
    /// buckets before it changes anything. Then it visits each bucket of the larger one, and puts
    /// each waiting node last into the new bucket of its key, by one `push_back`. At the end it
    /// frees the larger row.
    ///
    /// # Errors
    ///
    /// Returns `NoMemory` if there is not enough memory for the smaller row, and never if the table
    /// is not too large. Nothing was changed then.
    pub fn trim(&mut self) -> Result<(), NoMemory>
        ensures numbers { self.new.numbers ≡ self.old.numbers }
        ensures size { OnOk result (IsTrimmedSize (count_registered self.old.numbers)
            (length self.old.cells) (length self.new.cells)) }
        ensures lists { KeepsLists self.old.cells self.new.cells }
        ensures refused { OnErr result (IsTooLarge (count_registered self.old.numbers)
            (length self.old.cells)) }
        ensures err { OnErr result (self.new ≡ self.old) }
    {
        let size = trimmed_size(self.numbers.registered(), self.cells.len());
        resize(&mut self.cells, size)
    }

    /// Frees the number. If it is not registered, nothing changes.
    ///
    /// The table keeps its size. No number is searched.
    pub fn release(&mut self, number: usize)
        ensures cells { self.new.cells ≡ self.old.cells }
        ensures not_registered { slice_get self.old.numbers number ≢ Some Use.Registered → self.new
            ≡ self.old }
        ensures numbers { self.new.numbers ≡ slice_set self.old.numbers number Use.Free }
    {
        self.numbers.release(number);
    }

    /// Takes the bucket of the key, and leaves an empty one at its place.
    pub fn take(&mut self, key: usize) -> Bucket
        ensures taken { result ≡ bucket_at self.old.cells (place_of key (length self.old.cells)) }
        ensures place { result.place ≡ place_of key (length self.old.cells) }
        ensures size { result.size ≡ length self.old.cells }
        ensures table { IsTableSize result.size }
        ensures left { self.new ≡ record self.old {
          cells = slice_set self.old.cells result.place
              (record result { nodes = [] });
        } }
    {
        let size = self.cells.len();
        let place = place(key, size);
        mem::replace(&mut self.cells[place], Bucket::new(place, size))
    }

    /// Puts a bucket to its own place.
    ///
    /// It has to have the size of the table. The bucket that was at this place is dropped, with its
    /// nodes.
    pub fn put(&mut self, bucket: Bucket)
        requires { bucket.size ≡ length self.old.cells }
        ensures { self.new
            ≡ record self.old { cells = slice_set self.old.cells bucket.place bucket } }
    {
        if let Some(cell) = self.cells.get_mut(bucket.place()) {
            *cell = bucket;
        }
    }
}
