//! A table of values by keys, which many threads read and few change: sorted entries behind a lock
//! for readers and writers.

ghost use Rattle.std.specs.Prelude.{IfOk};
ghost use Rattle.examples.specs.SortedEntries.{HasRisingKeys};

mod sorted_entries;

use crate::read_mostly_table::sorted_entries::SortedEntries;
use lot_threads::NoMemory;
use parking_lot::{Lot, RwLock};
use std::alloc::Global;
use std::sync::Wait;
use std::time::Clock;

/// A table of values by keys, as of settings or routes, which threads share by reference.
///
/// Between two calls its keys rise. Each reader copies what it asked for under the lock, so it has
/// a value as one call put it in. What holds of each value is said by its type.
#[derive(Drop)]
pub struct ReadMostlyTable<'l, V: Copy> {
    lock: RwLock<'l, SortedEntries<V>>,
}

impl<'l, V: Copy> ReadMostlyTable<'l, V> {
    /// A table with no entries.
    ///
    /// # Errors
    ///
    /// `NoMemory` if memory for the lock cannot be had.
    pub fn new(lot: &'l Lot, alloc: Global) -> Result<ReadMostlyTable<'l, V>, NoMemory> {
        Ok(ReadMostlyTable {
            lock: RwLock::new(lot, SortedEntries::new(alloc))?,
        })
    }

    /// The value of a key, if it has one. Other readers go on meanwhile.
    pub fn get<R: Wait + Clock>(&self, rt: &R, key: u64) -> Option<V> {
        self.lock.read(rt).get(key)
    }

    /// A copy of all keys and their values, as they stand together at one moment. The keys rise.
    ///
    /// # Errors
    ///
    /// `NoMemory` if memory for the copy cannot be had.
    pub fn entries<R: Wait + Clock>(&self, rt: &R, alloc: Global) -> Result<Vec<(u64, V)>, NoMemory>
        ensures { IfOk result (λ entries. HasRisingKeys entries.items) }
    {
        Ok(self.lock.read(rt).copied(alloc)?)
    }

    /// Gives a key a value, and tells its value until then. It waits until nobody reads.
    ///
    /// # Errors
    ///
    /// `NoMemory` if memory for a new entry cannot be had. Nothing changed.
    pub fn insert<R: Wait + Clock>(
        &self,
        rt: &R,
        key: u64,
        value: V,
    ) -> Result<Option<V>, NoMemory> {
        Ok(self.lock.write(rt).insert(key, value)?)
    }

    /// Takes a key out of the table, and tells its value until then. It waits until nobody reads.
    pub fn remove<R: Wait + Clock>(&self, rt: &R, key: u64) -> Option<V> {
        self.lock.write(rt).remove(key)
    }
}
