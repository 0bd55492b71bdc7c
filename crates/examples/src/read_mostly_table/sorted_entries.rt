//! The entries of a table by keys, without threads.

ghost use Rattle.std.specs.Prelude.{◌≡◌, ◌==◌, ℕ, None, Some, if◌then◌else◌};
ghost use Rattle.std.specs.Prelude.{IfErr, IfOk, IsOk, IsSome, OnErr, OnOk};
ghost use Rattle.std.proofs.Props.{props};
ghost use Rattle.examples.specs.SortedEntries.{HasRisingKeys, IsGapFor, IsPlaceOf, value_of};

use std::alloc::{AllocError, Global};

/// The entries of a table, whose keys rise.
#[derive(Drop)]
pub struct SortedEntries<V: Copy> {
    entries: Vec<(u64, V)>,
    ghost rising: { HasRisingKeys entries.items } by { Prim.hlevel props },
}

impl<V: Copy> SortedEntries<V> {
    // A table with no entries.
    pub fn new(alloc: Global) -> SortedEntries<V> {
        SortedEntries {
            entries: Vec::new(alloc),
        }
    }

    // The value of the key, if it has one.
    pub fn get(&self, key: u64) -> Option<V>
        ensures { result ≡ value_of self.now.entries.items key }
    {
        match self.find(key) {
            Ok(place) => Some(self.entries[place].1),
            Err(_) => None,
        }
    }

    // All entries, in the order of their keys.
    pub fn copied(&self, alloc: Global) -> Result<Vec<(u64, V)>, AllocError>
        ensures { IfOk result (λ copy. copy.items ≡ self.now.entries.items) }
    {
        self.entries.iter().copied().collect(alloc)
    }

    // Gives the key a value, and tells its value until then. On `Err` nothing changed; a key that
    // has a value needs no memory.
    pub fn insert(&mut self, key: u64, value: V) -> Result<Option<V>, AllocError>
        ensures previous { IfOk result (λ previous.
            previous ≡ value_of self.old.entries.items key) }
        ensures ok { OnOk result ((k : ℕ) → value_of self.new.entries.items k
            ≡ (if key == k then Some value else value_of self.old.entries.items k)) }
        ensures err { OnErr result (self.new.entries.items ≡ self.old.entries.items) }
        ensures replaces { IsSome (value_of self.old.entries.items key) → IsOk result }
    {
        match self.find(key) {
            Ok(place) => {
                let previous = self.entries[place].1;
                self.entries[place] = (key, value);
                Ok(Some(previous))
            }
            Err(place) => {
                self.entries.insert(place, (key, value))?;
                Ok(None)
            }
        }
    }

    // Takes the key out, and tells its value until then.
    pub fn remove(&mut self, key: u64) -> Option<V>
        ensures previous { result ≡ value_of self.old.entries.items key }
        ensures removed { (k : ℕ) → value_of self.new.entries.items k
            ≡ (if key == k then None else value_of self.old.entries.items k) }
    {
        match self.find(key) {
            Ok(place) => Some(self.entries.remove(place).1),
            Err(_) => None,
        }
    }

    // Where the entry of the key is, or where it would go.
    fn find(&self, key: u64) -> Result<usize, usize>
        ensures found { IfOk result (IsPlaceOf self.now.entries.items key) }
        ensures missing { IfErr result (IsGapFor self.now.entries.items key) }
    {
        self.entries.binary_search_by_key(&key, |entry| entry.0)
    }
}
