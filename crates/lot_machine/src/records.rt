//! This module has the records of what a thread holds.

ghost use Rattle.std.specs.Prelude.{◌≡◌, OnOk, OnErr, []};
ghost use Rattle.lot_machine.specs.Records.{times_recorded, one_more, one_less};

use lot_base::token::NoMemory;
use std::alloc::Global;
use std::marker::Model;

/// `Records` has keys, each as often as it was recorded.
///
/// The key that was recorded last is mostly the first to be released, so a release searches from
/// the end.
#[derive(Drop)]
pub struct Records {
    keys: Vec<usize>,
}

impl Model for Records {
    ghost use Rattle.std.specs.Prelude.{ℕ, List};

    ghost Value = { List ℕ };

    ghost view = { λ records. records.keys.items };
}

impl Records {
    /// Creates empty records. It allocates nothing.
    pub fn new(alloc: Global) -> Records
        ensures { result ≡ [] }
    {
        Records {
            keys: Vec::new(alloc),
        }
    }

    /// Records the key once more. It may allocate.
    ///
    /// # Errors
    ///
    /// Returns `NoMemory` if there is not enough memory. Nothing was changed then.
    pub fn acquire(&mut self, key: usize) -> Result<(), NoMemory>
        ensures ok { OnOk result (times_recorded self.new
            ≡ one_more (times_recorded self.old) key) }
        ensures err { OnErr result (self.new ≡ self.old) }
    {
        self.keys.push(key)?;
        Ok(())
    }

    /// Records the key once less, if it was recorded.
    ///
    /// It visits the keys from the end, up to the one that it removes.
    pub fn release(&mut self, key: usize)
        ensures { times_recorded self.new ≡ one_less (times_recorded self.old) key }
    {
        if let Some(index) = self.keys.iter().rposition(|&recorded| recorded == key) {
            self.keys.swap_remove(index);
        }
    }

    /// Removes all records, and frees their memory.
    pub fn clear(&mut self)
        ensures { self.new ≡ [] }
    {
        self.keys = Vec::new(*self.keys.allocator());
    }

    /// Returns how often the key is recorded. It visits all keys.
    pub fn times(&self, key: usize) -> usize
        ensures { result ≡ times_recorded self.now key }
    {
        self.keys
            .iter()
            .filter(|&&recorded| recorded == key)
            .count()
    }
}
