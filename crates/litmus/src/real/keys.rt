//! Keys of a lot whose buckets are as those of the keys of a test.

use lot_litmus::code::{KEYS, Key};
use lot_litmus::test::Test;
use lot_threads::place;

// Keys with one place in a table of this size have one in each smaller table, and with the places
// that are chosen here, those with two have two. The lot of a test has 16 or 32 buckets.
const SIZE: usize = 64;

// How many keys are looked at for one with the place that is wanted. About one in `SIZE` has it.
const LOOKS: usize = 10_000;

/// The lot's key for each key of a test.
#[derive(Clone, Copy)]
pub struct LotKeys {
    numbers: [usize; KEYS],
}

impl LotKeys {
    /// Keys of which two have one bucket on the lot if and only if the two of the test have.
    pub fn of(test: &Test) -> LotKeys {
        let mut keys = LotKeys { numbers: [0; KEYS] };
        let mut next = 0usize;
        for number in 0..KEYS as u8 {
            let own = Key { number };
            let key = first_at(next, SIZE / KEYS * test.bucket(own).index());
            keys.numbers[own.index()] = key;
            next = key.saturating_add(1);
        }
        keys
    }

    /// The lot's key for this one.
    pub fn number(&self, key: Key) -> usize {
        self.numbers[key.index()]
    }

    /// The key of the test that has this one on the lot.
    pub fn key(&self, number: usize) -> Option<Key> {
        for index in 0..KEYS as u8 {
            let key = Key { number: index };
            if self.number(key) == number {
                return Some(key);
            }
        }
        None
    }
}

// The first key from this one on that has the place.
#[tactic(auto, using(crate::proofs::TableSize::is_table_size_64))]
fn first_at(from: usize, wanted: usize) -> usize {
    for ahead in 0..LOOKS {
        let key = from.saturating_add(ahead);
        if place(key, SIZE) == wanted {
            return key;
        }
    }
    from
}
