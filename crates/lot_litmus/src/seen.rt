//! This module has the hash table by which a search finds states again.

ghost use Rattle.std.specs.Prelude.{IfSome, true};

use std::alloc::{AllocError, Global};
use std::mem;

/// A `Seen` is a hash table of indices.
///
/// An index is at the place that its hash gives, or in a later place if others are there.
#[derive(Drop)]
pub struct Seen {
    // Their number is 0 or a power of two.
    places: Vec<Noted>,
    noted: usize,
}

// An index, with its hash.
#[derive(Clone, Copy)]
struct Noted {
    hash: u32,
    index: u32,
}

impl Noted {
    // What is in a free place. No search has so many states.
    const NOTHING: Noted = Noted {
        hash: 0,
        index: u32::MAX,
    };

    fn is_free(self) -> bool {
        self.index == u32::MAX
    }
}

impl Seen {
    /// Creates an empty table. It allocates nothing.
    pub fn new(alloc: Global) -> Seen {
        Seen {
            places: Vec::new(alloc),
            noted: 0,
        }
    }

    /// Adds an index with its hash. The index `u32::MAX` cannot be found again.
    ///
    /// # Errors
    ///
    /// Returns `AllocError` if there is not enough memory.
    pub fn note(&mut self, hash: u32, index: u32) -> Result<(), AllocError> {
        if self.noted >= self.places.len() / 4 * 3 {
            self.grow()?;
        }
        self.put(Noted { hash, index });
        self.noted = self.noted.saturating_add(1);
        Ok(())
    }

    // Makes twice as many places.
    fn grow(&mut self) -> Result<(), AllocError> {
        let places = self.places.len().saturating_mul(2).max(LEAST_PLACES);
        let larger = vec![in *self.places.allocator(); Noted::NOTHING; places]?;
        let old = mem::replace(&mut self.places, larger);
        for &noted in &old {
            if !noted.is_free() {
                self.put(noted);
            }
        }
        Ok(())
    }

    // Puts it at the first free place.
    fn put(&mut self, noted: Noted) {
        let mut place = self.first_place(noted.hash);
        for _ in 0..self.places.len() {
            if let Some(other) = self.places.get_mut(place)
                && other.is_free()
            {
                *other = noted;
                return;
            }
            place = self.next_place(place);
        }
    }

    /// Returns an index that was added with this hash and for which the closure returns true.
    pub fn find<F: Fn(u32) -> bool>(&self, hash: u32, is_it: F) -> Option<u32>
        requires { F.IsAlwaysCallable is_it }
        ensures { IfSome result (λ index. F.post is_it index true) }
    {
        let mut place = self.first_place(hash);
        for _ in 0..self.places.len() {
            let Some(&noted) = self.places.get(place) else {
                return None;
            };
            if noted.is_free() {
                return None;
            }
            if noted.hash == hash && is_it(noted.index) {
                return Some(noted.index);
            }
            place = self.next_place(place);
        }
        None
    }

    // Where an index with this hash is, if no other is there.
    fn first_place(&self, hash: u32) -> usize {
        hash as usize & self.places.len().wrapping_sub(1)
    }

    // The place behind this one, or the first behind the last.
    fn next_place(&self, place: usize) -> usize {
        place.wrapping_add(1) & self.places.len().wrapping_sub(1)
    }
}

// How many places there are at first.
const LEAST_PLACES: usize = 64;
