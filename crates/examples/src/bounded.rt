//! A row of values with room for so many, without threads.

ghost use Rattle.std.specs.Prelude.{◌≡◌, ◌↔◌, ◌<◌, ◌≤◌, [], ◌∷◌, ◌++◌, length, drop, slice_get};
ghost use Rattle.std.specs.Prelude.{IfOk, IsTrue};

use std::alloc::{AllocError, Global};
use std::collections::VecDeque;
use std::marker::Model;

/// Values, first to last, of which there are never more than there is room for. To make it asks for
/// memory, and no other call does.
#[derive(Drop)]
pub struct Bounded<T> {
    values: VecDeque<T>,
    capacity: usize,
}

impl<T> Model for Bounded<T> {
    ghost use Rattle.std.specs.Prelude.{◌≤◌};
    ghost use Rattle.std.specs.VecDeque.{deque_capacity, deque_len};
    ghost use Rattle.examples.specs.BoundedState.{BoundedState};

    ghost Value = { BoundedState T };

    ghost view = { λ row. record { values = row.values.items; capacity = row.capacity } };

    ghost invariant = { λ row. (deque_len row.values ≤ row.capacity)
        × (row.capacity ≤ deque_capacity row.values) };
}

impl<T> Bounded<T> {
    /// No values, with room for so many.
    pub fn new(alloc: Global, capacity: usize) -> Result<Bounded<T>, AllocError>
        ensures { IfOk result (λ row. row ≡ record { values = []; capacity = capacity }) }
    {
        Ok(Bounded {
            values: VecDeque::with_capacity(alloc, capacity)?,
            capacity,
        })
    }

    /// Whether there is no room for one more.
    pub fn is_full(&self) -> bool
        ensures { IsTrue result ↔ (self.now.capacity ≤ length self.now.values) }
    {
        self.values.len() >= self.capacity
    }

    /// Whether there is none.
    pub fn is_empty(&self) -> bool
        ensures { IsTrue result ↔ (self.now.values ≡ []) }
    {
        self.values.is_empty()
    }

    /// Puts a value last.
    pub fn put(&mut self, value: T)
        requires { length self.old.values < self.old.capacity }
        ensures { self.new ≡ record self.old { values = self.old.values ++ value ∷ [] } }
    {
        self.values.push_back_reserved(value);
    }

    /// Takes the first value out, if there is one.
    pub fn take(&mut self) -> Option<T>
        ensures first { result ≡ slice_get self.old.values 0 }
        ensures rest { self.new ≡ record self.old { values = drop 1 self.old.values } }
    {
        self.values.pop_front()
    }
}
