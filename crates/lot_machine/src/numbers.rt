//! This module has the numbers under which threads are registered.

ghost use Rattle.std.specs.Prelude.{◌≡◌, ◌≢◌, ◌↔◌, ◌+◌, ◌<◌, ◌≤◌, Some, Err, IfSome, IfNone, IsErrOf, IfOk, length, replicate, slice_get, slice_set};
ghost use Rattle.lot_machine.specs.Numbers.{count_registered, AreRegisteredBelow, IsLeastUnregistered};

use lot_base::token::{LotError, NoMemory};
use std::alloc::Global;
use std::marker::Model;
use std::mem;

/// This is the greatest number of threads for which a lot can be created.
pub const MAX_THREADS: usize = 16_384;

/// A `Use` says whether a thread number is registered.
#[derive(Copy, Clone, Eq, PartialEq, Debug)]
pub enum Use {
    /// The number can be given to a thread.
    Free,

    /// A thread has the number.
    Registered,
}

/// `Numbers` records which thread numbers are registered, and how many.
///
/// There are at most `MAX_THREADS` numbers.
#[derive(Drop)]
pub struct Numbers {
    uses: Vec<Use>,
    registered: usize,

    // All numbers below it are registered, so whoever looks for a free one begins here.
    search_from: usize,
}

impl Model for Numbers {
    ghost use Rattle.std.specs.Prelude.{List};
    ghost use Rattle.lot_machine.specs.declared.numbers.Use.{Use};

    ghost Value = { List Use };

    ghost use Rattle.std.specs.Prelude.{◌≡◌, ◌≤◌, length};
    ghost use Rattle.lot_machine.specs.declared.numbers.TheConstants.{MAX_THREADS};
    ghost use Rattle.lot_machine.specs.Numbers.{count_registered, AreRegisteredBelow};

    ghost view = { λ numbers. numbers.uses.items };

    ghost invariant = { λ numbers. (numbers.registered ≡ count_registered numbers.uses.items)
        × (length numbers.uses.items ≤ MAX_THREADS)
        × AreRegisteredBelow numbers.uses.items numbers.search_from };
}

impl Numbers {
    /// Creates `max` numbers, from 0 on, none of which is registered.
    ///
    /// It allocates the room for all of them, and no other call allocates.
    ///
    /// # Errors
    ///
    /// Returns `TooManyThreads` if and only if `max` is above `MAX_THREADS`. Otherwise returns
    /// `NoMemory` if there is not enough memory.
    pub fn new(alloc: Global, max: usize) -> Result<Numbers, LotError>
        ensures too_many { IsErrOf result LotError.TooManyThreads ↔ (MAX_THREADS < max) }
        ensures not_full { result ≢ Err LotError.Full }
        ensures free { IfOk result (λ numbers. numbers ≡ replicate max Use.Free) }
    {
        if max > MAX_THREADS {
            return Err(LotError::TooManyThreads);
        }
        let uses = free_uses(alloc, max)?;
        Ok(Numbers {
            uses,
            registered: 0,
            search_from: 0,
        })
    }

    /// Returns how many numbers are registered.
    pub fn registered(&self) -> usize
        ensures { result ≡ count_registered self.now }
    {
        self.registered
    }

    /// Returns the least number that is not registered, or `None` if all are.
    ///
    /// It begins after the number that was registered last, or at the least one that was released
    /// since, and looks at the numbers up to the one that it returns. So threads that register one
    /// after another look at each number once.
    pub fn least_free(&self) -> Option<usize>
        ensures some { IfSome result (IsLeastUnregistered self.now) }
        ensures few { IfSome result (λ _. count_registered self.now < MAX_THREADS) }
        ensures none { IfNone result (count_registered self.now ≡ length self.now) }
    {
        least_free_of(&self.uses, self.search_from)
    }

    /// Registers the least free number, which `number` has to be.
    pub fn register(&mut self, number: usize)
        requires { IsLeastUnregistered self.old number }
        ensures registered { self.new ≡ slice_set self.old number Use.Registered }
        ensures count { count_registered self.new ≡ count_registered self.old + 1 }
    {
        self.uses[number] = Use::Registered;
        self.registered += 1;
        self.search_from = number + 1;
    }

    /// Frees the number. If it is not registered, nothing changes.
    pub fn release(&mut self, number: usize)
        ensures not_registered { slice_get self.old number ≢ Some Use.Registered → self.new
            ≡ self.old }
        ensures freed { self.new ≡ slice_set self.old number Use.Free }
        ensures count { count_registered self.new ≤ count_registered self.old }
    {
        let Some(released) = self.uses.get_mut(number) else {
            return;
        };
        if let Use::Registered = mem::replace(released, Use::Free) {
            self.registered -= 1;
            self.search_from = self.search_from.min(number);
        }
    }
}

// The uses of so many numbers, none of them registered.
fn free_uses(alloc: Global, max: usize) -> Result<Vec<Use>, NoMemory>
    ensures { IfOk result (λ uses. uses.items ≡ replicate max Use.Free) }
{
    let mut uses = Vec::with_capacity(alloc, max)?;
    for _ in 0..max {
        uses.push(Use::Free)?;
    }
    Ok(uses)
}

// The least number that is not registered, if there is one, where all below the first are.
fn least_free_of(uses: &Vec<Use>, first: usize) -> Option<usize>
    requires { AreRegisteredBelow uses.now.items first }
    ensures some { IfSome result (IsLeastUnregistered uses.now.items) }
    ensures none { IfNone result (count_registered uses.now.items ≡ length uses.now.items) }
{
    for number in first..uses.len() {
        if let Use::Free = uses[number] {
            return Some(number);
        }
    }
    None
}
