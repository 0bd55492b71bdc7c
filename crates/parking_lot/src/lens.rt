//! This module has guards of a part of a value, and lenses, which name such parts.

ghost use Rattle.std.specs.Prelude.{◌≡◌, IfErr, IfOk};
ghost use Rattle.parking_lot.specs.Guards.{lens_of, whole_of};

use crate::guard::{Guard, Release};
use std::ops::{Deref, DerefMut};

/// A `Lens` names a part of a value, for example one field of a struct.
///
/// Here `Second` names the second number of a pair of numbers:
///
/// ```
/// impl Lens<Pair> for Second {
///     type Part = usize;
///
///     fn part<'a>(&self, whole: &'a Pair) -> &'a usize {
///         &whole.1
///     }
///
///     fn part_mut<'a>(&self, whole: &'a mut Pair) -> &'a mut usize {
///         &mut whole.1
///     }
/// }
/// ```
///
/// `Guard::map` takes a lens and gives access to that part alone.
pub trait Lens<T>: Drop {
    /// The type of the part.
    type Part;

    /// Returns a shared reference to the part.
    fn part<'a>(&self, whole: &'a T) -> &'a Self::Part;

    /// Returns a mutable reference to the part.
    fn part_mut<'a>(&self, whole: &'a mut T) -> &'a mut Self::Part;
}

/// A `MappedGuard` gives access to a part of the value of a lock, and releases the lock when it is
/// dropped.
#[derive(Drop)]
pub struct MappedGuard<G, L: Release<G>, N: Drop> {
    guard: Guard<G, L>,
    lens: N,
}

impl<G: Deref, L: Release<G>> Guard<G, L> {
    /// Returns a guard of the part that the lens names, while the lock stays locked.
    ///
    /// ```
    /// let mut part = Guard::map(mutex.lock(rt), Second);
    /// *part = 3;
    /// ```
    pub fn map<N: Lens<G::Target>>(guard: Guard<G, L>, lens: N) -> MappedGuard<G, L, N>
        ensures guard { whole_of result ≡ guard }
        ensures lens { lens_of result ≡ lens }
    {
        MappedGuard { guard, lens }
    }

    /// Lets the closure look at the value and choose a lens, and returns a guard of the part that
    /// this lens names.
    ///
    /// Here `choose_second` returns `Some(Second)` or `None`:
    ///
    /// ```
    /// let chosen = Guard::try_map(mutex.lock(rt), choose_second).ok();
    /// ```
    ///
    /// # Errors
    ///
    /// Returns the guard if the closure chooses no lens. The lock is still locked then.
    pub fn try_map<N: Lens<G::Target>, C: FnOnce(&G::Target) -> Option<N>>(
        guard: Guard<G, L>,
        choose: C,
    ) -> Result<MappedGuard<G, L, N>, Guard<G, L>>
        requires { C.IsAlwaysCallable choose }
        ensures ok { IfOk result (λ mapped. whole_of mapped ≡ guard) }
        ensures err { IfErr result (λ back. back ≡ guard) }
    {
        match choose(guard.deref()) {
            Some(lens) => Ok(MappedGuard { guard, lens }),
            None => Err(guard),
        }
    }
}

impl<G: Deref, L: Release<G>, N: Lens<G::Target>> Deref for MappedGuard<G, L, N> {
    type Target = N::Part;

    #[inline]
    fn deref(&self) -> &N::Part {
        self.lens.part(self.guard.deref())
    }
}

impl<G: DerefMut, L: Release<G>, N: Lens<G::Target>> DerefMut for MappedGuard<G, L, N> {
    #[inline]
    fn deref_mut(&mut self) -> &mut N::Part {
        self.lens.part_mut(self.guard.deref_mut())
    }
}
