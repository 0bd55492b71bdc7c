//! This module has the guard that all locks share: it gives access to a value for as long as it
//! lives.

ghost use Rattle.std.specs.Prelude.{◌≡◌};

use std::ops::{Deref, DerefMut};

/// `Release` says how a lock is released.
///
/// `G` is what a thread holds while it has the lock.
pub trait Release<G> {
    /// Releases the lock, and wakes threads that may have it next, if any wait.
    fn release(self, held: G);
}

/// A `Guard` gives access to the value of a lock, and releases the lock when it is dropped.
///
/// Each lock has its own name for its guards, such as `MutexGuard`.
///
/// The type of what a guard holds need not implement `Drop`, so the compiler does not let the guard
/// drop it. The guard has to hand it to `Release::release`.
pub struct Guard<G, L: Release<G>> {
    held: G,
    lock: L,
}

impl<G, L: Release<G>> Guard<G, L> {
    #[inline]
    pub(crate) fn new(held: G, lock: L) -> Guard<G, L>
        ensures { result ≡ record { held = held; lock = lock } }
    {
        Guard { held, lock }
    }

    // What the guard holds and the lock that it holds it of. Whoever calls it lets the lock go.
    #[inline]
    pub(crate) fn into_parts(self) -> (G, L)
        ensures held { result.0 ≡ self.held }
        ensures lock { result.1 ≡ self.lock }
    {
        let Guard { held, lock } = self;
        (held, lock)
    }

    pub(crate) fn lock(&self) -> &L
        ensures { result.now ≡ self.now.lock }
    {
        &self.lock
    }
}

impl<G: Deref, L: Release<G>> Deref for Guard<G, L> {
    type Target = G::Target;

    ghost deref_gives = { λ guard x. G.deref_gives guard.held x };

    #[inline]
    fn deref(&self) -> &G::Target {
        self.held.deref()
    }
}

impl<G: DerefMut, L: Release<G>> DerefMut for Guard<G, L> {
    ghost deref_mut_gives = { λ guard x. G.deref_mut_gives guard.held x };

    #[inline]
    fn deref_mut(&mut self) -> &mut G::Target {
        held_mut(self).deref_mut()
    }
}

// What is written through it is what the guard shows: the check sees that by a call, and not
// through a field.
#[inline]
fn held_mut<G, L: Release<G>>(guard: &mut Guard<G, L>) -> &mut G
    ensures { result.now ≡ guard.old.held }
{
    &mut guard.held
}

impl<G, L: Release<G>> Drop for Guard<G, L> {
    #[inline]
    fn drop(self) {
        let Self { held, lock } = self;
        lock.release(held);
    }
}
