//! Handles of threads that are still to be woken, kept without asking for memory.

ghost use Rattle.std.specs.Prelude.{◌≡◌, ◌+◌, ◌≤◌, ℕ, IsSome, IsNone};

/// How many handles there is room for.
pub(super) const HANDLES: usize = 8;

/// Room for eight handles. It is a nest of pairs, since an array of a type parameter's values is
/// not provable today.
pub(crate) type Handles<H> = Pair<Pair<Pair<Option<H>>>>;

/// Room for some handles. Those that are kept before any is taken come out in the order in which
/// they were kept.
pub(crate) trait Room<H>: Drop {
    /// For how many handles there is room.
    ghost capacity: { ℕ };

    /// How many handles are kept.
    ghost kept: { Self → ℕ };

    /// Room with no handle in it.
    fn empty() -> Self
        ensures { kept result ≡ 0 };

    /// Keeps the handle, or gives it back if there is no room.
    fn put(&mut self, handle: H) -> Option<H>
        ensures kept { IsNone result → kept self.new ≡ kept self.old + 1 }
        ensures full { IsSome result → (kept self.new ≡ kept self.old)
            × (capacity ≤ kept self.old) };

    /// Takes one of the handles, if there is any.
    fn take(&mut self) -> Option<H>
        ensures taken { IsSome result → kept self.old ≡ kept self.new + 1 }
        ensures none { IsNone result → (kept self.old ≡ 0) × (kept self.new ≡ 0) };
}

impl<H: Drop> Room<H> for Option<H> {
    ghost use Rattle.lot_threads.specs.Handles.{kept_in_option};

    ghost capacity = { 1 };

    ghost kept = { λ room. kept_in_option room };

    fn empty() -> Option<H> {
        None
    }

    fn put(&mut self, handle: H) -> Option<H> {
        if self.is_some() {
            return Some(handle);
        }
        *self = Some(handle);
        None
    }

    fn take(&mut self) -> Option<H> {
        Option::take(self)
    }
}

/// The room of two.
#[derive(Drop)]
pub(crate) struct Pair<R> {
    first: R,
    second: R,
}

impl<H: Drop, R: Room<H>> Room<H> for Pair<R> {
    ghost use Rattle.std.specs.Prelude.{◌+◌};
    ghost use Rattle.lot_threads.specs.Handles.{kept_in_pair};

    ghost capacity = { R.capacity + R.capacity };

    ghost kept = { λ pair. kept_in_pair R.kept pair };

    fn empty() -> Pair<R> {
        Pair {
            first: R::empty(),
            second: R::empty(),
        }
    }

    fn put(&mut self, handle: H) -> Option<H> {
        let handle = self.first.put(handle)?;
        self.second.put(handle)
    }

    fn take(&mut self) -> Option<H> {
        match self.first.take() {
            Some(handle) => Some(handle),
            None => self.second.take(),
        }
    }
}
