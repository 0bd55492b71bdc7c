//! This module has a value that is computed when it is first needed.
//!
//! # The protocol
//!
//! It is the protocol of `OnceLock`. The value is set by the thread that takes the closure out of
//! `init`. By its type there is only one closure, and it runs once. Threads that come later wait
//! for the value.
//!
//! `init` is a std mutex, of which only `try_lock` is called. A thread that finds it held need not
//! try again, because its holder takes the closure or has found it gone.

use crate::lot::Lot;
use crate::once_lock::OnceLock;
use lot_threads::NoMemory;
use std::fmt::{Debug, Formatter};
use std::sync::Wait;
use std::time::Clock;
use std::{fmt, sync};

/// A `LazyLock` computes its value by a closure when a thread first asks for it.
///
/// Here `compute` is called by the first thread that calls `force`:
///
/// ```
/// let lazy = LazyLock::new(&lot, || compute(&runs))?;
/// let value = lazy.force(rt);
/// ```
///
/// `force` requires that the closure may be called at any time.
#[derive(Drop)]
pub struct LazyLock<'l, T, F: FnOnce() -> T> {
    init: sync::Mutex<Option<F>>,
    value: OnceLock<'l, T>,
}

impl<'l, T: Drop, F: FnOnce() -> T> LazyLock<'l, T, F> {
    /// Creates a lock whose value the closure will compute.
    ///
    /// # Errors
    ///
    /// Returns `NoMemory` if there is not enough memory. This version allocates nothing.
    pub fn new(lot: &'l Lot, f: F) -> Result<LazyLock<'l, T, F>, NoMemory>
    where
        F: Drop,
    {
        let value = OnceLock::new(lot)?;
        Ok(LazyLock {
            init: sync::Mutex::new(Some(f)),
            value,
        })
    }

    /// Returns the value, and computes it by the closure if no thread has asked for it before.
    ///
    /// It waits while another thread computes the value. When the value is there, a call costs one
    /// load.
    ///
    /// A closure that asks for its own value waits for ever.
    #[inline]
    pub fn force<R: Wait + Clock>(&self, rt: &R) -> &T
        requires { (f : F) → F.pre f }
    {
        match self.get() {
            Some(value) => value,
            None => self.compute(rt),
        }
    }

    /// Returns the value if it is already computed, and otherwise `None`. It does not wait.
    #[inline]
    pub fn get(&self) -> Option<&T> {
        self.value.get()
    }

    #[cold]
    fn compute<R: Wait + Clock>(&self, rt: &R) -> &T
        requires { (f : F) → F.pre f }
    {
        match self.take_init() {
            Some(init) => self.value.finish(rt, init()),
            None => self.value.wait(rt),
        }
    }

    fn take_init(&self) -> Option<F> {
        self.init.try_lock()?.take()
    }
}

impl<T, F: FnOnce() -> T + Drop> LazyLock<'_, T, F> {
    /// Returns the value if it was computed, and ends the lock.
    ///
    /// If it was not, the closure is dropped without a call.
    pub fn into_inner(self) -> Option<T> {
        self.value.into_inner()
    }
}

impl<T: Debug, F: FnOnce() -> T> Debug for LazyLock<'_, T, F> {
    fn fmt<W: fmt::Write>(&self, f: &mut Formatter<W>) -> fmt::Result {
        match self.value.get() {
            Some(value) => f.debug_tuple("LazyLock").field(value).finish(),
            None => f.debug_tuple("LazyLock").finish_non_exhaustive(),
        }
    }
}
