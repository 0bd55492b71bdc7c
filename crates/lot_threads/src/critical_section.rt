//! This module has the critical section that a lot lends to a closure while it calls the closure.

use lot_history::history::Part;

/// A `CriticalSection` shows that the bucket of a key is locked, and with it the bucket's part of
/// the history.
///
/// A call of the lot lends it to the closures that it calls in a critical section. Nothing else
/// makes one, so a closure that takes one is called at no other time.
///
/// In contracts `waiters_in` is the list of the threads that wait on a key in this critical
/// section, in order. The value has no bytes, and no `Drop`.
pub struct CriticalSection {
    pub(crate) part: Part,
}
