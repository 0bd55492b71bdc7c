//! Marks for the allocator that counts: requests of four sizes, which it does not count itself.

use std::alloc::Global;

// The allocator has these numbers too.
const BEGIN: usize = 77_771;

const END: usize = 77_773;

const ENTER: usize = 77_775;

const LEAVE: usize = 77_777;

/// From here on requests are counted, and may be refused.
pub fn begin(alloc: Global) {
    let _ = block(alloc, BEGIN);
}

/// From here on none is.
pub fn end(alloc: Global) {
    let _ = block(alloc, END);
}

/// What is made from here on is given back until `leave`.
pub fn enter(alloc: Global) {
    let _ = block(alloc, ENTER);
}

/// All that was made since `enter` was given back.
pub fn leave(alloc: Global) {
    let _ = block(alloc, LEAVE);
}

// A compiler may leave out a request whose block it sees given back, so this is a call.
#[inline(never)]
fn block(alloc: Global, size: usize) -> Option<Vec<u8>> {
    Vec::with_capacity(alloc, size).ok()
}
