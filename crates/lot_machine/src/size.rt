//! This module says how many buckets a table has.

ghost use Rattle.std.specs.Prelude.{◌*◌, ◌≤◌};
ghost use Rattle.lot_base.specs.Place.{IsTableSize};
ghost use Rattle.lot_machine.specs.Size.{IsSizeFor, IsTrimmedSize};

use crate::numbers::MAX_THREADS;

/// This is the number of buckets of a new table.
pub const INITIAL_BUCKETS: usize = 16;

/// This is the least number of buckets that a table has for each registered thread.
pub const BUCKETS_PER_THREAD: usize = 3;

// For how many threads a table has buckets where fewer are registered, as at first.
const LEAST_THREADS: usize = 3;

/// Returns the size that a table of `size` buckets takes when `threads` threads are registered.
///
/// It is `size` if that is at least 3 buckets for each thread. Otherwise it is the least power of
/// two that is.
pub fn size_for(threads: usize, size: usize) -> usize
    requires size { IsTableSize size }
    requires threads { threads ≤ MAX_THREADS }
    ensures size { IsSizeFor threads size result }
    ensures table { IsTableSize result }
    ensures room { 3 * threads ≤ result }
{
    let wanted = BUCKETS_PER_THREAD * threads;
    if wanted <= size {
        return size;
    }
    wanted.next_power_of_two()
}

/// Returns the size that a trim gives to a table of `size` buckets with `threads` registered
/// threads.
///
/// It is the least power of two that is at least 3 buckets for each thread, where fewer than 3
/// threads count as 3. If `size` is smaller than that, it stays.
pub fn trimmed_size(threads: usize, size: usize) -> usize
    requires size { IsTableSize size }
    requires room { 3 * threads ≤ size }
    ensures size { IsTrimmedSize threads size result }
    ensures table { IsTableSize result }
    ensures room { 3 * threads ≤ result }
{
    let least = (BUCKETS_PER_THREAD * threads.max(LEAST_THREADS)).next_power_of_two();
    least.min(size)
}
