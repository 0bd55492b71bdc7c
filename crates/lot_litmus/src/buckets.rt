//! Which buckets threads have locked.

ghost use Rattle.std.specs.Prelude.{◌≡◌};
ghost use Rattle.lot_litmus.specs.Steps.{unlocked, locking, bucket_of, is_free};
ghost use Rattle.lot_litmus.specs.View.{configuration_of};

use crate::code::{Key, Thread};
use crate::state::{Progress, State};
use crate::test::Test;

impl Test {
    /// Returns the bucket of the key.
    pub fn bucket(&self, key: Key) -> Key
        ensures { result.number ≡ bucket_of self.now key.number }
    {
        self.buckets[key.index()]
    }
}

impl Progress {
    /// Returns this progress with the bucket of the key locked too.
    pub fn locking(self, test: &Test, key: Key) -> Progress
        ensures { result ≡ locking test.now key.number self }
    {
        let mut next = self;
        next.locked[test.bucket(key).index()] = true;
        next
    }
}

impl State {
    /// Whether no other thread has locked the bucket of the key.
    pub(crate) fn is_free(&self, test: &Test, thread: Thread, progress: Progress, key: Key) -> bool
        ensures { result ≡ is_free test.now (configuration_of self.now) thread.number progress
            key.number }
    {
        let bucket = test.bucket(key);
        let mut others = self.threads;
        others[thread.index()] = progress.unlocked();
        for other in others {
            if other.locked[bucket.index()] {
                return false;
            }
        }
        true
    }
}
