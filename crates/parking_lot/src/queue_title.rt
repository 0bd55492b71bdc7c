//! This module has the titles of queues in a `TitledLot`, as the words of titled locks keep them.

ghost use Rattle.std.specs.Prelude.{◌≡◌, [], IfOk};
ghost use Rattle.lot_threads.specs.Titled.{told_by};
ghost use Rattle.parking_lot.specs.Queues.{FitsQueue, IsQueueOf};

use crate::titled_lot::Queues;
use lock_words::stock::Tells;
use lot_threads::{NoMemory, Title, Witness};
use std::sync::Wait;

/// In proofs, a `QueueKey` names the key and the lot of a title. Nothing reads its lot.
#[derive(Drop)]
pub struct QueueKey {
    pub(crate) key: usize,
    pub(crate) home: Witness,
}

/// A `QueueTitle` is the title of a lock's queue, as it lies in the table of the lock's word.
#[derive(Drop)]
pub struct QueueTitle {
    pub(crate) title: Title,
}

impl Tells for QueueTitle {
    type Key = QueueKey;

    ghost told = { λ queue. told_by queue.title };

    ghost fits = { λ key queue. FitsQueue key queue.title };
}

impl QueueTitle {
    /// Deals the next key of the lot, and returns its title, which tells of nobody, and the key.
    ///
    /// # Errors
    ///
    /// Returns `NoMemory` if all keys of the lot are dealt, which are more than a program has
    /// memory for.
    pub(crate) fn deal<R: Wait>(rt: &R, lot: &Queues) -> Result<(QueueTitle, QueueKey), NoMemory>
        ensures queue { IfOk result (λ dealt. IsQueueOf lot.now dealt.1.key dealt.1) }
        ensures fits { IfOk result (λ dealt. FitsQueue dealt.1 dealt.0.title) }
        ensures nobody { IfOk result (λ dealt. told_by dealt.0.title ≡ []) }
    {
        let (key, title) = lot.deal(rt).ok_or(NoMemory)?;
        let home = lot.witness();
        Ok((QueueTitle { title }, QueueKey { key, home }))
    }
}
