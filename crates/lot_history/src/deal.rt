//! For which lock's table a title was dealt.

ghost use base.Fml.{ftrue};
ghost use Rattle.atomic_table.specs.Seated.{TableId, table_id_coded};

use std::marker::Model;

/// The title of a key was dealt, once and for good, for the table of one lock. No value of it is
/// made: proofs alone speak of it.
pub struct Deal {
    /// The key.
    pub key: u64,

    /// The table of the lock.
    pub ghost home: { TableId } by { table_id_coded },
}

impl Model for Deal {
    ghost also_owns = { λ _. ftrue };
}
