//! The machines of docs/THEOREMS.md, as slow and plain as they are told there, and arbitrary steps.
//!
//! What the plain machines answer to lines of text is compared with what the lots, the records and
//! the fair mutex answer, in runs. They are there to be another word than the contracts, so they
//! have no contracts themselves, and call no lot.

pub mod arbitrary;
pub mod exclusive;
pub mod fair;
pub mod interleaved;
pub mod pairs;
pub mod record;
