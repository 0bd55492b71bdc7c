//! The callers that the documents of the other crates show, as they stand there.

pub mod count_by_two;
pub mod greatest;
pub mod hand_back;
pub mod let_expire;
pub mod mutex_accounts;
pub mod open;
pub mod pass_on;
pub mod register_and_park;
pub mod take_ticket;
pub mod tell_of_a_trim;
pub mod wait;
pub mod ways_out;
pub mod word_lock_accounts;
