//! This module has the laws of a lot's calls.
//!
//! Its functions do nothing. Their contracts are the laws, and use the definitions that the
//! contracts of `Member` use.

ghost use Rattle.lot_threads.specs.Laws.{ParksGetTokensOfUnparks};

/// States that a token which a park returns was handed to that thread by an unpark before it.
///
/// The unpark took the thread from its list, and none of the thread's parks ended between the
/// unpark and this return.
pub fn parks_get_tokens_of_unparks()
    ensures { ParksGetTokensOfUnparks }
{}
