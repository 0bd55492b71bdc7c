//! This module has the laws of the machine of a fair mutex, for every state and every run.
//!
//! Each function does nothing when it is called. Its contract is the law, and speaks of the same
//! definitions as the contract of `run_fair`.

ghost use Rattle.lot_simulator.specs.FairLaws.{NewStatesAreConsistent, FairStepsKeepConsistency, WaitersKeepTheirOrder, NotifiedThreadsKeepTheirPlace, UnnotifiedThreadsSleep};

/// States that the state of a new core is consistent, and that each step keeps a state consistent.
///
/// In a consistent state at most one thread holds the mutex, and nobody waits for it while nobody
/// holds it. Each thread that is `Queued` or `Leaving` is in exactly one of the two lists, once,
/// and any other thread is in none.
pub fn fair_steps_keep_consistency()
    ensures new { NewStatesAreConsistent }
    ensures consistent { FairStepsKeepConsistency }
{}

/// States that the mutex is handed over in order of arrival.
///
/// Take a thread that waits for the mutex, and a run in which it does not come back. Either it was
/// handed the mutex, or those before it have only become fewer, from the front, and all others are
/// behind it, in their order. So the thread that queued first has the mutex first. It is not said
/// that the mutex is ever handed over.
pub fn waiters_keep_their_order()
    ensures { WaitersKeepTheirOrder }
{}

/// States that a thread which a notify moves keeps its place in the queue of the mutex.
///
/// It is behind the threads that waited for the mutex and those that were moved before it. No other
/// thread ever comes before it.
pub fn notified_threads_keep_their_place()
    ensures { NotifiedThreadsKeepTheirPlace }
{}

/// States that a thread that sleeps on the condition variable sleeps on until it is notified.
///
/// The thread has left the mutex. As long as there are no more notifies of one than other threads
/// sleep before it, and no notify of all, it sleeps on, and its wait has no outcome.
pub fn unnotified_threads_sleep()
    ensures { UnnotifiedThreadsSleep }
{}
