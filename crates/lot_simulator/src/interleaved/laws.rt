//! This module has the laws of the interleaved machine, for every state and every run.
//!
//! Each function does nothing when it is called. Its contract is the law, and speaks of the
//! definitions of the interleaved machine.

ghost use Rattle.lot_simulator.specs.InterleavedLaws.{NewStatesStandForNewMachines, NewFineStatesAreConsistent, FineStepsKeepConsistency, FineAnswersFixTheState, EveryInterleavingIsARun, InterleavedOutcomesAlternate, EachNodeIsInOnePlace, NoNodeIsInAnotherList, InterleavedThreadsComeBack, EachFineStepHasAnAnswer, NoOtherFineAnswer, OnlyFineMemoryIsOpen, BlockedNeedsASection, NoneIsBlockedByNobody};

/// States that every interleaved run from a consistent state amounts to a run of the machine with
/// one list of waiters for each key.
///
/// The sequential steps of the run, with their answers, lead from the sequential view of its first
/// state to that of its last.
pub fn every_interleaving_is_a_run()
    ensures { EveryInterleavingIsARun }
{}

/// States that in the answers of every interleaved run from a consistent state the parks and
/// outcomes of each thread take turns.
///
/// So no park has two outcomes.
pub fn interleaved_outcomes_alternate()
    ensures { InterleavedOutcomesAlternate }
{}

/// States that the threads which an interleaved run unparked are as many as those that came back
/// and those that are still on their way.
///
/// The run has to begin with a consistent state. Threads that open sections or slots already had
/// before the run are counted with those that were unparked. A thread is still on its way if an
/// open section or its slot has its node at the end.
pub fn interleaved_threads_come_back()
    ensures { InterleavedThreadsComeBack }
{}

/// States that in a consistent state the node of each registered thread is in exactly one place.
///
/// It is with the thread, in the list of the thread's key word, among the nodes that open sections
/// took, or in the thread's slot.
pub fn each_node_is_in_one_place()
    ensures one { EachNodeIsInOnePlace }
    ensures no_other { NoNodeIsInAnotherList }
{}

/// States that a new interleaved state stands for a new machine and is consistent, and that each
/// step keeps a state consistent.
pub fn fine_steps_keep_consistency()
    ensures view { NewStatesStandForNewMachines }
    ensures new { NewFineStatesAreConsistent }
    ensures step { FineStepsKeepConsistency }
{}

/// States that an interleaved step and its answer determine the state after it.
pub fn fine_answers_fix_the_state()
    ensures { FineAnswersFixTheState }
{}

/// States that each interleaved step of a consistent state has an answer, and only one, except that
/// it may also lack memory.
///
/// `NoMemory` is possible in three cases: a registration that is neither full nor blocked, an
/// acquire of a running thread, and a trim of a table that is too large, while no section is open.
pub fn each_fine_step_has_one_answer()
    ensures some { EachFineStepHasAnAnswer }
    ensures one { NoOtherFineAnswer }
    ensures memory { OnlyFineMemoryIsOpen }
{}

/// States that a step of a consistent state is answered `Blocked` only if an open section holds a
/// bucket that the step needs.
///
/// If no section is open, no step is answered so.
pub fn blocked_needs_a_section()
    ensures section { BlockedNeedsASection }
    ensures none { NoneIsBlockedByNobody }
{}
