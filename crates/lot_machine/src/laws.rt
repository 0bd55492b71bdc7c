//! This module has the laws of the machine, for every machine and every run.
//!
//! Each function does nothing when it is called. Its contract is the law, and speaks of the same
//! definitions as the contracts of the lots.

ghost use Rattle.lot_machine.specs.Laws.{StepAndAnswerFixTheState, AnswersFixTheRun, EachStepHasAnAnswer, NoOtherAnswer, OnlyMemoryIsOpen, AbortChangesNothing, ReleaseUndoesAcquire, NewMachinesAreConsistent, StepsKeepConsistency, ListsAreShort, AnswersCountThreads, ParksAndOutcomesAlternate};
ghost use Rattle.lot_machine.specs.Totals.{UnparkedThreadsComeBack};

/// States that a step and its answer determine the state after it.
///
/// So two lots that mean the same machine, take the same steps and give the same answers mean the
/// same machine afterwards. `lot_simulator::schedule::run` says which answers it gives.
pub fn answers_fix_the_run()
    ensures step { StepAndAnswerFixTheState }
    ensures run { AnswersFixTheRun }
{}

/// States that each step of a consistent machine has an answer, and only one, except that it may
/// also lack memory.
///
/// `NoMemory` is possible in three cases: a registration while a number is free, an acquire of a
/// running thread, and a trim. It changes nothing. The machine of every lot is consistent.
pub fn each_step_has_one_answer()
    ensures some { EachStepHasAnAnswer }
    ensures one { NoOtherAnswer }
    ensures memory { OnlyMemoryIsOpen }
{}

/// States that a requeue that aborts changes nothing.
pub fn abort_changes_nothing()
    ensures { AbortChangesNothing }
{}

/// States that an acquire that is recorded, and then a release of the key by the same thread, leave
/// everything as it was.
///
/// The release is never refused.
pub fn release_undoes_acquire()
    ensures { ReleaseUndoesAcquire }
{}

/// States that a new machine is consistent, and that each step keeps a machine consistent.
///
/// In a consistent machine no list is longer than the greatest number of threads, and the answer to
/// a step says how many threads are registered after it.
pub fn steps_keep_consistency()
    ensures new { NewMachinesAreConsistent }
    ensures consistent { StepsKeepConsistency }
    ensures lists { ListsAreShort }
    ensures threads { AnswersCountThreads }
{}

/// States that for each thread `Entered` and the outcomes `TimedOut` and `Unparked` take turns in
/// the answers of every run.
///
/// The run has to begin with a consistent machine. An outcome comes first only if the thread was
/// already waiting, late or taken before the run. So a park has at most one outcome, and no outcome
/// comes without a park.
pub fn parks_and_outcomes_alternate()
    ensures { ParksAndOutcomesAlternate }
{}

/// States that the threads which the unparks of a run took are as many as those that came back and
/// those that are still on their way.
///
/// The run has to begin with a consistent machine. Threads that were already taken before the run
/// are counted with those that its unparks took.
pub fn unparked_threads_come_back()
    ensures { UnparkedThreadsComeBack }
{}
