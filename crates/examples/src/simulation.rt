//! Simulations: what the tasks of a lot do, and what they learn.

ghost use Rattle.std.specs.Prelude.{◌≡◌, ◌≢◌, ℕ, if◌then◌else◌, not, true, [], ◌∷◌, IfOk, OnErr, OnOk};
ghost use Rattle.lot_base.specs.Waiting.{has_any};
ghost use Rattle.lot_machine.specs.Status.{is_parked};
ghost use Rattle.lot_machine.specs.Run.{IsRun, OutcomesAlternate};
ghost use Rattle.lot_machine.specs.Steps.{IsStep, ends_park, parks};
ghost use Rattle.lot_simulator.specs.Lot.{machine};

use crate::semaphore::{PERMIT, Semaphore};
use crate::timeout::let_time_out;
use lot_simulator::lot::{Lot, Status};
use lot_simulator::schedule::{Answer, Step, run};
use lot_threads::{DEFAULT_PARK_TOKEN, LotError, NoMemory, ParkResult};
use std::alloc::Global;

/// Does the steps one after another, and tells the answer of each.
///
/// The answers are those of a run of the machine that the lot means, and in them each thread's
/// parks and outcomes take turns. It allocates the answers, and costs what the steps cost.
///
/// # Errors
///
/// `NoMemory` if room for the answers cannot be had. Nothing changed then.
pub fn simulate(alloc: Global, lot: &mut Lot, steps: &[Step]) -> Result<Vec<Answer>, NoMemory>
    ensures run { IfOk result (λ answers.
        IsRun IsStep (machine lot.old) steps.now answers.items (machine lot.new)) }
    ensures outcomes { IfOk result (λ answers. (thread : ℕ)
        → OutcomesAlternate (parks thread) (ends_park thread)
        (is_parked ((machine lot.old).status thread)) steps.now answers.items) }
    ensures err { OnErr result (lot.new ≡ lot.old) }
{
    let mut answers = Vec::new(alloc);
    run(lot, steps, &mut answers)?;
    Ok(answers)
}

/// Lets a running thread wait on the key with a timeout, in vain: its deadline passes, and it
/// leaves. Tells the answers of the three steps.
///
/// The lot means what it meant before. It allocates the answers, and costs what the steps cost.
///
/// # Errors
///
/// `NoMemory` if room for the answers cannot be had. Nothing changed then.
pub fn wait_in_vain(
    alloc: Global,
    lot: &mut Lot,
    thread: usize,
    key: usize,
) -> Result<Vec<Answer>, NoMemory>
    requires { (machine lot.old).status thread ≡ Status.Running }

    ensures answers { IfOk result (λ answers. answers.items ≡ Answer.Entered ∷ Answer.Late
        ∷ Answer.TimedOut key (not (has_any ((machine lot.old).lists key))) ∷ []) }
    ensures unchanged { OnOk result (machine lot.new ≡ machine lot.old) }
    ensures err { OnErr result (lot.new ≡ lot.old) }
{
    let steps = [
        Step::Enter {
            thread,
            key,
            valid: true,
            park_token: DEFAULT_PARK_TOKEN,
            timed: true,
        },
        Step::Deadline { thread },
        Step::Resolve { thread },
    ];
    lot.consistency();
    simulate(alloc, lot, &steps)
}

/// Two tasks and one permit. The first task takes it, and the second waits for it with a timeout;
/// the first gives it back in time, or the second leaves without it. Tells how the park of the
/// second ended.
///
/// It allocates a lot for two threads, and costs a few of its steps.
///
/// # Errors
///
/// `NoMemory` if memory cannot be had.
pub fn two_tasks(alloc: Global, in_time: bool) -> Result<ParkResult, LotError>
    ensures outcome { IfOk result (λ outcome. outcome
        ≡ (if in_time then ParkResult.Unparked PERMIT else ParkResult.TimedOut)) }
    ensures memory { OnErr result (result ≡ Err LotError.NoMemory) }
{
    let (mut lot, mut semaphore, second) = second_waits(alloc)?;
    if in_time {
        semaphore.release(&mut lot);
    }
    // The second waits with a timeout, or was unparked, and so its park can end.
    Ok(let_time_out(&mut lot, second).unwrap())
}

// A lot with two threads, and a semaphore whose only permit the first has. The second waits for it
// with a timeout, and its number is told.
fn second_waits(alloc: Global) -> Result<(Lot, Semaphore, usize), LotError>
    ensures permits { IfOk result (λ made. made.1.permits ≡ 0) }
    ensures waits { IfOk result (λ made. ((machine made.0).status made.2 ≡ Status.Waiting true)
        × ((machine made.0).lists made.1.key
        ≡ record { number = made.2; park_token = DEFAULT_PARK_TOKEN; timed = true } ∷ [])) }
    ensures memory { OnErr result (result ≡ Err LotError.NoMemory) }
{
    let mut lot = Lot::new(alloc, 2)?;
    let first = lot.register()?;
    let second = lot.register()?;
    let mut semaphore = Semaphore::new(0, 1);
    // Both have just registered and run, and so each may acquire.
    semaphore.acquire(&mut lot, first, false).unwrap();
    semaphore.acquire(&mut lot, second, true).unwrap();
    Ok((lot, semaphore, second))
}
