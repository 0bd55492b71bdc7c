//! Threads that wait for a limited time.

ghost use Rattle.std.specs.Prelude.{◌≡◌, ◌↔◌, ◌||◌, ℕ, Ok, IsTrue, IsOk, OnErr};
ghost use Rattle.lot_machine.specs.Status.{is_timed, is_taken};
ghost use Rattle.lot_machine.specs.Machine.{with_status, after_timeout, StandsAt};
ghost use Rattle.lot_simulator.specs.Lot.{machine};

use lot_simulator::lot::{Lot, Status};
use lot_threads::{Misfit, ParkResult};

/// Ends the park of a thread whose time is up, and lets it run again.
///
/// A thread that waits with a timeout leaves its list, and the answer is `TimedOut`; so does one
/// whose deadline has passed already. One that was unparked before is given its token. It allocates
/// nothing, and costs one `Lot::deadline` and one `Lot::resolve`.
///
/// # Errors
///
/// `Misfit` exactly if the thread neither waits with a timeout nor was unparked. Nothing changed
/// then.
pub fn let_time_out(lot: &mut Lot, thread: usize) -> Result<ParkResult, Misfit>
    ensures fits { IsOk result
        ↔ IsTrue (is_timed ((machine lot.old).status thread)
        || is_taken ((machine lot.old).status thread)) }
    ensures timed_out { IsTrue (is_timed ((machine lot.old).status thread))
        → (result ≡ Ok ParkResult.TimedOut) × (key : ℕ) × StandsAt (machine lot.old) thread key
        × (machine lot.new ≡ after_timeout (machine lot.old) thread key) }
    ensures taken { (token : _) → (machine lot.old).status thread ≡ Status.Taken token
        → (result ≡ Ok (ParkResult.Unparked token))
        × (machine lot.new ≡ with_status (machine lot.old) thread Status.Running) }
    ensures err { OnErr result (lot.new ≡ lot.old) }
{
    // A deadline that does not fit changes nothing.
    let _ = lot.deadline(thread);
    lot.resolve(thread, |_, _| ())
}
