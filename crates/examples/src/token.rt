//! A token that goes from one thread to another, by a lot whose calls are one history.

ghost use Rattle.std.specs.Prelude.{◌≡◌, false};
ghost use mathlib.Core.List.{IsPrefix};
ghost use Rattle.lot_history.specs.Witness.{id_of, seen_by};
ghost use Rattle.lot_threads.specs.Laws.{WasHandedOver};
ghost use Rattle.lot_threads.specs.Members.{ComesBack, Stays};
ghost use Rattle.examples.specs.HandsOver.{HandsOver, HandsOverAndSees};

use lot_threads::history_laws::parks_get_tokens_of_unparks;
use lot_threads::{DEFAULT_PARK_TOKEN, Member, ParkResult, ThreadParkerT, UnparkToken};
use std::sync::Wait;
use std::sync::atomic::{AtomicBool, Ordering};
use std::thread;
use std::thread::{Threads, join};
use std::time::Clock;

/// Parks the one member on the key, in a thread of its own where one can be made, while the other
/// unparks one thread of the key with the token once the first stands there. Answers the token with
/// which the first came back, and both members.
///
/// The token that it came back with was handed to it by an unpark that stands before its return,
/// and what the second member sees then begins with all that. Whoever else calls the lot may unpark
/// the first too, so that token need not be this one. It waits for ever where no thread can be
/// made, and may where others use the key.
pub fn pass_token<'a, P: ThreadParkerT + Send + Sync, R: Threads + Wait + Clock + Sync>(
    rt: &R,
    sleeper: Member<'a, P>,
    waker: Member<'a, P>,
    key: usize,
    token: UnparkToken,
) -> (UnparkToken, Member<'a, P>, Member<'a, P>)
    requires lot { id_of sleeper.history ≡ id_of waker.history }

    ensures sleeper { Stays sleeper.entry result.1 }
    ensures waker { Stays waker.entry result.2 }
    ensures parked { ComesBack sleeper.entry key DEFAULT_PARK_TOKEN false result.0 result.1 }
    ensures handed { WasHandedOver sleeper.entry result.0 result.1 }
    ensures unparked { HandsOverAndSees waker.entry key token result.2 }
    ensures heard { IsPrefix (seen_by result.1.witness) (seen_by result.2.witness) }
{
    let stands = AtomicBool::new(false);
    let ((given, mut sleeper), mut waker) = join(
        rt,
        || sleep(rt, sleeper, key, &stands),
        || wake(rt, waker, key, token, &stands),
    );
    parks_get_tokens_of_unparks();
    waker.hear(&mut sleeper);
    (given, sleeper, waker)
}

// Parks on the key, and tells so once the thread stands there. Answers its token.
fn sleep<'a, P: ThreadParkerT, R: Wait + Clock>(
    rt: &R,
    mut me: Member<'a, P>,
    key: usize,
    stands: &AtomicBool,
) -> (UnparkToken, Member<'a, P>)
    ensures stays { Stays me.entry result.1 }
    ensures parked { ComesBack me.entry key DEFAULT_PARK_TOKEN false result.0 result.1 }
{
    let ended = me.park(
        rt,
        key,
        || true,
        || stands.store(true, Ordering::SeqCst),
        |_, _| (),
        DEFAULT_PARK_TOKEN,
        None,
    );
    let ParkResult::Unparked(token) = ended else {
        unreachable!()
    };
    (token, me)
}

// Unparks one thread of the key, once it was told that one stands there.
fn wake<'a, P: ThreadParkerT, R: Wait>(
    rt: &R,
    mut me: Member<'a, P>,
    key: usize,
    token: UnparkToken,
    stands: &AtomicBool,
) -> Member<'a, P>
    ensures stays { Stays me.entry result }
    ensures unparked { HandsOver me.entry key token result }
{
    wait_for(rt, stands);
    me.unpark_one(rt, key, |_| token);
    me
}

// Waits until the flag is set.
fn wait_for<R: Wait>(rt: &R, flag: &AtomicBool) {
    for _ in rt.forever() {
        if flag.load(Ordering::SeqCst) {
            return;
        }
        thread::yield_now();
    }
    unreachable!()
}
