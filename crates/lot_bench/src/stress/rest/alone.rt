//! A thread that waits over a parker without a lot, again and again.

ghost use Rattle.std.specs.Prelude.{◌≡◌};

use crate::fault::{Fault, Wrong};
use crate::threads::comes_to;
use lot_base::thread_parker::{ParkerKey, ThreadParkerT, UnparkHandleT};
use lot_threads::Node;
use std::alloc::Global;
use std::sync::Wait;
use std::sync::atomic::{AtomicUsize, Ordering};
use std::thread;
use std::thread::Threads;
use std::time::{Clock, Duration, Instant};

const OWNER: usize = 0;

// In milliseconds, until a thread sleeps, and until a deadline that nobody meets.
const MOMENT: u64 = 20;

// In milliseconds, until a deadline before which a node is put.
const LONGER: u64 = 200;

const FAR: u64 = 3_600_000;

/// The owner of a parker waits so long three times: without a deadline and with one far away, each
/// after a wait whose deadline passed and without having prepared to park since; and after a wake
/// that came late, for the node before.
pub fn wait_each_time<P: ThreadParkerT + Sync, R: Threads + Wait + Clock + Sync>(
    rt: &R,
    alloc: Global,
    rest: Duration,
) -> Result<(), Fault> {
    let key = ParkerKey {
        number: OWNER,
        home: (),
    };
    let parker = P::new(alloc, &key)?;
    if play(rt, alloc, &parker, rest) {
        Ok(())
    } else {
        Err(Fault::Wrong(Wrong::LoneWaits))
    }
}

fn play<P: ThreadParkerT + Sync, R: Threads + Wait + Clock + Sync>(
    rt: &R,
    alloc: Global,
    parker: &P,
    rest: Duration,
) -> bool
    requires { P.owner parker.now ≡ OWNER }
{
    let steps = AtomicUsize::new(0);
    let (is_right, ()) = thread::join(
        rt,
        || take_each(rt, parker, &steps),
        ||
            requires { P.owner parker.now ≡ OWNER }
        {
            put_each(rt, alloc, parker, &steps, rest);
        },
    );
    is_right
}

// What the owner does. It has its third node at the deadline, or soon after it.
fn take_each<P: ThreadParkerT, R: Wait + Clock>(rt: &R, parker: &P, steps: &AtomicUsize) -> bool {
    let is_late = !waits_until(rt, parker, MOMENT);
    steps.store(1, Ordering::SeqCst);
    drop(parker.park(rt));
    let is_late_again = !waits_until(rt, parker, MOMENT);
    steps.store(2, Ordering::SeqCst);
    let is_woken = waits_until(rt, parker, FAR);
    steps.store(3, Ordering::SeqCst);
    if !waits_until(rt, parker, LONGER) {
        drop(parker.park(rt));
    }
    steps.store(4, Ordering::SeqCst);
    drop(parker.park(rt));
    is_late && is_late_again && is_woken
}

// Whether a node came within so many milliseconds.
fn waits_until<P: ThreadParkerT, R: Wait + Clock>(rt: &R, parker: &P, milliseconds: u64) -> bool {
    let Ok(now) = Instant::now(rt) else {
        return false;
    };
    match now.checked_add(Duration::from_millis(milliseconds)) {
        Some(deadline) => parker.park_until(rt, deadline).is_some(),
        None => false,
    }
}

// Puts a node each time that the owner has waited so long. It puts the third while the owner
// sleeps, and wakes it for that once it sleeps for the fourth.
fn put_each<P: ThreadParkerT, R: Wait + Clock>(
    rt: &R,
    alloc: Global,
    parker: &P,
    steps: &AtomicUsize,
    rest: Duration,
)
    requires { P.owner parker.now ≡ OWNER }
{
    comes_to(rt, steps, 1);
    put(rt, alloc, parker, rest);
    comes_to(rt, steps, 2);
    put(rt, alloc, parker, rest);
    comes_to(rt, steps, 3);
    let Ok(node) = Node::new(alloc, OWNER) else {
        return;
    };
    thread::sleep(rt, Duration::from_millis(MOMENT));
    let late = parker.unpark_lock(rt, node, ());
    comes_to(rt, steps, 4);
    thread::sleep(rt, Duration::from_millis(MOMENT));
    late.unpark(parker);
    put(rt, alloc, parker, rest);
}

// After so long, puts a node and wakes the owner for it. Without memory for it, the owner waits for
// ever.
fn put<P: ThreadParkerT, R: Wait + Clock>(rt: &R, alloc: Global, parker: &P, rest: Duration)
    requires { P.owner parker.now ≡ OWNER }
{
    thread::sleep(rt, rest);
    if let Ok(node) = Node::new(alloc, OWNER) {
        parker.unpark_lock(rt, node, ()).unpark(parker);
    }
}
