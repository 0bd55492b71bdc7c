//! A parker whose thread parks again while its first unpark goes on.

use lot_threads::{
    Letter, NoMemory, Node, ParkerKey, ParkerT, Payload, UnparkHandleT, YieldHandle, YieldParker,
};
use std::alloc::Global;
use std::sync::Wait;
use std::sync::atomic::{AtomicUsize, Ordering};
use std::thread;
use std::time::{Clock, Instant};
use test_support::faults::Faults;
use test_support::waits::comes_to;

// So often the commit looks whether the thread parks again before it ends.
const LOOKS: usize = 2_000;

/// A `YieldParker` that counts how often its thread came to park. The commit of its first unpark
/// ends a while after the thread prepares to park again, and the wake once it has parked again. If
/// the thread parks again before the commit ends, or not while it is woken, that is a fault, which
/// a third park tells.
#[derive(Drop)]
pub struct ReturningParker {
    parker: YieldParker,
    prepared: AtomicUsize,
    parked: AtomicUsize,
    faults: Faults,
}

impl ReturningParker {
    // Called in the commit of the first unpark: the thread parks again, which is to wait for the
    // end of the section.
    fn wait_for_return(&self) {
        comes_to(&self.prepared, 2);
        for _ in 0..LOOKS {
            if self.parked.load(Ordering::SeqCst) == 2 {
                self.faults.note();
                return;
            }
            thread::yield_now();
        }
    }
}

impl ParkerT for ReturningParker {
    type Payload = Letter;

    type UnparkHandle = YieldHandle;

    const IS_CHEAP_TO_CONSTRUCT: bool = true;

    ghost owner = { λ returning. ⟦<YieldParker as ParkerT>⟧.owner returning.parker };

    ghost home = { λ returning. ⟦<YieldParker as ParkerT>⟧.home returning.parker };

    fn new(
        alloc: Global,
        key: &ParkerKey<<Letter as Payload>::Home>,
    ) -> Result<ReturningParker, NoMemory> {
        Ok(ReturningParker {
            parker: YieldParker::new(alloc, key)?,
            prepared: AtomicUsize::new(0),
            parked: AtomicUsize::new(0),
            faults: Faults::new(),
        })
    }

    fn prepare_park(&self) {
        self.prepared.fetch_add(1, Ordering::SeqCst);
    }

    fn timed_out<R: Wait>(&self, rt: &R) -> bool {
        self.parker.timed_out(rt)
    }

    fn park<R: Wait>(&self, rt: &R) -> (Box<Node>, Letter) {
        self.parked.fetch_add(1, Ordering::SeqCst);
        self.parker.park(rt)
    }

    fn park_until<R: Wait + Clock>(&self, rt: &R, timeout: Instant) -> Option<(Box<Node>, Letter)> {
        self.parked.fetch_add(1, Ordering::SeqCst);
        self.faults.tell(rt);
        self.parker.park_until(rt, timeout)
    }

    fn unpark_lock<R: Wait>(&self, rt: &R, node: Box<Node>, letter: Letter) -> YieldHandle {
        let is_first = self.prepared.load(Ordering::SeqCst) == 1;
        let handle = self.parker.unpark_lock(rt, node, letter);
        if is_first {
            self.wait_for_return();
        }
        handle
    }
}

impl UnparkHandleT<ReturningParker> for YieldHandle {
    ghost number = { λ handle. ⟦<YieldHandle as UnparkHandleT<YieldParker>>⟧.number handle };

    fn number(&self) -> usize {
        UnparkHandleT::<YieldParker>::number(self)
    }

    fn unpark(self, parker: &ReturningParker) {
        if !comes_to(&parker.parked, 2) {
            parker.faults.note();
        }
    }
}
