//! This module has a parker that checks the order in which it is called.

use crate::faults::Faults;
use lot_threads::{
    Letter, NoMemory, Node, ParkerKey, ParkerT, Payload, UnparkHandleT, YieldHandle, YieldParker,
};
use std::alloc::Global;
use std::sync::Wait;
use std::sync::atomic::{AtomicUsize, Ordering};
use std::time::{Clock, Instant};

// The digits of the calls.
const PREPARE_PARK: usize = 1;

const UNPARK_LOCK: usize = 2;

const PARK_UNTIL: usize = 3;

const PARK: usize = 4;

/// An `OrderedParker` is a `YieldParker` that notes its calls.
///
/// Its deadlines pass before it has looked. Its thread parks twice: the first time `validate`
/// returns false, and the second time it is unparked. Each call that was out of order is a fault,
/// and a third park reports it.
#[derive(Drop)]
pub struct OrderedParker {
    parker: YieldParker,

    // The digits of the calls so far.
    calls: AtomicUsize,
    faults: Faults,
}

impl OrderedParker {
    // Notes a call, and tells the calls so far. All come from the parker's thread.
    fn call(&self, digit: usize) -> usize {
        let before = self.calls.load(Ordering::SeqCst);
        let calls = before.wrapping_mul(10).wrapping_add(digit);
        self.calls.store(calls, Ordering::SeqCst);
        calls
    }

    fn expect(&self, calls: usize, expected: usize) {
        if calls != expected {
            self.faults.note();
        }
    }
}

impl ParkerT for OrderedParker {
    type Payload = Letter;

    type UnparkHandle = YieldHandle;

    const IS_CHEAP_TO_CONSTRUCT: bool = true;

    ghost owner = { λ ordered. ⟦<YieldParker as ParkerT>⟧.owner ordered.parker };

    ghost home = { λ ordered. ⟦<YieldParker as ParkerT>⟧.home ordered.parker };

    fn new(
        alloc: Global,
        key: &ParkerKey<<Letter as Payload>::Home>,
    ) -> Result<OrderedParker, NoMemory> {
        Ok(OrderedParker {
            parker: YieldParker::new(alloc, key)?,
            calls: AtomicUsize::new(0),
            faults: Faults::new(),
        })
    }

    fn prepare_park(&self) {
        self.call(PREPARE_PARK);
        self.parker.prepare_park();
    }

    fn timed_out<R: Wait>(&self, rt: &R) -> bool {
        self.parker.timed_out(rt)
    }

    fn park<R: Wait>(&self, rt: &R) -> (Box<Node>, Letter) {
        let calls = self.call(PARK);
        let (node, letter) = self.parker.park(rt);
        self.expect(calls, if node.timed { 11_234 } else { 1_124 });
        (node, letter)
    }

    fn park_until<R: Wait + Clock>(
        &self,
        rt: &R,
        _timeout: Instant,
    ) -> Option<(Box<Node>, Letter)> {
        self.call(PARK_UNTIL);
        self.faults.tell(rt);
        None
    }

    // The thread is unparked before it sleeps.
    fn unpark_lock<R: Wait>(&self, rt: &R, node: Box<Node>, letter: Letter) -> YieldHandle {
        let calls = self.call(UNPARK_LOCK);
        self.expect(calls, 112);
        self.parker.unpark_lock(rt, node, letter)
    }
}

impl UnparkHandleT<OrderedParker> for YieldHandle {
    ghost number = { λ handle. ⟦<YieldHandle as UnparkHandleT<YieldParker>>⟧.number handle };

    fn number(&self) -> usize {
        UnparkHandleT::<YieldParker>::number(self)
    }

    fn unpark(self, parker: &OrderedParker) {
        UnparkHandleT::<YieldParker>::unpark(self, &parker.parker);
    }
}
