//! A park without a condition.

use lot_threads::{DEFAULT_PARK_TOKEN, Member, ParkResult, ThreadParkerT};
use std::sync::Wait;
use std::time::Clock;

/// Parks on the key until another thread unparks this one.
pub fn wait<P: ThreadParkerT, R: Wait + Clock>(
    rt: &R,
    member: &mut Member<'_, P>,
    key: usize,
) -> ParkResult {
    member.park(rt, key, || true, || (), |_, _| (), DEFAULT_PARK_TOKEN, None)
}
