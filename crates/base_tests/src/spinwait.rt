//! Tests of `SpinWait`, by the answers of `spin`.

use crate::expect;
use lot_base::spinwait::SpinWait;

// How often it spins, of so many calls.
fn spins(wait: &mut SpinWait, calls: usize) -> usize {
    let mut spins = 0_usize;
    for _ in 0..calls {
        if wait.spin() {
            spins = spins.wrapping_add(1);
        }
    }
    spins
}

// So many calls of the other kind.
fn spin_no_yield(wait: &mut SpinWait, calls: usize) {
    for _ in 0..calls {
        wait.spin_no_yield();
    }
}

// Once it is used up, a call of `spin_no_yield` is as short as before.
#[test]
fn one_spins_ten_times_until_it_is_reset(rt: HostRuntime) {
    let (mut wait, mut other) = (SpinWait::new(), SpinWait::default());
    let spun = (spins(&mut wait, 12), spins(&mut other, 12));
    expect(&rt, spun.0 == 10 && spun.1 == 10, "a new one");
    wait.reset();
    expect(&rt, spins(&mut wait, 12) == 10, "one that was reset");
    wait.reset();
    spin_no_yield(&mut wait, 110);
    expect(&rt, spins(&mut wait, 100) == 0, "one that is used up");
}
