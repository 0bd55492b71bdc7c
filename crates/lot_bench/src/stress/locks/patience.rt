//! How long threads wait for a lock, and threads that count again and again.

use crate::stress::draws::draw;
use crate::threads::sum_of;
use std::alloc::Global;
use std::thread::Threads;
use std::time::{Clock, Duration, Instant};

/// In microseconds: most waits end within so long, and many before they have what they wait for.
pub(super) const MOMENT: u64 = 50;

// How many operations each thread does in a round.
const OPERATIONS: usize = 10_000;

/// How long a thread waits for a lock.
#[derive(Clone, Copy)]
pub(super) enum Patience {
    Over,
    Until(Instant),
    Endless,
}

impl Patience {
    /// The next that is drawn. Nothing says that the clock could not be read.
    pub(super) fn drawn<R: Clock>(rt: &R, draws: &mut u64) -> Option<Patience> {
        match draw(draws) % 3 {
            0 => Some(Patience::Over),
            1 => Some(Patience::Endless),
            _ => {
                let moment = Duration::from_micros(draw(draws) % MOMENT);
                Some(Patience::Until(Instant::now(rt).ok()?.checked_add(moment)?))
            }
        }
    }
}

/// Acts again and again, each time by a number and with a patience that are drawn, and answers how
/// often it counted. Nothing says that an act answered so, as one does that finds a lock wrong.
pub(super) fn count_often<R: Clock, F: Fn(u64, Patience) -> Option<usize>>(
    rt: &R,
    seed: u64,
    act: &F,
) -> Option<usize>
    requires { F.IsAlwaysCallable act.now }
{
    let (mut draws, mut counted) = (seed, 0usize);
    for _ in 0..OPERATIONS {
        let number = draw(&mut draws);
        let patience = Patience::drawn(rt, &mut draws)?;
        counted = counted.wrapping_add(act(number, patience)?);
    }
    Some(counted)
}

/// The same in so many threads, whose seeds follow each other.
pub(super) fn count_together<
    R: Threads + Clock + Sync,
    F: Fn(u64, Patience) -> Option<usize> + Sync,
>(rt: &R, alloc: Global, threads: usize, seed: u64, act: &F) -> Option<usize>
    requires { F.IsAlwaysCallable act.now }
{
    let count = |index: usize|
        requires { F.IsAlwaysCallable act.now }
    { count_often(rt, seed.wrapping_add(index as u64), act) };
    sum_of(rt, alloc, threads, &count)
}
