//! A thread of a scenario, and what it does.

ghost use Rattle.lot_threads.specs.Members.{IsDataOf};

use crate::threads::scene::{Scene, TOKEN};
use crate::threads::turns::comes_to;
use lot_threads::{ParkResult, ParkToken, ThreadData, ThreadParkerT, park};
use std::alloc::Global;
use std::sync::Wait;
use std::sync::atomic::Ordering;
use std::time::{Clock, Duration, Instant};

// A thread of the scene's lot.
#[derive(Drop)]
struct Guest<'a, P: ThreadParkerT> {
    scene: &'a Scene<P>,
    thread: ThreadData,
    ghost own: { IsDataOf scene.now.lot thread },
}

/// Registers a thread once so many others have, lets it do its acts, and notes whether it came to
/// the end of them.
pub fn play_part<P: ThreadParkerT, R: Wait + Clock>(
    rt: &R,
    alloc: Global,
    scene: &Scene<P>,
    number: usize,
    acts: &str,
) {
    if comes_to(&scene.come, number).is_none() {
        return;
    }
    if let Ok(thread) = scene.lot.thread_data(rt, alloc) {
        scene.come.fetch_add(1, Ordering::SeqCst);
        let mut guest = Guest { scene, thread };
        if play_acts(rt, alloc, &mut guest, acts).is_some() {
            scene.done.fetch_add(1, Ordering::SeqCst);
        }
    }
}

// `None` says that an act went otherwise than it should.
fn play_acts<P: ThreadParkerT, R: Wait + Clock>(
    rt: &R,
    alloc: Global,
    guest: &mut Guest<'_, P>,
    acts: &str,
) -> Option<()> {
    for act in acts.split(';') {
        guest.act(rt, alloc, act)?;
    }
    Some(())
}

impl<'a, P: ThreadParkerT> Guest<'a, P> {
    fn act<R: Wait + Clock>(&mut self, rt: &R, alloc: Global, act: &str) -> Option<()> {
        let mut words = act.split_whitespace();
        let verb = words.next()?;
        let first = self.number(words.next())?;
        let second = self.number(words.next())?;
        let third = self.number(words.next())?;
        match verb {
            "sleep" | "wake-oneself" => self.is_woken(rt, verb, first, second, third as u64),
            "time-out" => self.times_out(rt, first),
            "stay-inside" => self.stays_inside(rt, first),
            "come" => self.come(rt, first),
            "lock" => self.lock(rt),
            "wait" => self.wait(rt),
            "note" => self.note(),
            "count" => self.count(rt, first),
            _ => self.scene.act(rt, alloc, verb, (first, second)),
        }
    }

    // The number that the word is.
    fn number(&self, word: Option<&str>) -> Option<usize> {
        match word {
            None => Some(0),
            Some("own") => Some(self.thread.number()),
            Some(word) => word.parse::<usize>().ok(),
        }
    }

    // Parks on the key in the way of this act.
    fn park<R: Wait + Clock>(
        &mut self,
        rt: &R,
        way: &str,
        key: usize,
        token: ParkToken,
        deadline: Option<Instant>,
    ) -> ParkResult {
        let scene = self.scene;
        park(
            rt,
            &scene.lot,
            &mut self.thread,
            key,
            || scene.validate(way),
            || scene.get_ready(rt, way, key),
            |key, last| scene.note_late(key, last),
            token,
            deadline,
        )
    }

    // Sleeps until it is unparked with the token, for at most so many seconds if there are any.
    fn is_woken<R: Wait + Clock>(
        &mut self,
        rt: &R,
        way: &str,
        key: usize,
        token: usize,
        seconds: u64,
    ) -> Option<()> {
        let deadline = from_now(rt, Duration::from_secs(seconds))?;
        let timeout = (seconds > 0).then_some(deadline);
        let result = self.park(rt, way, key, ParkToken(token), timeout);
        let in_time = seconds == 0 || Instant::now(rt).ok()? < deadline;
        (in_time && result == ParkResult::Unparked(TOKEN)).then_some(())
    }

    // Sleeps for 20 milliseconds, after which it is late and the last on the key.
    fn times_out<R: Wait + Clock>(&mut self, rt: &R, key: usize) -> Option<()> {
        let deadline = from_now(rt, Duration::from_millis(20))?;
        let result = self.park(rt, "time-out", key, ParkToken(0), Some(deadline));
        let is_past = deadline <= Instant::now(rt).ok()?;
        let is_late = result == ParkResult::TimedOut && self.scene.was_late_alone(key);
        (is_past && is_late).then_some(())
    }

    fn stays_inside<R: Wait + Clock>(&mut self, rt: &R, key: usize) -> Option<()> {
        let result = self.park(rt, "stay-inside", key, ParkToken(0), None);
        (result == ParkResult::Invalid).then_some(())
    }

    // Comes through a latch.
    fn come<R: Wait + Clock>(&mut self, rt: &R, index: usize) -> Option<()> {
        let latch = self.scene.latches.get(index)?;
        if latch.is_shut() {
            self.park(rt, "come", latch.key, ParkToken(0), None);
        }
        latch.note(self.thread.number());
        Some(())
    }

    fn lock<R: Wait + Clock>(&mut self, rt: &R) -> Option<()> {
        let scene = self.scene;
        scene.mutex.lock(rt, &scene.lot, &mut self.thread);
        Some(())
    }

    // `None` says that the keys are one.
    fn wait<R: Wait + Clock>(&mut self, rt: &R) -> Option<()> {
        let scene = self.scene;
        if scene.condvar.key() == scene.mutex.key() {
            return None;
        }
        scene
            .condvar
            .wait(rt, &scene.mutex, &scene.lot, &mut self.thread);
        Some(())
    }

    fn note(&self) -> Option<()> {
        self.scene.note(self.thread.number());
        Some(())
    }

    // Counts in so many rounds, each with the mutex locked anew.
    fn count<R: Wait + Clock>(&mut self, rt: &R, rounds: usize) -> Option<()> {
        for _ in 0..rounds {
            self.lock(rt);
            self.scene.count();
            self.scene.mutex.unlock(rt, &self.scene.lot);
        }
        Some(())
    }
}

// The instant that comes so long from now.
fn from_now<R: Clock>(rt: &R, duration: Duration) -> Option<Instant> {
    Instant::now(rt).ok()?.checked_add(duration)
}
