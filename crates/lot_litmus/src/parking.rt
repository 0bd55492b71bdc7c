//! How threads park, come back and unpark others.

ghost use Rattle.std.specs.Prelude.{◌≡◌, ◌&&◌, ◌<◌, ◌≤◌, length, slice_get, Some, None};
ghost use Rattle.lot_litmus.specs.Steps.{one_if, with_local, advanced, at_target, unlocked, locking, is_free, is_valid, is_timed, standing_key, where_free};
ghost use Rattle.lot_machine.specs.declared.status.Status.TheVariants.{Taken};
ghost use Rattle.lot_machine.specs.Machine.{after_requeue, is_last};
ghost use Rattle.lot_litmus.specs.Queues.{parted};
ghost use Rattle.lot_litmus.specs.View.{configuration_of, machine_of, status_by, waiters_by};
ghost use Rattle.lot_litmus.specs.Performing.{performed_of};

use crate::code::{Key, Local, Moves, Thread, Timing};
use crate::operation::one_if;
use crate::perform::Performed;
use crate::queue::Chosen;
use crate::state::{Progress, Standing, State};
use crate::test::Test;

/// How a thread parks.
#[derive(Clone, Copy)]
pub(crate) struct Park {
    pub key: Key,
    pub token: u8,
    pub timing: Timing,
    pub target: u16,
}

/// How a thread sleeps.
#[derive(Clone, Copy)]
pub(crate) struct Sleep {
    pub to: Local,
    pub last: Local,
    pub target: u16,
}

impl State {
    ghost use Rattle.lot_machine.specs.Machine.{IsConsistent};
    ghost use Rattle.lot_base.specs.Waiting.{split_first, split_all, split_filter, split_by};
    ghost use Rattle.lot_litmus.specs.Steps.{parked, leaving, sleeping, left, giving_up, unparked, decisions_on, Does};

    // The thread comes to wait, if that is valid.
    fn park(&mut self, thread: Thread, progress: Progress, park: Park, is_valid: bool) -> Performed
        requires at { progress.at < 65535 }
        requires room { length (waiters_by (slice_get self.old.queues park.key.number)) < 6 }
        ensures { performed_of result self.new
            ≡ parked (configuration_of self.old) thread.number progress park.key is_valid
            park.token (is_timed park.timing) park.target }
    {
        if is_valid {
            self.enter(thread, park.key, park.token, park.timing);
            Performed::Does(progress.unlocked().advanced())
        } else {
            Performed::Does(progress.unlocked().at_target(park.target))
        }
    }

    // A thread whose deadline has passed locks the bucket of its queue.
    fn come_late(
        &self,
        test: &Test,
        thread: Thread,
        progress: Progress,
        last: Local,
        target: u16,
    ) -> Performed
        ensures { performed_of result self.now
            ≡ leaving test.now (configuration_of self.now) thread.number progress last target
            (standing_key (machine_of self.now.queues self.now.standings) thread.number) }
    {
        match self.standing_key(thread) {
            Some(key) if self.is_free(test, thread, progress, key) => {
                let is_last = one_if(self.is_last(thread, key));
                let locking = progress.locking(test, key);
                Performed::Does(locking.with_local(last, is_last).at_target(target))
            }
            _ => Performed::Cannot,
        }
    }

    // The thread goes on with its token, or its deadline passes, or it locks its bucket after that.
    pub(crate) fn sleep(
        &mut self,
        test: &Test,
        thread: Thread,
        progress: Progress,
        sleep: Sleep,
        standing: Standing,
    ) -> Performed
        requires { progress.at < 65535 }
        ensures { performed_of result self.new
            ≡ sleeping test.now (configuration_of self.old) thread.number progress sleep.to
            sleep.last sleep.target (status_by (Some standing)) }
    {
        match standing {
            Standing::Taken(token) => {
                self.turn(thread, Standing::Running);
                Performed::Does(progress.advanced_with(sleep.to, token))
            }
            Standing::Waiting(Timing::Timed) => {
                self.turn(thread, Standing::Late);
                Performed::Does(progress)
            }
            Standing::Late => self.come_late(test, thread, progress, sleep.last, sleep.target),
            Standing::Running | Standing::Waiting(Timing::Endless) => Performed::Cannot,
        }
    }

    // A thread whose deadline has passed leaves its queue.
    pub(crate) fn give_up(&mut self, thread: Thread, progress: Progress) -> Performed
        requires { progress.at < 65535 }
        ensures { performed_of result self.new
            ≡ giving_up (configuration_of self.old) thread.number progress
            (status_by (slice_get self.old.standings thread.number)) }
    {
        if self.standings[thread.index()] != Standing::Late {
            return Performed::Cannot;
        }
        match self.standing_key(thread) {
            Some(key) => {
                self.leave(thread, key);
                Performed::Does(progress.unlocked().advanced())
            }
            None => Performed::Cannot,
        }
    }

    // Those of the queue are unparked who are chosen.
    fn unpark(&mut self, progress: Progress, key: Key, taken: u8, token: u8) -> Performed
        requires { progress.at < 65535 }
        ensures { performed_of result self.new
            ≡ unparked (configuration_of self.old) progress key
            (parted taken 0 (waiters_by (slice_get self.old.queues key.number))) token }
    {
        self.take_chosen(key, taken, token);
        Performed::Does(progress.unlocked().advanced())
    }

    pub(crate) fn unpark_one(&mut self, progress: Progress, key: Key, token: u8) -> Performed
        requires { progress.at < 65535 }
        ensures { performed_of result self.new
            ≡ unparked (configuration_of self.old) progress key
            (split_first (waiters_by (slice_get self.old.queues key.number))) token }
    {
        self.unpark(progress, key, 1, token)
    }

    pub(crate) fn unpark_all(&mut self, progress: Progress, key: Key, token: u8) -> Performed
        requires { progress.at < 65535 }
        ensures { performed_of result self.new
            ≡ unparked (configuration_of self.old) progress key
            (split_all (waiters_by (slice_get self.old.queues key.number))) token }
    {
        self.unpark(progress, key, u8::MAX, token)
    }

    pub(crate) fn unpark_filter(
        &mut self,
        progress: Progress,
        key: Key,
        chosen: u8,
        token: u8,
    ) -> Performed
        requires { progress.at < 65535 }
        ensures { performed_of result self.new
            ≡ unparked (configuration_of self.old) progress key
            (split_filter (decisions_on chosen)
            (waiters_by (slice_get self.old.queues key.number))) token }
    {
        self.unpark(progress, key, chosen, token)
    }
}

impl Moves {
    ghost use Rattle.std.specs.Prelude.{List};
    ghost use Rattle.lot_base.specs.Waiting.{split_by};
    ghost use Rattle.lot_machine.specs.Machine.{Waiter};
    ghost use Rattle.lot_litmus.specs.Steps.{requeue_of};

    // Which of at most six.
    fn chosen(self) -> Chosen
        ensures { (waiters : List Waiter) → length waiters ≤ 6
            → parted result.taken result.moved waiters ≡ split_by (requeue_of self) waiters }
    {
        match self {
            Moves::Nobody => Chosen { taken: 0, moved: 0 },
            Moves::OneUnparkedRestMoved => Chosen {
                taken: 1,
                moved: 254,
            },
            Moves::AllMoved => Chosen {
                taken: 0,
                moved: 255,
            },
            Moves::OneUnparked => Chosen { taken: 1, moved: 0 },
            Moves::OneMoved => Chosen { taken: 0, moved: 1 },
        }
    }
}

impl State {
    ghost use Rattle.lot_machine.specs.Machine.{IsConsistent};
    ghost use Rattle.lot_base.specs.Waiting.{split_by};
    ghost use Rattle.lot_machine.specs.Status.{is_running};
    ghost use Rattle.lot_litmus.specs.Steps.{parked, requeue_of, with_machine, Does};

    // The thread comes to wait, if it runs and the bucket of the key is free.
    pub(crate) fn come_to_park(
        &mut self,
        test: &Test,
        thread: Thread,
        progress: Progress,
        park: Park,
        is_valid: bool,
    ) -> Performed
        requires at { progress.at < 65535 }
        requires consistent { IsConsistent (machine_of self.old.queues self.old.standings) }
        ensures { performed_of result self.new
            ≡ where_free (is_free test.now (configuration_of self.old) thread.number progress
            park.key.number && is_running (status_by (slice_get self.old.standings thread.number)))
            (parked (configuration_of self.old) thread.number progress park.key is_valid
            park.token (is_timed park.timing) park.target) }
    {
        if !self.is_free(test, thread, progress, park.key) {
            return Performed::Cannot;
        }
        match self.standing(thread) {
            Standing::Running => self.park(thread, progress, park, is_valid),
            _ => Performed::Cannot,
        }
    }

    // Waiters of the one key are unparked, or moved to the other.
    pub(crate) fn requeue(
        &mut self,
        progress: Progress,
        key: Key,
        other: Key,
        moves: Moves,
        token: u8,
    ) -> Performed
        requires at { progress.at < 65535 }
        requires consistent { IsConsistent (machine_of self.old.queues self.old.standings) }
        ensures { performed_of result self.new
            ≡ Does (with_machine (configuration_of self.old)
            (after_requeue (machine_of self.old.queues self.old.standings) key.number other.number
            (split_by (requeue_of moves) (waiters_by (slice_get self.old.queues key.number)))
            (record { 0 = token }))) (advanced (unlocked progress)) }
    {
        self.move_chosen(key, other, moves.chosen(), token);
        Performed::Does(progress.unlocked().advanced())
    }
}
