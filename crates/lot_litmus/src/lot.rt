//! What the lot's steps do to a state.

ghost use Rattle.std.specs.Prelude.{◌≡◌, ℕ, ◌<◌, ◌≤◌, length, map, slice_get, slice_set, option_map, Option, Some, None};
ghost use Rattle.lot_litmus.specs.Steps.{is_timed, standing_key};
ghost use Rattle.lot_base.specs.Waiting.{with_value};
ghost use Rattle.lot_machine.specs.declared.status.Status.TheVariants.{Taken};
ghost use Rattle.lot_machine.specs.Machine.{after_unpark, after_enter, after_requeue, after_timeout, is_last, statuses_with_taken, with_status};
ghost use Rattle.lot_litmus.specs.Queues.{entries_of, parted};
ghost use Rattle.lot_litmus.specs.View.{machine_of, status_by, waiter_of, waiters_by};

use crate::code::{KEYS, Key, Thread, Timing};
use crate::queue::{Chosen, Entry, Queue};
use crate::state::{Standing, State};

impl State {
    // The queue of the key.
    fn queue(&self, key: Key) -> Queue
        ensures { slice_get self.now.queues key.number ≡ Some result }
    {
        self.queues[key.index()]
    }

    // Puts another queue in the place of the key's.
    fn set_queue(&mut self, key: Key, queue: Queue)
        ensures { self.new
            ≡ record self.old { queues = slice_set self.old.queues key.number queue } }
    {
        self.queues[key.index()] = queue;
    }

    // Lets the thread do something else in the lot.
    fn set_standing(&mut self, thread: Thread, standing: Standing)
        ensures { self.new
            ≡ record self.old { standings = slice_set self.old.standings thread.number standing } }
    {
        self.standings[thread.index()] = standing;
    }

    // What the thread is doing in the lot.
    pub(crate) fn standing(&self, thread: Thread) -> Standing
        ensures { slice_get self.now.standings thread.number ≡ Some result }
    {
        self.standings[thread.index()]
    }

    // Lets the thread do something else, in no other queue.
    pub(crate) fn turn(&mut self, thread: Thread, standing: Standing)
        ensures machine { machine_of self.new.queues self.new.standings
            ≡ with_status (machine_of self.old.queues self.old.standings) thread.number
            (status_by (Some standing)) }
        ensures words { self.new.words ≡ self.old.words }
        ensures threads { self.new.threads ≡ self.old.threads }
    {
        self.set_standing(thread, standing);
    }

    // Unparks those of the queue who are chosen.
    pub(crate) fn take_chosen(&mut self, key: Key, taken: u8, token: u8)
        ensures machine { machine_of self.new.queues self.new.standings
            ≡ after_unpark (machine_of self.old.queues self.old.standings) key.number
            (parted taken 0 (waiters_by (slice_get self.old.queues key.number)))
            (record { 0 = token }) }
        ensures words { self.new.words ≡ self.old.words }
        ensures threads { self.new.threads ≡ self.old.threads }
    {
        let parts = self.queue(key).part(Chosen { taken, moved: 0 });
        self.set_queue(key, parts.left);
        self.take_all(&parts.taken, token);
    }

    // Unparks those of the queue who are to be taken, and moves those who are to be moved.
    pub(crate) fn move_chosen(&mut self, key: Key, other: Key, chosen: Chosen, token: u8)
        requires { length ((after_requeue (machine_of self.old.queues self.old.standings)
            key.number other.number (parted chosen.taken chosen.moved
            (waiters_by (slice_get self.old.queues key.number))) (record { 0 = token })).lists
            other.number) ≤ 6 }
        ensures machine { machine_of self.new.queues self.new.standings
            ≡ after_requeue (machine_of self.old.queues self.old.standings) key.number other.number
            (parted chosen.taken chosen.moved
            (waiters_by (slice_get self.old.queues key.number))) (record { 0 = token }) }
        ensures words { self.new.words ≡ self.old.words }
        ensures threads { self.new.threads ≡ self.old.threads }
    {
        let parts = self.queue(key).part(chosen);
        self.set_queue(key, parts.left);
        let mut target = self.queue(other);
        target.append(&parts.moved, 0);
        self.set_queue(other, target);
        self.take_all(&parts.taken, token);
    }

    // Hands the token to those who were taken.
    fn take_all(&mut self, taken: &Queue, token: u8)
        ensures statuses { (k : ℕ) → status_by (slice_get self.new.standings k)
            ≡ statuses_with_taken (record { 0 = token }) (map waiter_of (entries_of taken.now))
            (λ j. status_by (slice_get self.old.standings j)) k }
        ensures queues { self.new.queues ≡ self.old.queues }
        ensures words { self.new.words ≡ self.old.words }
        ensures threads { self.new.threads ≡ self.old.threads }
    {
        for index in 0..taken.len() {
            self.take(taken.entry(index), token);
        }
    }

    // Hands the token to one who was taken.
    fn take(&mut self, entry: Entry, token: u8)
        ensures statuses { (k : ℕ) → status_by (slice_get self.new.standings k)
            ≡ with_value (λ j. status_by (slice_get self.old.standings j)) entry.thread.number
            (Taken (record { 0 = token })) k }
        ensures queues { self.new.queues ≡ self.old.queues }
        ensures words { self.new.words ≡ self.old.words }
        ensures threads { self.new.threads ≡ self.old.threads }
    {
        self.standings[entry.thread.index()] = Standing::Taken(token);
    }
}

impl State {
    // Puts the thread last into the queue of the key.
    pub(crate) fn enter(&mut self, thread: Thread, key: Key, token: u8, timing: Timing)
        requires { length (waiters_by (slice_get self.old.queues key.number)) < 6 }
        ensures machine { machine_of self.new.queues self.new.standings
            ≡ after_enter (machine_of self.old.queues self.old.standings) thread.number key.number
            (record { 0 = token }) (is_timed timing) }
        ensures words { self.new.words ≡ self.old.words }
        ensures threads { self.new.threads ≡ self.old.threads }
    {
        let mut queue = self.queue(key);
        queue.push(Entry {
            thread,
            token,
            timing,
        });
        self.set_queue(key, queue);
        self.set_standing(thread, Standing::Waiting(timing));
    }

    // Takes the thread out of the queue of the key.
    pub(crate) fn leave(&mut self, thread: Thread, key: Key)
        ensures machine { machine_of self.new.queues self.new.standings
            ≡ after_timeout (machine_of self.old.queues self.old.standings) thread.number
            key.number }
        ensures words { self.new.words ≡ self.old.words }
        ensures threads { self.new.threads ≡ self.old.threads }
    {
        let left = self.queue(key).without(thread);
        self.set_queue(key, left);
        self.set_standing(thread, Standing::Running);
    }

    // Whether nobody else waits on the key.
    pub(crate) fn is_last(&self, thread: Thread, key: Key) -> bool
        ensures { result ≡ is_last (machine_of self.now.queues self.now.standings) thread.number
            key.number }
    {
        self.queue(key).without(thread).len() == 0
    }

    // The key on which the thread waits.
    pub(crate) fn standing_key(&self, thread: Thread) -> Option<Key>
        ensures { option_map (λ key. key.number) result
            ≡ standing_key (machine_of self.now.queues self.now.standings) thread.number }
    {
        for number in 0..KEYS as u8 {
            let key = Key { number };
            if self.queue(key).has(thread) {
                return Some(key);
            }
        }
        None
    }
}
