//! The list of each key, as the threads of a round have made it.

ghost use Rattle.std.specs.Prelude.{◌<◌, length};

use lot_litmus::code::{KEYS, Key, THREADS, Thread};
use lot_litmus::queue::{Chosen, Entry, Parts, Queue};
use std::sync::{Mutex, Wait};

/// The list of each key. A thread reads and changes one in a section of the key's bucket alone, and
/// so they are what the lists of the lot have to be.
#[derive(Drop)]
pub struct Lists {
    queues: [Mutex<Queue>; KEYS],
}

impl Lists {
    pub fn new() -> Lists {
        Lists {
            queues: [Queue::new(); KEYS].map(Mutex::new),
        }
    }

    /// Nobody waits any more.
    pub fn clear<R: Wait>(&self, rt: &R) {
        for number in 0..KEYS as u8 {
            self.set(rt, Key { number }, Queue::new());
        }
    }

    pub fn get<R: Wait>(&self, rt: &R, key: Key) -> Queue {
        *self.queues[key.index()].lock(rt)
    }

    fn set<R: Wait>(&self, rt: &R, key: Key, queue: Queue) {
        *self.queues[key.index()].lock(rt) = queue;
    }

    /// The thread is last in the list. Says whether there was room, as there is for all threads of
    /// a test.
    pub fn enter<R: Wait>(&self, rt: &R, key: Key, entry: Entry) -> bool {
        let mut queue = self.get(rt, key);
        let has_room = queue.len() < THREADS as u8;
        if has_room {
            queue.push(entry);
            self.set(rt, key, queue);
        }
        has_room
    }

    /// The thread leaves the list. Says whether it was there.
    pub fn leave<R: Wait>(&self, rt: &R, key: Key, thread: Thread) -> bool {
        let queue = self.get(rt, key);
        self.set(rt, key, queue.without(thread));
        queue.has(thread)
    }

    /// Those who are chosen leave the list, or go to the other, where they are last.
    pub fn part<R: Wait>(&self, rt: &R, key: Key, other: Key, chosen: Chosen) -> Parts {
        let parts = self.get(rt, key).part(chosen);
        self.set(rt, key, parts.left);
        for index in 0..parts.moved.len() {
            self.enter(rt, other, parts.moved.entry(index));
        }
        parts
    }
}
