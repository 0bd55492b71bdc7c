//! This module has the queue of a key. It is `Copy`, because a state has one for each key.

ghost use Rattle.std.specs.Prelude.{◌≡◌, ◌+◌, ◌-◌, ◌<◌, ◌≤◌, ◌++◌, ◌∷◌, [], drop, length, slice_get, Some};

use crate::code::{Key, THREADS, Thread, Timing};

/// An `Entry` is a thread in a queue.
#[derive(Clone, Copy)]
pub struct Entry {
    /// The thread.
    pub thread: Thread,

    /// Its park token.
    pub token: u8,

    /// Whether it has a deadline.
    pub timing: Timing,
}

impl Entry {
    /// The entry in the places behind the end of a queue.
    pub const NOBODY: Entry = Entry {
        thread: Thread { number: 0 },
        token: 0,
        timing: Timing::Endless,
    };
}

/// A `Queue` has the threads that wait on a key, in order of arrival.
#[derive(Clone, Copy)]
pub struct Queue {
    entries: [Entry; THREADS],
    length: u8,
    ghost fits: { length ≤ 6 },
}

/// `Parts` are the three queues into which an unpark or a requeue divides a queue.
#[derive(Clone, Copy)]
pub struct Parts {
    /// The threads that are unparked.
    pub taken: Queue,

    /// The threads that are moved to another queue.
    pub moved: Queue,

    /// The threads that stay.
    pub left: Queue,
}

/// A `Chosen` says who is taken and who is moved, by a bit for each thread.
///
/// The first thread of the queue has the lowest bit. A thread that is taken is not moved.
#[derive(Clone, Copy)]
pub struct Chosen {
    pub taken: u8,
    pub moved: u8,
}

impl Parts {
    ghost use Rattle.lot_litmus.specs.Queues.{entries_of, with_part, no_parts};

    // Puts one behind the others of its part, as the lowest bits say.
    fn put(&mut self, entry: Entry, chosen: Chosen)
        requires taken { length (entries_of self.old.taken) < 6 }
        requires moved { length (entries_of self.old.moved) < 6 }
        requires left { length (entries_of self.old.left) < 6 }
        ensures taken { entries_of self.new.taken ≡ entries_of self.old.taken
            ++ (with_part chosen.taken chosen.moved entry no_parts).taken }
        ensures moved { entries_of self.new.moved ≡ entries_of self.old.moved
            ++ (with_part chosen.taken chosen.moved entry no_parts).moved }
        ensures left { entries_of self.new.left ≡ entries_of self.old.left
            ++ (with_part chosen.taken chosen.moved entry no_parts).left }
    {
        if chosen.taken % 2 == 1 {
            self.taken.push(entry);
        } else if chosen.moved % 2 == 1 {
            self.moved.push(entry);
        } else {
            self.left.push(entry);
        }
    }
}

impl Queue {
    ghost use Rattle.lot_litmus.specs.Queues.{entries_of, has_thread, without_thread, parted, Parted};

    /// Creates a queue in which nobody waits.
    pub fn new() -> Queue
        ensures { entries_of result ≡ [] }
    {
        Queue {
            entries: [Entry::NOBODY; THREADS],
            length: 0,
        }
    }

    /// Returns how many threads wait.
    pub fn len(&self) -> u8
        ensures { result ≡ length (entries_of self.now) }
    {
        self.length
    }

    /// Returns the thread that waits at this index, or `None` if there is none.
    pub fn get(&self, index: usize) -> Option<Entry>
        ensures { result ≡ slice_get (entries_of self.now) index }
    {
        if index < self.length as usize {
            Some(self.entries[index])
        } else {
            None
        }
    }

    /// Returns the thread that waits at this index.
    pub fn entry(&self, index: u8) -> Entry
        requires { index < length (entries_of self.now) }
        ensures { slice_get (entries_of self.now) index ≡ Some result }
    {
        self.entries[index as usize]
    }

    /// Appends a thread.
    pub fn push(&mut self, entry: Entry)
        requires { length (entries_of self.old) < 6 }
        ensures { entries_of self.new ≡ entries_of self.old ++ entry ∷ [] }
    {
        self.entries[self.length as usize] = entry;
        self.length += 1;
    }

    /// Appends the threads of another queue, from this index on.
    pub fn append(&mut self, other: &Queue, first: u8)
        requires { length (entries_of self.old) + (length (entries_of other.now) - first) ≤ 6 }
        ensures { entries_of self.new ≡ entries_of self.old ++ drop first (entries_of other.now) }
    {
        for index in first..other.length {
            self.push(other.entry(index));
        }
    }

    /// Returns whether the thread waits here.
    pub fn has(&self, thread: Thread) -> bool
        ensures { result ≡ has_thread thread.number (entries_of self.now) }
    {
        for index in 0..self.length {
            if self.entry(index).thread.number == thread.number {
                return true;
            }
        }
        false
    }

    /// Returns the queue without the thread. If the thread does not wait here, this is the whole
    /// queue.
    pub fn without(&self, thread: Thread) -> Queue
        ensures { entries_of result ≡ without_thread thread.number (entries_of self.now) }
    {
        let mut left = Queue::new();
        for index in 0..self.length {
            let entry = self.entry(index);
            if entry.thread.number == thread.number {
                left.append(self, index + 1);
                return left;
            }
            left.push(entry);
        }
        left
    }

    /// Returns the queue in which each thread has another number.
    pub fn renumbered(&self, numbers: &[Thread; THREADS]) -> Queue {
        let mut renumbered = Queue::new();
        for index in 0..self.length {
            let entry = self.entry(index);
            renumbered.push(Entry {
                thread: numbers[entry.thread.index()],
                ..entry
            });
        }
        renumbered
    }

    /// Adds its place in this queue, which is that of the key, to the rank of each thread here.
    pub fn rank_waiters(&self, ranks: &mut [u64; THREADS], key: Key) {
        for index in 0..self.length {
            let thread = self.entry(index).thread;
            let place = key.number as u64 * 8 + index as u64 + 1;
            ranks[thread.index()] = ranks[thread.index()] ^ place;
        }
    }

    /// Divides the queue into three, each in order.
    pub fn part(&self, chosen: Chosen) -> Parts
        ensures { Parted result (parted chosen.taken chosen.moved (entries_of self.now)) }
    {
        let mut parts = Parts {
            taken: Queue::new(),
            moved: Queue::new(),
            left: Queue::new(),
        };
        let mut rest = chosen;
        for index in 0..self.length {
            parts.put(self.entry(index), rest);
            rest = Chosen {
                taken: rest.taken / 2,
                moved: rest.moved / 2,
            };
        }
        parts
    }
}
