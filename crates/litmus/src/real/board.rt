//! What the threads of a round share, besides the lot.

use crate::real::count::Count;
use crate::real::lists::Lists;
use lot_litmus::code::{Access, WORDS, Word};
use lot_litmus::outcomes::Outcome;
use lot_litmus::test::Fault;
use std::sync::atomic::{AtomicBool, AtomicU8, AtomicU64, Ordering};
use std::sync::{Mutex, Wait};

/// What ended a round before its threads had ended.
#[derive(Clone, Copy)]
pub enum Trouble {
    /// A thread showed a fault of the test.
    Fails(Fault),

    /// The lot said something else of its lists than they are.
    Disagrees(&'static str),
}

/// What the threads of a round share.
#[derive(Drop)]
pub struct Board {
    words: [AtomicU8; WORDS],
    pub lists: Lists,

    // How many are in the critical section, alone and shared.
    alone: AtomicU64,
    shared: AtomicU64,

    // How many threads have not ended, but for those that sleep without a deadline.
    awake: AtomicU64,
    ended: AtomicU64,

    // Whether threads are to give up.
    is_over: AtomicBool,

    // The first trouble of the round.
    trouble: Mutex<Option<Trouble>>,

    /// 1 once nothing happens any more: all have ended, or sleep, or are to give up.
    pub rest: Count,
}

impl Board {
    pub fn new() -> Board {
        Board {
            words: [0; WORDS].map(AtomicU8::new),
            lists: Lists::new(),
            alone: AtomicU64::new(0),
            shared: AtomicU64::new(0),
            awake: AtomicU64::new(0),
            ended: AtomicU64::new(0),
            is_over: AtomicBool::new(false),
            trouble: Mutex::new(None),
            rest: Count::new(),
        }
    }

    /// A round of so many threads begins with these words. No thread of another one is left.
    pub fn begin<R: Wait>(&self, rt: &R, words: [u8; WORDS], threads: u64) {
        for number in 0..WORDS as u8 {
            let word = Word { number };
            self.word(word).store(words[word.index()], Ordering::SeqCst);
        }
        self.lists.clear(rt);
        self.alone.store(0, Ordering::SeqCst);
        self.shared.store(0, Ordering::SeqCst);
        self.awake.store(threads, Ordering::SeqCst);
        self.ended.store(0, Ordering::SeqCst);
        self.is_over.store(false, Ordering::SeqCst);
        *self.trouble.lock(rt) = None;
        self.rest.set(u64::from(threads == 0));
    }

    pub fn word(&self, word: Word) -> &AtomicU8 {
        self.words.get(word.index()).unwrap()
    }

    /// What the words are.
    pub fn words(&self) -> [u8; WORDS] {
        let mut words = [0; WORDS];
        for number in 0..WORDS as u8 {
            let word = Word { number };
            words[word.index()] = self.word(word).load(Ordering::SeqCst);
        }
        words
    }
}

impl Board {
    /// A thread enters the critical section. Says whether it may be there with those who are.
    pub fn enter(&self, access: Access) -> bool {
        match access {
            Access::Shared => {
                self.shared.fetch_add(1, Ordering::SeqCst);
                self.alone.load(Ordering::SeqCst) == 0
            }
            Access::Alone => {
                let alone = self.alone.fetch_add(1, Ordering::SeqCst);
                alone == 0 && self.shared.load(Ordering::SeqCst) == 0
            }
        }
    }

    /// A thread that was there so leaves it.
    pub fn leave(&self, access: Access) {
        match access {
            Access::Shared => self.shared.fetch_sub(1, Ordering::SeqCst),
            Access::Alone => self.alone.fetch_sub(1, Ordering::SeqCst),
        };
    }
}

impl Board {
    /// A thread falls asleep, and only another one can wake it.
    pub fn fall_asleep(&self) {
        if self.awake.fetch_sub(1, Ordering::SeqCst) == 1 {
            self.rest.set(1);
        }
    }

    /// So many of those are woken, or will not fall asleep.
    pub fn wake(&self, threads: u64) {
        self.awake.fetch_add(threads, Ordering::SeqCst);
    }

    /// A thread has ended, or given up.
    pub fn end(&self) {
        self.ended.fetch_add(1, Ordering::SeqCst);
        self.fall_asleep();
    }

    /// How many have ended or given up.
    pub fn ended(&self) -> u64 {
        self.ended.load(Ordering::SeqCst)
    }

    /// Whether threads are to give up.
    pub fn is_over(&self) -> bool {
        self.is_over.load(Ordering::SeqCst)
    }

    /// From now on threads give up.
    pub fn give_up(&self) {
        self.is_over.store(true, Ordering::SeqCst);
        self.rest.set(1);
    }

    /// Ends the round by this trouble, if it is the first.
    pub fn note<R: Wait>(&self, rt: &R, trouble: Trouble) {
        let mut first = self.trouble.lock(rt);
        if first.is_none() {
            *first = Some(trouble);
        }
        self.give_up();
    }

    /// What the round has come to, now that nothing happens any more, if all of its threads or not
    /// all have ended.
    ///
    /// # Errors
    ///
    /// What the lot said that is not so.
    pub fn outcome<R: Wait>(&self, rt: &R, have_ended: bool) -> Result<Outcome, &'static str> {
        match *self.trouble.lock(rt) {
            Some(Trouble::Fails(fault)) => Ok(Outcome::Fails(fault)),
            Some(Trouble::Disagrees(what)) => Err(what),
            None if have_ended => Ok(Outcome::Ends(self.words())),
            None => Ok(Outcome::Stuck),
        }
    }
}
