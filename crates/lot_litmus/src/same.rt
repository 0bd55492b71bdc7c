//! Whether two states stand for the same.

ghost use Rattle.std.specs.Prelude.{◌≡◌, IsTrue, map};
ghost use Rattle.lot_litmus.specs.Queues.{entries_of};
ghost use Rattle.lot_litmus.specs.View.{configuration_of, waiter_of};

use crate::code::{KEYS, THREADS};
use crate::queue::{Entry, Queue};
use crate::state::{Progress, Standing, State};

impl Entry {
    fn is_same(self, other: Entry) -> bool
        ensures { IsTrue result → waiter_of self ≡ waiter_of other }
    {
        self.thread.number == other.thread.number
            && self.token == other.token
            && self.timing == other.timing
    }
}

impl Queue {
    // Whether the same threads wait in both, in the same order.
    fn is_same(&self, other: &Queue) -> bool
        ensures { IsTrue result
            → map waiter_of (entries_of self.now) ≡ map waiter_of (entries_of other.now) }
    {
        if self.len() != other.len() {
            return false;
        }
        for index in 0..self.len() {
            if !self.entry(index).is_same(other.entry(index)) {
                return false;
            }
        }
        true
    }
}

impl Progress {
    fn is_same(&self, other: &Progress) -> bool
        ensures { IsTrue result → self.now ≡ other.now }
    {
        self.at == other.at
            && are_same_bytes(&self.locals, &other.locals)
            && are_same_flags(&self.locked, &other.locked)
            && self.inside == other.inside
    }
}

// Whether all bytes are the same. There is no branch in the loop, so they are compared at once.
#[inline(always)]
fn are_same_bytes<const N: usize>(bytes: &[u8; N], others: &[u8; N]) -> bool
    ensures { IsTrue result → bytes.now ≡ others.now }
{
    let mut are_same = true;
    for index in 0..N {
        are_same &= bytes[index] == others[index];
    }
    are_same
}

#[inline(always)]
fn are_same_flags(flags: &[bool; KEYS], others: &[bool; KEYS]) -> bool
    ensures { IsTrue result → flags.now ≡ others.now }
{
    let mut are_same = true;
    for index in 0..KEYS {
        are_same &= flags[index] == others[index];
    }
    are_same
}

fn are_same_threads(threads: &[Progress; THREADS], others: &[Progress; THREADS]) -> bool
    ensures { IsTrue result → threads.now ≡ others.now }
{
    for index in 0..THREADS {
        if !threads[index].is_same(&others[index]) {
            return false;
        }
    }
    true
}

fn are_same_standings(standings: &[Standing; THREADS], others: &[Standing; THREADS]) -> bool
    ensures { IsTrue result → standings.now ≡ others.now }
{
    for index in 0..THREADS {
        if standings[index] != others[index] {
            return false;
        }
    }
    true
}

fn are_same_queues(queues: &[Queue; KEYS], others: &[Queue; KEYS]) -> bool
    ensures { IsTrue result
        → map (λ q. map waiter_of (entries_of q)) queues.now
        ≡ map (λ q. map waiter_of (entries_of q)) others.now }
{
    for index in 0..KEYS {
        if !queues[index].is_same(&others[index]) {
            return false;
        }
    }
    true
}

impl State {
    /// Returns whether the two states are the same, whatever is behind the ends of their queues.
    pub fn is_same(&self, other: &State) -> bool
        ensures { IsTrue result → configuration_of self.now ≡ configuration_of other.now }
    {
        if !are_same_bytes(&self.words, &other.words) {
            return false;
        }
        if !are_same_threads(&self.threads, &other.threads) {
            return false;
        }
        if !are_same_standings(&self.standings, &other.standings) {
            return false;
        }
        are_same_queues(&self.queues, &other.queues)
    }
}
