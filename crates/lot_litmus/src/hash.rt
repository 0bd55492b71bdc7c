//! Numbers by which states are told apart at a glance.

use crate::queue::Queue;
use crate::state::{Progress, Standing, State};

const MULTIPLIER: u64 = 0x9E37_79B9_7F4A_7C15;

impl State {
    /// Returns a hash of the state. It leaves out what seldom tells two states apart.
    pub fn hash(&self) -> u32 {
        let mut lot = 0u64;
        for standing in &self.standings {
            lot = lot << 9 ^ standing.hash();
        }
        let mut hash = u64::from_le_bytes(self.words);
        for queue in &self.queues {
            hash = hash.rotate_left(19).wrapping_add(queue.hash());
        }
        hash = mixed(hash ^ lot.wrapping_mul(MULTIPLIER));
        for progress in &self.threads {
            hash = hash.rotate_left(11).wrapping_add(progress.hash());
        }
        let [_, _, _, _, a, b, c, d] = mixed(hash).to_le_bytes();
        u32::from_le_bytes([a, b, c, d])
    }
}

impl Progress {
    pub(crate) fn hash(&self) -> u64 {
        let [a, b, c, d, e, f, g, h, i, j, k, l] = self.locals;
        let first = u64::from_le_bytes([a, b, c, d, e, f, g, h]);
        let rest = u32::from_le_bytes([i, j, k, l]);
        let place = (self.at as u64) << 32 | rest as u64;
        mixed(first ^ mixed(place))
    }
}

impl Queue {
    // The threads that wait, in order.
    fn hash(&self) -> u64 {
        let mut hash = 0u64;
        for index in 0..self.len() {
            hash = hash << 3 ^ (self.entry(index).thread.number as u64 + 1);
        }
        hash
    }
}

impl Standing {
    pub(crate) fn hash(self) -> u64 {
        match self {
            Standing::Running => 0,
            Standing::Waiting(_) => 1,
            Standing::Late => 2,
            Standing::Taken(token) => 3 + token as u64,
        }
    }
}

fn mixed(number: u64) -> u64 {
    let product = number.wrapping_mul(MULTIPLIER);
    product ^ product >> 32
}
