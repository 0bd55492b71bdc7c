//! Threads that do the same, whose places are exchanged where that makes two states one.

use crate::code::{Code, Instruction, KEYS, Key, Operand, Operation, THREADS, Thread};
use crate::queue::Queue;
use crate::state::State;
use crate::test::Test;

/// For each thread the number of the first that does the same.
#[derive(Clone, Copy)]
pub(crate) struct Alike {
    first: [u8; THREADS],
}

impl Alike {
    /// Which threads of the test do the same.
    pub(crate) fn new(test: &Test) -> Alike {
        let mut first = [0; THREADS];
        for number in 0..THREADS as u8 {
            let thread = Thread { number };
            first[thread.index()] = first_alike(test, thread);
        }
        Alike { first }
    }

    /// The state with threads that do the same in one order, whichever they had.
    pub(crate) fn sorted(&self, state: &State) -> State {
        state.renumbered(&self.order(state))
    }

    // Which thread comes to each place, so that those that do the same are in one order.
    fn order(&self, state: &State) -> [Thread; THREADS] {
        let mut order = EACH;
        let mut ranks = state.ranks();
        for number in 0..THREADS as u8 {
            self.order_behind(&mut order, &mut ranks, Thread { number });
        }
        order
    }

    // Lets the least of those at this place and behind it come to the place.
    fn order_behind(
        &self,
        order: &mut [Thread; THREADS],
        ranks: &mut [u64; THREADS],
        place: Thread,
    ) {
        for number in place.number + 1..THREADS as u8 {
            let behind = Thread { number };
            let are_alike = self.first[place.index()] == self.first[behind.index()];
            if are_alike && ranks[behind.index()] < ranks[place.index()] {
                order.swap(place.index(), behind.index());
                ranks.swap(place.index(), behind.index());
            }
        }
    }
}

// The number of the first thread that does the same as this one.
fn first_alike(test: &Test, thread: Thread) -> u8 {
    for number in 0..thread.number {
        let other = Thread { number };
        if do_the_same(&test.codes[thread.index()], &test.codes[other.index()]) {
            return number;
        }
    }
    thread.number
}

fn do_the_same(code: &Code, other: &Code) -> bool {
    if code.instructions.len() != other.instructions.len() {
        return false;
    }
    for (&instruction, &same) in code.instructions.iter().zip(&other.instructions) {
        if computed(instruction) != computed(same) {
            return false;
        }
    }
    true
}

// What is made of two numbers that are given is another number.
fn computed(instruction: Instruction) -> Instruction {
    if let Instruction::Compute {
        to,
        operation,
        first: Operand::Constant(first),
        second: Operand::Constant(second),
    } = instruction
        && let Some(made) = operation.make(first, second)
    {
        return Instruction::Compute {
            to,
            operation: Operation::Second,
            first: Operand::Constant(0),
            second: Operand::Constant(made),
        };
    }
    instruction
}

// All threads, by their numbers.
const EACH: [Thread; THREADS] = [
    Thread { number: 0 },
    Thread { number: 1 },
    Thread { number: 2 },
    Thread { number: 3 },
    Thread { number: 4 },
    Thread { number: 5 },
];

impl State {
    // For each thread a number of what tells it from another in this state.
    fn ranks(&self) -> [u64; THREADS] {
        let mut ranks = [0; THREADS];
        for index in 0..THREADS {
            ranks[index] = self.threads[index].hash() << 9 ^ self.standings[index].hash();
        }
        for number in 0..KEYS as u8 {
            let key = Key { number };
            self.queues[key.index()].rank_waiters(&mut ranks, key);
        }
        ranks
    }

    // The state in which these threads have come to the places of the list.
    fn renumbered(&self, order: &[Thread; THREADS]) -> State {
        let mut threads = self.threads;
        let mut standings = self.standings;
        let mut numbers = EACH;
        for place in 0..THREADS {
            let index = order[place].index();
            threads[place] = self.threads[index];
            standings[place] = self.standings[index];
            numbers[index] = EACH[place];
        }
        State {
            words: self.words,
            threads,
            standings,
            queues: self.renumbered_queues(&numbers),
        }
    }

    // The queues in which each thread has another number.
    fn renumbered_queues(&self, numbers: &[Thread; THREADS]) -> [Queue; KEYS] {
        let mut queues = self.queues;
        for key in 0..KEYS {
            queues[key] = queues[key].renumbered(numbers);
        }
        queues
    }
}
