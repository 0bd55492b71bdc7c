//! Searches of a mutex of one byte, as instructions: 0 is free, 1 locked, and 3 locked while others
//! may wait. Whoever lets it go writes 0, and unparks if it was 3.

mod text;

use crate::expect;
use lot_litmus::code::{
    Access, Code, Instruction, Key, Local, Operand, Operation, Timing, Validation, Word,
};
use lot_litmus::explore::{Found, explore};
use lot_litmus::test::Test;
use std::alloc::{AllocError, Global};

const STATE: Word = Word { number: 0 };

const LOCK: Key = Key { number: 0 };

const OTHER: Key = Key { number: 1 };

const WAS: Local = Local { number: 0 };

const SCRATCH: Local = Local { number: 1 };

// More states than any of these searches finds.
const MOST: usize = 100_000;

// Puts the instructions of one who locks the mutex, is in its critical section, and lets it go.
fn push_locker(code: &mut Vec<Instruction>, unpark: Instruction) -> Result<(), AllocError> {
    code.push(exchange(WAS, 0, 1))?;
    code.push(Instruction::JumpUnless {
        operand: Operand::Local(WAS),
        target: 7,
    })?;
    code.push(exchange(SCRATCH, 1, 3))?;
    code.push(compute(SCRATCH, Operation::Second, 0))?;
    code.push(park())?;
    code.push(Instruction::Sleep {
        to: SCRATCH,
        last: SCRATCH,
        target: 0,
    })?;
    code.push(Instruction::Jump { target: 0 })?;
    code.push(Instruction::Enter {
        access: Access::Alone,
    })?;
    code.push(Instruction::Leave)?;
    code.push(swap())?;
    code.push(compute(WAS, Operation::Equal, 3))?;
    code.push(Instruction::JumpUnless {
        operand: Operand::Local(WAS),
        target: 13,
    })?;
    code.push(unpark)?;
    Ok(())
}

fn exchange(to: Local, expected: u8, new: u8) -> Instruction {
    Instruction::CompareExchange {
        to,
        word: STATE,
        expected: Operand::Constant(expected),
        new: Operand::Constant(new),
    }
}

fn swap() -> Instruction {
    Instruction::Update {
        to: WAS,
        word: STATE,
        operation: Operation::Second,
        operand: Operand::Constant(0),
    }
}

fn compute(to: Local, operation: Operation, second: u8) -> Instruction {
    Instruction::Compute {
        to,
        operation,
        first: Operand::Local(to),
        second: Operand::Constant(second),
    }
}

fn park() -> Instruction {
    Instruction::Park {
        key: LOCK,
        validation: Validation::Seen {
            word: STATE,
            operation: Operation::Equal,
            operand: Operand::Constant(3),
        },
        token: Operand::Constant(0),
        timing: Timing::Endless,
        target: 0,
    }
}

// The code of the thread of this number: there are so many lockers.
fn code(
    alloc: Global,
    number: usize,
    lockers: usize,
    unpark: Instruction,
) -> Result<Code, AllocError> {
    let mut instructions = Vec::new(alloc);
    if number < lockers {
        push_locker(&mut instructions, unpark)?;
    }
    Ok(Code::new(instructions).unwrap_or(Code::none(alloc)))
}

fn mutex(alloc: Global, lockers: usize, unpark: Instruction) -> Result<Test, AllocError> {
    let thread = |number: usize| code(alloc, number, lockers, unpark);
    Ok(Test {
        codes: [
            thread(0)?,
            thread(1)?,
            thread(2)?,
            thread(3)?,
            thread(4)?,
            thread(5)?,
        ],
        buckets: [LOCK, OTHER, Key { number: 2 }, Key { number: 3 }],
        words: [0; 8],
    })
}

// What a search finds of so many lockers: the number of states if they are safe, or how long the
// schedule is after which somebody sleeps for ever.
fn found(alloc: Global, lockers: usize, unpark: Instruction) -> Result<(usize, usize), AllocError> {
    let test = mutex(alloc, lockers, unpark)?;
    Ok(match explore(alloc, &test, MOST)? {
        Found::Safe { states } => (states, 0),
        Found::Stuck { schedule } => (0, schedule.len()),
        _ => (0, 0),
    })
}

const ONE: Instruction = Instruction::UnparkOne {
    key: LOCK,
    token: Operand::Constant(0),
};

const ALL: Instruction = Instruction::UnparkAll {
    key: LOCK,
    token: Operand::Constant(0),
};

#[test]
fn who_unparks_one_of_two_waiters_forgets_the_other(rt: HostRuntime) {
    let two = found(rt.alloc(), 2, ONE).unwrap_or((0, 0));
    expect(&rt, two.0 > 0, "one waiter is not forgotten");
    let three = found(rt.alloc(), 3, ONE).unwrap_or((0, 0));
    expect(&rt, three.1 > 0, "the second of two is");
}

#[test]
fn who_unparks_all_waiters_forgets_nobody(rt: HostRuntime) {
    let two = found(rt.alloc(), 2, ALL).unwrap_or((0, 0));
    let three = found(rt.alloc(), 3, ALL).unwrap_or((0, 0));
    expect(&rt, two.0 > 0 && three.0 > two.0, "both are safe");
}
