//! This module has the code of a test's threads: what they do, as instructions.
//!
//! An instruction is a *step* or is *local*. Other threads can act between two steps. A local
//! instruction is done together with the step before it. The numbers of a test are bytes.

ghost use Rattle.std.specs.Prelude.{◌≡◌, ◌<◌, vec_len, slice_get, IfSome, []};

use std::alloc::Global;

/// The greatest number of threads of a test.
///
/// The last of them is often used to look at the words after the others have ended.
pub const THREADS: usize = 6;

/// The greatest number of words; the next two constants are those of keys, and of locals of each
/// thread.
pub const WORDS: usize = 8;

pub const KEYS: usize = 4;

pub const LOCALS: usize = 12;

/// A `Local` is a variable of one thread, which others do not see.
#[derive(Clone, Copy, PartialEq, Eq)]
pub struct Local {
    pub number: u8,
    pub ghost below: { number < 12 },
}

impl Local {
    /// Returns its index in a list of all locals.
    pub fn index(self) -> usize
        ensures { result ≡ self.number }
    {
        self.number as usize
    }
}

/// A `Word` is a variable that all threads share.
#[derive(Clone, Copy, PartialEq, Eq)]
pub struct Word {
    pub number: u8,
    pub ghost below: { number < 8 },
}

impl Word {
    /// Returns its index in a list of all words.
    pub fn index(self) -> usize
        ensures { result ≡ self.number }
    {
        self.number as usize
    }
}

/// A `Key` is a key on which threads park.
#[derive(Clone, Copy, PartialEq, Eq)]
pub struct Key {
    pub number: u8,
    pub ghost below: { number < 4 },
}

impl Key {
    /// Returns its index in a list of all keys.
    pub fn index(self) -> usize
        ensures { result ≡ self.number }
    {
        self.number as usize
    }
}

/// A `Thread` is a thread of a test, by its number.
#[derive(Clone, Copy, PartialEq, Eq)]
pub struct Thread {
    pub number: u8,
    pub ghost below: { number < 6 },
}

impl Thread {
    /// Returns the place of the thread in a list of all threads.
    pub fn index(self) -> usize
        ensures { result ≡ self.number }
    {
        self.number as usize
    }
}

/// An `Operand` is a number that an instruction uses.
#[derive(Clone, Copy, PartialEq, Eq)]
pub enum Operand {
    /// The operand is this number.
    Constant(u8),

    /// The operand is what the thread has in this local.
    Local(Local),
}

/// An `Operation` makes a number from two numbers.
#[derive(Clone, Copy, PartialEq, Eq)]
pub enum Operation {
    /// The second number.
    Second,

    /// The sum of both. A sum above 255 is a fault of the test.
    Add,

    /// The first number minus the second. A difference below 0 is a fault of the test.
    Subtract,

    /// The bits that both have.
    And,

    /// The bits that at least one of them has.
    Or,

    /// The bits that exactly one of them has.
    Xor,

    /// 1 if they are equal, otherwise 0.
    Equal,

    /// 1 if they are not equal, otherwise 0.
    Unequal,

    /// 1 if the first is below the second, otherwise 0.
    Below,

    /// 1 if the first is at most the second, otherwise 0.
    AtMost,
}

/// An `Access` says with whom a thread shares the critical section that it is in.
#[derive(Clone, Copy, PartialEq, Eq)]
pub enum Access {
    /// Other threads whose access is `Shared` may be in it too.
    Shared,

    /// No other thread may be in it.
    Alone,
}

/// A `Validation` decides whether a thread that parks goes to sleep.
#[derive(Clone, Copy, PartialEq, Eq)]
pub enum Validation {
    /// The thread sleeps if this number is not 0.
    Given(Operand),

    /// The thread sleeps if the operation makes a number other than 0 from the word and the
    /// operand. The thread reads the word in the step that parks.
    Seen {
        word: Word,
        operation: Operation,
        operand: Operand,
    },
}

/// A `Moves` says which waiters a requeue unparks, and which it moves.
#[derive(Clone, Copy, PartialEq, Eq)]
pub enum Moves {
    Nobody,
    OneUnparkedRestMoved,
    AllMoved,
    OneUnparked,
    OneMoved,
}

/// An `Instruction` is what a thread does next. A `target` is the place of an instruction in the
/// code of the thread.
#[derive(Clone, Copy, PartialEq, Eq)]
pub enum Instruction {
    /// Local: sets the local to what the operation makes of two numbers.
    Compute {
        to: Local,
        operation: Operation,
        first: Operand,
        second: Operand,
    },

    /// Local: goes on at the target.
    Jump {
        target: u16,
    },

    /// Local: goes on at the target if the number is 0.
    JumpUnless {
        operand: Operand,
        target: u16,
    },

    /// Local: shows a fault of the test if the number is 0.
    Assert {
        operand: Operand,
    },

    /// Local: enters the critical section. It is a fault of the test if another thread is in it and
    /// one of the two has the access `Alone`.
    Enter {
        access: Access,
    },

    /// Local: sets the local to the number of threads that wait on the key.
    Count {
        to: Local,
        key: Key,
    },

    /// Local: sets the local to the park token of the waiter at this index of the key's queue. If
    /// there is no such waiter, it goes on at the target.
    Look {
        to: Local,
        key: Key,
        index: Operand,
        target: u16,
    },

    /// Does nothing.
    Pass,

    /// Leaves the critical section.
    Leave,

    /// Reads the word into the local.
    Read {
        to: Local,
        word: Word,
    },

    /// Writes the number to the word.
    Write {
        word: Word,
        operand: Operand,
    },

    /// Sets the word to what the operation makes of the word and the number, and sets the local to
    /// what the word was before.
    Update {
        to: Local,
        word: Word,
        operation: Operation,
        operand: Operand,
    },

    /// Sets the word to `new` if it is `expected`, and sets the local to what the word was before.
    CompareExchange {
        to: Local,
        word: Word,
        expected: Operand,
        new: Operand,
    },

    /// Waits, without parking, until the operation makes a number other than 0 from the word and
    /// the operand.
    Await {
        word: Word,
        operation: Operation,
        operand: Operand,
    },

    /// Waits, without parking, until all other threads have ended.
    AwaitOthers,

    /// Locks the buckets of two keys, which may be the same key.
    Lock {
        key: Key,
        other: Key,
    },

    /// Unlocks the buckets that the thread has locked.
    Unlock,

    /// Enters the queue of the key if the validation decides so; otherwise goes on at the target.
    /// In both cases it unlocks the buckets that the thread has locked.
    Park {
        key: Key,
        validation: Validation,
        token: Operand,
        timing: Timing,
        target: u16,
    },

    /// Sleeps until the thread is unparked, and then sets the local `to` to the token. If the
    /// deadline passes before, it locks the bucket of the thread's queue, sets `last` to 1 if
    /// nobody else waits there and otherwise to 0, and goes on at the target.
    Sleep {
        to: Local,
        last: Local,
        target: u16,
    },

    /// Leaves the thread's queue after its deadline, and unlocks the buckets that the thread has
    /// locked.
    GiveUp,

    /// Unparks the first waiter of the key, and unlocks the buckets that the thread has locked.
    UnparkOne {
        key: Key,
        token: Operand,
    },

    /// Unparks all waiters of the key, and unlocks the buckets that the thread has locked.
    UnparkAll {
        key: Key,
        token: Operand,
    },

    /// Unparks those waiters of the key whose bits are set in a number, and unlocks the buckets
    /// that the thread has locked. The first waiter has bit 0.
    UnparkFilter {
        key: Key,
        chosen: Operand,
        token: Operand,
    },

    /// Unparks waiters of the key or moves them to the other key, and unlocks the buckets that the
    /// thread has locked.
    Requeue {
        key: Key,
        other: Key,
        moves: Moves,
        token: Operand,
    },
}

/// A `Timing` says whether a park has a deadline.
#[derive(Clone, Copy, PartialEq, Eq)]
pub enum Timing {
    Endless,
    Timed,
}

/// A `Code` is the list of instructions that a thread does. The thread ends behind the last one.
#[derive(Drop)]
pub struct Code {
    pub instructions: Vec<Instruction>,
    pub ghost short: { vec_len instructions < 65536 },
}

impl Code {
    /// Creates code from these instructions, or returns `None` if they are too many.
    pub fn new(instructions: Vec<Instruction>) -> Option<Code>
        ensures { IfSome result (λ code. code.instructions.items ≡ instructions.items) }
    {
        if instructions.len() < 65_536 {
            Some(Code { instructions })
        } else {
            None
        }
    }

    /// Creates the code of a thread that has ended from the start. It allocates nothing.
    pub fn none(alloc: Global) -> Code
        ensures { result.instructions.items ≡ [] }
    {
        Code {
            instructions: Vec::new(alloc),
        }
    }

    /// Returns the instruction at this place, or `None` if the place is behind the last one.
    pub fn at(&self, place: u16) -> Option<Instruction>
        ensures { result ≡ slice_get self.now.instructions.items place }
    {
        self.instructions.get(place as usize).copied()
    }
}
