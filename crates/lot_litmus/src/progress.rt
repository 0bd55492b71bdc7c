//! How far a thread has come.

ghost use Rattle.std.specs.Prelude.{◌≡◌, ◌<◌, None};
ghost use Rattle.lot_litmus.specs.Steps.{value_of, with_local, advanced, at_target, unlocked};

use crate::code::{KEYS, Local, Operand};
use crate::state::Progress;

impl Progress {
    /// Returns the number that the operand stands for.
    pub fn value(&self, operand: Operand) -> u8
        ensures { result ≡ value_of self.now operand }
    {
        match operand {
            Operand::Constant(number) => number,
            Operand::Local(local) => self.locals[local.index()],
        }
    }

    /// Returns this progress with the number in the local.
    pub fn with_local(self, to: Local, number: u8) -> Progress
        ensures { result ≡ with_local self to number }
    {
        let mut next = self;
        next.locals[to.index()] = number;
        next
    }

    /// Returns this progress with the number in the local, at the next instruction.
    pub fn advanced_with(self, to: Local, number: u8) -> Progress
        requires { self.at < 65535 }
        ensures { result ≡ advanced (with_local self to number) }
    {
        self.with_local(to, number).advanced()
    }

    /// Returns this progress at the next instruction.
    pub fn advanced(self) -> Progress
        requires { self.at < 65535 }
        ensures { result ≡ advanced self }
    {
        Progress {
            at: self.at + 1,
            ..self
        }
    }

    /// Returns this progress at the target.
    pub fn at_target(self, target: u16) -> Progress
        ensures { result ≡ at_target self target }
    {
        Progress { at: target, ..self }
    }

    /// Returns this progress outside of the critical section.
    pub fn outside(self) -> Progress
        ensures { result ≡ record self { inside = None } }
    {
        Progress {
            inside: None,
            ..self
        }
    }

    /// Returns this progress with no bucket locked.
    pub fn unlocked(self) -> Progress
        ensures { result ≡ unlocked self }
    {
        Progress {
            locked: [false; KEYS],
            ..self
        }
    }
}
