//! What operations make of two numbers.

ghost use Rattle.std.specs.Prelude.{◌≡◌, ◌<◌, Option, Some, None};
ghost use Rattle.lot_litmus.specs.Steps.{made_of, is_set, one_if};

use crate::code::Operation;

pub(crate) fn one_if(holds: bool) -> u8
    ensures { result ≡ one_if holds }
{
    if holds { 1 } else { 0 }
}

impl Operation {
    /// Returns what the operation makes of two numbers, or `None` if that is not a byte.
    pub fn make(self, first: u8, second: u8) -> Option<u8>
        ensures { result ≡ made_of self first second }
    {
        match self {
            Operation::Second => Some(second),
            Operation::Add => first.checked_add(second),
            Operation::Subtract => first.checked_sub(second),
            Operation::And => Some(first & second),
            Operation::Or => Some(first | second),
            Operation::Xor => Some(first ^ second),
            Operation::Equal => Some(one_if(first == second)),
            Operation::Unequal => Some(one_if(first != second)),
            Operation::Below => Some(one_if(first < second)),
            Operation::AtMost => Some(one_if(first <= second)),
        }
    }

    /// Returns whether the operation makes a number other than 0 of the two.
    pub fn holds(self, first: u8, second: u8) -> bool
        ensures { result ≡ is_set (made_of self first second) }
    {
        match self.make(first, second) {
            Some(number) => number != 0,
            None => false,
        }
    }
}
