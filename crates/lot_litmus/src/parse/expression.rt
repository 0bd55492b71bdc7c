//! Expressions.

use super::fault::{Fault, Rule, Syntax, Wrong, blamed_on, expected};
use super::names::Meaning;
use super::parser::Parser;
use crate::code::{Instruction, Operand, Operation};

// What a number says.
#[derive(Clone, Copy, PartialEq, Eq)]
enum Sense {
    // Any number.
    Number,

    // 0 or 1.
    Truth,
}

// A part of an expression.
#[derive(Clone, Copy)]
struct Value {
    operand: Operand,
    sense: Sense,
}

// What an operator makes.
#[derive(Clone, Copy, PartialEq, Eq)]
enum Form {
    // Nothing: it is a parenthesis, which waits for the other one.
    Nothing,

    // What is so if the value is not.
    Not,

    // A truth of two truths.
    Truth,

    // A truth of two numbers, or of the second and the first.
    Comparison,
    Turned,

    // A number of two numbers.
    Number,
}

/// What stands before a value, or between two.
#[derive(Clone, Copy)]
pub(super) struct Operator {
    /// How strongly it binds, as in Rust.
    pub(super) strength: u8,
    operation: Operation,
    form: Form,
}

// Those that stand between two values.
const OPERATORS: [(&str, u8, Operation, Form); 13] = [
    ("||", 1, Operation::Or, Form::Truth),
    ("&&", 2, Operation::And, Form::Truth),
    ("==", 3, Operation::Equal, Form::Comparison),
    ("!=", 3, Operation::Unequal, Form::Comparison),
    ("<", 3, Operation::Below, Form::Comparison),
    ("<=", 3, Operation::AtMost, Form::Comparison),
    (">", 3, Operation::Below, Form::Turned),
    (">=", 3, Operation::AtMost, Form::Turned),
    ("|", 4, Operation::Or, Form::Number),
    ("^", 5, Operation::Xor, Form::Number),
    ("&", 6, Operation::And, Form::Number),
    ("+", 7, Operation::Add, Form::Number),
    ("-", 7, Operation::Subtract, Form::Number),
];

const WEAKEST: u8 = 1;

const STRONGEST: u8 = 8;

impl Operator {
    // One that stands before a value.
    fn before(strength: u8, form: Form) -> Operator {
        Operator {
            strength,
            operation: Operation::Equal,
            form,
        }
    }

    /// The operator between two values that has this sign.
    pub(super) fn of(text: &str) -> Option<Operator> {
        for (sign, strength, operation, form) in &OPERATORS {
            if *sign == text {
                return Some(Operator {
                    strength: *strength,
                    operation: *operation,
                    form: *form,
                });
            }
        }
        None
    }

    /// How a word is compared with a number by one look at it.
    pub(super) fn looking(self, operand: Operand) -> Option<(Operation, Operand)> {
        match (self.form, self.operation, operand) {
            (Form::Comparison, operation, _)
            | (Form::Number, operation @ (Operation::And | Operation::Or | Operation::Xor), _) => {
                Some((operation, operand))
            }
            // A difference is a byte other than 0 where the word is above the number.
            (Form::Turned, Operation::Below, _) => Some((Operation::Subtract, operand)),
            (Form::Turned, _, Operand::Constant(number)) => {
                let below = number.checked_sub(1)?;
                Some((Operation::Subtract, Operand::Constant(below)))
            }
            _ => None,
        }
    }
}

// An operator that waits for a value behind it, and the index of its token.
#[derive(Clone, Copy)]
struct Waiting {
    operator: Operator,
    token: usize,
}

// An expression of which a part was read.
#[derive(Drop)]
struct Reading {
    values: Vec<Value>,
    waiting: Vec<Waiting>,

    // How many parentheses are open.
    open: usize,
}

impl<'t> Parser<'t> {
    /// Reads an expression: the number that it comes to.
    pub(super) fn expression(&mut self) -> Result<Operand, Wrong> {
        self.expression_above(0)
    }

    /// Reads an expression up to an operator that binds no more strongly than this.
    pub(super) fn expression_above(&mut self, strength: u8) -> Result<Operand, Wrong> {
        let mut reading = Reading {
            values: Vec::new(self.alloc),
            waiting: Vec::new(self.alloc),
            open: 0,
        };
        for _ in 0..self.cursor.tokens.len() {
            self.read_value(&mut reading)?;
            if !self.read_operator(&mut reading, strength)? {
                break;
            }
        }
        self.apply(&mut reading, WEAKEST)?;
        match reading.values.pop() {
            Some(value) if reading.waiting.is_empty() => Ok(value.operand),
            _ => Err(expected(Syntax::Operator)),
        }
    }

    // Reads a value, and what stands before it.
    fn read_value(&mut self, reading: &mut Reading) -> Result<(), Wrong> {
        for _ in 0..self.cursor.tokens.len() {
            let token = self.cursor.at;
            let operator = if self.cursor.take("!") {
                Operator::before(STRONGEST, Form::Not)
            } else if self.cursor.take("(") {
                reading.open = reading.open.saturating_add(1);
                Operator::before(0, Form::Nothing)
            } else {
                break;
            };
            reading.waiting.push(Waiting { operator, token })?;
        }
        let operand = self.number()?;
        let sense = Sense::Number;
        reading.values.push(Value { operand, sense })?;
        self.apply(reading, STRONGEST)
    }

    // Reads what stands behind a value. Says whether that is an operator, behind which there is
    // another value.
    fn read_operator(&mut self, reading: &mut Reading, bound: u8) -> Result<bool, Wrong> {
        for _ in 0..reading.open {
            if !self.cursor.take(")") {
                break;
            }
            self.apply(reading, WEAKEST)?;
            reading.waiting.pop();
            reading.open = reading.open.saturating_sub(1);
            self.apply(reading, STRONGEST)?;
        }
        let token = self.cursor.at;
        match Operator::of(self.cursor.peek().text) {
            Some(operator) if reading.open > 0 || operator.strength > bound => {
                self.cursor.next();
                self.apply(reading, operator.strength)?;
                reading.waiting.push(Waiting { operator, token })?;
                Ok(true)
            }
            _ => Ok(false),
        }
    }

    // Applies what waits, as far as it binds as strongly as this or more.
    fn apply(&mut self, reading: &mut Reading, strength: u8) -> Result<(), Wrong> {
        for _ in 0..reading.waiting.len() {
            match reading.waiting.last().copied() {
                Some(last) if last.operator.strength >= strength => {
                    reading.waiting.pop();
                    self.apply_one(reading, last)?;
                }
                _ => break,
            }
        }
        Ok(())
    }

    fn apply_one(&mut self, reading: &mut Reading, last: Waiting) -> Result<(), Wrong> {
        let Some(second) = reading.values.pop() else {
            return Ok(());
        };
        let made = if last.operator.form == Form::Not {
            self.turned(second)
        } else if let Some(first) = reading.values.pop() {
            self.combined(last.operator, first, second)
        } else {
            return Ok(());
        };
        blamed_on(self.draft.check(), last.token)?;
        reading.values.push(made)?;
        Ok(())
    }

    fn turned(&mut self, value: Value) -> Value {
        if value.sense == Sense::Number && matches!(value.operand, Operand::Constant(_)) {
            self.draft.fail(Fault::Misplaced(Rule::NotForBits));
        }
        let zero = Operand::Constant(0);
        let operand = self.draft.compute(Operation::Equal, value.operand, zero);
        let sense = Sense::Truth;
        Value { operand, sense }
    }

    fn combined(&mut self, operator: Operator, first: Value, second: Value) -> Value {
        let (a, b) = match operator.form {
            Form::Truth => (self.truth(first), self.truth(second)),
            Form::Turned => (second.operand, first.operand),
            _ => (first.operand, second.operand),
        };
        let sense = match operator.form {
            Form::Number => Sense::Number,
            _ => Sense::Truth,
        };
        let operand = self.draft.compute(operator.operation, a, b);
        Value { operand, sense }
    }

    // 1 if the number is not 0.
    fn truth(&mut self, value: Value) -> Operand {
        let zero = Operand::Constant(0);
        match value.sense {
            Sense::Truth => value.operand,
            Sense::Number => self.draft.compute(Operation::Unequal, value.operand, zero),
        }
    }

    // A number, what is in a local, or what is read of a word.
    fn number(&mut self) -> Result<Operand, Wrong> {
        let token = self.cursor.at;
        let meaning = self.number_or_meaning(Syntax::Value)?;
        self.cursor.next();
        match meaning {
            Meaning::Number(number) => Ok(Operand::Constant(number)),
            Meaning::Local(local) => Ok(Operand::Local(local)),
            Meaning::Word(word) => {
                let to = self.draft.temporary();
                self.draft.emit(Instruction::Read { to, word });
                self.draft.check()?;
                Ok(Operand::Local(to))
            }
            _ => Err(expected(Syntax::Value).at(token)),
        }
    }

    /// Reads a number that is known before the test begins.
    pub(super) fn constant(&mut self) -> Result<u8, Wrong> {
        let token = self.cursor.at;
        let place = self.draft.len();
        match self.expression()? {
            Operand::Constant(number) if self.draft.len() == place => Ok(number),
            _ => Err(expected(Syntax::KnownNumber).at(token)),
        }
    }
}
