//! Statements of threads.

use super::block::{Block, Expansion, Loop};
use super::fault::{Fault, Rule, Syntax, Wrong, blamed_on, expected, misplaced};
use super::names::{Macro, Meaning, Scope};
use super::parsed::Statement;
use super::parser::Parser;
use super::token::Kind;
use crate::code::{Access, Instruction, Key, Operand, Operation, Validation};

impl<'t> Parser<'t> {
    /// From here on instructions come from the statement that begins with the next token.
    pub(super) fn begin_statement(&mut self) {
        let token = self.cursor.peek();
        let (line, column) = (token.line, token.column);
        for (index, known) in self.statements.iter().enumerate() {
            if known.line == line && known.column == column {
                self.draft.statement = index;
                return;
            }
        }
        self.draft.statement = self.statements.len();
        let text = String::new(self.alloc);
        if self
            .statements
            .push(Statement { line, column, text })
            .is_err()
        {
            self.draft.fail(Fault::NoMemory);
        }
    }

    /// The statement has been read, or its head. What stands on its first line is kept.
    pub(super) fn end_statement(&mut self) {
        if let Some(statement) = self.statements.get_mut(self.draft.statement)
            && statement.text.is_empty()
        {
            let last = self.cursor.last_on(statement.line);
            match String::from_str(self.alloc, last.since(statement.column)) {
                Ok(text) => statement.text = text,
                Err(_) => self.draft.fail(Fault::NoMemory),
            }
        }
    }

    /// Reads a statement, or the end of a block.
    pub(super) fn statement(&mut self) -> Result<(), Wrong> {
        if self.cursor.take("}") {
            return self.close();
        }
        self.cursor.expect_break()?;
        self.begin_statement();
        let token = self.cursor.peek();
        match token.kind {
            Kind::Name => self.assign_or_call(),
            Kind::Keyword if self.update_statement()? => Ok(()),
            Kind::Keyword => {
                self.cursor.next();
                self.keyword_statement(token.text)
            }
            _ => Err(expected(Syntax::Statement)),
        }
    }

    // `cas` and the like, whose old value nobody wants. Says whether it was one.
    fn update_statement(&mut self) -> Result<bool, Wrong> {
        let Some(old) = self.update()? else {
            return Ok(false);
        };
        self.draft.release(old);
        self.end_statement();
        Ok(true)
    }

    // The statement that begins with this word, which was read.
    fn keyword_statement(&mut self, word: &str) -> Result<(), Wrong> {
        match word {
            "if" => {
                let end = self.draft.label();
                self.open_if(end)
            }
            "while" | "loop" => self.open_loop(word),
            "break" | "continue" => self.leave_loop(word),
            "return" => self.return_statement(),
            "await" | "assert" | "enter" | "leave" => {
                let instruction = self.simple_statement(word)?;
                self.emit_last(instruction);
                Ok(())
            }
            "park" => self.park(),
            "unpark_one" | "unpark_all" => self.unpark(word),
            "filter" => self.filter(),
            "requeue" => self.requeue(),
            "unpark" | "skip" | "stop" => self.decide(word),
            _ => Err(expected(Syntax::Statement).at(self.cursor.last())),
        }
    }

    /// Ends the statement with this instruction.
    pub(super) fn emit_last(&mut self, instruction: Instruction) {
        self.draft.emit(instruction);
        self.end_statement();
    }

    fn simple_statement(&mut self, word: &str) -> Result<Instruction, Wrong> {
        match word {
            "await" => self.await_statement(),
            "assert" => {
                let operand = self.expression()?;
                self.draft.release(operand);
                Ok(Instruction::Assert { operand })
            }
            "enter" => {
                let is_shared = self.cursor.take("shared");
                let access = if is_shared {
                    Access::Shared
                } else {
                    Access::Alone
                };
                Ok(Instruction::Enter { access })
            }
            _ => Ok(Instruction::Leave),
        }
    }

    fn await_statement(&mut self) -> Result<Instruction, Wrong> {
        let Some(
            Validation::Seen {
                word,
                operation,
                operand,
            },
        ) = self.look_at_word()?
        else {
            return Err(expected(Syntax::Comparison));
        };
        self.draft.release(operand);
        Ok(Instruction::Await {
            word,
            operation,
            operand,
        })
    }

    // `while` or `loop`.
    fn open_loop(&mut self, word: &str) -> Result<(), Wrong> {
        let rounds = Loop {
            again: self.draft.label(),
            place: self.draft.len(),
            next: self.draft.label(),
            end: self.draft.label(),
        };
        self.draft.place(rounds.again);
        if word == "while" {
            let condition = self.expression()?;
            self.draft.jump_unless(condition, rounds.end);
        }
        self.cursor.open_brace()?;
        self.open(Block::Loop(rounds));
        Ok(())
    }

    // `break` or `continue`, in a loop with nothing between that is left at its end alone.
    fn leave_loop(&mut self, word: &str) -> Result<(), Wrong> {
        for open in self.blocks.iter().rev() {
            match open.block {
                Block::If { .. } | Block::Else { .. } => {}
                Block::Loop(rounds) => {
                    self.end_statement();
                    self.draft.jump(if word == "break" {
                        rounds.end
                    } else {
                        rounds.next
                    });
                    return Ok(());
                }
                _ => break,
            }
        }
        Err(self.cursor.misplaced(Rule::NoLoop))
    }

    fn return_statement(&mut self) -> Result<(), Wrong> {
        for open in self.blocks.iter().rev() {
            let end = match open.block {
                Block::Thread { end } => end,
                Block::Macro(expansion) => expansion.end,
                block if block.is_run_by_lot() => break,
                _ => continue,
            };
            self.end_statement();
            self.draft.jump(end);
            return Ok(());
        }
        Err(self.cursor.misplaced(Rule::LeavesLot))
    }
}

impl<'t> Parser<'t> {
    // `cas` and the like, if one comes next: the old value, in a temporary.
    fn update(&mut self) -> Result<Option<Operand>, Wrong> {
        let old = match self.cursor.peek().text {
            "cas" => self.compare_exchange()?,
            "count" => self.count()?,
            name => match update_named(name) {
                Some(operation) => self.update_by(operation)?,
                None => return Ok(None),
            },
        };
        Ok(Some(old))
    }

    fn update_by(&mut self, operation: Operation) -> Result<Operand, Wrong> {
        self.cursor.next();
        let word = self.word()?;
        let operand = self.expression()?;
        self.draft.release(operand);
        let to = self.draft.temporary();
        self.draft.emit(Instruction::Update {
            to,
            word,
            operation,
            operand,
        });
        Ok(Operand::Local(to))
    }

    fn compare_exchange(&mut self) -> Result<Operand, Wrong> {
        self.cursor.next();
        let word = self.word()?;
        let expected = self.expression()?;
        let new = self.expression()?;
        self.draft.release(expected);
        self.draft.release(new);
        let to = self.draft.temporary();
        self.draft.emit(Instruction::CompareExchange {
            to,
            word,
            expected,
            new,
        });
        Ok(Operand::Local(to))
    }

    // How many wait on a key. It is counted in the section, or in one of its own.
    fn count(&mut self) -> Result<Operand, Wrong> {
        self.cursor.next();
        let key = self.key()?;
        let Some(locked) = self.section() else {
            self.draft.lock(key, key);
            let waiting = self.draft.waiting(key);
            self.draft.emit(Instruction::Unlock);
            return Ok(waiting);
        };
        for other in locked {
            if let Some(other) = other
                && self.bucket(other) == self.bucket(key)
            {
                return Ok(self.draft.waiting(key));
            }
        }
        Err(self.cursor.misplaced(Rule::BucketNotLocked))
    }

    /// The keys whose buckets are known to be locked here, if buckets are locked.
    pub(super) fn section(&self) -> Option<[Option<Key>; 2]> {
        for open in self.blocks.iter() {
            if let Some(locked) = open.block.section() {
                return Some(locked);
            }
        }
        None
    }
}

impl<'t> Parser<'t> {
    fn assign_or_call(&mut self) -> Result<(), Wrong> {
        let token = self.cursor.at;
        let name = self.cursor.next().text;
        let meaning = self.names.lookup(name);
        if self.cursor.is("(") {
            return match meaning {
                Some(Meaning::Macro(called)) => self.call(called, token),
                _ => Err(expected(Syntax::Macro).at(token)),
            };
        }
        self.cursor.expect("=", Syntax::EqualsOrCall)?;
        if let Some(Meaning::Number(_) | Meaning::Key(_) | Meaning::Macro(_)) = meaning {
            return Err(expected(Syntax::WordOrLocal).at(token));
        }
        let operand = match self.update()? {
            Some(old) => old,
            None => self.expression()?,
        };
        match meaning {
            Some(Meaning::Word(word)) => {
                self.draft.release(operand);
                self.draft.emit(Instruction::Write { word, operand });
            }
            Some(Meaning::Local(local)) => self.draft.set(local, operand),
            _ => {
                let local = self.declare(name);
                blamed_on(self.draft.check(), token)?;
                self.draft.set(local, operand);
            }
        }
        self.end_statement();
        Ok(())
    }

    // Goes on in the text of a macro, of which the name was read.
    fn call(&mut self, called: Macro, token: usize) -> Result<(), Wrong> {
        if self.is_expanding(called.body.from) {
            return Err(misplaced(Rule::CallsItself).at(token));
        }
        let first = self.names.bindings.len();
        self.arguments(called)?;
        let expansion = Expansion {
            body: called.body.from,
            end: self.draft.label(),
            back: self.cursor.at,
            outer: self.names.scope,
        };
        self.open(Block::Macro(expansion));
        self.names.scope = Scope {
            text: called.body,
            first,
            own: self.names.bindings.len(),
        };
        self.cursor.at = called.body.from;
        Ok(())
    }

    // Whether the macro whose text begins at this token is expanded.
    fn is_expanding(&self, body: usize) -> bool {
        for open in &self.blocks {
            if let Block::Macro(expansion) = open.block
                && expansion.body == body
            {
                return true;
            }
        }
        false
    }

    // Binds the parameters of a macro to the arguments, of which the parenthesis is next.
    fn arguments(&mut self, called: Macro) -> Result<(), Wrong> {
        self.cursor.next();
        let mut meanings = Vec::new(self.alloc);
        for count in 0..self.cursor.tokens.len() {
            if !self.cursor.has_element(count)? {
                break;
            }
            meanings.push(self.argument()?)?;
        }
        let (wanted, given) = (called.parameters, meanings.len());
        if given != wanted {
            return Err(Fault::Arguments { wanted, given }.here());
        }
        let mut parameter = called.first;
        for meaning in &meanings {
            let name = self.cursor.token(parameter).text;
            self.names.bind(name, *meaning)?;
            // A comma is between two of them.
            parameter = parameter.saturating_add(2);
        }
        Ok(())
    }

    fn argument(&mut self) -> Result<Meaning, Wrong> {
        match self.number_or_meaning(Syntax::Argument)? {
            Meaning::Macro(_) => Err(expected(Syntax::Argument)),
            meaning => {
                self.cursor.next();
                Ok(meaning)
            }
        }
    }
}

// What a statement of this name makes of a word of the test.
fn update_named(name: &str) -> Option<Operation> {
    match name {
        "swap" => Some(Operation::Second),
        "add" => Some(Operation::Add),
        "sub" => Some(Operation::Subtract),
        "and" => Some(Operation::And),
        "or" => Some(Operation::Or),
        "xor" => Some(Operation::Xor),
        _ => None,
    }
}
