//! How often each outcome came, beside those that a search foresees.

use crate::grade::Grade;
use lot_litmus::code::WORDS;
use lot_litmus::outcomes::Outcome;
use lot_litmus::parse::Parsed;
use lot_litmus::test::Fault;
use std::alloc::{AllocError, Global};
use std::io;

/// How a thread of a lot sleeps.
#[derive(Clone, Copy)]
pub enum Parker {
    Word,
    Thread,
    Yield,
}

const PARKERS: usize = 3;

// An outcome, whether it is expected, and how often it came with each parker.
#[derive(Clone, Copy)]
struct Row {
    outcome: Outcome,
    grade: Grade,
    counts: [u64; PARKERS],
}

/// How often each outcome came.
#[derive(Drop)]
pub struct Tally {
    rows: Vec<Row>,
}

impl Tally {
    /// None came yet of those that are foreseen.
    pub fn new(alloc: Global, foreseen: &[Outcome]) -> Result<Tally, AllocError> {
        let mut tally = Tally {
            rows: Vec::new(alloc),
        };
        for &outcome in foreseen {
            tally.push(outcome, Grade::Expected)?;
        }
        Ok(tally)
    }

    fn push(&mut self, outcome: Outcome, grade: Grade) -> Result<usize, AllocError> {
        let index = self.rows.len();
        self.rows.push(Row {
            outcome,
            grade,
            counts: [0; PARKERS],
        })?;
        Ok(index)
    }

    /// The outcome came once with this parker.
    pub fn count(&mut self, outcome: Outcome, parker: Parker) -> Result<(), AllocError> {
        let index = match self.rows.iter().position(|row| row.outcome == outcome) {
            Some(index) => index,
            None => self.push(outcome, Grade::Unexpected)?,
        };
        if let Some(row) = self.rows.get_mut(index)
            && let Some(count) = row.counts.get_mut(parker as usize)
        {
            *count = count.saturating_add(1);
        }
        Ok(())
    }

    /// Prints a line for each outcome. What is foreseen is expected.
    pub fn print<R: Print>(&self, rt: &R, parsed: &Parsed) -> io::Result<Grade> {
        println!(rt; "{:>10}{:>10}{:>10}", "word", "thread", "yield")?;
        let mut grade = Grade::Expected;
        for row in &self.rows {
            for count in row.counts {
                print!(rt; "{count:>10}")?;
            }
            print!(rt; "  ")?;
            print_outcome(rt, parsed, row.outcome)?;
            println!(rt; "{}", row.remark())?;
            grade = grade.worse(row.grade);
        }
        Ok(grade)
    }
}

impl Row {
    fn remark(&self) -> &'static str {
        match self.grade {
            Grade::Expected => "",
            _ => ", which is not foreseen",
        }
    }
}

fn print_outcome<R: Print>(rt: &R, parsed: &Parsed, outcome: Outcome) -> io::Result<()> {
    match outcome {
        Outcome::Ends(words) => print_words(rt, parsed, words),
        Outcome::Fails(Fault::Assertion) => print!(rt; "an assertion fails"),
        Outcome::Fails(Fault::Exclusion) => print!(rt; "two are in the critical section"),
        Outcome::Fails(Fault::Overflow) => print!(rt; "a number is no byte"),
        Outcome::Fails(Fault::Endless) => print!(rt; "a thread goes on without a step"),
        Outcome::Stuck => print!(rt; "somebody waits for ever"),
    }
}

fn print_words<R: Print>(rt: &R, parsed: &Parsed, words: [u8; WORDS]) -> io::Result<()> {
    print!(rt; "all end")?;
    for (name, word) in parsed.words.iter().zip(words) {
        print!(rt; " {name}={word}")?;
    }
    Ok(())
}
