//! What is searched of a file: each of its expectations, with each of its numbers.

use crate::request::Request;
use lot_litmus::parse::{NamedNumber, Parsed, Sizes};
use std::alloc::{AllocError, Global};

/// A search of a file.
#[derive(Drop)]
pub struct Case {
    /// The index of the expectation, or none if nothing is expected.
    pub expectation: Option<usize>,

    /// Numbers in the place of those that the file has.
    pub numbers: Vec<NamedNumber>,
}

impl Case {
    /// The numbers as `parse` takes them.
    pub fn pairs(&self, alloc: Global) -> Result<Vec<(&str, u8)>, AllocError> {
        let mut pairs = Vec::new(alloc);
        for number in &self.numbers {
            pairs.push((number.name.as_str(), number.number))?;
        }
        Ok(pairs)
    }
}

/// The numbers of the request alone.
pub fn plain_case(alloc: Global, request: &Request) -> Result<Case, AllocError> {
    Ok(Case {
        expectation: None,
        numbers: given_numbers(alloc, request)?,
    })
}

/// All searches of a file. Where the request has another number for one that an expectation has
/// numbers for, that expectation counts for its own numbers alone. Where none is left, the file is
/// searched all the same.
pub fn cases_of(
    alloc: Global,
    parsed: &Parsed,
    request: &Request,
) -> Result<Vec<Case>, AllocError> {
    let mut cases = Vec::new(alloc);
    for (index, expectation) in parsed.expectations.iter().enumerate() {
        match &expectation.sizes {
            Some(sizes) => push_sizes(&mut cases, request, index, sizes)?,
            None => cases.push(Case {
                expectation: Some(index),
                numbers: given_numbers(alloc, request)?,
            })?,
        }
    }
    if cases.is_empty() {
        cases.push(plain_case(alloc, request)?)?;
    }
    Ok(cases)
}

// Adds a case for each of the numbers.
fn push_sizes(
    cases: &mut Vec<Case>,
    request: &Request,
    index: usize,
    sizes: &Sizes,
) -> Result<(), AllocError> {
    let alloc = *cases.allocator();
    let given = given_number(request, sizes.name.as_str());
    for value in &sizes.values {
        let mut numbers = given_numbers(alloc, request)?;
        match given {
            Some(number) if number != *value => continue,
            Some(_) => {}
            None => numbers.push(NamedNumber {
                name: sizes.name.clone()?,
                number: *value,
            })?,
        }
        cases.push(Case {
            expectation: Some(index),
            numbers,
        })?;
    }
    Ok(())
}

// The number that the request has for this name.
fn given_number(request: &Request, name: &str) -> Option<u8> {
    for number in &request.numbers {
        if number.name.as_str() == name {
            return Some(number.number);
        }
    }
    None
}

fn given_numbers(alloc: Global, request: &Request) -> Result<Vec<NamedNumber>, AllocError> {
    let mut numbers = Vec::new(alloc);
    for number in &request.numbers {
        numbers.push(NamedNumber {
            name: number.name.clone()?,
            number: number.number,
        })?;
    }
    Ok(numbers)
}
