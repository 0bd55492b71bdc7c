//! This module finds the states from which all threads can still end.

ghost use Rattle.std.specs.Prelude.{◌≡◌, ℕ, ◌<◌, IfOk, IfSome, IfNone, IsTrue, Some, slice_get, length, true, false};
ghost use Rattle.lot_litmus.specs.Search.{IsSearch, AreHopeful, AreLost, lead_to_marked, is_hopeful};

use crate::search::{Leads, Search};
use crate::test::Test;
use std::alloc::{AllocError, Global};

impl Leads {
    // Whether one of them leads to a state that is marked.
    fn lead_to_marked(&self, marks: &[bool]) -> bool
        ensures { result ≡ lead_to_marked marks.now self.now.to }
    {
        for to in &self.to {
            if let Some(index) = to
                && marks.get(*index as usize) == Some(&true)
            {
                return true;
            }
        }
        false
    }
}

impl Leads {
    // Whether one of them leads to a state that is marked, or they lead nowhere.
    fn give_hope(&self, marks: &[bool]) -> bool {
        let mut gives = true;
        for to in &self.to {
            if let Some(index) = to {
                if marks.get(*index as usize) == Some(&true) {
                    return true;
                }
                gives = false;
            }
        }
        gives
    }
}

impl Search {
    /// Marks the states from which some steps lead to a state in which all threads have ended.
    ///
    /// # Errors
    ///
    /// Returns `AllocError` if there is not enough memory.
    pub fn hopeful(&self, alloc: Global, test: &Test) -> Result<Vec<bool>, AllocError>
        ensures length { IfOk result (λ marks.
            length marks.items ≡ length self.now.states.items) }
        ensures hopeful { IfOk result (λ marks. IsSearch test.now self.now
            → AreHopeful test.now self.now.states.items marks.items) }
    {
        let mut marks = vec![in alloc; false; self.states().len()]?;
        for _ in 0..self.states().len() {
            if !self.mark_more(test, &mut marks) {
                break;
            }
        }
        Ok(marks)
    }

    // Marks states that have ended, and those from which a step leads to one that is marked. Later
    // states are mostly nearer to an end.
    fn mark_more(&self, test: &Test, marks: &mut Vec<bool>) -> bool
        ensures hopeful { IsSearch test.now self.now
            → AreHopeful test.now self.now.states.items marks.old.items
            → AreHopeful test.now self.now.states.items marks.new.items }
        ensures length { length marks.new.items ≡ length marks.old.items }
    {
        let mut has_marked = false;
        for passed in 0..marks.len() {
            let index = marks.len() - 1 - passed;
            has_marked |= self.mark(test, marks, index);
        }
        has_marked
    }

    // Marks the state at the index, if it is not, and an end can be reached from there.
    fn mark(&self, test: &Test, marks: &mut Vec<bool>, index: usize) -> bool
        requires { index < length marks.old.items }
        ensures hopeful { IsSearch test.now self.now
            → AreHopeful test.now self.now.states.items marks.old.items
            → AreHopeful test.now self.now.states.items marks.new.items }
        ensures length { length marks.new.items ≡ length marks.old.items }
    {
        if marks[index] || !self.may_be_hopeful(marks.as_slice(), index) {
            return false;
        }
        if !self.is_hopeful(test, marks.as_slice(), index) {
            return false;
        }
        marks[index] = true;
        true
    }

    // Whether it is worth a look whether the state at the index is hopeful.
    fn may_be_hopeful(&self, marks: &[bool], index: usize) -> bool {
        match self.leads().get(index) {
            Some(leads) => leads.give_hope(marks),
            None => false,
        }
    }

    // Whether the state at the index has ended, or a step leads from there to one that is marked.
    fn is_hopeful(&self, test: &Test, marks: &[bool], index: usize) -> bool
        ensures { result ≡ is_hopeful test.now marks.now
            (slice_get self.now.states.items index) (slice_get self.now.leads.items index) }
    {
        match (self.states().get(index), self.leads().get(index)) {
            (Some(state), Some(leads)) => {
                leads.lead_to_marked(marks) || test.unended(state.state()) == 0
            }
            _ => false,
        }
    }

    /// Returns whether no state without a mark has ended, and no step from one leads to a marked
    /// state.
    pub fn are_lost(&self, test: &Test, marks: &[bool]) -> bool
        requires search { IsSearch test.now self.now }
        requires complete { length self.now.leads.items ≡ length self.now.states.items }
        requires all { length marks.now ≡ length self.now.states.items }
        ensures { IsTrue result → AreLost test.now self.now.states.items marks.now }
    {
        for index in 0..marks.len() {
            if !marks[index] && self.is_hopeful(test, marks, index) {
                return false;
            }
        }
        true
    }
}

/// Returns the index of the first state without a mark.
pub fn first_unmarked(marks: &[bool]) -> Option<usize>
    ensures none { IfNone result
        ((i : ℕ) → i < length marks.now → slice_get marks.now i ≡ Some true) }
    ensures some { IfSome result (λ index. slice_get marks.now index ≡ Some false) }
{
    for index in 0..marks.len() {
        if !marks[index] {
            return Some(index);
        }
    }
    None
}
