//! This module has what a search has found so far.

ghost use Rattle.std.specs.Prelude.{◌≡◌, ◌<◌, [], ◌++◌, ◌∷◌, IfOk, IsTrue, None, length};
ghost use Rattle.lot_machine.specs.Machine.{IsConsistent};
ghost use Rattle.lot_litmus.specs.Search.{IsAt, Grows, HasLooked, IsSearch};
ghost use Rattle.lot_litmus.specs.View.{machine_of};

use crate::code::{THREADS, Thread};
use crate::reached::Reached;
use crate::seen::Seen;
use crate::state::State;
use crate::step::After;
use crate::test::Test;
use std::alloc::{AllocError, Global};

/// An `Origin` says by whose step a state was found first, and from which other state.
#[derive(Clone, Copy)]
pub(crate) struct Origin {
    pub from: u32,
    pub thread: Thread,
}

impl Origin {
    /// The origin of the first state, which was found without a step.
    pub const FIRST: Origin = Origin {
        from: 0,
        thread: Thread { number: 0 },
    };
}

/// `Leads` say where the steps from a state lead: for each thread the index of a state, or none if
/// the thread cannot go on.
#[derive(Clone, Copy)]
pub struct Leads {
    pub to: [Option<u32>; THREADS],
}

impl Leads {
    /// The leads of a state from which no thread can go on.
    pub const NOWHERE: Leads = Leads {
        to: [None; THREADS],
    };
}

/// What comes of a look at a state.
#[derive(Clone, Copy)]
pub(crate) enum Looked {
    /// The steps from it lead there.
    Leads(Leads),

    /// The step of this thread shows a fault.
    Fails(Thread),
}

/// A `Search` has the states that were found, in the order in which they were found. The index of a
/// state is its place. There is no memory for more than 2^32 states, which take a terabyte.
#[derive(Drop)]
pub struct Search {
    states: Vec<Reached>,
    origins: Vec<Origin>,

    // Of the states that were looked at, which are the first so many.
    leads: Vec<Leads>,

    seen: Seen,
}

impl Search {
    /// A search that has found nothing. It asks for no memory.
    pub(crate) fn none(alloc: Global) -> Search
        ensures states { result.states.items ≡ [] }
        ensures leads { result.leads.items ≡ [] }
    {
        Search {
            states: Vec::new(alloc),
            origins: Vec::new(alloc),
            leads: Vec::new(alloc),
            seen: Seen::new(alloc),
        }
    }

    /// Creates a search that has found the state in which the test begins.
    ///
    /// # Errors
    ///
    /// Returns `AllocError` if there is not enough memory.
    pub fn new(alloc: Global, test: &Test) -> Result<Search, AllocError>
        ensures { IfOk result (λ search. IsSearch test.now search) }
    {
        let mut search = Search::none(alloc);
        let first = Reached::first(test);
        let hash = first.state().hash();
        search.push(first, hash, Origin::FIRST)?;
        Ok(search)
    }

    /// Returns the states that were found.
    pub fn states(&self) -> &[Reached]
        ensures { result.now ≡ self.now.states.items }
    {
        self.states.as_slice()
    }

    /// Returns where the steps lead from the states that were looked at.
    pub fn leads(&self) -> &[Leads]
        ensures { result.now ≡ self.now.leads.items }
    {
        self.leads.as_slice()
    }

    /// Where indices of states are found again.
    pub(crate) fn seen(&self) -> &Seen {
        &self.seen
    }

    /// Looks at the next state: adds the states to which its steps lead, or returns the thread
    /// whose step shows a fault.
    ///
    /// # Errors
    ///
    /// Returns `AllocError` if there is not enough memory.
    pub fn look(&mut self, test: &Test) -> Result<Option<Thread>, AllocError>
        requires search { IsSearch test.now self.old }
        requires within { length self.old.leads.items < length self.old.states.items }
        ensures { IfOk result (λ failing. failing ≡ None → IsSearch test.now self.new) }
    {
        let Ok(index) = u32::try_from(self.leads.len()) else {
            return Err(AllocError);
        };
        match self.look_at(test, index)? {
            Looked::Leads(leads) => {
                self.push_leads(leads)?;
                Ok(None)
            }
            Looked::Fails(thread) => Ok(Some(thread)),
        }
    }

    /// Notes where the steps lead from the next state.
    ///
    /// # Errors
    ///
    /// `AllocError` if memory cannot be had.
    pub(crate) fn push_leads(&mut self, leads: Leads) -> Result<(), AllocError>
        ensures { IfOk result (λ _. (self.new.states.items ≡ self.old.states.items)
            × (self.new.leads.items ≡ self.old.leads.items ++ leads ∷ [])) }
    {
        self.leads.push(leads)?;
        Ok(())
    }

    // Looks at the state at this index.
    fn look_at(&mut self, test: &Test, index: u32) -> Result<Looked, AllocError>
        requires { index < length self.old.states.items }
        ensures { IfOk result (λ looked. Grows self.old.states.items self.new.states.items
            × (self.new.leads.items ≡ self.old.leads.items)
            × HasLooked test.now self.old.states.items self.new.states.items index looked) }
    {
        let mut leads = Leads::NOWHERE;
        let mut next = *self.states[index as usize].state();
        for number in 0..THREADS as u8 {
            let thread = Thread { number };
            let from = self.states[index as usize].state();
            let to = match test.step_from(from, &mut next, thread) {
                After::Blocked => None,
                After::Goes => {
                    let origin = Origin {
                        from: index,
                        thread,
                    };
                    Some(self.find(&next, origin)?)
                }
                After::Fails(_) => return Ok(Looked::Fails(thread)),
            };
            leads.to[thread.index()] = to;
        }
        Ok(Looked::Leads(leads))
    }

    // The index of a state, which is added if it is new.
    fn find(&mut self, state: &State, origin: Origin) -> Result<u32, AllocError>
        requires { IsConsistent (machine_of state.now.queues state.now.standings) }
        ensures { IfOk result (λ index. Grows self.old.states.items self.new.states.items
            × (self.new.leads.items ≡ self.old.leads.items)
            × IsAt self.new.states.items index state.now) }
    {
        let hash = state.hash();
        let states = self.states.as_slice();
        match self
            .seen
            .find(hash, |index| is_at(states, index as usize, state))
        {
            Some(index) => Ok(index),
            None => self.push(Reached::new(*state), hash, origin),
        }
    }

    /// Adds a state with its hash, and answers its index.
    ///
    /// # Errors
    ///
    /// `AllocError` if memory cannot be had.
    pub(crate) fn push(
        &mut self,
        state: Reached,
        hash: u32,
        origin: Origin,
    ) -> Result<u32, AllocError>
        ensures { IfOk result (λ index. Grows self.old.states.items self.new.states.items
            × (self.new.leads.items ≡ self.old.leads.items)
            × IsAt self.new.states.items index state
            × (index ≡ length self.old.states.items)) }
    {
        let Ok(index) = u32::try_from(self.states.len()) else {
            return Err(AllocError);
        };
        self.states.push(state)?;
        self.origins.push(origin)?;
        self.seen.note(hash, index)?;
        Ok(index)
    }

    /// Returns the schedule that leads from the first state to the state with this index.
    ///
    /// # Errors
    ///
    /// Returns `AllocError` if there is not enough memory.
    pub fn schedule(&self, alloc: Global, index: usize) -> Result<Vec<Thread>, AllocError> {
        let mut schedule = Vec::new(alloc);
        let mut at = index;
        for _ in 0..self.origins.len() {
            if at == 0 {
                break;
            }
            let Some(&Origin { from, thread }) = self.origins.get(at) else {
                break;
            };
            schedule.push(thread)?;
            at = from as usize;
        }
        schedule.reverse();
        Ok(schedule)
    }
}

impl Search {
    /// Returns how many steps lead from the first state to the state with this index.
    pub fn depth(&self, index: usize) -> usize {
        let mut depth = 0usize;
        let mut at = index;
        for _ in 0..self.origins.len() {
            match self.origins.get(at) {
                Some(origin) if at != 0 => at = origin.from as usize,
                _ => break,
            }
            depth = depth.saturating_add(1);
        }
        depth
    }
}

/// Returns whether the state is at this index of the list.
pub fn is_at(states: &[Reached], index: usize, state: &State) -> bool
    ensures { IsTrue result → IsAt states.now index state.now }
{
    if index >= states.len() {
        return false;
    }
    states[index].state().is_same(state)
}
