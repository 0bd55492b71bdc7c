//! This module has what an interleaved lot keeps for each caller.

ghost use Rattle.std.specs.Prelude.{◌≡◌, ◌≢◌, ◌↔◌, ◌+◌, ◌-◌, ◌≤◌, ◌==◌, ◌&&◌, List, [], ◌∷◌, true, Some, None, is_some, is_none, IsOk, IfOk, OnOk, OnErr, IfSome, IfNone, length, map, replicate};
ghost use Rattle.std.specs.List.{list_any};
ghost use Rattle.lot_base.specs.Node.{fields};
ghost use Rattle.lot_base.specs.Waiting.{has_any};
ghost use Rattle.lot_simulator.specs.InterleavedState as interleaved;
ghost use Rattle.lot_base.specs.Place.{IsTableSize, place_of};
ghost use Rattle.lot_simulator.specs.InterleavedSteps.{holds, keys_of};
ghost use Rattle.lot_simulator.specs.InterleavedView.{taken_in};
ghost use Rattle.lot_simulator.specs.Private.FineCaller.{places_of, taken_thread, taken_threads};

use crate::schedule::Op;
use lot_base::bucket::place;
use lot_base::queue::{Node, Queue};
use lot_base::token::{Misfit, NoMemory};
use lot_machine::numbers::MAX_THREADS;
use std::alloc::Global;
use std::marker::Model;

// The places of the buckets that a section holds: that of its key, or those of the two keys of a
// requeue, which may be one.
#[derive(Copy, Clone)]
pub(super) enum Held {
    One(usize),
    Two(usize, usize),
}

impl Held {
    // The places of the operation's keys, in a table of this size.
    pub(super) fn of(op: &Op, size: usize) -> Held
        requires { IsTableSize size }
        ensures { places_of result ≡ map (λ key. place_of key size) (keys_of op.now) }
    {
        match op {
            Op::One { key, .. } | Op::All { key, .. } | Op::Filter { key, .. } => {
                Held::One(place(*key, size))
            }
            Op::Requeue { from, to, .. } => Held::Two(place(*from, size), place(*to, size)),
        }
    }

    // Whether one of them is this place.
    fn contains(self, place: usize) -> bool
        ensures { result ≡ list_any (λ held. held == place) (places_of self) }
    {
        match self {
            Held::One(held) => held == place,
            Held::Two(first, second) => first == place || second == place,
        }
    }
}

// An open section, and the nodes that it took and has not handed on.
#[derive(Drop)]
struct Section {
    held: Held,
    taken: Queue,
}

impl Model for Section {
    ghost use Rattle.lot_simulator.specs.InterleavedState as interleaved;

    ghost Value = { interleaved.Section };

    ghost use Rattle.lot_simulator.specs.Private.FineCaller.{places_of, taken_threads};

    ghost view = { λ section. record {
      held = places_of section.held;
      taken = taken_threads section.taken;
    } };
}

// A caller: its section, if one is open, and how many threads it is still to wake. Those that its
// section has and those that it is to wake are together no more than a lot can have, so `wakes`
// never overflows.
#[derive(Drop)]
pub(super) struct Caller {
    section: Option<Section>,
    wakes: usize,
}

impl Model for Caller {
    ghost use Rattle.lot_simulator.specs.InterleavedState as interleaved;

    ghost Value = { interleaved.Caller };

    ghost use Rattle.std.specs.Prelude.{◌+◌, ◌≤◌, length};
    ghost use Rattle.lot_machine.specs.declared.numbers.TheConstants.{MAX_THREADS};
    ghost use Rattle.lot_simulator.specs.InterleavedView.{taken_in};

    ghost view = { λ caller. record { section = caller.section; wakes = caller.wakes } };

    ghost invariant = { λ caller. length (taken_in caller.section) + caller.wakes ≤ MAX_THREADS };
}

impl Caller {
    // A caller whose section has begun: it holds these buckets, and has taken these nodes.
    pub(super) fn in_section(held: Held, taken: Queue) -> Caller
        requires { length taken ≤ MAX_THREADS }
        ensures { result ≡ record {
          section = Some (record { held = places_of held; taken = taken_threads taken });
          wakes = 0;
        } }
    {
        let section = Some(Section { held, taken });
        Caller { section, wakes: 0 }
    }

    // Whether a section of the caller is open.
    pub(super) fn is_open(&self) -> bool
        ensures { result ≡ is_some self.now.section }
    {
        self.section.is_some()
    }

    // Whether the caller may begin a section: it has none open and nobody to wake.
    pub(super) fn is_idle(&self) -> bool
        ensures { result ≡ (is_none self.now.section && self.now.wakes == 0) }
    {
        self.section.is_none() && self.wakes == 0
    }

    // Whether an open section of the caller holds the bucket at this place.
    pub(super) fn holds(&self, place: usize) -> bool
        ensures { result ≡ holds place self.now.section }
    {
        match &self.section {
            Some(section) => section.held.contains(place),
            None => false,
        }
    }

    // Whether the open section has the node of this thread.
    pub(super) fn has_taken(&self, number: usize) -> bool
        ensures { result
            ≡ list_any (λ taken. taken.number == number) (taken_in self.now.section) }
    {
        match &self.section {
            Some(section) => section
                .taken
                .fold(false, |found, node| found || node.number == number),
            None => false,
        }
    }

    // Takes the first of the nodes that the open section has taken, and notes that its thread is to
    // be woken.
    pub(super) fn hand_on(&mut self) -> Option<Box<Node>>
        ensures some { IfSome result (λ node. (section : interleaved.Section)
            × (rest : List interleaved.TakenThread)
            × (self.old.section ≡ Some section)
            × (section.taken ≡ taken_thread (fields node.value) ∷ rest)
            × (self.new ≡ record {
              section = Some (record section { taken = rest });
              wakes = self.old.wakes + 1;
            })) }
        ensures none { IfNone result ((self.new ≡ self.old) × (taken_in self.old.section ≡ [])) }
    {
        let section = self.section.as_mut()?;
        let node = section.taken.pop_front()?;
        self.wakes += 1;
        Some(node)
    }

    // Closes the open section, if it has handed on all that it took.
    pub(super) fn end(&mut self) -> Result<(), Misfit>
        ensures ok { OnOk result ((section : interleaved.Section)
            × (self.old.section ≡ Some section) × (section.taken ≡ [])
            × (self.new ≡ record self.old { section = None })) }
        ensures err { OnErr result ((self.new ≡ self.old) × ((section : interleaved.Section)
            → self.old.section ≡ Some section → has_any section.taken ≡ true)) }
    {
        let Some(section) = &self.section else {
            return Err(Misfit);
        };
        if section.taken.front().is_some() {
            return Err(Misfit);
        }
        self.section = None;
        Ok(())
    }

    // Notes that one of the threads was woken that the caller is to wake.
    pub(super) fn wake(&mut self) -> Result<(), Misfit>
        ensures fits { IsOk result ↔ (self.old.wakes ≢ 0) }
        ensures ok { OnOk result (self.new
            ≡ record self.old { wakes = self.old.wakes - 1 }) }
        ensures err { OnErr result (self.new ≡ self.old) }
    {
        if self.wakes == 0 {
            return Err(Misfit);
        }
        self.wakes -= 1;
        Ok(())
    }
}

// So many callers, none of which has an open section or anybody to wake.
pub(super) fn idle_callers(alloc: Global, callers: usize) -> Result<Vec<Caller>, NoMemory>
    ensures { IfOk result (λ made. made.items
        ≡ replicate callers (record { section = None; wakes = 0 })) }
{
    let mut made = Vec::with_capacity(alloc, callers)?;
    for _ in 0..callers {
        made.push(Caller {
            section: None,
            wakes: 0,
        })?;
    }
    Ok(made)
}
