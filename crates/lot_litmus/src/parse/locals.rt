//! The locals of a thread.

use crate::code::{LOCALS, Local};

/// Some of a thread's locals.
#[derive(Clone, Copy, PartialEq, Eq)]
pub(super) struct LocalSet {
    bits: u16,
}

impl LocalSet {
    pub(super) const EMPTY: LocalSet = LocalSet { bits: 0 };

    pub(super) fn of(local: Option<Local>) -> LocalSet {
        match local {
            Some(local) => LocalSet {
                bits: 1 << local.number,
            },
            None => LocalSet::EMPTY,
        }
    }

    pub(super) fn contains(self, local: Local) -> bool {
        self.shared(LocalSet::of(Some(local))) != LocalSet::EMPTY
    }

    pub(super) fn shared(self, other: LocalSet) -> LocalSet {
        LocalSet {
            bits: self.bits & other.bits,
        }
    }

    pub(super) fn joined(self, other: LocalSet) -> LocalSet {
        LocalSet {
            bits: self.bits | other.bits,
        }
    }

    /// Those that are not in the other set.
    pub(super) fn except(self, other: LocalSet) -> LocalSet {
        LocalSet {
            bits: self.bits & !other.bits,
        }
    }

    pub(super) fn len(self) -> usize {
        self.bits.count_ones() as usize
    }
}

// Whether a local is in use.
#[derive(Clone, Copy, PartialEq, Eq)]
enum Use {
    Never,
    Now,
    Before,
}

// A local, and the last name that it had. A temporary has none.
#[derive(Clone, Copy)]
struct Slot<'t> {
    usage: Use,
    name: &'t str,
}

/// The locals of a thread, and which of them are in use.
#[derive(Clone, Copy)]
pub(super) struct Locals<'t> {
    slots: [Slot<'t>; LOCALS],
}

impl<'t> Locals<'t> {
    pub(super) fn new() -> Locals<'t> {
        let unused = Slot {
            usage: Use::Never,
            name: "",
        };
        Locals {
            slots: [unused; LOCALS],
        }
    }

    /// Takes a local that is not in use: one that had this name before, or none, or another one.
    /// A temporary has the name "".
    pub(super) fn take(&mut self, name: &'t str) -> Option<Local> {
        let local = self
            .find(Use::Before, Some(name))
            .or(self.find(Use::Never, None))
            .or(self.find(Use::Before, None))?;
        self.slots[local.index()] = Slot {
            usage: Use::Now,
            name,
        };
        Some(local)
    }

    fn find(&self, usage: Use, name: Option<&str>) -> Option<Local> {
        for number in 0..LOCALS as u8 {
            let slot = self.slots[number as usize];
            if slot.usage == usage && (name.is_none() || name == Some(slot.name)) {
                return Some(Local { number });
            }
        }
        None
    }

    pub(super) fn release(&mut self, local: Local) {
        self.slots[local.index()].usage = Use::Before;
    }

    pub(super) fn is_temporary(&self, local: Local) -> bool {
        self.slots[local.index()].name.is_empty()
    }

    /// The last name of the local with this number.
    pub(super) fn name(&self, number: usize) -> &'t str {
        match self.slots.get(number) {
            Some(slot) => slot.name,
            None => "",
        }
    }
}
