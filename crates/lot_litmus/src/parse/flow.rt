//! Which locals of a draft are read later, and which instructions do nothing.

use super::effect::Effect;
use super::locals::LocalSet;
use crate::code::Instruction;

/// What is known of a place of a draft, or of its end.
#[derive(Clone, Copy)]
pub(super) struct Place {
    // How the instruction there goes on, and where else than at the next place.
    effect: Effect,
    target: Option<usize>,

    // What it reads, what it sets at the next place and at its target, and what is 0 there.
    reads: LocalSet,
    sets: LocalSet,
    sets_at_target: LocalSet,
    zero_at_target: LocalSet,

    /// What is to become 0 before the instruction, or between it and the next one, since nobody
    /// reads it any more. A jump leaves that to its target.
    pub(super) cleared_before: LocalSet,
    pub(super) cleared_behind: LocalSet,

    // What is read from there on, and what may be other than 0, if the place can be reached.
    live: LocalSet,
    set: Option<LocalSet>,

    // How many instructions come from there on, once the code is done.
    left: usize,
}

impl Place {
    /// The end, where nothing is done.
    pub(super) const END: Place = Place {
        effect: Effect::Acts,
        target: None,
        reads: LocalSet::EMPTY,
        sets: LocalSet::EMPTY,
        sets_at_target: LocalSet::EMPTY,
        zero_at_target: LocalSet::EMPTY,
        cleared_before: LocalSet::EMPTY,
        cleared_behind: LocalSet::EMPTY,
        live: LocalSet::EMPTY,
        set: None,
        left: 0,
    };

    /// A place with this instruction, whose target is there.
    pub(super) fn of(instruction: Instruction, target: Option<usize>) -> Place {
        Place {
            effect: instruction.effect(),
            target,
            reads: instruction.reads(),
            sets: LocalSet::of(instruction.sets_ahead()),
            sets_at_target: LocalSet::of(instruction.sets_at_target()),
            zero_at_target: LocalSet::of(instruction.zero_at_target()),
            ..Place::END
        }
    }
}

/// The places of a draft, and its end.
#[derive(Drop)]
pub(super) struct Flow {
    places: Vec<Place>,
}

impl Flow {
    pub(super) fn of(places: Vec<Place>) -> Flow {
        let mut flow = Flow { places };
        for _ in 0..flow.places.len() {
            if !flow.sweep_live() {
                break;
            }
        }
        flow.reach(0, LocalSet::EMPTY);
        flow.find_set();
        flow.count();
        flow
    }

    pub(super) fn at(&self, place: usize) -> Place {
        self.places.get(place).copied().unwrap_or(Place::END)
    }

    fn next(&self, place: usize) -> Place {
        self.at(place.saturating_add(1))
    }

    // Whether the instruction there only sets what nobody reads.
    fn is_idle(&self, place: usize) -> bool {
        let here = self.at(place);
        matches!(here.effect, Effect::Clears | Effect::Sets)
            && here.sets.shared(self.next(place).live) == LocalSet::EMPTY
    }

    // Goes over all places, from the last. Says whether something changed.
    fn sweep_live(&mut self) -> bool {
        let mut changed = false;
        for place in (0..self.places.len()).rev() {
            let live = self.live_at(place);
            if let Some(here) = self.places.get_mut(place) {
                changed = changed || here.live != live;
                here.live = live;
            }
        }
        changed
    }

    // What is read from there on, as far as is known of other places.
    fn live_at(&self, place: usize) -> LocalSet {
        let here = self.at(place);
        let ahead = self.next(place).live;
        if self.is_idle(place) {
            return ahead;
        }
        let there = match here.target {
            Some(target) => self.at(target).live.except(here.sets_at_target),
            None => LocalSet::EMPTY,
        };
        let live = here.reads.joined(there);
        match here.effect {
            Effect::Jumps => live,
            _ => live.joined(ahead.except(here.sets)),
        }
    }

    fn find_set(&mut self) {
        for _ in 0..self.places.len() {
            if !self.sweep_set() {
                break;
            }
        }
    }

    // Goes over all places, from the first. Says whether something changed.
    fn sweep_set(&mut self) -> bool {
        let mut changed = false;
        for place in 0..self.places.len() {
            if let Some(set) = self.at(place).set {
                changed = self.hand_on(place, set) || changed;
            }
        }
        changed
    }

    // Hands on what may be other than 0 behind the instruction there. Says whether something
    // changed.
    fn hand_on(&mut self, place: usize, set: LocalSet) -> bool {
        let here = self.at(place);
        let next = place.saturating_add(1);
        if self.is_idle(place) {
            return self.reach(next, set);
        }
        let kept = match here.effect {
            Effect::Jumps => set,
            _ => set.shared(here.live),
        };
        let behind = match here.effect {
            Effect::Jumps => LocalSet::EMPTY,
            Effect::Clears => kept.except(here.sets),
            _ => kept.joined(here.sets),
        };
        let ahead = behind.shared(self.at(next).live);
        if let Some(known) = self.places.get_mut(place) {
            known.cleared_before = set.except(kept);
            known.cleared_behind = behind.except(ahead);
        }
        let there = kept.except(here.zero_at_target).joined(here.sets_at_target);
        let changed = here.effect != Effect::Jumps && self.reach(next, ahead);
        match here.target {
            Some(target) => self.reach(target, there) || changed,
            None => changed,
        }
    }

    // The place can be reached with these set. Says whether that is new.
    fn reach(&mut self, place: usize, set: LocalSet) -> bool {
        let Some(here) = self.places.get_mut(place) else {
            return false;
        };
        let known = here.set;
        here.set = Some(known.unwrap_or(LocalSet::EMPTY).joined(set));
        here.set != known
    }

    fn count(&mut self) {
        for place in (0..self.places.len()).rev() {
            let left = self.next(place).left.saturating_add(self.width(place));
            if let Some(here) = self.places.get_mut(place) {
                here.left = left;
            }
        }
    }

    // How many instructions there will be for the one there.
    fn width(&self, place: usize) -> usize {
        let here = self.at(place);
        if self.is_needless(place) {
            return 0;
        }
        let cleared = here
            .cleared_before
            .len()
            .saturating_add(here.cleared_behind.len());
        cleared.saturating_add(1)
    }

    /// Whether the instruction there is left out: what comes from there on is counted already.
    pub(super) fn is_needless(&self, place: usize) -> bool {
        let here = self.at(place);
        if here.set.is_none() || self.is_idle(place) {
            return true;
        }
        match here.target {
            Some(target) if here.effect == Effect::Jumps => {
                place < target && self.at(target).left == self.next(place).left
            }
            _ => false,
        }
    }

    /// Where the place is among the instructions that are left.
    pub(super) fn index(&self, place: usize) -> usize {
        self.at(0).left.saturating_sub(self.at(place).left)
    }
}
