//! How the table grows with the threads that are registered, and how it is trimmed.
//!
//! Whoever has the registry locked, and nobody else, changes which row is in use, and moves its
//! buckets. So the row in use was made and has its buckets, though no contract tells so: the code
//! moves what is there.

ghost use Rattle.std.specs.Prelude.{◌≡◌, ◌+◌, ◌*◌, ◌<◌, ◌≤◌, length, OnErr, OnOk};
ghost use Rattle.lot_machine.specs.Size.{IsSizeFor, IsTrimmedSize};
ghost use Rattle.lot_machine.specs.Numbers.{count_registered};
ghost use Rattle.lot_machine.specs.declared.step.Answer.{Answer};
ghost use Rattle.lot_machine.specs.declared.step.Step.{Step};
ghost use Rattle.lot_history.specs.Witness.{id_of, limit_of, max_threads_of, Extends};
ghost use Rattle.lot_threads.specs.Cells.{IsFresh, IsRegistry, IsRow, size_in};
ghost use Rattle.lot_threads.specs.Halves.{IsHalfSize};
ghost use Rattle.lot_threads.specs.Idle.{IsIdle, StaysIdle};

use super::{SharedLot, lock_at};
use crate::cell::{Slot, new_row, put, row_size, take_away};
use crate::halves::{join, split};
use crate::parker::ThreadParkerT;
use crate::registry::Registry;
use lot_base::token::NoMemory;
use lot_base::word_lock::WordLock;
use lot_history::history::Witness;
use lot_machine::size::trimmed_size;
use lot_machine::step::{Answer, Step};
use std::alloc::Global;
use std::sync::Wait;
use std::sync::atomic::Ordering;

const BUCKETS_PER_THREAD: usize = 3;

impl<P: ThreadParkerT> SharedLot<P> {
    // Puts the row of twice the size in use where the present one has less than three buckets for
    // each registered thread and one more. The registry is locked. It asks for memory only where
    // that row was never needed before.
    pub(super) fn make_room<R: Wait>(
        &self,
        rt: &R,
        alloc: Global,
        registry: &mut Registry,
    ) -> Result<(), NoMemory>
        requires { IsRegistry (id_of self.now) (max_threads_of self.now) registry.old }
        ensures registry { IsRegistry (id_of self.now) (max_threads_of self.now) registry.new }
        ensures numbers { registry.new.numbers ≡ registry.old.numbers }
        ensures size { OnOk result (IsSizeFor (count_registered registry.old.numbers + 1)
            (size_in registry.old) (size_in registry.new)) }
        ensures room { OnOk result
            (3 * (count_registered registry.old.numbers + 1) ≤ size_in registry.new) }
        ensures err { OnErr result (registry.new.row ≡ registry.old.row) }
    {
        if row_size(registry.row) >= BUCKETS_PER_THREAD * (registry.threads() + 1) {
            return Ok(());
        }
        self.grow(rt, alloc, registry)
    }

    // Puts the row of twice the size in use in the place of the present one.
    fn grow<R: Wait>(&self, rt: &R, alloc: Global, registry: &mut Registry) -> Result<(), NoMemory>
        requires registry { IsRegistry (id_of self.now) (max_threads_of self.now) registry.old }
        requires below { registry.old.row + 1 < 13 }
        ensures registry { IsRegistry (id_of self.now) (max_threads_of self.now) registry.new }
        ensures numbers { registry.new.numbers ≡ registry.old.numbers }
        ensures row { OnOk result (registry.new.row ≡ registry.old.row + 1) }
        ensures err { OnErr result (registry.new.row ≡ registry.old.row) }
    {
        let index = registry.row + 1;
        self.make_row(alloc, &mut registry.witness, index)?;
        self.move_to_larger(rt, &mut registry.witness, registry.row);
        registry.row = index;
        self.current.store(index, Ordering::SeqCst);
        Ok(())
    }

    // Makes the row of this index, if it was not needed before.
    fn make_row(&self, alloc: Global, me: &mut Witness, index: usize) -> Result<(), NoMemory>
        requires fresh { IsFresh (id_of self.now) me.old }
        requires below { index < 13 }
        ensures fresh { IsFresh (id_of self.now) me.new }
    {
        if self.row(index).is_none() {
            let home = self.history.give(me);
            let threads = self.threads.len();
            let row = new_row(alloc, row_size(index), threads, self.limit, home)?;
            let _ = self.row_slot(index).set(row);
        }
        Ok(())
    }

    // Makes the table as small as the registered threads allow, and tells the history.
    pub(crate) fn trim_and_tell<R: Wait>(&self, rt: &R, me: &mut Witness)
        requires idle { IsIdle self.now me.old }
        ensures idle { StaysIdle self.now me.old me.new }
        ensures extends { Extends self.now me.old Step.Trim Answer.Trimmed me.new }
    {
        let mut held = self.registry.lock(rt);
        self.give_up_room(rt, &mut held.value);
        self.history.trim(me);
        self.registry.unlock(held);
    }

    // Puts smaller rows in use, each of half the size of the one before, down to the size that the
    // registered threads need. The registry is locked.
    fn give_up_room<R: Wait>(&self, rt: &R, registry: &mut Registry)
        requires { IsRegistry (id_of self.now) (max_threads_of self.now) registry.old }
        ensures registry { IsRegistry (id_of self.now) (max_threads_of self.now) registry.new }
        ensures numbers { registry.new.numbers ≡ registry.old.numbers }
        ensures size { IsTrimmedSize (count_registered registry.old.numbers)
            (size_in registry.old) (size_in registry.new) }
    {
        let size = trimmed_size(registry.threads(), row_size(registry.row));
        while size < row_size(registry.row) {
            self.shrink(rt, registry);
        }
    }

    // Puts the row of half the size in use in the place of the present one.
    fn shrink<R: Wait>(&self, rt: &R, registry: &mut Registry)
        requires registry { IsRegistry (id_of self.now) (max_threads_of self.now) registry.old }
        requires above { 0 < registry.old.row }
        requires room { 2 * (3 * count_registered registry.old.numbers) ≤ size_in registry.old }
        ensures registry { IsRegistry (id_of self.now) (max_threads_of self.now) registry.new }
        ensures numbers { registry.new.numbers ≡ registry.old.numbers }
        ensures index { registry.new.row + 1 ≡ registry.old.row }
    {
        let index = registry.row - 1;
        self.move_to_smaller(rt, &mut registry.witness, index);
        registry.row = index;
        self.current.store(index, Ordering::SeqCst);
    }

    // Moves the buckets of the row of this index to the next row.
    fn move_to_larger<R: Wait>(&self, rt: &R, me: &mut Witness, index: usize)
        requires fresh { IsFresh (id_of self.now) me.old }
        requires below { index + 1 < 13 }
        ensures { IsFresh (id_of self.now) me.new }
    {
        if let Some(row) = self.row(index)
            && let Some(larger) = self.row(index + 1)
        {
            self.double(rt, me, row, larger);
        }
    }

    // Moves the buckets of the row behind the one of this index to this one.
    fn move_to_smaller<R: Wait>(&self, rt: &R, me: &mut Witness, index: usize)
        requires fresh { IsFresh (id_of self.now) me.old }
        requires below { index + 1 < 13 }
        ensures { IsFresh (id_of self.now) me.new }
    {
        if let Some(row) = self.row(index)
            && let Some(larger) = self.row(index + 1)
        {
            self.halve(rt, me, row, larger);
        }
    }

    // Takes the buckets of a row away, one after another, and puts what each has into the two of
    // its place in the row of twice the size.
    fn double<R: Wait>(
        &self,
        rt: &R,
        me: &mut Witness,
        row: &Vec<WordLock<Slot>>,
        larger: &Vec<WordLock<Slot>>,
    )
        requires fresh { IsFresh (id_of self.now) me.old }
        requires half { IsHalfSize (length row.now.items) }
        requires row { IsRow (id_of self.now) (max_threads_of self.now) (limit_of self.now)
            (length row.now.items) row.now.items }
        requires larger { IsRow (id_of self.now) (max_threads_of self.now) (limit_of self.now)
            (2 * length row.now.items) larger.now.items }
        ensures { IsFresh (id_of self.now) me.new }
    {
        for place in 0..row.len() {
            if let Some(cell) = take_away(rt, lock_at(row, place)) {
                let (low, high) = split(&self.history, me, cell);
                put(rt, &self.history, me, lock_at(larger, 2 * place), low);
                put(rt, &self.history, me, lock_at(larger, 2 * place + 1), high);
            }
        }
    }

    // Takes the buckets of the larger row away, two by two, and puts what they have into the one of
    // their place in the row of half the size.
    fn halve<R: Wait>(
        &self,
        rt: &R,
        me: &mut Witness,
        row: &Vec<WordLock<Slot>>,
        larger: &Vec<WordLock<Slot>>,
    )
        requires fresh { IsFresh (id_of self.now) me.old }
        requires half { IsHalfSize (length row.now.items) }
        requires row { IsRow (id_of self.now) (max_threads_of self.now) (limit_of self.now)
            (length row.now.items) row.now.items }
        requires larger { IsRow (id_of self.now) (max_threads_of self.now) (limit_of self.now)
            (2 * length row.now.items) larger.now.items }
        ensures { IsFresh (id_of self.now) me.new }
    {
        for place in 0..row.len() {
            let low = take_away(rt, lock_at(larger, 2 * place));
            let high = take_away(rt, lock_at(larger, 2 * place + 1));
            if let Some(low) = low
                && let Some(high) = high
            {
                let cell = join(&self.history, me, place, row.len(), low, high);
                put(rt, &self.history, me, lock_at(row, place), cell);
            }
        }
    }
}
