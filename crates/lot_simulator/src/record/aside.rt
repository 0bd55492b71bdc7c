//! This module counts how many entries of a journal are set aside for each thread.

ghost use Rattle.std.specs.Prelude.{◌≡◌, ◌+◌, ◌<◌, ◌^◌, IfOk, IfSome, length, replicate};
ghost use Rattle.std.specs.List.{sum};
ghost use Rattle.lot_simulator.specs.Journal.{with_aside};

use lot_base::token::NoMemory;
use std::alloc::Global;
use std::mem;

// The entries that are set aside for each thread number, and their sum.
#[derive(Drop)]
pub(super) struct Aside {
    of_each: Vec<usize>,
    total: usize,
    ghost adds_up: { total ≡ sum of_each.items },
}

impl Aside {
    // None for each of so many numbers.
    pub(super) fn new(alloc: Global, max_threads: usize) -> Result<Aside, NoMemory>
        ensures { IfOk result (λ made. made.of_each.items ≡ replicate max_threads 0) }
    {
        let mut of_each = Vec::with_capacity(alloc, max_threads)?;
        for _ in 0..max_threads {
            of_each.push(0)?;
        }
        Ok(Aside { of_each, total: 0 })
    }

    // How many numbers there are.
    pub(super) fn threads(&self) -> usize
        ensures { result ≡ length self.now.of_each.items }
    {
        self.of_each.len()
    }

    // How many entries are set aside for all threads.
    pub(super) fn total(&self) -> usize
        ensures { result ≡ sum self.now.of_each.items }
    {
        self.total
    }

    // Sets so many entries aside for this thread, in the place of those before.
    pub(super) fn change(&mut self, change: Option<(usize, usize)>)
        requires { IfSome change (λ set. sum self.old.of_each.items + set.1 < 2 ^ 64) }
        ensures { self.new.of_each.items ≡ with_aside self.old.of_each.items change }
    {
        if let Some((thread, entries)) = change
            && let Some(aside) = self.of_each.get_mut(thread)
        {
            let before = mem::replace(aside, entries);
            self.total = self.total - before + entries;
        }
    }
}
