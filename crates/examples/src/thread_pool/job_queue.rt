//! The queue of a thread pool, without threads.

ghost use Rattle.std.specs.Prelude.{◌≡◌, ◌↔◌, ◌<◌, ◌≤◌, [], ◌∷◌, ◌++◌, length, drop, slice_get};
ghost use Rattle.std.specs.Prelude.{IfErr, IfOk, IsOk, IsTrue, OnOk, OnErr};

use crate::bounded::Bounded;
use std::alloc::{AllocError, Global};

/// Whether jobs may still come.
#[derive(Copy, Clone)]
pub enum Stage {
    Open,
    Shut,
}

/// The jobs that wait, first to last.
#[derive(Drop)]
pub struct JobQueue<J> {
    waiting: Bounded<J>,
    stage: Stage,
}

impl<J> JobQueue<J> {
    // An empty queue with room for so many jobs.
    pub fn new(alloc: Global, capacity: usize) -> Result<JobQueue<J>, AllocError>
        ensures stage { IfOk result (λ queue. queue.stage ≡ Stage.Open) }
        ensures room { IfOk result (λ queue.
            queue.waiting ≡ record { values = []; capacity = capacity }) }
    {
        Ok(JobQueue {
            waiting: Bounded::new(alloc, capacity)?,
            stage: Stage::Open,
        })
    }

    // Whether a job that comes has to wait for room.
    pub fn is_full(&self) -> bool
        ensures { IsTrue result ↔ ((self.now.stage ≡ Stage.Open)
            × (self.now.waiting.capacity ≤ length self.now.waiting.values)) }
    {
        matches!(self.stage, Stage::Open) && self.waiting.is_full()
    }

    // Whether a worker that comes has to wait for a job.
    pub fn is_idle(&self) -> bool
        ensures { IsTrue result ↔ ((self.now.stage ≡ Stage.Open)
            × (self.now.waiting.values ≡ [])) }
    {
        matches!(self.stage, Stage::Open) && self.waiting.is_empty()
    }

    // Puts a job last, or gives it back if the queue is shut.
    pub fn offer(&mut self, job: J) -> Result<(), J>
        requires { self.old.stage ≡ Stage.Open
            → length self.old.waiting.values < self.old.waiting.capacity }

        ensures open { IsOk result ↔ (self.old.stage ≡ Stage.Open) }
        ensures stage { self.new.stage ≡ self.old.stage }
        ensures ok { OnOk result (self.new.waiting
            ≡ record self.old.waiting { values = self.old.waiting.values ++ job ∷ [] }) }
        ensures err { OnErr result (self.new.waiting ≡ self.old.waiting) }
        ensures refused { IfErr result (λ refused. refused ≡ job) }
    {
        match self.stage {
            Stage::Shut => Err(job),
            Stage::Open => {
                self.waiting.put(job);
                Ok(())
            }
        }
    }

    // Takes the first job out, if one waits.
    pub fn next(&mut self) -> Option<J>
        ensures first { result ≡ slice_get self.old.waiting.values 0 }
        ensures rest { self.new.waiting
            ≡ record self.old.waiting { values = drop 1 self.old.waiting.values } }
        ensures stage { self.new.stage ≡ self.old.stage }
    {
        self.waiting.take()
    }

    // Lets no more jobs come.
    pub fn close(&mut self)
        ensures shut { self.new.stage ≡ Stage.Shut }
        ensures waiting { self.new.waiting ≡ self.old.waiting }
    {
        self.stage = Stage::Shut;
    }
}
