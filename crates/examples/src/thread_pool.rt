//! A pool of worker threads: a queue of jobs behind a mutex, and two condition variables.
//!
//! Whoever finds the queue full waits until a job was taken, and a worker that finds it empty until
//! one came; both look again in their turn. To close the pool wakes them all.

ghost use Rattle.std.specs.Prelude.{◌≡◌, ◌<◌, All, IfErr, IfOk, IfSome};
ghost use Rattle.examples.specs.DoneJobs.{IsDone};

mod job_queue;

use crate::thread_pool::job_queue::JobQueue;
use lot_threads::NoMemory;
use parking_lot::{Condvar, Lot, Mutex};
use std::alloc::Global;
use std::sync::Wait;
use std::thread;
use std::thread::Threads;
use std::time::Clock;

/// A pool of threads, which share it by reference: some submit jobs, and workers take them.
///
/// No more jobs wait than there is room for. What holds of each job is said by its type.
#[derive(Drop)]
pub struct ThreadPool<'l, J> {
    queue: Mutex<'l, JobQueue<J>>,
    filled: Condvar<'l>,
    freed: Condvar<'l>,
}

impl<'l, J: Drop> ThreadPool<'l, J> {
    /// An open pool with room for so many jobs that wait, at least one.
    ///
    /// # Errors
    ///
    /// `NoMemory` if memory cannot be had. No other call of a pool asks for any.
    pub fn new(lot: &'l Lot, alloc: Global, capacity: usize) -> Result<ThreadPool<'l, J>, NoMemory>
        requires { 0 < capacity }
    {
        Ok(ThreadPool {
            queue: Mutex::new(lot, JobQueue::new(alloc, capacity)?)?,
            filled: Condvar::new(lot)?,
            freed: Condvar::new(lot)?,
        })
    }

    /// Puts a job behind those that wait, and wakes a worker that waits. It waits while there is no
    /// room.
    ///
    /// # Errors
    ///
    /// The job, if the pool is closed, also while it waited.
    pub fn submit<R: Wait + Clock>(&self, rt: &R, job: J) -> Result<(), J>
        ensures { IfErr result (λ refused. refused ≡ job) }
    {
        let queue = self.queue.lock(rt);
        let mut queue = self
            .freed
            .wait_while(queue, |queue: &mut JobQueue<J>| queue.is_full());
        queue.offer(job)?;
        drop(queue);
        self.filled.notify_one(rt);
        Ok(())
    }

    /// Takes the job that waits longest, and wakes a thread that waits for room. It waits while no
    /// job does. `None` says that the pool is closed and no job is left.
    pub fn take<R: Wait + Clock>(&self, rt: &R) -> Option<J> {
        let queue = self.queue.lock(rt);
        let mut queue = self
            .filled
            .wait_while(queue, |queue: &mut JobQueue<J>| queue.is_idle());
        let job = queue.next()?;
        drop(queue);
        self.freed.notify_one(rt);
        Some(job)
    }

    /// Closes the pool, and wakes all who wait for it: no job comes any more, and workers take
    /// those that wait. To close it once more changes nothing.
    pub fn close<R: Wait + Clock>(&self, rt: &R) {
        self.queue.lock(rt).close();
        self.filled.notify_all(rt);
        self.freed.notify_all(rt);
    }
}

/// What the job at a place gave.
#[derive(Drop)]
pub struct Done<O> {
    pub place: usize,
    pub output: O,
}

/// Does the jobs of a list by so many worker threads, at least one, and tells what each gave, with
/// its place, in no order that is told. The calling thread submits the places while the workers
/// take them.
///
/// If the system refuses threads, or memory before a worker has begun, it may wait for ever for
/// room in the pool.
///
/// # Errors
///
/// `NoMemory` if memory cannot be had. Some jobs may have been done.
pub fn do_jobs<J, O, F, R>(
    rt: &R,
    alloc: Global,
    lot: &Lot,
    workers: usize,
    jobs: &[J],
    work: &F,
) -> Result<Vec<Done<O>>, NoMemory>
where
    J: Sync,
    O: Send + Drop,
    F: Fn(&J) -> O + Sync,
    R: Threads + Wait + Clock + Sync,
    requires work { F.IsAlwaysCallable work.now }
    requires workers { 0 < workers }
    ensures { IfOk result (λ done. All (IsDone F.Fn work.now jobs.now) done.items) }
{
    let pool = ThreadPool::new(lot, alloc, workers)?;
    let shared = &pool;
    let (done, ()) = thread::join(
        rt,
        || -> Result<Vec<Done<O>>, NoMemory>
            requires { F.IsAlwaysCallable work.now }
            ensures { IfOk result (λ done.
                All (IsDone F.Fn work.entry.now jobs.entry.now) done.items) }
        { serve_all(rt, alloc, shared, workers, jobs, work) },
        || submit_places(rt, shared, jobs.len()),
    );
    done
}

// Lets so many workers serve, each in a thread, and gathers what they did.
fn serve_all<J, O, F, R>(
    rt: &R,
    alloc: Global,
    pool: &ThreadPool<'_, usize>,
    workers: usize,
    jobs: &[J],
    work: &F,
) -> Result<Vec<Done<O>>, NoMemory>
where
    J: Sync,
    O: Send + Drop,
    F: Fn(&J) -> O + Sync,
    R: Threads + Wait + Clock + Sync,
    requires { F.IsAlwaysCallable work.now }
    ensures { IfOk result (λ done. All (IsDone F.Fn work.now jobs.now) done.items) }
{
    let each = |_: usize| -> Result<Vec<Done<O>>, NoMemory>
        requires { F.IsAlwaysCallable work.now }
        ensures { IfOk result (λ done.
            All (IsDone F.Fn work.entry.now jobs.entry.now) done.items) }
    { serve(rt, alloc, pool, jobs, work) };
    let served = thread::map_indices(rt, alloc, workers, &each)?;
    let mut all = Vec::new(alloc);
    for done in served {
        all.append(&mut done?)?;
    }
    Ok(all)
}

// Submits the places of a list of so many jobs, and closes the pool. A worker without memory may
// have closed it before.
fn submit_places<R: Wait + Clock>(rt: &R, pool: &ThreadPool<'_, usize>, count: usize) {
    for place in 0..count {
        if pool.submit(rt, place).is_err() {
            break;
        }
    }
    pool.close(rt);
}

// What a worker does. Nobody may wait for one that ends early, so it closes the pool.
fn serve<J, O, F: Fn(&J) -> O, R: Wait + Clock>(
    rt: &R,
    alloc: Global,
    pool: &ThreadPool<'_, usize>,
    jobs: &[J],
    work: &F,
) -> Result<Vec<Done<O>>, NoMemory>
where
    O: Drop,
    requires { F.IsAlwaysCallable work.now }
    ensures { IfOk result (λ done. All (IsDone F.Fn work.now jobs.now) done.items) }
{
    let done = do_while_open(rt, alloc, pool, jobs, work);
    if done.is_err() {
        pool.close(rt);
    }
    done
}

// Does jobs until the pool is closed and no job is left.
fn do_while_open<J, O, F: Fn(&J) -> O, R: Wait + Clock>(
    rt: &R,
    alloc: Global,
    pool: &ThreadPool<'_, usize>,
    jobs: &[J],
    work: &F,
) -> Result<Vec<Done<O>>, NoMemory>
where
    O: Drop,
    requires { F.IsAlwaysCallable work.now }
    ensures { IfOk result (λ done. All (IsDone F.Fn work.now jobs.now) done.items) }
{
    let mut done = Vec::new(alloc);
    for _ in rt.forever() {
        let Some(place) = pool.take(rt) else {
            return Ok(done);
        };
        if let Some(more) = do_job(jobs, work, place) {
            done.push(more)?;
        }
    }
    unreachable!()
}

// Does the job at a place, if the list has one there.
fn do_job<J, O, F: Fn(&J) -> O>(jobs: &[J], work: &F, place: usize) -> Option<Done<O>>
    requires { F.IsAlwaysCallable work.now }
    ensures { IfSome result (IsDone F.Fn work.now jobs.now) }
{
    let job = jobs.get(place)?;
    let output = work(job);
    Some(Done { place, output })
}
