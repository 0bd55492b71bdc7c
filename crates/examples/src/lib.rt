//! Callers of the lots, as a user would write them. Of the exclusive lot: a semaphore and a timeout
//! for the tasks of a simulation, and simulations of two tasks. Of the threaded lot: a mutex, an
//! event and a semaphore for threads, a token whose way from one thread to another is proved, and a
//! thread that wakes whom it has heard of. Of the interleaved lot: what a schedule amounts to. Of a
//! recording lot: a journal of threads, and its replay. Of the locks around values: a queue of
//! bounded length, a pool of worker threads, and a table that many read. And the short callers that
//! the documents show.
#![tactic(auto)]

pub mod bounded;
pub mod bounded_queue;
pub mod byte_mutex;
pub mod callers;
pub mod event;
pub mod heard;
pub mod interleaving;
pub mod read_mostly_table;
pub mod recording;
pub mod semaphore;
pub mod simulation;
pub mod thread_pool;
pub mod thread_semaphore;
pub mod timeout;
pub mod token;
