//! The rows: what can be measured, and by which names.

/// A line for each row, in the order in which they are printed: its name; on what it is done, which
/// is a lot, a crowd that waits in one, locks on a lot (`sync`) or on a titled lot, locks without a
/// lot (`bare`), or new threads; what is done; and the fields of a `Row`, which are 0 where there
/// are no more.
pub const ROWS: &str = "\
unpark_one_nobody          lot    unpark        7 1    1     0 1000000 1000000
unpark_one_two_keys        lot    unpark_apart  7 1    2     0 3000000 3000000
unpark_one_four_keys       lot    unpark_apart  7 1    4     0 3000000 3000000
unpark_one_near_keys       lot    unpark_near   7 1    4     0 3000000 3000000
unpark_one_one_key         lot    unpark        7 1    4     0  300000  300000
unpark_one_one_key_sixteen lot    unpark        7 1   16     0  300000  300000
park_invalid               lot    park_invalid  7 1    1     0 1000000 1000000
park_invalid_four_keys     lot    park_invalid  7 1    4     0 1000000 1000000
park_past_deadline         lot    park_late     7 1    1     0 1000000 1000000
park_past_deadline_four    lot    park_late     7 1    4     0 1000000 1000000
turns_strict               lot    strict        5 1    2     0    1000    1000
turns_by_word              lot    by_word       5 1    2     0    5000    5000
unpark_all_call            crowd  call         15 0  100     0       1       1
unpark_all_awake           crowd  awake        15 0  100     0       1       1
requeue_ten                crowd  requeue       7 0   10     0    1000    2000
requeue_all                crowd  requeue       7 0  100     0    1000    2000
requeue_thousand           crowd  requeue       7 0 1000     0    1000    2000
mutex_alone                lot    mutex         7 1    1     0  300000  300000   300000
mutex_two                  lot    mutex         7 1    2     0  300000  600000   600000
mutex_four                 lot    mutex         7 1    4     0  300000 1200000  1200000
mutex_sixteen              lot    mutex         7 1   16     0  300000 4800000  4800000
fair_alone                 sync   fair          7 1    1     0     200   20000   160000 100
fair_two                   sync   fair          7 1    2     0     200   40000   320000 100
fair_four                  sync   fair          7 1    4     0     200   80000   640000 100
fair_notify_all            sync   notify       15 0  100     0       1       1
word_lock_alone            bare   word_lock     7 1    1     0    3000  300000  2400000 100
word_lock_two              bare   word_lock     7 1    2     0    3000  600000  4800000 100
word_lock_four             bare   word_lock     7 1    4     0    3000 1200000  9600000 100
word_lock_sixteen          bare   word_lock     7 1   16     0    3000 4800000 38400000 100
word_lock_two_longer       bare   word_lock     7 1    2     0    3000  600000  4800000 100 50
word_lock_four_longer      bare   word_lock     7 1    4     0    3000 1200000  9600000 100 50
word_lock_sixteen_longer   bare   word_lock     7 1   16     0    3000 4800000 38400000 100 50
std_mutex_alone            bare   mutex         7 1    1     0    3000  300000  2400000 100
std_mutex_two              bare   mutex         7 1    2     0    3000  600000  4800000 100
std_mutex_four             bare   mutex         7 1    4     0    3000 1200000  9600000 100
std_mutex_sixteen          bare   mutex         7 1   16     0    3000 4800000 38400000 100
std_mutex_two_longer       bare   mutex         7 1    2     0    3000  600000  4800000 100 50
std_mutex_four_longer      bare   mutex         7 1    4     0    3000 1200000  9600000 100 50
sync_mutex_alone           sync   mutex         7 1    1     0    3000  300000  2400000 100
sync_mutex_two             sync   mutex         7 1    2     0    3000  600000  4800000 100
sync_mutex_four            sync   mutex         7 1    4     0    3000 1200000  9600000 100
sync_mutex_sixteen         sync   mutex         7 1   16     0    3000 4800000 38400000 100
sync_mutex_two_longer      sync   mutex         7 1    2     0    3000  600000  4800000 100 50
sync_mutex_four_longer     sync   mutex         7 1    4     0    3000 1200000  9600000 100 50
titled_alone               titled mutex         7 1    1     0    3000  300000  2400000 100
titled_two                 titled mutex         7 1    2     0    3000  600000  4800000 100
titled_four                titled mutex         7 1    4     0    3000 1200000  9600000 100
titled_sixteen             titled mutex         7 1   16     0    3000 4800000 38400000 100
sync_read_alone            sync   rw_lock       7 1    1     0    3000  300000        0   0  0 100
sync_read_two              sync   rw_lock       7 1    2     0    3000  600000        0   0  0 100
sync_read_four             sync   rw_lock       7 1    4     0    3000 1200000        0   0  0 100
sync_write_alone           sync   rw_lock       7 1    1     0    3000  300000  2400000 100
sync_mostly_read_four      sync   rw_lock       7 1    4     0    3000 1200000    96000   1  0 99
std_read_four              bare   rw_lock       7 1    4     0    3000 1200000        0   0  0 100
std_mostly_read_four       bare   rw_lock       7 1    4     0    3000 1200000    96000   1  0 99
sync_once_done             sync   once          7 1    1     0 1000000 1000000
sync_condvar_turns         sync   condvar       5 1    2     0    5000    5000    60000
sync_condvar_turns_held    sync   condvar_held  5 1    2     0    5000    5000    60000
std_condvar_turns          bare   condvar       5 1    2     0    5000    5000    60000
sync_queue_two             sync   queue         5 1    2     0   10000   10000    60000
sync_queue_eight           sync   queue         5 1    8     0   10000   40000   240000
sync_semaphore_alone       sync   semaphore     7 1    1     0 1000000 1000000
titled_semaphore_alone     titled semaphore     7 1    1     0 1000000 1000000
titled_read_alone          titled rw_lock       7 1    1     0    3000  300000        0   0  0 100
titled_read_four           titled rw_lock       7 1    4     0    3000 1200000        0   0  0 100
titled_write_alone         titled rw_lock       7 1    1     0    3000  300000  2400000 100
titled_mostly_read_four    titled rw_lock       7 1    4     0    3000 1200000    96000   1  0 99
titled_condvar_turns       titled condvar       5 1    2     0    5000    5000    60000
many_keys                  lot    many_keys     7 1    1   999  100000  100000
thousand_threads           new    threads       1 0 1000     0       1    1000
unpark_in_small_table      lot    unpark_keys   7 1    1     0 1000000 1000000
unpark_in_large_table      lot    unpark_keys   7 1    1 10922 1000000 1000000";

/// How often it is done.
#[derive(Clone, Copy)]
pub struct Row {
    /// How many runs count. The cost is their median.
    pub runs: usize,

    /// How many runs go before them.
    pub uncounted: usize,

    /// How many threads there are, beside one that leads them, if one does.
    pub threads: usize,

    /// How many more are registered meanwhile.
    pub others: usize,

    /// How many calls, or rounds of calls, each thread makes in a run.
    pub calls: usize,

    /// By what the time of a run is divided: the operations of all threads, or of one.
    pub operations: usize,

    /// What is counted under the lock in all runs.
    pub counted: usize,

    /// How often a call locks a lock to count one, and how often it mixes a number then.
    pub counts: usize,
    pub turns: usize,

    /// How often it locks it to read what was counted.
    pub reads: usize,
}

/// The name of the row of a line.
pub fn name_of(line: &str) -> &str {
    line.split_whitespace().next().unwrap_or("")
}

/// Of the row of this name: on what it is done, what is done, and how often.
pub fn named(name: &str) -> Option<(&'static str, &'static str, Row)> {
    for line in ROWS.lines() {
        if name_of(line) == name {
            let mut words = line.split_whitespace().skip(1);
            return Some((words.next()?, words.next()?, Row::of(line)?));
        }
    }
    None
}

impl Row {
    fn of(line: &str) -> Option<Row> {
        let mut words = line.split_whitespace().skip(3);
        Some(Row {
            runs: number(words.next())?,
            uncounted: number(words.next())?,
            threads: number(words.next())?,
            others: number(words.next())?,
            calls: number(words.next())?,
            operations: number(words.next())?,
            counted: number(words.next())?,
            counts: number(words.next())?,
            turns: number(words.next())?,
            reads: number(words.next())?,
        })
    }

    /// How many runs there are, counted or not.
    pub fn all_runs(&self) -> usize {
        self.runs.wrapping_add(self.uncounted)
    }
}

// There is none at the end of a line.
fn number(word: Option<&str>) -> Option<usize> {
    match word {
        Some(word) => word.parse().ok(),
        None => Some(0),
    }
}
