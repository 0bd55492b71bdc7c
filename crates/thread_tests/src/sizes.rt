//! How many buckets the table has, as it is seen from outside: two keys have one bucket where a
//! call on the one waits for a section of the other.

use crate::played::goes_well_on_words;

// So many threads register, as many more come and go, the table is trimmed or not, and as many
// again register. Then a section of the key 0 ends in one of the other key, or does not.
const SCENE: &str = "
    lot 11
    register $0
    come_and_go $1
    repeat $2 trim
    register $3
    caller
    callback: raise inside; await heard
    repeat $5 unpark_one 0 42 -> 0 0
    callback: raise inside; never heard
    repeat $6 unpark_one 0 42 -> 0 0
    caller
    await inside
    list $4
    raise heard
";

// Each of these keys has one bucket with the key 0 in a table of up to so many.
const NEIGHBOURS: [(usize, usize); 3] = [(16, 13), (32, 68), (64, 34)];

// The scene's numbers, and the size of the table, which has three buckets for each thread and at
// least 16.
const ROWS: [[usize; 5]; 14] = [
    [0, 0, 0, 0, 16],
    [5, 0, 0, 0, 16],
    [6, 0, 0, 0, 32],
    [10, 0, 0, 0, 32],
    [11, 0, 0, 0, 64],
    [11, 0, 1, 0, 64],
    [10, 1, 0, 0, 64],
    [10, 1, 1, 0, 32],
    [5, 5, 1, 1, 32],
    [5, 6, 0, 0, 64],
    [5, 6, 1, 0, 16],
    [5, 6, 1, 1, 32],
    [5, 6, 1, 6, 64],
    [0, 11, 1, 5, 16],
];

// It refuses a `thread_data` that registers one more number and frees it again, and so lets the
// table grow early; a registration and a retirement that trim the table; a trim that is told and
// not done; and a growth that looks for a row to make where one is kept, and then stays small.
#[test]
fn the_table_has_the_size_of_each_row(rt: HostRuntime) {
    for [registered, guests, trims, more, size] in ROWS {
        for (greatest, key) in NEIGHBOURS {
            let apart = usize::from(greatest < size);
            let values = [registered, guests, trims, more, key, apart, 1 - apart];
            goes_well_on_words(&rt, SCENE, &values);
        }
    }
}
