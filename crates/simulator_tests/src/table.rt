//! Worked rows of the table.

use crate::words::expect;
use lot_base::token::LotError;
use lot_simulator::table::Table;
use std::process::Abort;

// Registers or releases threads until there are so many, and trims the table if it releases.
// Answers the size, and of a larger one whether it fits as well.
fn size_of(rt: &impl Abort, table: &mut Table, threads: usize) -> usize {
    let is_trimmed = threads < table.registered();
    for number in table.registered()..threads {
        let given = table.register().unwrap_or(usize::MAX);
        expect(rt, given == number, "a number");
    }
    for number in threads..table.registered() {
        table.release(number);
    }
    expect(rt, !is_trimmed || table.trim().is_ok(), "a trim");
    table.size()
}

// The least and the greatest number of threads that has each size.
const SIZES: [(usize, usize, usize); 13] = [
    (0, 5, 16),
    (6, 10, 32),
    (11, 21, 64),
    (22, 42, 128),
    (43, 85, 256),
    (86, 170, 512),
    (171, 341, 1_024),
    (342, 682, 2_048),
    (683, 1_365, 4_096),
    (1_366, 2_730, 8_192),
    (2_731, 5_461, 16_384),
    (5_462, 10_922, 32_768),
    (10_923, 16_384, 65_536),
];

fn expect_sizes(rt: &impl Abort, table: &mut Table) {
    for (least, greatest, size) in &SIZES {
        expect(rt, size_of(rt, table, *least) == *size, "the least number");
        expect(
            rt,
            size_of(rt, table, *greatest) == *size,
            "the greatest number",
        );
        let is_full = table.is_too_small_for_one_more() == (*greatest < 16_384);
        expect(
            rt,
            is_full && !table.is_too_large(),
            "the greatest number is",
        );
    }
    expect(
        rt,
        matches!(table.register(), Err(LotError::Full)),
        "a table that is full",
    );
    for (least, greatest, size) in SIZES.iter().rev() {
        expect(
            rt,
            size_of(rt, table, *greatest) == *size,
            "a trim to the greatest number",
        );
        expect(
            rt,
            size_of(rt, table, *least) == *size,
            "a trim to the least number",
        );
    }
}

// It refuses a registration that answers `NoMemory` once there are more than some.
#[test]
fn the_size_goes_by_the_number_of_threads(rt: HostRuntime) {
    let mut table = Table::new(rt.alloc(), 16_384).expect(&rt, "memory");
    expect_sizes(&rt, &mut table);
    // The keys 0 and 13 have place 0 of 16.
    let bucket = table.take(13);
    expect(
        &rt,
        bucket.place() == 0 && bucket.size() == 16,
        "a bucket that is taken",
    );
    table.put(bucket);
    expect(
        &rt,
        table.bucket(13).place() == 0,
        "a bucket that is put back",
    );
}
