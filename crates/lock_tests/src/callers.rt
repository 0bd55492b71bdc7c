//! Tests of callers of `examples`, which documents show.

use crate::stage::{Host, ROOM, expect, new_lot};
use examples::callers::mutex_accounts::{give, new_accounts, second};
use examples::callers::ways_out::{add, add_to_both, take_seat, take_seat_in_rows};
use parking_lot::{Lot, Mutex};

fn move_amounts<R: Host>(rt: &R, lot: &'static Lot) {
    let accounts = new_accounts(lot).expect(rt, "a mutex");
    expect(rt, give(rt, &accounts, 60), "60 are there");
    expect(rt, !give(rt, &accounts, 60), "40 are left");
    expect(rt, second(rt, &accounts) == 60, "60 moved");
}

fn add_each_way<R: Host>(rt: &R, lot: &'static Lot) {
    let total = Mutex::new(lot, 0u64).expect(rt, "a mutex");
    expect(rt, add(rt, &total, "two").is_err(), "it is no number");
    expect(rt, add(rt, &total, "2").is_ok(), "it is a number");
    add_to_both(rt, &total, &total, 3);
    expect(rt, total.into_inner() == 8, "2 and twice 3");
}

fn take_each_seat<R: Host>(rt: &R, lot: &'static Lot) {
    let rows = [0u32, 1].map(|free| Mutex::new(lot, free).expect(rt, "a mutex"));
    let place = take_seat_in_rows(rt, &rows);
    expect(rt, place == 1, "the one of the second row");
    expect(rt, take_seat_in_rows(rt, &rows) == 2, "there is none");
    expect(rt, !take_seat(rt, &rows[1]), "the row is full");
}

fn call_each<R: Host>(rt: &R) {
    let lot = new_lot(rt, ROOM);
    move_amounts(rt, lot);
    add_each_way(rt, lot);
    take_each_seat(rt, lot);
}

// With a guard that stays, the next lock waits for ever.
#[test]
fn each_way_out_lets_the_mutex_go(rt: HostRuntime) {
    call_each(&rt);
}
