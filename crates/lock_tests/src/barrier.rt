//! Tests of `Barrier` and `TitledBarrier`, which upstream does not have.

use crate::stage::{Host, ROOMS, expect, new_lot, new_titled_lot};
use parking_lot::barrier::{BarrierIn, PartiesIn, PartyIn};
use parking_lot::phaser::Phaser;
use parking_lot::{Barrier, Lot, Party, TitledBarrier, TitledParty};
use std::sync::atomic::{AtomicUsize, Ordering};
use std::thread;

// So many come.
const PARTIES: usize = 4;

// So many times each comes.
const ROUNDS: usize = 100;

// Each comes again and again, and finds that all have come before it goes on.
fn come<R: Host, P: Phaser>(
    rt: &R,
    party: &mut PartyIn<'_, P>,
    came: &AtomicUsize,
    led: &AtomicUsize,
) {
    for round in 1..=ROUNDS {
        came.fetch_add(1, Ordering::SeqCst);
        if party.wait(rt).is_leader() {
            led.fetch_add(1, Ordering::SeqCst);
        }
        let have_come = came.load(Ordering::SeqCst) >= round.wrapping_mul(PARTIES);
        expect(rt, have_come, "all have come");
        party.wait(rt);
    }
}

fn push_next<'a, R: Host, P: Phaser>(
    rt: &R,
    parties: &mut Vec<PartyIn<'a, P>>,
    left: &mut PartiesIn<'a, P>,
) {
    let party = left.next().expect(rt, "a party");
    parties.push(party).expect(rt, "memory");
}

fn all_parties<'a, R: Host, P: Phaser>(
    rt: &R,
    barrier: &'a mut BarrierIn<P>,
) -> Vec<PartyIn<'a, P>> {
    let mut left = barrier.parties();
    let mut parties = Vec::new(rt.alloc());
    for _ in 0..PARTIES {
        push_next(rt, &mut parties, &mut left);
    }
    parties
}

fn all_meet<R: Host>(rt: &R, barrier: &mut Barrier<'static>) -> usize {
    let (came, led) = (AtomicUsize::new(0), AtomicUsize::new(0));
    let parties = all_parties(rt, barrier);
    let come = |mut party: Party<'_, '_>| come(rt, &mut party, &came, &led);
    thread::map_vec(rt, parties, &come).expect(rt, "threads");
    led.load(Ordering::SeqCst)
}

fn all_meet_with_title<R: Host>(rt: &R, barrier: &mut TitledBarrier<'_>) -> usize {
    let (came, led) = (AtomicUsize::new(0), AtomicUsize::new(0));
    let parties = all_parties(rt, barrier);
    let come = |mut party: TitledParty<'_, '_>| come(rt, &mut party, &came, &led);
    thread::map_vec(rt, parties, &come).expect(rt, "threads");
    led.load(Ordering::SeqCst)
}

fn has_one_leader_a_round<R: Host>(rt: &R, lot: &'static Lot) -> bool {
    let mut barrier = Barrier::new(lot, PARTIES).expect(rt, "a barrier");
    all_meet(rt, &mut barrier) == ROUNDS
}

fn meet_in_each_room<R: Host>(rt: &R) {
    for room in ROOMS {
        let is_well = has_one_leader_a_round(rt, new_lot(rt, room));
        expect(rt, is_well, "one leader each");
    }
}

fn meet_with_title<R: Host>(rt: &R, room: usize) {
    let made = TitledBarrier::new(rt, new_titled_lot(rt, room), PARTIES);
    let mut barrier = made.expect(rt, "a barrier");
    let is_well = all_meet_with_title(rt, &mut barrier) == ROUNDS;
    expect(rt, is_well, "one leader each");
}

#[test]
fn each_round_has_one_leader(rt: HostRuntime) {
    meet_in_each_room(&rt);
}

#[test]
fn each_round_with_a_title_has_one_leader(rt: HostRuntime) {
    for room in ROOMS {
        meet_with_title(&rt, room);
    }
}
