//! Guards of a part of a value. Upstream has no test of them.

use crate::stage::{Host, ROOM, expect, has, new_lot};
use parking_lot::{Guard, Lens, Mutex, RwLock};
use std::ops::{Deref, DerefMut};

type Pair = (usize, usize);

// The second number of a pair.
#[derive(Drop)]
struct Second;

impl Lens<Pair> for Second {
    type Part = usize;

    fn part<'a>(&self, whole: &'a Pair) -> &'a usize {
        &whole.1
    }

    fn part_mut<'a>(&self, whole: &'a mut Pair) -> &'a mut usize {
        &mut whole.1
    }
}

// Chooses the second number of a pair if the first is not 1.
fn choose_second(pair: &Pair) -> Option<Second> {
    if pair.0 == 1 { None } else { Some(Second) }
}

// The second number of the pair that a guard shows, which is let go.
fn second_of<G: Deref<Target = Pair> + Drop>(guard: G) -> usize {
    guard.1
}

// Changes the first number, if there is a guard, which is let go, and tells whether there is.
fn sets_first<G: DerefMut<Target = Pair> + Drop>(found: Option<G>) -> bool {
    match found {
        Some(mut guard) => {
            guard.0 = 2;
            true
        }
        None => false,
    }
}

fn part_of_a_mutex<R: Host>(rt: &R, mutex: &Mutex<'static, Pair>) {
    let mut part = Guard::map(mutex.lock(rt), Second);
    expect(rt, *part == 2 && mutex.is_locked(rt), "the part is held");
    *part = 3;
    drop(part);
    expect(rt, second_of(mutex.lock(rt)) == 3, "it was written");
}

fn chosen_part_of_a_mutex<R: Host>(rt: &R, mutex: &Mutex<'static, Pair>) {
    let refused = Guard::try_map(mutex.lock(rt), choose_second).err();
    expect(rt, sets_first(refused), "no part was chosen");
    let chosen = Guard::try_map(mutex.lock(rt), choose_second).ok();
    expect(rt, mutex.is_locked(rt), "the part is held");
    expect(rt, has(chosen), "a part was chosen");
    expect(rt, !mutex.is_locked(rt), "it was let go");
}

fn part_to_read<R: Host>(rt: &R, lock: &RwLock<'static, Pair>) {
    let part = Guard::map(lock.read(rt), Second);
    expect(rt, *part == 2, "it is read");
    expect(rt, has(lock.try_read(rt)), "others read");
    expect(rt, !has(lock.try_write(rt)), "nobody writes");
    drop(part);
}

fn part_to_write<R: Host>(rt: &R, lock: &RwLock<'static, Pair>) {
    let mut part = Guard::map(lock.write(rt), Second);
    *part = 3;
    expect(rt, !has(lock.try_read(rt)), "nobody reads");
    drop(part);
    expect(rt, second_of(lock.read(rt)) == 3, "it was written");
}

fn parts_of_each<R: Host>(rt: &R) {
    let lot = new_lot(rt, ROOM);
    let mutex = Mutex::new(lot, (1, 2)).expect(rt, "a mutex");
    let lock = RwLock::new(lot, (1, 2)).expect(rt, "a lock");
    part_of_a_mutex(rt, &mutex);
    chosen_part_of_a_mutex(rt, &mutex);
    part_to_read(rt, &lock);
    part_to_write(rt, &lock);
}

#[test]
fn part_of_a_mutex_and_of_a_lock(rt: HostRuntime) {
    parts_of_each(&rt);
}
