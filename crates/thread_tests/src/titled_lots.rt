//! Lots whose keys have titles: threads enter a list, are unparked and leave it with the title.

ghost use Rattle.std.specs.Prelude.{◌≡◌};
ghost use Rattle.lot_threads.specs.Titled.{IsEnteredIn, IsTitle};

use crate::expect;
use lot_threads::{
    Entered, ParkToken, ThreadData, Title, TitledLot, UnparkResult, UnparkToken, WordParker,
};
use std::alloc::Global;
use std::process::Abort;
use std::sync::Wait;
use std::time::{Clock, Instant};

type Lot = TitledLot<WordParker>;

// A new thread that enters the list of the key.
fn enter<R: Abort + Wait>(
    rt: &R,
    alloc: Global,
    lot: &Lot,
    key: usize,
    title: Title,
) -> (Entered, Title)
    requires title { IsTitle lot.now key title }
    ensures own { IsEnteredIn lot.now result.0 }
    ensures key { result.0.key ≡ key }
    ensures title { IsTitle lot.now key result.1 }
{
    let thread = lot.thread_data(rt, alloc).expect(rt, "memory");
    let (entered, title, section) = lot.open(rt, key).enter(thread, title, ParkToken(1), true);
    section.close();
    (entered, title)
}

fn unpark<R: Wait>(
    rt: &R,
    lot: &Lot,
    key: usize,
    title: Title,
    token: usize,
) -> (UnparkResult, Title)
    requires title { IsTitle lot.now key title }
    ensures title { IsTitle lot.now key result.1 }
{
    let mut witness = lot.witness();
    let section = lot.open(rt, key);
    let (found, title, section) = section.unpark_one(rt, &mut witness, title, UnparkToken(token));
    section.close();
    (found, title)
}

// The data of a thread whose deadline has passed, and whether it was the last in its list; or its
// data alone, where an unpark took it before.
fn leave<R: Wait>(
    rt: &R,
    lot: &Lot,
    late: Entered,
    title: Title,
) -> (ThreadData, Option<bool>, Title)
    requires own { IsEnteredIn lot.now late }
    requires title { IsTitle lot.now late.key title }
{
    let (left, title, section) = lot.open(rt, late.key()).leave(late, title);
    section.close();
    match left {
        Ok((thread, last)) => (thread, Some(last), title),
        Err(entered) => (lot.wait(rt, entered).0, None, title),
    }
}

// Two threads come back in order, with the tokens of their unparks.
fn come_back_in_order<R: Abort + Wait>(rt: &R, alloc: Global, lot: &Lot, key: usize, title: Title)
    requires title { IsTitle lot.now key title }
{
    let (first, title) = enter(rt, alloc, lot, key, title);
    let (second, title) = enter(rt, alloc, lot, key, title);
    let (found, title) = unpark(rt, lot, key, title, 7);
    let are_more = found.unparked_threads == 1 && found.have_more_threads;
    expect(rt, are_more, "one is unparked of two");
    let (found, _title) = unpark(rt, lot, key, title, 8);
    let is_last = found.unparked_threads == 1 && !found.have_more_threads;
    expect(rt, is_last, "the last is unparked");
    let (_first, token) = lot.wait(rt, first);
    expect(rt, token == UnparkToken(7), "the first was unparked first");
    let (_second, token) = lot.wait(rt, second);
    expect(rt, token == UnparkToken(8), "the second was unparked then");
}

// A late thread that was unparked comes back.
fn come_back_late<R: Abort + Wait>(rt: &R, alloc: Global, lot: &Lot, key: usize, title: Title)
    requires title { IsTitle lot.now key title }
{
    let (entered, title) = enter(rt, alloc, lot, key, title);
    let (_found, title) = unpark(rt, lot, key, title, 7);
    let (_thread, last, _title) = leave(rt, lot, entered, title);
    expect(rt, last.is_none(), "an unpark took it before");
}

// A wait with a deadline that has passed ends.
fn leave_late<R: Abort + Wait + Clock>(rt: &R, alloc: Global, lot: &Lot, key: usize, title: Title)
    requires title { IsTitle lot.now key title }
{
    let (entered, title) = enter(rt, alloc, lot, key, title);
    let past = Instant::now(rt).expect(rt, "a clock");
    match lot.wait_until(rt, entered, past) {
        Ok(_back) => expect(rt, false, "nobody unparks it"),
        Err(late) => {
            let (_thread, last, _title) = leave(rt, lot, late, title);
            expect(rt, last == Some(true), "it was the last");
        }
    }
}

// Each of three keys is dealt once.
fn deal_each_key<R: Abort + Wait + Clock>(rt: &R, alloc: Global, lot: &Lot) {
    let (first, title) = lot.deal(rt).expect(rt, "a key");
    come_back_in_order(rt, alloc, lot, first, title);
    let (second, title) = lot.deal(rt).expect(rt, "a key");
    come_back_late(rt, alloc, lot, second, title);
    let (third, title) = lot.deal(rt).expect(rt, "a key");
    leave_late(rt, alloc, lot, third, title);
    expect(rt, (first, second, third) == (0, 1, 2), "each key once");
    expect(rt, lot.deal(rt).is_none(), "no key is left");
}

#[test]
fn threads_come_back_by_titles_or_leave_with_them(rt: HostRuntime) {
    let lot = Lot::new(rt.alloc(), 4, 3).expect(&rt, "memory");
    deal_each_key(&rt, rt.alloc(), &lot);
    expect(
        &rt,
        (lot.max_threads(), lot.limit()) == (4, 3),
        "as it was made",
    );
}
