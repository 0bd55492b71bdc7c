//! What threads of `examples` hand to one another: a token, and word of who waits.

ghost use Rattle.examples.specs.Heard.{IsMailboxOf};

use crate::expect;
use examples::heard::{new_mailbox, tell_and_wake};
use examples::token::pass_token;
use lot_threads::{Member, ParkingLot, ThreadParkerT, WordParker};
use std::alloc::Global;
use std::process::Abort;
use std::sync::Wait;
use std::thread::{Threads, join};
use std::time::Clock;
use test_support::calls::{KEY, TOKEN, new_lot, wait};

// The contract leaves open whose unpark it was: here nobody else has the lot.
fn pass_between<P, R>(rt: &R, alloc: Global, lot: &ParkingLot<P>)
where
    P: ThreadParkerT + Send + Sync,
    R: Threads + Wait + Clock + Abort + Sync,
{
    let sleeper = Member::register(rt, alloc, lot).expect(rt, "a number");
    let waker = Member::register(rt, alloc, lot).expect(rt, "a number");
    let (given, _sleeper, _waker) = pass_token(rt, sleeper, waker, KEY, TOKEN);
    expect(rt, given == TOKEN, "it is the token of the other");
}

fn sleep<P: ThreadParkerT, R: Wait + Clock>(rt: &R, mut sleeper: Member<'_, P>) -> bool {
    wait(rt, &mut sleeper, KEY, None).is_unparked()
}

// Nobody else has the lot, so whoever was heard of is the one that is woken.
fn wake_by_word<P, R>(rt: &R, alloc: Global, lot: &ParkingLot<P>)
where
    P: ThreadParkerT + Send + Sync,
    R: Threads + Wait + Clock + Abort + Sync,
{
    let sleeper = Member::register(rt, alloc, lot).expect(rt, "a number");
    let number = sleeper.number();
    let mailbox = new_mailbox(alloc, lot, KEY).expect(rt, "memory");
    let (is_unparked, (heard_of, answer)) = join(
        rt,
        || sleep(rt, sleeper),
        ||
            requires { IsMailboxOf lot.now KEY mailbox }
        { tell_and_wake(rt, alloc, lot, &mailbox, KEY, TOKEN) },
    );
    let is_woken = is_unparked && answer.unparked_threads == 1;
    expect(rt, is_woken && heard_of == number, "it is woken by word");
}

#[test]
fn a_token_and_word_go_from_thread_to_thread(rt: HostRuntime) {
    let lot = new_lot::<WordParker>(rt.alloc(), 3).expect(&rt, "a lot");
    pass_between(&rt, rt.alloc(), &lot);
    wake_by_word(&rt, rt.alloc(), &lot);
}
