//! One thread tells another whom it has seen waiting, through a word lock. The other unparks then,
//! and knows whom it took.

ghost use Rattle.std.specs.Prelude.{◌≡◌, ℕ, IfNone, IfOk, IfSome};
ghost use Rattle.lot_word_lock.specs.WordLock.{key_of};
ghost use Rattle.lot_threads.specs.Visitors.{Does, Visits};
ghost use Rattle.examples.specs.Heard.{HasHeard, IsMailboxOf, IsMessageAbout, TookAfter};

use lot_history::history::Witness;
use lot_machine::step::{Answer, Op, Step};
use lot_threads::{NoMemory, ParkingLot, ThreadParkerT, UnparkResult, UnparkToken, Visitor};
use lot_word_lock::word_lock::{Fits, WordLock};
use std::alloc::Global;
use std::sync::Wait;
use std::thread;
use std::thread::{Threads, join};

/// That a thread waits, with a witness that has seen so.
#[derive(Drop)]
pub struct Message {
    thread: usize,
    witness: Witness,
}

/// Where a message lies until it is taken.
#[derive(Drop)]
pub struct Mailbox {
    message: Option<Message>,
}

/// What the messages of a mailbox are about: a key of a lot for so many threads, of whose history
/// the witness is one.
#[derive(Drop)]
pub struct Subject {
    witness: Witness,
    max_threads: usize,
    key: usize,
}

impl Fits for Mailbox {
    type Key = Subject;

    ghost use Rattle.examples.specs.Heard.{FitsSubject};

    ghost fits = { λ subject mailbox. FitsSubject subject mailbox };
}

/// An empty mailbox for messages about the key.
pub fn new_mailbox<P: ThreadParkerT>(
    alloc: Global,
    lot: &ParkingLot<P>,
    key: usize,
) -> Result<WordLock<Mailbox>, NoMemory>
    ensures { IfOk result (IsMailboxOf lot.now key) }
{
    let subject = Subject {
        witness: lot.visitor().into_witness(),
        max_threads: lot.max_threads(),
        key,
    };
    WordLock::new(alloc, Mailbox { message: None }, &subject)
}

/// Puts a message into the mailbox if one thread alone waits on the key, and tells whether it did.
pub fn post<P: ThreadParkerT, R: Wait>(
    rt: &R,
    alloc: Global,
    visitor: &mut Visitor<'_, P>,
    mailbox: &WordLock<Mailbox>,
    key: usize,
) -> Result<bool, NoMemory>
    requires { IsMailboxOf visitor.old.history key mailbox.now }
    ensures { Visits visitor.old visitor.new }
{
    let numbers = visitor.list(rt, alloc, key)?;
    if numbers.len() != 1 {
        return Ok(false);
    }
    let message = Message {
        thread: numbers[0],
        witness: visitor.tell(),
    };
    let mut held = mailbox.lock(rt);
    held.value.message = Some(message);
    mailbox.unlock(held);
    Ok(true)
}

/// Takes the message out of the mailbox, if there is one, and hears what its sender had seen. It
/// answers the thread of which the message tells.
pub fn receive<P: ThreadParkerT, R: Wait>(
    rt: &R,
    visitor: &mut Visitor<'_, P>,
    mailbox: &WordLock<Mailbox>,
    key: usize,
) -> Option<usize>
    requires { IsMailboxOf visitor.old.history key mailbox.now }
    ensures none { IfNone result (visitor.new ≡ visitor.old) }
    ensures visits { IfSome result (λ thread. Visits visitor.old visitor.new) }
    ensures heard { IfSome result (λ thread.
        HasHeard visitor.old.history key thread visitor.new.witness) }
{
    let message = take_message(rt, mailbox)?;
    let Message {
        thread,
        mut witness,
    } = message;
    visitor.hear_witness(&mut witness);
    Some(thread)
}

// Takes the message out, if there is one.
fn take_message<R: Wait>(rt: &R, mailbox: &WordLock<Mailbox>) -> Option<Message>
    ensures { IfSome result (λ message. IsMessageAbout (key_of mailbox.now) message) }
{
    let mut held = mailbox.lock(rt);
    let message = held.value.message.take();
    mailbox.unlock(held);
    message
}

/// Unparks one thread of the key. Whichever thread the visitor had heard of as the only one there,
/// it is the one that was taken, if nothing came between.
pub fn wake<P: ThreadParkerT, R: Wait>(
    rt: &R,
    visitor: &mut Visitor<'_, P>,
    key: usize,
    token: UnparkToken,
) -> UnparkResult
    ensures visits { Visits visitor.old visitor.new }
    ensures unparked { Does visitor.old (Step.Unpark (Op.One key token)) (Answer.Unpark result)
        visitor.new }
    ensures took { (thread : ℕ)
        → (hears : HasHeard visitor.old.history key thread visitor.old.witness)
        → TookAfter visitor.old.history key thread visitor.old.witness hears token result
        visitor.new.witness }
{
    visitor.unpark_one(rt, key, |_| token)
}

/// Lets one thread look until somebody waits alone on the key, and tell a second thread, which
/// wakes whom it hears of. It answers whom that thread heard of, and how its unpark ended.
///
/// It waits for ever where nobody comes to wait, where no thread can be made, or where memory for
/// a list cannot be had.
pub fn tell_and_wake<P: ThreadParkerT + Send + Sync, R: Threads + Wait + Sync>(
    rt: &R,
    alloc: Global,
    lot: &ParkingLot<P>,
    mailbox: &WordLock<Mailbox>,
    key: usize,
    token: UnparkToken,
) -> (usize, UnparkResult)
    requires { IsMailboxOf lot.now key mailbox.now }
{
    let ((), woken) = join(
        rt,
        ||
            requires { IsMailboxOf lot.now key mailbox.now }
        { tell(rt, alloc, lot, mailbox, key) },
        ||
            requires { IsMailboxOf lot.now key mailbox.now }
        { wake_heard(rt, lot, mailbox, key, token) },
    );
    woken
}

// Looks until a message could be sent.
fn tell<P: ThreadParkerT, R: Wait>(
    rt: &R,
    alloc: Global,
    lot: &ParkingLot<P>,
    mailbox: &WordLock<Mailbox>,
    key: usize,
)
    requires { IsMailboxOf lot.now key mailbox.now }
{
    let mut visitor = lot.visitor();
    for _ in rt.forever() {
        if post(rt, alloc, &mut visitor, mailbox, key) == Ok(true) {
            return;
        }
        thread::yield_now();
    }
    unreachable!()
}

// Waits for a message, and wakes one thread of the key.
fn wake_heard<P: ThreadParkerT, R: Wait>(
    rt: &R,
    lot: &ParkingLot<P>,
    mailbox: &WordLock<Mailbox>,
    key: usize,
    token: UnparkToken,
) -> (usize, UnparkResult)
    requires { IsMailboxOf lot.now key mailbox.now }
{
    let mut visitor = lot.visitor();
    for _ in rt.forever() {
        if let Some(thread) = receive(rt, &mut visitor, mailbox, key) {
            return (thread, wake(rt, &mut visitor, key, token));
        }
        thread::yield_now();
    }
    unreachable!()
}
