//! This module has the critical sections of keys that have titles.

ghost use Rattle.std.specs.Prelude.{◌≡◌, ◌++◌, ◌∷◌, [], length, not, true, IfErr, IfOk};
ghost use Rattle.lot_base.specs.NodeLists.{saturated};
ghost use Rattle.lot_base.specs.Waiting.{has_any, result_of, split_first};
ghost use Rattle.lot_machine.specs.declared.step.Answer.{Answer};
ghost use Rattle.lot_machine.specs.declared.step.Op.{Op};
ghost use Rattle.lot_machine.specs.declared.step.Step.{Step};
ghost use Rattle.lot_history.specs.Witness.{Extends, IsStill};
ghost use Rattle.lot_threads.specs.Idle.{IsIdle, StaysIdle};
ghost use Rattle.lot_threads.specs.Members.{IsDataOf, Leaves};
ghost use Rattle.lot_threads.specs.Titled.{IsEnteredIn, IsSameThread, IsStillEntered, IsTitle, Retells, told_by, without_next, without_one};

use crate::parker::ThreadParkerT;
use crate::parking_lot::ThreadData;
use crate::section::{Licence, Section};
use crate::shared_lot::SharedLot;
use crate::shared_lot::handles::Handles;
use crate::title::Title;
use lot_base::thread_parker::ParkerT;
use lot_base::token::{ParkToken, UnparkResult, UnparkToken};
use lot_history::history::{Part, Witness};
use lot_machine::records::Records;
use lot_machine::step::{Answer, Op, Step};
use std::marker::Model;
use std::sync::Wait;

/// A `TitledSection` is the critical section of a key of a `TitledLot`. Its owner has the bucket of
/// the key locked, and may make one step on the list of the key.
///
/// `TitledLot::open` returns one. A step takes the title of the key, and returns the title, which
/// tells who is in the list after the step, and a `ClosingSection`, in which the bucket is still
/// locked. So a lock can take its title out of its own table after `open`, and put it back before
/// `close`, and no other section finds the title gone.
///
/// The owner of a section must not call the lot, nor wait for a thread that does. A section has no
/// `Drop`: it ends in a step or in `close`. In contracts it has two fields, the history of its lot
/// and the key.
pub struct TitledSection<'a, P: ThreadParkerT> {
    section: Section<'a, P>,
    licence: Licence,
}

impl<'a, P: ThreadParkerT> Model for TitledSection<'a, P> {
    ghost use Rattle.lot_threads.specs.Titled.{SectionState};

    ghost Value = { SectionState };

    ghost view = { λ opened. record {
      history = opened.section.lot.now;
      key = opened.section.key;
    } };
}

/// A `ClosingSection` is a critical section whose step was made.
///
/// It has no `Drop`: it ends in `close`, which unlocks the bucket, and wakes the threads that the
/// step unparked.
pub struct ClosingSection<'a, P: ThreadParkerT> {
    section: Section<'a, P>,
    to_wake: ToWake<P::UnparkHandle>,
}

// The threads that are still to be woken: one at most, or the first of all. It has no `Drop`: it
// ends in `close`.
enum ToWake<H> {
    One(Option<H>),
    All(Handles<H>),
}

/// An `Entered` is a registered thread that entered the list of a key of a `TitledLot`.
///
/// `TitledSection::enter` makes one of the thread's data. It has no `Drop`: it ends in
/// `TitledLot::wait`, or in `wait_until` or `TitledSection::leave`, which return the data again. In
/// contracts it has four fields: the thread's number, the key, the keys that the thread has
/// recorded, and its witness.
pub struct Entered {
    pub(crate) number: usize,
    pub(crate) key: usize,
    pub(crate) keys: Records,
    pub(crate) records: Part,
    pub(crate) timing: Part,
    pub(crate) witness: Witness,
}

impl Model for Entered {
    ghost use Rattle.lot_threads.specs.Titled.{EnteredState, IsEntered};

    ghost Value = { EnteredState };

    ghost view = { λ thread. record {
      number = thread.number;
      key = thread.key;
      records = thread.keys;
      witness = thread.witness;
    } };

    ghost invariant = { λ own. IsEntered own.number own.keys own.records own.timing
        own.witness };
}

impl Entered {
    /// Returns the number of the thread.
    pub fn number(&self) -> usize
        ensures { result ≡ self.now.number }
    {
        self.number
    }

    /// Returns the key whose list the thread entered.
    pub fn key(&self) -> usize
        ensures { result ≡ self.now.key }
    {
        self.key
    }
}

impl<'a, P: ThreadParkerT> TitledSection<'a, P> {
    // The critical section of the key.
    pub(crate) fn open<R: Wait>(rt: &R, lot: &'a SharedLot<P>, key: usize) -> TitledSection<'a, P>
        ensures history { result.history ≡ lot.now }
        ensures key { result.key ≡ key }
    {
        let (section, licence) = Section::open(rt, lot, key);
        TitledSection { section, licence }
    }

    /// Puts the thread of this data last in the list of the key, with the title of the key.
    ///
    /// `timed` says whether the thread is to wait with a deadline. The thread sleeps once it calls
    /// `TitledLot::wait` or `wait_until`, after the section is closed.
    ///
    /// The call allocates nothing. Upstream has no such call: its `park` enters and sleeps.
    pub fn enter(
        self,
        thread_data: ThreadData,
        title: Title,
        park_token: ParkToken,
        timed: bool,
    ) -> (Entered, Title, ClosingSection<'a, P>)
        requires own { IsDataOf self.history thread_data }
        requires title { IsTitle self.history self.key title }
        ensures thread { IsSameThread thread_data self.entry.key result.0 }
        ensures own { IsEnteredIn self.entry.history result.0 }
        ensures still { IsStill self.entry.history thread_data.witness result.0.witness }
        ensures entered { Extends self.entry.history thread_data.witness
            (Step.Enter thread_data.number self.entry.key true park_token timed) Answer.Entered
            result.0.witness }
        ensures title { Retells self.entry.history self.entry.key title
            (told_by title ++ thread_data.number ∷ []) result.1 }
    {
        let TitledSection {
            mut section,
            licence,
        } = self;
        let ThreadData {
            number,
            node,
            keys,
            thread,
            records,
            mut timing,
            mut witness,
        } = thread_data;
        let key = section.key;
        // The data of a thread that does not wait has its node: its type keeps that.
        let mut node = node.unwrap();
        node.prepare(key, park_token, timed);
        section.lot.parker(number).prepare_park();
        let title = section.enter_titled(&mut witness, licence, thread, &mut timing, node, title);
        let entered = Entered {
            number,
            key,
            keys,
            records,
            timing,
            witness,
        };
        let to_wake = ToWake::One(None);
        (entered, title, ClosingSection { section, to_wake })
    }

    /// Unparks the first thread in the list of the key, if there is one, with this token.
    ///
    /// The result says whether one was unparked and whether others are left, as the title told. The
    /// thread is woken when the section is closed. The call allocates nothing.
    pub fn unpark_one<R: Wait>(
        self,
        rt: &R,
        me: &mut Witness,
        title: Title,
        token: UnparkToken,
    ) -> (UnparkResult, Title, ClosingSection<'a, P>)
        requires idle { IsIdle self.history me.old }
        requires title { IsTitle self.history self.key title }
        ensures idle { StaysIdle self.entry.history me.old me.new }
        ensures unparked { Extends self.entry.history me.old
            (Step.Unpark (Op.One self.entry.key token)) (Answer.Unpark result.0) me.new }
        ensures told { result.0 ≡ result_of (split_first (told_by title)) }
        ensures title { Retells self.entry.history self.entry.key title
            (without_next (told_by title)) result.1 }
    {
        let TitledSection {
            mut section,
            licence,
        } = self;
        let (result, handle, title) = section.take_one_titled(rt, me, licence, title, token);
        let to_wake = ToWake::One(handle);
        (result, title, ClosingSection { section, to_wake })
    }

    /// Unparks all threads in the list of the key with this token, and returns how many it
    /// unparked.
    ///
    /// The first eight threads are woken when the section is closed, and the others before that,
    /// because there is room for eight handles. The call allocates nothing.
    pub fn unpark_all<R: Wait>(
        self,
        rt: &R,
        me: &mut Witness,
        title: Title,
        token: UnparkToken,
    ) -> (usize, Title, ClosingSection<'a, P>)
        requires idle { IsIdle self.history me.old }
        requires title { IsTitle self.history self.key title }
        ensures idle { StaysIdle self.entry.history me.old me.new }
        ensures unparked { Extends self.entry.history me.old
            (Step.Unpark (Op.All self.entry.key token)) (Answer.Count result.0) me.new }
        ensures told { result.0 ≡ saturated (length (told_by title)) }
        ensures title { Retells self.entry.history self.entry.key title [] result.1 }
    {
        let TitledSection {
            mut section,
            licence,
        } = self;
        let (count, handles, title) = section.take_all_titled(rt, me, licence, title, token);
        let to_wake = ToWake::All(handles);
        (count, title, ClosingSection { section, to_wake })
    }

    /// Takes a thread whose deadline has passed out of the list of the key, and returns its data
    /// and whether it was the last in the list.
    ///
    /// If an unpark has taken the thread before, it returns the thread as it was; the thread must
    /// call `TitledLot::wait` then, which returns soon. A thread that entered without a deadline
    /// stays in the list and is returned, too. The call allocates nothing.
    pub fn leave(
        self,
        entered: Entered,
        title: Title,
    ) -> (
        Result<(ThreadData, bool), Entered>,
        Title,
        ClosingSection<'a, P>,
    )
        requires own { IsEnteredIn self.history entered }
        requires key { entered.key ≡ self.key }
        requires title { IsTitle self.history self.key title }
        ensures thread { IfOk result.0 (λ left. IsDataOf self.entry.history left.0
            × IsSameThread left.0 entered.key entered) }
        ensures left { IfOk result.0 (λ left. Leaves self.entry.history entered.number
            self.entry.key left.1 entered.witness left.0.witness) }
        ensures last { IfOk result.0 (λ left.
            left.1 ≡ not (has_any (without_one entered.number (told_by title)))) }
        ensures title { IfOk result.0 (λ left. Retells self.entry.history self.entry.key title
            (without_one entered.number (told_by title)) result.1) }
        ensures unchanged { IfErr result.0 (λ still. IsStillEntered self.entry.history entered
            still × (result.1 ≡ title)) }
    {
        let TitledSection {
            mut section,
            licence,
        } = self;
        let Entered {
            number,
            key,
            keys,
            records,
            timing,
            mut witness,
        } = entered;
        match section.leave_titled(&mut witness, licence, number, title) {
            Ok((thread, node, last, title)) => {
                let left = ThreadData {
                    number,
                    node: Some(node),
                    keys,
                    thread,
                    records,
                    timing,
                    witness,
                };
                let to_wake = ToWake::One(None);
                (Ok((left, last)), title, ClosingSection { section, to_wake })
            }
            Err(title) => {
                let entered = Entered {
                    number,
                    key,
                    keys,
                    records,
                    timing,
                    witness,
                };
                let to_wake = ToWake::One(None);
                (Err(entered), title, ClosingSection { section, to_wake })
            }
        }
    }

    /// Unlocks the bucket, where no step is to be made.
    pub fn close(self) {
        let TitledSection { section, licence } = self;
        licence.spend();
        section.close();
    }
}

impl<P: ThreadParkerT> ClosingSection<'_, P> {
    /// Unlocks the bucket, and wakes the threads that the step unparked.
    pub fn close(self) {
        let ClosingSection { section, to_wake } = self;
        let lot = section.lot;
        section.close();
        match to_wake {
            ToWake::One(handle) => lot.wake(handle),
            ToWake::All(handles) => lot.wake_all(handles),
        }
    }
}
