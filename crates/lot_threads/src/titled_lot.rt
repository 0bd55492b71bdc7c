//! This module has a lot whose keys have titles, for locks whose own tables tell who waits.

ghost use Rattle.std.specs.Prelude.{◌≡◌, ◌≢◌, ◌↔◌, ◌<◌, ◌≤◌, [], replicate, Contains, Err, IfErr, IfOk, IfSome, IsErrOf};
ghost use Rattle.lot_machine.specs.declared.step.Answer.{Answer};
ghost use Rattle.lot_machine.specs.declared.step.Step.{Step};
ghost use Rattle.lot_history.specs.Witness.{Extends, IsStill, events_of, id_of, limit_of, max_threads_of, seen_by};
ghost use Rattle.lot_threads.specs.Dealers.{IsDealt};
ghost use Rattle.lot_threads.specs.Idle.{IsIdle, StaysIdle};
ghost use Rattle.lot_threads.specs.Members.{Begins, IsDataOf, IsListed, Stays, member_of};
ghost use Rattle.lot_threads.specs.Titled.{IsEnteredIn, IsSameThread, IsTitle, Retells, told_by};

use crate::dealer::{Dealer, new_dealer};
use crate::numbered_nodes::NumberedNodes;
use crate::parker::ThreadParkerT;
use crate::parking_lot::ThreadData;
use crate::shared_lot::SharedLot;
use crate::title::Title;
use crate::titled_section::{Entered, TitledSection};
use crate::titled_steps::confirm_out;
use lot_base::token::{LotError, NoMemory, UnparkToken};
use lot_base::word_lock::WordLock;
use lot_history::history::{Part, Witness};
use lot_machine::numbers::{MAX_THREADS, Use};
use lot_machine::step::{Answer, Step};
use std::alloc::Global;
use std::marker::Model;
use std::mem;
use std::sync::Wait;
use std::time::{Clock, Instant};

/// A `TitledLot` is a parking lot whose keys below a limit have titles, which tell who waits.
///
/// A lock takes a key with its title by `deal`, and keeps the title in a table of its own. To
/// change the list of the key, it opens the critical section of the key, takes the title out of
/// its table, makes a step of the section with the title, puts the title back, and closes the
/// section. So whenever no section is open, the lock's table tells who is in the list.
///
/// In everything else it is like a `ParkingLot`. In contracts it is the history of its calls.
#[derive(Drop)]
pub struct TitledLot<P: ThreadParkerT> {
    shared: SharedLot<P>,
    dealer: WordLock<Dealer>,
}

impl<P: ThreadParkerT> Model for TitledLot<P> {
    ghost use Rattle.lot_history.specs.declared.history.History.{History};

    ghost Value = { History };

    ghost use Rattle.lot_history.specs.Witness.{id_of, limit_of};
    ghost use Rattle.lot_threads.specs.Dealers.{IsDealerLock};

    ghost view = { λ lot. lot.shared };

    ghost invariant = { λ lot. IsDealerLock (id_of lot.shared) (limit_of lot.shared) lot.dealer };
}

impl<P: ThreadParkerT> TitledLot<P> {
    /// Creates a lot for at most this many threads, none of which is registered. The keys below the
    /// limit have titles, none of which is dealt.
    ///
    /// It allocates what `ParkingLot::new` does, and a lock for the titles.
    ///
    /// # Errors
    ///
    /// Returns `TooManyThreads` if and only if the number is above `MAX_THREADS`. Otherwise returns
    /// `NoMemory` if there is not enough memory. Nothing was created then.
    pub fn new(alloc: Global, max_threads: usize, limit: usize) -> Result<TitledLot<P>, LotError>
        ensures too_many { IsErrOf result LotError.TooManyThreads ↔ (MAX_THREADS < max_threads) }
        ensures not_full { result ≢ Err LotError.Full }
        ensures threads { IfOk result (λ lot. max_threads_of lot ≡ max_threads) }
        ensures limit { IfOk result (λ lot. limit_of lot ≡ limit) }
    {
        let numbers = NumberedNodes::new(alloc, max_threads)?;
        let lot = TitledLot::for_threads(alloc, max_threads, limit, numbers)?;
        Ok(lot)
    }

    // The same, with its numbers, and so for no more threads than that.
    fn for_threads(
        alloc: Global,
        max_threads: usize,
        limit: usize,
        numbers: NumberedNodes,
    ) -> Result<TitledLot<P>, NoMemory>
        requires few { max_threads ≤ MAX_THREADS }
        requires numbers { numbers ≡ replicate max_threads Use.Free }
        ensures threads { IfOk result (λ lot. max_threads_of lot ≡ max_threads) }
        ensures limit { IfOk result (λ lot. limit_of lot ≡ limit) }
    {
        let (shared, undealt) = SharedLot::for_threads(alloc, max_threads, limit, numbers)?;
        let dealer = new_dealer(alloc, shared.history(), limit, undealt)?;
        Ok(TitledLot { shared, dealer })
    }

    /// Returns the greatest number of threads. Every thread number is below it.
    pub fn max_threads(&self) -> usize
        ensures { result ≡ max_threads_of self.now }
    {
        self.shared.max_threads()
    }

    /// Returns the limit below which keys have titles.
    pub fn limit(&self) -> usize
        ensures { result ≡ limit_of self.now }
    {
        self.shared.limit()
    }

    // What it is, a lot.
    fn shared(&self) -> &SharedLot<P>
        ensures { result.now ≡ self.now }
    {
        &self.shared
    }

    /// Deals the next key with its title, or returns `None` if all are dealt.
    ///
    /// No key is dealt twice. It takes the lock of the titles.
    pub fn deal<R: Wait>(&self, rt: &R) -> Option<(usize, Title)>
        ensures { IfSome result (λ dealt. IsDealt self.now (id_of self.now) dealt.0 dealt.1) }
    {
        let mut held = self.dealer.lock(rt);
        let dealt = held.value.deal(self.shared.history(), self.shared.limit());
        self.dealer.unlock(held);
        dealt
    }

    /// Registers a thread, as `ParkingLot::thread_data` does.
    ///
    /// # Errors
    ///
    /// Returns the errors of `ParkingLot::thread_data`.
    pub fn thread_data<R: Wait>(&self, rt: &R, alloc: Global) -> Result<ThreadData, LotError>
        ensures not_too_many { result ≢ Err LotError.TooManyThreads }
        ensures own { IfOk result (IsDataOf self.now) }
        ensures records { IfOk result (λ thread. thread.records ≡ []) }
        ensures registered { IfOk result (λ thread.
            Begins self.now Step.Register (Answer.Registered thread.number) thread.witness) }
    {
        self.shared().thread_data(rt, alloc)
    }

    /// Ends the registration of the thread, as `ParkingLot::retire` does.
    pub fn retire<R: Wait>(&self, rt: &R, thread_data: ThreadData) -> Witness
        requires own { IsDataOf self.now thread_data }
        ensures still { IsStill self.now thread_data.witness result }
        ensures retired { Extends self.now thread_data.witness
            (Step.Retire thread_data.number) Answer.Retired result }
    {
        self.shared().retire(rt, thread_data)
    }

    /// Returns a new witness of the lot's history, which has seen nothing and added nothing. It
    /// costs a load.
    pub fn witness(&self) -> Witness
        ensures idle { IsIdle self.now result }
        ensures nothing_seen { seen_by result ≡ [] }
        ensures nothing_added { events_of result ≡ [] }
    {
        self.shared().history().witness()
    }

    /// Opens the critical section of the key.
    ///
    /// It locks the bucket of the key. Do not call it in a critical section.
    pub fn open<R: Wait>(&self, rt: &R, key: usize) -> TitledSection<'_, P>
        ensures history { result.history ≡ self.now }
        ensures key { result.key ≡ key }
    {
        TitledSection::open(rt, self.shared(), key)
    }

    /// Sleeps until another thread has unparked this one, and returns the thread's data and the
    /// token of that unpark.
    ///
    /// The call allocates nothing. Do not call it in a critical section.
    pub fn wait<R: Wait>(&self, rt: &R, entered: Entered) -> (ThreadData, UnparkToken)
        requires own { IsEnteredIn self.now entered }
        ensures thread { IsDataOf self.now result.0
            × IsSameThread result.0 entered.key entered }
        ensures still { IsStill self.now entered.witness result.0.witness }
        ensures returns { Extends self.now entered.witness (Step.Return entered.number)
            (Answer.Unparked result.1) result.0.witness }
    {
        let Entered {
            number,
            key: _,
            keys,
            records,
            timing,
            mut witness,
        } = entered;
        let (token, thread, node) = self.shared().wait_unparked(rt, &mut witness, number);
        let back = ThreadData {
            number,
            node: Some(node),
            keys,
            thread,
            records,
            timing,
            witness,
        };
        (back, token)
    }

    /// Sleeps as `wait` does, but no longer than until the deadline.
    ///
    /// A clock that cannot be read counts as past it. Do not call it in a critical section.
    ///
    /// # Errors
    ///
    /// Returns the thread if the deadline has passed. It is in the list still, unless an unpark has
    /// taken it: `TitledSection::leave` tells.
    pub fn wait_until<R: Wait + Clock>(
        &self,
        rt: &R,
        entered: Entered,
        timeout: Instant,
    ) -> Result<(ThreadData, UnparkToken), Entered>
        requires own { IsEnteredIn self.now entered }
        ensures thread { IfOk result (λ back. IsDataOf self.now back.0
            × IsSameThread back.0 entered.key entered) }
        ensures still { IfOk result (λ back. IsStill self.now entered.witness back.0.witness) }
        ensures returns { IfOk result (λ back. Extends self.now entered.witness
            (Step.Return entered.number) (Answer.Unparked back.1) back.0.witness) }
        ensures unchanged { IfErr result (λ late. late ≡ entered) }
    {
        let Entered {
            number,
            key,
            keys,
            records,
            timing,
            mut witness,
        } = entered;
        let shared = self.shared();
        let Some((token, thread, node)) = shared.wait_unparked_until(
            rt,
            &mut witness,
            number,
            timeout,
        ) else {
            return Err(Entered {
                number,
                key,
                keys,
                records,
                timing,
                witness,
            });
        };
        let back = ThreadData {
            number,
            node: Some(node),
            keys,
            thread,
            records,
            timing,
            witness,
        };
        Ok((back, token))
    }

    /// Returns the title unchanged, and shows that the thread of this data is not in its list.
    ///
    /// A lock calls it before it forgets that the thread waited. It costs five loads.
    pub fn confirm_out(&self, thread_data: &mut ThreadData, key: usize, title: Title) -> Title
        requires own { IsDataOf self.now thread_data.old }
        requires title { IsTitle self.now key title }
        ensures stays { Stays (member_of self.now thread_data.old)
            (member_of self.now thread_data.new) }
        ensures nothing_added { events_of thread_data.new.witness
            ≡ events_of thread_data.old.witness }
        ensures title { Retells self.now key title (told_by title) result }
        ensures out { ¬ Contains (told_by title) thread_data.old.number }
    {
        let history = self.shared().history();
        let number = thread_data.number;
        let thread = mem::replace(&mut thread_data.thread, Part::none());
        let me = &mut thread_data.witness;
        let (thread, title) = confirm_out(history, me, number, key, thread, title);
        thread_data.thread = thread;
        title
    }

    /// Returns the numbers of the threads that are in the list of the key, in order.
    ///
    /// The call allocates while the bucket is locked, and again whenever the list has to grow.
    ///
    /// # Errors
    ///
    /// Returns `NoMemory` if there is not enough memory for the list. An empty list needs none.
    pub fn list<R: Wait>(
        &self,
        rt: &R,
        alloc: Global,
        me: &mut Witness,
        key: usize,
    ) -> Result<Vec<usize>, NoMemory>
        requires idle { IsIdle self.now me.old }
        ensures idle { StaysIdle self.now me.old me.new }
        ensures listed { IsListed self.now key me.old me.new result }
    {
        self.shared().list_in_section(rt, alloc, me, key)
    }
}
