//! Titles of keys: one is dealt, goes from hand to hand, and tells of a thread that enters.

ghost use Rattle.std.specs.Prelude.{◌≡◌, ◌<◌, ◌∷◌, [], false, Contains};
ghost use Rattle.lot_history.specs.Titles.{deal, entering, titled_pieces};
ghost use Rattle.lot_history.specs.Witness.{IsPartOf, IsStill, IsWitnessOf, deals_in, id_of, max_threads_of, pieces_in, pieces_of};
ghost use Rattle.lot_history.specs.declared.view.Piece.TheVariants.{Numbers, Thread, Timing, Title, TitledLists};

use lot_base::token::ParkToken;
use lot_history::history::{History, Part, Witness};
use lot_machine::status::Status;

// The key 0 alone has a title, which is dealt. Lists and title are handed out.
fn deal_one(history: &History, me: &mut Witness) -> (Part, Part)
    requires witness { IsWitnessOf history.now me.old }
    requires nobody { pieces_of me.old ≡ titled_pieces 1 }
    ensures still { IsStill history.now me.old me.new }
    ensures rest { pieces_of me.new ≡ Numbers [] ∷ [] }
    ensures parts { IsPartOf (id_of history.now) result.0 × IsPartOf (id_of history.now) result.1 }
    ensures lists { pieces_in result.0 ≡ TitledLists 1 1 0 [] ∷ [] }
    ensures title { pieces_in result.1 ≡ Title 0 [] ∷ [] }
    ensures dealt { Contains (deals_in result.1) (deal 0 (id_of history.now)) }
{
    let lists = history.give(me);
    history.deal(me, 0, 1);
    let title = history.give(me);
    let _undealt = history.give(me);
    (lists, title)
}

// The thread of number 0 registers. Its piece is handed out, and that of its timing.
fn register_one(history: &History, me: &mut Witness) -> (Part, Part)
    requires witness { IsWitnessOf history.now me.old }
    requires nobody { pieces_of me.old ≡ Numbers [] ∷ [] }
    requires room { 0 < max_threads_of history.now }
    ensures still { IsStill history.now me.old me.new }
    ensures parts { IsPartOf (id_of history.now) result.0 × IsPartOf (id_of history.now) result.1 }
    ensures thread { pieces_in result.0 ≡ Thread 0 Status.Running ∷ [] }
    ensures timing { pieces_in result.1 ≡ Timing 0 false ∷ [] }
{
    history.register(me, 0);
    let _numbers = history.give(me);
    let thread = history.give(me);
    let _records = history.give(me);
    (thread, history.give(me))
}

// The thread enters the list of key 0 with the key's title.
fn enter_with(
    history: &History,
    me: &mut Witness,
    lists: Part,
    title: Part,
    thread: (Part, Part),
    park_token: ParkToken,
)
    requires witness { IsWitnessOf history.now me.old }
    requires bare { pieces_of me.old ≡ [] }
    requires parts { IsPartOf (id_of history.now) lists × IsPartOf (id_of history.now) title
        × IsPartOf (id_of history.now) thread.0 × IsPartOf (id_of history.now) thread.1 }
    requires lists { pieces_in lists ≡ TitledLists 1 1 0 [] ∷ [] }
    requires title { pieces_in title ≡ Title 0 [] ∷ [] }
    requires thread { pieces_in thread.0 ≡ Thread 0 Status.Running ∷ [] }
    requires timing { pieces_in thread.1 ≡ Timing 0 false ∷ [] }
    ensures still { IsStill history.now me.old me.new }
    ensures pieces { pieces_of me.new
        ≡ TitledLists 1 1 0 (entering 0 0 park_token false ∷ []) ∷ Title 0 (0 ∷ [])
        ∷ Timing 0 false ∷ [] }
{
    let (thread, timing) = thread;
    history.take(me, lists);
    history.take(me, title);
    history.take(me, thread);
    history.take(me, timing);
    history.enter_titled(me, 0, 0, park_token, false);
}

fn enter_one(history: &History, me: &mut Witness, park_token: ParkToken) -> Witness
    requires witness { IsWitnessOf history.now me.old }
    requires nobody { pieces_of me.old ≡ titled_pieces 1 }
    requires room { 0 < max_threads_of history.now }
    ensures still { IsStill history.now me.old me.new }
    ensures witness { IsWitnessOf history.now result }
    ensures title { pieces_of result
        ≡ TitledLists 1 1 0 (entering 0 0 park_token false ∷ []) ∷ Title 0 (0 ∷ [])
        ∷ Timing 0 false ∷ [] }
{
    let (lists, title) = deal_one(history, me);
    let thread = register_one(history, me);
    let mut other = history.witness();
    enter_with(history, &mut other, lists, title, thread, park_token);
    other
}

#[test]
fn a_title_tells_of_a_thread_that_enters(rt: HostRuntime) {
    let (history, mut me) = History::with_titles(rt.alloc(), 2, 1).expect(&rt, "memory");
    let _other = enter_one(&history, &mut me, ParkToken(7));
}
