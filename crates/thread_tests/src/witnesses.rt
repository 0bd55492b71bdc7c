//! A witness of a history, who adds the steps of a thread that registers and retires.

ghost use Rattle.std.specs.Prelude.{◌≡◌, ◌<◌, ◌∷◌, [], false};
ghost use Rattle.lot_history.specs.Views.{all_pieces};
ghost use Rattle.lot_history.specs.Witness.{IsStill, IsWitnessOf, max_threads_of, pieces_of};
ghost use Rattle.lot_history.specs.declared.view.Piece.TheVariants.{Numbers};

use lot_history::history::{History, Witness};

// Registers the thread of number 0, which records a key and releases it, and ends its registration.
fn register_and_retire(history: &History, me: &mut Witness)
    requires witness { IsWitnessOf history.now me.old }
    requires nobody { pieces_of me.old ≡ all_pieces }
    requires room { 0 < max_threads_of history.now }
    ensures still { IsStill history.now me.old me.new }
    ensures pieces { pieces_of me.new ≡ Numbers (false ∷ []) ∷ [] }
{
    let _lists = history.give(me);
    history.register(me, 0);
    let numbers = history.give(me);
    history.acquire(me, 0, 7);
    history.release(me, 0, 7);
    history.take(me, numbers);
    history.retire(me, 0);
}

#[test]
fn a_thread_registers_and_retires(rt: HostRuntime) {
    let (history, mut me) = History::new(rt.alloc(), 2).expect(&rt, "memory");
    register_and_retire(&history, &mut me);
}
