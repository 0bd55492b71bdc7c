//! Hands a thread its node back.
ghost use Rattle.std.specs.Prelude.{◌≡◌};
ghost use Rattle.lot_base.specs.Node.{fields};

use lot_base::queue::Node;
use lot_base::thread_parker::{ThreadParkerT, UnparkHandleT};
use std::sync::Wait;

/// Sleeps until the thread's node comes back, and tells the number in the token that came with it.
pub fn wait<P: ThreadParkerT, R: Wait>(rt: &R, parker: &P) -> usize {
    parker.prepare_park();
    let (node, _) = parker.park(rt);
    node.unpark_token.0
}

/// Hands the thread its node back, and wakes it.
pub fn wake<P: ThreadParkerT, R: Wait>(rt: &R, parker: &P, node: Box<Node>)
    requires { (fields node.value).number ≡ P.owner parker.now }
{
    parker.unpark_lock(rt, node, ()).unpark(parker);
}
