//! What comes beside a node.

ghost use Rattle.std.specs.Prelude.{◌≡◌};
ghost use Rattle.lot_base.specs.Node.{fields};

use super::{OWNER, owners_node};
use crate::expect_each;
use lot_base::queue::Node;
use lot_base::thread_parker::{ParkerKey, ParkerT, Payload, ThreadParker, WordParker, YieldParker};
use lot_base::token::ParkToken;
use std::alloc::Global;
use std::process::Abort;
use std::sync::Wait;

// A payload that has the token of its node.
#[derive(Drop)]
struct Parcel {
    token: ParkToken,
}

impl Payload for Parcel {
    type Home = ();

    ghost use Rattle.std.specs.Prelude.{◌≡◌};

    ghost fits = { λ _ node parcel. parcel.token ≡ node.park_token };
}

// A node of the owner with this token, and a payload that fits it.
fn node_and_parcel(rt: &impl Abort, alloc: Global, token: usize) -> (Box<Node>, Parcel)
    ensures number { (fields result.0.value).number ≡ OWNER }
    ensures fits { result.1.token ≡ (fields result.0.value).park_token }
{
    let node = owners_node(rt, alloc, token);
    let token = node.park_token;
    (node, Parcel { token })
}

// The node that comes next has this token, and so has what comes beside it.
fn expect_back<P: ParkerT<Payload = Parcel>, R: Wait + Abort>(rt: &R, parker: &P, token: usize) {
    let (node, parcel) = parker.park(rt);
    let is_back = node.park_token.0 == token && parcel.token.0 == token;
    expect_each(rt, is_back, "a node and what comes beside it", token);
}

// No clause says which node comes out. This refuses a slot that keeps the second of two, or both.
fn a_payload_comes_with_its_node<P: ParkerT<Payload = Parcel>, R: Wait + Abort>(
    rt: &R,
    alloc: Global,
) {
    let key = ParkerKey {
        number: OWNER,
        home: (),
    };
    let parker = P::new(alloc, &key).expect(rt, "memory");
    for round in 0..2 {
        let (first, parcel) = node_and_parcel(rt, alloc, round);
        drop(parker.unpark_lock(rt, first, parcel));
        let (second, parcel) = node_and_parcel(rt, alloc, 42);
        drop(parker.unpark_lock(rt, second, parcel));
        expect_back(rt, &parker, round);
    }
}

#[test]
fn a_payload_comes_with_the_node_that_it_was_put_beside(rt: HostRuntime) {
    a_payload_comes_with_its_node::<WordParker<Parcel>, _>(&rt, rt.alloc());
    a_payload_comes_with_its_node::<ThreadParker<Parcel>, _>(&rt, rt.alloc());
    a_payload_comes_with_its_node::<YieldParker<Parcel>, _>(&rt, rt.alloc());
}
