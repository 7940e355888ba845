// What one connection of several is served with.

ghost use Rattle.std.specs.Prelude.{Some, None};
ghost use Rattle.std.specs.Thread.{IsSync};
ghost use Rattle.fed_serve.specs.Resolutions.{call_at};
ghost use Rattle.fed_serve.specs.declared.node.Node.{Node as AnyNode};
ghost use Rattle.fed_serve.specs.Moments.{peer_at};
ghost use Rattle.fed_serve.specs.Desks.{IsFree, IsServedAt, IsTaken, views_of};
ghost use Rattle.fed_ports.specs.Times.{clock_at};

use crate::node::Node;
use crate::served::Served;
use crate::serving::{ServeFault, serve_by};
use crate::time::ByClock;
use fed_ports::{Clock, Ledger, Link, Peer, Steps};
use statement_shelf::FedPass;
use std::alloc::Global;
use std::sync::Wait;
use std::thread::Threads;

/// A worker: what it serves one connection with, which no other worker has, and what came of it.
#[derive(Drop)]
pub struct Desk<P, L, C, G: Ledger> {
    /// What it knows of the node's shared objects. A node that doesn't resolve takes any pass.
    pub pass: FedPass,
    /// The peer that was accepted for it, once there is one.
    pub peer: Option<P>,
    /// Where a resolver gets pages.
    pub link: L,
    /// Where the moment comes from.
    pub clock: C,
    /// Where tested signatures are counted.
    pub steps: Steps<G>,
    /// What serving the peer answered.
    pub result: Option<Result<Served, ServeFault>>,
}

// A place at which one peer is served. What serves at many of them at once speaks of one type here, and not of the four of a desk: the
// borrow checker's proofs follow what two threads do to parts of a slice where its items have one type of their own.
pub(crate) trait Place<P>: Sized {
    // The node can serve a peer there, and none has come.
    ghost is_free: { AnyNode → Self → Type 0 };

    // The peer has come, and nothing else has changed.
    ghost is_taken: { P → Self → Self → Type 0 };

    // The peer that came was served there.
    ghost is_served: { AnyNode → P → Self → Self → Type 0 };

    // Gives it its peer.
    fn take(&mut self, peer: P)
        requires { (node : AnyNode) × is_free node self.old }
        ensures { is_taken peer self.old self.new };

    // Serves its peer.
    fn serve<R: Wait + Threads + Sync>(&mut self, node: &Node, rt: &R, alloc: Global)
        requires sync { IsSync R.row }
        requires came { (peer : P) × (free : Self) × is_free node.now free × is_taken peer free self.old }
        ensures { (peer : P) (free : Self) → is_free node.now free → is_taken peer free self.old → is_served node.now peer free self.new };
}

impl<P: Peer, L: Link, C: Clock, G: Ledger> Place<P> for Desk<P, L, C, G> {
    ghost is_free = { λ node desk. IsFree node desk };

    ghost is_taken = { λ peer before now. IsTaken peer before now };

    ghost is_served = { λ node came old new. IsServedAt
        (views_of (λ peer. peer_at (P.left peer) (P.held peer) (P.read_faults peer) (P.write_faults peer))
        (λ clock. clock_at (C.readings clock) (C.last clock) (C.told clock))
        (λ known link ledger. call_at known (L.web link) (L.calls link) (L.link_faults link) (G.count ledger)) L.gave)
        node came old new };

    fn take(&mut self, peer: P) {
        let before = self.peer.replace(peer);
        let None = before else { unreachable!() };
    }

    // Keeps the result there.
    fn serve<R: Wait + Threads + Sync>(&mut self, node: &Node, rt: &R, alloc: Global) {
        let Desk {
            pass,
            peer,
            link,
            clock,
            steps,
            result,
        } = self;
        let Some(peer) = peer else { unreachable!() };
        let told = serve_by::<R, P, L, C, ByClock, G>(
            node, rt, alloc, pass, peer, link, clock, steps,
        );
        drop(result.replace(told));
    }
}
