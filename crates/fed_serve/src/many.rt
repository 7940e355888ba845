// Several connections at once.

ghost use Rattle.std.specs.Prelude.{◌≡◌, All, is_some, true};
ghost use Rattle.std.specs.Thread.{IsSend, IsSync};
ghost use Rattle.fed_serve.specs.Resolutions.{call_at};
ghost use Rattle.fed_serve.specs.Moments.{peer_at};
ghost use Rattle.fed_serve.specs.Desks.{IsFree, IsServedAt, ServesMany, desks_at, views_of};
ghost use Rattle.http_plain.specs.Networks.{network_at};
ghost use Rattle.fed_ports.specs.Times.{clock_at};

use crate::desk::{Desk, Place};
use crate::node::Node;
use fed_ports::{Clock, Failed, Ledger, Link, Network};
use std::alloc::Global;
use std::sync::Wait;
use std::thread::{Threads, join_mut};

/// Serves a connection at each desk, each in a thread of its own: accepts a peer for the first desk, and serves it there while the same is
/// done for the other desks. So a peer is served while the next one is waited for; where no thread can be started, after those behind it.
/// `Failed` comes where the network failed to accept the next peer: those before are served to their end, and the other desks are as they
/// were. After either answer the network still listens. It takes no memory but what [`serve_one`](crate::serve_one) takes.
pub fn serve_many<R: Threads + Wait + Sync, N: Network, L: Link + Send, C: Clock, G: Ledger + Send>(
    node: &Node,
    rt: &R,
    alloc: Global,
    net: &mut N,
    desks: &mut [Desk<N::Peer, L, C, G>],
) -> Result<(), Failed>
    requires listens { is_some (N.port net.old) ≡ true }
    requires free { All (IsFree node.now) desks.old }
    ensures serves { ServesMany
        (IsServedAt (views_of (λ peer. peer_at (N.Peer.left peer) (N.Peer.held peer) (N.Peer.read_faults peer) (N.Peer.write_faults peer))
        (λ clock. clock_at (C.readings clock) (C.last clock) (C.told clock))
        (λ known link ledger. call_at known (L.web link) (L.calls link) (L.link_faults link) (G.count ledger)) L.gave) node.now)
        (desks_at (network_at (N.port net.old) (N.exchanges net.old) (N.callers net.old) (N.settled net.old) (N.faults net.old)) desks.old)
        (desks_at (network_at (N.port net.new) (N.exchanges net.new) (N.callers net.new) (N.settled net.new) (N.faults net.new)) desks.new)
        result }
{
    serve_each(node, rt, &alloc, net, desks)
}

// The same at any places, with an allocator that the threads share.
fn serve_each<R: Threads + Wait + Sync, N: Network, D: Place<N::Peer> + Send>(
    node: &Node,
    rt: &R,
    alloc: &Global,
    net: &mut N,
    desks: &mut [D],
) -> Result<(), Failed>
    requires listens { is_some (N.port net.old) ≡ true }
    requires free { All (D.is_free node.now) desks.old }
    ensures serves { ServesMany (D.is_served node.now)
        (desks_at (network_at (N.port net.old) (N.exchanges net.old) (N.callers net.old) (N.settled net.old) (N.faults net.old)) desks.old)
        (desks_at (network_at (N.port net.new) (N.exchanges net.new) (N.callers net.new) (N.settled net.new) (N.faults net.new)) desks.new)
        result }
{
    let Some((first, rest)) = desks.split_first_mut() else {
        return Ok(());
    };
    let peer = net.accept()?;
    first.take(peer);
    let (_, result) = join_mut(
        rt,
        &mut ||
            requires { IsSync R.row × (peer : N.Peer) × (free : D) × D.is_free node.now free × D.is_taken peer free first.now }
            ensures { (peer : N.Peer) (free : D) → D.is_free node.entry.now free → D.is_taken peer free first.entry.now → D.is_served node.entry.now peer free first.exit.now }
        {
            first.serve(node, rt, *alloc);
        },
        &mut || -> Result<(), Failed>
            requires { IsSync R.row × IsSend D.row × (is_some (N.port net.now) ≡ true) × All (D.is_free node.now) rest.now }
            ensures { ServesMany (D.is_served node.entry.now)
                (desks_at (network_at (N.port net.entry.now) (N.exchanges net.entry.now) (N.callers net.entry.now) (N.settled net.entry.now) (N.faults net.entry.now)) rest.entry.now)
                (desks_at (network_at (N.port net.exit.now) (N.exchanges net.exit.now) (N.callers net.exit.now) (N.settled net.exit.now) (N.faults net.exit.now)) rest.exit.now)
                result }
        { serve_each(node, rt, alloc, net, rest) },
    );
    result
}
