// One batch of connections: a desk for each, and what is left of the desks once all are served.

ghost use Rattle.std.specs.Prelude.{◌≡◌, All, OnErr, OnOk, Some, Ok, true, is_some};
ghost use Rattle.fed_ports.specs.Lists.{Added};
ghost use Rattle.statement_shelf.specs.Passes.{IsPassOfAll};
ghost use Rattle.turn_log.specs.Groups.{known};
ghost use Rattle.resolver_service.specs.Batches.{ServesDesks, is_worn, peers_of, setup};
ghost use Rattle.resolver_service.specs.Ports.{desk_views, progress_seen, standing_seen, views_by};
ghost use Rattle.resolver_service.specs.Steps.{EndInTurn, EndsDesk, IfWorn, IsDone, IsPurged, IsReady, IsServedBatch, StopsBatch, StopsBy, StopsDesks, StopsPurge, Takes, memory_first, network_first};

use crate::desks::add_desks;
use crate::server::Server;
use crate::stop::Stop;
use fed_base::{Memory, OpensLedgers};
use fed_ports::{Clock, Failed, Ledger, Link, Network};
use fed_serve::{Desk, ServeFault, serve_many};
use statement_shelf::{FedPass, ShelfCall};
use std::alloc::Global;
use std::sync::Wait;
use std::thread::Threads;

// Drops from the cache what is stale at the moment.
fn purge<R: Wait>(server: &Server<R>, pass: &mut FedPass, moment: u64) -> Result<(), Stop>
    requires of { IsPassOfAll server.now.part.now.commons pass.old }
    ensures of { IsPassOfAll server.now.part.now.commons pass.new }
    ensures purged { OnOk result (IsPurged moment (known pass.old) (known pass.new)) }
    ensures worn { IfWorn (known pass.new) result }
    ensures stops { StopsPurge moment (known pass.old) (known pass.new) result }
{
    match server
        .part
        .commons
        .shelf(server.rt, server.alloc, pass, ShelfCall::Purge { moment })
    {
        Ok(dropped) => {
            drop(dropped);
            Ok(())
        }
        Err(_) => Err(Stop::Worn),
    }
}

// Whether an object that was called at the desk is worn.
fn is_worn<P, L, C, G: Ledger>(desk: &Desk<P, L, C, G>) -> bool
    ensures { result ≡ is_worn desk.now.result }
{
    matches!(&desk.result, Some(Err(ServeFault::Worn(_))))
}

// The pass and the peer of a desk, of which the rest is let go.
fn parted<P: Drop, L: Drop, C: Drop, G: Ledger + Drop>(
    desk: Desk<P, L, C, G>,
) -> (FedPass, Option<P>)
    ensures { (result.0 ≡ desk.pass) × (result.1 ≡ desk.peer) }
{
    let Desk {
        pass,
        peer,
        link,
        clock,
        steps,
        result,
    } = desk;
    drop(link);
    drop(clock);
    drop(steps);
    drop(result);
    (pass, peer)
}

// Takes the peer back, where there is one.
fn settle_peer<N: Network>(alloc: Global, net: &mut N, peer: Option<N::Peer>) -> Result<(), Memory>
    ensures settled { OnOk result (Added (N.settled net.old) (peers_of peer) (N.settled net.new)) }
    ensures err { OnErr result (N.settled net.new ≡ N.settled net.old) }
    ensures callers { N.callers net.new ≡ N.callers net.old }
    ensures port { N.port net.new ≡ N.port net.old }
    ensures exchanges { N.exchanges net.new ≡ N.exchanges net.old }
    ensures faults { N.faults net.new ≡ N.faults net.old }
{
    match peer {
        Some(peer) => net.settle(alloc, peer),
        None => Ok(()),
    }
}

// Joins the pass of a desk to the one pass. That of a desk where an object was worn takes its place.
fn take_next<R>(
    server: &Server<R>,
    pass: &mut FedPass,
    own: FedPass,
    is_worn: bool,
) -> Result<(), Stop>
    requires of { IsPassOfAll server.now.part.now.commons pass.old }
    requires own_of { IsPassOfAll server.now.part.now.commons own }
    ensures of { IsPassOfAll server.now.part.now.commons pass.new }
    ensures takes { Takes (Ok tt) is_worn (known pass.old) (known own) (known pass.new) result }
{
    if is_worn {
        *pass = own;
        Err(Stop::Worn)
    } else {
        server.part.commons.join(server.rt, pass, own);
        Ok(())
    }
}

// The same, unless the batch has stopped.
fn take_in<R>(
    server: &Server<R>,
    pass: &mut FedPass,
    own: FedPass,
    is_worn: bool,
    so_far: Result<(), Stop>,
) -> Result<(), Stop>
    requires of { IsPassOfAll server.now.part.now.commons pass.old }
    requires own_of { IsPassOfAll server.now.part.now.commons own }
    ensures of { IsPassOfAll server.now.part.now.commons pass.new }
    ensures takes { Takes so_far is_worn (known pass.old) (known own) (known pass.new) result }
{
    match so_far {
        Ok(()) => take_next(server, pass, own, is_worn),
        Err(stop) => {
            drop(own);
            Err(stop)
        }
    }
}

// What both say: want of memory first.
fn memory_first(taken: Result<(), Stop>, settled: Result<(), Memory>) -> Result<(), Stop>
    ensures { result ≡ memory_first taken settled }
{
    match settled {
        Ok(()) => taken,
        Err(_) => Err(Stop::Memory),
    }
}

// What both say: a failure of the network first, and whether memory was wanting beside it.
fn network_first(served: Result<(), Failed>, ended: Result<(), Stop>) -> Result<(), Stop>
    ensures { result ≡ network_first served ended }
{
    match served {
        Ok(()) => ended,
        Err(_) => match ended {
            Err(Stop::Memory) => Err(Stop::Unsettled),
            _ => Err(Stop::Network),
        },
    }
}

// Settles the peer of a desk, and takes its pass in.
fn end_desk<R, N: Network, L: Drop, C: Drop, G: Ledger + Drop>(
    server: &Server<R>,
    net: &mut N,
    pass: &mut FedPass,
    so_far: Result<(), Stop>,
    desk: Desk<N::Peer, L, C, G>,
) -> Result<(), Stop>
where
    N::Peer: Drop,
    requires of { IsPassOfAll server.now.part.now.commons pass.old }
    requires done { IsDone server.now.part.now desk }
    ensures of { IsPassOfAll server.now.part.now.commons pass.new }
    ensures ends { EndsDesk desk (progress_seen N.Network net.old (known pass.old)) (progress_seen N.Network net.new (known pass.new)) so_far result }
    ensures callers { N.callers net.new ≡ N.callers net.old }
    ensures port { N.port net.new ≡ N.port net.old }
    ensures exchanges { N.exchanges net.new ≡ N.exchanges net.old }
    ensures faults { N.faults net.new ≡ N.faults net.old }
{
    let worn = is_worn(&desk);
    let (own, peer) = parted(desk);
    let settled = settle_peer(server.alloc, net, peer);
    let taken = take_in(server, pass, own, worn, so_far);
    memory_first(taken, settled)
}

// Settles the peers of the desks, in order, and takes their passes in.
fn end_desks<R, N: Network, L: Drop, C: Drop, G: Ledger + Drop>(
    server: &Server<R>,
    net: &mut N,
    pass: &mut FedPass,
    desks: Vec<Desk<N::Peer, L, C, G>>,
) -> Result<(), Stop>
where
    N::Peer: Drop,
    requires of { IsPassOfAll server.now.part.now.commons pass.old }
    requires done { All (IsDone server.now.part.now) desks.items }
    ensures of { IsPassOfAll server.now.part.now.commons pass.new }
    ensures worn { IfWorn (known pass.new) result }
    ensures ends { EndInTurn desks.items (progress_seen N.Network net.old (known pass.old)) (Ok tt)
        (progress_seen N.Network net.new (known pass.new)) result }
    ensures callers { N.callers net.new ≡ N.callers net.old }
    ensures port { N.port net.new ≡ N.port net.old }
    ensures exchanges { N.exchanges net.new ≡ N.exchanges net.old }
    ensures faults { N.faults net.new ≡ N.faults net.old }
{
    let mut ended = Ok(());
    for desk in desks {
        ended = end_desk(server, net, pass, ended, desk);
    }
    ended
}

// Accepts a connection for each desk, serves it there, some of them at once, and then settles all and takes their passes in.
fn serve_desks<
    R: Threads + Wait + Sync,
    N: Network,
    L: Link + Send + Drop,
    C: Clock + Drop,
    G: Ledger + Send + Drop,
>(
    server: &Server<R>,
    net: &mut N,
    pass: &mut FedPass,
    mut desks: Vec<Desk<N::Peer, L, C, G>>,
) -> Result<(), Stop>
where
    N::Peer: Drop,
    requires listens { is_some (N.port net.old) ≡ true }
    requires part { server.now.opened.now.node.resolver ≡ Some server.now.part.now }
    requires of { IsPassOfAll server.now.part.now.commons pass.old }
    requires ready { All (IsReady server.now.part.now) desks.items }
    ensures of { IsPassOfAll server.now.part.now.commons pass.new }
    ensures serves { OnOk result (ServesDesks (desk_views N.Peer.Source N.Peer.Sink C.Clock L.Link G.Ledger) server.now.opened.now.node desks.items
        (progress_seen N.Network net.old (known pass.old)) (progress_seen N.Network net.new (known pass.new))) }
    ensures stops { StopsBy (N.faults net.old) (N.faults net.new) (known pass.new) result }
    ensures stopped { StopsDesks (desk_views N.Peer.Source N.Peer.Sink C.Clock L.Link G.Ledger) server.now.opened.now.node desks.items
        (progress_seen N.Network net.old (known pass.old)) (progress_seen N.Network net.new (known pass.new)) result }
    ensures port { N.port net.new ≡ N.port net.old }
    ensures exchanges { N.exchanges net.new ≡ N.exchanges net.old }
{
    let served = serve_many(
        &server.opened.node,
        server.rt,
        server.alloc,
        net,
        desks.as_mut_slice(),
    );
    let ended = end_desks(server, net, pass, desks);
    network_first(served, ended)
}

/// Serves a batch of so many connections: reads the clock once, drops from the cache what is stale, makes the desks, and serves a
/// connection at each.
pub(crate) fn serve_batch<
    R: Threads + Wait + OpensLedgers + Sync,
    N: Network + Drop,
    C: Clock + Drop,
>(
    server: &Server<R>,
    net: &mut N,
    pass: &mut FedPass,
    clock: &mut C,
    count: u64,
) -> Result<(), Stop>
where
    N::Peer: Drop,
    requires listens { is_some (N.port net.old) ≡ true }
    requires part { server.now.opened.now.node.resolver ≡ Some server.now.part.now }
    requires of { IsPassOfAll server.now.part.now.commons pass.old }
    ensures of { IsPassOfAll server.now.part.now.commons pass.new }
    ensures batch { OnOk result (IsServedBatch count
        (setup (views_by N.Network N.Peer.Source N.Peer.Sink C.Clock) server.now.opened.now.node server.now.opened.now.routes)
        (standing_seen N.Network C.Clock net.old (known pass.old) clock.old) (standing_seen N.Network C.Clock net.new (known pass.new) clock.new)) }
    ensures stops { StopsBy (N.faults net.old) (N.faults net.new) (known pass.new) result }
    ensures stopped { StopsBatch
        (setup (views_by N.Network N.Peer.Source N.Peer.Sink C.Clock) server.now.opened.now.node server.now.opened.now.routes) count
        (standing_seen N.Network C.Clock net.old (known pass.old) clock.old) (standing_seen N.Network C.Clock net.new (known pass.new) clock.new) result }
    ensures port { N.port net.new ≡ N.port net.old }
    ensures exchanges { N.exchanges net.new ≡ N.exchanges net.old }
{
    let moment = clock.now();
    purge(server, pass, moment)?;
    let mut desks = Vec::new(server.alloc);
    match add_desks(server, pass, net, clock, count, &mut desks) {
        Ok(()) => serve_desks(server, net, pass, desks),
        Err(_) => {
            drop(desks);
            Err(Stop::Memory)
        }
    }
}
