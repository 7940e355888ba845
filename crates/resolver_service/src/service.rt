// A node that resolves, and answers many connections.

ghost use Rattle.std.specs.Prelude.{◌≡◌, ◌≤◌, Some, true, is_some};
ghost use Rattle.authority_core.specs.Nodes.{Node as Authority};
ghost use Rattle.node_files.specs.Moments.{node_seen};
ghost use Rattle.node_files.specs.NodeFiles.{IsResolver};
ghost use Rattle.node_files.specs.Orders.{order_of};
ghost use Rattle.statement_shelf.specs.Passes.{IsPassOfAll};
ghost use Rattle.turn_log.specs.Groups.{IsUnused, known};
ghost use Rattle.resolver_service.specs.Ends.{Ends};
ghost use Rattle.resolver_service.specs.Ports.{around_seen, views_by};
ghost use Rattle.resolver_service.specs.Steps.{EndsOn, EndsServing, HasWorkers, IsEndOf, IsOpenedFrom};

use crate::batches::serve_batches;
use crate::ending::ResolverEnd;
use crate::node::open;
use crate::server::Server;
use crate::stop::Stop;
use authority_core::Registry;
use fed_ports::{Clock, Network, OpensLedgers, Store, Text};
use node_files::{Post, explain_accept, explain_port, open_resolver};
use plain_notes::Notes;
use statement_shelf::FedPass;
use std::alloc::Global;
use std::sync::Wait;
use std::thread::Threads;

/// Answers so many connections on a port, as the resolver of a configuration file. The node is read from that file and the ring file that
/// it names, once, before the port is taken. Connections are served in batches, those of a batch at once, over one cache and one book of
/// trust anchors' keys. What becomes of one connection ends nothing, unless a shared object is worn.
pub fn serve_resolver<
    R: Threads + Wait + OpensLedgers + Sync,
    D: Store,
    N: Network + Drop,
    C: Clock + Drop,
>(
    rt: &R,
    alloc: Global,
    config: &Text,
    port: u16,
    connections: u64,
    store: &mut D,
    net: &mut N,
    clock: &mut C,
    notes: &mut Notes,
) -> ResolverEnd
where
    N::Peer: Drop,
    ensures ends { Ends (views_by N.Network N.Peer.Source N.Peer.Sink C.Clock) (order_of config.now port connections)
        (node_seen D.Store store.old (around_seen N.Network C.Clock net.old clock.old))
        (node_seen D.Store store.new (around_seen N.Network C.Clock net.new clock.new)) result }
{
    match open_resolver(alloc, config, store, notes) {
        Ok(registry) => {
            let post = Post { port, connections };
            serve_registry(registry, rt, alloc, post, net, clock, notes)
        }
        Err(fault) => ResolverEnd::from(fault),
    }
}

// Makes what is served with, takes the port and answers the connections.
fn serve_registry<R: Threads + Wait + OpensLedgers + Sync, N: Network + Drop, C: Clock + Drop>(
    registry: Registry,
    rt: &R,
    alloc: Global,
    post: Post,
    net: &mut N,
    clock: &mut C,
    notes: &mut Notes,
) -> ResolverEnd
where
    N::Peer: Drop,
    requires resolves { IsResolver registry }
    requires workers { HasWorkers registry }
    ensures ends { EndsOn (views_by N.Network N.Peer.Source N.Peer.Sink C.Clock) registry post
        (around_seen N.Network C.Clock net.old clock.old) (around_seen N.Network C.Clock net.new clock.new) result }
    ensures exchanges { N.exchanges net.new ≡ N.exchanges net.old }
{
    match open(alloc, registry) {
        Ok((opened, pass)) => {
            let Some(part) = &opened.node.resolver else {
                unreachable!()
            };
            let server = Server {
                rt,
                alloc,
                opened: &opened,
                part,
            };
            let end = serve_post(&server, pass, post, net, clock, notes);
            drop(opened);
            end
        }
        Err(_) => ResolverEnd::Memory,
    }
}

// Takes the port and answers the connections.
fn serve_post<R: Threads + Wait + OpensLedgers + Sync, N: Network + Drop, C: Clock + Drop>(
    server: &Server<R>,
    pass: FedPass,
    post: Post,
    net: &mut N,
    clock: &mut C,
    notes: &mut Notes,
) -> ResolverEnd
where
    N::Peer: Drop,
    requires part { server.now.opened.now.node.resolver ≡ Some server.now.part.now }
    requires workers { 1 ≤ server.now.opened.now.workers }
    requires of { IsPassOfAll server.now.part.now.commons pass }
    requires unused { IsUnused pass }
    ensures ends { (node : Authority) → IsOpenedFrom node server.now.opened.now → EndsOn (views_by N.Network N.Peer.Source N.Peer.Sink C.Clock) node post
        (around_seen N.Network C.Clock net.old clock.old) (around_seen N.Network C.Clock net.new clock.new) result }
    ensures exchanges { N.exchanges net.new ≡ N.exchanges net.old }
{
    match net.listen(post.port) {
        Ok(()) => serve_listening(server, pass, post.connections, net, clock, notes),
        Err(_) => {
            drop(pass);
            explain_port(server.alloc, post.port, notes);
            ResolverEnd::NetworkFailed
        }
    }
}

// Answers the connections on the port that is taken.
fn serve_listening<R: Threads + Wait + OpensLedgers + Sync, N: Network + Drop, C: Clock + Drop>(
    server: &Server<R>,
    mut pass: FedPass,
    connections: u64,
    net: &mut N,
    clock: &mut C,
    notes: &mut Notes,
) -> ResolverEnd
where
    N::Peer: Drop,
    requires listens { is_some (N.port net.old) ≡ true }
    requires part { server.now.opened.now.node.resolver ≡ Some server.now.part.now }
    requires workers { 1 ≤ server.now.opened.now.workers }
    requires of { IsPassOfAll server.now.part.now.commons pass }
    requires unused { IsUnused pass }
    ensures ends { (node : Authority) → IsOpenedFrom node server.now.opened.now → EndsServing (views_by N.Network N.Peer.Source N.Peer.Sink C.Clock) node connections
        (around_seen N.Network C.Clock net.old clock.old) (around_seen N.Network C.Clock net.new clock.new) result }
    ensures exchanges { N.exchanges net.new ≡ N.exchanges net.old }
{
    let served = serve_batches(server, net, &mut pass, clock, connections);
    server.part.commons.is_history(&pass);
    match served {
        Ok(()) => ResolverEnd::Served(pass),
        Err(stop) => stopped(stop, pass, server.alloc, notes),
    }
}

// How it ended, where not all were served.
fn stopped(stop: Stop, pass: FedPass, alloc: Global, notes: &mut Notes) -> ResolverEnd
    ensures { IsEndOf stop (known pass) result }
{
    match stop {
        Stop::Worn => ResolverEnd::Worn(pass),
        Stop::Memory => {
            drop(pass);
            ResolverEnd::Memory
        }
        Stop::Network => {
            drop(pass);
            explain_accept(alloc, notes);
            ResolverEnd::NetworkFailed
        }
        Stop::Unsettled => {
            drop(pass);
            explain_accept(alloc, notes);
            ResolverEnd::Unsettled
        }
    }
}
