// Connections, one after the other.

ghost use Rattle.std.specs.Prelude.{◌≡◌, None, true, is_some};
ghost use Rattle.fed_ports.specs.Times.{clock_at};
ghost use Rattle.node_service.specs.Connections.{Attends, IsAnswered, peer_seen, service_seen};
ghost use Rattle.node_service.specs.Ends.{NetworkCause, NextOf, StopsAfter};
ghost use Rattle.node_service.specs.Streams.{IsAnsweredBy, IsStreamed};

use crate::authority::Authority;
use crate::stop::Stop;
use crate::tools::Tools;
use fed_ports::{Clock, Network, Peer};
use fed_serve::{Node, serve_one};
use http_stream::serve_stream;
use std::alloc::Global;
use std::sync::Wait;
use std::thread::Threads;

// How many requests a connection may have that is kept.
const REQUEST_LIMIT: u64 = 100;

/// What each connection is served with. `stream` says whether it is kept behind a response.
#[derive(Drop)]
pub(crate) struct Server<'a, R> {
    pub(crate) rt: &'a R,
    pub(crate) alloc: Global,
    pub(crate) node: &'a Node,
    pub(crate) stream: bool,
}

// Answers the one request of a peer.
fn serve_request<R: Wait + Threads + Sync, P: Peer, C: Clock>(
    server: &Server<R>,
    tools: &mut Tools,
    peer: &mut P,
    clock: &mut C,
)
    requires alone { server.now.node.now.resolver ≡ None }
    ensures attends { Attends (IsAnswered (peer_seen P.Source P.Sink) server.now.node.now.registry) peer.old peer.new
        (clock_at (C.readings clock.old) (C.last clock.old) (C.told clock.old)) (clock_at (C.readings clock.new) (C.last clock.new) (C.told clock.new)) }
{
    let Tools { pass, link, steps } = tools;
    let _ = serve_one(
        server.node,
        server.rt,
        server.alloc,
        pass,
        peer,
        link,
        clock,
        steps,
    );
}

// Answers the requests of a peer, one after the other.
fn serve_requests<R: Wait + Threads + Sync, P: Peer, C: Clock>(
    server: &Server<R>,
    tools: &mut Tools,
    peer: &mut P,
    clock: &mut C,
)
    requires alone { server.now.node.now.resolver ≡ None }
    ensures attends { Attends (IsStreamed (peer_seen P.Source P.Sink) server.now.node.now.registry) peer.old peer.new
        (clock_at (C.readings clock.old) (C.last clock.old) (C.told clock.old)) (clock_at (C.readings clock.new) (C.last clock.new) (C.told clock.new)) }
{
    let mut authority = Authority {
        node: server.node,
        rt: server.rt,
        tools,
        clock,
    };
    let _ = serve_stream(server.alloc, peer, &mut authority, REQUEST_LIMIT);
}

// Answers a peer, whose connection is kept or not. What becomes of one connection is its own matter.
fn serve_peer<R: Wait + Threads + Sync, P: Peer, C: Clock>(
    server: &Server<R>,
    tools: &mut Tools,
    peer: &mut P,
    clock: &mut C,
)
    requires alone { server.now.node.now.resolver ≡ None }
    ensures attends { Attends (IsAnsweredBy server.now.stream (peer_seen P.Source P.Sink) server.now.node.now.registry) peer.old peer.new
        (clock_at (C.readings clock.old) (C.last clock.old) (C.told clock.old)) (clock_at (C.readings clock.new) (C.last clock.new) (C.told clock.new)) }
{
    if server.stream {
        serve_requests(server, tools, peer, clock);
    } else {
        serve_request(server, tools, peer, clock);
    }
}

// Accepts the next connection, answers it, and settles it.
fn serve_next<R: Wait + Threads + Sync, N: Network, C: Clock>(
    server: &Server<R>,
    tools: &mut Tools,
    net: &mut N,
    clock: &mut C,
) -> Result<(), Stop>
    requires listens { is_some (N.port net.old) ≡ true }
    requires alone { server.now.node.now.resolver ≡ None }
    ensures next { NextOf (IsAnsweredBy server.now.stream (peer_seen N.Peer.Source N.Peer.Sink)) server.now.node.now.registry
        (service_seen N.Network C.Clock net.old clock.old) (service_seen N.Network C.Clock net.new clock.new) result }
    ensures port { N.port net.new ≡ N.port net.old }
    ensures exchanges { N.exchanges net.new ≡ N.exchanges net.old }
    ensures cause { NetworkCause (N.faults net.old) (N.faults net.new) result }
{
    let mut peer = net.accept()?;
    serve_peer(server, tools, &mut peer, clock);
    net.settle(server.alloc, peer)?;
    Ok(())
}

/// Serves so many connections, one after the other, as an authority.
pub(crate) fn serve_connections<R: Wait + Threads + Sync, N: Network, C: Clock>(
    server: &Server<R>,
    tools: &mut Tools,
    net: &mut N,
    clock: &mut C,
    connections: u64,
) -> Result<(), Stop>
    requires listens { is_some (N.port net.old) ≡ true }
    requires alone { server.now.node.now.resolver ≡ None }
    ensures served { StopsAfter (IsAnsweredBy server.now.stream (peer_seen N.Peer.Source N.Peer.Sink)) server.now.node.now.registry connections
        (service_seen N.Network C.Clock net.old clock.old) (service_seen N.Network C.Clock net.new clock.new) result }
    ensures exchanges { N.exchanges net.new ≡ N.exchanges net.old }
    ensures cause { NetworkCause (N.faults net.old) (N.faults net.new) result }
{
    let mut served = 0;
    'connections: while served < connections {
        serve_next(server, tools, net, clock)?;
        served += 1;
    }
    Ok(())
}
