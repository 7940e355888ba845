// A node that answers connection after connection.

ghost use Rattle.std.specs.Prelude.{◌≡◌, None};
ghost use Rattle.node_files.specs.Moments.{node_seen};
ghost use Rattle.node_files.specs.Orders.{order_of};
ghost use Rattle.node_service.specs.Connections.{peer_seen};
ghost use Rattle.node_service.specs.Ends.{Ends, EndsOf, network_seen};
ghost use Rattle.node_service.specs.Streams.{IsAnsweredBy};

use crate::connections::{Server, serve_connections};
use crate::stop::Stop;
use crate::tools::Tools;
use fed_ports::{Clock, Network, OpensLedgers, Store, Text};
use fed_serve::Node;
use node_files::{NodeFault, Post, explain_accept, explain_port, open_authority};
use plain_notes::Notes;
use std::alloc::Global;
use std::sync::Wait;
use std::thread::Threads;

/// How serving ended.
#[derive(Clone, Copy, Debug, PartialEq, Eq)]
pub enum ServiceEnd {
    /// All connections were served.
    Served,
    /// The configuration file or the ring file that it names isn't there, is too long, or isn't of its form; or the node isn't of the kind
    /// that was asked for.
    Input,
    /// The store failed.
    StoreFailed,
    /// The network failed to listen, or to accept a connection.
    NetworkFailed,
    /// Memory was wanting.
    Memory,
}

impl From<NodeFault> for ServiceEnd {
    ghost use Rattle.node_service.specs.Ends.{end_without_node};

    ghost from_gives = { λ fault end. end ≡ end_without_node fault };

    fn from(fault: NodeFault) -> ServiceEnd {
        match fault {
            NodeFault::Input => ServiceEnd::Input,
            NodeFault::Store => ServiceEnd::StoreFailed,
            NodeFault::Memory => ServiceEnd::Memory,
        }
    }
}

/// Answers so many connections on a port, one after the other, as the authority of a configuration file. The node is read from that file
/// and the ring file that it names, once, before the port is taken. With `stream` a connection may have up to a hundred requests, and else
/// one. What becomes of one connection ends nothing.
pub fn serve_authority<
    R: Wait + Threads + OpensLedgers + Sync,
    D: Store,
    N: Network + Drop,
    C: Clock,
>(
    rt: &R,
    alloc: Global,
    config: &Text,
    port: u16,
    connections: u64,
    stream: bool,
    store: &mut D,
    net: &mut N,
    clock: &mut C,
    notes: &mut Notes,
) -> ServiceEnd
    ensures ends { Ends (IsAnsweredBy stream (peer_seen N.Peer.Source N.Peer.Sink)) (order_of config.now port connections)
        (node_seen D.Store store.old (network_seen N.Network C.Clock net.old clock.old))
        (node_seen D.Store store.new (network_seen N.Network C.Clock net.new clock.new)) result }
    ensures exchanges { N.exchanges net.new ≡ N.exchanges net.old }
{
    match open_authority(alloc, config, store, notes) {
        Ok(registry) => {
            let node = Node {
                registry,
                resolver: None,
            };
            let server = Server {
                rt,
                alloc,
                node: &node,
                stream,
            };
            let post = Post { port, connections };
            let end = serve_alone(&server, post, net, clock, notes);
            drop(node);
            end
        }
        Err(fault) => ServiceEnd::from(fault),
    }
}

// Takes the port and answers the connections.
fn serve_alone<R: Wait + Threads + OpensLedgers + Sync, N: Network, C: Clock>(
    server: &Server<R>,
    post: Post,
    net: &mut N,
    clock: &mut C,
    notes: &mut Notes,
) -> ServiceEnd
    requires alone { server.now.node.now.resolver ≡ None }
    ensures ends { EndsOf (IsAnsweredBy server.now.stream (peer_seen N.Peer.Source N.Peer.Sink)) server.now.node.now.registry post
        (network_seen N.Network C.Clock net.old clock.old) (network_seen N.Network C.Clock net.new clock.new) result }
    ensures exchanges { N.exchanges net.new ≡ N.exchanges net.old }
{
    let Ok(mut tools) = Tools::new(server.rt, server.alloc) else {
        return ServiceEnd::Memory;
    };
    if net.listen(post.port).is_err() {
        explain_port(server.alloc, post.port, notes);
        return ServiceEnd::NetworkFailed;
    }
    match serve_connections(server, &mut tools, net, clock, post.connections) {
        Ok(()) => ServiceEnd::Served,
        Err(Stop::Network) => {
            explain_accept(server.alloc, notes);
            ServiceEnd::NetworkFailed
        }
        Err(Stop::Memory) => ServiceEnd::Memory,
    }
}
