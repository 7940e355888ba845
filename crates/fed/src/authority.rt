// Serving as an authority: its line, and its status.

ghost use Rattle.std.specs.Prelude.{◌≡◌, IfOk};
ghost use Rattle.fed.specs.Authorities.{RunsAuthority, served_line};
ghost use Rattle.fed.specs.Orders.{order_of};
ghost use Rattle.fed.specs.Ports.{node_views, peer_seen, ports_found, ports_left};
ghost use Rattle.node_service.specs.Streams.{IsAnsweredBy};

use crate::ports::{Order, Ports};
use cli_inspect::write_line;
use fed_ports::{Clock, Memory, Network, OpensLedgers, Sink, Store, Text};
use node_service::{ServiceEnd, serve_authority};
use plain_notes::{Notes, explain_memory};
use std::alloc::Global;
use std::sync::Wait;
use std::thread::Threads;

/// The line that is written once all connections are served.
pub(crate) fn served_line(alloc: Global, connections: u64) -> Result<Text, Memory>
    ensures { IfOk result (λ line. line ≡ served_line connections) }
{
    let number = format!(in alloc; "{connections}")?;
    let mut line = Text::of(alloc, b"served ")?;
    line.append(number.as_bytes())?;
    line.push(b'\n')?;
    Ok(line)
}

/// Serves as the authority of the configuration file, a stream of requests a connection or one, and gives the exit status.
pub(crate) fn serve<
    R: Wait + Threads + OpensLedgers + Sync,
    S,
    K: Sink,
    D: Store,
    N: Network + Drop,
    C: Clock,
>(
    rt: &R,
    alloc: Global,
    order: Order<'_>,
    stream: bool,
    ports: Ports<'_, S, K, D, N, C>,
    notes: &mut Notes,
) -> u8
    ensures input { ports.exit.0.now ≡ ports.entry.input.now }
    ensures runs { RunsAuthority (IsAnsweredBy stream (peer_seen N.Peer.Source N.Peer.Sink)) (order_of order.entry)
        (ports_found (node_views K.Sink D.Store N.Network C.Clock) ports.entry) (ports_left (node_views K.Sink D.Store N.Network C.Clock) ports.exit) result }
{
    let Ports {
        input: _,
        out,
        store,
        net,
        clock,
    } = ports;
    let Ok(line) = served_line(alloc, order.connections) else {
        explain_memory(alloc, notes);
        return 5;
    };
    let end = serve_authority(
        rt,
        alloc,
        order.config,
        order.port,
        order.connections,
        stream,
        store,
        net,
        clock,
        notes,
    );
    match end {
        ServiceEnd::Served => write_line(alloc, 0, line.as_slice(), out, notes),
        ServiceEnd::Input => write_line(alloc, 2, b"input\n", out, notes),
        ServiceEnd::StoreFailed => 6,
        ServiceEnd::NetworkFailed => 7,
        ServiceEnd::Memory => {
            explain_memory(alloc, notes);
            5
        }
    }
}
