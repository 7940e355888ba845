// Batch after batch.

ghost use Rattle.std.specs.Prelude.{◌≡◌, ◌≤◌, OnOk, Some, true, is_some};
ghost use Rattle.statement_shelf.specs.Passes.{IsPassOfAll};
ghost use Rattle.turn_log.specs.Groups.{known};
ghost use Rattle.resolver_service.specs.Batches.{ServesAll, setup};
ghost use Rattle.resolver_service.specs.Ports.{standing_seen, views_by};
ghost use Rattle.resolver_service.specs.Steps.{StopsAfter, StopsBy};

use crate::batch::serve_batch;
use crate::server::Server;
use crate::stop::Stop;
use fed_ports::{Clock, Network, OpensLedgers};
use statement_shelf::FedPass;
use std::sync::Wait;
use std::thread::Threads;

/// Serves so many connections, in batches of as many as there are workers, the last one of as many as are left.
pub(crate) fn serve_batches<
    R: Threads + Wait + OpensLedgers + Sync,
    N: Network + Drop,
    C: Clock + Drop,
>(
    server: &Server<R>,
    net: &mut N,
    pass: &mut FedPass,
    clock: &mut C,
    connections: u64,
) -> Result<(), Stop>
where
    N::Peer: Drop,
    requires listens { is_some (N.port net.old) ≡ true }
    requires part { server.now.opened.now.node.resolver ≡ Some server.now.part.now }
    requires of { IsPassOfAll server.now.part.now.commons pass.old }
    requires workers { 1 ≤ server.now.opened.now.workers }
    ensures of { IsPassOfAll server.now.part.now.commons pass.new }
    ensures serves { OnOk result (ServesAll
        (setup (views_by N.Network N.Peer.Source N.Peer.Sink C.Clock) server.now.opened.now.node server.now.opened.now.routes) server.now.opened.now.workers connections
        (standing_seen N.Network C.Clock net.old (known pass.old) clock.old) (standing_seen N.Network C.Clock net.new (known pass.new) clock.new)) }
    ensures stops { StopsBy (N.faults net.old) (N.faults net.new) (known pass.new) result }
    ensures stopped { StopsAfter
        (setup (views_by N.Network N.Peer.Source N.Peer.Sink C.Clock) server.now.opened.now.node server.now.opened.now.routes) server.now.opened.now.workers connections
        (standing_seen N.Network C.Clock net.old (known pass.old) clock.old) (standing_seen N.Network C.Clock net.new (known pass.new) clock.new) result }
    ensures exchanges { N.exchanges net.new ≡ N.exchanges net.old }
{
    let mut left = connections;
    'batches: while 0 < left {
        let count = server.opened.workers.min(left);
        serve_batch(server, net, pass, clock, count)?;
        left -= count;
    }
    Ok(())
}
