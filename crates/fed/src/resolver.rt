// Serving as a resolver: its line, its status, and the pass that is handed out.

ghost use Rattle.std.specs.Prelude.{◌≡◌, ℕ, None};
ghost use Rattle.fed.specs.Authorities.{served_line};
ghost use Rattle.fed.specs.Orders.{order_of};
ghost use Rattle.fed.specs.Ports.{all_views, node_views, ports_found, ports_left, written_to};
ghost use Rattle.fed.specs.Resolvers.{HasCountedAt, IsEndTold, JoinsBy, RunsResolver};
ghost use Rattle.fed.specs.Resolving.{HoldsBy, Writes};
ghost use Rattle.resolver_service.specs.declared.ending.ResolverEnd.TheVariants as ends;

use crate::authority::served_line;
use crate::ports::{Order, Passes, Ports};
use cli_inspect::write_line;
use fed_ports::{Clock, Network, OpensLedgers, Sink, Store};
use plain_notes::{Notes, explain_memory, explain_worn};
use resolver_service::{ResolverEnd, serve_resolver};
use statement_shelf::FedPass;
use std::alloc::Global;
use std::sync::Wait;
use std::thread::Threads;

/// Serves as the resolver of the configuration file, and gives the exit status.
pub(crate) fn serve_as_resolver<
    R: Threads + Wait + OpensLedgers + Sync,
    S,
    K: Sink,
    D: Store,
    N: Network + Drop,
    C: Clock + Drop,
>(
    rt: &R,
    alloc: Global,
    order: Order<'_>,
    ports: Ports<'_, S, K, D, N, C>,
    passes: Passes<'_>,
    notes: &mut Notes,
) -> u8
where
    N::Peer: Drop,
    requires worn { passes.worn.now ≡ None }
    requires joined { passes.joined.now ≡ None }
    ensures input { ports.exit.0.now ≡ ports.entry.input.now }
    ensures runs { RunsResolver (all_views N.Peer.Source N.Peer.Sink N.Network C.Clock) (order_of order.entry)
        (ports_found (node_views K.Sink D.Store N.Network C.Clock) ports.entry) (ports_left (node_views K.Sink D.Store N.Network C.Clock) ports.exit)
        passes.exit.1.0.now result }
    ensures worn { HoldsBy passes.exit.0.now result }
{
    let Ports {
        input: _,
        out,
        store,
        net,
        clock,
    } = ports;
    let Ok(line) = served_line(alloc, order.connections) else {
        explain_memory(alloc, notes);
        return 5;
    };
    let end = serve_resolver(
        rt,
        alloc,
        order.config,
        order.port,
        order.connections,
        store,
        net,
        clock,
        notes,
    );
    let Passes { worn, joined } = passes;
    let status = tell_end(alloc, end, line.as_slice(), out, worn, joined, notes);
    drop(line);
    status
}

// Writes how it ended, hands a pass out, and gives the status.
fn tell_end<K: Sink>(
    alloc: Global,
    end: ResolverEnd,
    line: &[u8],
    out: &mut K,
    worn: &mut Option<FedPass>,
    joined: &mut Option<FedPass>,
    notes: &mut Notes,
) -> u8
    requires worn { worn.old ≡ None }
    requires joined { joined.old ≡ None }
    requires counted { HasCountedAt end }
    ensures told { (connections : ℕ) → line.now ≡ served_line connections
        → IsEndTold connections end (written_to K.Sink out.old) (written_to K.Sink out.new) result }
    ensures joins { JoinsBy end joined.new result }
    ensures worn { HoldsBy worn.new result }
{
    match end {
        ResolverEnd::Served(pass) => tell_served(alloc, pass, line, out, joined, notes),
        ResolverEnd::Input => write_line(alloc, 2, b"input\n", out, notes),
        ResolverEnd::StoreFailed => 6,
        ResolverEnd::NetworkFailed => 7,
        ResolverEnd::Unsettled => 7,
        ResolverEnd::Memory => {
            explain_memory(alloc, notes);
            5
        }
        ResolverEnd::Worn(pass) => {
            explain_worn(alloc, notes);
            *worn = Some(pass);
            8
        }
    }
}

// Writes the line, and hands the pass out where it is written whole.
fn tell_served<K: Sink>(
    alloc: Global,
    pass: FedPass,
    line: &[u8],
    out: &mut K,
    joined: &mut Option<FedPass>,
    notes: &mut Notes,
) -> u8
    requires { joined.old ≡ None }
    ensures told { Writes 0 line.now (written_to K.Sink out.old) (written_to K.Sink out.new) result }
    ensures joins { JoinsBy (ends.Served pass) joined.new result }
{
    let status = write_line(alloc, 0, line, out, notes);
    if status == 0 {
        *joined = Some(pass);
        status
    } else {
        drop(pass);
        status
    }
}
