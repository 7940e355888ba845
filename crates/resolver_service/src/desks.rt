// Desks for a batch of connections.

ghost use Rattle.std.specs.Prelude.{◌≡◌, [], ◌∷◌, length, map, IfOk, IfSome, OnOk};
ghost use Rattle.http_plain.specs.Links.{link_calls, link_network, link_routes};
ghost use Rattle.statement_shelf.specs.Passes.{IsPassOfAll};
ghost use Rattle.turn_log.specs.Groups.{IsSame, known};
ghost use Rattle.resolver_service.specs.Batches.{IsNewDesk, known_at};
ghost use Rattle.resolver_service.specs.Passes.{AreShared, HaveHalves};
ghost use Rattle.resolver_service.specs.Ports.{views_by};
ghost use Rattle.resolver_service.specs.Steps.{AreMade, IsReady};

use crate::server::Server;
use fed_base::{Duplicate, Memory, OpensLedgers, Plain, Seq, Steps};
use fed_ports::{Clock, Network};
use fed_serve::Desk;
use http_plain::{HttpLink, Route};
use statement_shelf::FedPass;
use std::alloc::Global;

// A link over another network, with these routes.
fn new_link<N: Network + Drop>(
    alloc: Global,
    net: &N,
    routes: &Seq<Route>,
) -> Result<HttpLink<N>, Memory>
    ensures routes { IfOk result (λ link. link_routes link ≡ routes.now) }
    ensures calls { IfOk result (λ link. link_calls link ≡ 0) }
    ensures faults { IfOk result (λ link. N.faults (link_network link) ≡ 0) }
    ensures silent { IfOk result (λ link. IfSome (N.exchanges (link_network link)) (λ told. told ≡ [])) }
{
    let routes = routes.copy(alloc)?;
    match net.another(alloc) {
        Ok(network) => Ok(HttpLink::new(network, routes)),
        Err(memory) => {
            drop(routes);
            Err(memory)
        }
    }
}

// A desk with this link, this clock, and a pass that is split off.
fn desk_with<R: OpensLedgers, N: Network + Drop, C: Clock + Drop>(
    server: &Server<R>,
    pass: &mut FedPass,
    link: HttpLink<N>,
    clock: C,
) -> Result<Desk<N::Peer, HttpLink<N>, C, Plain>, Memory>
    requires of { IsPassOfAll server.now.part.now.commons pass.old }
    requires calls { link_calls link ≡ 0 }
    requires faults { N.faults (link_network link) ≡ 0 }
    requires silent { IfSome (N.exchanges (link_network link)) (λ told. told ≡ []) }
    requires readings { C.readings clock ≡ 0 }
    ensures of { IsPassOfAll server.now.part.now.commons pass.new }
    ensures same { IsSame (known pass.old) (known pass.new) }
    ensures ready { IfOk result (IsReady server.now.part.now) }
    ensures new { IfOk result (IsNewDesk (views_by N.Network N.Peer.Source N.Peer.Sink C.Clock) (link_routes link) (known pass.old)) }
    ensures halves { IfOk result (λ desk. HaveHalves (known pass.old) (known pass.new) (known_at desk)) }
{
    match server.part.commons.split(server.rt, server.alloc, pass) {
        Ok(own) => Ok(Desk {
            pass: own,
            peer: None,
            link,
            clock,
            steps: Steps {
                ledger: Plain::new(server.rt),
            },
            result: None,
        }),
        Err(memory) => {
            drop(link);
            drop(clock);
            Err(memory)
        }
    }
}

// A desk with a link over another network and with another clock, and a pass that is split off.
fn new_desk<R: OpensLedgers, N: Network + Drop, C: Clock + Drop>(
    server: &Server<R>,
    pass: &mut FedPass,
    net: &N,
    clock: &C,
) -> Result<Desk<N::Peer, HttpLink<N>, C, Plain>, Memory>
    requires of { IsPassOfAll server.now.part.now.commons pass.old }
    ensures of { IsPassOfAll server.now.part.now.commons pass.new }
    ensures same { IsSame (known pass.old) (known pass.new) }
    ensures ready { IfOk result (IsReady server.now.part.now) }
    ensures new { IfOk result (IsNewDesk (views_by N.Network N.Peer.Source N.Peer.Sink C.Clock) server.now.opened.now.routes (known pass.old)) }
    ensures halves { IfOk result (λ desk. HaveHalves (known pass.old) (known pass.new) (known_at desk)) }
{
    let link = new_link(server.alloc, net, &server.opened.routes)?;
    match clock.another(server.alloc) {
        Ok(clock) => desk_with(server, pass, link, clock),
        Err(memory) => {
            drop(link);
            Err(memory)
        }
    }
}

/// Adds so many desks, each with a link over another network and with another clock, and with a pass that is split off.
pub(crate) fn add_desks<R: OpensLedgers, N: Network + Drop, C: Clock + Drop>(
    server: &Server<R>,
    pass: &mut FedPass,
    net: &N,
    clock: &C,
    count: u64,
    desks: &mut Vec<Desk<N::Peer, HttpLink<N>, C, Plain>>,
) -> Result<(), Memory>
where
    N::Peer: Drop,
    requires of { IsPassOfAll server.now.part.now.commons pass.old }
    requires none { desks.old.items ≡ [] }
    ensures of { IsPassOfAll server.now.part.now.commons pass.new }
    ensures same { IsSame (known pass.old) (known pass.new) }
    ensures many { OnOk result (length desks.new.items ≡ count) }
    ensures shared { OnOk result (AreShared (known pass.old) (known pass.new ∷ map known_at desks.new.items)) }
    ensures made { OnOk result (AreMade (views_by N.Network N.Peer.Source N.Peer.Sink C.Clock) server.now.part.now server.now.opened.now.routes (known pass.old) desks.new.items) }
{
    for _ in 0..count {
        let desk = new_desk(server, pass, net, clock)?;
        desks.push(desk)?;
    }
    Ok(())
}
