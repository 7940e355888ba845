// Routes that are never taken, and trust anchors that none leads to.

ghost use Rattle.std.specs.Prelude.{◌≡◌, ◌≤◌, ◌++◌, codes, length, IfOk, OnOk};
ghost use Rattle.node_config.specs.Told.{told_anchor};
ghost use Rattle.config_warnings.specs.Places.{item_at as place_of, warn};
ghost use Rattle.config_warnings.specs.Warnings.{anchor_route, is_host, leads, of_routes, route_at, route_for};
ghost use Rattle.config_warnings.specs.declared.warning.Kind.TheVariants.{NoRoute};

use crate::places::item_at;
use crate::warning::{Kind, Warning, warn};
use entity_id::EntityId;
use fed_base::{Memory, Seq, Text};
use http_plain::Route;
use node_config::AnchorPart;
use std::alloc::Global;

/// Warns of routes that are never taken.
#[tactic(auto, unfolding(crate::specs::Places::each_from))]
pub(crate) fn of_routes(
    alloc: Global,
    out: &mut Seq<Warning>,
    routes: &[Route],
) -> Result<(), Memory>
    ensures { OnOk result (out.new ≡ out.old ++ of_routes routes.now) }
{
    let mut index = 0;
    for route in routes {
        route_at(alloc, out, routes, index, route)?;
        index += 1;
    }
    Ok(())
}

fn route_at(
    alloc: Global,
    out: &mut Seq<Warning>,
    routes: &[Route],
    index: usize,
    route: &Route,
) -> Result<(), Memory>
    requires { index ≤ length routes.now }
    ensures { OnOk result (out.new ≡ out.old ++ route_at routes.now index route.now) }
{
    let host = route.host.as_slice();
    let (earlier, _) = routes.split_at(index);
    if !is_host(alloc, host)? {
        warn_at(alloc, out, Kind::NoHost, index, host)
    } else if leads(earlier, host) {
        warn_at(alloc, out, Kind::Second, index, host)
    } else {
        Ok(())
    }
}

fn warn_at(
    alloc: Global,
    out: &mut Seq<Warning>,
    kind: Kind,
    index: usize,
    host: &[u8],
) -> Result<(), Memory>
    ensures { OnOk result (out.new ≡ out.old ++ warn kind (place_of (codes "resolver.routes") index) host.now) }
{
    let place = item_at(alloc, b"resolver.routes", index)?;
    warn(alloc, out, kind, place.as_slice(), host)
}

// Whether a URL has it as its host.
fn is_host(alloc: Global, host: &[u8]) -> Result<bool, Memory>
    ensures { IfOk result (λ is. is ≡ is_host host.now) }
{
    let mut url = Text::of(alloc, b"https://")?;
    url.append(host)?;
    match EntityId::of(alloc, url.as_slice())? {
        Some(id) => {
            let is = id.host() == host;
            drop(id);
            Ok(is)
        }
        None => Ok(false),
    }
}

// Whether one of the routes leads there.
fn leads(routes: &[Route], host: &[u8]) -> bool
    ensures { result ≡ leads routes.now host.now }
{
    routes.iter().any(|route| route.host.as_slice() == host)
}

/// Warns of a trust anchor whose host no route leads to.
pub(crate) fn anchor_route(
    alloc: Global,
    out: &mut Seq<Warning>,
    routes: &[Route],
    index: usize,
    anchor: &AnchorPart,
) -> Result<(), Memory>
    ensures { OnOk result (out.new ≡ out.old ++ anchor_route routes.now index (told_anchor anchor.now)) }
{
    route_for(alloc, out, routes, index, anchor.anchor.host())
}

#[tactic(auto, unfolding(crate::specs::Warnings::route_for))]
fn route_for(
    alloc: Global,
    out: &mut Seq<Warning>,
    routes: &[Route],
    index: usize,
    host: &[u8],
) -> Result<(), Memory>
    ensures { OnOk result (out.new ≡ out.old ++ route_for routes.now index host.now) }
{
    if leads(routes, host) {
        Ok(())
    } else {
        warn_no_route(alloc, out, index, host)
    }
}

fn warn_no_route(
    alloc: Global,
    out: &mut Seq<Warning>,
    index: usize,
    host: &[u8],
) -> Result<(), Memory>
    ensures { OnOk result (out.new ≡ out.old ++ warn NoRoute (place_of (codes "resolver.anchors") index) host.now) }
{
    let place = item_at(alloc, b"resolver.anchors", index)?;
    warn(alloc, out, Kind::NoRoute, place.as_slice(), host)
}
