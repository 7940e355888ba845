// The entities that a node knows, and how it reaches hosts.

ghost use Rattle.std.specs.Prelude.{◌≡◌, ◌++◌, ◌∷◌, [], codes, decimal, flat_map, map, OnOk};
ghost use Rattle.node_config.specs.Told.{told_anchor, told_resolver, told_subordinate};
ghost use Rattle.config_summary.specs.Summaries.{address_text, anchor_line, bound_words, resolver_lines, route_line, subordinate_line};

use crate::lines::{append_line, append_number};
use fed_base::{Memory, Text};
use fed_ports::Address;
use http_plain::Route;
use node_config::{AnchorPart, ResolverConfig, SubordinateConfig};
use plain_notes::string;
use std::alloc::Global;

/// Appends a line for each subordinate.
pub(crate) fn append_subordinates(
    out: &mut Text,
    subordinates: &[SubordinateConfig],
) -> Result<(), Memory>
    ensures { OnOk result (out.new ≡ out.old ++ flat_map subordinate_line (map told_subordinate subordinates.now)) }
{
    for s in subordinates {
        append_line(out, b"subordinate ", s.id.text())?;
    }
    Ok(())
}

/// Appends a line for each trust anchor and for each route.
pub(crate) fn append_resolver(
    alloc: Global,
    out: &mut Text,
    resolver: &ResolverConfig,
) -> Result<(), Memory>
    ensures { OnOk result (out.new ≡ out.old ++ resolver_lines (told_resolver resolver.now)) }
{
    append_anchors(alloc, out, resolver.anchors.as_slice())?;
    append_routes(alloc, out, resolver.routes.as_slice())
}

fn append_anchors(alloc: Global, out: &mut Text, anchors: &[AnchorPart]) -> Result<(), Memory>
    ensures { OnOk result (out.new ≡ out.old ++ flat_map anchor_line (map told_anchor anchors.now)) }
{
    for anchor in anchors {
        append_anchor(alloc, out, anchor)?;
    }
    Ok(())
}

fn append_anchor(alloc: Global, out: &mut Text, anchor: &AnchorPart) -> Result<(), Memory>
    ensures { OnOk result (out.new ≡ out.old ++ anchor_line (told_anchor anchor.now)) }
{
    out.append(b"anchor ")?;
    out.append(anchor.anchor.text())?;
    append_bounds(alloc, out, anchor)?;
    out.push(b'\n')
}

// How far searches up to an anchor go.
fn append_bounds(alloc: Global, out: &mut Text, anchor: &AnchorPart) -> Result<(), Memory>
    ensures { OnOk result (out.new ≡ out.old ++ bound_words (told_anchor anchor.now).bounds) }
{
    out.append(b" depth ")?;
    append_number(alloc, out, anchor.depth)?;
    out.append(b" calls ")?;
    append_number(alloc, out, anchor.calls)?;
    out.append(b" paths ")?;
    append_number(alloc, out, anchor.paths)
}

fn append_routes(alloc: Global, out: &mut Text, routes: &[Route]) -> Result<(), Memory>
    ensures { OnOk result (out.new ≡ out.old ++ flat_map route_line routes.now) }
{
    for route in routes {
        append_route(alloc, out, route)?;
    }
    Ok(())
}

fn append_route(alloc: Global, out: &mut Text, route: &Route) -> Result<(), Memory>
    ensures { OnOk result (out.new ≡ out.old ++ route_line route.now) }
{
    let host = string(alloc, route.host.as_slice())?;
    out.append(b"route ")?;
    out.append(host.as_slice())?;
    append_target(alloc, out, &route.to)
}

// Where a route leads, and the end of its line.
fn append_target(alloc: Global, out: &mut Text, address: &Address) -> Result<(), Memory>
    ensures { OnOk result (out.new ≡ out.old ++ (codes " to " ++ (address_text address.now ++ 10 ∷ []))) }
{
    out.append(b" to ")?;
    append_address(alloc, out, address)?;
    out.push(b'\n')
}

fn append_address(alloc: Global, out: &mut Text, address: &Address) -> Result<(), Memory>
    ensures { OnOk result (out.new ≡ out.old ++ address_text address.now) }
{
    let [a, b, c, d] = address.ip;
    append_octet(alloc, out, a, b'.')?;
    append_octet(alloc, out, b, b'.')?;
    append_octet(alloc, out, c, b'.')?;
    append_octet(alloc, out, d, b':')?;
    append_number(alloc, out, u64::from(address.port))
}

// A number of an address, and what stands behind it.
fn append_octet(alloc: Global, out: &mut Text, octet: u8, behind: u8) -> Result<(), Memory>
    ensures { OnOk result (out.new ≡ out.old ++ (decimal octet ++ behind ∷ [])) }
{
    append_number(alloc, out, u64::from(octet))?;
    out.push(behind)
}
