// Sets without a key that verifies anything, and what is wrong with trust anchors.

ghost use Rattle.std.specs.Prelude.{◌≡◌, ◌++◌, [], codes, map, OnOk};
ghost use Rattle.std.specs.List.{list_any};
ghost use Rattle.node_config.specs.Told.{told_anchor, told_subordinate};
ghost use Rattle.config_warnings.specs.Places.{each_from, under, warn};
ghost use Rattle.config_warnings.specs.declared.warning.Kind.TheVariants.{NoKey};
ghost use Rattle.config_warnings.specs.Warnings.{anchor_at, anchor_key, is_own, no_key, subordinate_key};

use crate::places::{item_at, under};
use crate::routes::anchor_route;
use crate::warning::{Kind, Warning, warn};
use fed_base::{Memory, Seq};
use http_plain::Route;
use jwk_set::Jwk;
use node_config::{AnchorPart, SubordinateConfig};
use std::alloc::Global;

/// Warns of subordinates no key of which verifies anything.
#[tactic(auto, unfolding(crate::specs::Places::each_from))]
pub(crate) fn each_subordinate(
    alloc: Global,
    out: &mut Seq<Warning>,
    subordinates: &[SubordinateConfig],
) -> Result<(), Memory>
    ensures { OnOk result (out.new ≡ out.old ++ each_from subordinate_key 0 (map told_subordinate subordinates.now)) }
{
    let mut index = 0;
    for s in subordinates {
        subordinate_key(alloc, out, index, s)?;
        index += 1;
    }
    Ok(())
}

fn subordinate_key(
    alloc: Global,
    out: &mut Seq<Warning>,
    index: usize,
    s: &SubordinateConfig,
) -> Result<(), Memory>
    ensures { OnOk result (out.new ≡ out.old ++ subordinate_key index (told_subordinate s.now)) }
{
    let place = item_at(alloc, b"subordinates", index)?;
    no_key(alloc, out, place.as_slice(), s.jwks.keys.as_slice())
}

/// Warns of trust anchors no key of which verifies anything, and of those that no route leads to.
#[tactic(auto, unfolding(crate::specs::Places::each_from))]
pub(crate) fn each_anchor(
    alloc: Global,
    out: &mut Seq<Warning>,
    routes: &[Route],
    anchors: &[AnchorPart],
) -> Result<(), Memory>
    ensures { OnOk result (out.new ≡ out.old ++ each_from (anchor_at routes.now) 0 (map told_anchor anchors.now)) }
{
    let mut index = 0;
    for anchor in anchors {
        anchor_at(alloc, out, routes, index, anchor)?;
        index += 1;
    }
    Ok(())
}

fn anchor_at(
    alloc: Global,
    out: &mut Seq<Warning>,
    routes: &[Route],
    index: usize,
    anchor: &AnchorPart,
) -> Result<(), Memory>
    ensures { OnOk result (out.new ≡ out.old ++ anchor_at routes.now index (told_anchor anchor.now)) }
{
    anchor_key(alloc, out, index, anchor)?;
    anchor_route(alloc, out, routes, index, anchor)
}

fn anchor_key(
    alloc: Global,
    out: &mut Seq<Warning>,
    index: usize,
    anchor: &AnchorPart,
) -> Result<(), Memory>
    ensures { OnOk result (out.new ≡ out.old ++ anchor_key index (told_anchor anchor.now)) }
{
    let place = item_at(alloc, b"resolver.anchors", index)?;
    no_key(alloc, out, place.as_slice(), anchor.keys.keys.as_slice())
}

#[tactic(auto, unfolding(crate::specs::Warnings::no_key))]
fn no_key(alloc: Global, out: &mut Seq<Warning>, place: &[u8], keys: &[Jwk]) -> Result<(), Memory>
    ensures { OnOk result (out.new ≡ out.old ++ no_key place.now keys.now) }
{
    if has_own(keys) {
        Ok(())
    } else {
        warn_no_key(alloc, out, place)
    }
}

fn warn_no_key(alloc: Global, out: &mut Seq<Warning>, place: &[u8]) -> Result<(), Memory>
    ensures { OnOk result (out.new ≡ out.old ++ warn NoKey (under place.now (codes "jwks")) []) }
{
    let place = under(alloc, place, b"jwks")?;
    warn(alloc, out, Kind::NoKey, place.as_slice(), b"")
}

fn has_own(keys: &[Jwk]) -> bool
    ensures { result ≡ list_any is_own keys.now }
{
    keys.iter().any(|key| is_own(key))
}

fn is_own(key: &Jwk) -> bool
    ensures { result ≡ is_own key.now }
{
    match key {
        Jwk::Own { .. } => true,
        Jwk::Foreign(_) => false,
    }
}
