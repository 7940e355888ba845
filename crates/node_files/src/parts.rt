// What a node resolves with.

ghost use Rattle.std.specs.Prelude.{◌≡◌, IfOk, map};
ghost use Rattle.node_files.specs.NodeFiles.{IsResolver};
ghost use Rattle.node_files.specs.ResolvingParts.{ArePartsOf, anchor_keys, part_bounds};

use authority_core::{AnchorPart, Registry};
use chain_climb::Bounds;
use fed_base::{Duplicate, Memory, Seq};
use http_plain::Route;
use jwk_set::JwkSet;
use resolve_reply::{AnchorBounds, Signer};
use statement_shelf::AnchorKeys;
use std::alloc::Global;

/// What a node resolves with, as its configuration gives it.
#[derive(Drop)]
pub struct Parts {
    /// Who signs the reply.
    pub signer: Signer,
    /// The trust anchors with their keys.
    pub anchors: Seq<AnchorKeys>,
    /// Where hosts are reached.
    pub routes: Seq<Route>,
    /// The keys at whose word those of a trust anchor are changed.
    pub control: JwkSet,
    /// How many connections are served at once.
    pub workers: u64,
}

/// What the node of a configuration that has the member `resolver` resolves with.
pub fn parts_of(alloc: Global, registry: &Registry) -> Result<Parts, Memory>
    requires { IsResolver registry.now }
    ensures { IfOk result (ArePartsOf registry.now) }
{
    let Some(part) = registry.resolver_config() else {
        unreachable!()
    };
    let iss = registry.id().copy(alloc)?;
    let bounds = all_bounds(alloc, part.anchors.as_slice())?;
    let anchors = book_of(alloc, part.anchors.as_slice())?;
    let routes = part.routes.copy(alloc)?;
    let control = part.control.copy(alloc)?;
    let signer = Signer {
        iss,
        keys: registry.signer().twin(),
        age: part.age,
        bounds,
        workers: part.workers,
    };
    Ok(Parts {
        signer,
        anchors,
        routes,
        control,
        workers: part.workers,
    })
}

// The anchors as the book has them.
fn book_of(alloc: Global, parts: &[AnchorPart]) -> Result<Seq<AnchorKeys>, Memory>
    ensures { IfOk result (λ anchors. anchors ≡ map anchor_keys parts.now) }
{
    let mut anchors = Seq::new(alloc);
    for part in parts {
        anchors.push(anchor_keys(alloc, part)?)?;
    }
    Ok(anchors)
}

// How far searches up to each anchor go, as the signer has it.
fn all_bounds(alloc: Global, parts: &[AnchorPart]) -> Result<Seq<AnchorBounds>, Memory>
    ensures { IfOk result (λ bounds. bounds ≡ map part_bounds parts.now) }
{
    let mut bounds = Seq::new(alloc);
    for part in parts {
        bounds.push(part_bounds(alloc, part)?)?;
    }
    Ok(bounds)
}

fn part_bounds(alloc: Global, part: &AnchorPart) -> Result<AnchorBounds, Memory>
    ensures { IfOk result (λ bounds. bounds ≡ part_bounds part.now) }
{
    let anchor = part.anchor.copy(alloc)?;
    Ok(AnchorBounds {
        anchor,
        bounds: Bounds {
            depth: part.depth,
            calls: part.calls,
            paths: part.paths,
        },
    })
}

fn anchor_keys(alloc: Global, part: &AnchorPart) -> Result<AnchorKeys, Memory>
    ensures { IfOk result (λ keys. keys ≡ anchor_keys part.now) }
{
    let anchor = part.anchor.copy(alloc)?;
    let keys = part.keys.copy(alloc)?;
    Ok(AnchorKeys { anchor, keys })
}
