// How far the searches of a resolver go.

ghost use Rattle.std.specs.Prelude.{◌≡◌};
ghost use Rattle.resolve_reply.specs.Bounds.{bounds_for, usual};

use chain_climb::Bounds;
use entity_id::EntityId;
use fed_base::{Duplicate, Memory};
use std::alloc::Global;

/// How far each search up to a trust anchor goes.
#[derive(Drop)]
pub struct AnchorBounds {
    /// The trust anchor.
    pub anchor: EntityId,
    /// How far a search goes.
    pub bounds: Bounds,
}

impl Duplicate for AnchorBounds {
    fn copy(&self, alloc: Global) -> Result<Self, Memory> {
        let anchor = self.anchor.copy(alloc)?;
        Ok(AnchorBounds {
            anchor,
            bounds: self.bounds,
        })
    }
}

/// The bounds of the first entry of the trust anchor, and the usual ones where there is none: chains of at most 12 statements of
/// superiors, 160 calls of the link and 4,096 paths in a search.
#[tactic(auto, unfolding(crate::specs::Bounds::bounds_for))]
pub fn bounds_for(entries: &[AnchorBounds], anchor: &EntityId) -> Bounds
    ensures { result ≡ bounds_for entries.now anchor.now }
{
    for entry in entries {
        if entry.anchor == *anchor {
            return entry.bounds;
        }
    }
    usual()
}

// The bounds where nothing else is set.
fn usual() -> Bounds
    ensures { result ≡ usual }
{
    Bounds {
        depth: 12,
        calls: 160,
        paths: 4096,
    }
}
