// What is asked of a resolver.

use entity_id::EntityId;
use fed_base::{Duplicate, Memory, Seq, Text};
use std::alloc::Global;

/// What is asked of a resolver (OpenID Federation 1.0 section 8.3.1).
#[derive(Drop)]
pub struct ResolveRequest {
    /// The entity whose metadata is to be resolved.
    pub sub: EntityId,
    /// The trust anchor.
    pub anchor: EntityId,
    /// The entity types that are wanted; all where there is none.
    pub types: Seq<Text>,
}

impl Duplicate for ResolveRequest {
    fn copy(&self, alloc: Global) -> Result<Self, Memory> {
        let sub = self.sub.copy(alloc)?;
        let anchor = self.anchor.copy(alloc)?;
        let types = self.types.copy(alloc)?;
        Ok(ResolveRequest { sub, anchor, types })
    }
}
