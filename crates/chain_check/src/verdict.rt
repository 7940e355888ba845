// The answer on a chain.

use crate::reason::Reason;
use entity_id::EntityId;
use fed_base::{Duplicate, Memory};
use fed_json::Json;
use std::alloc::Global;

/// What a valid chain says of its leaf.
#[derive(Drop)]
pub struct Resolved {
    /// The leaf, which is the subject of the first statement.
    pub leaf: EntityId,
    /// The least `exp` of the statements, in seconds since 1970: the chain is valid before it.
    pub exp: u64,
    /// The leaf's metadata under the merged policy of its superiors: an object from entity type to an object of parameters.
    pub metadata: Json,
}

/// The answer on a chain.
#[derive(Drop)]
pub enum Verdict {
    /// The chain is valid.
    Valid(Resolved),
    /// It isn't. Places count from 0, the leaf's.
    Refused { place: u64, reason: Reason },
}

impl Duplicate for Resolved {
    fn copy(&self, alloc: Global) -> Result<Self, Memory> {
        Ok(Resolved {
            leaf: self.leaf.copy(alloc)?,
            exp: self.exp,
            metadata: self.metadata.copy(alloc)?,
        })
    }
}

impl Duplicate for Verdict {
    fn copy(&self, alloc: Global) -> Result<Self, Memory> {
        match self {
            Verdict::Valid(resolved) => Ok(Verdict::Valid(resolved.copy(alloc)?)),
            Verdict::Refused { place, reason } => Ok(Verdict::Refused {
                place: *place,
                reason: reason.copy(alloc)?,
            }),
        }
    }
}
