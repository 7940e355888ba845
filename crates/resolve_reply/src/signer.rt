// Who signs replies.

use crate::bounds::AnchorBounds;
use entity_id::EntityId;
use fed_base::{Duplicate, Memory, Seq};
use slh_dsa::KeyPair;
use std::alloc::Global;

/// Who signs replies, for how long pages are kept, and how far searches go.
#[derive(Drop)]
pub struct Signer {
    /// The resolver, which the claim `iss` names.
    pub iss: EntityId,
    /// Its keys.
    pub keys: KeyPair,
    /// How many seconds a page is kept at most.
    pub age: u64,
    /// How far searches go, by trust anchor. An anchor without an entry has the usual bounds.
    pub bounds: Seq<AnchorBounds>,
    /// By how many workers a reply is signed: 1 to 16, where 0 is taken as 1 and more as 16.
    pub workers: u64,
}

impl Duplicate for Signer {
    fn copy(&self, alloc: Global) -> Result<Self, Memory> {
        let iss = self.iss.copy(alloc)?;
        let bounds = self.bounds.copy(alloc)?;
        Ok(Signer {
            iss,
            keys: self.keys.twin(),
            age: self.age,
            bounds,
            workers: self.workers,
        })
    }
}
