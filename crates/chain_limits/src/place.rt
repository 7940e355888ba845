// What limits are about.

use crate::constraints::Constraints;
use fed_base::{Duplicate, Memory, Text};
use std::alloc::Global;

/// What a statement of a chain says that limits are about: the host of its subject, and its constraints.
#[derive(Drop)]
pub struct Place {
    /// The host of the subject's identifier, without a port.
    pub host: Text,
    /// What its issuer sets for the subject and those below it; the leaf's own count for nothing.
    pub limits: Constraints,
}

impl Duplicate for Place {
    fn copy(&self, alloc: Global) -> Result<Self, Memory> {
        let host = self.host.copy(alloc)?;
        let limits = self.limits.copy(alloc)?;
        Ok(Place { host, limits })
    }
}
