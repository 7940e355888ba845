// The answer of a test.

use crate::pairs::{Sealed, Unsealed};
use fed_base::{Duplicate, Memory};
use std::alloc::Global;

/// What the test of a text under a key answers.
#[derive(Drop)]
pub enum Tested {
    /// The text verifies under the key.
    Yes(Sealed),
    /// It doesn't.
    No(Unsealed),
}

impl Duplicate for Tested {
    fn copy(&self, alloc: Global) -> Result<Self, Memory> {
        match self {
            Tested::Yes(seal) => Ok(Tested::Yes(seal.copy(alloc)?)),
            Tested::No(miss) => Ok(Tested::No(miss.copy(alloc)?)),
        }
    }
}
