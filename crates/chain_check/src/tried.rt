// A text with what is known of its signature.

use fed_base::{Duplicate, Memory, Seq, Text};
use sealed::{Sealed, Unsealed};
use std::alloc::Global;

/// A text of a chain, with what is known of its signature.
#[derive(Drop)]
pub struct Tried {
    /// The signed text.
    pub text: Text,
    /// The pairs of the text and a key under which it verifies.
    pub seals: Seq<Sealed>,
    /// The pairs of the text and a key under which it doesn't verify.
    pub misses: Seq<Unsealed>,
}

impl Duplicate for Tried {
    fn copy(&self, alloc: Global) -> Result<Self, Memory> {
        Ok(Tried {
            text: self.text.copy(alloc)?,
            seals: self.seals.copy(alloc)?,
            misses: self.misses.copy(alloc)?,
        })
    }
}
