// The answer where signatures are known in part.

use crate::verdict::Verdict;
use fed_base::{Duplicate, Memory};
use std::alloc::Global;

/// The answer on a chain whose signatures are known in part.
#[derive(Drop)]
pub enum Judged {
    /// What is known decides: the verdict.
    Told(Verdict),
    /// It doesn't: the first test that is wanted, of the text at the place, counted from 0, under the public key (PK.seed and
    /// PK.root).
    Untried { place: u64, public: [u8; 32] },
}

impl Duplicate for Judged {
    fn copy(&self, alloc: Global) -> Result<Self, Memory> {
        match self {
            Judged::Told(verdict) => Ok(Judged::Told(verdict.copy(alloc)?)),
            Judged::Untried { place, public } => Ok(Judged::Untried {
                place: *place,
                public: *public,
            }),
        }
    }
}
