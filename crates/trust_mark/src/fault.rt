// Why a text is no trust mark.

use fed_base::{Duplicate, Memory, Text};
use std::alloc::Global;
use std::fmt;
use thiserror::Error;

/// Why a compact text is no trust mark, no delegation, or no answer on a mark's status. Of several faults the first is
/// answered: `Typ`, `Tree`, and then claim by claim in the order of the fields of [`Mark`](crate::Mark) or
/// [`StatusAnswer`](crate::StatusAnswer). The text that a fault carries is a claim's name.
#[derive(Drop, Error)]
pub enum MarkFault {
    /// The header's `typ` isn't the one that is read.
    #[error("the header's type is another")]
    Typ,
    /// The payload isn't the JSON text of an object.
    #[error("the payload is not a JSON object")]
    Tree,
    /// The claim is required and absent.
    #[error("a claim that is required is absent")]
    Missing(Text),
    /// The claim hasn't its form.
    #[error("a claim has not its form")]
    Shape(Text),
    /// Memory was wanting.
    #[error("out of memory")]
    Memory,
}

// As it is displayed, since a text of bytes has no form of its own for readers.
impl fmt::Debug for MarkFault {
    fn fmt<W: fmt::Write>(&self, f: &mut fmt::Formatter<W>) -> fmt::Result {
        fmt::Display::fmt(self, f)
    }
}

impl From<Memory> for MarkFault {
    ghost use Rattle.std.specs.Prelude.{◌≡◌};
    ghost use Rattle.trust_mark.specs.declared.fault.MarkFault.TheVariants.{Memory};

    ghost from_gives = { λ _ fault. fault ≡ Memory };

    fn from(_: Memory) -> Self {
        MarkFault::Memory
    }
}

impl Duplicate for MarkFault {
    fn copy(&self, alloc: Global) -> Result<Self, Memory> {
        match self {
            MarkFault::Typ => Ok(MarkFault::Typ),
            MarkFault::Tree => Ok(MarkFault::Tree),
            MarkFault::Missing(claim) => Ok(MarkFault::Missing(claim.copy(alloc)?)),
            MarkFault::Shape(claim) => Ok(MarkFault::Shape(claim.copy(alloc)?)),
            MarkFault::Memory => Ok(MarkFault::Memory),
        }
    }
}
