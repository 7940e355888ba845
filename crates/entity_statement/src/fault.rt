// Why a text is no entity statement.

use fed_base::{Duplicate, Memory, Text};
use jwk_set::SetFault;
use std::alloc::Global;
use std::fmt;
use thiserror::Error;

/// Why a compact text, or a tree of claims, is no entity statement. Of several faults the first is answered: `Typ`,
/// `Tree`, and then claim by claim in the order of the fields of [`Statement`](crate::Statement), `crit` before all
/// others. The text that a fault carries is a claim's name, but for `Critical`.
#[derive(Drop, Error)]
pub enum StatementFault {
    /// The header's `typ` isn't `entity-statement+jwt`.
    #[error("the header's type is not that of an entity statement")]
    Typ,
    /// The payload isn't the JSON text of an object.
    #[error("the payload is not a JSON object")]
    Tree,
    /// The claim is required and absent.
    #[error("a claim that is required is absent")]
    Missing(Text),
    /// The claim hasn't its form.
    #[error("a claim has not its form")]
    Shape(Text),
    /// The claim `jwks` is no key set. Never `SetFault::Memory`.
    #[error("the claim `jwks` is not a key set")]
    Keys(SetFault),
    /// A claim of configurations in a statement about a subordinate, or the other way round.
    #[error("a claim is in a statement that it does not belong in")]
    Misplaced(Text),
    /// A claim, or an operator of metadata policies, that has to be understood and isn't.
    #[error("a claim or an operator that must be understood is not")]
    Critical(Text),
    /// Memory was wanting.
    #[error("out of memory")]
    Memory,
}

// As it is displayed, since a text of bytes has no form of its own for readers.
impl fmt::Debug for StatementFault {
    fn fmt<W: fmt::Write>(&self, f: &mut fmt::Formatter<W>) -> fmt::Result {
        fmt::Display::fmt(self, f)
    }
}

impl From<Memory> for StatementFault {
    ghost use Rattle.std.specs.Prelude.{◌≡◌};
    ghost use Rattle.entity_statement.specs.declared.fault.StatementFault.TheVariants.{Memory};

    ghost from_gives = { λ _ fault. fault ≡ Memory };

    fn from(_: Memory) -> Self {
        StatementFault::Memory
    }
}

impl Duplicate for StatementFault {
    fn copy(&self, alloc: Global) -> Result<Self, Memory> {
        match self {
            StatementFault::Typ => Ok(StatementFault::Typ),
            StatementFault::Tree => Ok(StatementFault::Tree),
            StatementFault::Missing(claim) => Ok(StatementFault::Missing(claim.copy(alloc)?)),
            StatementFault::Shape(claim) => Ok(StatementFault::Shape(claim.copy(alloc)?)),
            StatementFault::Keys(fault) => Ok(StatementFault::Keys(*fault)),
            StatementFault::Misplaced(claim) => Ok(StatementFault::Misplaced(claim.copy(alloc)?)),
            StatementFault::Critical(name) => Ok(StatementFault::Critical(name.copy(alloc)?)),
            StatementFault::Memory => Ok(StatementFault::Memory),
        }
    }
}
