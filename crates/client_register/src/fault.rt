// Why a relying party isn't registered.

use chain_check::Reason;
use fed_base::{Duplicate, Memory};
use std::alloc::Global;

/// Why a relying party isn't registered. Of several reasons the first in this order is told, with those of the finder before `Chain`.
#[derive(Drop)]
pub enum RegisterFault {
    /// What was posted is neither a JSON list of texts nor an entity's configuration.
    Form,
    /// The chain isn't valid. Places count from 0, the leaf's.
    Chain { place: u64, reason: Reason },
    /// The leaf's metadata under its superiors' policy has no type `openid_relying_party`.
    NoType,
    /// No chain was found for the posted configuration.
    NoChain,
    /// The search for one ended early.
    Spent,
    /// The search for one failed.
    Fault,
    /// Memory was wanting.
    Memory,
}

impl From<Memory> for RegisterFault {
    ghost use Rattle.std.specs.Prelude.{◌≡◌};
    ghost use Rattle.client_register.specs.declared.fault.RegisterFault.TheVariants.{Memory};

    ghost from_gives = { λ _ fault. fault ≡ Memory };

    fn from(_: Memory) -> Self {
        RegisterFault::Memory
    }
}

impl Duplicate for RegisterFault {
    fn copy(&self, alloc: Global) -> Result<Self, Memory> {
        match self {
            RegisterFault::Form => Ok(RegisterFault::Form),
            RegisterFault::Chain { place, reason } => Ok(RegisterFault::Chain {
                place: *place,
                reason: reason.copy(alloc)?,
            }),
            RegisterFault::NoType => Ok(RegisterFault::NoType),
            RegisterFault::NoChain => Ok(RegisterFault::NoChain),
            RegisterFault::Spent => Ok(RegisterFault::Spent),
            RegisterFault::Fault => Ok(RegisterFault::Fault),
            RegisterFault::Memory => Ok(RegisterFault::Memory),
        }
    }
}
