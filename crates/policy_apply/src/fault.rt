// Why metadata isn't what a policy asks for.

ghost use Rattle.std.specs.Prelude.{◌≡◌, IfOk};

use fed_base::{Duplicate, Memory, Text};
use policy_merge::Operator;
use std::alloc::Global;

/// Why metadata isn't what a policy asks for.
#[derive(Drop)]
pub enum ApplyFault {
    /// The operator of the policy refuses the parameter of the entity type.
    Refused {
        /// The name of the entity type, which is UTF-8.
        entity_type: Text,
        /// The name of the parameter, which is UTF-8.
        parameter: Text,
        /// The first operator that refuses, in the order in which they act.
        operator: Operator,
    },
    /// Memory was wanting.
    Memory,
}

impl From<Memory> for ApplyFault {
    ghost use Rattle.policy_apply.specs.declared.fault.ApplyFault.TheVariants.{Memory};
    ghost use Rattle.std.specs.Prelude.{◌≡◌};

    ghost from_gives = { λ _ e. e ≡ Memory };

    fn from(_: Memory) -> Self {
        ApplyFault::Memory
    }
}

impl Duplicate for ApplyFault {
    fn copy(&self, alloc: Global) -> Result<Self, Memory> {
        match self {
            ApplyFault::Refused {
                entity_type,
                parameter,
                operator,
            } => Ok(ApplyFault::Refused {
                entity_type: entity_type.copy(alloc)?,
                parameter: parameter.copy(alloc)?,
                operator: *operator,
            }),
            ApplyFault::Memory => Ok(ApplyFault::Memory),
        }
    }
}
