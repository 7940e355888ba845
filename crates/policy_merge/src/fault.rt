// Why a tree is no policy, and why policies don't merge.

ghost use Rattle.std.specs.Prelude.{◌≡◌, IfOk};

use crate::operator::Operator;
use fed_base::{Duplicate, Memory, Text};
use std::alloc::Global;
use thiserror::Error;

/// Why a tree is no policy.
#[derive(Clone, Copy, Debug, PartialEq, Eq, Drop, Error)]
pub enum PolicyShape {
    /// A level isn't an object, an operator's value hasn't the operator's shape, or the tree holds an `Odd`.
    #[error("not a metadata policy")]
    Shape,
    /// Memory was wanting.
    #[error("out of memory")]
    Memory,
}

impl From<Memory> for PolicyShape {
    ghost use Rattle.policy_merge.specs.declared.fault.PolicyShape.TheVariants.{Memory};
    ghost use Rattle.std.specs.Prelude.{◌≡◌};

    ghost from_gives = { λ _ e. e ≡ Memory };

    fn from(_: Memory) -> Self {
        PolicyShape::Memory
    }
}

/// Why a policy can't be used, or two policies can't be merged.
#[derive(Drop)]
pub enum PolicyFault {
    /// Two operators of the parameter don't stand together, or one operator has two values that can't be merged and is
    /// named twice.
    Conflict {
        /// The name of the entity type, which is UTF-8.
        entity_type: Text,
        /// The name of the parameter, which is UTF-8.
        parameter: Text,
        /// The operator that comes first in the order of the pairs.
        first: Operator,
        /// The other operator, or the same one.
        second: Operator,
    },
    /// Memory was wanting.
    Memory,
}

impl From<Memory> for PolicyFault {
    ghost use Rattle.policy_merge.specs.declared.fault.PolicyFault.TheVariants.{Memory};
    ghost use Rattle.std.specs.Prelude.{◌≡◌};

    ghost from_gives = { λ _ e. e ≡ Memory };

    fn from(_: Memory) -> Self {
        PolicyFault::Memory
    }
}

impl Duplicate for PolicyFault {
    fn copy(&self, alloc: Global) -> Result<Self, Memory> {
        match self {
            PolicyFault::Conflict {
                entity_type,
                parameter,
                first,
                second,
            } => Ok(PolicyFault::Conflict {
                entity_type: entity_type.copy(alloc)?,
                parameter: parameter.copy(alloc)?,
                first: *first,
                second: *second,
            }),
            PolicyFault::Memory => Ok(PolicyFault::Memory),
        }
    }
}
