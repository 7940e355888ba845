// Why a chain isn't valid.

use fed_base::{Duplicate, Memory, Text};
use policy_merge::Operator;
use std::alloc::Global;

/// Why a chain isn't valid at a place. Of several reasons the first in this order is told, and of several places the
/// least; at one place the length of the path comes before the names, and a `Conflict` has the place at which merging
/// from the anchor down fails first, its highest.
#[derive(Drop)]
pub enum Reason {
    /// The text doesn't read as a statement, the chain is empty (at place 0) or has more than fourteen texts (at place 14).
    Form,
    /// Issuer or subject isn't the one that the place asks for.
    Names,
    /// The statement isn't current.
    Times,
    /// The text isn't signed by a key of its superior, or the leaf's not by one of its own.
    Signature,
    /// More entities stand below the superior than it allows (section 6.2.1).
    PathLength,
    /// The host of a subject isn't among the names that the superior allows (section 6.2.2).
    Name,
    /// The policy can't be merged with those above it: two operators of the parameter don't stand together, or one has
    /// two values and is named twice (section 6.1.3).
    Conflict {
        entity_type: Text,
        parameter: Text,
        first: Operator,
        second: Operator,
    },
    /// The leaf's metadata doesn't pass the operator of the merged policy. The place is 0.
    Policy {
        entity_type: Text,
        parameter: Text,
        operator: Operator,
    },
}

impl Duplicate for Reason {
    fn copy(&self, alloc: Global) -> Result<Self, Memory> {
        match self {
            Reason::Form => Ok(Reason::Form),
            Reason::Names => Ok(Reason::Names),
            Reason::Times => Ok(Reason::Times),
            Reason::Signature => Ok(Reason::Signature),
            Reason::PathLength => Ok(Reason::PathLength),
            Reason::Name => Ok(Reason::Name),
            Reason::Conflict {
                entity_type,
                parameter,
                first,
                second,
            } => Ok(Reason::Conflict {
                entity_type: entity_type.copy(alloc)?,
                parameter: parameter.copy(alloc)?,
                first: *first,
                second: *second,
            }),
            Reason::Policy {
                entity_type,
                parameter,
                operator,
            } => Ok(Reason::Policy {
                entity_type: entity_type.copy(alloc)?,
                parameter: parameter.copy(alloc)?,
                operator: *operator,
            }),
        }
    }
}
