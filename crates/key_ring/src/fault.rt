// Why there is no ring, or no change of one.

use fed_base::{Duplicate, Memory, Text};
use std::alloc::Global;
use std::fmt;
use thiserror::Error;

/// Why a change of a ring isn't made.
#[derive(Clone, Copy, Debug, PartialEq, Eq, Drop, Error)]
pub enum OrderFault {
    /// The new key would end before it begins, or as it begins.
    #[error("the new key would end no later than it begins")]
    Exp,
    /// The key isn't live, or for a revocation is revoked already.
    #[error("the key is not in a state for this change")]
    NotLive,
    /// No live key would remain.
    #[error("no live key would remain")]
    LastLive,
    /// The ring has 16 keys.
    #[error("the ring has 16 keys")]
    Full,
}

/// Why there is no ring, or no change. The text that a fault carries is the name of a key (`kid`), 43 characters of base64url where it is
/// that of a key of the ring.
#[derive(Drop, Error)]
pub enum RingFault {
    /// The file isn't that of a ring.
    #[error("the file is not that of a key ring")]
    Shape,
    /// A key of this name is in the ring already.
    #[error("the key is in the ring already")]
    Known(Text),
    /// No key of the ring has this name.
    #[error("the ring has no such key")]
    Unknown(Text),
    /// The change isn't made.
    #[error("{0}")]
    Order(OrderFault),
    /// The store failed: its count of faults rose in the call, or stands at its last value, 2^64 - 1.
    #[error("the store failed")]
    StoreFault,
    /// Memory was wanting.
    #[error("out of memory")]
    Memory,
}

// As it is displayed, since a text of bytes has no form of its own for readers.
impl fmt::Debug for RingFault {
    fn fmt<W: fmt::Write>(&self, f: &mut fmt::Formatter<W>) -> fmt::Result {
        fmt::Display::fmt(self, f)
    }
}

impl From<Memory> for RingFault {
    ghost use Rattle.std.specs.Prelude.{◌≡◌};
    ghost use Rattle.key_ring.specs.declared.fault.RingFault.TheVariants.{Memory};

    ghost from_gives = { λ _ fault. fault ≡ Memory };

    fn from(_: Memory) -> Self {
        RingFault::Memory
    }
}

impl Duplicate for RingFault {
    fn copy(&self, alloc: Global) -> Result<Self, Memory> {
        match self {
            RingFault::Shape => Ok(RingFault::Shape),
            RingFault::Known(kid) => Ok(RingFault::Known(kid.copy(alloc)?)),
            RingFault::Unknown(kid) => Ok(RingFault::Unknown(kid.copy(alloc)?)),
            RingFault::Order(fault) => Ok(RingFault::Order(*fault)),
            RingFault::StoreFault => Ok(RingFault::StoreFault),
            RingFault::Memory => Ok(RingFault::Memory),
        }
    }
}
