// Why a text isn't sealed by a set.

use thiserror::Error;

/// Why a text isn't sealed by a key of a set.
#[derive(Clone, Copy, Debug, PartialEq, Eq, Drop, Error)]
pub enum SealFault {
    /// Its header has no `kid`.
    #[error("the header names no key")]
    NoKid,
    /// No own key of the set has its header's `kid` and its algorithm.
    #[error("the set has no such key")]
    NoKey,
    /// Its signature doesn't verify under the key that its header names.
    #[error("the signature does not verify")]
    BadSignature,
    /// Memory was wanting.
    #[error("out of memory")]
    Memory,
}

impl From<fed_base::Memory> for SealFault {
    ghost use Rattle.std.specs.Prelude.{◌≡◌};
    ghost use Rattle.sealed.specs.declared.fault.SealFault.TheVariants.{Memory};

    ghost from_gives = { λ _ fault. fault ≡ Memory };

    fn from(_: fed_base::Memory) -> Self {
        SealFault::Memory
    }
}
