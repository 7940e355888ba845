// Why a tree is no key set.

use thiserror::Error;

/// Why a tree is no key set. A tree with several faults is refused for the first in this order: `NotSet`, then member
/// by member, `Shape` before `DoubleKid`. Members are counted from 0.
#[derive(Clone, Copy, Debug, PartialEq, Eq, Drop, Error)]
pub enum SetFault {
    /// The tree isn't an object whose `keys` is a list of at most 64 members.
    #[error("the value is not a set of at most 64 keys")]
    NotSet,
    /// The member at this place isn't an object, has no text `kty`, or holds a number that isn't kept; or it is of the
    /// type AKP and the algorithm SLH-DSA-SHA2-128s or SLH-DSA-SHA2-128f, and has no text `kid` or an empty one, no
    /// `pub` of 32 bytes in base64url, or a member `priv`.
    #[error("member {0} of the set is not a key")]
    Shape(u64),
    /// The member at this place has the text `kid` of an earlier one.
    #[error("member {0} of the set has the `kid` of an earlier one")]
    DoubleKid(u64),
    /// Memory was wanting.
    #[error("out of memory")]
    Memory,
}

impl From<fed_base::Memory> for SetFault {
    ghost use Rattle.std.specs.Prelude.{◌≡◌};
    ghost use Rattle.jwk_set.specs.declared.fault.SetFault.TheVariants.{Memory};

    ghost from_gives = { λ _ fault. fault ≡ Memory };

    fn from(_: fed_base::Memory) -> Self {
        SetFault::Memory
    }
}
