// Why a text identifies no entity.

use thiserror::Error;

/// Why a text identifies no entity.
#[derive(Clone, Copy, Debug, PartialEq, Eq, Drop, Error)]
pub enum IdFault {
    /// More than 2,048 bytes, a backslash, a byte outside 0x21 to 0x7e, or no URL (URL Standard section 4.4).
    #[error("not a URL")]
    NotUrl,
    /// Neither `https://` nor `http://` in front.
    #[error("not a URL of the web")]
    Scheme,
    /// A question mark, a number sign or an at sign.
    #[error("a URL with a query, a fragment or user information")]
    Extra,
    /// Memory was wanting.
    #[error("out of memory")]
    Memory,
}

impl From<fed_base::Memory> for IdFault {
    ghost use Rattle.entity_id.specs.declared.fault.IdFault.TheVariants.{Memory};
    ghost use Rattle.std.specs.Prelude.{◌≡◌};

    ghost from_gives = { λ _ e. e ≡ Memory };

    fn from(_: fed_base::Memory) -> Self {
        IdFault::Memory
    }
}
