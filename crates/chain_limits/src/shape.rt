// Why a tree tells no constraints.

use thiserror::Error;

/// Why a tree tells no constraints.
#[derive(Clone, Copy, Debug, PartialEq, Eq, Drop, Error)]
pub enum LimitShape {
    /// The tree isn't an object, or one of the members that are read has another form than section 6.2 gives it.
    #[error("not the constraints of a statement")]
    Shape,
    /// Memory was wanting.
    #[error("out of memory")]
    Memory,
}

impl From<fed_base::Memory> for LimitShape {
    ghost use Rattle.chain_limits.specs.declared.shape.LimitShape.TheVariants.{Memory};
    ghost use Rattle.std.specs.Prelude.{◌≡◌};

    ghost from_gives = { λ _ e. e ≡ Memory };

    fn from(_: fed_base::Memory) -> Self {
        LimitShape::Memory
    }
}
