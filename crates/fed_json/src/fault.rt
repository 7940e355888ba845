// Why a text gives no tree.

use thiserror::Error;

/// Why a text gives no tree.
#[derive(Clone, Copy, Debug, PartialEq, Eq, Drop, Error)]
pub enum TreeFault {
    /// The text isn't JSON, nests deeper than 127, holds a number that no finite double is near, or isn't UTF-8.
    #[error("not a JSON text")]
    Syntax,
    /// Memory was wanting.
    #[error("out of memory")]
    Memory,
}

impl From<fed_base::Memory> for TreeFault {
    ghost use Rattle.fed_json.specs.declared.fault.TreeFault.TheVariants.{Memory};
    ghost use Rattle.std.specs.Prelude.{◌≡◌};

    ghost from_gives = { λ _ e. e ≡ Memory };

    fn from(_: fed_base::Memory) -> Self {
        TreeFault::Memory
    }
}
