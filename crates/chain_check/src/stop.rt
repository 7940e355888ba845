// How a check ends early.

use crate::reason::Reason;
use fed_base::Memory;

/// Why a check ended before its end.
#[derive(Drop)]
pub(crate) enum Stop {
    /// The chain isn't valid.
    Refused { place: u64, reason: Reason },
    /// Memory was wanting.
    Memory,
}

impl From<Memory> for Stop {
    ghost use Rattle.std.specs.Prelude.{◌≡◌};
    ghost use Rattle.chain_check.specs.declared.stop.Stop.TheVariants.{Memory};

    ghost from_gives = { λ _ stop. stop ≡ Memory };

    fn from(_: Memory) -> Self {
        Stop::Memory
    }
}
