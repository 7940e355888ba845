// Why a parameter has no outcome.

use fed_base::Memory;
use policy_merge::Operator;

/// Why a parameter is left with no outcome.
#[derive(Drop)]
pub(crate) enum Stop {
    /// The operator refuses the parameter.
    Refused(Operator),
    /// Memory was wanting.
    Memory,
}

impl From<Memory> for Stop {
    ghost use Rattle.policy_apply.specs.declared.stop.Stop.TheVariants.{Memory};
    ghost use Rattle.std.specs.Prelude.{◌≡◌};

    ghost from_gives = { λ _ e. e ≡ Memory };

    fn from(_: Memory) -> Self {
        Stop::Memory
    }
}
