// Why a round breaks off.

/// Why a round broke off.
#[derive(Clone, Copy, Debug, PartialEq, Eq, Drop)]
pub enum Halt {
    /// A shared object has counted so many calls, 2^62, and takes no more.
    Worn(u64),
    /// Memory was wanting.
    Memory,
}

impl From<fed_base::Memory> for Halt {
    ghost use Rattle.resolve_round.specs.declared.halt.Halt.TheVariants.{Memory};
    ghost use Rattle.std.specs.Prelude.{◌≡◌};

    ghost from_gives = { λ _ e. e ≡ Memory };

    fn from(_: fed_base::Memory) -> Self {
        Halt::Memory
    }
}
