// Why there is no summary.

use fed_base::Memory;

/// Why a rehearsal has no summary.
#[derive(Clone, Copy, Debug, PartialEq, Eq)]
pub enum RehearsalFault {
    /// A shared object had counted 2^62 calls, which are all that it can.
    Worn,
    /// Memory was wanting.
    Memory,
}

impl From<Memory> for RehearsalFault {
    ghost use Rattle.rehearsal.specs.declared.fault.RehearsalFault.TheVariants.{Memory as WantOfMemory};
    ghost use Rattle.std.specs.Prelude.{◌≡◌};

    ghost from_gives = { λ _ fault. fault ≡ WantOfMemory };

    fn from(_: Memory) -> RehearsalFault {
        RehearsalFault::Memory
    }
}
