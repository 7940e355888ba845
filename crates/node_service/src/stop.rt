// Why serving stopped.

ghost use Rattle.std.specs.Prelude.{◌≡◌};

use fed_ports::{Failed, Memory};

/// Why not all connections were served.
#[derive(Clone, Copy, Debug, PartialEq, Eq)]
pub(crate) enum Stop {
    /// The network failed to accept one.
    Network,
    /// Memory was wanting.
    Memory,
}

impl From<Memory> for Stop {
    ghost use Rattle.node_service.specs.declared.stop.Stop.TheVariants.{Memory as WantOfMemory};

    ghost from_gives = { λ _ stop. stop ≡ WantOfMemory };

    fn from(_: Memory) -> Stop {
        Stop::Memory
    }
}

impl From<Failed> for Stop {
    ghost use Rattle.node_service.specs.declared.stop.Stop.TheVariants.{Network as OfNetwork};

    ghost from_gives = { λ _ stop. stop ≡ OfNetwork };

    fn from(_: Failed) -> Stop {
        Stop::Network
    }
}
