// Why what was posted isn't looked at.

ghost use Rattle.std.specs.Prelude.{◌≡◌};

use cli_commands::Stop;
use fed_base::Memory;
use node_files::NodeFault;

/// Why what was posted isn't looked at.
#[derive(Clone, Copy, Debug, PartialEq, Eq)]
pub enum RegisterStop {
    /// A file isn't there, is too long or isn't of its form, the node doesn't resolve, or the input is too long.
    Input,
    /// The configuration lists no such trust anchor.
    NoAnchor,
    /// The source failed.
    Source,
    /// The store failed.
    Store,
    /// Memory was wanting.
    Memory,
}

impl From<NodeFault> for RegisterStop {
    ghost use Rattle.register_once.specs.Stops.{of_node};

    ghost from_gives = { λ fault stop. stop ≡ of_node fault };

    fn from(fault: NodeFault) -> RegisterStop {
        match fault {
            NodeFault::Input => RegisterStop::Input,
            NodeFault::Store => RegisterStop::Store,
            NodeFault::Memory => RegisterStop::Memory,
        }
    }
}

impl From<Stop> for RegisterStop {
    ghost use Rattle.register_once.specs.Stops.{of_input};

    ghost from_gives = { λ fault stop. stop ≡ of_input fault };

    fn from(fault: Stop) -> RegisterStop {
        match fault {
            Stop::Source => RegisterStop::Source,
            Stop::Store => RegisterStop::Store,
            Stop::Memory => RegisterStop::Memory,
        }
    }
}

impl From<Memory> for RegisterStop {
    ghost use Rattle.register_once.specs.declared.stop.RegisterStop.TheVariants.{Memory as WantOfMemory};

    ghost from_gives = { λ _ stop. stop ≡ WantOfMemory };

    fn from(_: Memory) -> RegisterStop {
        RegisterStop::Memory
    }
}
