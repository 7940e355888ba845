// Why a node can't be opened.

ghost use Rattle.std.specs.Prelude.{◌≡◌};

use fed_ports::Memory;

/// Why there is no node.
#[derive(Clone, Copy, Debug, PartialEq, Eq)]
pub enum NodeFault {
    /// A file isn't there, is too long, or isn't of its form.
    Input,
    /// The store failed.
    Store,
    /// Memory was wanting.
    Memory,
}

impl From<Memory> for NodeFault {
    ghost use Rattle.node_files.specs.declared.fault.NodeFault.TheVariants.{Memory as WantOfMemory};

    ghost from_gives = { λ _ fault. fault ≡ WantOfMemory };

    fn from(_: Memory) -> NodeFault {
        NodeFault::Memory
    }
}
