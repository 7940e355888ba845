// Why a batch stopped.

/// Why not all connections were served.
#[derive(Clone, Copy, Debug, PartialEq, Eq)]
pub(crate) enum Stop {
    /// The network failed to accept one.
    Network,
    /// The same, and memory was wanting to settle some of those before.
    Unsettled,
    /// Memory was wanting.
    Memory,
    /// A shared object has counted all calls that it can.
    Worn,
}
