// How serving ended.

use node_files::NodeFault;
use statement_shelf::FedPass;

/// How serving ended.
#[derive(Drop)]
pub enum ResolverEnd {
    /// All connections were served. The pass has seen what any of them saw of the shared cache and book, and has the calls of all.
    Served(FedPass),
    /// The configuration file or the ring file that it names isn't there, is too long, or isn't of its form; or the node doesn't resolve.
    Input,
    /// The store failed.
    StoreFailed,
    /// The network failed to listen, or to accept a connection. Those who were accepted before were served and settled.
    NetworkFailed,
    /// The network failed to accept a connection. Those before were served, but to settle some of them memory was wanting.
    Unsettled,
    /// Memory was wanting.
    Memory,
    /// A shared object has counted 2^62 calls, which the pass has seen.
    Worn(FedPass),
}

impl From<NodeFault> for ResolverEnd {
    ghost use Rattle.std.specs.Prelude.{◌≡◌};
    ghost use Rattle.resolver_service.specs.Faults.{end_without_node};

    ghost from_gives = { λ fault end. end ≡ end_without_node fault };

    fn from(fault: NodeFault) -> ResolverEnd {
        match fault {
            NodeFault::Input => ResolverEnd::Input,
            NodeFault::Store => ResolverEnd::StoreFailed,
            NodeFault::Memory => ResolverEnd::Memory,
        }
    }
}
