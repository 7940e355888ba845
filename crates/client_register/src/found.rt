// The answer of a finder.

use fed_base::{Duplicate, Memory, Seq, Text};
use std::alloc::Global;

/// What is found of an entity's trust chain. It isn't trusted: whoever asked checks it.
#[derive(Drop)]
pub enum Found {
    /// A chain, the entity's configuration first and the trust anchor's last.
    Chain(Seq<Text>),
    /// There is none.
    NoChain,
    /// The search ended early, since it had asked for as much as it may.
    Spent,
    /// Something that the search stands on failed.
    Fault,
}

impl Duplicate for Found {
    fn copy(&self, alloc: Global) -> Result<Self, Memory> {
        match self {
            Found::Chain(chain) => Ok(Found::Chain(chain.copy(alloc)?)),
            Found::NoChain => Ok(Found::NoChain),
            Found::Spent => Ok(Found::Spent),
            Found::Fault => Ok(Found::Fault),
        }
    }
}
