//! Layer 7, program: one explicit registration of a relying party by the node of a configuration file (OpenID Federation 1.0 section
//! 12.2).
//!
//! The node is opened from its files, what a relying party posted is read from an input, and the clock is read once. A posted trust chain
//! is registered as it is; the chain of a posted entity configuration is looked for over the network, by one resolve call of the node. The
//! crate above writes the registration, or why there is none.
#![tactic(auto)]

mod held_finder;
mod looking;
mod notes;
mod opening;
mod order;
mod registering;
mod stop;

pub use order::RegisterOrder;
pub use registering::{RegisterOutcome, register_once};
pub use stop::RegisterStop;
