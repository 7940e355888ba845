//! Layer 6, the service: explicit registration of a relying party (OpenID Federation 1.0 section 12.2).
//!
//! A provider takes what a relying party posted, its entity configuration or its trust chain, and answers a signed registration, or why
//! there is none. The crate above reads the posted bytes and the moment, and has a [`Finder`] that looks for the chain of a configuration.
#![tactic(auto)]

mod claims;
mod fault;
mod finder;
mod found;
mod memory_finder;
mod posted;
mod registered;
mod registering;
mod registration;

pub use fault::RegisterFault;
pub use finder::Finder;
pub use found::Found;
pub use memory_finder::MemoryFinder;
pub use posted::Posted;
pub use registered::{REGISTRATION_TYPE, Registered};
pub use registering::register;
