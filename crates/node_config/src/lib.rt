//! Layer 6, service: the configuration file of a node, an entity that answers for itself and for its subordinates (OpenID Federation 1.0
//! sections 3 and 8).
//!
//! A file says what the node is called, where its key ring is kept, what its entity configuration claims, of which entities it is a
//! superior and what it claims of them, which of its trust marks it revoked, and what it needs to resolve. The crate above issues
//! statements by it.
#![tactic(auto)]

mod addresses;
mod claims;
mod distinct;
mod entities;
mod fault;
mod members;
mod node;
mod resolver;
mod settings;
mod subordinates;

pub use entities::AnchorPart;
pub use fault::ConfigFault;
pub use node::NodeConfig;
pub use resolver::ResolverConfig;
pub use settings::OwnClaims;
pub use subordinates::{ClaimsAbout, Listing, SubordinateConfig};
