//! Layer 6, service: what a node answers as an authority: its entity configuration, statements about its subordinates, their list, and its
//! historical keys (OpenID Federation 1.0 sections 3 and 8).
//!
//! A [`Registry`] is a node's configuration with its key ring. The crate above answers requests by it.
#![tactic(auto)]

mod answers;
mod claims;
pub mod laws;
mod lengths;
mod metadata;
mod query;
mod registry;
mod sizes;
mod status;

pub use http_plain::{Media, Response};
pub use node_config::{AnchorPart, ConfigFault, ResolverConfig};
pub use query::ListQuery;
pub use registry::Registry;
