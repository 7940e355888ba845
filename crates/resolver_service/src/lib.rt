//! Layer 7, program: a node that resolves, over its network (OpenID Federation 1.0 sections 8 and 8.3).
//!
//! A node is opened from its configuration file and takes a port. It answers batch after batch of connections, some of them at once: each
//! batch has as many desks as the configuration has workers, and no more than connections are left, and all of them share one cache and one
//! book of trust anchors' keys. The crate above tells how it ended.
#![tactic(auto)]

mod batch;
mod batches;
mod desks;
mod ending;
pub mod laws;
mod node;
mod server;
mod service;
mod stop;

pub use ending::ResolverEnd;
pub use service::serve_resolver;
