//! Layer 7, program: one resolve call of a node, over its network (OpenID Federation 1.0 section 8.3).
//!
//! A node is opened from its configuration file and asked for one entity, from an empty cache and with the keys that the configuration
//! gives the trust anchors. The crates above write what is answered, ask the issuers of the reply's trust marks, or register the entity.
#![tactic(auto)]

mod call;
pub mod laws;

pub use call::{OpenCall, open_call, resolve_at, resolve_once};
