//! Layer 6, the service: the good trust marks of an entity, and the signed reply of a resolver (OpenID Federation 1.0 sections
//! 7.3 and 8.3.2).
//!
//! The crate above searches chains: of an entity, and of the issuers of its trust marks. It is told here which issuers to search
//! and which marks are good, and has what an entity's chain resolves to sealed as a reply.
#![tactic(auto)]

mod bounds;
mod chain;
mod claims;
mod issuers;
pub mod laws;
mod marks;
mod metadata;
mod reply;
mod resealing;
mod said;
mod sealing;
mod signer;

pub use bounds::{AnchorBounds, bounds_for};
pub use chain::chain_of;
pub use issuers::{Issuer, MarkIssuers};
pub use marks::{GoodMarks, good_marks};
pub use metadata::cut_to;
pub use reply::{Reply, seal_reply};
pub use resealing::{Resealed, reseal};
pub use said::Said;
pub use sealing::REPLY_TYPE;
pub use signer::Signer;
