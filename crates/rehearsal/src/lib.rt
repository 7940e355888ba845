//! Layer 7, program: a federation of a given size that is made in memory, resolved twice, and checked (OpenID Federation 1.0 sections 8.1,
//! 8.3, 9 and 10.2).
//!
//! A trust anchor, two superiors in a row below it and a leaf are made from their configurations, and what they publish stands in a link in
//! memory. A resolver is asked twice for the leaf, so that the second time it answers from its cache, and the chain of the second reply is
//! checked by itself. The crate above writes the summary.
#![tactic(auto)]

mod clock;
mod configurations;
mod fault;
mod federation;
mod keys;
mod rehearsing;
mod reply;
mod requesting;
mod resolver;
mod summary;

pub use fault::RehearsalFault;
pub use rehearsing::rehearse;
pub use summary::{Counts, Summary};
