//! Layer 6, the service: what the issuers of trust marks say of marks today (OpenID Federation 1.0 section 8.4).
//!
//! A resolver returns marks that were good when their issuers sealed them. The crates above ask each issuer that names a
//! status endpoint whether its marks still are, by posts of an [`Asker`], and keep the marks that are active and those that
//! nobody can be asked about ([`heed`]).
#![tactic(auto)]

mod asker;
mod form;
mod heeded;
mod heeding;
mod issuer;
pub mod laws;
mod memory_asker;
mod post;
mod question;
mod tell;

pub use asker::Asker;
pub use heeded::Heeded;
pub use heeding::heed;
pub use memory_asker::MemoryAsker;
pub use post::Post;
pub use tell::Tell;
