//! Layer 5, chains: trust marks (OpenID Federation 1.0 section 7): what a mark, its delegation and an answer on its
//! status claim, and whether a mark is good.
//!
//! The crates above look whether an entity's marks are good for it, by the configuration of a trust anchor and the keys
//! of each mark's issuer ([`verify_mark`]), read marks of their own, and answer and read what has become of a mark.
#![tactic(auto)]

mod both;
mod claims;
mod conditions;
mod delegation;
mod fault;
mod grant;
mod mark;
mod payload;
mod signed;
mod status;
mod verdict;
mod verifying;

pub use conditions::{admits, issuers_of};
pub use fault::MarkFault;
pub use mark::{DELEGATION_TYPE, MARK_TYPE, Mark, delegation_of_claims, read_delegation};
pub use signed::{Signed, mark_of, signed_answer};
pub use status::{MarkStatus, STATUS_TYPE, StatusAnswer};
pub use verdict::{MarkReason, MarkVerdict};
pub use verifying::verify_mark;
