//! Layer 6, the service: the check of a resolver's reply by whoever consumes it (OpenID Federation 1.0 section 8.3).
//!
//! [`check_reply`] says of a text alone whether a relying party can act on it: that the resolver sealed it, that the chain that it carries
//! is valid by itself, and that the rest of it is what this chain says. The crate above reads the text, the keys and the moment.
#![tactic(auto)]

mod beside;
mod checking;
mod claimed;
mod flaw;
mod judging;
mod looked;
mod marks;
mod reading;
mod sealing;
mod verdict;

pub use checking::check_reply;
pub use claimed::Claimed;
pub use flaw::Flaw;
pub use verdict::{ReplyReason, ReplyVerdict};
