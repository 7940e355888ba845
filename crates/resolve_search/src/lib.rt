//! Layer 6, the service: the search round of a resolver.
//!
//! [`search_round`] searches for a trust chain from a leaf to a trust anchor (OpenID Federation 1.0 section 10.1). It fetches entity
//! configurations (section 9) and statements of superiors (section 8.1), looks for them in the shared cache first where it is a first
//! round, tests signatures, and judges each path up to the anchor as a chain. Everything that it does stands in a trace of
//! `resolve_round`.
#![tactic(auto)]

mod answering;
mod judging;
mod round;

pub use resolve_round::{Aim, Call, Halt};
pub use round::{FoundChain, RoundEnd, search_round};
