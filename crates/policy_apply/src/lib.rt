//! Layer 4, statements: metadata under a policy of OpenID Federation 1.0 (section 6.1.4.2).
//!
//! The chain checker merges the policies of a chain by `policy_merge` and applies the result to the leaf's metadata
//! here. What comes out keeps within each of the policies that were merged, `scope` where what is added to it are single words.
#![tactic(auto)]

mod acting;
mod applying;
mod fault;
mod stop;

pub use applying::apply;
pub use fault::ApplyFault;
