//! Layer 7, the program: what a person reads of a chain that is refused.
//!
//! [`explain_verdict`] finds the cause of a verdict again in the chain's texts, and says it in [`Notes`](plain_notes::Notes): a text that
//! is no entity statement, names and signatures that don't link, a moment, a constraint or a policy that isn't met. It can't fail: where
//! memory is wanting, less is said. [`NamedKey`] is how a sentence names the key of a header, and [`difference_of`] how it says that two
//! identifiers differ, here and in `resolve_notes`.
#![tactic(auto)]

mod chains;
mod difference;
mod limits;
mod links;
mod named_key;
mod places;

pub use chains::{Asked, explain_verdict};
pub use difference::difference_of;
pub use named_key::NamedKey;
