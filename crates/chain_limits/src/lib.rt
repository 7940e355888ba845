//! Layer 4, statements: the constraints that the superiors of a chain set (OpenID Federation 1.0 section 6.2). They say how
//! many entities may stand between them and the leaf, which hosts the entities below them may have, and which types the leaf
//! may have.
//!
//! The crates above read them from subordinate statements, ask for the first limit that a chain passes, and drop the
//! types that aren't allowed from the leaf's metadata.
#![tactic(auto)]

mod constraints;
mod limits;
mod place;
mod reading;
mod shape;
mod types;
mod verdict;

pub use constraints::Constraints;
pub use limits::limits_met;
pub use place::Place;
pub use shape::LimitShape;
pub use types::allowed_types;
pub use verdict::LimitVerdict;
