//! Layer 6, service: which request of a node a method, a path, parameters and a body are (OpenID Federation 1.0 sections 8 and 9).
//!
//! A node is asked at a [`Place`]: under the path of its identifier, as a resolver or not. [`asked_for`] says what a request asks it for,
//! and that it asks for nothing where it isn't of the form of one of the node's requests. The crate above answers what is asked.
#![tactic(auto)]

mod asked;
mod change;
mod endpoints;
mod kind;
mod laws;
mod parameters;
mod place;
mod reading;
mod resolution;

pub use asked::Asked;
pub use change::AnchorChange;
pub use kind::Kind;
pub use laws::requests;
pub use place::Place;
pub use reading::asked_for;
pub use resolve_round::ResolveRequest;
