//! Layer 6, service: one connection of a node, from the bytes of a request to those of its response (OpenID Federation 1.0 section 8).
//!
//! [`serve_one`] reads a request, reads the clock once, and writes one response. [`serve_many`] accepts a connection for each [`Desk`] and
//! serves them at once. The crate above settles them.
//!
//! A node that resolves answers a request for an entity's metadata by one resolve call ([`answer_resolution`]), and other keys for a trust
//! anchor by the word of a control key ([`answer_rotation`]; sections 8.3 and 8.9).
#![tactic(auto)]

mod answering;
mod bodies;
mod context;
mod desk;
mod handling;
mod laws;
mod many;
mod node;
mod part;
mod refusals;
mod resolution;
mod resolving;
mod rotation;
mod send;
mod served;
mod serving;
mod time;

pub use answering::{AnswerEnd, Answered, answer, answer_request};
pub use context::Context;
pub use desk::Desk;
pub use laws::{answers, authorities};
pub use many::serve_many;
pub use node::Node;
pub use node_requests::Kind;
pub use part::ResolverPart;
pub use resolution::{ResolveAnswer, answer_resolution};
pub use rotation::answer_rotation;
pub use served::Served;
pub use serving::{ServeFault, serve_one};
