//! Layer 7, the program: what a person reads when a node starts.
//!
//! [`tell_of_start`] says who answers where, what the node knows and by which key it signs, and what looks wrong in its configuration
//! (OpenID Federation 1.0 sections 3 and 8). Where the node can't be opened it says nothing: what opens it then says why.
#![tactic(auto)]

mod file;
mod start;

pub use file::ring_name;
pub use start::{Start, tell_of_start};
