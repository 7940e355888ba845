//! Layer 7, program: the files of a node. A node is opened from its configuration file and the ring file that this names, and what it
//! resolves with is taken from its configuration (OpenID Federation 1.0 section 8).
//!
//! What serves connections or resolves, above, begins with these, and says to a person what is amiss by the notes that stand here.
#![tactic(auto)]

mod fault;
mod notes;
mod opening;
mod parts;
mod post;

pub use fault::NodeFault;
pub use notes::{explain_accept, explain_port};
pub use opening::{open_authority, open_node, open_resolver};
pub use parts::{Parts, parts_of};
pub use post::Post;
