//! Layer 7, the program: what a node's configuration makes of it, for people.
//!
//! [`summary`] tells an entity, its keys and their ends, its trust marks, the entities below it, its trust anchors and routes, what it
//! serves where, and what ends within 30 days (OpenID Federation 1.0 sections 3 and 8). [`first_fault`] finds the first of its trust marks
//! that is none of its own. `cli_inspect` shows the node of `fed check-config` by them.
#![tactic(auto)]

mod ends;
mod entities;
mod keys;
mod lines;
mod marks;
mod served;
mod summaries;

pub use marks::first_fault;
pub use summaries::summary;
