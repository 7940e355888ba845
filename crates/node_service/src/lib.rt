//! Layer 7, program: a node that doesn't resolve, and answers connection after connection (OpenID Federation 1.0 section 8). It is opened
//! from its configuration file and the ring file that this names.
#![tactic(auto)]

mod authority;
mod connections;
mod no_link;
mod service;
mod stop;
mod tools;

pub use service::{ServiceEnd, serve_authority};
