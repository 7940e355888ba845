//! Layer 7, the program: why a node's configuration isn't read, at which place, and what a person reads of it.
//!
//! [`config_fault`] gives the first member that isn't of its form with the place in it that isn't, as `subordinates[17].jwks.keys[0].pub`,
//! exactly where `node_config` reads no configuration (OpenID Federation 1.0 sections 3 and 8). [`explain_config`] says it in one
//! sentence, the same for `check-config` and for a node that is opened, and [`explain_length`] what the node would state at too great a
//! length.
#![tactic(auto)]

mod claims;
mod entities;
mod fault;
mod finding;
mod forms;
mod keys;
mod lengths;
mod limits;
mod members;
mod places;
mod policies;
mod resolving;
mod sentences;
mod stop;

pub use fault::{Fault, Found, Kind};
pub use finding::config_fault;
pub use forms::Form;
pub use lengths::explain_length;
pub use sentences::explain_config;
